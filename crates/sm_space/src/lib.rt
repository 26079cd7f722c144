//! The free block numbers of a volume.
#![tactic(auto)]

ghost use Rattle.std.specs.Prelude.{◌≡◌, ◌≢◌, ◌+◌, ◌<◌, ◌≤◌, ◌==◌, true, false, None, length, replicate, slice_set, IfOk, MatchOption};
ghost use Rattle.sm_bits.specs.Places.{has, size, HasNoneFrom, IsLeastFrom, IsNextFrom};
ghost use Rattle.sm_space.specs.Free.{free_of};

use sm_base::NoMemory;
use sm_bits::BitMap;
use std::alloc::Global;
use std::marker::Model;

// Puts all numbers into an empty set of `end` places.
fn fill(all: &mut BitMap, end: u32)
    requires some { 0 < end }
    requires empty { all.old ≡ replicate end false }
    ensures { all.new ≡ free_of (replicate end false) }
{
    for number in 1..end {
        all.set(number);
    }
}

// Makes `free` the numbers that `used` does not have, in whole words.
fn leave_free(free: &mut BitMap, all: &BitMap, used: &BitMap)
    requires same { length free.old ≡ length used.now }
    requires hole { has free.old 0 ≡ false }
    requires all { all.now ≡ free_of (replicate (length used.now) false) }
    ensures { free.new ≡ free_of used.now }
{
    free.union(all);
    free.minus(used);
}

/// The free numbers of the blocks from 1 to a physical size.
#[derive(Debug, Drop)]
pub struct Space {
    // Number 0 is the hole and never free.
    free: BitMap,
    // All numbers but the hole, so that a reset works on whole words.
    all: BitMap,
    // No number below it is free.
    least: u32,
    // How many numbers are free.
    count: u32,
}

impl Model for Space {
    ghost use Rattle.std.specs.Prelude.{List, Bool};
    ghost use Rattle.sm_space.specs.Free.{AreFreeNumbers};

    ghost Value = { List Bool };

    ghost view = { λ s. s.free };

    ghost invariant = { λ s. AreFreeNumbers s.free s.all s.least s.count };
}

impl Space {
    /// The numbers that `used`, a set of `physical + 1` places, does not have; place 0 is not looked at.
    pub fn new(alloc: Global, physical: u32, used: &BitMap) -> Result<Space, NoMemory>
        requires { length used.now ≡ physical + 1 }
        ensures { IfOk result (λ space. space ≡ free_of used.now) }
    {
        let end = used.len();
        let mut all = BitMap::new(alloc, end)?;
        fill(&mut all, end);
        let mut free = BitMap::new(alloc, end)?;
        leave_free(&mut free, &all, used);
        let count = free.count();
        Ok(Space {
            free,
            all,
            least: 1,
            count,
        })
    }

    /// An equal space.
    pub fn copy(&self, alloc: Global) -> Result<Space, NoMemory>
        ensures { IfOk result (λ space. space ≡ self.now) }
    {
        Ok(Space {
            free: self.free.copy(alloc)?,
            all: self.all.copy(alloc)?,
            least: self.least,
            count: self.count,
        })
    }

    /// Starts anew with the numbers that `used` does not have, a set of as many places as before.
    pub fn reset(&mut self, used: &BitMap)
        requires { length used.now ≡ length self.old }
        ensures { self.new ≡ free_of used.now }
    {
        leave_free(&mut self.free, &self.all, used);
        self.least = 1;
        self.count = self.free.count();
    }

    /// Takes the least free number, if there is one.
    pub fn take(&mut self) -> Option<u32>
        ensures taken { MatchOption result (self.new ≡ self.old) (λ number. self.new ≡ slice_set self.old number false) }
        ensures least { IsNextFrom self.old 0 result }
    {
        let number = self.free.next_set(self.least)?;
        self.free.clear(number);
        self.least = number + 1;
        self.count -= 1;
        Some(number)
    }

    /// Makes a used number free again.
    pub fn give(&mut self, number: u32)
        requires number { 1 ≤ number }
        requires inside { number < length self.old }
        requires used { has self.old number ≡ false }
        ensures { self.new ≡ slice_set self.old number true }
    {
        self.free.set(number);
        self.least = self.least.min(number);
        self.count += 1;
    }

    /// The least free number from `from` on, if there is one.
    pub fn next_free(&self, from: u32) -> Option<u32>
        ensures { IsNextFrom self.now from result }
    {
        self.free.next_set(from.max(self.least))
    }

    /// How many numbers are used.
    pub fn used(&self) -> u32
        ensures { result + size self.now + 1 ≡ length self.now }
    {
        self.free.len() - 1 - self.count
    }

    /// How many numbers are free.
    pub fn free(&self) -> u32
        ensures { result ≡ size self.now }
    {
        self.count
    }
}
