// A disk in memory, which fails where it is told to.
ghost use Rattle.std.specs.Prelude.{◌≡◌, ◌⊎◌, ◌+◌, ◌-◌, ◌^◌, ◌<◌, ◌≤◌, ◌||◌, ◌↔◌, ◌==◌, min, length, OnOk, OnErr, IfOk, IsTrue, IsOk, IsErr, Some, None, false, if◌then◌else◌};

use crate::Image;
use crate::store::Store;
use sm_base::{Failed, NoMemory};
use sm_disk::Disk;
use std::alloc::Global;
use std::collections::BTreeSet;

// Calls that fail until a restart.
#[derive(Clone, Copy, Debug, PartialEq, Eq)]
struct Stop {
    from: u64,
    // whether it has let a call fail
    has_failed: bool,
}

/// A simulated block device. It begins with zeros and keeps only what was written.
///
/// Its calls of `read`, `write` and `sync` are numbered from 1, up to `2^64 - 1`, where the number
/// stays. A call answers `Failed` exactly where `fail_at` or `stop_from` names it, or where a
/// write or a sync found no memory for its record, which raises `starved`.
#[derive(Drop)]
pub struct MemDisk {
    store: Store,
    // the calls so far
    calls: u64,
    failing: BTreeSet<u64>,
    stop: Option<Stop>,
    chosen: Image,
    starved: u64,
    faults: u64,
}

fn raised(count: u64) -> u64
    ensures { result ≡ min (count + 1) (2 ^ 64 - 1) }
{
    count.saturating_add(1)
}

impl MemDisk {
    ghost use Rattle.sm_disk.specs.Disk.{IsSynced};
    ghost use Rattle.sm_memdisk.specs.Simulated.{is_named, stop_names, stop_after, stop_lifted, next_call, with_stop, with_choice, starved_of, counted, raised as raised_once, state_of, IsFresh, IsTold};

    /// A disk of this many zeros, with nothing pending. It takes no memory yet.
    pub fn new(alloc: Global, len: u64) -> Result<MemDisk, NoMemory>
        ensures made { IsOk result }
        ensures fresh { IfOk result (IsFresh len) }
        ensures synced { IfOk result (λ disk. IsSynced (state_of disk)) }
    {
        Ok(MemDisk {
            store: Store::new(alloc, len),
            calls: 0,
            failing: BTreeSet::new(alloc),
            stop: None,
            chosen: Image::Old,
            starved: 0,
            faults: 0,
        })
    }

    /// Lets the call of that number fail, beside those that were named before.
    pub fn fail_at(&mut self, call: u64) -> Result<(), NoMemory>
        ensures named { OnOk result (IsTold self.old (λ k. is_named self.old k || k == call) self.new) }
        ensures unchanged { OnErr result (IsTold self.old (is_named self.old) self.new) }
    {
        self.failing.insert(call)?;
        Ok(())
    }

    /// Lets that call and all later ones fail, until the first restart after a call that it let
    /// fail. It takes the place of an earlier stop.
    pub fn stop_from(&mut self, call: u64)
        ensures { self.new ≡ with_stop self.old call }
    {
        self.stop = Some(Stop {
            from: call,
            has_failed: false,
        });
    }

    /// Sets what a restart leaves in pending ranges. `Old` is chosen at first.
    pub fn choose(&mut self, image: Image)
        ensures { self.new ≡ with_choice self.old image }
    {
        self.chosen = image;
    }

    /// How many writes and syncs found no memory for their record.
    pub fn starved(&self) -> u64
        ensures { result ≡ starved_of self.now }
    {
        self.starved
    }

    // Whether the stop lets that call fail, which it keeps in mind.
    fn stops(&mut self, call: u64) -> bool
        ensures names { result ≡ stop_names self.old.stop call }
        ensures kept { self.new ≡ record self.old { stop = stop_after self.old.stop (stop_names self.old.stop call) } }
    {
        match &mut self.stop {
            None => false,
            Some(stop) => {
                let stops = stop.from <= call;
                stop.has_failed = stop.has_failed | stops;
                stops
            }
        }
    }

    // Counts a call, and says whether it is to fail.
    fn fails(&mut self) -> bool
        ensures named { result ≡ is_named self.old (next_call self.old) }
        ensures counted { self.new ≡ counted self.old }
        ensures grows { self.old.faults ≤ self.new.faults }
    {
        self.calls = raised(self.calls);
        let call = self.calls;
        let stops = self.stops(call);
        let fails = stops | self.failing.contains(&call);
        if fails {
            self.faults = raised(self.faults);
        }
        fails
    }

    // A write or a sync found no memory for its record. A call that was to fail is counted already.
    fn starve(&mut self, fails: bool)
        ensures grows { self.old.faults ≤ self.new.faults }
        ensures counts { self.new ≡ record self.old { starved = raised_once self.old.starved; faults = if fails then self.old.faults else raised_once self.old.faults } }
    {
        self.starved = raised(self.starved);
        if !fails {
            self.faults = raised(self.faults);
        }
    }

    fn lift(&mut self)
        ensures { self.new ≡ record self.old { stop = stop_lifted self.old.stop } }
    {
        if let Some(stop) = self.stop
            && stop.has_failed
        {
            self.stop = None;
        }
    }
}

impl Disk for MemDisk {
    ghost use Rattle.sm_disk.specs.Image.{part};
    ghost use Rattle.sm_disk.specs.Disk.{Steps, IsQuiet, IsSynced, Wrote, MayHoldAny, IsCounted};
    ghost use Rattle.sm_memdisk.specs.Simulated.{state_of, is_named, next_call, counted, starved_of, HasWritten, HasSynced, HasRestarted, IsStarved, HasStarved};

    ghost state = { state_of };

    fn len(&self) -> u64 {
        self.store.len()
    }

    fn faults(&self) -> u64 {
        self.faults
    }

    fn read(&mut self, at: u64, into: &mut [u8]) -> Result<(), Failed>
        requires range { at + length into.old ≤ (state_of self.old).size }

        ensures bytes { OnOk result (IsTrue (state_of self.old).told → into.new ≡ part (state_of self.old).seen at (length into.old)) }
        ensures quiet { IsQuiet (state_of self.old) (state_of self.new) }
        ensures time { Steps (state_of self.old) (state_of self.new) }
        ensures cause { OnErr result (IsCounted (state_of self.old) (state_of self.new)) }

        // It fails exactly where it is named, and only counts itself.
        ensures exactly { IsErr result ↔ IsTrue (is_named self.old (next_call self.old)) }
        ensures counted { self.new ≡ counted self.old }
    {
        if self.fails() {
            return Err(Failed);
        }
        self.store.read(at, into);
        Ok(())
    }

    fn write(&mut self, at: u64, bytes: &[u8]) -> Result<(), Failed>
        requires range { at + length bytes.now ≤ (state_of self.old).size }

        ensures bytes { OnOk result (IsTrue (state_of self.old).told → part (state_of self.new).seen at (length bytes.now) ≡ bytes.now) }
        ensures range { Wrote (state_of self.old) at (length bytes.now) (state_of self.new) }
        ensures pending { OnOk result (MayHoldAny (state_of self.old) at (length bytes.now) (state_of self.new)) }
        ensures time { Steps (state_of self.old) (state_of self.new) }
        ensures cause { OnErr result (IsCounted (state_of self.old) (state_of self.new)) }

        // It fails exactly where it is named or starved.
        ensures named { IsTrue (is_named self.old (next_call self.old)) → IsErr result }
        ensures starved { starved_of self.old < starved_of self.new → IsErr result }
        ensures only { OnErr result (IsTrue (is_named self.old (next_call self.old)) ⊎ HasStarved self.old self.new) }

        // A write that is named is recorded and pending too.
        ensures done { OnOk result (HasWritten self.old at bytes.now self.new) }
        ensures failed { OnErr result (HasWritten self.old at bytes.now self.new ⊎ IsStarved self.old self.new) }
    {
        let fails = self.fails();
        match self.store.write(at, bytes) {
            Ok(()) => {
                if fails {
                    return Err(Failed);
                }
                Ok(())
            }
            Err(_) => {
                self.starve(fails);
                Err(Failed)
            }
        }
    }

    fn sync(&mut self) -> Result<(), Failed>
        ensures synced { OnOk result (IsSynced (state_of self.new)) }
        ensures failed { OnErr result (IsQuiet (state_of self.old) (state_of self.new)) }
        ensures seen { (state_of self.new).seen ≡ (state_of self.old).seen }
        ensures images { (c : _) → (state_of self.new).may_leave c → (state_of self.old).may_leave c }
        ensures time { Steps (state_of self.old) (state_of self.new) }
        ensures cause { OnErr result (IsCounted (state_of self.old) (state_of self.new)) }

        // It fails exactly where it is named or starved.
        ensures named { IsTrue (is_named self.old (next_call self.old)) → IsErr result }
        ensures starved { starved_of self.old < starved_of self.new → IsErr result }
        ensures only { OnErr result (IsTrue (is_named self.old (next_call self.old)) ⊎ HasStarved self.old self.new) }

        // A sync that fails leaves no record.
        ensures done { OnOk result (HasSynced self.old self.new) }
        ensures undone { OnErr result ((self.new ≡ counted self.old) ⊎ IsStarved self.old self.new) }
    {
        if self.fails() {
            return Err(Failed);
        }
        match self.store.sync() {
            Ok(()) => Ok(()),
            Err(_) => {
                self.starve(false);
                Err(Failed)
            }
        }
    }

    /// It takes no memory, and lifts a stop that has let a call fail.
    fn restart(&mut self)
        ensures image { IsTrue (state_of self.old).told → (state_of self.old).may_leave (state_of self.new).seen }
        ensures synced { IsSynced (state_of self.new) }
        ensures time { Steps (state_of self.old) (state_of self.new) }

        ensures done { HasRestarted self.old self.new }
    {
        self.lift();
        self.store.restart(self.chosen);
    }
}
