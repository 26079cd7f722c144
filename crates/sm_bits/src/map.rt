ghost use Rattle.std.specs.Prelude.{◌≡◌, ◌<◌, ◌==◌, true, false, length, replicate, slice_set, IfOk};
ghost use Rattle.sm_bits.specs.Places.{has, size, union_of, difference_of, IsNextFrom};

use crate::words;
use sm_base::NoMemory;
use std::alloc::Global;
use std::marker::Model;

/// A set of places below a length: the blocks of a volume that are used, or those of an image.
#[derive(Debug, Drop)]
pub struct BitMap {
    places: u32,
    // Place 0 is the lowest bit of the first word; no bit is set from `places` on.
    words: Vec<u64>,
}

impl Model for BitMap {
    ghost use Rattle.std.specs.Prelude.{List, Bool};
    ghost use Rattle.sm_bits.specs.Words.{marks, AreWordsOf};

    ghost Value = { List Bool };

    ghost view = { λ m. marks m.places m.words.items };

    ghost invariant = { λ m. AreWordsOf m.places m.words.items };
}

impl BitMap {
    /// The empty set of places below `len`.
    pub fn new(alloc: Global, len: u32) -> Result<BitMap, NoMemory>
        ensures { IfOk result (λ map. map ≡ replicate len false) }
    {
        let rows = (len as usize + 511) / 512;
        Ok(BitMap {
            places: len,
            words: vec![in alloc; 0; 8 * rows]?,
        })
    }

    /// An equal set.
    pub fn copy(&self, alloc: Global) -> Result<BitMap, NoMemory>
        ensures { IfOk result (λ map. map ≡ self.now) }
    {
        Ok(BitMap {
            places: self.places,
            words: Vec::from_slice(alloc, &self.words)?,
        })
    }

    /// How many places there are, in the set or not.
    pub fn len(&self) -> u32
        ensures { result ≡ length self.now }
    {
        self.places
    }

    /// Whether there are no places at all.
    pub fn is_empty(&self) -> bool
        ensures { result ≡ (length self.now == 0) }
    {
        self.places == 0
    }

    /// Puts a place into the set.
    pub fn set(&mut self, at: u32)
        requires { at < length self.old }
        ensures { self.new ≡ slice_set self.old at true }
    {
        self.words[(at / 64) as usize] |= 1 << (at % 64);
    }

    /// Takes a place out of the set.
    pub fn clear(&mut self, at: u32)
        requires { at < length self.old }
        ensures { self.new ≡ slice_set self.old at false }
    {
        self.words[(at / 64) as usize] &= !(1 << (at % 64));
    }

    /// Whether a place is in the set.
    pub fn test(&self, at: u32) -> bool
        requires { at < length self.now }
        ensures { result ≡ has self.now at }
    {
        self.words[(at / 64) as usize] >> (at % 64) & 1 == 1
    }

    /// Adds the places of `other`, a set of as many places.
    pub fn union(&mut self, other: &BitMap)
        requires { length other.now ≡ length self.old }
        ensures { self.new ≡ union_of self.old other.now }
    {
        words::unite(&mut self.words, &other.words);
    }

    /// Takes away the places of `other`, a set of as many places.
    pub fn minus(&mut self, other: &BitMap)
        requires { length other.now ≡ length self.old }
        ensures { self.new ≡ difference_of self.old other.now }
    {
        words::subtract(&mut self.words, &other.words);
    }

    /// How many places are in the set.
    pub fn count(&self) -> u32
        ensures { result ≡ size self.now }
    {
        words::count(&self.words) as u32
    }

    /// The least place from `from` on that is in the set, if there is one.
    pub fn next_set(&self, from: u32) -> Option<u32>
        ensures { IsNextFrom self.now from result }
    {
        match words::next_bit(&self.words, from as usize) {
            Some(place) => Some(place as u32),
            None => None,
        }
    }
}
