// Entries in the order in which they were made.
ghost use Rattle.std.specs.Prelude.{◌≡◌, ◌+◌, [], ◌∷◌, ◌++◌, OnOk};
ghost use Rattle.sm_history.specs.Log.{HasPlace, reserve_fault, Refuses};

use crate::fault::ActFault;
use sm_model::Entry;
use std::alloc::Global;
use std::marker::Model;

/// A list of entries that grows up to a limit, each at a place that was reserved before.
#[derive(Drop)]
pub struct History {
    limit: u32,
    entries: Vec<Entry>,
}

impl Model for History {
    ghost use Rattle.std.specs.Prelude.{◌-◌, ◌≤◌, length, vec_len, vec_capacity};
    ghost use Rattle.sm_history.specs.Log.{Log};

    ghost Value = { Log };

    ghost view = { λ h. record { limit = h.limit; entries = h.entries.items; room = vec_capacity h.entries - vec_len h.entries } };

    ghost invariant = { λ h. length h.entries.items ≤ h.limit };
}

impl History {
    /// A history without entries, which may get so many.
    pub fn new(alloc: Global, limit: u32) -> History
        ensures limit { result.limit ≡ limit }
        ensures none { result.entries ≡ [] }
    {
        History {
            limit,
            entries: Vec::new(alloc),
        }
    }

    /// Reserves the place of one more entry. `HistoryFull` comes exactly where there are as many entries
    /// as there may be, and `Unchanged` never.
    pub fn reserve(&mut self) -> Result<(), ActFault>
        ensures refused { Refuses (reserve_fault self.old) result }
        ensures ok { OnOk result (HasPlace self.new) }
        ensures limit { self.new.limit ≡ self.old.limit }
        ensures entries { self.new.entries ≡ self.old.entries }
    {
        if self.entries.len() == self.limit as usize {
            return Err(ActFault::HistoryFull);
        }
        self.entries.reserve(1)?;
        Ok(())
    }

    /// Adds an entry at the place that is reserved. It takes no memory.
    pub fn push(&mut self, entry: Entry)
        requires { HasPlace self.old }
        ensures limit { self.new.limit ≡ self.old.limit }
        ensures entries { self.new.entries ≡ self.old.entries ++ entry ∷ [] }
        ensures room { self.new.room + 1 ≡ self.old.room }
    {
        self.entries.push_reserved(entry);
    }

    /// The entries, oldest first. It takes no memory.
    pub fn entries(&self) -> &[Entry]
        ensures { result.now ≡ self.now.entries }
    {
        &self.entries
    }

    /// The entries, oldest first. It takes no memory.
    pub fn into_entries(self) -> Vec<Entry>
        ensures { result.items ≡ self.entries }
    {
        self.entries
    }
}
