// What a snapshot is beside its map.
ghost use Rattle.std.specs.Prelude.{◌≡◌, ◌<◌, ◌^◌, IfOk};
ghost use Rattle.sm_root.specs.Condition.{IsHead, IsLabel, snapshot_of};

use crate::lists::BlockMap;
use crate::root::{RootSnapshot, copy_label};
use sm_base::{Ident, Label, NoMemory, SnapName};
use std::alloc::Global;

/// What a snapshot is beside its map.
#[derive(Debug, Drop)]
pub struct Head {
    /// Where it was taken, and its number there.
    pub ident: Ident,
    pub name: SnapName,
    pub label: Option<Label>,
    /// When it was taken, in seconds since 1970.
    pub time: u64,
    /// The number of the relationship that made it, 0 for a client.
    pub made: u32,
}

impl Head {
    /// The snapshot with this map.
    pub fn with_map(self, map: BlockMap) -> RootSnapshot
        ensures { result ≡ snapshot_of self map }
    {
        RootSnapshot {
            ident: self.ident,
            name: self.name,
            label: self.label,
            time: self.time,
            made: self.made,
            map,
        }
    }

    /// An equal head.
    pub fn copy(&self, alloc: Global) -> Result<Head, NoMemory>
        ensures { IfOk result (λ head. head ≡ self.now) }
    {
        Ok(Head {
            ident: self.ident,
            name: self.name.copy(alloc)?,
            label: copy_label(alloc, &self.label)?,
            time: self.time,
            made: self.made,
        })
    }

    /// What the types of the fields keep.
    pub fn told(&self)
        ensures { IsHead self.now }
    {
        let _ = self.name.text();
        tell_label(&self.label);
        tell_numbers(self.ident.origin, self.ident.seq, self.time, self.made);
    }
}

fn tell_label(label: &Option<Label>)
    ensures { IsLabel label.now }
{
    if let Some(label) = label {
        let _ = label.text();
    }
}

fn tell_numbers(origin: u32, seq: u64, time: u64, made: u32)
    ensures origin { origin < 2 ^ 32 }
    ensures seq { seq < 2 ^ 64 }
    ensures time { time < 2 ^ 64 }
    ensures made { made < 2 ^ 32 }
{
    let _ = (origin, seq, time, made);
}
