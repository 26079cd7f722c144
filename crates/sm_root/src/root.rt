ghost use Rattle.std.specs.Prelude.{◌≡◌, IfOk};

use crate::lists::{BlockMap, Snapshots};
use sm_base::{Ident, Kind, Label, NoMemory, SnapName, VolNo};
use std::alloc::Global;

/// What a volume's disk keeps of the volume beside its blocks.
#[derive(Debug, Drop)]
pub struct Root {
    /// The volume that lies on the disk.
    pub number: VolNo,
    /// Whether clients may write it.
    pub kind: Kind,
    /// Volumes of one family have equal block numbers in equal snapshots.
    pub family: u64,
    /// Blocks of an image, from 1 to [`MOST_LOGICAL`](sm_base::limits::MOST_LOGICAL).
    pub logical: u32,
    /// Blocks of the disk, from `logical` to [`MOST_PHYSICAL`](sm_base::limits::MOST_PHYSICAL).
    pub physical: u32,
    /// The number of the next snapshot of a client, from 1 to [`LAST_NUMBER`](sm_base::limits::LAST_NUMBER).
    pub next: u64,
    /// The image of the last consistency point.
    pub stable: BlockMap,
    /// The snapshots, oldest first, at most [`RECORD_SNAPSHOTS`](crate::RECORD_SNAPSHOTS).
    pub snapshots: Snapshots,
}

/// A snapshot of a volume.
#[derive(Debug, Drop)]
pub struct RootSnapshot {
    pub ident: Ident,
    pub name: SnapName,
    pub label: Option<Label>,
    /// When it was taken, in seconds since 1970.
    pub time: u64,
    /// The number of the relationship that made it, 0 for a client.
    pub made: u32,
    pub map: BlockMap,
}

/// An equal label, where there is one.
pub fn copy_label(alloc: Global, label: &Option<Label>) -> Result<Option<Label>, NoMemory>
    ensures { IfOk result (λ copy. copy ≡ label.now) }
{
    match label {
        None => Ok(None),
        Some(label) => Ok(Some(label.copy(alloc)?)),
    }
}

impl RootSnapshot {
    /// An equal snapshot.
    pub fn copy(&self, alloc: Global) -> Result<RootSnapshot, NoMemory>
        ensures { IfOk result (λ snapshot. snapshot ≡ self.now) }
    {
        Ok(RootSnapshot {
            ident: self.ident,
            name: self.name.copy(alloc)?,
            label: copy_label(alloc, &self.label)?,
            time: self.time,
            made: self.made,
            map: self.map.copy()?,
        })
    }
}

impl Root {
    /// An equal root.
    pub fn copy(&self, alloc: Global) -> Result<Root, NoMemory>
        ensures { IfOk result (λ root. root ≡ self.now) }
    {
        Ok(Root {
            number: self.number,
            kind: self.kind,
            family: self.family,
            logical: self.logical,
            physical: self.physical,
            next: self.next,
            stable: self.stable.copy()?,
            snapshots: self.snapshots.copy(alloc)?,
        })
    }
}
