//! The lists of a root, which contracts see as lists.

ghost use Rattle.std.specs.Prelude.{◌≡◌, IfOk};

use crate::root::RootSnapshot;
use sm_base::NoMemory;
use std::alloc::Global;
use std::marker::Model;
use std::sync::ArcSlice;

/// At which physical number each block of an image lies, from 1; 0 is a hole. Copies share the numbers.
#[derive(Debug, Drop)]
pub struct BlockMap {
    numbers: ArcSlice<u32>,
}

impl Model for BlockMap {
    ghost use Rattle.std.specs.Prelude.{List, ℕ};
    ghost use Rattle.std.specs.Arc.{arc_slice_items};

    ghost Value = { List ℕ };

    ghost view = { λ m. arc_slice_items m.numbers };
}

impl BlockMap {
    /// The map with these numbers, which it takes over.
    pub fn from_vec(numbers: Vec<u32>) -> Result<BlockMap, NoMemory>
        ensures { IfOk result (λ map. map ≡ numbers.items) }
    {
        Ok(BlockMap {
            numbers: ArcSlice::from_vec(numbers)?,
        })
    }

    /// The numbers.
    pub fn as_slice(&self) -> &[u32]
        ensures { result.now ≡ self.now }
    {
        self.numbers.as_slice()
    }

    /// A list of the numbers.
    pub fn to_vec(&self, alloc: Global) -> Result<Vec<u32>, NoMemory>
        ensures { IfOk result (λ numbers. numbers.items ≡ self.now) }
    {
        Ok(Vec::from_slice(alloc, self.as_slice())?)
    }

    /// An equal map. It takes memory only where the owners of the numbers cannot be counted.
    pub fn copy(&self) -> Result<BlockMap, NoMemory>
        ensures { IfOk result (λ map. map ≡ self.now) }
    {
        Ok(BlockMap {
            numbers: self.numbers.clone()?,
        })
    }
}

/// Snapshots, oldest first.
#[derive(Debug, Drop)]
pub struct Snapshots {
    snapshots: Vec<RootSnapshot>,
}

impl Model for Snapshots {
    ghost use Rattle.std.specs.Prelude.{List};
    ghost use Rattle.sm_root.specs.declared.root.RootSnapshot.{RootSnapshot};

    ghost Value = { List RootSnapshot };

    ghost view = { λ s. s.snapshots.items };
}

impl Snapshots {
    /// The list of these snapshots. It takes no memory.
    pub fn from_vec(snapshots: Vec<RootSnapshot>) -> Snapshots
        ensures { result ≡ snapshots.items }
    {
        Snapshots { snapshots }
    }

    /// The snapshots. It takes no memory.
    pub fn into_vec(self) -> Vec<RootSnapshot>
        ensures { result.items ≡ self }
    {
        self.snapshots
    }

    /// The snapshots.
    pub fn as_slice(&self) -> &[RootSnapshot]
        ensures { result.now ≡ self.now }
    {
        &self.snapshots
    }

    /// An equal list.
    pub fn copy(&self, alloc: Global) -> Result<Snapshots, NoMemory>
        ensures { IfOk result (λ list. list ≡ self.now) }
    {
        Ok(Snapshots {
            snapshots: copies(alloc, &self.snapshots)?,
        })
    }
}

fn copies(alloc: Global, snapshots: &[RootSnapshot]) -> Result<Vec<RootSnapshot>, NoMemory>
    ensures { IfOk result (λ list. list.items ≡ snapshots.now) }
{
    let mut list = Vec::new(alloc);
    for snapshot in snapshots {
        list.push(snapshot.copy(alloc)?)?;
    }
    Ok(list)
}
