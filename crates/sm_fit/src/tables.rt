//! Tables of where each number stands: 0 for nowhere, and one more than the place.

ghost use Rattle.std.specs.Prelude.{◌≡◌, ◌+◌, [], IfOk, slice_index, count_by, length, drop};
ghost use Rattle.std.specs.List.{flat_map};
ghost use Rattle.sm_shape.specs.Marks.{AtOnePlace, IsTableOf, one_map, maps_of};
ghost use Rattle.sm_fit.specs.Tables.{is_marked, is_new};

use sm_base::NoMemory;
use sm_model::{WorldSnapshot, WorldVolume};
use sm_shape::{take_map, take_snapshots};
use std::alloc::Global;

/// A table in which no number stands anywhere, for numbers up to the physical size.
#[tactic(auto, using(sm_shape::proofs::Tables::empty_table))]
fn empty_table(alloc: Global, physical: u32) -> Result<Vec<usize>, NoMemory>
    ensures { IfOk result (λ table. IsTableOf (physical + 1) table.items []) }
{
    Ok(vec![in alloc; 0usize; physical as usize + 1]?)
}

/// Marks where the numbers of snapshots stand, which is one place for each.
fn mark_snapshots(table: &mut [usize], snapshots: &[WorldSnapshot])
    requires empty { IsTableOf (length table.old) table.old [] }
    requires fits { AtOnePlace (length table.old) (flat_map one_map snapshots.now) }
    ensures { IsTableOf (length table.old) table.new (flat_map one_map snapshots.now) }
{
    take_snapshots(table, snapshots);
}

/// The same of all maps of a volume.
fn mark_volume(table: &mut [usize], volume: &WorldVolume)
    requires empty { IsTableOf (length table.old) table.old [] }
    requires fits { AtOnePlace (length table.old) (maps_of volume.now) }
    ensures { IsTableOf (length table.old) table.new (maps_of volume.now) }
{
    take_map(table, &volume.active);
    take_map(table, &volume.stable);
    take_snapshots(table, &volume.snapshots);
}

/// The table of the maps of snapshots.
pub fn snapshots_table(
    alloc: Global,
    physical: u32,
    snapshots: &[WorldSnapshot],
) -> Result<Vec<usize>, NoMemory>
    requires { AtOnePlace (physical + 1) (flat_map one_map snapshots.now) }
    ensures { IfOk result (λ table. IsTableOf (physical + 1) table.items (flat_map one_map snapshots.now)) }
{
    let mut table = empty_table(alloc, physical)?;
    mark_snapshots(&mut table, snapshots);
    Ok(table)
}

/// The table of all maps of a volume.
pub fn volume_table(alloc: Global, volume: &WorldVolume) -> Result<Vec<usize>, NoMemory>
    requires { AtOnePlace (volume.now.physical + 1) (maps_of volume.now) }
    ensures { IfOk result (λ table. IsTableOf (volume.now.physical + 1) table.items (maps_of volume.now)) }
{
    let mut table = empty_table(alloc, volume.physical)?;
    mark_volume(&mut table, volume);
    Ok(table)
}

/// What the table says of a number, 0 past its end.
pub fn entry(table: &[usize], number: u32) -> usize
    ensures { result ≡ slice_index table.now number }
{
    let index = number as usize;
    if index >= table.len() {
        return 0;
    }
    table[index]
}

/// How many entries say that their number stands somewhere.
fn count_marked(entries: &[usize]) -> usize
    ensures { result ≡ count_by is_marked entries.now }
{
    entries.iter().filter(|entry| **entry != 0).count()
}

/// How many numbers but 0 stand somewhere.
pub fn numbers_marked(table: &[usize]) -> usize
    ensures { result ≡ count_by is_marked (drop 1 table.now) }
{
    match table {
        [_, entries @ ..] => count_marked(entries),
        [] => 0,
    }
}

/// Whether it is a block's number, and stands nowhere in the table.
fn is_new(table: &[usize], number: u32) -> bool
    ensures { result ≡ is_new table.now number }
{
    number != 0 && entry(table, number) == 0
}

/// How many places of the map have a number that stands nowhere in the table.
pub fn count_new(table: &[usize], map: &[u32]) -> usize
    ensures { result ≡ count_by (is_new table.now) map.now }
{
    map.iter().filter(|number| is_new(table, **number)).count()
}
