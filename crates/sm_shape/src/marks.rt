//! The test that in a volume each number stands at one place.

ghost use Rattle.std.specs.Prelude.{◌≡◌, ◌+◌, ◌-◌, ◌^◌, ◌<◌, ◌∷◌, [], map, ℕ, length, true, IfOk, IsTrue, ◌↔◌, if◌then◌else◌};
ghost use Rattle.std.specs.List.{flat_map};
ghost use Rattle.sm_shape.specs.Marks.{IsTableOf, AtOnePlace, TakesMaps, ident_in, free_at, with_number, one_map, maps_of};
ghost use Rattle.sm_base.specs.declared.numbers.Ident.{Ident};
ghost use Rattle.sm_defs.specs.Words.{KeysDiffer};

use sm_base::{Ident, NoMemory};
use sm_model::{WorldSnapshot, WorldVolume};
use std::alloc::Global;
use std::collections::HashSet;

/// Whether the number may stand at this place, and that it stands there from now on.
fn take_place(table: &mut [usize], place: usize, number: u32) -> bool
    requires { place < 2 ^ 64 - 1 }
    ensures may { result ≡ free_at table.old place number }
    ensures after { table.new ≡ (if result then with_number table.old place number else table.old) }
{
    if number == 0 {
        return true;
    }
    let index = number as usize;
    if index >= table.len() {
        return false;
    }
    let stood = table[index];
    if stood != 0 && stood != place + 1 {
        return false;
    }
    table[index] = place + 1;
    true
}

/// Whether the map's numbers may stand where they do, beside those of the maps before.
pub fn take_map(table: &mut [usize], map: &[u32]) -> bool
    ensures { (most : ℕ) → TakesMaps most table.old table.new (map.now ∷ []) result }
{
    for place in 0..map.len() {
        if !take_place(table, place, map[place]) {
            return false;
        }
    }
    true
}

/// The same of the maps of snapshots.
pub fn take_snapshots(table: &mut [usize], snapshots: &[WorldSnapshot]) -> bool
    ensures { (most : ℕ) → TakesMaps most table.old table.new (flat_map one_map snapshots.now) result }
{
    for snapshot in snapshots {
        if !take_map(table, &snapshot.map) {
            return false;
        }
    }
    true
}

/// The same of all maps of a volume.
fn take_volume(table: &mut [usize], volume: &WorldVolume) -> bool
    ensures { (most : ℕ) → TakesMaps most table.old table.new (maps_of volume.now) result }
{
    if !take_map(table, &volume.active) {
        return false;
    }
    if !take_map(table, &volume.stable) {
        return false;
    }
    take_snapshots(table, &volume.snapshots)
}

/// The same by a table of zeros.
fn volume_fits(table: &mut [usize], volume: &WorldVolume) -> bool
    requires { IsTableOf (length table.old) table.old [] }
    ensures { IsTrue result ↔ AtOnePlace (length table.old) (maps_of volume.now) }
{
    take_volume(table, volume)
}

/// Whether each number of the volume's maps stands at one place, and none is above the physical size.
#[tactic(auto, using(crate::proofs::Tables::empty_table, crate::proofs::Tables::empty_long))]
pub fn numbers_fit(alloc: Global, volume: &WorldVolume) -> Result<bool, NoMemory>
    ensures { IfOk result (λ fit. IsTrue fit ↔ AtOnePlace (volume.now.physical + 1) (maps_of volume.now)) }
{
    let mut table = vec![in alloc; 0usize; volume.physical as usize + 1]?;
    let fit = volume_fits(&mut table, volume);
    Ok(fit)
}

/// The identities of snapshots.
pub fn idents_of(alloc: Global, snapshots: &[WorldSnapshot]) -> Result<Vec<Ident>, NoMemory>
    ensures { IfOk result (λ list. list.items ≡ map ident_in snapshots.now) }
{
    let mut idents = Vec::new(alloc);
    for snapshot in snapshots {
        idents.push(snapshot.ident)?;
    }
    Ok(idents)
}

/// Whether no identity comes twice.
pub fn idents_differ(alloc: Global, idents: &[Ident]) -> Result<bool, NoMemory>
    ensures { IfOk result (λ differ. IsTrue differ ↔ KeysDiffer (λ (i : Ident). i) idents.now) }
{
    let mut known = HashSet::new(alloc);
    for ident in idents {
        if !known.insert(*ident)? {
            return Ok(false);
        }
    }
    Ok(true)
}
