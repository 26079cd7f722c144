//! The test of what a vault shipped.

ghost use Rattle.std.specs.Prelude.{◌≡◌, ◌↔◌, IsTrue, IfOk, slice_index};
ghost use Rattle.sm_defs.specs.Volume.{free};
ghost use Rattle.sm_defs.specs.Missing.{is_missing_at};
ghost use Rattle.sm_defs.specs.World.{volume_at};
ghost use Rattle.sm_model.specs.TagsFit.{TagsFit, TagsFitIn};
ghost use Rattle.sm_shape.specs.Blank.{blank_volume, having};
ghost use Rattle.sm_fit.specs.Shipped.{vault_cost_of, VaultLegFits, VaultFirst};

use crate::first::{is_there, is_to_fit, is_within};
use crate::reading::map_of;
use crate::tables::{numbers_marked, volume_table};
use sm_base::{Ident, NoMemory};
use sm_model::{WorldSnapshot, WorldTransfer, WorldVolume};
use std::alloc::Global;

/// How many numbers no map of the volume has.
fn free_on(alloc: Global, volume: &WorldVolume) -> Result<usize, NoMemory>
    requires { TagsFitIn (blank_volume volume.now) }
    ensures { IfOk result (λ blocks. blocks ≡ free (blank_volume volume.now)) }
{
    let table = volume_table(alloc, volume)?;
    let used = numbers_marked(&table);
    Ok((volume.physical as usize).saturating_sub(used))
}

/// The same of the volume at the place.
pub fn free_at(alloc: Global, volumes: &[WorldVolume], place: u32) -> Result<usize, NoMemory>
    requires { TagsFit (having volumes.now) }
    ensures { IfOk result (λ blocks. blocks ≡ free (volume_at (having volumes.now) place)) }
{
    let at = place as usize;
    if at >= volumes.len() {
        return Ok(0);
    }
    free_on(alloc, &volumes[at])
}

/// The number at the place, 0 past the end.
fn number_at(map: &[u32], place: usize) -> u32
    ensures { result ≡ slice_index map.now place }
{
    if place >= map.len() {
        return 0;
    }
    map[place]
}

fn is_missing(number: u32, base: u32) -> bool
    ensures { result ≡ is_missing_at number base }
{
    number != 0 && number != base
}

/// At how many places the leg has a block that the base does not have there.
fn count_missing(leg: &[u32], base: &[u32]) -> usize
    ensures { result ≡ vault_cost_of leg.now base.now }
{
    let mut count = 0;
    for place in 0..leg.len() {
        if is_missing(leg[place], number_at(base, place)) {
            count += 1;
        }
    }
    count
}

fn leg_fits(
    base: &[u32],
    free: usize,
    transfer: &WorldTransfer,
    source: &[WorldSnapshot],
    leg: Ident,
) -> bool
    ensures { IsTrue result ↔ VaultLegFits transfer.now base.now free source.now leg }
{
    if !is_there(source, leg) {
        return false;
    }
    let cost = count_missing(map_of(source, leg), base);
    if cost > free {
        return false;
    }
    is_within(transfer, cost)
}

/// Whether what a vault shipped of its first leg fits the base, and so many free blocks.
pub fn first_fits(
    base: &[u32],
    free: usize,
    transfer: &WorldTransfer,
    source: &[WorldSnapshot],
    destination: &[WorldSnapshot],
    legs: &[Ident],
) -> bool
    ensures { IsTrue result ↔ VaultFirst transfer.now base.now free source.now destination.now legs.now }
{
    match legs {
        [leg, ..] => {
            if is_to_fit(transfer, destination, *leg) {
                leg_fits(base, free, transfer, source, *leg)
            } else {
                true
            }
        }
        [] => true,
    }
}
