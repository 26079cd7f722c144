//! The test of what a mirror shipped.

ghost use Rattle.std.specs.Prelude.{◌≡◌, ◌↔◌, false, [], IsTrue};
ghost use Rattle.std.specs.List.{All};
ghost use Rattle.sm_defs.specs.Words.{has_ident};
ghost use Rattle.sm_model.specs.LegsFit.{IsChecked};
ghost use Rattle.sm_fit.specs.Shipped.{IsFreeAt, MapAgrees, LegAgrees, IsThere, SourceFits, MirrorLegFits, MirrorFirst, MirrorFits};

use crate::first::{is_there, is_to_fit, is_within};
use crate::reading::map_of;
use crate::tables::{count_new, entry};
use sm_base::Ident;
use sm_model::{WorldSnapshot, WorldTransfer};

/// Whether the number stands nowhere but at the place, by the table.
fn is_free_at(table: &[usize], place: usize, number: u32) -> bool
    ensures { IsTrue result ↔ IsFreeAt table.now place number }
{
    if number == 0 {
        return true;
    }
    let stood = entry(table, number);
    stood == 0 || stood - 1 == place
}

fn map_agrees(table: &[usize], map: &[u32]) -> bool
    ensures { IsTrue result ↔ MapAgrees table.now map.now }
{
    for place in 0..map.len() {
        if !is_free_at(table, place, map[place]) {
            return false;
        }
    }
    true
}

fn has_leg(legs: &[Ident], ident: Ident) -> bool
    ensures { result ≡ has_ident legs.now ident }
{
    legs.iter().any(|leg| *leg == ident)
}

fn leg_agrees(legs: &[Ident], table: &[usize], snapshot: &WorldSnapshot) -> bool
    ensures { IsTrue result ↔ LegAgrees legs.now table.now snapshot.now }
{
    !has_leg(legs, snapshot.ident) || map_agrees(table, &snapshot.map)
}

fn legs_agree(legs: &[Ident], table: &[usize], source: &[WorldSnapshot]) -> bool
    ensures { IsTrue result ↔ All (LegAgrees legs.now table.now) source.now }
{
    source
        .iter()
        .all(|snapshot| leg_agrees(legs, table, snapshot))
}

fn are_there(source: &[WorldSnapshot], legs: &[Ident]) -> bool
    ensures { IsTrue result ↔ All (IsThere source.now) legs.now }
{
    legs.iter().all(|leg| is_there(source, *leg))
}

/// Whether the source has each leg, and no number of theirs elsewhere than the destination.
fn source_fits(legs: &[Ident], table: &[usize], source: &[WorldSnapshot]) -> bool
    ensures { IsTrue result ↔ SourceFits legs.now table.now source.now }
{
    if !are_there(source, legs) {
        return false;
    }
    legs_agree(legs, table, source)
}

/// Whether the mirror was pruned for what it ships.
fn is_checked(transfer: &WorldTransfer) -> bool
    ensures { IsTrue result ↔ IsChecked transfer.now }
{
    transfer.pruned || transfer.checkpoint != 0
}

/// Whether nothing landed before the mirror was pruned.
fn is_fresh(transfer: &WorldTransfer) -> bool
    ensures { IsTrue result ↔ (transfer.now.pruned ≡ false → transfer.now.checkpoint ≡ 0 → transfer.now.landed ≡ []) }
{
    transfer.pruned || transfer.checkpoint != 0 || transfer.landed.is_empty()
}

fn leg_fits(table: &[usize], transfer: &WorldTransfer, source: &[WorldSnapshot], leg: Ident) -> bool
    ensures { IsTrue result ↔ MirrorLegFits transfer.now table.now source.now leg }
{
    if !is_there(source, leg) {
        return false;
    }
    let cost = count_new(table, map_of(source, leg));
    is_within(transfer, cost)
}

fn first_fits(
    table: &[usize],
    transfer: &WorldTransfer,
    source: &[WorldSnapshot],
    destination: &[WorldSnapshot],
    legs: &[Ident],
) -> bool
    ensures { IsTrue result ↔ MirrorFirst transfer.now table.now source.now destination.now legs.now }
{
    match legs {
        [leg, ..] => {
            if is_to_fit(transfer, destination, *leg) {
                leg_fits(table, transfer, source, *leg)
            } else {
                true
            }
        }
        [] => true,
    }
}

/// Whether what a mirror shipped fits its source and the table of its destination's snapshots.
pub fn mirror_fits(
    table: &[usize],
    transfer: &WorldTransfer,
    source: &[WorldSnapshot],
    destination: &[WorldSnapshot],
) -> bool
    ensures { IsTrue result ↔ MirrorFits transfer.now table.now source.now destination.now }
{
    if !is_fresh(transfer) {
        return false;
    }
    if is_checked(transfer) && !source_fits(&transfer.legs, table, source) {
        return false;
    }
    first_fits(table, transfer, source, destination, &transfer.legs)
}
