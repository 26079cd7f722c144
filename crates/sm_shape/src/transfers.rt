//! The rules of one transfer.

ghost use Rattle.std.specs.Prelude.{◌≡◌, ◌↔◌, ◌<◌, map, length, IsTrue, IfOk};
ghost use Rattle.std.specs.List.{All};
ghost use Rattle.sm_defs.specs.World.{Up};
ghost use Rattle.sm_shape.specs.Blank.{blank_volume};
ghost use Rattle.sm_model.specs.Crossed.{IsReservedLeg};
ghost use Rattle.sm_shape.specs.Rules.{IsLegOf, TransferFits, OwnTransferFits, HasCrossedTransfer};

use crate::marks::idents_differ;
use crate::rules::has_snapshot;
use sm_base::{Ident, NoMemory};
use sm_model::{WorldRelation, WorldTransfer, WorldVolume};
use std::alloc::Global;

/// Whether the identity is that of the snapshot that the transfer makes.
fn is_reserved(relation: &WorldRelation, transfer: &WorldTransfer, ident: Ident) -> bool
    ensures { IsTrue result ↔ IsReservedLeg relation.now transfer.now ident }
{
    transfer.reserved
        && ident.origin == relation.source.0
        && ident.seq % 2 == 1
        && ident.seq / 2 == transfer.number
}

fn is_leg(
    relation: &WorldRelation,
    transfer: &WorldTransfer,
    source: &WorldVolume,
    ident: Ident,
) -> bool
    ensures { IsTrue result ↔ IsLegOf relation.now transfer.now source.now ident }
{
    if has_snapshot(&source.snapshots, ident) {
        return true;
    }
    is_reserved(relation, transfer, ident)
}

fn legs_stand(
    relation: &WorldRelation,
    transfer: &WorldTransfer,
    source: &WorldVolume,
    legs: &[Ident],
) -> bool
    ensures { IsTrue result ↔ All (IsLegOf relation.now transfer.now source.now) legs.now }
{
    legs.iter()
        .all(|leg| is_leg(relation, transfer, source, *leg))
}

/// Whether the transfer meets the rules on its relationship and its legs.
pub fn transfer_fits(
    alloc: Global,
    relation: &WorldRelation,
    transfer: &WorldTransfer,
    source: &WorldVolume,
    next: u64,
) -> Result<bool, NoMemory>
    ensures { IfOk result (λ fits. IsTrue fits ↔ TransferFits relation.now transfer.now source.now next) }
{
    if !relation.source_half {
        return Ok(false);
    }
    if !relation.destination_half {
        return Ok(false);
    }
    if transfer.number < 1 {
        return Ok(false);
    }
    if transfer.number >= next {
        return Ok(false);
    }
    let differ = idents_differ(alloc, &transfer.legs)?;
    if !differ {
        return Ok(false);
    }
    Ok(legs_stand(relation, transfer, source, &transfer.legs))
}

/// The same of the relationship's transfer, if it has one.
fn own_transfer_fits(
    alloc: Global,
    relation: &WorldRelation,
    source: &WorldVolume,
    next: u64,
) -> Result<bool, NoMemory>
    ensures { IfOk result (λ fits. IsTrue fits ↔ OwnTransferFits relation.now source.now next) }
{
    match &relation.transfer {
        Some(transfer) => transfer_fits(alloc, relation, transfer, source, next),
        None => Ok(true),
    }
}

/// The same by what the world has.
pub fn transfer_rules(
    alloc: Global,
    volumes: &[WorldVolume],
    next: u64,
    relation: &WorldRelation,
) -> Result<bool, NoMemory>
    requires { relation.now.source < length volumes.now }
    ensures { IfOk result (λ fits. (w : Up) → w.volumes ≡ map blank_volume volumes.now → w.next_transfer ≡ next → IsTrue fits ↔ HasCrossedTransfer w relation.now) }
{
    let source = relation.source.0 as usize;
    let fits = own_transfer_fits(alloc, relation, &volumes[source], next)?;
    Ok(fits)
}
