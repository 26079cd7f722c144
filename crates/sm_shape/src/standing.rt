//! The test how a standing transfer begins.

ghost use Rattle.std.specs.Prelude.{◌≡◌, ◌≢◌, ◌↔◌, IsTrue, None};
ghost use Rattle.std.specs.List.{All};
ghost use Rattle.sm_model.specs.TransfersStand.{later, TransfersStand};
ghost use Rattle.sm_shape.specs.Blank.{blank};
ghost use Rattle.sm_shape.specs.Standing.{Lacks, BeginsAnew, IsFirstOf, FirstTime, StandsWith, OwnStandsWith, HasStanding};

use crate::reading::{kind_at, snapshots_at};
use crate::rules::has_snapshot;
use sm_base::{Ident, Kind, TransferKind};
use sm_model::{World, WorldRelation, WorldSnapshot, WorldTransfer};

fn lacks(snapshots: &[WorldSnapshot], ident: Ident) -> bool
    ensures { IsTrue result ↔ Lacks snapshots.now ident }
{
    !has_snapshot(snapshots, ident)
}

fn lacks_all(snapshots: &[WorldSnapshot], idents: &[Ident]) -> bool
    ensures { IsTrue result ↔ All (Lacks snapshots.now) idents.now }
{
    idents.iter().all(|ident| lacks(snapshots, *ident))
}

fn is_resync(transfer: &WorldTransfer) -> bool
    ensures { IsTrue result ↔ (transfer.now.kind ≡ TransferKind.Resync) }
{
    match transfer.kind {
        TransferKind::Resync => true,
        TransferKind::Initialize => false,
        TransferKind::Update => false,
    }
}

/// Whether the transfer is a resync that did nothing yet.
fn begins_anew(transfer: &WorldTransfer, snapshots: &[WorldSnapshot]) -> bool
    ensures { IsTrue result ↔ BeginsAnew transfer.now snapshots.now }
{
    if !is_resync(transfer) {
        return false;
    }
    if transfer.checkpoint != 0 {
        return false;
    }
    if !transfer.landed.is_empty() {
        return false;
    }
    if transfer.pruned {
        return false;
    }
    lacks_all(snapshots, &transfer.legs)
}

fn writable_fits(kind: Kind, transfer: &WorldTransfer, snapshots: &[WorldSnapshot]) -> bool
    ensures { IsTrue result ↔ ((kind ≡ Kind.Rw) → BeginsAnew transfer.now snapshots.now) }
{
    match kind {
        Kind::Rw => begins_anew(transfer, snapshots),
        Kind::Dp => true,
    }
}

fn resync_fits(base: Option<Ident>, transfer: &WorldTransfer) -> bool
    ensures { IsTrue result ↔ ((transfer.now.kind ≡ TransferKind.Resync) → base ≢ None) }
{
    !is_resync(transfer) || base.is_some()
}

fn later_fit(snapshots: &[WorldSnapshot], legs: &[Ident]) -> bool
    ensures { IsTrue result ↔ All (Lacks snapshots.now) (later legs.now) }
{
    match legs {
        [_, rest @ ..] => lacks_all(snapshots, rest),
        [] => true,
    }
}

fn are_first(first: Ident, snapshots: &[WorldSnapshot]) -> bool
    ensures { IsTrue result ↔ All (λ s. s.ident ≡ first) snapshots.now }
{
    snapshots.iter().all(|snapshot| snapshot.ident == first)
}

fn first_time(legs: &[Ident], snapshots: &[WorldSnapshot]) -> bool
    ensures { IsTrue result ↔ FirstTime legs.now snapshots.now }
{
    match legs {
        [first, ..] => are_first(*first, snapshots),
        [] => false,
    }
}

fn first_fits(base: Option<Ident>, legs: &[Ident], snapshots: &[WorldSnapshot]) -> bool
    ensures { IsTrue result ↔ ((base ≡ None) → FirstTime legs.now snapshots.now) }
{
    match base {
        Some(_) => true,
        None => first_time(legs, snapshots),
    }
}

fn transfer_stands(
    kind: Kind,
    snapshots: &[WorldSnapshot],
    relation: &WorldRelation,
    transfer: &WorldTransfer,
) -> bool
    ensures { IsTrue result ↔ StandsWith kind snapshots.now relation.now transfer.now }
{
    if !writable_fits(kind, transfer, snapshots) {
        return false;
    }
    if !resync_fits(relation.base, transfer) {
        return false;
    }
    if !later_fit(snapshots, &transfer.legs) {
        return false;
    }
    first_fits(relation.base, &transfer.legs, snapshots)
}

fn own_transfer_stands(kind: Kind, snapshots: &[WorldSnapshot], relation: &WorldRelation) -> bool
    ensures { IsTrue result ↔ OwnStandsWith kind snapshots.now relation.now }
{
    match &relation.transfer {
        Some(transfer) => transfer_stands(kind, snapshots, relation, transfer),
        None => true,
    }
}

fn has_standing(world: &World, relation: &WorldRelation) -> bool
    ensures { IsTrue result ↔ HasStanding (blank world.now) relation.now }
{
    let kind = kind_at(&world.volumes, relation.destination.0);
    let snapshots = snapshots_at(&world.volumes, relation.destination.0);
    own_transfer_stands(kind, snapshots, relation)
}

fn all_have_standing(world: &World, relations: &[WorldRelation]) -> bool
    ensures { IsTrue result ↔ All (HasStanding (blank world.now)) relations.now }
{
    relations
        .iter()
        .all(|relation| has_standing(world, relation))
}

/// Whether each transfer stands as one that was started, and as its destination shows.
pub fn transfers_stand(world: &World) -> bool
    ensures { IsTrue result ↔ TransfersStand (blank world.now) }
{
    all_have_standing(world, &world.relations)
}
