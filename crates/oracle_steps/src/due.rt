// Which kind of step is due for a running transfer.
ghost use Rattle.std.specs.Prelude.{◌≡◌, ◌≤◌, ◌&&◌, not, Some, IfOk, OnErr};
ghost use Rattle.sm_defs.specs.Volume.{has};
ghost use Rattle.sm_model.specs.Due.{is_unpruned, kind_for_leg, kind_at_source, reserved_leg, lacks_reserved, kind_for, kind_reverting, is_reverting, kind_due};
ghost use Rattle.sm_model.specs.Steps.{snapshot_of};
ghost use Rattle.oracle_steps.specs.Kinds.{kind_of, kind_if, kind_ahead};
ghost use Rattle.oracle_steps.specs.Seen.{running_of};

use crate::kinds::PlainKind;
use crate::shipping::{all_landed, at_checkpoint, cost, snapshot_of};
use crate::values::PlainRunning;
use oracle_lists::{PlainSnapshot, has_copy};
use oracle_world::{PlainFault, PlainNumber, is_rw};
use sm_base::limits::LAST_NUMBER;
use sm_base::{Ident, PolicyKind, TransferKind};
use std::alloc::Global;

fn is_unpruned(x: &PlainRunning) -> bool
    ensures { result ≡ is_unpruned (running_of x.now) }
{
    let transfer = x.transfer;
    let policy = x.policy;
    match policy.kind() {
        PolicyKind::AsyncMirror => !transfer.pruned && transfer.checkpoint == 0,
        PolicyKind::Vault => false,
    }
}

fn kind_for_leg(
    alloc: Global,
    x: &PlainRunning,
    leg: &PlainSnapshot,
) -> Result<PlainKind, PlainFault>
    ensures { IfOk result (λ kind. kind_of kind ≡ kind_for_leg (running_of x.now) leg.now) }
{
    let cost = cost(alloc, x, leg)?;
    if is_unpruned(x) {
        Ok(PlainKind::Prune)
    } else if all_landed(x, cost) {
        Ok(PlainKind::Publish(leg.copy(alloc)?))
    } else if at_checkpoint(x, cost) {
        Ok(PlainKind::Checkpoint)
    } else {
        Ok(PlainKind::Ship(leg.copy(alloc)?))
    }
}

fn kind_at_source(
    alloc: Global,
    x: &PlainRunning,
    leg: Ident,
) -> Result<Option<PlainKind>, PlainFault>
    ensures { IfOk result (λ kind. kind_if kind ≡ kind_at_source (running_of x.now) (snapshot_of (running_of x.now).source.snapshots (Some leg))) }
{
    let source = x.source;
    match snapshot_of(&source.snapshots, Some(leg)) {
        None => Ok(None),
        Some(leg) => Ok(Some(kind_for_leg(alloc, x, leg)?)),
    }
}

/// The identity of the snapshot that a transfer makes itself.
pub fn reserved_leg(x: &PlainRunning) -> Result<Ident, PlainFault>
    ensures leg { IfOk result (λ ident. ident ≡ reserved_leg (running_of x.now)) }
    ensures great { OnErr result (LAST_NUMBER ≤ (running_of x.now).transfer.number) }
{
    let relation = x.relation;
    let transfer = x.transfer;
    let number = transfer.number;
    if number < LAST_NUMBER {
        Ok(Ident {
            origin: relation.source.0,
            seq: 2 * number + 1,
        })
    } else {
        Err(PlainFault::TooGreat {
            number: PlainNumber::Transfer,
        })
    }
}

fn lacks(snapshots: &[PlainSnapshot], reserved: bool, ident: Ident) -> bool
    ensures { result ≡ (reserved && not (has snapshots.now ident)) }
{
    reserved && !has_copy(snapshots, ident)
}

fn kind_ahead(alloc: Global, x: &PlainRunning, leg: Ident) -> Result<Option<PlainKind>, PlainFault>
    ensures { IfOk result (λ kind. kind_if kind ≡ kind_ahead (running_of x.now) leg) }
{
    let transfer = x.transfer;
    let source = x.source;
    let made = reserved_leg(x)?;
    if lacks(&source.snapshots, transfer.reserved, made) {
        Ok(Some(PlainKind::Prepare(made)))
    } else {
        kind_at_source(alloc, x, leg)
    }
}

fn kind_for(
    alloc: Global,
    x: &PlainRunning,
    legs: &[Ident],
) -> Result<Option<PlainKind>, PlainFault>
    ensures { IfOk result (λ kind. kind_if kind ≡ kind_for (running_of x.now) legs.now) }
{
    let relation = x.relation;
    let destination = x.destination;
    match legs {
        [] => match relation.base {
            None => Ok(None),
            Some(base) => Ok(Some(PlainKind::Finish(base))),
        },
        [leg, later @ ..] => {
            if has_copy(&destination.snapshots, *leg) {
                Ok(Some(PlainKind::Settle(*leg, Vec::from_slice(alloc, later)?)))
            } else {
                kind_ahead(alloc, x, *leg)
            }
        }
    }
}

fn is_reverting(x: &PlainRunning) -> bool
    ensures { result ≡ is_reverting (running_of x.now) }
{
    let transfer = x.transfer;
    let destination = x.destination;
    match transfer.kind {
        TransferKind::Resync => is_rw(destination.kind),
        TransferKind::Initialize => false,
        TransferKind::Update => false,
    }
}

fn kind_reverting(alloc: Global, x: &PlainRunning) -> Result<Option<PlainKind>, PlainFault>
    ensures { IfOk result (λ kind. kind_if kind ≡ kind_reverting (snapshot_of (running_of x.now).destination.snapshots (running_of x.now).relation.base)) }
{
    let relation = x.relation;
    let destination = x.destination;
    match snapshot_of(&destination.snapshots, relation.base) {
        None => Ok(None),
        Some(base) => Ok(Some(PlainKind::Revert(base.copy(alloc)?))),
    }
}

/// The one kind of step that is due for a running transfer. None is due only where a base or a leg is not
/// where every sound world has it.
pub fn kind_due(alloc: Global, x: &PlainRunning) -> Result<Option<PlainKind>, PlainFault>
    ensures { IfOk result (λ kind. kind_if kind ≡ kind_due (running_of x.now)) }
{
    let transfer = x.transfer;
    if is_reverting(x) {
        kind_reverting(alloc, x)
    } else {
        kind_for(alloc, x, &transfer.legs)
    }
}
