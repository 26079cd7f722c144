// Steps that change a relationship alone.
ghost use Rattle.std.specs.Prelude.{◌≡◌, ℕ, IfOk};
ghost use Rattle.sm_defs.specs.World.{Up};
ghost use Rattle.sm_model.specs.Steps.{interrupted, interrupts};
ghost use Rattle.sm_model.specs.Due.{finish_effect, settled_relation, settle_effect, checkpoint_effect, insert_landed, ship_reason, ship_effect};
ghost use Rattle.oracle_steps.specs.Changes.{IsChange, transfer_behind};
ghost use Rattle.oracle_steps.specs.Seen.{running_of};

use crate::change::PlainChange;
use crate::shipping::cost;
use crate::values::PlainRunning;
use oracle_lists::{PlainSnapshot, landed_prefix};
use oracle_world::{
    PlainFault, back_at, copy_transfer, free, small, with_base, with_legs, with_transfer,
};
use sm_base::{Ident, NoMemory, PolicyKind, Reason};
use sm_model::{Reply, WorldRelation, WorldTransfer};
use std::alloc::Global;

/// The transfer, stopped for a reason: what landed past its checkpoint is forgotten.
pub fn interrupted(
    alloc: Global,
    transfer: &WorldTransfer,
    reason: Reason,
) -> Result<WorldTransfer, NoMemory>
    ensures { IfOk result (λ stopped. stopped ≡ interrupted reason transfer.now) }
{
    back_at(alloc, transfer, transfer.checkpoint, Some(reason))
}

/// A step that cannot go on.
pub(crate) fn interrupt(
    alloc: Global,
    x: &PlainRunning,
    reason: Reason,
) -> Result<PlainChange, PlainFault>
    ensures { (w : Up) (k : ℕ) → IfOk result (λ change. IsChange w k change (interrupts w k (running_of x.now) reason)) }
{
    let relation = x.relation;
    let stopped = interrupted(alloc, x.transfer, reason)?;
    Ok(PlainChange {
        reply: Reply::Interrupted {
            relation: relation.number,
            reason,
        },
        volume: None,
        relation: Some(with_transfer(relation, Some(stopped))),
    })
}

/// Settle without a leg: the transfer ends.
pub(crate) fn finish(x: &PlainRunning, base: Ident) -> PlainChange
    ensures { (w : Up) (k : ℕ) → IsChange w k result (finish_effect w k (running_of x.now) base) }
{
    let relation = x.relation;
    PlainChange {
        reply: Reply::Settled {
            relation: relation.number,
            base,
            ended: true,
        },
        volume: None,
        relation: Some(with_transfer(relation, None)),
    }
}

fn transfer_behind(
    alloc: Global,
    transfer: &WorldTransfer,
    later: &[Ident],
) -> Result<Option<WorldTransfer>, NoMemory>
    ensures { IfOk result (λ next. next ≡ transfer_behind transfer.now later.now) }
{
    match later {
        [] => Ok(None),
        [_, ..] => Ok(Some(with_legs(alloc, transfer, later)?)),
    }
}

fn settled_relation(
    alloc: Global,
    x: &PlainRunning,
    ident: Ident,
    later: &[Ident],
) -> Result<WorldRelation, NoMemory>
    ensures { IfOk result (λ relation. relation ≡ settled_relation (running_of x.now) ident later.now) }
{
    let transfer = transfer_behind(alloc, x.transfer, later)?;
    Ok(with_base(x.relation, Some(ident), transfer))
}

/// Settle: a published leg becomes the base.
pub(crate) fn settle(
    alloc: Global,
    x: &PlainRunning,
    ident: Ident,
    later: &[Ident],
) -> Result<PlainChange, PlainFault>
    ensures { (w : Up) (k : ℕ) → IfOk result (λ change. IsChange w k change (settle_effect w k (running_of x.now) ident later.now)) }
{
    let relation = x.relation;
    Ok(PlainChange {
        reply: Reply::Settled {
            relation: relation.number,
            base: ident,
            ended: false,
        },
        volume: None,
        relation: Some(settled_relation(alloc, x, ident, later)?),
    })
}

/// Checkpoint: what landed without a gap stays whatever happens.
pub(crate) fn checkpoint(alloc: Global, x: &PlainRunning) -> Result<PlainChange, PlainFault>
    ensures { (w : Up) (k : ℕ) → IfOk result (λ change. IsChange w k change (checkpoint_effect w k (running_of x.now))) }
{
    let relation = x.relation;
    let transfer = x.transfer;
    let prefix = small(landed_prefix(&transfer.landed))?;
    let checked = WorldTransfer {
        checkpoint: prefix,
        ..copy_transfer(alloc, transfer)?
    };
    Ok(PlainChange {
        reply: Reply::Checked {
            relation: relation.number,
            prefix,
        },
        volume: None,
        relation: Some(with_transfer(relation, Some(checked))),
    })
}

fn insert_landed(alloc: Global, index: u32, landed: &[u32]) -> Result<Vec<u32>, NoMemory>
    ensures { IfOk result (λ more. more.items ≡ insert_landed index landed.now) }
{
    match landed {
        [] => Ok(vec![in alloc; index; 1]?),
        [first, others @ ..] => {
            if index < *first {
                let mut more = Vec::from_slice(alloc, landed)?;
                more.insert(0, index)?;
                Ok(more)
            } else {
                let mut more = insert_landed(alloc, index, others)?;
                more.insert(0, *first)?;
                Ok(more)
            }
        }
    }
}

fn ship_reason(alloc: Global, x: &PlainRunning, need: u32) -> Result<Option<Reason>, PlainFault>
    ensures { IfOk result (λ reason. reason ≡ ship_reason (running_of x.now) need) }
{
    let policy = x.policy;
    let transfer = x.transfer;
    let free = small(free(alloc, x.destination)?)?;
    match policy.kind() {
        PolicyKind::AsyncMirror => Ok(None),
        PolicyKind::Vault => {
            if transfer.landed.is_empty() && free < need {
                Ok(Some(Reason::NoSpace { need, free }))
            } else {
                Ok(None)
            }
        }
    }
}

fn with_landed(
    alloc: Global,
    transfer: &WorldTransfer,
    index: u32,
) -> Result<WorldTransfer, NoMemory>
    ensures { IfOk result (λ next. next ≡ record transfer.now { landed = insert_landed index transfer.now.landed }) }
{
    Ok(WorldTransfer {
        landed: insert_landed(alloc, index, &transfer.landed)?,
        ..copy_transfer(alloc, transfer)?
    })
}

/// Ship: one block of a leg goes to the destination.
#[tactic(auto, unfolding(sm_model::specs::Due::unless))]
pub(crate) fn ship(
    alloc: Global,
    x: &PlainRunning,
    leg: &PlainSnapshot,
    index: u32,
) -> Result<PlainChange, PlainFault>
    ensures { (w : Up) (k : ℕ) → IfOk result (λ change. IsChange w k change (ship_effect w k (running_of x.now) leg.now index)) }
{
    let relation = x.relation;
    let cost = cost(alloc, x, leg)?;
    match ship_reason(alloc, x, cost)? {
        Some(reason) => interrupt(alloc, x, reason),
        None => {
            let next = with_landed(alloc, x.transfer, index)?;
            Ok(PlainChange {
                reply: Reply::Shipped {
                    relation: relation.number,
                    index,
                    cost,
                },
                volume: None,
                relation: Some(with_transfer(relation, Some(next))),
            })
        }
    }
}
