// The steps that let a destination's snapshots go before anything is shipped.
ghost use Rattle.std.specs.Prelude.{◌≡◌, ◌-◌, ℕ, not, true, IfOk};
ghost use Rattle.std.specs.List.{filter};
ghost use Rattle.sm_defs.specs.Volume.{without};
ghost use Rattle.sm_defs.specs.Needed.{holder};
ghost use Rattle.sm_model.specs.OfTransfers.{as_reverted};
ghost use Rattle.sm_model.specs.Steps.{reverted};
ghost use Rattle.sm_model.specs.Due.{goes, has_other_family, revert_reason, revert_effect, prune_reason, prune_effect};
ghost use Rattle.oracle_steps.specs.Changes.{IsChange, reason_of_held, family_reverted};
ghost use Rattle.oracle_steps.specs.Seen.{running_of};
ghost use Rattle.sm_defs.specs.Made.{family_of_transfer};

use crate::change::{PlainChange, PlainPlaced};
use crate::progress::interrupt;
use crate::values::PlainRunning;
use oracle_lists::{
    PlainSnapshot, behind, copy_image, copy_snapshots, has_copy, sends_all, up_to, with_first,
    without_copies,
};
use oracle_world::{
    PlainFault, PlainNumber, PlainVolume, PlainWorld, copy_transfer, holder, is_needed, small,
    with_transfer,
};
use sm_base::limits::FIRST_MADE_FAMILY;
use sm_base::{Ident, Kind, NoMemory, PolicyKind, Reason};
use sm_model::{Reply, WorldTransfer};
use sm_policy::Policy;
use std::alloc::Global;

/// Why the first of some snapshots that somebody needs on a volume may not go.
fn held(world: &PlainWorld, volume: u32, snapshots: &[PlainSnapshot]) -> Option<Reason>
    ensures { result ≡ reason_of_held (holder world.now volume) snapshots.now }
{
    match snapshots {
        [] => None,
        [snapshot, newer @ ..] => match holder(world, volume, snapshot.ident) {
            Some(relation) => Some(Reason::HeldDownstream {
                ident: snapshot.ident,
                relation,
            }),
            None => held(world, volume, newer),
        },
    }
}

fn as_reverted(
    alloc: Global,
    policy: &Policy,
    ident: Ident,
    snapshots: &[PlainSnapshot],
) -> Result<Vec<PlainSnapshot>, NoMemory>
    ensures { IfOk result (λ all. all.items ≡ as_reverted policy.now ident snapshots.now) }
{
    match policy.kind() {
        PolicyKind::AsyncMirror => up_to(alloc, snapshots, ident),
        PolicyKind::Vault => copy_snapshots(alloc, snapshots),
    }
}

/// The family that belongs to a transfer alone.
pub(crate) fn family_of_transfer(transfer: u64) -> Result<u64, PlainFault>
    ensures { IfOk result (λ family. family ≡ family_of_transfer transfer) }
{
    match transfer.checked_add(FIRST_MADE_FAMILY) {
        Some(family) => Ok(family),
        None => Err(PlainFault::TooGreat {
            number: PlainNumber::Transfer,
        }),
    }
}

fn family_reverted(x: &PlainRunning) -> Result<u64, PlainFault>
    ensures { IfOk result (λ family. family ≡ family_reverted (running_of x.now)) }
{
    let policy = x.policy;
    let transfer = x.transfer;
    let destination = x.destination;
    match policy.kind() {
        PolicyKind::AsyncMirror => Ok(destination.family),
        PolicyKind::Vault => family_of_transfer(transfer.number),
    }
}

/// The destination as it was at the base, read-only again.
fn reverted(
    alloc: Global,
    x: &PlainRunning,
    base: &PlainSnapshot,
) -> Result<PlainVolume, PlainFault>
    ensures { IfOk result (λ volume. volume ≡ reverted (running_of x.now) base.now) }
{
    let destination = x.destination;
    let active = copy_image(alloc, &base.image)?;
    let stable = copy_image(alloc, &base.image)?;
    let snapshots = as_reverted(alloc, x.policy, base.ident, &destination.snapshots)?;
    Ok(PlainVolume {
        kind: Kind::Dp,
        family: family_reverted(x)?,
        ..destination.with_images(alloc, active, stable, snapshots)?
    })
}

fn revert_reason(world: &PlainWorld, x: &PlainRunning, base: Ident) -> Option<Reason>
    ensures { result ≡ revert_reason world.now (running_of x.now) base }
{
    let policy = x.policy;
    let relation = x.relation;
    let destination = x.destination;
    match policy.kind() {
        PolicyKind::AsyncMirror => held(
            world,
            relation.destination.0,
            behind(&destination.snapshots, base),
        ),
        PolicyKind::Vault => None,
    }
}

/// How many snapshots went, where the rest of a list stayed.
pub(crate) fn dropped(old: usize, new: usize) -> Result<u32, PlainFault>
    ensures { IfOk result (λ count. count ≡ old - new) }
{
    small(old.saturating_sub(new))
}

/// Revert: the destination goes back to its base.
#[tactic(auto, unfolding(sm_model::specs::Due::unless))]
pub(crate) fn revert(
    alloc: Global,
    world: &PlainWorld,
    x: &PlainRunning,
    base: &PlainSnapshot,
) -> Result<PlainChange, PlainFault>
    ensures { (k : ℕ) → IfOk result (λ change. IsChange world.now k change (revert_effect world.now k (running_of x.now) base.now)) }
{
    let relation = x.relation;
    let destination = x.destination;
    match revert_reason(world, x, base.ident) {
        Some(reason) => interrupt(alloc, x, reason),
        None => {
            let volume = reverted(alloc, x, base)?;
            let gone = dropped(destination.snapshots.len(), volume.snapshots.len())?;
            Ok(PlainChange {
                reply: Reply::Reverted {
                    relation: relation.number,
                    dropped: gone,
                },
                volume: Some(PlainPlaced {
                    at: relation.destination.0,
                    volume,
                }),
                relation: None,
            })
        }
    }
}

fn goes(world: &PlainWorld, x: &PlainRunning, snapshot: &PlainSnapshot) -> bool
    ensures { result ≡ goes world.now (running_of x.now) snapshot.now }
{
    let relation = x.relation;
    let source = x.source;
    let covered = sends_all(x.policy) || snapshot.maker != 0;
    !is_needed(world, relation.destination.0, snapshot.ident)
        && (!has_copy(&source.snapshots, snapshot.ident) || !covered)
}

fn stays(world: &PlainWorld, x: &PlainRunning, snapshot: &PlainSnapshot) -> bool
    ensures { result ≡ not (goes world.now (running_of x.now) snapshot.now) }
{
    !goes(world, x, snapshot)
}

fn unpruned_of(
    alloc: Global,
    world: &PlainWorld,
    x: &PlainRunning,
    snapshots: &[PlainSnapshot],
) -> Result<Vec<PlainSnapshot>, NoMemory>
    ensures { IfOk result (λ all. all.items ≡ filter (λ s. not (goes world.now (running_of x.now) s)) snapshots.now) }
{
    match snapshots {
        [] => Ok(Vec::new(alloc)),
        [snapshot, newer @ ..] => {
            let all = unpruned_of(alloc, world, x, newer)?;
            if stays(world, x, snapshot) {
                with_first(snapshot.copy(alloc)?, all)
            } else {
                Ok(all)
            }
        }
    }
}

/// Whether a mirror's destination has block numbers of another family than its source.
pub(crate) fn has_other_family(x: &PlainRunning) -> bool
    ensures { result ≡ has_other_family (running_of x.now) }
{
    let policy = x.policy;
    let source = x.source;
    let destination = x.destination;
    match policy.kind() {
        PolicyKind::AsyncMirror => {
            !destination.snapshots.is_empty() && source.family != destination.family
        }
        PolicyKind::Vault => false,
    }
}

fn prune_reason(
    alloc: Global,
    world: &PlainWorld,
    x: &PlainRunning,
) -> Result<Option<Reason>, NoMemory>
    ensures { IfOk result (λ reason. reason ≡ prune_reason world.now (running_of x.now)) }
{
    let relation = x.relation;
    let source = x.source;
    let destination = x.destination;
    let lost = without_copies(alloc, &destination.snapshots, &source.snapshots)?;
    match held(world, relation.destination.0, &lost) {
        Some(reason) => Ok(Some(reason)),
        None => {
            if has_other_family(x) {
                Ok(Some(Reason::OtherLayout))
            } else {
                Ok(None)
            }
        }
    }
}

/// The destination without what goes.
fn pruned(alloc: Global, world: &PlainWorld, x: &PlainRunning) -> Result<PlainVolume, NoMemory>
    ensures { IfOk result (λ volume. volume ≡ without (goes world.now (running_of x.now)) (running_of x.now).destination) }
{
    let destination = x.destination;
    let stay = unpruned_of(alloc, world, x, &destination.snapshots)?;
    destination.with_snapshots(alloc, stay)
}

fn with_pruned(alloc: Global, transfer: &WorldTransfer) -> Result<WorldTransfer, NoMemory>
    ensures { IfOk result (λ next. next ≡ record transfer.now { pruned = true }) }
{
    Ok(WorldTransfer {
        pruned: true,
        ..copy_transfer(alloc, transfer)?
    })
}

/// Prune: the destination lets go what a mirror does not keep.
#[tactic(auto, unfolding(sm_model::specs::Due::unless))]
pub(crate) fn prune(
    alloc: Global,
    world: &PlainWorld,
    x: &PlainRunning,
) -> Result<PlainChange, PlainFault>
    ensures { (k : ℕ) → IfOk result (λ change. IsChange world.now k change (prune_effect world.now k (running_of x.now))) }
{
    let relation = x.relation;
    let destination = x.destination;
    match prune_reason(alloc, world, x)? {
        Some(reason) => interrupt(alloc, x, reason),
        None => {
            let volume = pruned(alloc, world, x)?;
            let gone = dropped(destination.snapshots.len(), volume.snapshots.len())?;
            let next = with_pruned(alloc, x.transfer)?;
            Ok(PlainChange {
                reply: Reply::Pruned {
                    relation: relation.number,
                    dropped: gone,
                },
                volume: Some(PlainPlaced {
                    at: relation.destination.0,
                    volume,
                }),
                relation: Some(with_transfer(relation, Some(next))),
            })
        }
    }
}
