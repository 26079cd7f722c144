// Which due step this program takes for an actor, and what it changes.
ghost use Rattle.std.specs.Prelude.{◌≡◌, ◌<◌, ◌≤◌, ◌+◌, ◌^◌, ℕ, length, slice_get, IfOk, MatchOption, None, Some};
ghost use Rattle.std.specs.List.{find};
ghost use Rattle.sm_defs.specs.Volume.{numbers};
ghost use Rattle.sm_defs.specs.World.{Up};
ghost use Rattle.sm_model.specs.Choice.{running_from, running, taken, shippable, shipped, effect_for, chosen_for, chosen};
ghost use Rattle.sm_model.specs.Steps.{cost};
ghost use Rattle.sm_model.specs.Due.{tidy_due};
ghost use Rattle.oracle_steps.specs.Kinds.{kind_if};
ghost use Rattle.oracle_steps.specs.Chosen.{AreChange, IsChosen, found_at};
ghost use Rattle.oracle_steps.specs.Seen.{running_of};

use crate::change::{PlainChange, PlainChoice, PlainFound};
use crate::due::kind_due;
use crate::kinds::PlainKind;
use crate::progress::{checkpoint, finish, settle, ship};
use crate::publishing::{prepare, publish, tidy, tidy_due};
use crate::reverting::{prune, revert};
use crate::running::running_in;
use crate::shipping::{cost, shippable};
use crate::values::PlainRunning;
use oracle_lists::PlainSnapshot;
use oracle_world::{PlainFault, PlainNumber, PlainWorld, runs, small};
use sm_model::WorldRelation;
use std::alloc::Global;

fn count_running(relations: &[WorldRelation]) -> usize
    ensures count { (k : ℕ) → result ≡ length (running_from k relations.now) }
    ensures few { result ≤ length relations.now }
{
    match relations {
        [] => 0,
        [relation, others @ ..] => {
            let count = count_running(others);
            if runs(relation) { 1 + count } else { count }
        }
    }
}

fn nth_running(relations: &[WorldRelation], from: usize, n: usize) -> Option<PlainFound>
    requires { from + length relations.now < 2 ^ 64 }
    ensures { MatchOption result (slice_get (running_from from relations.now) n ≡ None) (λ f. slice_get (running_from from relations.now) n ≡ Some (found_at f)) }
{
    match relations {
        [] => None,
        [relation, others @ ..] => {
            if !runs(relation) {
                nth_running(others, from + 1, n)
            } else if n == 0 {
                Some(PlainFound { at: from, relation })
            } else {
                nth_running(others, from + 1, n - 1)
            }
        }
    }
}

/// The relationship whose transfer an actor takes a step of, where a transfer runs.
fn taken_running(world: &PlainWorld, actor: u32) -> Option<PlainFound>
    ensures { MatchOption result (taken actor (running world.now) ≡ None) (λ f. taken actor (running world.now) ≡ Some (found_at f)) }
{
    let count = count_running(&world.relations);
    if count == 0 {
        None
    } else {
        nth_running(&world.relations, 0, actor as usize % count)
    }
}

fn taken_index(indexes: &[u32], actor: u32) -> Option<u32>
    ensures { result ≡ taken actor indexes.now }
{
    match indexes {
        [] => None,
        [_, ..] => indexes.get(actor as usize % indexes.len()).copied(),
    }
}

fn change_of_ship(
    alloc: Global,
    x: &PlainRunning,
    leg: &PlainSnapshot,
    actor: u32,
) -> Result<Option<PlainChange>, PlainFault>
    ensures { (w : Up) (k : ℕ) → IfOk result (λ change. AreChange w k change (shipped w k (running_of x.now) leg.now (taken actor (shippable (running_of x.now) (cost (running_of x.now) leg.now))))) }
{
    let cost = cost(alloc, x, leg)?;
    let indexes = shippable(alloc, x, cost)?;
    match taken_index(&indexes, actor) {
        None => Ok(None),
        Some(index) => Ok(Some(ship(alloc, x, leg, index)?)),
    }
}

/// What a step of this kind changes, where an actor may choose for that actor.
fn change_for(
    alloc: Global,
    world: &PlainWorld,
    x: &PlainRunning,
    actor: u32,
    kind: Option<PlainKind>,
) -> Result<Option<PlainChange>, PlainFault>
    ensures { (k : ℕ) → IfOk result (λ change. AreChange world.now k change (effect_for world.now actor k (running_of x.now) (kind_if kind))) }
{
    let Some(kind) = kind else {
        return Ok(None);
    };
    match kind {
        PlainKind::Revert(base) => Ok(Some(revert(alloc, world, x, &base)?)),
        PlainKind::Finish(base) => Ok(Some(finish(x, base))),
        PlainKind::Settle(ident, later) => Ok(Some(settle(alloc, x, ident, &later)?)),
        PlainKind::Prepare(ident) => Ok(Some(prepare(alloc, world, x, ident)?)),
        PlainKind::Prune => Ok(Some(prune(alloc, world, x)?)),
        PlainKind::Publish(leg) => Ok(Some(publish(alloc, world, x, &leg)?)),
        PlainKind::Checkpoint => Ok(Some(checkpoint(alloc, x)?)),
        PlainKind::Ship(leg) => {
            let change = change_of_ship(alloc, x, &leg, actor)?;
            Ok(change)
        }
    }
}

/// What a step of a relationship's transfer changes.
fn change_with(
    alloc: Global,
    world: &PlainWorld,
    relation: &WorldRelation,
    actor: u32,
) -> Result<Option<PlainChange>, PlainFault>
    ensures { (k : ℕ) → IfOk result (λ change. AreChange world.now k change (chosen_for world.now actor relation.now k)) }
{
    match &relation.transfer {
        None => Ok(None),
        Some(transfer) => match running_in(world, relation, transfer) {
            None => Err(PlainFault::TooGreat {
                number: PlainNumber::Place,
            }),
            Some(x) => {
                let kind = kind_due(alloc, &x)?;
                change_for(alloc, world, &x, actor, kind)
            }
        },
    }
}

fn first_tidy(world: &PlainWorld, from: u32, count: u32) -> Option<u32>
    requires { from + count < 2 ^ 32 }
    ensures { result ≡ find (tidy_due world.now) (numbers from count) }
{
    if count == 0 {
        return None;
    }
    if tidy_due(world, from) {
        Some(from)
    } else {
        first_tidy(world, from + 1, count - 1)
    }
}

/// What the step of an actor changes, or none where nothing is due.
pub fn chosen(
    alloc: Global,
    world: &PlainWorld,
    actor: u32,
) -> Result<Option<PlainChoice>, PlainFault>
    ensures { IfOk result (λ choice. IsChosen world.now choice (chosen world.now actor)) }
{
    match taken_running(world, actor) {
        Some(found) => match change_with(alloc, world, found.relation, actor)? {
            None => Ok(None),
            Some(change) => Ok(Some(PlainChoice {
                at: found.at,
                change,
            })),
        },
        None => {
            let count = small(world.volumes.len())?;
            match first_tidy(world, 0, count) {
                None => Ok(None),
                Some(volume) => Ok(Some(PlainChoice {
                    at: 0,
                    change: tidy(alloc, world, volume)?,
                })),
            }
        }
    }
}
