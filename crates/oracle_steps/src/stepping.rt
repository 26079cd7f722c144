// One step of a worker.
ghost use Rattle.std.specs.Prelude.{◌≡◌, IfOk, OnErr};
ghost use Rattle.sm_model.specs.Choice.{chosen};
ghost use Rattle.oracle_steps.specs.Changes.{changed_volume, changed_relation, changed};
ghost use Rattle.oracle_steps.specs.Chosen.{IsStepped};

use crate::change::{PlainChange, PlainPlaced};
use crate::choice::chosen;
use oracle_world::{PlainFault, PlainWorld};
use sm_model::{Reply, WorldRelation};
use std::alloc::Global;

fn put_volume(world: &mut PlainWorld, placed: Option<PlainPlaced>)
    ensures { world.new ≡ changed_volume world.old placed }
{
    if let Some(placed) = placed {
        let at = placed.at as usize;
        if at < world.volumes.len() {
            world.volumes[at] = placed.volume;
        }
    }
}

fn put_relation(world: &mut PlainWorld, at: usize, relation: Option<WorldRelation>)
    ensures { world.new ≡ changed_relation world.old at relation }
{
    if let Some(relation) = relation {
        if at < world.relations.len() {
            world.relations[at] = relation;
        }
    }
}

fn apply(world: &mut PlainWorld, at: usize, change: PlainChange) -> Reply
    ensures world { world.new ≡ changed world.old at change }
    ensures reply { result ≡ change.reply }
{
    let PlainChange {
        reply,
        volume,
        relation,
    } = change;
    put_volume(world, volume);
    put_relation(world, at, relation);
    reply
}

/// Does the step that this program chooses for an actor, and answers what it is told; none where no step
/// is due. An `Err` leaves the world.
pub fn step(world: &mut PlainWorld, alloc: Global, actor: u32) -> Result<Option<Reply>, PlainFault>
    ensures stepped { IfOk result (λ reply. IsStepped world.old (chosen world.old actor) reply world.new) }
    ensures err { OnErr result (world.new ≡ world.old) }
{
    match chosen(alloc, world, actor)? {
        None => Ok(None),
        Some(choice) => Ok(Some(apply(world, choice.at, choice.change))),
    }
}
