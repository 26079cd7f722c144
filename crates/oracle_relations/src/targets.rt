// The destination that an event names, and its relationship.
ghost use Rattle.std.specs.Prelude.{◌≡◌, ◌<◌, length, IfOk, IfSome, is_some, Err};
ghost use Rattle.sm_defs.specs.Edges.{is_empty, runs};
ghost use Rattle.sm_defs.specs.World.{volume_at, relation_at};
ghost use Rattle.sm_model.specs.Answers.{target_named};
ghost use Rattle.oracle_relations.specs.Targets.{IsTarget};

use crate::target::PlainTarget;
use oracle_volumes::place_of;
use oracle_world::{PlainFault, PlainNumber, PlainWorld, relation_to, runs, snapshots_at};
use sm_base::{Path, Refusal};
use sm_model::WorldRelation;
use std::alloc::Global;

/// The destination of the path with its relationship, where both stand.
#[tactic(auto, unfolding(sm_model::specs::Answers::target_named, sm_model::specs::Answers::and_then, sm_model::specs::Answers::some_or))]
pub(crate) fn target(world: &PlainWorld, path: &Path) -> Option<PlainTarget>
    ensures { IfSome result (λ t. IsTarget world.now path.now t) }
{
    let Some(destination) = place_of(world, path) else {
        return None;
    };
    let Some(relation) = relation_to(world, destination) else {
        return None;
    };
    Some(PlainTarget {
        destination,
        relation,
    })
}

/// The refusal of a path of which no destination stands with a relationship.
#[tactic(auto, unfolding(sm_model::specs::Answers::target_named, sm_model::specs::Answers::and_then, sm_model::specs::Answers::some_or))]
pub(crate) fn no_target(
    alloc: Global,
    world: &PlainWorld,
    path: &Path,
) -> Result<Refusal, PlainFault>
    ensures { IfOk result (λ refusal. target_named world.now path.now ≡ Err refusal) }
{
    let Some(destination) = place_of(world, path) else {
        return Ok(Refusal::NoVolume {
            path: path.copy(alloc)?,
        });
    };
    if relation_to(world, destination).is_some() {
        return Err(PlainFault::TooGreat {
            number: PlainNumber::Place,
        });
    }
    Ok(Refusal::NoRelation {
        path: path.copy(alloc)?,
    })
}

/// The relationship at a place.
pub fn relation(world: &PlainWorld, at: usize) -> &WorldRelation
    requires { at < length world.now.relations }
    ensures { result.now ≡ relation_at world.now at }
{
    &world.relations[at]
}

/// Whether the relationship at a place has a transfer.
pub(crate) fn has_transfer(world: &PlainWorld, at: usize) -> bool
    requires { at < length world.now.relations }
    ensures { result ≡ is_some (relation_at world.now at).transfer }
{
    relation(world, at).transfer.is_some()
}

/// Whether a transfer of the relationship at a place runs.
pub(crate) fn is_running(world: &PlainWorld, at: usize) -> bool
    requires { at < length world.now.relations }
    ensures { result ≡ runs (relation_at world.now at) }
{
    runs(relation(world, at))
}

/// Whether the volume at a place has no snapshot.
pub(crate) fn is_bare(world: &PlainWorld, at: usize) -> bool
    ensures { result ≡ is_empty (volume_at world.now at).snapshots }
{
    snapshots_at(world, at).is_empty()
}
