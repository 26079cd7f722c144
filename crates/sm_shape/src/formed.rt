//! The test that a world has the form of what records spell.

ghost use Rattle.std.specs.Prelude.{◌≡◌, ◌≤◌, ◌↔◌, IsTrue, length};
ghost use Rattle.sm_base.specs.declared.limits.TheConstants.{MOST_VOLUMES, MOST_POLICIES, MOST_RELATIONS};
ghost use Rattle.sm_model.specs.Formed.{Formed};
ghost use Rattle.sm_shape.specs.Blank.{blank};
ghost use Rattle.sm_shape.specs.Forms.{CountsForm, CountersForm};

use crate::policies::policies_form;
use crate::relations::relations_form;
use crate::volumes::volumes_form;
use sm_base::limits::{
    LAST_NUMBER, LAST_RELATION, LAST_SECOND, MOST_POLICIES, MOST_RELATIONS, MOST_VOLUMES,
};
use sm_model::{World, WorldPolicy, WorldRelation, WorldVolume};

fn counts_form(
    volumes: &[WorldVolume],
    policies: &[WorldPolicy],
    relations: &[WorldRelation],
) -> bool
    ensures { IsTrue result ↔ CountsForm (length volumes.now) (length policies.now) (length relations.now) }
{
    volumes.len() <= MOST_VOLUMES
        && policies.len() <= MOST_POLICIES
        && relations.len() <= MOST_RELATIONS
}

fn counters_form(next_relation: u32, next_transfer: u64, clock: u64) -> bool
    ensures { IsTrue result ↔ CountersForm next_relation next_transfer clock }
{
    next_relation >= 1
        && next_relation <= LAST_RELATION
        && next_transfer >= 1
        && next_transfer <= LAST_NUMBER
        && clock <= LAST_SECOND
}

/// Whether the world has the form of what records spell: names, sizes, counts and lengths in their ranges,
/// paths, disks and names that differ, relationships in the order of their numbers, rules as they may be
/// added, and of an interrupted transfer just the checkpoint's prefix landed.
pub fn is_formed(world: &World) -> bool
    ensures { IsTrue result ↔ Formed (blank world.now) }
{
    if !counts_form(&world.volumes, &world.policies, &world.relations) {
        return false;
    }
    if !counters_form(world.next_relation, world.next_transfer, world.clock) {
        return false;
    }
    if !volumes_form(&world.volumes) {
        return false;
    }
    if !policies_form(&world.policies) {
        return false;
    }
    relations_form(&world.relations)
}
