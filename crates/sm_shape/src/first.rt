//! The first relationship that breaks a rule.

ghost use Rattle.std.specs.Prelude.{◌≡◌, ◌↔◌, IsTrue, IfOk, MatchOption};
ghost use Rattle.sm_model.specs.Crossed.{Crossed};
ghost use Rattle.sm_shape.specs.Blank.{blank};
ghost use Rattle.sm_shape.specs.Crossing.{FitsBehind, IsFirstMisfit, IsFirstCrossing};

use crate::crossing::{destination_is_new, transfer_is_new};
use crate::rules::relation_fits;
use crate::transfers::transfer_rules;
use sm_base::NoMemory;
use sm_model::{World, WorldRelation};
use std::alloc::Global;

/// Whether the relationship meets each rule, beside those before it.
fn fits_behind(
    alloc: Global,
    world: &World,
    before: &[WorldRelation],
    relation: &WorldRelation,
) -> Result<bool, NoMemory>
    ensures { IfOk result (λ fits. IsTrue fits ↔ FitsBehind (blank world.now) before.now relation.now) }
{
    let own = relation_fits(
        &world.volumes,
        &world.policies,
        world.next_relation,
        relation,
    );
    if !own {
        return Ok(false);
    }
    let apart = destination_is_new(before, relation);
    if !apart {
        return Ok(false);
    }
    let fresh = transfer_is_new(before, relation);
    if !fresh {
        return Ok(false);
    }
    let fits = transfer_rules(alloc, &world.volumes, world.next_transfer, relation)?;
    Ok(fits)
}

/// The place of the first relationship that breaks a rule, of all that the world has.
fn first_of(
    alloc: Global,
    world: &World,
    relations: &[WorldRelation],
) -> Result<Option<usize>, NoMemory>
    requires { relations.now ≡ world.now.relations.items }
    ensures { IfOk result (λ found. MatchOption found (Crossed (blank world.now)) (IsFirstMisfit (blank world.now))) }
{
    for place in 0..relations.len() {
        let fits = fits_behind(alloc, world, &relations[..place], &relations[place])?;
        if !fits {
            return Ok(Some(place));
        }
    }
    Ok(None)
}

/// The place, from 0, of the first relationship that breaks a rule on its volumes, its policy, its transfer or
/// the relationships before it; none where all relationships fit. `NoMemory` where the legs of a transfer find
/// no room to be told apart.
pub fn first_crossing(alloc: Global, world: &World) -> Result<Option<usize>, NoMemory>
    ensures { IfOk result (λ found. MatchOption found (Crossed (blank world.now)) (IsFirstCrossing (blank world.now))) }
{
    let found = first_of(alloc, world, &world.relations)?;
    Ok(found)
}
