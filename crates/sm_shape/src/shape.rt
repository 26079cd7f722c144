//! The test whether a world of maps is sound but for the bytes.

ghost use Rattle.std.specs.Prelude.{◌≡◌, ◌↔◌, IsTrue, IfOk};
ghost use Rattle.sm_shape.specs.Blank.{blank};
ghost use Rattle.sm_shape.specs.Interim.{IsInterim};
ghost use Rattle.sm_shape.specs.Shape.{StateShape, RelationShape, HasShape, ShapeButLegs};

use crate::bases::destinations_stand;
use crate::copies::copies_named;
use crate::families::families_agree;
use crate::formed::is_formed;
use crate::given::families_stand;
use crate::interim::is_interim;
use crate::kept::legs_kept;
use crate::standing::transfers_stand;
use crate::tags::tags_fit;
use crate::unmade::numbers_stand;
use sm_base::NoMemory;
use sm_model::World;
use std::alloc::Global;

/// Whether volumes and snapshots are sound but for the bytes.
fn state_shapes(alloc: Global, world: &World) -> Result<bool, NoMemory>
    ensures { IfOk result (λ fits. IsTrue fits ↔ StateShape (blank world.now)) }
{
    if !is_formed(world) {
        return Ok(false);
    }
    let fit = tags_fit(alloc, world)?;
    if !fit {
        return Ok(false);
    }
    let named = copies_named(alloc, world)?;
    if !named {
        return Ok(false);
    }
    let agree = families_agree(alloc, world)?;
    if !agree {
        return Ok(false);
    }
    let numbered = numbers_stand(alloc, world)?;
    Ok(numbered)
}

/// Whether relationships are, but for what of their legs was shipped.
fn relations_shape(world: &World) -> bool
    ensures { IsTrue result ↔ RelationShape (blank world.now) }
{
    if !destinations_stand(world) {
        return false;
    }
    if !families_stand(world) {
        return false;
    }
    if !legs_kept(world) {
        return false;
    }
    transfers_stand(world)
}

/// Whether a world is sound but for the bytes, for what of the legs was shipped and for the rules that
/// `first_crossing` tests. `NoMemory` where a table finds no room.
pub fn shape_but_legs(alloc: Global, world: &World) -> Result<bool, NoMemory>
    ensures { IfOk result (λ fits. IsTrue fits ↔ ShapeButLegs (blank world.now)) }
{
    let state = state_shapes(alloc, world)?;
    if !state {
        return Ok(false);
    }
    let relations = relations_shape(world);
    Ok(relations)
}

/// Whether a world has only what opening takes for now, and is sound but for the bytes and for the rules
/// that `first_crossing` tests. `NoMemory` where a table finds no room.
pub fn interim_shape(alloc: Global, world: &World) -> Result<bool, NoMemory>
    ensures { IfOk result (λ fits. IsTrue fits ↔ (IsInterim (blank world.now) × HasShape world.now)) }
{
    if !is_interim(world) {
        return Ok(false);
    }
    let shape = shape_but_legs(alloc, world)?;
    Ok(shape)
}
