//! The test whether a world of maps is sound but for the bytes of its blocks and the rules of relationships.

ghost use Rattle.std.specs.Prelude.{◌↔◌, IsTrue, IfOk};
ghost use Rattle.sm_shape.specs.Shape.{HasShape};

use crate::legs::legs_fit;
use sm_base::NoMemory;
use sm_model::World;
use sm_shape::shape_but_legs;
use std::alloc::Global;

/// Whether a world is sound but for the bytes and for the rules that `first_crossing` of sm_shape tests.
/// `NoMemory` where a table finds no room.
pub fn shape(alloc: Global, world: &World) -> Result<bool, NoMemory>
    ensures { IfOk result (λ fits. IsTrue fits ↔ HasShape world.now) }
{
    let rest = shape_but_legs(alloc, world)?;
    if !rest {
        return Ok(false);
    }
    let fit = legs_fit(alloc, world)?;
    Ok(fit)
}
