// Which parts a world breaks.
use crate::worlds::world_of;
use sm_fit::{legs_fit, shape};
use sm_model::World;
use sm_shape::{
    copies_named, destinations_stand, families_agree, families_stand, first_crossing, is_formed,
    is_interim, legs_kept, numbers_stand, tags_fit, transfers_stand,
};
use std::alloc::Global;
use std::process::Abort;
use std::test::Fail;

/// A line of a world that is otherwise, and the parts that are broken by it.
pub(crate) struct Case {
    /// The place of the line.
    pub(crate) at: usize,
    /// What stands there.
    pub(crate) line: &'static str,
    /// The parts, each behind a space, in the order of the tests.
    pub(crate) breaks: &'static str,
}

fn tell(told: &mut String, part: &str, stands: bool) -> Result<(), Fail> {
    if !stands {
        write!(told, " {part}")?;
    }
    Ok(())
}

/// What was shipped is not asked of a world in which numbers stand at two places.
fn legs_stand(alloc: Global, world: &World) -> Result<bool, Fail> {
    let fit = tags_fit(alloc, world)?;
    if !fit {
        return Ok(true);
    }
    Ok(legs_fit(alloc, world)?)
}

fn broken(alloc: Global, world: &World) -> Result<String, Fail> {
    let mut told = String::new(alloc);
    if let Some(place) = first_crossing(alloc, world)? {
        write!(&mut told, " cross={place}")?;
    }
    let before = told.len();
    tell(&mut told, "formed", is_formed(world))?;
    tell(&mut told, "tags", tags_fit(alloc, world)?)?;
    tell(&mut told, "copies", copies_named(alloc, world)?)?;
    tell(&mut told, "agree", families_agree(alloc, world)?)?;
    tell(&mut told, "destinations", destinations_stand(world))?;
    tell(&mut told, "numbers", numbers_stand(alloc, world)?)?;
    tell(&mut told, "families", families_stand(world))?;
    tell(&mut told, "kept", legs_kept(world))?;
    tell(&mut told, "transfers", transfers_stand(world))?;
    tell(&mut told, "legs", legs_stand(alloc, world)?)?;
    let sound = told.len() == before;
    tell(
        &mut told,
        "shape told otherwise",
        shape(alloc, world)? == sound,
    )?;
    tell(&mut told, "interim", is_interim(world))?;
    Ok(told)
}

/// Tells of each case which parts are broken.
pub(crate) fn try_cases<R: AllocGlobal + Abort>(
    rt: &R,
    lines: &[&str],
    cases: &[Case],
) -> Result<(), Fail> {
    for case in cases {
        let world = world_of(rt.alloc(), lines, case.at, case.line)?;
        let told = broken(rt.alloc(), &world)?;
        assert_eq!(rt; told.as_str(), case.breaks, "{}: {}", case.at, case.line);
    }
    Ok(())
}
