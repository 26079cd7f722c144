//! The test that in each volume a number stands for one place.

ghost use Rattle.std.specs.Prelude.{◌≡◌, IfOk, IsTrue, ◌↔◌};
ghost use Rattle.sm_defs.specs.Words.{Among};
ghost use Rattle.sm_model.specs.declared.world.WorldVolume.{WorldVolume};
ghost use Rattle.sm_model.specs.TagsFit.{TagsFit, TagsFitIn};
ghost use Rattle.sm_shape.specs.Blank.{blank, blank_volume};

use crate::marks::{idents_differ, idents_of, numbers_fit};
use sm_base::NoMemory;
use sm_model::{World, WorldVolume};
use std::alloc::Global;

/// Whether in a volume a number stands for one place.
fn volume_tags_fit(alloc: Global, volume: &WorldVolume) -> Result<bool, NoMemory>
    ensures { IfOk result (λ fit. IsTrue fit ↔ TagsFitIn (blank_volume volume.now)) }
{
    let fit = numbers_fit(alloc, volume)?;
    if !fit {
        return Ok(false);
    }
    let idents = idents_of(alloc, &volume.snapshots)?;
    let differ = idents_differ(alloc, &idents)?;
    Ok(differ)
}

/// Whether in each volume a number stands for one place.
fn volumes_fit(alloc: Global, volumes: &[WorldVolume]) -> Result<bool, NoMemory>
    ensures { IfOk result (λ fit. IsTrue fit ↔ ((v : WorldVolume) → Among volumes.now v → TagsFitIn (blank_volume v))) }
{
    for volume in volumes {
        let fit = volume_tags_fit(alloc, volume)?;
        if !fit {
            return Ok(false);
        }
    }
    Ok(true)
}

/// Whether in each volume a number but 0 stands at one place, none passes the physical size, and no identity
/// comes twice. `NoMemory` where a volume's table of numbers or a set of identities finds no room.
pub fn tags_fit(alloc: Global, world: &World) -> Result<bool, NoMemory>
    ensures { IfOk result (λ fit. IsTrue fit ↔ TagsFit (blank world.now)) }
{
    let fit = volumes_fit(alloc, &world.volumes)?;
    Ok(fit)
}
