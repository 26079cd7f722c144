// The world after a restart.
ghost use Rattle.std.specs.Prelude.{◌≡◌, map, IfOk, OnOk, OnErr};
ghost use Rattle.sm_model.specs.Opened.{restarted, rejoined, opened};
ghost use Rattle.sm_defs.specs.Operations as operations;

use crate::progress::interrupted;
use oracle_lists::{copy_image, copy_snapshots};
use oracle_world::{PlainVolume, PlainWorld, with_transfer};
use sm_base::{NoMemory, Reason};
use sm_model::{WorldRelation, WorldTransfer};
use std::alloc::Global;

fn restarted(
    alloc: Global,
    transfer: &Option<WorldTransfer>,
) -> Result<Option<WorldTransfer>, NoMemory>
    ensures { IfOk result (λ next. next ≡ restarted transfer.now) }
{
    match transfer {
        None => Ok(None),
        Some(transfer) => Ok(Some(interrupted(alloc, transfer, Reason::Restart)?)),
    }
}

fn reopened(alloc: Global, volume: &PlainVolume) -> Result<PlainVolume, NoMemory>
    ensures { IfOk result (λ next. next ≡ operations.opened volume.now) }
{
    let active = copy_image(alloc, &volume.stable)?;
    let stable = copy_image(alloc, &volume.stable)?;
    let snapshots = copy_snapshots(alloc, &volume.snapshots)?;
    volume.with_images(alloc, active, stable, snapshots)
}

fn all_reopened(alloc: Global, volumes: &[PlainVolume]) -> Result<Vec<PlainVolume>, NoMemory>
    ensures { IfOk result (λ all. all.items ≡ map operations.opened volumes.now) }
{
    match volumes {
        [] => Ok(Vec::new(alloc)),
        [volume, others @ ..] => {
            let mut all = all_reopened(alloc, others)?;
            all.insert(0, reopened(alloc, volume)?)?;
            Ok(all)
        }
    }
}

fn rejoined(alloc: Global, relation: &WorldRelation) -> Result<WorldRelation, NoMemory>
    ensures { IfOk result (λ next. next ≡ rejoined relation.now) }
{
    let transfer = restarted(alloc, &relation.transfer)?;
    Ok(with_transfer(relation, transfer))
}

fn all_rejoined(alloc: Global, relations: &[WorldRelation]) -> Result<Vec<WorldRelation>, NoMemory>
    ensures { IfOk result (λ all. all.items ≡ map rejoined relations.now) }
{
    match relations {
        [] => Ok(Vec::new(alloc)),
        [relation, others @ ..] => {
            let mut all = all_rejoined(alloc, others)?;
            all.insert(0, rejoined(alloc, relation)?)?;
            Ok(all)
        }
    }
}

/// Restarts: what was written since the last consistency points is lost, and each standing transfer is
/// interrupted. An `Err` leaves the world.
pub fn open(world: &mut PlainWorld, alloc: Global) -> Result<(), NoMemory>
    ensures ok { OnOk result (world.new ≡ opened world.old) }
    ensures err { OnErr result (world.new ≡ world.old) }
{
    let now = &*world;
    let volumes = all_reopened(alloc, &now.volumes)?;
    let relations = all_rejoined(alloc, &now.relations)?;
    world.volumes = volumes;
    world.relations = relations;
    Ok(())
}
