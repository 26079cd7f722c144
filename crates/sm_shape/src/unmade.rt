//! The test that a leg that is still to be made is nowhere.

ghost use Rattle.std.specs.Prelude.{◌≡◌, ◌↔◌, IsTrue, IfOk, map};
ghost use Rattle.sm_model.specs.NumbersStand.{NumbersStand};
ghost use Rattle.std.specs.List.{All, list_any};
ghost use Rattle.sm_defs.specs.Volume.{has};
ghost use Rattle.sm_defs.specs.Legs.{made_ident};
ghost use Rattle.sm_defs.specs.World.{volume_at};
ghost use Rattle.sm_shape.specs.Blank.{blank, blank_snapshot, having};
ghost use Rattle.sm_shape.specs.Unmade.{was_made, LacksMade, LegIsUnmade, IsUnmade};

use crate::numbers::all_numbered;
use sm_base::NoMemory;
use sm_model::{World, WorldRelation, WorldSnapshot, WorldTransfer, WorldVolume};
use std::alloc::Global;

fn any_made(source: u32, number: u64, snapshots: &[WorldSnapshot]) -> bool
    ensures { result ≡ list_any (was_made source number) snapshots.now }
{
    snapshots.iter().any(|snapshot| {
        snapshot.ident.origin == source
            && snapshot.ident.seq % 2 == 1
            && snapshot.ident.seq / 2 == number
    })
}

fn has_made(source: u32, number: u64, snapshots: &[WorldSnapshot]) -> bool
    ensures { result ≡ has (map blank_snapshot snapshots.now) (made_ident source number) }
{
    any_made(source, number, snapshots)
}

fn volume_has(source: u32, number: u64, volume: &WorldVolume) -> bool
    ensures { result ≡ has (map blank_snapshot volume.now.snapshots.items) (made_ident source number) }
{
    has_made(source, number, &volume.snapshots)
}

fn lacks_made(source: u32, number: u64, volume: &WorldVolume) -> bool
    ensures { IsTrue result ↔ LacksMade source number volume.now }
{
    !volume_has(source, number, volume)
}

fn all_lack(source: u32, number: u64, volumes: &[WorldVolume]) -> bool
    ensures { IsTrue result ↔ All (LacksMade source number) volumes.now }
{
    volumes
        .iter()
        .all(|volume| lacks_made(source, number, volume))
}

fn source_has(source: u32, number: u64, volumes: &[WorldVolume]) -> bool
    ensures { result ≡ has (volume_at (having volumes.now) source).snapshots (made_ident source number) }
{
    let at = source as usize;
    if at >= volumes.len() {
        return false;
    }
    volume_has(source, number, &volumes[at])
}

fn leg_is_unmade(reserved: bool, source: u32, number: u64, volumes: &[WorldVolume]) -> bool
    ensures { IsTrue result ↔ LegIsUnmade reserved source number volumes.now }
{
    if !reserved {
        return true;
    }
    if source_has(source, number, volumes) {
        return true;
    }
    all_lack(source, number, volumes)
}

fn own_leg_is_unmade(
    relation: &WorldRelation,
    transfer: &WorldTransfer,
    volumes: &[WorldVolume],
) -> bool
    ensures { IsTrue result ↔ LegIsUnmade transfer.now.reserved relation.now.source transfer.now.number volumes.now }
{
    leg_is_unmade(
        transfer.reserved,
        relation.source.0,
        transfer.number,
        volumes,
    )
}

fn is_unmade(volumes: &[WorldVolume], relation: &WorldRelation) -> bool
    ensures { IsTrue result ↔ IsUnmade volumes.now relation.now }
{
    match &relation.transfer {
        Some(transfer) => own_leg_is_unmade(relation, transfer, volumes),
        None => true,
    }
}

/// Whether each leg that is still to be made is nowhere.
pub fn all_unmade(volumes: &[WorldVolume], relations: &[WorldRelation]) -> bool
    ensures { IsTrue result ↔ All (IsUnmade volumes.now) relations.now }
{
    relations
        .iter()
        .all(|relation| is_unmade(volumes, relation))
}

/// Whether identities are of numbers that were given, and a leg that is still to be made is on no volume.
/// `NoMemory` where the name of a transfer's snapshot finds no room.
pub fn numbers_stand(alloc: Global, world: &World) -> Result<bool, NoMemory>
    ensures { IfOk result (λ stand. IsTrue stand ↔ NumbersStand (blank world.now)) }
{
    let given = all_numbered(alloc, world)?;
    if !given {
        return Ok(false);
    }
    let unmade = all_unmade(&world.volumes, &world.relations);
    Ok(unmade)
}
