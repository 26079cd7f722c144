// The records of a node are held against each other.
ghost use Rattle.std.specs.Prelude.{◌≡◌, map, IfErr, OnOk};
ghost use Rattle.sm_model.specs.Crossed.{Crossed};
ghost use Rattle.sm_shape.specs.Blank.{blank};
ghost use Rattle.sm_shape.specs.Blanked.{blanked};
ghost use Rattle.sm_opening.specs.OnDisk as on_disk;
ghost use Rattle.sm_opening.specs.OnDisk.{Disks, Damage, IsShaped, IsWholeDamage};
ghost use Rattle.sm_opening.specs.Looked.{AnswersDamage, IsDamageOf};
ghost use Rattle.sm_opening.specs.Finding.{root_of};
ghost use Rattle.sm_opening.specs.Judged.{IsNoDiskFault, IsMisshapen, IsWrong, of_whole};

use crate::fault::OpenFault;
use crate::worlds::world_of;
use sm_base::DiskNo;
use sm_catroot::Catalog;
use sm_model::{OpenKind, World};
use sm_shape::{first_crossing, interim_shape};
use std::alloc::Global;
use volume_store::Found;

// No single disk is at fault, so disk 0 is named.
fn of_whole(kind: OpenKind) -> OpenFault
    ensures { result ≡ of_whole kind }
{
    OpenFault::Unopened {
        disk: DiskNo(0),
        kind,
    }
}

fn judge_shape(alloc: Global, world: &World) -> Result<(), OpenFault>
    ensures shaped { OnOk result (IsShaped (blank world.now)) }
    ensures misshapen { IfErr result (IsMisshapen (blank world.now)) }
{
    let fits = interim_shape(alloc, world)?;
    if !fits {
        return Err(of_whole(OpenKind::Shape));
    }
    Ok(())
}

fn judge_world(alloc: Global, world: &World) -> Result<(), OpenFault>
    ensures right { OnOk result (Crossed (blank world.now) × IsShaped (blank world.now)) }
    ensures wrong { IfErr result (IsWrong (blank world.now)) }
{
    match first_crossing(alloc, world)? {
        Some(_) => Err(of_whole(OpenKind::Cross)),
        None => judge_shape(alloc, world),
    }
}

/// Tests what a catalogue and the volumes found for it, in the order of their numbers, say together, on disks
/// of these lengths, in bytes. `Unopened` names disk 0: with `Cross` where a relationship breaks a rule on its
/// volumes, its policy or the relationships before it, otherwise with `Shape` where the world is not sound but
/// for the bytes of its blocks or has what opening does not take for now. `NoMemory` where the world or a
/// table finds no room.
pub fn judge(
    alloc: Global,
    catalog: &Catalog,
    founds: &[Found],
    lengths: &[u64],
) -> Result<(), OpenFault>
    ensures judged { OnOk result ((d : Disks) → d.sizes ≡ lengths.now → Crossed (blanked (on_disk.world_of d catalog.now (map root_of founds.now))) × IsShaped (blanked (on_disk.world_of d catalog.now (map root_of founds.now)))) }
    ensures faults { IfErr result (λ e. (d : Disks) → d.sizes ≡ lengths.now → IsDamageOf (IsWholeDamage d catalog.now (on_disk.world_of d catalog.now (map root_of founds.now))) e) }
    ensures exact { (d : Disks) → d.sizes ≡ lengths.now → (f : Damage) → IsWholeDamage d catalog.now (on_disk.world_of d catalog.now (map root_of founds.now)) f → AnswersDamage f result }
    ensures free { IfErr result IsNoDiskFault }
{
    let world = world_of(alloc, catalog, founds, lengths)?;
    judge_world(alloc, &world)
}
