// The disks of a node are looked at, each by itself and all together.
ghost use Rattle.std.specs.Prelude.{◌≡◌, map, IfOk, IfErr, OnOk};
ghost use Rattle.sm_opening.specs.Looked.{disks_of, size_of, AllTold, Looks, IsDamageOf, AnswersDamage};
ghost use Rattle.sm_opening.specs.OnDisk.{Disks, Damage, IsDamage, IsWholeDamage, Spells};
ghost use Rattle.sm_opening.specs.Finding.{IsReadOn};
ghost use Rattle.sm_opening.specs.Judged.{IsNoDiskFault};
ghost use Rattle.sm_opening.specs.Whole.{IsSoundOn, world_on};

use crate::fault::OpenFault;
use crate::judging::judge;
use crate::records::{Records, read_records};
use sm_base::NoMemory;
use sm_disk::Disk;
use std::alloc::Global;

// How many bytes each disk has.
fn lengths_of<D: Disk>(alloc: Global, disks: &[D]) -> Result<Vec<u64>, NoMemory>
    ensures { IfOk result (λ lengths. lengths.items ≡ map (size_of D.state) disks.now) }
{
    let mut lengths = Vec::new(alloc);
    for at in 0..disks.len() {
        lengths.push(disks[at].len())?;
    }
    Ok(lengths)
}

// What is wrong with the records together.
fn judge_records(alloc: Global, records: &Records, lengths: &[u64]) -> Result<(), OpenFault>
    ensures judged { OnOk result (IsSoundOn lengths.now records.now) }
    ensures faults { IfErr result (λ e. (d : Disks) → d.sizes ≡ lengths.now → IsDamageOf (IsWholeDamage d records.now.catalog.value (world_on d records.now)) e) }
    ensures exact { (d : Disks) → d.sizes ≡ lengths.now → (f : Damage) → IsWholeDamage d records.now.catalog.value (world_on d records.now) f → AnswersDamage f result }
    ensures free { IfErr result IsNoDiskFault }
{
    judge(alloc, records.catalog(), records.founds(), lengths)
}

/// Reads the records of a node from its disks, and how many bytes each disk has. Whatever it answers, it
/// changes neither what a read gives nor what a restart may leave.
///
/// # Errors
///
/// [`OpenFault::Unopened`] with the disk and the kind of the first fault, in the order in which the kinds are
/// listed in the definition of a fault: disk 0, the volumes by number, the relationships by number, the shape
/// of the whole. Where the disks tell their content it comes exactly there, but for a failure of a disk,
/// whose count of faults then rose, and want of memory.
pub fn look<D: Disk>(alloc: Global, disks: &mut [D]) -> Result<(Records, Vec<u64>), OpenFault>
    ensures looks { Looks D.state (IsDamage (disks_of D.state disks.old)) disks.old disks.new result }
    ensures found { IfOk result (λ p. IsReadOn D.state disks.new p.0) }
    ensures lengths { IfOk result (λ p. p.1.items ≡ map (size_of D.state) disks.new) }
    ensures sound { IfOk result (λ p. IsSoundOn p.1.items p.0) }
    ensures world { IfOk result (λ p. AllTold D.state disks.old → Spells (disks_of D.state disks.old) (world_on (disks_of D.state disks.old) p.0)) }
{
    let records: Records = match read_records(alloc, disks) {
        Ok(records) => records,
        Err(fault) => return Err(fault),
    };
    let Ok(lengths) = lengths_of(alloc, disks) else {
        return Err(OpenFault::NoMemory);
    };
    match judge_records(alloc, &records, &lengths) {
        Ok(()) => Ok((records, lengths)),
        Err(fault) => Err(fault),
    }
}
