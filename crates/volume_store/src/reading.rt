// The root of a disk is read.
ghost use Rattle.std.specs.Prelude.{◌≡◌, ◌+◌, ◌≤◌, ◌<◌, Err, length, IfOk, IfErr, OnErr, IsTrue};
ghost use Rattle.sm_disk.specs.Image.{part};
ghost use Rattle.sm_disk.specs.Disk.{GoesOn, IsQuiet, IsCounted};
ghost use Rattle.sm_slots.specs.Stored.{Record, stored, slot_len, slot_of, slot_start, slots_end};
ghost use Rattle.volume_store.specs.declared.faults.VolumeFault.TheVariants.{DiskFault};
ghost use Rattle.sm_root.specs.Condition.{IsRoot};
ghost use Rattle.volume_store.specs.Opened.{DiffersFirst, IsRootOn, IsReadFault, ReadsRecord, ReadsRoot};

use crate::faults::VolumeFault;
use sm_base::Failed;
use sm_disk::Disk;
use sm_root::{MAGIC, Root, RootFault, decode};
use sm_slots::{RecordFault, Slots, slot_start_of};
use std::alloc::Global;

// The first byte that differs from the magic word, or 8.
fn first_difference(bytes: &[u8]) -> u32
    requires { length bytes.now ≡ 8 }
    ensures { DiffersFirst bytes.now result }
{
    for at in 0..8 {
        if bytes[at as usize] != MAGIC[at as usize] {
            return at;
        }
    }
    8
}

// Where the magic word of the slot is not that of a root.
fn magic_fault<D: Disk>(disk: &mut D, slot: u8) -> Result<u32, Failed>
    requires room { slots_end ≤ (D.state disk.old).size }
    requires one_of_two { slot < 2 }

    ensures first { IfOk result (λ at. IsTrue (D.state disk.old).told → DiffersFirst (part (D.state disk.old).seen (slot_start slot) 8) at) }
    ensures quiet { IsQuiet (D.state disk.old) (D.state disk.new) }
    ensures time { GoesOn (D.state disk.old) (D.state disk.new) (D.state disk.new).may_leave }
    ensures counted { OnErr result (IsCounted (D.state disk.old) (D.state disk.new)) }
{
    let mut magic = [0u8; 8];
    disk.read(slot_start_of(slot), &mut magic)?;
    Ok(first_difference(&magic))
}

// The bytes of the selected record.
fn read_record<D: Disk>(alloc: Global, disk: &mut D, slots: &Slots) -> Result<Vec<u8>, VolumeFault>
    requires room { slots_end ≤ (D.state disk.old).size }
    requires selected { IsTrue (D.state disk.old).told → slots.now ≡ slot_of (D.state disk.old).seen }

    ensures bytes { IfOk result (λ bytes. IsTrue (D.state disk.old).told → stored (D.state disk.old).seen ≡ Record bytes.items) }
    ensures short { IfOk result (λ bytes. length bytes.items ≤ slot_len) }
    ensures faults { IfErr result (IsReadFault (D.state disk.old)) }
    ensures exact { IsTrue (D.state disk.old).told → ReadsRecord (D.state disk.old).seen (stored (D.state disk.old).seen) result }
    ensures quiet { IsQuiet (D.state disk.old) (D.state disk.new) }
    ensures time { GoesOn (D.state disk.old) (D.state disk.new) (D.state disk.old).may_leave }
    ensures counted { result ≡ Err DiskFault → IsCounted (D.state disk.old) (D.state disk.new) }
{
    match slots.record(alloc, disk) {
        Ok(Some(bytes)) => Ok(bytes),
        Ok(None) => Err(VolumeFault::BadRoot {
            slot: slots.slot(),
            at: 0,
        }),
        Err(RecordFault::DiskFault) => Err(VolumeFault::DiskFault),
        Err(RecordFault::NoMemory) => Err(VolumeFault::NoMemory),
        Err(RecordFault::BadLength) => match magic_fault(disk, slots.slot()) {
            Ok(at) => Err(VolumeFault::BadRoot {
                slot: slots.slot(),
                at,
            }),
            Err(Failed) => Err(VolumeFault::DiskFault),
        },
    }
}

/// The root in the selected record.
pub(crate) fn read_root<D: Disk>(
    alloc: Global,
    disk: &mut D,
    slots: &Slots,
) -> Result<Root, VolumeFault>
    requires room { slots_end ≤ (D.state disk.old).size }
    requires selected { IsTrue (D.state disk.old).told → slots.now ≡ slot_of (D.state disk.old).seen }

    ensures good { IfOk result (λ root. IsRoot root) }
    ensures root { IfOk result (λ root. IsTrue (D.state disk.old).told → IsRootOn (D.state disk.old).seen root) }
    ensures faults { IfErr result (IsReadFault (D.state disk.old)) }
    ensures exact { IsTrue (D.state disk.old).told → ReadsRoot (D.state disk.old).seen result }
    ensures quiet { IsQuiet (D.state disk.old) (D.state disk.new) }
    ensures time { GoesOn (D.state disk.old) (D.state disk.new) (D.state disk.old).may_leave }
    ensures counted { result ≡ Err DiskFault → IsCounted (D.state disk.old) (D.state disk.new) }
{
    let bytes = read_record(alloc, disk, slots)?;
    match decode(alloc, &bytes) {
        Ok(root) => Ok(root),
        Err(RootFault::Bad { at }) => Err(VolumeFault::BadRoot {
            slot: slots.slot(),
            at,
        }),
        Err(RootFault::NoMemory) => Err(VolumeFault::NoMemory),
    }
}
