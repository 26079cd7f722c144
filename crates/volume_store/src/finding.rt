// A disk is looked at for the root of a volume.
ghost use Rattle.std.specs.Prelude.{◌≡◌, ◌≤◌, ◌<◌, Err, IfOk, IfErr, OnOk, IsTrue};
ghost use Rattle.sm_disk.specs.Disk.{GoesOn, IsQuiet, IsCounted};
ghost use Rattle.sm_root.specs.Condition.{IsRoot};
ghost use Rattle.sm_slots.specs.Stored.{slot_of};
ghost use Rattle.volume_store.specs.Held.{need};
ghost use Rattle.volume_store.specs.Opened.{IsOpenFault, IsStateFault, IsRootOn, AnswersEachFault};

use crate::blocks::need_of;
use crate::faults::VolumeFault;
use crate::reading::read_root;
use sm_base::VolNo;
use sm_base::limits::BLOCKS_START;
use sm_disk::Disk;
use sm_root::Root;
use sm_slots::Slots;
use std::alloc::Global;

// The need of the smallest volume.
const LEAST_NEED: u64 = BLOCKS_START + 4096;

/// Reads the root of the volume of this number, with the slots that it stands in. Whatever it answers, it
/// changes neither what a read gives nor what a restart may leave.
///
/// # Errors
///
/// [`VolumeFault::DiskSmall`] where the disk is shorter than the smallest volume needs, or shorter than
/// the root's physical size needs; [`VolumeFault::BadRoot`] where the selected record is no root, with its
/// slot and its first byte that fits none; [`VolumeFault::OtherNumber`] where the root is that of another
/// volume. Where the disk tells its content these three come exactly there, but for a failure of the disk
/// and want of memory. [`VolumeFault::DiskFault`] only where the disk's count of faults rose in this call;
/// [`VolumeFault::NoMemory`] where there is no memory for the record.
pub fn look<D: Disk>(
    alloc: Global,
    disk: &mut D,
    number: VolNo,
) -> Result<(Slots, Root), VolumeFault>
    ensures good { IfOk result (λ p. IsRoot p.1 × (p.1.number ≡ number) × (need p.1.physical ≤ (D.state disk.old).size)) }
    ensures root { IfOk result (λ p. IsTrue (D.state disk.old).told → IsRootOn (D.state disk.old).seen p.1) }
    ensures slot { IfOk result (λ p. (p.0 < 2) × (IsTrue (D.state disk.old).told → p.0 ≡ slot_of (D.state disk.old).seen)) }
    ensures faults { IfErr result (IsOpenFault (D.state disk.old) number) }
    ensures exact { AnswersEachFault (D.state disk.old) number result }
    ensures counted { result ≡ Err VolumeFault.DiskFault → IsCounted (D.state disk.old) (D.state disk.new) }
    ensures quiet { IsQuiet (D.state disk.old) (D.state disk.new) }
    ensures time { GoesOn (D.state disk.old) (D.state disk.new) (D.state disk.old).may_leave }
{
    let len = disk.len();
    if len < LEAST_NEED {
        return Err(VolumeFault::DiskSmall {
            need: LEAST_NEED,
            len,
        });
    }
    let slots = match Slots::open(disk) {
        Ok(slots) => slots,
        Err(_) => return Err(VolumeFault::DiskFault),
    };
    let _slot = slots.slot();
    let root = read_root(alloc, disk, &slots)?;
    check_root(&root, number, len)?;
    Ok((slots, root))
}

// Whether the root is that of a volume of this number, on a disk of this length.
fn check_root(root: &Root, number: VolNo, len: u64) -> Result<(), VolumeFault>
    requires { IsRoot root.now }
    ensures ok { OnOk result ((root.now.number ≡ number) × (need root.now.physical ≤ len)) }
    ensures faults { IfErr result (IsStateFault root.now number len) }
{
    let need = need_of(root.physical);
    if len < need {
        return Err(VolumeFault::DiskSmall { need, len });
    }
    if root.number.0 != number.0 {
        return Err(VolumeFault::OtherNumber {
            found: root.number.0,
        });
    }
    Ok(())
}
