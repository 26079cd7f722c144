// A commit, whatever it answers, and the restart after it.
ghost use Rattle.std.specs.Prelude.{◌≡◌, ◌≤◌, ◌↔◌, length, OnOk, OnErr, IfOk, IsTrue};
ghost use Rattle.sm_disk.specs.Disk.{GoesOn, Steps, IsSynced, IsCounted};
ghost use Rattle.sm_slots.specs.Stored.{IsFramed, slot_of, slots_end};
ghost use Rattle.sm_slots.specs.Slots.{IsSettled, IsBefore, IsAfter, IsBeforeOrAfter};

use crate::Slots;
use crate::faults::SlotFault;
use crate::layout::SLOT_LEN;
use sm_disk::Disk;

/// Restarts a disk and opens its slots. The disk has at least [`SLOTS_END`](crate::SLOTS_END) bytes.
///
/// # Errors
///
/// [`SlotFault::DiskFault`], only where the disk's count of faults rose in this call.
pub fn restart_and_open<D: Disk>(disk: &mut D) -> Result<Slots, SlotFault>
    requires room { slots_end ≤ (D.state disk.old).size }

    ensures selected { IfOk result (λ slots. IsTrue (D.state disk.new).told →
        slots ≡ slot_of (D.state disk.new).seen) }
    ensures settled { IfOk result (λ slots. IsSettled (D.state disk.new) slots) }
    ensures image { IsTrue (D.state disk.old).told →
        (D.state disk.old).may_leave (D.state disk.new).seen }
    ensures synced { IsSynced (D.state disk.new) }
    ensures time { Steps (D.state disk.old) (D.state disk.new) }
    ensures failed { OnErr result ((result ≡ Err SlotFault.DiskFault)
        × IsCounted (D.state disk.old) (D.state disk.new)) }
{
    disk.restart();
    Slots::open(disk)
}

/// Commits a record, then restarts the disk and opens its slots again, whatever the commit answered.
///
/// The old record is then selected or the new one, and the number of the slot is the one from
/// before exactly where it is the old one; it is the new one where the record fits and the disk did
/// not fail. Behind the slots stands what stood there.
///
/// # Errors
///
/// [`SlotFault::DiskFault`], only where the disk's count of faults rose in this call: it was restarted,
/// and its selector was not read.
pub fn commit_and_restart<D: Disk>(
    mut slots: Slots,
    disk: &mut D,
    bytes: &[u8],
) -> Result<Slots, SlotFault>
    requires room { slots_end ≤ (D.state disk.old).size }
    requires framed { IsFramed bytes.now }
    requires settled { IsSettled (D.state disk.old) slots }

    ensures selected { IfOk result (λ after. IsTrue (D.state disk.old).told →
        after ≡ slot_of (D.state disk.new).seen) }
    ensures either { IfOk result (λ after. IsTrue (D.state disk.old).told →
        IsBeforeOrAfter (D.state disk.old) slots bytes.now (D.state disk.new).seen) }
    ensures before { IfOk result (λ after. IsTrue (D.state disk.old).told →
        (after ≡ slots ↔ IsBefore (D.state disk.old) slots (D.state disk.new).seen)) }
    // Where the disk did not fail, it is the new one.
    ensures after { length bytes.now ≤ SLOT_LEN →
        (IsCounted (D.state disk.old) (D.state disk.new) → ⊥) → OnOk result (IsTrue (D.state disk.old).told →
        IsAfter (D.state disk.old) slots bytes.now (D.state disk.new).seen) }
    ensures settled { IfOk result (λ after. IsSettled (D.state disk.new) after) }
    ensures synced { IsSynced (D.state disk.new) }
    ensures any_moment { GoesOn (D.state disk.old) (D.state disk.new)
        (IsBeforeOrAfter (D.state disk.old) slots bytes.now) }
    ensures failed { OnErr result ((result ≡ Err SlotFault.DiskFault)
        × IsCounted (D.state disk.old) (D.state disk.new)) }
{
    let _ = slots.commit(disk, bytes);
    restart_and_open(disk)
}
