//! Two slots for a record and a selector, so that no crash tears a commit.
//!
//! A disk begins with a selector byte, whose low bit is the number of the selected slot. A commit
//! writes the other slot, syncs, writes the selector and syncs. So a restart at any moment leaves
//! the old record selected or the new one, each whole, whatever byte it leaves in the selector.
#![tactic(auto)]

mod faults;
mod layout;
mod restarting;

ghost use Rattle.std.specs.Prelude.{◌≡◌, ℕ, ◌-◌, ◌<◌, ◌≤◌, ◌↔◌, [], ◌∷◌, length, vec_len, OnOk, OnErr, IfOk, IfSome, IsTrue, None};
ghost use Rattle.sm_disk.specs.Image.{Image, IsOutside, part};
ghost use Rattle.sm_disk.specs.Disk.{GoesOn, Steps, IsQuiet, IsSynced, IsCounted};
ghost use Rattle.sm_disk.specs.Spared.{Spares};
ghost use Rattle.sm_slots.specs.Stored.{IsFramed, slot_of, slot_start, slots_end, Blank, BadLength, stored};
ghost use Rattle.sm_slots.specs.Slots.{BehindSlots, SelectsOne, IsSettled, IsCommitted, IsBeforeOrAfter, stored_of, ComesWhere};

pub use faults::{RecordFault, SlotFault};
use layout::{HEAD_LEN, SELECTOR, is_zero, stated_len};
pub use layout::{SLOT_LEN, slot_start_of};
pub use restarting::{commit_and_restart, restart_and_open};
use sm_base::Failed;
pub use sm_base::limits::SLOTS_END;
use sm_disk::Disk;
use std::alloc::Global;
use std::marker::Model;

/// The slots of a disk. A contract sees the number of the selected one.
#[derive(Debug, Drop)]
pub struct Slots {
    slot: u8,
}

impl Model for Slots {
    ghost use Rattle.std.specs.Prelude.{ℕ, ◌<◌};

    ghost Value = { ℕ };

    ghost view = { λ s. s.slot };

    ghost invariant = { λ s. s.slot < 2 };
}

// The selector as it reads.
fn read_selector<D: Disk>(disk: &mut D) -> Result<u8, Failed>
    requires room { slots_end ≤ (D.state disk.old).size }

    ensures byte { IfOk result (λ byte.
        IsTrue (D.state disk.old).told → byte ≡ (D.state disk.old).seen 0) }
    ensures quiet { IsQuiet (D.state disk.old) (D.state disk.new) }
    ensures time { Steps (D.state disk.old) (D.state disk.new) }
    ensures cause { OnErr result (IsCounted (D.state disk.old) (D.state disk.new)) }
{
    let mut selector = [0u8];
    disk.read(SELECTOR, &mut selector)?;
    Ok(selector[0])
}

// Puts the record into that slot, on the medium.
fn write_record<D: Disk>(disk: &mut D, slot: u8, bytes: &[u8]) -> Result<(), Failed>
    requires room { slots_end ≤ (D.state disk.old).size }
    requires one_of_two { slot < 2 }
    requires fits { length bytes.now ≤ SLOT_LEN }

    ensures bytes { OnOk result (IsTrue (D.state disk.old).told →
        part (D.state disk.new).seen (slot_start slot) (length bytes.now) ≡ bytes.now) }
    ensures synced { OnOk result (IsSynced (D.state disk.new)) }
    ensures spared { Spares (IsOutside (slot_start slot) (length bytes.now))
        (D.state disk.old) (D.state disk.new) }
    ensures cause { OnErr result (IsCounted (D.state disk.old) (D.state disk.new)) }
{
    disk.write(slot_start_of(slot), bytes)?;
    disk.sync()
}

// Names that slot in the selector, on the medium.
fn write_selector<D: Disk>(disk: &mut D, slot: u8) -> Result<(), Failed>
    requires room { slots_end ≤ (D.state disk.old).size }

    ensures selector { OnOk result (IsTrue (D.state disk.old).told →
        part (D.state disk.new).seen 0 1 ≡ slot ∷ []) }
    ensures synced { OnOk result (IsSynced (D.state disk.new)) }
    ensures spared { Spares (IsOutside 0 1) (D.state disk.old) (D.state disk.new) }
    ensures cause { OnErr result (IsCounted (D.state disk.old) (D.state disk.new)) }
{
    disk.write(SELECTOR, &[slot])?;
    disk.sync()?;
    Ok(())
}

// Makes the record the selected one, in that slot: no crash may find the slot named before the
// record is on the medium.
fn select<D: Disk>(disk: &mut D, slot: u8, bytes: &[u8]) -> Result<(), SlotFault>
    requires room { slots_end ≤ (D.state disk.old).size }
    requires one_of_two { slot < 2 }
    requires framed { IsFramed bytes.now }

    ensures committed { OnOk result
        (IsCommitted (D.state disk.old) (D.state disk.new) slot bytes.now) }
    ensures spared { Spares BehindSlots (D.state disk.old) (D.state disk.new) }

    // Where the other slot was the selected one.
    ensures any_moment { (now : ℕ) → now < 2 → slot ≡ 1 - now → IsSettled (D.state disk.old) now →
        GoesOn (D.state disk.old) (D.state disk.new)
        (IsBeforeOrAfter (D.state disk.old) now bytes.now) }

    ensures too_large { (result ≡ Err SlotFault.TooLarge) ↔ (SLOT_LEN < length bytes.now) }
    ensures unchanged { result ≡ Err SlotFault.TooLarge → disk.new ≡ disk.old }
    ensures failed { result ≡ Err SlotFault.DiskFault →
        IsCounted (D.state disk.old) (D.state disk.new) }
{
    if bytes.len() > SLOT_LEN {
        return Err(SlotFault::TooLarge);
    }
    write_record(disk, slot, bytes)?;
    write_selector(disk, slot)?;
    Ok(())
}

impl Slots {
    /// Makes slot 0 the selected one, with this record, on a disk that may hold anything. It takes
    /// no memory.
    ///
    /// The record is a magic word of eight bytes that are not all zero, the length of its body as a
    /// big-endian `u32`, and the body. The disk has at least [`SLOTS_END`] bytes.
    ///
    /// # Errors
    ///
    /// [`SlotFault::TooLarge`] exactly where the record is longer than [`SLOT_LEN`]; the disk is
    /// then untouched. [`SlotFault::DiskFault`] only where the disk's count of faults rose in this
    /// call; what the slots then hold is not told, and what lies behind them stands.
    pub fn format<D: Disk>(disk: &mut D, bytes: &[u8]) -> Result<Slots, SlotFault>
        requires room { slots_end ≤ (D.state disk.old).size }
        requires framed { IsFramed bytes.now }

        ensures first { IfOk result (λ slots. slots ≡ 0) }
        ensures committed { IfOk result (λ slots.
            IsCommitted (D.state disk.old) (D.state disk.new) slots bytes.now) }
        ensures settled { IfOk result (λ slots. IsSettled (D.state disk.new) slots) }

        // Behind the slots everything stays, at any moment too.
        ensures spared { Spares BehindSlots (D.state disk.old) (D.state disk.new) }

        ensures too_large { (result ≡ Err SlotFault.TooLarge) ↔ (SLOT_LEN < length bytes.now) }
        ensures unchanged { result ≡ Err SlotFault.TooLarge → disk.new ≡ disk.old }
        ensures failed { result ≡ Err SlotFault.DiskFault →
            IsCounted (D.state disk.old) (D.state disk.new) }
    {
        select(disk, 0, bytes)?;
        Ok(Slots { slot: 0 })
    }

    /// Reads which slot is the selected one: that of the selector's low bit, whatever the byte. It
    /// takes no memory.
    ///
    /// The disk has at least [`SLOTS_END`] bytes.
    ///
    /// # Errors
    ///
    /// [`SlotFault::DiskFault`], only where the disk's count of faults rose in this call.
    pub fn open<D: Disk>(disk: &mut D) -> Result<Slots, SlotFault>
        requires room { slots_end ≤ (D.state disk.old).size }

        ensures selected { IfOk result (λ slots.
            IsTrue (D.state disk.old).told → slots ≡ slot_of (D.state disk.old).seen) }
        // Where each image selects what is read, as after a restart.
        ensures settled { SelectsOne (D.state disk.old) →
            IfOk result (λ slots. IsSettled (D.state disk.new) slots) }

        ensures quiet { IsQuiet (D.state disk.old) (D.state disk.new) }
        ensures time { Steps (D.state disk.old) (D.state disk.new) }

        ensures failed { OnErr result ((result ≡ Err SlotFault.DiskFault)
            × IsCounted (D.state disk.old) (D.state disk.new)) }
    {
        let selector = read_selector(disk)?;
        Ok(Slots { slot: selector % 2 })
    }

    /// The record in the selected slot, or none where the slot is blank: where its first eight
    /// bytes are zero.
    ///
    /// The disk is the one that the slots were made or opened on.
    ///
    /// # Errors
    ///
    /// [`RecordFault::BadLength`] exactly where the slot is not blank and the length that it states
    /// passes the slot. [`RecordFault::DiskFault`], which goes before every other answer, only
    /// where the disk's count of faults rose in this call. [`RecordFault::NoMemory`] where there
    /// is no memory for the record.
    pub fn record<D: Disk>(
        &self,
        alloc: Global,
        disk: &mut D,
    ) -> Result<Option<Vec<u8>>, RecordFault>
        requires room { slots_end ≤ (D.state disk.old).size }
        requires selected { IsTrue (D.state disk.old).told →
            self.now ≡ slot_of (D.state disk.old).seen }

        ensures spelled { IfOk result (λ found.
            IsTrue (D.state disk.old).told → stored (D.state disk.old).seen ≡ stored_of found) }
        ensures fits { IfOk result (λ found. IfSome found (λ bytes. vec_len bytes ≤ SLOT_LEN)) }

        ensures none { IsTrue (D.state disk.old).told →
            ComesWhere (result ≡ Ok None)
            (stored (D.state disk.old).seen ≡ Blank) (result ≡ Err RecordFault.DiskFault) }
        ensures bad_length { IsTrue (D.state disk.old).told →
            ComesWhere (result ≡ Err RecordFault.BadLength)
            (stored (D.state disk.old).seen ≡ BadLength) (result ≡ Err RecordFault.DiskFault) }

        ensures quiet { IsQuiet (D.state disk.old) (D.state disk.new) }
        ensures time { Steps (D.state disk.old) (D.state disk.new) }

        ensures failed { result ≡ Err RecordFault.DiskFault →
            IsCounted (D.state disk.old) (D.state disk.new) }
    {
        let start = slot_start_of(self.slot);
        let mut head = [0u8; HEAD_LEN];
        disk.read(start, &mut head)?;
        if is_zero(&head[..8]) {
            return Ok(None);
        }
        let len = stated_len(&head);
        if len > SLOT_LEN {
            return Err(RecordFault::BadLength);
        }
        let mut bytes = vec![in alloc; 0u8; len]?;
        disk.read(start, &mut bytes)?;
        Ok(Some(bytes))
    }

    /// Makes a record the selected one, in the other slot, and puts on the medium all that was
    /// written before. It takes no memory.
    ///
    /// The record is one as for [`Slots::format`], and the slots are those of this disk.
    ///
    /// # Errors
    ///
    /// [`SlotFault::TooLarge`] exactly where the record is longer than [`SLOT_LEN`]; the disk is
    /// then untouched. [`SlotFault::DiskFault`] only where the disk's count of faults rose in this
    /// call. The disk is then to be restarted and its slots opened again: the old record is
    /// selected or the new one, and `slot` is the number from before exactly where it is the old
    /// one.
    pub fn commit<D: Disk>(&mut self, disk: &mut D, bytes: &[u8]) -> Result<(), SlotFault>
        requires room { slots_end ≤ (D.state disk.old).size }
        requires framed { IsFramed bytes.now }
        requires settled { IsSettled (D.state disk.old) self.old }

        ensures other { OnOk result (self.new ≡ 1 - self.old) }
        ensures committed { OnOk result
            (IsCommitted (D.state disk.old) (D.state disk.new) self.new bytes.now) }
        ensures settled { OnOk result (IsSettled (D.state disk.new) self.new) }

        // Each image since the start of the call selects the old record or the new one, and what a
        // restart may leave at its end does so too, whatever the answer.
        ensures any_moment { GoesOn (D.state disk.old) (D.state disk.new)
            (IsBeforeOrAfter (D.state disk.old) self.old bytes.now) }
        ensures images { (c : Image) → (D.state disk.new).may_leave c →
            IsBeforeOrAfter (D.state disk.old) self.old bytes.now c }
        ensures spared { Spares BehindSlots (D.state disk.old) (D.state disk.new) }

        ensures same_slot { OnErr result (self.new ≡ self.old) }
        ensures too_large { (result ≡ Err SlotFault.TooLarge) ↔ (SLOT_LEN < length bytes.now) }
        ensures unchanged { result ≡ Err SlotFault.TooLarge → disk.new ≡ disk.old }
        ensures failed { result ≡ Err SlotFault.DiskFault →
            IsCounted (D.state disk.old) (D.state disk.new) }
    {
        let next = 1 - self.slot;
        select(disk, next, bytes)?;
        self.slot = next;
        Ok(())
    }

    /// The number of the selected slot, 0 or 1.
    pub fn slot(&self) -> u8
        ensures number { result ≡ self.now }
        ensures one_of_two { result < 2 }
    {
        self.slot
    }
}
