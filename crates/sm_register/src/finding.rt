// A disk is looked at for its value.
ghost use Rattle.std.specs.Prelude.{◌≡◌, ◌≤◌, ◌<◌, Err, length, IfOk, IfErr, OnErr, IsTrue};
ghost use Rattle.sm_disk.specs.Image.{part};
ghost use Rattle.sm_disk.specs.Disk.{GoesOn, IsQuiet, IsSynced, IsCounted};
ghost use Rattle.sm_slots.specs.Stored.{stored, slot_of, slot_start, slots_end};
ghost use Rattle.sm_register.specs.declared.fault.OpenFault.TheVariants.{DiskFault};
ghost use Rattle.sm_register.specs.Opened.{DiffersFirst, IsOpenFault, ReadsValue, IsFoundOn, value_of};

use crate::fault::{DecodeFault, OpenFault};
use crate::record::Record;
use sm_base::Failed;
use sm_disk::Disk;
use sm_slots::{RecordFault, Slots, slot_start_of};
use std::alloc::Global;
use std::marker::Model;

// The first byte that differs from the magic word, or 8.
fn first_difference(magic: &[u8], bytes: &[u8]) -> u32
    requires word { length magic.now ≡ 8 }
    requires front { length bytes.now ≡ 8 }
    ensures { DiffersFirst magic.now bytes.now result }
{
    for at in 0..8 {
        if bytes[at as usize] != magic[at as usize] {
            return at;
        }
    }
    8
}

// Where the slot does not begin with the magic word.
fn magic_fault<D: Disk>(disk: &mut D, slot: u8, magic: &[u8]) -> Result<u32, Failed>
    requires room { slots_end ≤ (D.state disk.old).size }
    requires one_of_two { slot < 2 }
    requires word { length magic.now ≡ 8 }

    ensures first { IfOk result (λ at. IsTrue (D.state disk.old).told → DiffersFirst magic.now (part (D.state disk.old).seen (slot_start slot) 8) at) }
    ensures quiet { IsQuiet (D.state disk.old) (D.state disk.new) }
    ensures time { GoesOn (D.state disk.old) (D.state disk.new) (D.state disk.new).may_leave }
    ensures counted { OnErr result (IsCounted (D.state disk.old) (D.state disk.new)) }
{
    let mut front = [0u8; 8];
    disk.read(slot_start_of(slot), &mut front)?;
    Ok(first_difference(magic, &front))
}

// The value in the selected slot.
fn read_value<D: Disk, R: Record + Drop>(
    alloc: Global,
    disk: &mut D,
    slots: &Slots,
) -> Result<R, OpenFault>
    requires room { slots_end ≤ (D.state disk.old).size }
    requires selected { IsTrue (D.state disk.old).told → slots.now ≡ slot_of (D.state disk.old).seen }

    ensures fits { IfOk result R.fits }
    ensures shown { IfOk result (λ value. IsTrue (D.state disk.old).told → R.shows value (stored (D.state disk.old).seen)) }
    ensures faults { IfErr result (IsOpenFault R.breaks R.magic_word (D.state disk.old)) }
    ensures exact { IsTrue (D.state disk.old).told → ReadsValue R.shows R.again R.breaks R.magic_word (D.state disk.old).seen result }
    ensures quiet { IsQuiet (D.state disk.old) (D.state disk.new) }
    ensures time { GoesOn (D.state disk.old) (D.state disk.new) (D.state disk.old).may_leave }
    ensures counted { result ≡ Err DiskFault → IsCounted (D.state disk.old) (D.state disk.new) }
{
    let slot = slots.slot();
    let found = match slots.record(alloc, disk) {
        Ok(found) => found,
        Err(RecordFault::DiskFault) => return Err(OpenFault::DiskFault),
        Err(RecordFault::NoMemory) => return Err(OpenFault::NoMemory),
        Err(RecordFault::BadLength) => {
            let at = magic_fault(disk, slot, &R::magic())?;
            return Err(OpenFault::BadRecord { slot, at });
        }
    };
    match R::decode(alloc, found) {
        Ok(value) => Ok(value),
        Err(DecodeFault::Bad { at }) => Err(OpenFault::BadRecord { slot, at }),
        Err(DecodeFault::NoMemory) => Err(OpenFault::NoMemory),
    }
}

/// A value that was found on a disk, of which nothing was changed yet.
#[derive(Drop)]
pub struct Found<R: Record + Drop> {
    pub(crate) slots: Slots,
    pub(crate) value: R,
}

impl<R: Record + Drop> Model for Found<R> {
    ghost use Rattle.sm_register.specs.Opened.{FoundValue};

    ghost Value = { FoundValue R };

    ghost view = { λ f. record { number = f.slots; value = f.value } };
}

impl<R: Record + Drop> Found<R> {
    /// The value.
    pub fn value(&self) -> &R
        ensures { result.now ≡ self.now.value }
    {
        &self.value
    }
}

/// Finds the value in the selected slot of a disk. Whatever it answers, it changes neither what a read
/// gives nor what a restart may leave, so several disks may be looked at before one of them is changed.
///
/// The disk has at least [`SLOTS_END`](sm_slots::SLOTS_END) bytes.
///
/// # Errors
///
/// [`OpenFault::BadRecord`] where the selected slot spells no value, with the slot and its first byte
/// that fits none; where the disk tells its content it comes exactly there, but for a failure of the disk
/// and want of memory. [`OpenFault::DiskFault`] only where the disk's count of faults rose in this call;
/// [`OpenFault::NoMemory`] where there is no memory for the value.
pub fn find<D: Disk, R: Record + Drop>(alloc: Global, disk: &mut D) -> Result<Found<R>, OpenFault>
    requires room { slots_end ≤ (D.state disk.old).size }

    ensures found { IfOk result (λ f. IsFoundOn R.fits R.shows (D.state disk.new) f) }
    ensures faults { IfErr result (IsOpenFault R.breaks R.magic_word (D.state disk.old)) }
    ensures exact { IsTrue (D.state disk.old).told → ReadsValue R.shows R.again R.breaks R.magic_word (D.state disk.old).seen (value_of result) }
    ensures counted { result ≡ Err DiskFault → IsCounted (D.state disk.old) (D.state disk.new) }
    ensures quiet { IsQuiet (D.state disk.old) (D.state disk.new) }
    ensures time { GoesOn (D.state disk.old) (D.state disk.new) (D.state disk.old).may_leave }
{
    let Ok(slots) = Slots::open(disk) else {
        return Err(OpenFault::DiskFault);
    };
    let _slot = slots.slot();
    let value = read_value(alloc, disk, &slots)?;
    Ok(Found { slots, value })
}

/// Finds the value, and puts onto the medium what was written before, as the last step.
pub fn find_synced<D: Disk, R: Record + Drop>(
    alloc: Global,
    disk: &mut D,
) -> Result<Found<R>, OpenFault>
    requires room { slots_end ≤ (D.state disk.old).size }

    ensures found { IfOk result (λ f. IsFoundOn R.fits R.shows (D.state disk.new) f) }
    ensures shown { IfOk result (λ f. IsTrue (D.state disk.old).told → R.shows f.value (stored (D.state disk.old).seen)) }
    ensures synced { IfOk result (λ f. IsSynced (D.state disk.new)) }
    ensures faults { IfErr result (IsOpenFault R.breaks R.magic_word (D.state disk.old)) }
    ensures exact { IsTrue (D.state disk.old).told → ReadsValue R.shows R.again R.breaks R.magic_word (D.state disk.old).seen (value_of result) }
    ensures counted { result ≡ Err DiskFault → IsCounted (D.state disk.old) (D.state disk.new) }
    ensures unchanged { IfErr result (λ e. IsQuiet (D.state disk.old) (D.state disk.new)) }
    ensures seen { (D.state disk.new).seen ≡ (D.state disk.old).seen }
    ensures any_moment { GoesOn (D.state disk.old) (D.state disk.new) (D.state disk.old).may_leave }
{
    let found = find(alloc, disk)?;
    disk.sync()?;
    Ok(found)
}
