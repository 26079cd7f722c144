// The register: a value on a disk.
ghost use Rattle.std.specs.Prelude.{◌≡◌, ◌≤◌, true, None, IfOk, IfErr, MatchResult, IsTrue};
ghost use Rattle.sm_disk.specs.Disk.{GoesOn, IsQuiet, IsCounted, IsSynced};
ghost use Rattle.sm_disk.specs.Spared.{Spares};
ghost use Rattle.sm_slots.specs.Stored.{slots_end, stored};
ghost use Rattle.sm_slots.specs.Slots.{BehindSlots};
ghost use Rattle.sm_register.specs.Registered.{IsKept};
ghost use Rattle.sm_register.specs.Opened.{IsOpenFault, ReadsValue, IsFoundOn, held_of};
ghost use Rattle.sm_register.specs.Commits.{Commits};

use crate::fault::OpenFault;
use crate::finding::{Found, find_synced};
use crate::ready::Ready;
use crate::record::Record;
use sm_base::Failed;
use sm_disk::Disk;
use sm_slots::{SlotFault, Slots};
use std::alloc::Global;
use std::marker::Model;

/// A value on a disk that has slots.
#[derive(Drop)]
pub struct Register<D: Disk, R: Record + Drop> {
    pub(crate) disk: D,
    pub(crate) slots: Slots,
    pub(crate) held: R,
    // What a commit that failed was to make of the value: one of the two is on the disk.
    pub(crate) after: Option<R>,
    pub(crate) up: bool,
}

impl<D: Disk, R: Record + Drop> Model for Register<D, R> {
    ghost use Rattle.sm_register.specs.Registered.{Registered, IsRegistered, registered};

    ghost Value = { Registered D R };

    ghost view = { λ s. registered s.disk s.slots s.held s.after s.up };

    ghost invariant = { λ s. IsRegistered D.state R.fits R.shows (registered s.disk s.slots s.held s.after s.up) };
}

impl<D: Disk, R: Record + Drop> Register<D, R> {
    /// What holds of every register, whenever it is asked.
    pub fn told(&self)
        ensures { IsKept D.state R.fits R.shows self.now }
    {
        let _ = &self.disk;
    }

    /// Makes the value the selected one of a disk that may hold anything, in slot 0. It takes no memory.
    ///
    /// The disk has at least [`SLOTS_END`](sm_slots::SLOTS_END) bytes.
    ///
    /// # Errors
    ///
    /// The disk comes back, and only where its count of faults rose in this call.
    pub fn create(mut disk: D, first: Ready<R>) -> Result<Register<D, R>, (D, Failed)>
        requires room { slots_end ≤ (D.state disk).size }

        ensures ok { IfOk result (λ r. r ≡ record { disk = r.disk; selected = 0; held = first; after = None; up = true }) }
        ensures counted { IfErr result (λ e. IsCounted (D.state disk) (D.state e.0)) }
        ensures spared { MatchResult result (λ r. Spares BehindSlots (D.state disk) (D.state r.disk)) (λ e. Spares BehindSlots (D.state disk) (D.state e.0)) }
    {
        let Ready { value, bytes } = first;
        match Slots::format(&mut disk, &bytes) {
            Ok(slots) => Ok(Register {
                disk,
                slots,
                held: value,
                after: None,
                up: true,
            }),
            Err(SlotFault::TooLarge) => unreachable!(),
            Err(SlotFault::DiskFault) => Err((disk, Failed)),
        }
    }

    /// Finds the value on a disk. All that was written before is put onto the medium, as the last step.
    ///
    /// The disk has at least [`SLOTS_END`](sm_slots::SLOTS_END) bytes.
    ///
    /// # Errors
    ///
    /// The disk comes back with the fault, and neither what it reads nor what a restart may leave is
    /// changed. [`OpenFault::BadRecord`] where the selected slot spells no value, with the slot and its
    /// first byte that fits none; where the disk tells its content it comes exactly there, but for a
    /// failure of the disk and want of memory. [`OpenFault::DiskFault`] only where the disk's count of
    /// faults rose in this call; [`OpenFault::NoMemory`] where there is no memory for the value.
    pub fn open(alloc: Global, disk: D) -> Result<Register<D, R>, (D, OpenFault)>
        requires room { slots_end ≤ (D.state disk).size }

        ensures ok { IfOk result (λ r. r ≡ record { disk = r.disk; selected = r.selected; held = r.held; after = None; up = true }) }
        ensures shown { IfOk result (λ r. IsTrue (D.state disk).told → R.shows r.held (stored (D.state disk).seen)) }
        ensures faults { IfErr result (λ e. IsOpenFault R.breaks R.magic_word (D.state disk) e.1) }
        ensures exact { IsTrue (D.state disk).told → ReadsValue R.shows R.again R.breaks R.magic_word (D.state disk).seen (held_of result) }
        ensures unchanged { IfErr result (λ e. IsQuiet (D.state disk) (D.state e.0)) }
        ensures counted { IfErr result (λ e. e.1 ≡ OpenFault.DiskFault → IsCounted (D.state disk) (D.state e.0)) }
        ensures seen { MatchResult result (λ r. (D.state r.disk).seen ≡ (D.state disk).seen) (λ e. (D.state e.0).seen ≡ (D.state disk).seen) }
        ensures any_moment { MatchResult result (λ r. GoesOn (D.state disk) (D.state r.disk) (D.state disk).may_leave) (λ e. GoesOn (D.state disk) (D.state e.0) (D.state disk).may_leave) }
    {
        let mut disk = disk;
        match find_synced(alloc, &mut disk) {
            Ok(found) => Ok(Register::start(disk, found)),
            Err(fault) => Err((disk, fault)),
        }
    }

    /// Takes the value that was found on the disk, once all that was written before is on the medium. No
    /// device is called.
    pub fn start(disk: D, found: Found<R>) -> Register<D, R>
        requires found { IsFoundOn R.fits R.shows (D.state disk) found }
        requires synced { IsSynced (D.state disk) }
        ensures { result ≡ record { disk = disk; selected = found.number; held = found.value; after = None; up = true } }
    {
        let Found { slots, value } = found;
        Register {
            disk,
            slots,
            held: value,
            after: None,
            up: true,
        }
    }

    /// Whether no call has failed since the register was made, opened or restarted.
    pub fn is_up(&self) -> bool
        ensures { result ≡ self.now.up }
    {
        self.up
    }

    /// The value that is selected.
    pub fn held(&self) -> &R
        ensures { result.now ≡ self.now.held }
    {
        &self.held
    }

    /// How often the disk has failed.
    pub fn faults(&self) -> u64
        ensures { result ≡ (D.state self.now.disk).faults }
    {
        self.disk.faults()
    }

    /// Makes a value the selected one. It takes no memory.
    ///
    /// # Errors
    ///
    /// Only where the disk's count of faults rose in this call. The value before is then on the disk or
    /// the next one, which a restart tells.
    pub fn commit(&mut self, next: Ready<R>) -> Result<(), Failed>
        requires up { self.old.up ≡ true }
        ensures { Commits D.state R.shows self.old next result self.new }
    {
        let Ready { value, bytes } = next;
        match self.slots.commit(&mut self.disk, &bytes) {
            Ok(()) => {
                self.held = value;
                Ok(())
            }
            Err(SlotFault::TooLarge) => unreachable!(),
            Err(SlotFault::DiskFault) => {
                self.after = Some(value);
                self.up = false;
                Err(Failed)
            }
        }
    }

    /// The disk.
    pub fn into_disk(self) -> D
        ensures { result ≡ self.disk }
    {
        self.disk
    }
}
