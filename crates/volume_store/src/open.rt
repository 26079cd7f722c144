// A volume is made on a disk, or found there.
ghost use Rattle.std.specs.Prelude.{◌≡◌, ◌≤◌, true, Err, None, IfOk, IfErr, MatchResult, IsTrue};
ghost use Rattle.sm_base.specs.declared.limits.TheConstants.{MOST_LOGICAL, MOST_PHYSICAL};
ghost use Rattle.sm_disk.specs.Disk.{GoesOn, IsQuiet, IsCounted, IsSynced};
ghost use Rattle.sm_disk.specs.Spared.{Spares};
ghost use Rattle.sm_slots.specs.Slots.{BehindSlots};
ghost use Rattle.sm_slots.specs.Stored.{slot_of};
ghost use Rattle.sm_root.specs.Condition.{IsRoot};
ghost use Rattle.sm_root.specs.declared.root.Root.{Root};
ghost use Rattle.volume_store.specs.Held.{Held, need};
ghost use Rattle.volume_store.specs.Opened.{empty_maps, IsCreateFault, IsOpenFault, IsFoundOn, IsRootOn, AnswersEachFault, without_disk};

use crate::blocks::need_of;
use crate::faults::VolumeFault;
use crate::found::{Found, find};
use crate::held::Store;
use crate::state::State;
use sm_base::{Kind, NoMemory, VolNo};
use sm_disk::Disk;
use sm_root::encode;
use sm_slots::Slots;
use std::alloc::Global;

impl<D: Disk> Store<D> {
    /// Makes a volume of holes on a disk that may hold anything.
    ///
    /// # Errors
    ///
    /// The disk comes back with the fault. [`VolumeFault::DiskSmall`] exactly where the disk is
    /// shorter than the volume needs; it and want of memory leave the disk untouched.
    pub fn create(
        alloc: Global,
        disk: D,
        number: VolNo,
        kind: Kind,
        logical: u32,
        physical: u32,
    ) -> Result<Store<D>, (D, VolumeFault)>
        requires some { 1 ≤ logical }
        requires few { logical ≤ MOST_LOGICAL }
        requires room { logical ≤ physical }
        requires places { physical ≤ MOST_PHYSICAL }

        ensures ok { IfOk result (λ v. v ≡ record { disk = v.disk; number = 0; maps = empty_maps number kind logical physical; after = None; up = true }) }
        ensures large { IfOk result (λ v. need physical ≤ (D.state disk).size) }
        ensures synced { IfOk result (λ v. IsSynced (D.state v.disk)) }
        ensures faults { IfErr result (λ e. IsCreateFault (D.state disk) physical e.1) }
        ensures untouched { IfErr result (λ e. (e.1 ≡ VolumeFault.DiskFault → ⊥) → e.0 ≡ disk) }
        ensures counted { IfErr result (λ e. e.1 ≡ VolumeFault.DiskFault → IsCounted (D.state disk) (D.state e.0)) }
        ensures spared { MatchResult result (λ v. Spares BehindSlots (D.state disk) (D.state v.disk)) (λ e. Spares BehindSlots (D.state disk) (D.state e.0)) }
    {
        let mut disk = disk;
        let (need, len) = (need_of(physical), disk.len());
        if len < need {
            return Err((disk, VolumeFault::DiskSmall { need, len }));
        }
        let state = match State::empty(alloc, number, kind, logical, physical) {
            Ok(state) => state,
            Err(NoMemory) => return Err((disk, VolumeFault::NoMemory)),
        };
        let bytes = match encode(alloc, state.root()) {
            Ok(bytes) => bytes,
            Err(NoMemory) => return Err((disk, VolumeFault::NoMemory)),
        };
        match Slots::format(&mut disk, &bytes) {
            Ok(slots) => Ok(Store {
                disk,
                slots,
                state,
                after: None,
                up: true,
            }),
            Err(_) => Err((disk, VolumeFault::DiskFault)),
        }
    }

    /// Finds a volume on a disk. All that was written before is put onto the medium, as the last step.
    ///
    /// # Errors
    ///
    /// The disk comes back with the fault, and neither what it reads nor what a restart may leave is
    /// changed. [`VolumeFault::DiskSmall`] where the disk is shorter than the smallest volume needs, or
    /// shorter than the root's physical size needs; [`VolumeFault::BadRoot`] where the selected record is
    /// no root, with its slot and its first byte that fits none; [`VolumeFault::OtherNumber`] where the
    /// root is that of another volume. Where the disk tells its content these three come exactly there,
    /// but for a failure of the disk and want of memory.
    pub fn open(alloc: Global, disk: D, number: VolNo) -> Result<Store<D>, (D, VolumeFault)>
        ensures ok { IfOk result (λ v. (r : Root) × (r.number ≡ number)
            × (v ≡ record { disk = v.disk; number = v.number; maps = record { root = r; active = r.stable }; after = None; up = true })
            × (IsTrue (D.state disk).told → IsRootOn (D.state disk).seen r)) }
        ensures faults { IfErr result (λ e. IsOpenFault (D.state disk) number e.1) }
        ensures exact { AnswersEachFault (D.state disk) number (without_disk result) }
        ensures unchanged { IfErr result (λ e. IsQuiet (D.state disk) (D.state e.0)) }
        ensures counted { IfErr result (λ e. e.1 ≡ VolumeFault.DiskFault → IsCounted (D.state disk) (D.state e.0)) }
        ensures seen { MatchResult result (λ v. (D.state v.disk).seen ≡ (D.state disk).seen) (λ e. (D.state e.0).seen ≡ (D.state disk).seen) }
        ensures any_moment { MatchResult result (λ v. GoesOn (D.state disk) (D.state v.disk) (D.state disk).may_leave) (λ e. GoesOn (D.state disk) (D.state e.0) (D.state disk).may_leave) }
    {
        let mut disk = disk;
        match find_synced(alloc, &mut disk, number) {
            Ok(found) => Ok(Store::start(disk, found)),
            Err(fault) => Err((disk, fault)),
        }
    }

    /// Takes the volume that was found on the disk, once all that was written before is on the medium. No
    /// device is called.
    pub fn start(disk: D, found: Found) -> Store<D>
        requires found { IsFoundOn (D.state disk) found }
        requires synced { IsSynced (D.state disk) }
        ensures { result ≡ record { disk = disk; number = found.number; maps = found.maps; after = None; up = true } }
    {
        Store {
            disk,
            slots: found.slots,
            state: found.state,
            after: None,
            up: true,
        }
    }
}

// Finds a volume, and puts onto the medium what was written before, as the last step.
fn find_synced<D: Disk>(alloc: Global, disk: &mut D, number: VolNo) -> Result<Found, VolumeFault>
    ensures found { IfOk result (λ f. IsFoundOn (D.state disk.new) f × (f.maps.root.number ≡ number)) }
    ensures synced { IfOk result (λ f. IsSynced (D.state disk.new)) }
    ensures faults { IfErr result (IsOpenFault (D.state disk.old) number) }
    ensures exact { AnswersEachFault (D.state disk.old) number result }
    ensures counted { result ≡ Err VolumeFault.DiskFault → IsCounted (D.state disk.old) (D.state disk.new) }
    ensures unchanged { IfErr result (λ e. IsQuiet (D.state disk.old) (D.state disk.new)) }
    ensures seen { (D.state disk.new).seen ≡ (D.state disk.old).seen }
    ensures any_moment { GoesOn (D.state disk.old) (D.state disk.new) (D.state disk.old).may_leave }
{
    let found = find(alloc, disk, number)?;
    disk.sync()?;
    Ok(found)
}
