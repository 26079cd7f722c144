// A volume is made on a disk, or found there.
ghost use Rattle.std.specs.Prelude.{◌≡◌, ◌≤◌, true, [], None, IfOk, IfErr, MatchResult, IsTrue};
ghost use Rattle.sm_base.specs.declared.limits.TheConstants.{MOST_LOGICAL, MOST_PHYSICAL};
ghost use Rattle.sm_defs.specs.Volume.{new_volume};
ghost use Rattle.sm_disk.specs.Disk.{GoesOn, IsQuiet, IsCounted, IsSynced};
ghost use Rattle.volume_store.specs.Held.{need};
ghost use Rattle.volume_store.specs.Opened.{IsCreateFault, IsOpenFault, IsFoundOn, AnswersEachFault, without_disk};
ghost use Rattle.sm_volume.specs.Mounted.{Mounted, opened};
ghost use Rattle.sm_volume.specs.Seen.{root_of};
ghost use Rattle.sm_volume.specs.Shown.{Selects, KeepsBlocks, NoBlock};

use crate::volume::Volume;
use sm_base::{Kind, VolNo};
use sm_disk::Disk;
use std::alloc::Global;
use volume_store::{Found, Store, VolumeFault};

impl<D: Disk> Volume<D> {
    /// Makes a volume of holes on a disk that may hold anything.
    ///
    /// # Errors
    ///
    /// The disk comes back with the fault. [`VolumeFault::DiskSmall`] exactly where the disk is
    /// shorter than the volume needs; it and want of memory leave the disk untouched.
    pub fn create(
        alloc: Global,
        disk: D,
        number: VolNo,
        kind: Kind,
        logical: u32,
        physical: u32,
    ) -> Result<Volume<D>, (D, VolumeFault)>
        requires some { 1 ≤ logical }
        requires few { logical ≤ MOST_LOGICAL }
        requires room { logical ≤ physical }
        requires places { physical ≤ MOST_PHYSICAL }

        ensures ok { IfOk result (λ v. v ≡ record { disk = v.disk; number = number; selected = 0; volume = new_volume [] 0 kind number.0 logical physical; after = None; up = true }) }
        ensures large { IfOk result (λ v. need physical ≤ (D.state disk).size) }
        ensures synced { IfOk result (λ v. IsSynced (D.state v.disk)) }
        ensures faults { IfErr result (λ e. IsCreateFault (D.state disk) physical e.1) }
        ensures untouched { IfErr result (λ e. (e.1 ≡ VolumeFault.DiskFault → ⊥) → e.0 ≡ disk) }
        ensures counted { IfErr result (λ e. e.1 ≡ VolumeFault.DiskFault → IsCounted (D.state disk) (D.state e.0)) }
        ensures blocks { MatchResult result (λ v. KeepsBlocks NoBlock (D.state disk) (D.state v.disk)) (λ e. KeepsBlocks NoBlock (D.state disk) (D.state e.0)) }
    {
        match Store::create(alloc, disk, number, kind, logical, physical) {
            Ok(store) => Ok(Volume { store }),
            Err(fault) => Err(fault),
        }
    }

    /// Finds a volume on a disk. All that was written before is put onto the medium, as the last step.
    ///
    /// # Errors
    ///
    /// The disk comes back with the fault, and neither what it reads nor what a restart may leave is
    /// changed. [`VolumeFault::DiskSmall`] where the disk is shorter than the smallest volume needs, or
    /// shorter than the root's physical size needs; [`VolumeFault::BadRoot`] where the selected record is
    /// no root, with its slot and its first byte that fits none; [`VolumeFault::OtherNumber`] where the
    /// root is that of another volume. Where the disk tells its content these three come exactly there,
    /// but for a failure of the disk and want of memory.
    pub fn open(alloc: Global, disk: D, number: VolNo) -> Result<Volume<D>, (D, VolumeFault)>
        ensures ok { IfOk result (λ v. (v ≡ record v { number = number; after = None; up = true }) × (v.volume ≡ opened v.volume)
            × (IsTrue (D.state disk).told → Selects v.selected number v.volume (D.state disk).seen)) }
        ensures faults { IfErr result (λ e. IsOpenFault (D.state disk) number e.1) }
        ensures exact { AnswersEachFault (D.state disk) number (without_disk result) }
        ensures unchanged { IfErr result (λ e. IsQuiet (D.state disk) (D.state e.0)) }
        ensures counted { IfErr result (λ e. e.1 ≡ VolumeFault.DiskFault → IsCounted (D.state disk) (D.state e.0)) }
        ensures seen { MatchResult result (λ v. (D.state v.disk).seen ≡ (D.state disk).seen) (λ e. (D.state e.0).seen ≡ (D.state disk).seen) }
        ensures any_moment { MatchResult result (λ v. GoesOn (D.state disk) (D.state v.disk) (D.state disk).may_leave) (λ e. GoesOn (D.state disk) (D.state e.0) (D.state disk).may_leave) }
    {
        match Store::open(alloc, disk, number) {
            Ok(store) => {
                store.told();
                Ok(Volume { store })
            }
            Err(fault) => Err(fault),
        }
    }

    /// Takes the volume that was found on the disk, once all that was written before is on the medium. No
    /// device is called.
    pub fn start(disk: D, found: Found) -> Volume<D>
        requires found { IsFoundOn (D.state disk) found }
        requires synced { IsSynced (D.state disk) }
        ensures value { result ≡ record result { disk = disk; number = found.maps.root.number; selected = found.number; after = None; up = true } }
        ensures opened { result.volume ≡ opened result.volume }
        ensures root { root_of result.number result.volume ≡ found.maps.root }
        ensures selected { IsTrue (D.state disk).told → Selects result.selected result.number result.volume (D.state disk).seen }
    {
        let store = Store::start(disk, found);
        store.told();
        Volume { store }
    }
}
