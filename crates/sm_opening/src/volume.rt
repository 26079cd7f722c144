// A volume's disk is looked at.
ghost use Rattle.std.specs.Prelude.{◌≡◌, ◌<◌, length, true, IfOk};
ghost use Rattle.sm_opening.specs.Looked.{disks_of, AllTold, OneMoves, Looks};
ghost use Rattle.sm_opening.specs.OnDisk.{IsVolumeOn, IsVolumeDamage};
ghost use Rattle.sm_opening.specs.Finding.{FindsVolume, IsVolumeFound, volume_fault, lies_apart};

use crate::fault::OpenFault;
use crate::lying::lies;
use sm_base::{DiskNo, VolNo};
use sm_catroot::Placed;
use sm_disk::Disk;
use sm_model::OpenKind;
use std::alloc::Global;
use volume_store::{Found, VolumeFault, find};

// The volume's fault as one of its disk.
fn fault_of(disk: DiskNo, fault: VolumeFault) -> OpenFault
    ensures { result ≡ volume_fault disk fault }
{
    match fault {
        VolumeFault::DiskSmall { .. } => OpenFault::Unopened {
            disk,
            kind: OpenKind::Short,
        },
        VolumeFault::BadRoot { .. } => OpenFault::Unopened {
            disk,
            kind: OpenKind::Record,
        },
        VolumeFault::OtherNumber { .. } => OpenFault::Unopened {
            disk,
            kind: OpenKind::Number,
        },
        VolumeFault::DiskFault => OpenFault::Unopened {
            disk,
            kind: OpenKind::Fault,
        },
        _ => OpenFault::NoMemory,
    }
}

// Finds a volume on the disk of a number.
fn find_at<D: Disk>(
    alloc: Global,
    disks: &mut [D],
    at: usize,
    number: VolNo,
) -> Result<Found, VolumeFault>
    requires place { at < length disks.old }
    ensures { OneMoves D.state at (λ s e. FindsVolume number s result e) disks.old disks.new }
{
    find(alloc, &mut disks[at], number)
}

/// Finds the volume of this number on the disk that the catalogue says, with these volumes before it.
pub fn find_volume<D: Disk>(
    alloc: Global,
    disks: &mut [D],
    before: &[Placed],
    placed: &Placed,
    number: VolNo,
) -> Result<Found, OpenFault>
    ensures looks { Looks D.state (IsVolumeDamage (disks_of D.state disks.old) before.now number.0 placed.now) disks.old disks.new result }
    ensures apart { IfOk result (λ f. lies_apart (length disks.old) before.now placed.now ≡ true) }
    ensures found { IfOk result (λ f. IsVolumeFound D.state number placed.now disks.new f) }
    ensures volume { IfOk result (λ f. AllTold D.state disks.old → IsVolumeOn (disks_of D.state disks.old) before.now number.0 placed.now f.maps.root) }
{
    let disk = placed.disk;
    if !lies(disks.len(), before, placed) {
        return Err(OpenFault::Unopened {
            disk,
            kind: OpenKind::NoDisk,
        });
    }
    match find_at(alloc, disks, disk.0 as usize, number) {
        Ok(found) => Ok(found),
        Err(fault) => Err(fault_of(disk, fault)),
    }
}
