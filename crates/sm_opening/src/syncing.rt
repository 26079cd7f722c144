// What was written is put onto the medium of the disks that a node uses.
ghost use Rattle.std.specs.Prelude.{◌≡◌, ◌<◌, length, IfErr, OnOk};
ghost use Rattle.sm_model.specs.declared.world.OpenKind.TheVariants.{Fault};
ghost use Rattle.sm_opening.specs.declared.fault.OpenFault.TheVariants.{Unopened};
ghost use Rattle.sm_opening.specs.Looked.{OneMoves, EachMoves, IsKeptOn, IsFaultCounted};
ghost use Rattle.sm_opening.specs.Judged.{IsDiskFault};
ghost use Rattle.sm_opening.specs.Finding.{LieApart};
ghost use Rattle.sm_opening.specs.Syncing.{SyncsDisk, AllSynced};

use crate::fault::OpenFault;
use sm_base::{DiskNo, Failed};
use sm_catroot::Placed;
use sm_disk::Disk;
use sm_model::OpenKind;

fn sync_at<D: Disk>(disks: &mut [D], at: usize) -> Result<(), Failed>
    requires place { at < length disks.old }
    ensures { OneMoves D.state at (λ s e. SyncsDisk s result e) disks.old disks.new }
{
    disks[at].sync()
}

// The same, where a failure is one of that disk.
fn sync_numbered<D: Disk>(disks: &mut [D], disk: DiskNo) -> Result<(), OpenFault>
    requires place { disk.0 < length disks.old }
    ensures synced { OneMoves D.state disk.0 (λ s e. SyncsDisk s result e) disks.old disks.new }
    ensures fault { IfErr result (λ e. e ≡ Unopened disk Fault) }
{
    match sync_at(disks, disk.0 as usize) {
        Ok(()) => Ok(()),
        Err(Failed) => Err(OpenFault::Unopened {
            disk,
            kind: OpenKind::Fault,
        }),
    }
}

/// Puts what was written onto the medium of disk 0, and then of each volume's disk. No disk reads
/// otherwise afterwards, and a restart may leave nothing new.
///
/// # Errors
///
/// The first disk that fails, as [`OpenKind::Fault`]: its count of faults rose in this call.
pub fn sync_all<D: Disk>(disks: &mut [D], placed: &[Placed]) -> Result<(), OpenFault>
    requires some { 0 < length disks.old }
    requires apart { LieApart (length disks.old) placed.now }

    ensures moves { EachMoves D.state IsKeptOn disks.old disks.new }
    ensures synced { OnOk result (AllSynced D.state placed.now disks.new) }
    ensures counted { IfErr result (IsFaultCounted D.state disks.old disks.new) }
    ensures faults { IfErr result IsDiskFault }
{
    sync_numbered(disks, DiskNo(0))?;
    for volume in placed {
        sync_numbered(disks, volume.disk)?;
    }
    Ok(())
}
