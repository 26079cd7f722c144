// The disks of all volumes are looked at.
ghost use Rattle.std.specs.Prelude.{◌≡◌, ◌≤◌, [], map, length, IfOk, IfErr};
ghost use Rattle.sm_base.specs.declared.limits.TheConstants.{MOST_VOLUMES};
ghost use Rattle.sm_opening.specs.Looked.{disks_of, AllTold, Looks, Fails};
ghost use Rattle.sm_opening.specs.OnDisk.{AreVolumesOn, IsFirstDamage};
ghost use Rattle.sm_opening.specs.Finding.{AreVolumesFound, LieApart, root_of};

use crate::fault::OpenFault;
use crate::volume::find_volume;
use sm_base::VolNo;
use sm_catroot::Placed;
use sm_disk::Disk;
use std::alloc::Global;
use volume_store::Found;

/// Finds each volume of the catalogue, by its number.
pub fn find_volumes<D: Disk>(
    alloc: Global,
    disks: &mut [D],
    placed: &[Placed],
) -> Result<Vec<Found>, OpenFault>
    requires few { length placed.now ≤ MOST_VOLUMES }

    ensures looks { Looks D.state (IsFirstDamage (disks_of D.state disks.old) [] 0 placed.now) disks.old disks.new result }
    ensures whole { AllTold D.state disks.old → (rs : _) → AreVolumesOn (disks_of D.state disks.old) [] 0 placed.now rs → IfErr result Fails }
    ensures apart { IfOk result (λ fs. LieApart (length disks.old) placed.now) }
    ensures found { IfOk result (λ fs. AreVolumesFound D.state placed.now disks.new fs.items) }
    ensures volumes { IfOk result (λ fs. AllTold D.state disks.old → AreVolumesOn (disks_of D.state disks.old) [] 0 placed.now (map root_of fs.items)) }
{
    let mut founds = Vec::new(alloc);
    for at in 0..placed.len() {
        let number = VolNo(at as u32);
        let found = match find_volume(alloc, disks, &placed[..at], &placed[at], number) {
            Ok(found) => found,
            Err(fault) => return Err(fault),
        };
        let Ok(()) = founds.push(found) else {
            return Err(OpenFault::NoMemory);
        };
    }
    Ok(founds)
}
