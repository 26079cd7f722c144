// The one commit of a step.
ghost use Rattle.std.specs.Prelude.{◌≡◌, true, Bool, None};
ghost use Rattle.std.specs.List.{filter};
ghost use Rattle.sm_defs.specs.Volume.{Snapshot, idents};
ghost use Rattle.volume_store.specs.Refusals.{Refuses};
ghost use Rattle.sm_publish.specs.Committing.{answered};
ghost use Rattle.sm_publish.specs.Dropping.{Drops};

use sm_base::{Ident, VolNo};
use sm_disk::Disk;
use sm_transfer::StepFault;
use sm_volume::{Volume, VolumeFault};
use std::alloc::Global;

// What a step answers for a commit of a volume that was not refused.
pub(crate) fn answered<A: Copy>(
    done: Result<(), VolumeFault>,
    answer: A,
    volume: VolNo,
) -> Result<A, StepFault>
    requires { Refuses None done }
    ensures { result ≡ answered volume answer done }
{
    match done {
        Ok(()) => Ok(answer),
        Err(VolumeFault::DiskFault) => Err(StepFault::DiskFault { volume }),
        Err(VolumeFault::NoMemory) => Err(StepFault::NoMemory),
        Err(_) => unreachable!(),
    }
}

// Lets snapshots of a volume go, by one commit if there are any, and answers how many went.
pub(crate) fn drop_all<D: Disk>(
    alloc: Global,
    drops: &[Ident],
    volume: &mut Volume<D>,
) -> Result<u32, StepFault>
    requires up { volume.old.up ≡ true }
    requires there { (test : Snapshot → Bool) × (drops.now ≡ idents (filter test volume.old.volume.snapshots)) }
    ensures { (test : Snapshot → Bool) → drops.now ≡ idents (filter test volume.old.volume.snapshots) → Drops D.state test None result volume.old volume.new }
{
    volume.told();
    let count = drops.len() as u32;
    if count == 0 {
        return Ok(0);
    }
    let number = volume.root().number;
    let done = volume.remove(alloc, drops);
    answered(done, count, number)
}
