// Tidy.
ghost use Rattle.std.specs.Prelude.{◌≡◌, true, length};
ghost use Rattle.sm_defs.specs.Needed as needs;
ghost use Rattle.sm_defs.specs.World.{Up};
ghost use Rattle.sm_policy.specs.Marks.{needed_marks};
ghost use Rattle.sm_publish.specs.Dropping.{Tidies};

use crate::committing::drop_all;
use crate::marking::tidied;
use sm_disk::Disk;
use sm_transfer::StepFault;
use sm_volume::Volume;
use std::alloc::Global;

/// Lets go what transfers made on a volume that clients write and nobody needs, by one commit if there is any, and
/// answers how many snapshots went. `needed` tells of each snapshot of the volume, in their order, whether a
/// relationship needs it there.
///
/// # Errors
///
/// - [`StepFault::DiskFault`] with the volume where its disk failed; whether the snapshots went a restart tells.
/// - [`StepFault::NoMemory`] where memory is wanted; the volume is then as it was.
pub fn tidy<D: Disk>(
    alloc: Global,
    needed: &[bool],
    source: &mut Volume<D>,
) -> Result<u32, StepFault>
    requires up { source.old.up ≡ true }
    requires places { length needed.now ≡ length source.old.volume.snapshots }

    ensures { (w : Up) → needed.now ≡ needed_marks (needs.needed w source.old.number.0) source.old.volume.snapshots → Tidies D.state w result source.old source.new }
{
    source.told();
    let root = source.root();
    let drops = tidied(alloc, root.number, needed, root.snapshots.as_slice())?;
    drop_all(alloc, &drops, source)
}
