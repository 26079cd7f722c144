// The digest of an image, block by block.
ghost use Rattle.std.specs.Prelude.{◌≡◌, true, Err, Some, IfOk, OnErr, IsSome, IsTrue};
ghost use Rattle.sm_defs.specs.Image.{Image};
ghost use Rattle.sm_model.specs.OfReport.{digest};
ghost use Rattle.sm_volume.specs.Refusals.{image_seen};
ghost use Rattle.sm_node.specs.Reading.{Reads};

use sha2::{Digest, Sha256};
use sm_base::Block;
use sm_disk::Disk;
use sm_volume::{View, Volume, VolumeFault};

/// The SHA-256 of an image of the volume, of all logical blocks in order. `block` is the room for one block. No
/// memory is taken.
pub fn digest_of<D: Disk>(
    volume: &mut Volume<D>,
    view: View,
    block: &mut Block,
) -> Result<[u8; 32], VolumeFault>
    requires up { volume.old.up ≡ true }
    requires stands { IsSome (image_seen volume.old.volume view) }

    ensures refused { OnErr result (result ≡ Err VolumeFault.DiskFault) }
    ensures digest { IfOk result (λ d. IsTrue (D.state volume.old.disk).told → (image : Image) → image_seen volume.old.volume view ≡ Some image → d ≡ digest image) }
    ensures reads { Reads D.state result volume.old volume.new }
{
    volume.told();
    let blocks = volume.root().logical;
    let mut hasher = Sha256::new();
    for at in 0..blocks {
        match volume.read(view, at, block) {
            Ok(()) => hasher.update(&block.0),
            Err(fault) => return Err(fault),
        }
    }
    Ok(hasher.finalize())
}
