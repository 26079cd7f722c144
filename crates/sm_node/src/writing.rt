// A client writes a block of a volume.
ghost use Rattle.std.specs.Prelude.{◌≡◌, min};
ghost use Rattle.sm_model.specs.OfVolumes as answers;
ghost use Rattle.sm_node.specs.Nodes.{world_of, IsUp};
ghost use Rattle.sm_node.specs.Acts.{Acts};

use crate::calls::write_at;
use crate::fault::NodeFault;
use crate::node::Node;
use sm_base::Path;
use sm_disk::Disk;
use sm_model::Reply;
use std::alloc::Global;

/// No volume has a block of the greatest number or a greater one, so that one is as good as the other.
fn saturated(block: u64) -> u32
    ensures { result ≡ min block 4294967295 }
{
    if block < u32::MAX as u64 {
        block as u32
    } else {
        u32::MAX
    }
}

impl<D: Disk + Drop> Node<D> {
    /// A client writes 4,096 equal bytes at a block of the volume of the path.
    pub fn write(
        &mut self,
        alloc: Global,
        path: &Path,
        block: u64,
        fill: u8,
    ) -> Result<Reply, NodeFault>
        requires up { IsUp self.old }

        ensures acts { Acts D.state (answers.write (world_of self.old) path.now block fill) self.old result self.new }
        ensures spares { self.new.spares ≡ self.old.spares }
    {
        self.told_up();
        match self.named(alloc, path)? {
            Err(refusal) => Ok(Reply::Refused(refusal)),
            Ok(named) => write_at(&mut self.seats, named, saturated(block), fill),
        }
    }
}
