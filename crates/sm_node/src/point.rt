// A consistency point of a volume.
ghost use Rattle.std.specs.Prelude.{◌≡◌};
ghost use Rattle.sm_model.specs.OfVolumes as answers;
ghost use Rattle.sm_node.specs.Nodes.{world_of, IsUp};
ghost use Rattle.sm_node.specs.Acts.{Acts};

use crate::calls::cp_at;
use crate::fault::NodeFault;
use crate::node::Node;
use sm_base::Path;
use sm_disk::Disk;
use sm_model::Reply;
use std::alloc::Global;

impl<D: Disk + Drop> Node<D> {
    /// A consistency point of the volume of the path.
    pub fn cp(&mut self, alloc: Global, path: &Path) -> Result<Reply, NodeFault>
        requires up { IsUp self.old }

        ensures acts { Acts D.state (answers.cp (world_of self.old) path.now) self.old result self.new }
        ensures spares { self.new.spares ≡ self.old.spares }
    {
        self.told_up();
        match self.named(alloc, path)? {
            Err(refusal) => Ok(Reply::Refused(refusal)),
            Ok(named) => cp_at(alloc, &mut self.seats, named),
        }
    }
}
