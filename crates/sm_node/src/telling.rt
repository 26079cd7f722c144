// Events that tell something of the node and leave it, each answered twice.
ghost use Rattle.std.specs.Prelude.{◌≡◌, Some, IfOk};
ghost use Rattle.sm_model.specs.OfVolumes as volumes;
ghost use Rattle.sm_model.specs.Telling.{told_by};
ghost use Rattle.sm_node.specs.Nodes.{IsUp, world_of};
ghost use Rattle.sm_node.specs.Acts.{Acts};
ghost use Rattle.sm_node.specs.Served.{IsCopied, IsSparedOrBytes, first_of};

use crate::acting::twice;
use crate::fault::NodeFault;
use crate::node::Node;
use crate::reading::room_for_block;
use sm_base::{Block, NoMemory, Path, SnapName};
use sm_disk::Disk;
use sm_model::Reply;
use std::alloc::Global;

/// The reply of an event that called no device, with a copy.
pub fn copied(alloc: Global, made: Result<Reply, NodeFault>) -> Result<(Reply, Reply), NodeFault>
    ensures first { IsCopied made result }
    ensures twice { IfOk result (λ replies. told_by replies.1 ≡ told_by replies.0) }
{
    match made {
        Ok(reply) => match reply.copy(alloc) {
            Ok(copy) => Ok((reply, copy)),
            Err(NoMemory) => Err(NodeFault::NoMemory),
        },
        Err(fault) => Err(fault),
    }
}

// An equal name, or none.
fn copy_name(alloc: Global, name: &Option<SnapName>) -> Result<Option<SnapName>, NoMemory>
    ensures { IfOk result (λ copy. copy ≡ name.now) }
{
    match name {
        None => Ok(None),
        Some(name) => Ok(Some(name.copy(alloc)?)),
    }
}

// A block that was read, and its bytes in the other box; or a refusal twice.
#[tactic(auto, unfolding(sm_model::specs::Telling::told_by))]
fn read_twice(
    reply: Reply,
    path: Path,
    name: Option<SnapName>,
    mut room: Box<Block>,
) -> (Reply, Reply)
    requires { IsSparedOrBytes (Some path) name reply }
    ensures first { result.0 ≡ reply }
    ensures same { told_by result.1 ≡ told_by result.0 }
{
    match reply {
        Reply::Bytes { block } => {
            room.0 = block.0;
            (Reply::Bytes { block }, Reply::Bytes { block: room })
        }
        reply => twice(reply, Some(path), name),
    }
}

impl<D: Disk + Drop> Node<D> {
    /// Reads a block, as [`Node::read`], for two replies. Both boxes are taken before the disk is called.
    pub fn read_event(
        &mut self,
        alloc: Global,
        path: &Path,
        name: &Option<SnapName>,
        place: u32,
    ) -> Result<(Reply, Reply), NodeFault>
        requires up { IsUp self.old }

        ensures acts { Acts D.state (volumes.read (world_of self.old) path.now name.now place) self.old (first_of result) self.new }
        ensures twice { IfOk result (λ replies. told_by replies.1 ≡ told_by replies.0) }
    {
        self.told_up();
        let spare = path.copy(alloc)?;
        let spare_name = copy_name(alloc, name)?;
        let room = room_for_block(alloc)?;
        match self.read(alloc, path, name, place) {
            Ok(reply) => Ok(read_twice(reply, spare, spare_name, room)),
            Err(fault) => Err(fault),
        }
    }
}
