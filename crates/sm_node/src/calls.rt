// Calls of one of the volumes.
ghost use Rattle.std.specs.Prelude.{◌<◌, length, replicate};
ghost use Rattle.sm_defs.specs.Operations.{settled};
ghost use Rattle.sm_model.specs.declared.reply.Reply.TheVariants as replies;
ghost use Rattle.sm_volume.specs.Refusals.{cp_refusal};
ghost use Rattle.sm_node.specs.Seats.{AllUp};
ghost use Rattle.sm_node.specs.Moves.{MovesOne, IsCommitCall, IsWriteCall};

use crate::answering::answer_of;
use crate::fault::NodeFault;
use crate::named::Named;
use crate::seat::Seat;
use sm_base::Block;
use sm_disk::Disk;
use sm_model::Reply;
use std::alloc::Global;

/// A consistency point of a volume.
pub fn cp_at<D: Disk>(
    alloc: Global,
    seats: &mut [Seat<D>],
    named: Named,
) -> Result<Reply, NodeFault>
    requires place { named.at < length seats.old }
    requires up { AllUp seats.old }
    ensures { MovesOne D.state named.at (IsCommitCall D.state replies.Done named.disk cp_refusal settled result) seats.old seats.new }
{
    let seat = &mut seats[named.at];
    let done = seat.volume.cp(alloc);
    seat.volume.told();
    match done {
        Ok(()) => Ok(Reply::Done),
        Err(fault) => answer_of(fault, named.disk, seat.volume.faults()),
    }
}

/// A client's write of 4,096 equal bytes on a volume.
pub fn write_at<D: Disk>(
    seats: &mut [Seat<D>],
    named: Named,
    block: u32,
    fill: u8,
) -> Result<Reply, NodeFault>
    requires place { named.at < length seats.old }
    requires up { AllUp seats.old }
    ensures { MovesOne D.state named.at (IsWriteCall D.state named.disk block (replicate 4096 fill) result) seats.old seats.new }
{
    let seat = &mut seats[named.at];
    let done = seat.volume.write(block, &Block([fill; 4096]));
    seat.volume.told();
    match done {
        Ok(()) => Ok(Reply::Done),
        Err(fault) => answer_of(fault, named.disk, seat.volume.faults()),
    }
}
