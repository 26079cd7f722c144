// What a call of a volume is answered as an event.
ghost use Rattle.std.specs.Prelude.{◌≡◌};
ghost use Rattle.sm_node.specs.Moves.{fault_answer};

use crate::fault::NodeFault;
use sm_base::{DiskNo, Refusal};
use sm_model::Reply;
use sm_volume::VolumeFault;

/// What a fault of a volume is answered, of the disk of this number, which has failed so often.
#[tactic(auto, unfolding(crate::specs::Moves::fault_answer))]
pub fn answer_of(fault: VolumeFault, disk: DiskNo, faults: u64) -> Result<Reply, NodeFault>
    ensures { result ≡ fault_answer disk faults fault }
{
    match fault {
        VolumeFault::ReadOnly => Ok(Reply::Refused(Refusal::ReadOnly)),
        VolumeFault::BadBlock => Ok(Reply::Refused(Refusal::BadBlock)),
        VolumeFault::NoSpace => Ok(Reply::Refused(Refusal::NoSpace)),
        VolumeFault::NameTaken => Ok(Reply::Refused(Refusal::NameTaken)),
        VolumeFault::SnapFull => Ok(Reply::Refused(Refusal::SnapFull)),
        VolumeFault::DiskFault => Err(NodeFault::Down { disk, faults }),
        _ => Err(NodeFault::NoMemory),
    }
}
