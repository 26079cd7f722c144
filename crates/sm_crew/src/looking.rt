// One event of a report.
ghost use Rattle.std.specs.Prelude.{◌≡◌, [], ◌∷◌, IfOk, IfErr};
ghost use Rattle.std.specs.Option.{option_map};
ghost use Rattle.sm_base.specs.declared.numbers.DiskNo.{DiskNo as DiskNumber};
ghost use Rattle.sm_model.specs.LegalRun.{IsAsked};
ghost use Rattle.sm_report.specs.Transcript.{down_disk};
ghost use Rattle.sm_crew.specs.Reporting.{IsLook, IsSeen, Reports, Stops, counted};

use crate::step::act_for;
use crate::stop::Stop;
use sm_base::{DiskNo, Refusal};
use sm_core::Catalogue;
use sm_disk::Disk;
use sm_model::{Event, Line, Reply};
use std::alloc::Global;

// The disk since whose failure the node is down, where the reply says that it is.
#[tactic(auto, unfolding(sm_report::specs::Transcript::down_disk))]
fn disk_of(reply: &Reply) -> Option<DiskNo>
    ensures { option_map (λ (disk : DiskNumber). disk.0) result ≡ down_disk reply.now }
{
    match reply {
        Reply::Refused(Refusal::Down { disk }) => Some(*disk),
        Reply::Refused(Refusal::DiskFault { disk, .. }) => Some(*disk),
        _ => None,
    }
}

/// How many volumes or snapshots a reply tells of: of a node, or of a volume.
#[tactic(auto, unfolding(crate::specs::Reporting::counted))]
pub fn count_in(reply: &Reply) -> u32
    ensures { result ≡ counted reply.now }
{
    match reply {
        Reply::Line {
            line: Line::Head { volumes, .. },
        } => *volumes,
        Reply::Line {
            line: Line::Volume { snapshots, .. },
        } => *snapshots,
        _ => 0,
    }
}

/// Does one event of a report.
pub fn look<D: Disk + Drop>(
    alloc: Global,
    catalogue: &mut Catalogue<D>,
    event: Event,
) -> Result<Reply, Stop>
    requires look { IsLook event }
    requires asked { IsAsked catalogue.old.world event }

    ensures done { IfOk result (λ reply. Reports D.state catalogue.old (event ∷ []) catalogue.new) }
    ensures seen { IfOk result (λ reply. IsSeen catalogue.old.world event reply) }
    ensures stopped { IfErr result (λ stop. Stops D.state catalogue.old (event ∷ []) stop catalogue.new) }
{
    match act_for(alloc, catalogue, 0, event) {
        Ok(reply) => match disk_of(&reply) {
            Some(disk) => Err(Stop::Down(disk)),
            None => Ok(reply),
        },
        Err(fault) => Err(Stop::Fault(fault)),
    }
}
