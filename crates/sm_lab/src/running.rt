// A run over disks.
ghost use Rattle.std.specs.Prelude.{◌≡◌, ◌≢◌, All};
ghost use Rattle.sm_grammar.specs.Asked.{AsksScripted};
ghost use Rattle.sm_history.specs.declared.fault.ActFault.TheVariants.{Unchanged as NothingChanged};
ghost use Rattle.sm_lab.specs.Running.{cut_status as status_of_cut, open_status as status_of_open, RunsThrough, RunsOrNot};

use crate::outcome::Outcome;
use sm_core::{Catalogue, OpenFault};
use sm_crew::{run_alone, run_report};
use sm_disk::Disk;
use sm_grammar::Command;
use sm_history::ActFault;
use sm_output::Status;
use std::alloc::Global;

// How a run ends that was cut off in front of an event.
fn cut_status(fault: ActFault) -> Status
    ensures { result ≡ status_of_cut fault }
{
    match fault {
        ActFault::HistoryFull => Status::HistoryFull,
        ActFault::NoMemory | ActFault::Unchanged => Status::NoMemory,
    }
}

// How a run ends of a node that was not opened.
fn open_status(fault: OpenFault) -> Status
    ensures { result ≡ status_of_open fault }
{
    match fault {
        OpenFault::Unopened { disk, kind } => Status::Unopened { disk, kind },
        OpenFault::NoMemory => Status::NoMemory,
    }
}

// Does the commands on a catalogue, and asks for its report.
fn run_through<D: Disk + Drop>(
    alloc: Global,
    catalogue: &mut Catalogue<D>,
    commands: &[Command],
) -> Status
    requires { All (λ c. AsksScripted c.task) commands.now }

    ensures { RunsThrough D.state catalogue.old commands.now result catalogue.new }
{
    if let Err(fault) = run_alone(alloc, catalogue, commands) {
        return cut_status(fault);
    }
    match run_report(alloc, catalogue) {
        Ok(None) => Status::Fine,
        Ok(Some(disk)) => Status::DownAtEnd { disk },
        Err(fault) => cut_status(fault),
    }
}

/// Opens the node whose disks these are, does the commands one event after another, asks for the report, and hands the
/// disks back, each in its place.
pub fn run_on<D: Disk + Drop>(alloc: Global, commands: &[Command], disks: Vec<D>) -> Outcome<D>
    requires { All (λ c. AsksScripted c.task) commands.now }

    ensures { RunsOrNot D.state commands.now disks.items result.disks.items result.history.items result.sides.items result.status }
{
    match Catalogue::open(alloc, disks) {
        Ok(mut catalogue) => {
            let status = run_through(alloc, &mut catalogue, commands);
            let (disks, history, sides) = catalogue.into_parts();
            Outcome {
                status,
                disks,
                history: history.into_entries(),
                sides,
            }
        }
        Err((disks, fault)) => Outcome {
            status: open_status(fault),
            disks,
            history: Vec::new(alloc),
            sides: Vec::new(alloc),
        },
    }
}
