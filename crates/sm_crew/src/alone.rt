// The commands of a script, while nobody else acts.
ghost use Rattle.std.specs.Prelude.{All};
ghost use Rattle.sm_grammar.specs.Asked.{AsksScripted};
ghost use Rattle.sm_crew.specs.Alone.{RunsOne, RunsAlone};

use crate::step::{act_for, next_event};
use sm_core::Catalogue;
use sm_disk::Disk;
use sm_grammar::Command;
use sm_history::ActFault;
use std::alloc::Global;

// Does the events of a command, each by the replies before it.
#[tactic(auto, using(crate::proofs::Scripted::next_runs))]
fn run_command<D: Disk + Drop>(
    alloc: Global,
    catalogue: &mut Catalogue<D>,
    command: &Command,
) -> Result<(), ActFault>
    requires { AsksScripted command.now.task }

    ensures { RunsOne D.state catalogue.old command.now result catalogue.new }
{
    let mut done = 0u32;
    let mut last = None;
    while let Some(event) = next_event(alloc, command, done, &last)? {
        last = Some(act_for(alloc, catalogue, command.line(), event)?);
        done += 1;
    }
    Ok(())
}

/// Does the commands of a script in their order, one event after another, on a catalogue on which nobody else acts. A
/// fault of a disk is an entry as any other, and the commands behind it are answered that the node is down.
///
/// # Errors
///
/// The entries of the events that were done stand then, and nothing else was done: the catalogue is what these
/// events leave, and the commands behind the one that was cut off are not begun. [`ActFault::HistoryFull`] exactly
/// where a further event is due and there are as many entries as there may be. [`ActFault::NoMemory`] where there is
/// none for an event or its entry. [`ActFault::Unchanged`] never.
pub fn run_alone<D: Disk + Drop>(
    alloc: Global,
    catalogue: &mut Catalogue<D>,
    commands: &[Command],
) -> Result<(), ActFault>
    requires { All (λ c. AsksScripted c.task) commands.now }

    ensures { RunsAlone D.state catalogue.old commands.now result catalogue.new }
{
    for command in commands {
        run_command(alloc, catalogue, command)?;
    }
    Ok(())
}
