// One event of a command.
ghost use Rattle.std.specs.Prelude.{◌≡◌, [], ◌∷◌, IfOk, OnErr};
ghost use Rattle.sm_grammar.specs.Events.{next_of};
ghost use Rattle.sm_history.specs.declared.fault.ActFault.TheVariants.{NoMemory as OutOfMemory};
ghost use Rattle.sm_model.specs.LegalRun.{IsAsked};
ghost use Rattle.sm_core.specs.Doing.{IsServedIn};
ghost use Rattle.sm_core.specs.Faults.{Faults, act_fault};
ghost use Rattle.sm_crew.specs.Coming.{MakesOne};

use sm_base::NoMemory;
use sm_core::Catalogue;
use sm_disk::Disk;
use sm_grammar::Command;
use sm_history::ActFault;
use sm_model::{Event, Reply};
use std::alloc::Global;

/// The event of a command behind so many, of which the last was answered so; none where these are all.
pub fn next_event(
    alloc: Global,
    command: &Command,
    done: u32,
    last: &Option<Reply>,
) -> Result<Option<Event>, ActFault>
    ensures next { IfOk result (λ event. event ≡ next_of command.now.task done last.now) }
    ensures memory { OnErr result (result ≡ Err OutOfMemory) }
{
    match command.next(alloc, done, last.as_ref()) {
        Ok(event) => Ok(event),
        Err(NoMemory) => Err(ActFault::NoMemory),
    }
}

/// Does an event of the script's actor, for a line of the script or, with 0, for the report.
pub fn act_for<D: Disk + Drop>(
    alloc: Global,
    catalogue: &mut Catalogue<D>,
    line: u32,
    event: Event,
) -> Result<Reply, ActFault>
    requires asked { IsAsked catalogue.old.world event }
    requires served { IsServedIn catalogue.old.world event }

    ensures one { IfOk result (λ reply. MakesOne D.state catalogue.old line event reply catalogue.new) }
    ensures same { OnErr result (catalogue.new ≡ catalogue.old) }
    ensures faults { Faults (act_fault catalogue.old.history 0 event) result }
{
    let reply = catalogue.act(alloc, 0, line, event);
    catalogue.told();
    reply
}
