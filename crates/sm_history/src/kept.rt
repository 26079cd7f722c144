// A value that keeps the history of its events.
ghost use Rattle.std.specs.Prelude.{ℕ, List, [], Option, IfOk, OnErr};
ghost use Rattle.sm_model.specs.declared.event.Event.{Event};
ghost use Rattle.sm_model.specs.declared.reply.Entry.{Entry};
ghost use Rattle.sm_history.specs.declared.fault.ActFault.{ActFault};
ghost use Rattle.sm_history.specs.Acts.{IsDone, IsUndone, Faults};

use crate::fault::ActFault;
use sm_model::{Event, Reply};

/// A value that does events and keeps an entry of each. It has no supertrait `Send`: with one, a method of
/// an impl over a disk that is a type parameter gets no proof today. Who moves such a value to a thread
/// asks for `Kept + Send`.
pub trait Kept {
    /// The entries that were made, oldest first.
    ghost history: { Self → List Entry };

    /// The second value comes from the first by these entries.
    ghost comes: { Self → List Entry → Self → Type 0 };

    /// The events that may be asked of it.
    ghost may_do: { Event → Type 0 };

    /// The fault that an event of an actor is answered after these entries, but for want of memory.
    ghost fault: { List Entry → ℕ → Event → Option ActFault };

    /// Does one event for an actor and a line of a script, from 1, or 0 for none. Ok makes one entry, whose
    /// reply tells what is answered; a fault makes none.
    fn act(&mut self, actor: u32, line: u32, event: Event) -> Result<Reply, ActFault>
        requires { may_do event }
        ensures done { IfOk result (λ reply. IsDone history comes self.old self.new actor line event reply) }
        ensures undone { OnErr result (IsUndone history comes self.old self.new) }
        ensures faults { Faults (fault (history self.old) actor event) result };

    /// A value comes from itself by no entry.
    ghost itself: { (value : Self) → comes value [] value };
}
