ghost use Rattle.std.specs.Prelude.{◌≡◌, ◌+◌, ◌%◌, ◌↔◌, ◌++◌, ◌∷◌, [], List, map, None, IfOk, IfSome};
ghost use Rattle.std.specs.Option.{option_map};
ghost use Rattle.sm_model.specs.declared.reply.Entry.{Entry};
ghost use Rattle.sm_grammar.specs.declared.command.Command.{Command};
ghost use Rattle.sm_grammar.specs.Asked.{AsksScripted, IsScripted};
ghost use Rattle.sm_grammar.specs.Follows.{AreFor, Follows, done_of};
ghost use Rattle.sm_grammar.specs.Events.{is_last, ended, next_of, Done, AreNext, ArePerformed};

use crate::command::{Command, Task};
use sm_base::{NoMemory, Refusal};
use sm_model::{Event, Reply};
use std::alloc::Global;

/// Whether no step is due any more, or the node is down.
#[tactic(auto, unfolding(crate::specs::Events::is_last))]
fn is_last(reply: &Reply) -> bool
    ensures { result ≡ is_last reply.now }
{
    matches!(
        reply,
        Reply::Idle | Reply::Refused(Refusal::Down { .. } | Refusal::DiskFault { .. })
    )
}

fn ended(last: Option<&Reply>) -> bool
    ensures { result ≡ ended (option_map (λ r. r.now) last.entry) }
{
    match last {
        Some(reply) => is_last(reply),
        None => false,
    }
}

/// The byte of the write behind so many.
fn byte_at(fill: u32, done: u32) -> u8
    ensures { result ≡ (fill + done) % 256 }
{
    ((u64::from(fill) + u64::from(done)) % 256) as u8
}

#[tactic(auto, unfolding(crate::specs::Events::next_of))]
fn next_of(
    alloc: Global,
    task: &Task,
    done: u32,
    last: Option<&Reply>,
) -> Result<Option<Event>, NoMemory>
    ensures { IfOk result (λ event. event ≡ next_of task.now done (option_map (λ r. r.now) last.entry)) }
{
    match task {
        Task::Once(event) if done == 0 => Ok(Some(event.copy(alloc)?)),
        Task::Writes {
            path,
            block,
            count,
            fill,
        } if done < *count => Ok(Some(Event::Write {
            path: path.copy(alloc)?,
            block: u64::from(*block) + u64::from(done),
            fill: byte_at(*fill, done),
        })),
        Task::Steps(count) if done < *count && !ended(last) => {
            Ok(Some(Event::Work { shown: true }))
        }
        Task::Settle if !ended(last) => Ok(Some(Event::Work { shown: false })),
        _ => Ok(None),
    }
}

impl Command {
    /// The event behind so many of this command, of which the last was answered so.
    pub fn next(
        &self,
        alloc: Global,
        done: u32,
        last: Option<&Reply>,
    ) -> Result<Option<Event>, NoMemory>
        ensures next { IfOk result (λ event. event ≡ next_of self.now.task done (option_map (λ r. r.now) last.entry)) }
        ensures asked { AsksScripted self.now.task → IfOk result (λ event. IfSome event IsScripted) }

        // The events that come next one by one, up to where there is none, are those of the command.
        ensures law { (all : List Done) → AreNext self.now.task 0 None all ↔ ArePerformed self.now.task all }
        // A history that follows some commands, and behind it these events, follows this command too.
        ensures follows { (commands : List Command) (before own : List Entry) → Follows commands before → AreFor self.now.line own →
            AreNext self.now.task 0 None (map done_of own) → Follows (commands ++ (self.now ∷ [])) (before ++ own) }
    {
        next_of(alloc, &self.task, done, last)
    }
}
