// Whether a worker asks in vain.
ghost use Rattle.std.specs.Prelude.{◌≡◌};
ghost use Rattle.sm_core.specs.Faults.{is_work, is_idle, is_idle_since, is_unchanged};

use sm_base::Refusal;
use sm_model::{Entry, Event, Reply};

fn is_work(event: &Event) -> bool
    ensures { result ≡ is_work event.now }
{
    matches!(event, Event::Work { .. })
}

fn is_idle(reply: &Reply) -> bool
    ensures { result ≡ is_idle reply.now }
{
    match reply {
        Reply::Idle => true,
        Reply::Refused(Refusal::Down { .. }) => true,
        _ => false,
    }
}

// Whether one of the newest entries, up to the first that did something, is the actor's.
fn is_idle_since(entries: &[Entry], actor: u32) -> bool
    ensures { result ≡ is_idle_since entries.now actor }
{
    entries
        .iter()
        .rev()
        .take_while(|entry| is_idle(&entry.reply))
        .any(|entry| entry.actor == actor)
}

/// Whether a worker asks again, though nothing was done since its last answer.
pub fn is_unchanged(entries: &[Entry], actor: u32, event: &Event) -> bool
    ensures { result ≡ is_unchanged entries.now actor event.now }
{
    is_work(event) && actor > 0 && is_idle_since(entries, actor)
}
