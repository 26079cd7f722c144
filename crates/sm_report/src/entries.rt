ghost use Rattle.std.specs.Prelude.{◌≡◌, IfOk, string_bytes};
ghost use Rattle.std.specs.Option.{option_map};
ghost use Rattle.sm_report.specs.Transcript.{entry_text, down_disk as disk_of_down, report_text, is_of_a_disk, ends_settling, shown_text, line_of_text};

use crate::refusal_text::text_of_refusal;
use crate::reply_text::text_of_reply;
use sm_base::{NoMemory, Refusal};
use sm_model::{Entry, Event, Reply};
use std::alloc::Global;

/// The disk since whose failure the node is down, where the reply says that it is.
#[tactic(auto, unfolding(crate::specs::Transcript::down_disk))]
fn down_disk(reply: &Reply) -> Option<u32>
    ensures { result ≡ disk_of_down reply.now }
{
    match reply {
        Reply::Refused(Refusal::Down { disk }) => Some(disk.0),
        Reply::Refused(Refusal::DiskFault { disk, .. }) => Some(disk.0),
        _ => None,
    }
}

/// What a report's event prints.
fn text_of_report(alloc: Global, reply: &Reply) -> Result<String, NoMemory>
    ensures { IfOk result (λ text. string_bytes text ≡ report_text reply.now) }
{
    match down_disk(reply) {
        None => text_of_reply(alloc, reply),
        Some(disk) => Ok(format!(in alloc; "report down disk={disk}")?),
    }
}

/// Whether a disk failed, now or before.
#[tactic(auto, unfolding(crate::specs::Transcript::is_of_a_disk))]
fn is_of_a_disk(refusal: &Refusal) -> bool
    ensures { result ≡ is_of_a_disk refusal.now }
{
    match refusal {
        Refusal::Down { .. } => true,
        Refusal::DiskFault { .. } => true,
        _ => false,
    }
}

/// What is printed of steps that are not shown: the one that ends them.
#[tactic(auto, unfolding(crate::specs::Transcript::ends_settling))]
fn end_of_settling(alloc: Global, reply: &Reply) -> Result<Option<String>, NoMemory>
    ensures { IfOk result (λ text. option_map string_bytes text ≡ ends_settling reply.now) }
{
    match reply {
        Reply::Idle => Ok(Some(String::from_str(alloc, "settled")?)),
        Reply::Refused(refusal) => {
            if is_of_a_disk(refusal) {
                Ok(Some(text_of_refusal(alloc, refusal)?))
            } else {
                Ok(None)
            }
        }
        _ => Ok(None),
    }
}

/// What is printed of an entry, if anything, without its line's number and its line end.
#[tactic(auto, unfolding(crate::specs::Transcript::shown_text))]
fn text_shown(alloc: Global, entry: &Entry) -> Result<Option<String>, NoMemory>
    ensures { IfOk result (λ text. option_map string_bytes text ≡ shown_text entry.now.event entry.now.reply) }
{
    match &entry.event {
        Event::Work { shown: false } => end_of_settling(alloc, &entry.reply),
        Event::Head => Ok(Some(text_of_report(alloc, &entry.reply)?)),
        Event::VolumeLine { .. } => Ok(Some(text_of_report(alloc, &entry.reply)?)),
        Event::Digest { .. } => Ok(Some(text_of_report(alloc, &entry.reply)?)),
        Event::RelationLine { .. } => Ok(Some(text_of_report(alloc, &entry.reply)?)),
        _ => Ok(Some(text_of_reply(alloc, &entry.reply)?)),
    }
}

/// A text with its line's number and its line end.
fn numbered_text(alloc: Global, line: u32, text: &Option<String>) -> Result<String, NoMemory>
    ensures { IfOk result (λ whole. string_bytes whole ≡ line_of_text line (option_map string_bytes text.now)) }
{
    match text {
        None => Ok(String::new(alloc)),
        Some(text) => {
            if line == 0 {
                Ok(format!(in alloc; "{text}\n")?)
            } else {
                Ok(format!(in alloc; "{line}: {text}\n")?)
            }
        }
    }
}

/// What is printed for an entry, with its line end: an answer to a line of the script begins with the line's
/// number, and of steps that are not shown only what ends them is printed.
pub fn entry_text(alloc: Global, entry: &Entry) -> Result<String, NoMemory>
    ensures { IfOk result (λ text. string_bytes text ≡ entry_text entry.now) }
{
    let shown = text_shown(alloc, entry)?;
    numbered_text(alloc, entry.line, &shown)
}
