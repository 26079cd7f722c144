ghost use Rattle.std.specs.Prelude.{◌≡◌, ◌++◌, ◌==◌, [], IfOk, OnOk, OnErr, position, flat_map, take};
ghost use Rattle.sm_report.specs.Transcript.{printed_text, transcript};
ghost use Rattle.sm_output.specs.Listing.{first_line as line_at_front, listed_text, listing};
ghost use Rattle.sm_output.specs.Output.{IsFront, told};

use crate::words::event_words;
use sm_base::NoMemory;
use sm_model::Entry;
use sm_report::{entry_text, text_of_reply};
use std::alloc::Global;

/// Adds what the transcript has of an entry: its text, and nothing where a worker made it. An `Err` leaves the
/// text.
fn add_entry(alloc: Global, entry: &Entry, text: &mut Vec<u8>) -> Result<(), NoMemory>
    ensures ok { OnOk result (text.new.items ≡ text.old.items ++ printed_text entry.now) }
    ensures err { OnErr result (text.new.items ≡ text.old.items) }
{
    if entry.actor != 0 {
        return Ok(());
    }
    let printed = entry_text(alloc, entry)?;
    text.extend_from_slice(printed.as_bytes())?;
    Ok(())
}

/// The transcript of the entries. An `Err` leaves that of some first entries.
pub fn add_entries(alloc: Global, history: &[Entry], text: &mut Vec<u8>) -> Result<(), NoMemory>
    requires { text.old.items ≡ [] }
    ensures ok { OnOk result (text.new.items ≡ transcript history.now) }
    ensures front { OnErr result (IsFront history.now text.new.items) }
{
    for entry in history {
        add_entry(alloc, entry, text)?;
    }
    Ok(())
}

fn line_end(text: &[u8]) -> Option<usize>
    ensures { result ≡ position (λ b. b == 10) text.now }
{
    text.iter().position(|b| *b == b'\n')
}

fn first_line(text: &[u8]) -> &[u8]
    ensures { result.now ≡ line_at_front text.now }
{
    match line_end(text) {
        Some(at) => &text[..at],
        None => text,
    }
}

/// Adds the line of an entry.
fn add_line(alloc: Global, entry: &Entry, text: &mut Vec<u8>) -> Result<(), NoMemory>
    ensures ok { OnOk result (text.new.items ≡ text.old.items ++ listed_text entry.now) }
{
    let actor = entry.actor;
    let line = entry.line;
    let words = event_words(&entry.event);
    let reply = text_of_reply(alloc, &entry.reply)?;
    let head = format!(in alloc; "entry {actor} {line} {words} ")?;
    text.extend_from_slice(head.as_bytes())?;
    text.extend_from_slice(first_line(reply.as_bytes()))?;
    text.push(b'\n')?;
    Ok(())
}

/// The lines of the entries.
fn lines_of(alloc: Global, history: &[Entry]) -> Result<Vec<u8>, NoMemory>
    ensures { IfOk result (λ lines. lines.items ≡ listing history.now) }
{
    let mut lines = Vec::new(alloc);
    for entry in history {
        add_line(alloc, entry, &mut lines)?;
    }
    Ok(lines)
}

/// The transcript of the entries, and behind it, where they are `listed`, their lines. An `Err` leaves the texts of
/// some first entries.
#[tactic(auto, using(crate::proofs::Outputs::whole_front))]
pub fn add_told(
    alloc: Global,
    listed: bool,
    history: &[Entry],
    text: &mut Vec<u8>,
) -> Result<(), NoMemory>
    requires { text.old.items ≡ [] }
    ensures ok { OnOk result (text.new.items ≡ told listed history.now) }
    ensures front { OnErr result (IsFront history.now text.new.items) }
{
    add_entries(alloc, history, text)?;
    if listed {
        let lines = lines_of(alloc, history)?;
        text.extend_from_slice(&lines)?;
    }
    Ok(())
}
