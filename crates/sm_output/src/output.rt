ghost use Rattle.std.specs.Prelude.{◌≡◌, ◌++◌, [], IfOk, OnOk, OnErr, string_bytes};
ghost use Rattle.sm_output.specs.Output.{body, bad_text, unopened_text, last_line as line_at_end, closing as line_closing, IsFront, IsOutput, EndsBy};

use crate::entries::{add_entries, add_told};
use crate::status::Status;
use crate::words::{line_word, open_word};
use sm_base::{DiskNo, NoMemory};
use sm_grammar::LineKind;
use sm_model::{Entry, OpenKind};
use std::alloc::Global;

fn bad_line(alloc: Global, line: u32, kind: LineKind) -> Result<String, NoMemory>
    ensures { IfOk result (λ text. string_bytes text ≡ bad_text line kind) }
{
    let word = line_word(kind);
    Ok(format!(in alloc; "bad line {line} {word}\n")?)
}

fn unopened(alloc: Global, disk: DiskNo, kind: OpenKind) -> Result<String, NoMemory>
    ensures { IfOk result (λ text. string_bytes text ≡ unopened_text disk kind) }
{
    let word = open_word(kind);
    let number = disk.0;
    Ok(format!(in alloc; "unopened disk={number} kind={word}\n")?)
}

/// What is written before a last line that takes no memory. An `Err` leaves the texts of some first entries.
fn add_front(
    alloc: Global,
    listed: bool,
    status: Status,
    history: &[Entry],
    text: &mut Vec<u8>,
) -> Result<(), NoMemory>
    requires { text.old.items ≡ [] }
    ensures ok { OnOk result (text.new.items ++ line_closing status ≡ body listed status history.now ++ line_at_end status) }
    ensures front { OnErr result (IsFront history.now text.new.items) }
{
    match status {
        Status::Fine | Status::DownAtEnd { .. } => add_told(alloc, listed, history, text),
        Status::HistoryFull | Status::NoMemory => add_entries(alloc, history, text),
        Status::BadLine { line, kind } => {
            let words = bad_line(alloc, line, kind)?;
            text.extend_from_slice(words.as_bytes())?;
            Ok(())
        }
        Status::Unopened { disk, kind } => {
            let words = unopened(alloc, disk, kind)?;
            text.extend_from_slice(words.as_bytes())?;
            Ok(())
        }
        _ => Ok(()),
    }
}

/// The last line where it takes no memory, and nothing else.
pub fn closing(status: Status) -> &'static [u8]
    ensures { result.now ≡ line_closing status }
{
    match status {
        Status::Usage => {
            b"usage: lab run|check|report|generate [--workers N] [--number N] [--history]\n"
        }
        Status::ScriptTooLong => b"script too long\n",
        Status::ReadFault => b"read fault\n",
        Status::NoMemory => b"no memory\n",
        Status::HistoryFull => b"history full\n",
        _ => b"",
    }
}

/// Makes what a call that ends so writes but for the last line, and answers how it ends then.
#[tactic(auto, using(crate::proofs::Outputs::whole_output, crate::proofs::Outputs::front_output))]
pub fn prepare(
    alloc: Global,
    listed: bool,
    status: Status,
    history: &[Entry],
    text: &mut Vec<u8>,
) -> Status
    requires { text.old.items ≡ [] }
    ensures ends { EndsBy status result }
    ensures output { IsOutput listed result history.now (text.new.items ++ line_closing result) }
{
    match add_front(alloc, listed, status, history, text) {
        Ok(()) => status,
        Err(NoMemory) => Status::NoMemory,
    }
}
