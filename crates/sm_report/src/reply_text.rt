ghost use Rattle.std.specs.Prelude.{◌≡◌, IfOk, string_bytes, ◌==◌};
ghost use Rattle.std.specs.List.{list_all};
ghost use Rattle.sm_report.specs.Text.{reply_text, bytes_text, same_byte, table_lines, table_text, dropped_text, reason_text, ended_text, settled_text};

use crate::line_text::{text_of_line, word_of_reason};
use crate::refusal_text::text_of_refusal;
use sha2::{Digest, Sha256};
use sm_base::{Ident, NoMemory, Reason, RelNo};
use sm_model::{Line, Reply};
use std::alloc::Global;

fn all_are(byte: u8, bytes: &[u8]) -> bool
    ensures { result ≡ list_all (λ b. b == byte) bytes.now }
{
    bytes.iter().all(|b| *b == byte)
}

/// The byte that all bytes are, if there is one.
fn same_byte(bytes: &[u8]) -> Option<u8>
    ensures { result ≡ same_byte bytes.now }
{
    match bytes {
        [first, more @ ..] => {
            if all_are(*first, more) {
                Some(*first)
            } else {
                None
            }
        }
        [] => None,
    }
}

/// The text of a block's bytes.
fn text_of_bytes(alloc: Global, bytes: &[u8]) -> Result<String, NoMemory>
    ensures { IfOk result (λ text. string_bytes text ≡ bytes_text bytes.now) }
{
    match same_byte(bytes) {
        Some(fill) => Ok(format!(in alloc; "ok fill={fill}")?),
        None => {
            let digits = hex::encode(alloc, Sha256::digest(bytes))?;
            Ok(format!(in alloc; "ok sha256={digits}")?)
        }
    }
}

/// A table's lines, each behind a line end and two spaces.
fn lines_of_table(alloc: Global, lines: &[Line]) -> Result<String, NoMemory>
    ensures { IfOk result (λ text. string_bytes text ≡ table_lines lines.now) }
{
    match lines {
        [] => Ok(String::new(alloc)),
        [line, others @ ..] => {
            let first = text_of_line(alloc, line)?;
            let more = lines_of_table(alloc, others)?;
            Ok(format!(in alloc; "\n  {first}{more}")?)
        }
    }
}

fn text_of_table(alloc: Global, lines: &[Line]) -> Result<String, NoMemory>
    ensures { IfOk result (λ text. string_bytes text ≡ table_text lines.now) }
{
    let count = lines.len();
    let more = lines_of_table(alloc, lines)?;
    Ok(format!(in alloc; "ok lines={count}{more}")?)
}

/// What a step says that lets snapshots go.
fn text_of_dropped(alloc: Global, relation: RelNo, dropped: u32) -> Result<String, NoMemory>
    ensures { IfOk result (λ text. string_bytes text ≡ dropped_text relation dropped) }
{
    let number = relation.0;
    Ok(format!(in alloc; " relationship={number} dropped={dropped}")?)
}

/// Why a transfer cannot go on, with the reason's fields.
fn text_of_reason(alloc: Global, reason: Reason) -> Result<String, NoMemory>
    ensures { IfOk result (λ text. string_bytes text ≡ reason_text reason) }
{
    match reason {
        Reason::HeldDownstream { ident, relation } => {
            let by = relation.0;
            Ok(format!(in alloc; "HeldDownstream id={ident} by={by}")?)
        }
        Reason::NoSpace { need, free } => Ok(format!(in alloc; "NoSpace need={need} free={free}")?),
        Reason::SourceReadOnly => Ok(String::from_str(alloc, word_of_reason(reason))?),
        Reason::SnapFull => Ok(String::from_str(alloc, word_of_reason(reason))?),
        Reason::OtherLayout => Ok(String::from_str(alloc, word_of_reason(reason))?),
        Reason::Aborted => Ok(String::from_str(alloc, word_of_reason(reason))?),
        Reason::Restart => Ok(String::from_str(alloc, word_of_reason(reason))?),
    }
}

fn word_of_end(ended: bool) -> &'static str
    ensures { result.now ≡ ended_text ended }
{
    if ended { " ended" } else { "" }
}

fn text_of_settled(
    alloc: Global,
    relation: RelNo,
    base: Ident,
    ended: bool,
) -> Result<String, NoMemory>
    ensures { IfOk result (λ text. string_bytes text ≡ settled_text relation base ended) }
{
    let number = relation.0;
    let end = word_of_end(ended);
    Ok(format!(in alloc; "settle relationship={number} base={base}{end}")?)
}

/// A reply's text, without its line end.
#[tactic(auto, unfolding(crate::specs::Text::reply_text))]
pub fn text_of_reply(alloc: Global, reply: &Reply) -> Result<String, NoMemory>
    ensures { IfOk result (λ text. string_bytes text ≡ reply_text reply.now) }
{
    match reply {
        Reply::Done => Ok(String::from_str(alloc, "ok")?),
        Reply::Created { volume } => {
            let number = volume.0;
            Ok(format!(in alloc; "ok volume={number}")?)
        }
        Reply::Snapped { ident } => Ok(format!(in alloc; "ok id={ident}")?),
        Reply::Related { relation } => {
            let number = relation.0;
            Ok(format!(in alloc; "ok relationship={number}")?)
        }
        Reply::Started { transfer, legs } => {
            Ok(format!(in alloc; "ok transfer={transfer} legs={legs}")?)
        }
        Reply::Resumed {
            transfer,
            checkpoint,
        } => Ok(format!(in alloc; "ok transfer={transfer} resumed={checkpoint}")?),
        Reply::Nothing => Ok(String::from_str(alloc, "ok nothing to transfer")?),
        Reply::Kept { checkpoint } => Ok(format!(in alloc; "ok checkpoint={checkpoint}")?),
        Reply::Ended => Ok(String::from_str(alloc, "ok ended")?),
        Reply::Resyncing {
            transfer,
            common,
            legs,
        } => Ok(format!(in alloc; "ok transfer={transfer} common={common} legs={legs}")?),
        Reply::Bytes { block } => text_of_bytes(alloc, &block.0),
        Reply::Line { line } => text_of_line(alloc, line),
        Reply::Table { lines } => text_of_table(alloc, &lines.lines),
        Reply::Reverted { relation, dropped } => {
            let went = text_of_dropped(alloc, *relation, *dropped)?;
            Ok(format!(in alloc; "revert{went}")?)
        }
        Reply::Prepared { relation, ident } => {
            let number = relation.0;
            Ok(format!(in alloc; "prepare relationship={number} id={ident}")?)
        }
        Reply::Pruned { relation, dropped } => {
            let went = text_of_dropped(alloc, *relation, *dropped)?;
            Ok(format!(in alloc; "prune{went}")?)
        }
        Reply::Shipped {
            relation,
            index,
            cost,
        } => {
            let number = relation.0;
            Ok(format!(in alloc; "ship relationship={number} index={index} cost={cost}")?)
        }
        Reply::Checked { relation, prefix } => {
            let number = relation.0;
            Ok(format!(in alloc; "checkpoint relationship={number} prefix={prefix}")?)
        }
        Reply::Published {
            relation,
            ident,
            dropped,
        } => {
            let number = relation.0;
            Ok(format!(in alloc; "publish relationship={number} id={ident} dropped={dropped}")?)
        }
        Reply::Settled {
            relation,
            base,
            ended,
        } => text_of_settled(alloc, *relation, *base, *ended),
        Reply::Tidied { volume, dropped } => {
            let number = volume.0;
            Ok(format!(in alloc; "tidy volume={number} dropped={dropped}")?)
        }
        Reply::Interrupted { relation, reason } => {
            let number = relation.0;
            let why = text_of_reason(alloc, *reason)?;
            Ok(format!(in alloc; "interrupted relationship={number} reason={why}")?)
        }
        Reply::Idle => Ok(String::from_str(alloc, "idle")?),
        Reply::Refused(refusal) => text_of_refusal(alloc, refusal),
    }
}
