ghost use Rattle.std.specs.Prelude.{◌≡◌, ◌==◌};
ghost use Rattle.std.specs.List.{list_all};
ghost use Rattle.sm_grammar.specs.Fault.{Answers};
ghost use Rattle.sm_grammar.specs.Grammar.{begins_with_hash, is_line_byte, is_skipped, is_below, too_few, task_behind, task_in};
ghost use Rattle.sm_grammar.specs.Options.{value_given};
ghost use Rattle.sm_grammar.specs.Words.{words_left};

use crate::command::Task;
use crate::fault::{LineFault, LineKind};
use crate::forms::form_of;
use crate::given::Given;
use crate::limits::LONGEST_LINE;
use crate::options::read_options;
use crate::table::{Form, OptionName};
use crate::tasks::task_of;
use crate::value::Value;
use crate::words::Words;
use std::alloc::Global;

fn begins_with_hash(line: &[u8]) -> bool
    ensures { result ≡ begins_with_hash line.now }
{
    match line {
        [first, ..] => *first == b'#',
        [] => false,
    }
}

/// Whether a line has no word or is a comment.
#[tactic(auto, unfolding(crate::specs::Grammar::is_skipped))]
pub fn is_skipped(line: &[u8]) -> bool
    ensures { result ≡ is_skipped line.now }
{
    Words::of(line).next().is_none() || begins_with_hash(line)
}

fn is_line_byte(b: u8) -> bool
    ensures { result ≡ is_line_byte b }
{
    b == b'\t' || (32 <= b && b <= 126)
}

fn has_line_bytes(line: &[u8]) -> bool
    ensures { result ≡ list_all is_line_byte line.now }
{
    line.iter().all(|b| is_line_byte(*b))
}

/// Whether fewer physical blocks are given than logical ones.
#[tactic(auto, unfolding(crate::specs::Grammar::too_few))]
fn too_few(given: &Given) -> bool
    ensures { result ≡ too_few given.now }
{
    match (
        given.value(OptionName::Physical),
        given.value(OptionName::Blocks),
    ) {
        (Some(Value::Number(physical)), Some(Value::Number(blocks))) => *physical < *blocks,
        _ => false,
    }
}

/// What a command asks for, by the words behind it.
#[tactic(auto, unfolding(crate::specs::Grammar::task_behind), using(crate::proofs::FaultLemmas::fails))]
fn task_behind(alloc: Global, form: Form, words: Words<'_>) -> Result<Task, LineFault>
    ensures { Answers result (task_behind form (words_left words.entry)) }
{
    let given = read_options(alloc, form, words)?;
    if too_few(&given) {
        return Err(LineFault::Bad(LineKind::BadNumber));
    }
    task_of(alloc, form, &given)
}

/// What a line asks for that is not skipped.
#[tactic(auto, unfolding(crate::specs::Grammar::task_in))]
pub fn task_in(alloc: Global, line: &[u8]) -> Result<Task, LineFault>
    ensures { Answers result (task_in line.now) }
{
    if line.len() > LONGEST_LINE {
        return Err(LineFault::Bad(LineKind::TooLong));
    }
    if !has_line_bytes(line) {
        return Err(LineFault::Bad(LineKind::BadByte));
    }
    match form_of(Words::of(line)) {
        Some((form, words)) => task_behind(alloc, form, words),
        None => Err(LineFault::Bad(LineKind::UnknownCommand)),
    }
}
