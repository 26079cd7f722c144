ghost use Rattle.std.specs.Prelude.{◌≡◌, [], find};
ghost use Rattle.sm_grammar.specs.Fault.{Answers, AnswersBy};
ghost use Rattle.sm_grammar.specs.Options.{has_text, is_flag, option_named, new_option, read_behind, read_option, options};
ghost use Rattle.sm_grammar.specs.Table.{shape_of};
ghost use Rattle.sm_grammar.specs.Words.{words_left};

use crate::fault::{LineFault, LineKind};
use crate::given::{Given, Pair};
use crate::table::{Form, OptionName, Shape};
use crate::value::{Value, read_value};
use crate::words::Words;
use std::alloc::Global;

fn has_text(word: &[u8], option: OptionName) -> bool
    ensures { result ≡ has_text word.now option }
{
    word == option.text()
}

fn option_among(options: &[OptionName], word: &[u8]) -> Option<OptionName>
    ensures { result ≡ find (has_text word.now) options.now }
{
    options
        .iter()
        .copied()
        .find(|option| has_text(word, *option))
}

/// The option of this word.
#[tactic(auto, unfolding(crate::specs::Options::option_named))]
fn option_named(form: Form, word: &[u8]) -> Result<OptionName, LineKind>
    ensures { result ≡ option_named form word.now }
{
    option_among(form.options(), word).ok_or(LineKind::UnknownOption)
}

/// The option of this word, where it did not stand before.
#[tactic(auto, unfolding(crate::specs::Options::new_option))]
fn new_option(form: Form, word: &[u8], given: &Given) -> Result<OptionName, LineKind>
    ensures { result ≡ new_option form word.now given.now }
{
    let option = option_named(form, word)?;
    if given.has(option) {
        return Err(LineKind::RepeatedOption);
    }
    Ok(option)
}

fn is_flag(shape: Shape) -> bool
    ensures { result ≡ is_flag shape }
{
    matches!(shape, Shape::Flag)
}

/// The option and its value, and the words behind them.
fn read_behind<'a>(
    alloc: Global,
    option: OptionName,
    words: Words<'a>,
) -> Result<(Pair, Words<'a>), LineFault>
    ensures { AnswersBy (λ r. (r.0, words_left r.1)) result (read_behind option (words_left words.entry) (is_flag (shape_of option))) }
{
    let shape = option.shape();
    if is_flag(shape) {
        return Ok((
            Pair {
                option,
                value: Value::Flag,
            },
            words,
        ));
    }
    let Some((text, rest)) = words.next() else {
        return Err(LineFault::Bad(LineKind::MissingValue));
    };
    let value = read_value(alloc, shape, text)?;
    Ok((Pair { option, value }, rest))
}

/// The option of a word and its value, and the words behind them.
fn read_option<'a>(
    alloc: Global,
    form: Form,
    word: &[u8],
    words: Words<'a>,
    given: &Given,
) -> Result<(Pair, Words<'a>), LineFault>
    ensures { AnswersBy (λ r. (r.0, words_left r.1)) result (read_option form word.now (words_left words.entry) given.now) }
{
    let option = new_option(form, word, given)?;
    read_behind(alloc, option, words)
}

/// The options of a line, from the words behind its command.
pub fn read_options(alloc: Global, form: Form, words: Words<'_>) -> Result<Given, LineFault>
    ensures { Answers result (options form (words_left words.entry) []) }
{
    let mut given = Given::new(alloc);
    let mut words = words;
    while let Some((word, rest)) = words.next() {
        match read_option(alloc, form, word, rest, &given) {
            Ok((pair, rest)) => {
                given.push(pair)?;
                words = rest;
            }
            Err(fault) => return Err(fault),
        }
    }
    Ok(given)
}
