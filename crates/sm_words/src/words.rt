ghost use Rattle.std.specs.Prelude.{◌≡◌, IfOk, map, option_map, string_bytes};
ghost use Rattle.clap.specs.Words.{first_of, found_of, one_of, rows_of};
ghost use Rattle.sm_words.specs.Words.{flag_of, mode_named, number_of, options_of, options_from};

use crate::command::lab_command;
use crate::options::{Mode, Options};
use clap::ArgMatches;
use clap::error::ErrorKind;
use sm_base::NoMemory;
use std::alloc::Global;

/// The mode that has this name.
fn mode_named(name: &str) -> Option<Mode>
    ensures { result ≡ mode_named name.now }
{
    match name {
        "run" => Some(Mode::Run),
        "report" => Some(Mode::Report),
        _ => None,
    }
}

/// The options that the command's matches give, or `None` where no mode has the name.
fn options_from(matches: &ArgMatches) -> Option<Options>
    ensures { result ≡ options_from (rows_of (found_of matches.now)) }
{
    Some(Options {
        mode: mode_named(matches.get_str("mode")?)?,
        workers: matches.get_one("workers").unwrap_or(0),
        number: matches.get_one("number").unwrap_or(0),
        history: matches.get_one("history").unwrap_or(false),
    })
}

/// The options that the words give, of which the first is the program's name. `None` says that they
/// are no line of the command: an argument that it lacks, a second mode or the name of none, an
/// option given twice or with a value that it does not take, or a call for help. `Err` says that
/// memory ran out.
pub fn read_words(alloc: Global, words: &[String]) -> Result<Option<Options>, NoMemory>
    ensures { IfOk result (λ options. options ≡ options_of (map (λ w. string_bytes w) words.now)) }
{
    let command = lab_command(alloc)?;
    match command.try_get_matches_from(words) {
        Ok(matches) => Ok(options_from(&matches)),
        Err(error) => match error.kind() {
            ErrorKind::OutOfMemory => Err(NoMemory),
            _ => Ok(None),
        },
    }
}
