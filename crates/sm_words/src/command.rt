ghost use Rattle.std.specs.Prelude.{◌≡◌, IfOk, false};
ghost use Rattle.clap.specs.Words.{app_of, rule_of};
ghost use Rattle.sm_words.specs.Command.{lab_command, mode_rule, workers_rule, number_rule, history_rule};

use clap::builder::ValueParser;
use clap::{Arg, ArgAction, Command};
use std::alloc::{AllocError, Global};

/// The most workers that a line may ask for.
const MOST_WORKERS: u64 = 8;

fn mode_arg<'a>(alloc: Global) -> Arg<'a>
    ensures rule { rule_of result ≡ mode_rule }
    ensures local { result.global ≡ false }
{
    Arg::new(alloc, "mode").default_value("run")
}

fn workers_arg<'a>(alloc: Global) -> Arg<'a>
    ensures rule { rule_of result ≡ workers_rule }
    ensures local { result.global ≡ false }
{
    Arg::new(alloc, "workers")
        .long("workers")
        .value_parser(ValueParser::unsigned(0, MOST_WORKERS))
        .default_value("0")
}

fn number_arg<'a>(alloc: Global) -> Arg<'a>
    ensures rule { rule_of result ≡ number_rule }
    ensures local { result.global ≡ false }
{
    Arg::new(alloc, "number")
        .long("number")
        .value_parser(ValueParser::unsigned(0, u64::MAX))
        .default_value("0")
}

fn history_arg<'a>(alloc: Global) -> Arg<'a>
    ensures rule { rule_of result ≡ history_rule }
    ensures local { result.global ≡ false }
{
    Arg::new(alloc, "history")
        .long("history")
        .action(ArgAction::SetTrue)
}

/// The one command of the program.
pub(crate) fn lab_command<'a>(alloc: Global) -> Result<Command<'a>, AllocError>
    ensures { IfOk result (λ command. app_of command ≡ lab_command) }
{
    Command::new(alloc, "lab")
        .arg(mode_arg(alloc))?
        .arg(workers_arg(alloc))?
        .arg(number_arg(alloc))?
        .arg(history_arg(alloc))
}
