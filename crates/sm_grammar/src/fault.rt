use sm_base::NoMemory;
use std::alloc::AllocFailed;
use thiserror::Error;

/// What is wrong with a line of the script, in the order of the tests.
#[derive(Clone, Copy, Debug, PartialEq, Eq)]
pub enum LineKind {
    /// The line has more bytes than a line may have.
    TooLong,
    /// The line has a byte that no line may have.
    BadByte,
    /// The first words are no command.
    UnknownCommand,
    /// The command has no such option.
    UnknownOption,
    /// The option stood before.
    RepeatedOption,
    /// The option has no value behind it.
    MissingValue,
    /// The value is outside the grammar of its name.
    BadName,
    /// The value is no number, or one out of its range.
    BadNumber,
    /// The value is no time.
    BadTime,
    /// The value is none of the words that the option takes.
    BadChoice,
    /// An option that the command needs is missing.
    MissingOption,
}

/// Why a line was not read.
#[derive(Clone, Copy, Debug, PartialEq, Eq)]
pub enum LineFault {
    Bad(LineKind),
    NoMemory,
}

impl From<NoMemory> for LineFault {
    ghost use Rattle.std.specs.Prelude.{◌≡◌};
    ghost use Rattle.sm_grammar.specs.declared.fault.LineFault.TheVariants.{NoMemory as OutOfMemory};

    ghost from_gives = { λ _ e. e ≡ OutOfMemory };

    fn from(_: NoMemory) -> LineFault {
        LineFault::NoMemory
    }
}

impl From<LineKind> for LineFault {
    ghost use Rattle.std.specs.Prelude.{◌≡◌};
    ghost use Rattle.sm_grammar.specs.declared.fault.LineFault.TheVariants.{Bad};

    ghost from_gives = { λ kind e. e ≡ Bad kind };

    fn from(kind: LineKind) -> LineFault {
        LineFault::Bad(kind)
    }
}

impl<T: Drop> From<AllocFailed<T>> for LineFault {
    ghost use Rattle.std.specs.Prelude.{◌≡◌};
    ghost use Rattle.sm_grammar.specs.declared.fault.LineFault.TheVariants.{NoMemory as OutOfMemory};

    ghost from_gives = { λ _ e. e ≡ OutOfMemory };

    fn from(_: AllocFailed<T>) -> LineFault {
        LineFault::NoMemory
    }
}

/// Why a text was not read as a script.
#[derive(Clone, Copy, Debug, PartialEq, Eq, Error)]
pub enum ScriptFault {
    /// The first line that is no command, by its number from 1.
    #[error("line {line} is no command: {kind:?}")]
    BadLine { line: u32, kind: LineKind },
    /// There is no memory left for the commands.
    #[error("no memory is left for the commands")]
    NoMemory,
}

impl<T: Drop> From<AllocFailed<T>> for ScriptFault {
    ghost use Rattle.std.specs.Prelude.{◌≡◌};
    ghost use Rattle.sm_grammar.specs.declared.fault.ScriptFault.TheVariants.{NoMemory as OutOfMemory};

    ghost from_gives = { λ _ e. e ≡ OutOfMemory };

    fn from(_: AllocFailed<T>) -> ScriptFault {
        ScriptFault::NoMemory
    }
}
