// The words of the program's line, and what they give.
use crate::program::words_of;
use sm_words::{Mode, Options, read_words};
use std::alloc::Global;
use std::test::Fail;

// A mode, workers, a number, and whether the history is asked for; none where the words are no line.
type Given = Option<(Mode, u32, u64, bool)>;

const LINES: &[(&str, Given)] = &[
    ("lab", Some((Mode::Run, 0, 0, false))),
    ("lab run", Some((Mode::Run, 0, 0, false))),
    ("lab report", Some((Mode::Report, 0, 0, false))),
    ("any report --history", Some((Mode::Report, 0, 0, true))),
    ("lab --history run", Some((Mode::Run, 0, 0, true))),
    ("lab --workers 8 --number 7", Some((Mode::Run, 8, 7, false))),
    (
        "lab --workers=0 -- report",
        Some((Mode::Report, 0, 0, false)),
    ),
    (
        "lab run --number 18446744073709551615",
        Some((Mode::Run, 0, u64::MAX, false)),
    ),
    ("lab --number +012", Some((Mode::Run, 0, 12, false))),
    ("", Some((Mode::Run, 0, 0, false))),
    ("lab check", None),
    ("lab generate --number 1", None),
    ("lab RUN", None),
    ("lab run run", None),
    ("lab run --workers 9", None),
    ("lab run --workers", None),
    ("lab run --workers -1", None),
    ("lab run --workers two", None),
    ("lab --workers 1 --workers 1", None),
    ("lab --history --history", None),
    ("lab --history=true", None),
    ("lab --number 18446744073709551616", None),
    ("lab --seed 1", None),
    ("lab --help", None),
    ("lab -h", None),
    ("lab help", None),
    ("lab --version", None),
];

fn given(options: Options) -> (Mode, u32, u64, bool) {
    (
        options.mode,
        options.workers,
        options.number,
        options.history,
    )
}

fn read_line(alloc: Global, line: &str) -> Result<Given, Fail> {
    let words = words_of(alloc, line)?;
    Ok(read_words(alloc, &words)?.map(given))
}

#[test]
fn words_give_options_or_are_no_line(rt: HostRuntime) -> Result<(), Fail> {
    for row in LINES {
        let (line, options) = *row;
        assert_eq!(rt; read_line(rt.alloc(), line)?, options, "at {line}");
    }
    Ok(())
}
