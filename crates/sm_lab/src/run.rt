// The top call.
ghost use Rattle.std.specs.Prelude.{◌≡◌, ◌+◌, ◌≤◌, ◌&&◌, [], Some, map, string_bytes, false};
ghost use Rattle.sm_base.specs.declared.limits.TheConstants.{LONGEST_SCRIPT};
ghost use Rattle.sm_stream.specs.Causes.{Rose};
ghost use Rattle.sm_stream.specs.Whole.{TookAtMost};
ghost use Rattle.sm_output.specs.Output.{IsPrinted};
ghost use Rattle.sm_words.specs.Words.{options_of};
ghost use Rattle.sm_lab.specs.Call.{flow, lists, Ran, Ends};

use crate::commands::read_commands;
use crate::outcome::Outcome;
use crate::running::run_on;
use sm_base::NoMemory;
use sm_disk::Disk;
use sm_output::{Status, print};
use sm_stream::{Sink, Source};
use sm_words::{Mode, Options, read_words};
use std::alloc::Global;

// A call in which no event ran.
fn unrun<D: Disk + Drop>(alloc: Global, status: Status, disks: Vec<D>) -> Outcome<D>
    ensures status { result.status ≡ status }
    ensures disks { result.disks.items ≡ disks.items }
    ensures history { result.history.items ≡ [] }
    ensures sides { result.sides.items ≡ [] }
{
    Outcome {
        status,
        disks,
        history: Vec::new(alloc),
        sides: Vec::new(alloc),
    }
}

// A call in which no event ran, and what it writes.
fn refuse<W: Sink, D: Disk + Drop>(
    alloc: Global,
    status: Status,
    out: &mut W,
    disks: Vec<D>,
) -> Outcome<D>
    ensures printed { IsPrinted false status [] (W.held out.old) (W.held out.new) (Rose (W.fault_count out.old) (W.fault_count out.new)) result.status }
    ensures disks { result.disks.items ≡ disks.items }
    ensures history { result.history.items ≡ [] }
    ensures sides { result.sides.items ≡ [] }
    ensures later { W.fault_count out.old ≤ W.fault_count out.new }
{
    let mut outcome = unrun(alloc, status, disks);
    outcome.status = print(alloc, false, status, &[], out);
    outcome
}

// What the options ask for, before anything is written.
fn decide<S: Source, D: Disk + Drop>(
    alloc: Global,
    options: Options,
    script: &mut S,
    disks: Vec<D>,
) -> Outcome<D>
    ensures ran { Ran D.state (record {
      options = Some options;
      script = flow (S.left script.old) (S.left script.new) (S.fault_count script.old) (S.fault_count script.new);
      disks = disks.items;
      disks_after = result.disks.items;
      history = result.history.items;
      sides = result.sides.items;
    }) result.status }
    ensures taken { TookAtMost (LONGEST_SCRIPT + 1) (S.left script.old) (S.left script.new) }
    ensures later { S.fault_count script.old ≤ S.fault_count script.new }
{
    if options.workers > 0 {
        return unrun(alloc, Status::Usage, disks);
    }
    match options.mode {
        Mode::Run => match read_commands(alloc, script) {
            Ok(script) => run_on(alloc, script.commands(), disks),
            Err(status) => unrun(alloc, status, disks),
        },
        Mode::Report => run_on(alloc, &[], disks),
    }
}

// Whether the lines of the entries are asked for.
fn lists(options: Options) -> bool
    ensures { result ≡ lists (Some options) }
{
    options.mode == Mode::Run && options.history
}

/// All that the program does for options that were read. In mode `run` it reads the script to its end, opens the node
/// on the disks, does the commands one event after another, and asks for the report; in mode `report` it reads nothing
/// and asks for the report alone. Only then is the output written, so that a sink that fails changes no disk.
/// Everything is done in the caller's thread: workers are not built, and options that ask for some are answered
/// [`Status::Usage`].
pub fn run_single<S: Source, W: Sink, D: Disk + Drop>(
    alloc: Global,
    options: Options,
    script: &mut S,
    out: &mut W,
    disks: Vec<D>,
) -> Outcome<D>
    // What it did and how it ended, with its history, its output and the disks.
    ensures ends { Ends D.state (record {
      options = Some options;
      script = flow (S.left script.old) (S.left script.new) (S.fault_count script.old) (S.fault_count script.new);
      disks = disks.items;
      disks_after = result.disks.items;
      history = result.history.items;
      sides = result.sides.items;
    }) (flow (W.held out.old) (W.held out.new) (W.fault_count out.old) (W.fault_count out.new)) result.status }

    // At most one byte is taken more than a script may have.
    ensures taken { TookAtMost (LONGEST_SCRIPT + 1) (S.left script.old) (S.left script.new) }

    // The counts of failures never fall.
    ensures source_later { S.fault_count script.old ≤ S.fault_count script.new }
    ensures sink_later { W.fault_count out.old ≤ W.fault_count out.new }
{
    let mut outcome = decide(alloc, options, script, disks);
    outcome.status = print(alloc, lists(options), outcome.status, &outcome.history, out);
    outcome
}

/// All that the program does for its words, the program's name first: as [`run_single`] for the options that they
/// give. Words that are no line of the command are answered [`Status::Usage`].
pub fn run_lab<S: Source, W: Sink, D: Disk + Drop>(
    alloc: Global,
    words: Vec<String>,
    script: &mut S,
    out: &mut W,
    disks: Vec<D>,
) -> Outcome<D>
    ensures ends { Ends D.state (record {
      options = options_of (map (λ w. string_bytes w) words.items);
      script = flow (S.left script.old) (S.left script.new) (S.fault_count script.old) (S.fault_count script.new);
      disks = disks.items;
      disks_after = result.disks.items;
      history = result.history.items;
      sides = result.sides.items;
    }) (flow (W.held out.old) (W.held out.new) (W.fault_count out.old) (W.fault_count out.new)) result.status }
    ensures taken { TookAtMost (LONGEST_SCRIPT + 1) (S.left script.old) (S.left script.new) }
    ensures source_later { S.fault_count script.old ≤ S.fault_count script.new }
    ensures sink_later { W.fault_count out.old ≤ W.fault_count out.new }
{
    match read_words(alloc, &words) {
        Ok(Some(options)) => run_single(alloc, options, script, out, disks),
        Ok(None) => refuse(alloc, Status::Usage, out, disks),
        Err(NoMemory) => refuse(alloc, Status::NoMemory, out, disks),
    }
}
