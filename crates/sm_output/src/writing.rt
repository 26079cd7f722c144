ghost use Rattle.std.specs.Prelude.{◌≡◌, ◌++◌, ◌≤◌, OnOk, OnErr};
ghost use Rattle.std.specs.Io.KnownBytes.{append_known};
ghost use Rattle.sm_stream.specs.Causes.{Rose};
ghost use Rattle.sm_stream.specs.Whole.{GotPart};
ghost use Rattle.sm_output.specs.Output.{IsPrinted};

use crate::output::{closing, prepare};
use crate::status::Status;
use sm_base::Failed;
use sm_model::Entry;
use sm_stream::{Sink, write_whole};
use std::alloc::Global;

/// Hands two texts to a sink, one behind the other.
fn write_both<W: Sink>(out: &mut W, first: &[u8], second: &[u8]) -> Result<(), Failed>
    ensures ok { OnOk result (W.held out.new ≡ append_known (W.held out.old) (first.now ++ second.now)) }
    ensures part { OnErr result (GotPart (W.held out.old) (W.held out.new) (first.now ++ second.now)) }
    ensures failed { OnErr result (Rose (W.fault_count out.old) (W.fault_count out.new)) }
    ensures later { W.fault_count out.old ≤ W.fault_count out.new }
{
    write_whole(out, first)?;
    write_whole(out, second)
}

/// Writes what a call writes that ends so, with the lines of its entries where they are `listed`, and answers how it
/// ends then: so, or with [`Status::NoMemory`] where there was none for the texts; with [`Status::WriteFault`] only
/// where the sink's count of failures rose.
#[tactic(auto, using(crate::proofs::Outputs::all_printed, crate::proofs::Outputs::part_printed))]
pub fn print<W: Sink>(
    alloc: Global,
    listed: bool,
    status: Status,
    history: &[Entry],
    out: &mut W,
) -> Status
    ensures printed { IsPrinted listed status history.now (W.held out.old) (W.held out.new) (Rose (W.fault_count out.old) (W.fault_count out.new)) result }
    ensures later { W.fault_count out.old ≤ W.fault_count out.new }
{
    let mut text = Vec::new(alloc);
    let status = prepare(alloc, listed, status, history, &mut text);
    match write_both(out, &text, closing(status)) {
        Ok(()) => status,
        Err(Failed) => Status::WriteFault,
    }
}
