//! Makes calls of a volume over a disk in memory, so that they can be timed from outside.
//!
//! Called with a word, a number of snapshots and a number of calls, it makes a volume of 4,096 blocks
//! with so many snapshots, then the calls, and prints what is left. Called with no words it does each
//! of its deeds on a volume of 4 blocks.
#![tactic(auto)]

mod deeds;
mod record;
mod volume;

use crate::deeds::{Deed, Plan, deed_of, perform};
use crate::volume::Size;
use std::alloc::Global;
use std::{env, io};

// What the words ask for.
fn plan_of(words: &[String]) -> Option<Plan> {
    let deed = deed_of(words.get(1)?.as_str())?;
    let snapshots = words.get(2)?.as_str().parse::<u32>().ok()?;
    let count = words.get(3)?.as_str().parse::<u32>().ok()?;
    Some(Plan {
        deed,
        size: Size::Large,
        snapshots,
        count,
    })
}

// A small run of a deed.
fn small(deed: Deed) -> Plan {
    Plan {
        deed,
        size: Size::Small,
        snapshots: 2,
        count: 3,
    }
}

// What is printed of a run.
fn report(alloc: Global, plan: &Plan) -> io::Result<String> {
    match perform(alloc, plan) {
        Ok(left) => Ok(format!(in alloc; "{:?}: {left}", plan.deed)?),
        Err(fault) => Ok(format!(in alloc; "{:?}: {fault:?}", plan.deed)?),
    }
}

// The words that the program was called with, its name first.
fn words_of(rt: &HostRuntime) -> io::Result<Vec<String>> {
    Ok(env::args(rt)?.collect(rt.alloc())?)
}

fn main(rt: HostRuntime) -> io::Result<()> {
    let words = words_of(&rt)?;
    if words.len() > 1 {
        let text = match plan_of(&words) {
            Some(plan) => report(rt.alloc(), &plan)?,
            None => format!(in rt.alloc();
                "words: write|commit|snapshot|remove|rewritten|encode|decode|open|disk SNAPSHOTS CALLS"
            )?,
        };
        return println!(rt; "{text}");
    }
    for deed in [
        Deed::Write,
        Deed::Commit,
        Deed::Snapshot,
        Deed::Remove,
        Deed::Rewritten,
        Deed::Encode,
        Deed::Decode,
        Deed::Open,
        Deed::Disk,
    ] {
        let text = report(rt.alloc(), &small(deed))?;
        println!(rt; "{text}")?;
    }
    Ok(())
}
