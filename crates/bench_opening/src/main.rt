//! What opening a node computes, so that it can be timed from outside: the decoding of a catalogue's record, and the
//! tests of a world of maps.
//!
//! Called with a word, two sizes and a number of calls, it makes the record or the world of these sizes, then the
//! calls, and prints what the last one found. Called with no words it does both on small ones.
#![tactic(auto)]

mod record;
mod worlds;

use crate::record::decode_often;
use crate::worlds::test_often;
use sm_base::NoMemory;
use std::alloc::Global;
use std::{env, io};

/// What is timed.
#[derive(Clone, Copy, Debug)]
enum Deed {
    /// The decoding of a record with so many relationships, each with so many legs.
    Decode,
    /// The tests of a world with so many volumes, each with so many full snapshots.
    Test,
}

/// A run of the program.
#[derive(Clone, Copy)]
struct Plan {
    deed: Deed,
    outer: u32,
    inner: u32,
    calls: u32,
}

// What the words ask for.
fn plan_of(words: &[String]) -> Option<Plan> {
    let deed = match words.get(1)?.as_str() {
        "decode" => Deed::Decode,
        "test" => Deed::Test,
        _ => return None,
    };
    Some(Plan {
        deed,
        outer: words.get(2)?.as_str().parse::<u32>().ok()?,
        inner: words.get(3)?.as_str().parse::<u32>().ok()?,
        calls: words.get(4)?.as_str().parse::<u32>().ok()?,
    })
}

fn perform(alloc: Global, plan: &Plan, logical: u32) -> Result<usize, NoMemory> {
    match plan.deed {
        Deed::Decode => decode_often(alloc, plan.outer, plan.inner, plan.calls),
        Deed::Test => test_often(alloc, plan.outer, plan.inner, logical, plan.calls),
    }
}

// What is printed of a run.
fn report(alloc: Global, plan: &Plan, logical: u32) -> io::Result<String> {
    match perform(alloc, plan, logical) {
        Ok(found) => Ok(format!(in alloc; "{:?}: {found}", plan.deed)?),
        Err(NoMemory) => Ok(format!(in alloc; "{:?}: no memory", plan.deed)?),
    }
}

// The words that the program was called with, its name first.
fn words_of(rt: &HostRuntime) -> io::Result<Vec<String>> {
    Ok(env::args(rt)?.collect(rt.alloc())?)
}

// A small run of a deed.
fn small(deed: Deed) -> Plan {
    Plan {
        deed,
        outer: 3,
        inner: 2,
        calls: 2,
    }
}

fn main(rt: HostRuntime) -> io::Result<()> {
    let words = words_of(&rt)?;
    if words.len() > 1 {
        let text = match plan_of(&words) {
            Some(plan) => report(rt.alloc(), &plan, 4096)?,
            None => format!(in rt.alloc();
                "words: decode RELATIONSHIPS LEGS CALLS, or test VOLUMES SNAPSHOTS CALLS"
            )?,
        };
        return println!(rt; "{text}");
    }
    for deed in [Deed::Decode, Deed::Test] {
        let text = report(rt.alloc(), &small(deed), 4)?;
        println!(rt; "{text}")?;
    }
    Ok(())
}
