//! The program: its words, standard input and output, and its disks, handed to the top call.
#![tactic(auto)]

mod disks;

use crate::disks::{files, memory};
use sm_base::NoMemory;
use sm_disk::Disk;
use sm_lab::{Status, run_lab};
use sm_stream::{StdSink, StdSource};
use std::process::ExitCode;
use std::{env, io};

/// The words that the program was called with, its name first.
fn words(rt: &HostRuntime) -> io::Result<Vec<String>> {
    Ok(env::args(rt)?.collect(rt.alloc())?)
}

/// The top call on these disks, between standard input and standard output.
fn run<D: Disk + Drop>(rt: &HostRuntime, words: Vec<String>, disks: Vec<D>) -> Status {
    let mut script = StdSource::new(rt.stdin());
    let mut out = StdSink::new(rt.stdout());
    let outcome = run_lab(rt.alloc(), words, &mut script, &mut out, disks);
    outcome.status
}

/// The top call on the files of the current folder, or, where it has none, on disks in memory.
fn run_on_disks(rt: &HostRuntime) -> Result<Status, NoMemory> {
    let Ok(words) = words(rt) else {
        return Err(NoMemory);
    };
    let files = files(rt)?;
    if files.is_empty() {
        Ok(run(rt, words, memory(rt.alloc())?))
    } else {
        Ok(run(rt, words, files))
    }
}

fn main(rt: HostRuntime) -> ExitCode {
    let status = match run_on_disks(&rt) {
        Ok(status) => status,
        Err(NoMemory) => {
            // A sink that fails too leaves nothing to tell it by but the status.
            let _ = println!(rt; "no memory");
            Status::NoMemory
        }
    };
    ExitCode::from(status.number())
}
