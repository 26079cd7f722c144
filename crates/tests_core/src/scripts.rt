// Scripts on a catalogue.
use crate::disks::{blank_disks, opened, run};
use sm_base::Refusal;
use sm_base::limits::MOST_ENTRIES;
use sm_core::Catalogue;
use sm_history::ActFault;
use sm_memdisk::MemDisk;
use sm_model::{OpenKind, Reply};
use std::alloc::Global;
use std::test::Fail;

// A catalogue of blank disks, none where a disk fails in opening: the call of that number of that disk fails.
pub fn opened_failing(
    alloc: Global,
    disk: usize,
    call: u64,
) -> Result<Option<Catalogue<MemDisk>>, Fail> {
    let mut disks = blank_disks(alloc)?;
    if let Some(disk) = disks.get_mut(disk) {
        disk.fail_at(call)?;
    }
    Ok(opened(alloc, disks))
}

// What an entry answers, in a word.
fn word(reply: &Reply) -> &'static str {
    match reply {
        Reply::Done => "done",
        Reply::Created { .. } => "created",
        Reply::Snapped { .. } => "snapped",
        Reply::Refused(Refusal::NoVolume { .. }) => "no volume",
        Reply::Refused(Refusal::NameTaken) => "name taken",
        Reply::Refused(Refusal::BadBlock) => "bad block",
        Reply::Refused(Refusal::DiskFault { .. }) => "fault",
        Reply::Refused(Refusal::Down { .. }) => "down",
        _ => "another",
    }
}

// Eight events in seven lines.
pub fn script() -> &'static str {
    "\
volume create -path s:a -disk 1 -type rw -blocks 4 -physical 6
volume create -path s:a -disk 1 -type rw -blocks 4 -physical 6
lab cp -path s:a
client write -path s:b -block 0 -fill 7
# the second write has no block
client write -path s:a -block 3 -fill 9 -count 2
snapshot create -path s:a -snapshot s1
lab clock -time 2026-01-01T00:00:00Z
"
}

const ANSWERS: &[(u32, &str)] = &[
    (1, "created"),
    (2, "name taken"),
    (3, "done"),
    (4, "no volume"),
    (6, "done"),
    (6, "bad block"),
    (7, "snapped"),
    (8, "done"),
];

// How many answers of the script are as without a fault, in front of one and of answers that the node is down; none where
// an answer is another, or one is left out.
fn answers_before_a_fault(catalogue: &Catalogue<MemDisk>) -> Option<usize> {
    let entries = catalogue.entries();
    if entries.len() != ANSWERS.len() {
        return None;
    }
    let mut before = 0usize;
    let mut is_down = false;
    for (entry, row) in entries.iter().zip(ANSWERS) {
        let told = word(&entry.reply);
        if entry.line != row.0 || is_down && told != "down" {
            return None;
        }
        if !is_down && told == "fault" {
            is_down = true;
        } else if !is_down && told != row.1 {
            return None;
        }
        before = before.saturating_add(usize::from(!is_down));
    }
    Some(before)
}

// A script without commands, and then all of it.
fn runs_in_order(alloc: Global, catalogue: &mut Catalogue<MemDisk>) -> Result<[bool; 3], Fail> {
    let none = run(alloc, catalogue, "")?.is_ok() && catalogue.entries().is_empty();
    let all = run(alloc, catalogue, script())?.is_ok();
    let so = answers_before_a_fault(catalogue) == Some(ANSWERS.len());
    Ok([none, all, so])
}

#[test]
fn events_come_in_the_order_of_the_script(rt: HostRuntime) -> Result<(), Fail> {
    let Some(mut catalogue) = opened(rt.alloc(), blank_disks(rt.alloc())?) else {
        return Err(OpenKind::Fault)?;
    };
    assert_eq!(rt; runs_in_order(rt.alloc(), &mut catalogue)?, [true; 3]);
    Ok(())
}

// How many answers come before a fault of that call of that disk; all where it fails in opening, or is not reached.
fn before_a_fault(alloc: Global, disk: usize, call: u64) -> Result<usize, Fail> {
    let Some(mut catalogue) = opened_failing(alloc, disk, call)? else {
        return Ok(ANSWERS.len());
    };
    run(alloc, &mut catalogue, script())??;
    match answers_before_a_fault(&catalogue) {
        Some(before) => Ok(before),
        None => Err("another answer, or an event that was left out")?,
    }
}

// Behind a fault all events are answered that the node is down, and none is left out.
#[test]
fn a_fault_is_an_entry_and_the_run_goes_on(rt: HostRuntime) -> Result<(), Fail> {
    let mut met = 0u32;
    for call in 0..200u64 {
        let before = before_a_fault(rt.alloc(), (call % 2) as usize, call / 2 + 1)?;
        met = met.saturating_add(u32::from(before < ANSWERS.len()));
    }
    assert!(rt; met > 10, "{met} calls failed");
    Ok(())
}

// As many events as a line has.
pub fn many() -> &'static str {
    "client write -path s:b -block 0 -fill 0 -count 4096"
}

// Runs the text so many times; how often all its commands were done.
pub fn done_of(
    alloc: Global,
    catalogue: &mut Catalogue<MemDisk>,
    text: &str,
    times: u32,
) -> Result<u32, Fail> {
    let mut done = 0u32;
    for _ in 0..times {
        if run(alloc, catalogue, text)?.is_ok() {
            done = done.saturating_add(1);
        }
    }
    Ok(done)
}

fn is_full(ended: Result<(), ActFault>) -> bool {
    matches!(ended, Err(ActFault::HistoryFull))
}

// A history that is filled up, and what is asked for behind it.
fn fills(alloc: Global, catalogue: &mut Catalogue<MemDisk>) -> Result<[bool; 6], Fail> {
    let filled = done_of(alloc, catalogue, many(), 255)? == 255;
    let one_more = done_of(alloc, catalogue, "volume show", 1)? == 1;
    let cut_off = is_full(run(alloc, catalogue, many())?);
    let none = done_of(alloc, catalogue, "", 1)? == 1;
    let refused = is_full(run(alloc, catalogue, script())?);
    let many = catalogue.entries().len() == MOST_ENTRIES;
    Ok([filled, one_more, cut_off, none, refused, many])
}

#[test]
fn a_full_history_ends_the_run(rt: HostRuntime) -> Result<(), Fail> {
    let Some(mut catalogue) = opened(rt.alloc(), blank_disks(rt.alloc())?) else {
        return Err(OpenKind::Fault)?;
    };
    assert_eq!(rt; fills(rt.alloc(), &mut catalogue)?, [true; 6]);
    Ok(())
}
