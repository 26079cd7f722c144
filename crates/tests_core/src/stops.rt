// Disks that fail or stop at any of their calls: what they spell afterwards is the world before the event or the one
// after it.
use crate::disks::{blank_disks, opened, printed, run};
use sm_base::Refusal;
use sm_core::Catalogue;
use sm_disk::Disk;
use sm_memdisk::{Image, MemDisk};
use sm_model::{Entry, OpenKind, Reply};
use std::alloc::Global;
use std::test::Fail;

fn lines() -> &'static [&'static str] {
    &[
        "volume create -path s:a -disk 1 -type rw -blocks 4 -physical 6",
        "client write -path s:a -block 3 -fill 9",
        "snapshot create -path s:a -snapshot s1",
        "client write -path s:a -block 3 -fill 8",
        "lab cp -path s:a",
        "lab clock -time 2026-01-01T00:00:00Z",
        "snapshot create -path s:a -snapshot s2 -label daily",
        "snapshot delete -path s:a -snapshot s1",
        "volume create -path s:b -disk 2 -type dp -blocks 4 -physical 6",
        "snapmirror policy create -policy m -type async-mirror",
        "snapmirror policy add-rule -policy m -snapmirror-label all_source_snapshots -keep 1",
        "snapmirror create -source-path s:a -destination-path s:b -policy m",
    ]
}

// What is asked of a world. The clock does not go back, and a refusal tells it.
fn view() -> &'static str {
    "\
volume show
snapshot show -path s:a
lab read -path s:a -block 3
lab read -path s:a -snapshot s1 -block 3
lab read -path s:a -snapshot s2 -block 3
lab clock -time 1970-01-01T00:00:00Z
snapmirror policy show
snapmirror show
"
}

// What the disks spell after a restart that leaves this in what was pending, as a text; none where they are not opened.
fn spelled(
    alloc: Global,
    catalogue: Catalogue<MemDisk>,
    left: Image,
) -> Result<Option<String>, Fail> {
    let (mut disks, _, _) = catalogue.into_parts();
    for disk in disks.iter_mut() {
        disk.choose(left);
        disk.restart();
    }
    printed(alloc, disks, view())
}

// The line in which a disk fails, none where all are done.
fn failed_line(alloc: Global, catalogue: &mut Catalogue<MemDisk>) -> Result<Option<usize>, Fail> {
    for (place, line) in lines().iter().enumerate() {
        run(alloc, catalogue, line)??;
        if let Some(
            Entry {
                reply: Reply::Refused(Refusal::DiskFault { .. }),
                ..
            },
        ) = catalogue.entries().last()
        {
            return Ok(Some(place));
        }
    }
    Ok(None)
}

// What the disks spell where they restart after so many lines, without a fault.
fn state_after(alloc: Global, count: usize) -> Result<Option<String>, Fail> {
    let Some(mut catalogue) = opened(alloc, blank_disks(alloc)?) else {
        return Ok(None);
    };
    for line in lines().iter().take(count) {
        run(alloc, &mut catalogue, line)??;
    }
    spelled(alloc, catalogue, Image::Old)
}

fn states(alloc: Global) -> Result<Vec<Option<String>>, Fail> {
    let mut states = Vec::new(alloc);
    for count in 0..=lines().len() {
        states.push(state_after(alloc, count)?)?;
    }
    Ok(states)
}

#[derive(Clone, Copy, Debug)]
enum Failing {
    // One call fails.
    Once,
    // That one and all behind it, until the disk restarts.
    On,
}

const COURSES: &[(usize, Failing, Image)] = &[
    (0, Failing::Once, Image::Old),
    (0, Failing::Once, Image::New),
    (0, Failing::Once, Image::Fill(0)),
    (0, Failing::Once, Image::Fill(255)),
    (0, Failing::On, Image::Old),
    (0, Failing::On, Image::New),
    (0, Failing::On, Image::Fill(0)),
    (0, Failing::On, Image::Fill(255)),
    (1, Failing::Once, Image::Old),
    (1, Failing::Once, Image::New),
    (1, Failing::Once, Image::Fill(0)),
    (1, Failing::Once, Image::Fill(255)),
    (1, Failing::On, Image::Old),
    (1, Failing::On, Image::New),
    (1, Failing::On, Image::Fill(0)),
    (1, Failing::On, Image::Fill(255)),
];

// Disks of which one fails at the call of that number.
fn failing_disks(
    alloc: Global,
    disk: usize,
    failing: Failing,
    call: u64,
) -> Result<Vec<MemDisk>, Fail> {
    let mut disks = blank_disks(alloc)?;
    if let Some(disk) = disks.get_mut(disk) {
        match failing {
            Failing::Once => disk.fail_at(call)?,
            Failing::On => disk.stop_from(call),
        }
    }
    Ok(disks)
}

// How many calls of the disk failed behind its opening, each in turn until none is left.
fn calls_that_failed(
    alloc: Global,
    states: &[Option<String>],
    disk: usize,
    failing: Failing,
    left: Image,
) -> Result<u32, Fail> {
    let mut met = 0u32;
    for call in 1..200u64 {
        let disks = failing_disks(alloc, disk, failing, call)?;
        let Some(mut catalogue) = opened(alloc, disks) else {
            continue;
        };
        let Some(line) = failed_line(alloc, &mut catalogue)? else {
            return Ok(met);
        };
        let seen = spelled(alloc, catalogue, left)?;
        if !states.iter().skip(line).take(2).any(|state| *state == seen) {
            return Err((disk, failing, left, call, line, seen))?;
        }
        met = met.saturating_add(1);
    }
    Err(OpenKind::Fault)?
}

#[test]
fn a_stop_leaves_the_world_before_or_the_one_after(rt: HostRuntime) -> Result<(), Fail> {
    let states = states(rt.alloc())?;
    for (place, state) in states.iter().enumerate() {
        assert!(rt; state.is_some(), "line {place}");
    }
    let mut met = 0u32;
    for course in COURSES {
        let (disk, failing, left) = *course;
        met = met.saturating_add(calls_that_failed(rt.alloc(), &states, disk, failing, left)?);
    }
    assert!(rt; met > 100, "{met} calls failed");
    Ok(())
}
