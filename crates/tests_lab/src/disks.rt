// Disks that stay from run to run, that fail, or that stand for no node.
use crate::program::{blank_disks, run_on, told};
use sm_base::limits::SLOTS_END;
use sm_disk::Disk;
use sm_memdisk::MemDisk;
use std::alloc::Global;
use std::test::Fail;

fn first() -> &'static str {
    "\
volume create -path s:a -disk 1 -type rw -blocks 4 -physical 8
client write -path s:a -block 0 -fill 7
snapshot create -path s:a -snapshot s1
"
}

fn second() -> &'static str {
    "\
client write -path s:a -block 3 -fill 9
volume create -path s:b -disk 2 -type dp -blocks 1 -physical 1
lab clock -time 2026-01-02T03:04:05Z
snapshot create -path s:a -snapshot s2 -label daily
"
}

fn both() -> &'static str {
    "\
volume create -path s:a -disk 1 -type rw -blocks 4 -physical 8
client write -path s:a -block 0 -fill 7
snapshot create -path s:a -snapshot s1
client write -path s:a -block 3 -fill 9
volume create -path s:b -disk 2 -type dp -blocks 1 -physical 1
lab clock -time 2026-01-02T03:04:05Z
snapshot create -path s:a -snapshot s2 -label daily
"
}

// The disks that a script leaves.
fn disks_behind(alloc: Global, script: &str, disks: Vec<MemDisk>) -> Result<Vec<MemDisk>, Fail> {
    Ok(run_on(alloc, "lab", script, disks)?.disks)
}

// What a report writes on the disks that these scripts leave, one run after another.
fn reported(alloc: Global, scripts: &[&str]) -> Result<String, Fail> {
    let mut disks = blank_disks(alloc)?;
    for script in scripts {
        disks = disks_behind(alloc, script, disks)?;
    }
    Ok(told(alloc, "lab report", "", disks)?.0)
}

const REPORT: &str = "\
report volumes=2 relationships=0 policies=0 clock=1767323045
volume 0 s:a type=rw blocks=4 physical=8 used=2 snapshots=2
active 0 sha256=01666e1dd2d506db8a52e403fff8e7598978f1b585fbb4ca224aac329c7571bc
snapshot 0 s1 id=0.2 label=- time=0 made=client \
sha256=3fd8965d15c528291e100d6577b7148b3da2b2280187cd9b2eea5cbb9f9f079f
snapshot 0 s2 id=0.4 label=daily time=1767323045 made=client \
sha256=01666e1dd2d506db8a52e403fff8e7598978f1b585fbb4ca224aac329c7571bc
volume 1 s:b type=dp blocks=1 physical=1 used=0 snapshots=0
active 1 sha256=ad7facb2586fc6e966c004d7d1d16b024f5805ff7cb47c7a85dabd8b48892ca7
";

#[test]
fn two_runs_over_the_same_disks_are_one_of_both_scripts(rt: HostRuntime) -> Result<(), Fail> {
    let two = reported(rt.alloc(), &[first(), second()])?;
    assert_eq!(rt; two.as_str(), REPORT);
    let one = reported(rt.alloc(), &[both()])?;
    assert_eq!(rt; one.as_str(), REPORT);
    Ok(())
}

// What was written behind the last consistency point is gone for the next run, and a script with a bad line does nothing.
#[test]
fn the_next_run_begins_at_the_last_consistency_point(rt: HostRuntime) -> Result<(), Fail> {
    let script = "\
volume create -path s:a -disk 1 -type rw -blocks 4 -physical 8
client write -path s:a -block 0 -fill 7
";
    let report = "\
report volumes=1 relationships=0 policies=0 clock=0
volume 0 s:a type=rw blocks=4 physical=8 used=0 snapshots=0
active 0 sha256=4fe7b59af6de3b665b67788cc2f99892ab827efae3a467342b3bb4e3bc8e5bfe
";
    let bad = "snapshot create -path s:a -snapshot s1\nlab step\n";
    assert_eq!(rt; reported(rt.alloc(), &[script, bad])?.as_str(), report);
    Ok(())
}

// Blank disks of which one fails at a call.
fn failing_disks(alloc: Global, disk: usize, call: u64) -> Result<Vec<MemDisk>, Fail> {
    let mut disks = blank_disks(alloc)?;
    if let Some(disk) = disks.get_mut(disk) {
        disk.fail_at(call)?;
    }
    Ok(disks)
}

// The first call of the volume's disk fails.
#[test]
fn a_node_that_went_down_ends_the_report(rt: HostRuntime) -> Result<(), Fail> {
    let output = "\
1: refused DiskFault disk=1 faults=1
2: refused Down disk=1
3: refused Down disk=1
report down disk=1
";
    let disks = failing_disks(rt.alloc(), 1, 1)?;
    let (written, status) = told(rt.alloc(), "lab", first(), disks)?;
    assert_eq!(rt; written.as_str(), output);
    assert_eq!(rt; status, 9);
    Ok(())
}

// What lies on the disks of a node that is not opened.
#[derive(Clone, Copy, Debug)]
enum Lies {
    Nothing,
    // A first disk that is too short.
    Short,
    // A first slot that begins as no record does.
    OtherWord,
    // A first disk whose first call fails.
    Failing,
    // The first disk of a node with a volume on disk 1, alone.
    Alone,
}

fn disk_of(alloc: Global, lies: Lies) -> Result<MemDisk, Fail> {
    if let Lies::Short = lies {
        return Ok(MemDisk::new(alloc, SLOTS_END - 1)?);
    }
    let mut disk = MemDisk::new(alloc, SLOTS_END)?;
    match lies {
        Lies::OtherWord => disk.write(4096, b"SMCATLXX")?,
        Lies::Failing => disk.fail_at(1)?,
        _ => {}
    }
    Ok(disk)
}

fn disks_of(alloc: Global, lies: Lies) -> Result<Vec<MemDisk>, Fail> {
    if let Lies::Alone = lies {
        let mut disks = disks_behind(alloc, first(), blank_disks(alloc)?)?;
        disks.truncate(1);
        return Ok(disks);
    }
    let mut disks = Vec::new(alloc);
    if !matches!(lies, Lies::Nothing) {
        disks.push(disk_of(alloc, lies)?)?;
    }
    Ok(disks)
}

const UNOPENED: &[(Lies, &str)] = &[
    (Lies::Nothing, "unopened disk=0 kind=NoDisk\n"),
    (Lies::Short, "unopened disk=0 kind=Short\n"),
    (Lies::OtherWord, "unopened disk=0 kind=Record\n"),
    (Lies::Failing, "unopened disk=0 kind=Fault\n"),
    (Lies::Alone, "unopened disk=1 kind=NoDisk\n"),
];

#[test]
fn disks_that_stand_for_no_node_are_named(rt: HostRuntime) -> Result<(), Fail> {
    for row in UNOPENED {
        let (lies, output) = *row;
        for mode in ["lab run", "lab report"] {
            let disks = disks_of(rt.alloc(), lies)?;
            let (written, status) = told(rt.alloc(), mode, first(), disks)?;
            assert_eq!(rt; written.as_str(), output, "in {mode}");
            assert_eq!(rt; status, 6, "in {mode}");
        }
    }
    Ok(())
}
