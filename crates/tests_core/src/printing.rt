// Scripts with what they print.
use crate::disks::printed;
use sm_base::limits::SLOTS_END;
use sm_memdisk::MemDisk;
use std::alloc::Global;
use std::test::Fail;

struct Row {
    // How long disk 1 is, in bytes, and which of its calls fails.
    length: u64,
    failing: Option<u64>,
    script: &'static str,
    // What is printed: a text, a line so many times, a text.
    first: &'static str,
    line: &'static str,
    times: u32,
    last: &'static str,
}

const ROWS: &[Row] = &[
    // Blocks that were written are read, and others are zeros.
    Row {
        length: 25_759_744,
        failing: None,
        script: "\
volume create -path s:a -disk 1 -type rw -blocks 4 -physical 8
client write -path s:a -block 0 -fill 7
client write -path s:a -block 3 -fill 9
snapshot create -path s:a -snapshot s1
lab read -path s:a -snapshot s1 -block 3
lab read -path s:a -block 1
",
        first: "1: ok volume=0\n2: ok\n3: ok\n4: ok id=0.2\n5: ok fill=9\n6: ok fill=0\n",
        line: "",
        times: 0,
        last: "",
    },
    // The first call of the disk fails.
    Row {
        length: 25_759_744,
        failing: Some(1),
        script: "\
volume create -path s:a -disk 1 -type rw -blocks 4 -physical 8
client write -path s:a -block 0 -fill 7
client write -path s:a -block 3 -fill 9
snapshot create -path s:a -snapshot s1
lab read -path s:a -snapshot s1 -block 3
lab read -path s:a -block 1
",
        first: "1: refused DiskFault disk=1 faults=1\n2: refused Down disk=1\n3: refused Down disk=1\n",
        line: "",
        times: 0,
        last: "4: refused Down disk=1\n5: refused Down disk=1\n6: refused Down disk=1\n",
    },
    // Of one block more than there are logical ones, a snapshot leaves room for one write.
    Row {
        length: 42_508_288,
        failing: None,
        script: "\
volume create -path s:a -disk 1 -type rw -blocks 4096 -physical 4097
client write -path s:a -block 0 -count 4096 -fill 0
snapshot create -path s:a -snapshot s1
client write -path s:a -block 0 -fill 1
client write -path s:a -block 1 -fill 1
client write -path s:a -block 4096 -fill 1
",
        first: "1: ok volume=0\n",
        line: "2: ok\n",
        times: 4096,
        last: "3: ok id=0.2\n4: ok\n5: refused NoSpace\n6: refused BadBlock\n",
    },
    // What can be wrong with a volume that is to be made, by the order of the tests.
    Row {
        length: 25_743_359,
        failing: None,
        script: "\
volume create -path s:a -disk 0 -type rw -blocks 4 -physical 4
volume create -path s:a -disk 2 -type rw -blocks 4 -physical 4
volume create -path s:a -disk 1 -type rw -blocks 4 -physical 4
volume create -path s:a -disk 1 -type rw -blocks 3 -physical 3
volume create -path s:a -disk 0 -type rw -blocks 4 -physical 4
volume create -path s:b -disk 0 -type rw -blocks 4 -physical 4
volume create -path s:b -disk 1 -type rw -blocks 4 -physical 4
",
        first: "1: refused NoDisk disk=0\n2: refused NoDisk disk=2\n3: refused DiskSmall need=25743360 len=25743359\n",
        line: "",
        times: 0,
        last: "4: ok volume=0\n5: refused NameTaken\n6: refused NoDisk disk=0\n7: refused DiskTaken\n",
    },
];

fn disks_of(alloc: Global, row: &Row) -> Result<Vec<MemDisk>, Fail> {
    let mut disk = MemDisk::new(alloc, row.length)?;
    if let Some(call) = row.failing {
        disk.fail_at(call)?;
    }
    let mut disks = Vec::new(alloc);
    disks.push(MemDisk::new(alloc, SLOTS_END)?)?;
    disks.push(disk)?;
    Ok(disks)
}

fn expected(alloc: Global, row: &Row) -> Result<String, Fail> {
    let mut text = String::new(alloc);
    text.push_str(row.first)?;
    for _ in 0..row.times {
        text.push_str(row.line)?;
    }
    text.push_str(row.last)?;
    Ok(text)
}

#[test]
fn scripts_print_what_is_written_beside_them(rt: HostRuntime) -> Result<(), Fail> {
    for row in ROWS {
        let told = printed(rt.alloc(), disks_of(rt.alloc(), row)?, row.script)?;
        assert_eq!(rt; told, Some(expected(rt.alloc(), row)?));
    }
    Ok(())
}
