// Scripts on policies and relationships, with what they print. Each refusal comes where its words say, and of two causes
// that stand together the earlier one is answered. No script meets a policy with all its rules, nor one of 64 relationships:
// a mirror's policy takes two rules, and each of 32 volumes is the destination of at most one relationship.
use crate::disks::printed;
use sm_base::limits::SLOTS_END;
use sm_disk::Disk;
use sm_memdisk::MemDisk;
use sm_model::OpenKind;
use std::alloc::Global;
use std::test::Fail;

struct Row {
    // The number of the next relationship, as disk 0 tells it.
    next: u32,
    script: &'static str,
    printed: &'static str,
}

const ROWS: &[Row] = &[
    // A mirror of 256 blocks, and what is wrong with further rules and relationships.
    Row {
        next: 1,
        script: "\
volume create -path s:a -disk 1 -type rw -blocks 256 -physical 512
volume create -path s:b -disk 2 -type dp -blocks 256 -physical 512
snapmirror policy create -policy m -type async-mirror
snapmirror create -source-path s:a -destination-path s:b -policy m
snapmirror show
snapmirror policy add-rule -policy m -snapmirror-label daily -keep 1
snapmirror policy add-rule -policy m -snapmirror-label all_source_snapshots -keep 2
snapmirror policy add-rule -policy m -snapmirror-label sm_created -keep 1
snapmirror policy add-rule -policy m -snapmirror-label all_source_snapshots -keep 1
snapmirror create -source-path s:a -destination-path s:b -policy m
snapmirror create -source-path s:b -destination-path s:a -policy m
",
        printed: "\
1: ok volume=0
2: ok volume=1
3: ok
4: ok relationship=1
5: ok lines=1
  relationship 1 s:a s:b policy=m state=uninitialized status=idle base=- transfer=-
6: refused WrongRule
7: refused BadKeep
8: refused RuleTaken
9: ok
10: refused AlreadyDestination relationship=1
11: refused Cycle
",
    },
    // Policies without a volume.
    Row {
        next: 1,
        script: "\
snapmirror policy show
snapmirror show
snapmirror policy create -policy m -type async-mirror
snapmirror policy create -policy m -type async-mirror
snapmirror policy create -policy M -type async-mirror
snapmirror policy add-rule -policy M -snapmirror-label all_source_snapshots -keep 1 -preserve false
snapmirror policy show
",
        printed: "\
1: ok lines=0
2: ok lines=0
3: ok
4: refused NameTaken
5: ok
6: ok
7: ok lines=2
  policy m type=async-mirror rules=sm_created:1:false
  policy M type=async-mirror rules=sm_created:1:false,all_source_snapshots:1:false
",
    },
    // Each cause of a rule's refusal beside those behind it.
    Row {
        next: 1,
        script: "\
snapmirror policy create -policy m -type async-mirror
snapmirror policy add-rule -policy x -snapmirror-label daily -keep 0 -preserve true
snapmirror policy add-rule -policy x -snapmirror-label all_source_snapshots -keep 1
snapmirror policy add-rule -policy m -snapmirror-label daily -keep 0
snapmirror policy add-rule -policy m -snapmirror-label all_source_snapshots -keep 0 -preserve true
snapmirror policy add-rule -policy m -snapmirror-label sm_created -keep 1 -preserve true
snapmirror policy add-rule -policy m -snapmirror-label all_source_snapshots -keep 0
snapmirror policy add-rule -policy m -snapmirror-label all_source_snapshots -keep 251
snapmirror policy add-rule -policy m -snapmirror-label all_source_snapshots -keep 4294967295
snapmirror policy add-rule -policy m -snapmirror-label sm_created -keep 2
snapmirror policy add-rule -policy m -snapmirror-label sm_created -keep 1
snapmirror policy show
",
        printed: "\
1: ok
2: refused NoPolicy name=x
3: refused NoPolicy name=x
4: refused WrongRule
5: refused WrongRule
6: refused WrongRule
7: refused BadKeep
8: refused BadKeep
9: refused BadKeep
10: refused BadKeep
11: refused RuleTaken
12: ok lines=1
  policy m type=async-mirror rules=sm_created:1:false
",
    },
    // The same of a relationship's. The volumes s:c and s:d have other sizes than the first two.
    Row {
        next: 1,
        script: "\
volume create -path s:a -disk 1 -type rw -blocks 2 -physical 6
volume create -path s:b -disk 2 -type dp -blocks 2 -physical 6
volume create -path s:c -disk 3 -type dp -blocks 3 -physical 6
volume create -path s:d -disk 4 -type dp -blocks 2 -physical 5
snapmirror create -source-path s:x -destination-path s:y -policy z
snapmirror create -source-path s:a -destination-path s:y -policy z
snapmirror create -source-path s:a -destination-path s:b -policy z
snapmirror policy create -policy m -type async-mirror
snapmirror create -source-path s:x -destination-path s:b -policy m
snapmirror create -source-path s:a -destination-path s:c -policy m
snapmirror create -source-path s:a -destination-path s:d -policy m
snapmirror create -source-path s:b -destination-path s:b -policy m
snapmirror create -source-path s:a -destination-path s:b -policy m
snapmirror create -source-path s:a -destination-path s:b -policy z
snapmirror create -source-path s:c -destination-path s:b -policy m
snapmirror create -source-path s:b -destination-path s:b -policy m
snapmirror create -source-path s:b -destination-path s:a -policy m
snapmirror show
",
        printed: "\
1: ok volume=0
2: ok volume=1
3: ok volume=2
4: ok volume=3
5: refused NoVolume path=s:x
6: refused NoVolume path=s:y
7: refused NoPolicy name=z
8: ok
9: refused NoVolume path=s:x
10: refused SizeMismatch
11: refused SizeMismatch
12: refused Cycle
13: ok relationship=1
14: refused NoPolicy name=z
15: refused AlreadyDestination relationship=1
16: refused AlreadyDestination relationship=1
17: refused Cycle
18: ok lines=1
  relationship 1 s:a s:b policy=m state=uninitialized status=idle base=- transfer=-
",
    },
    // A chain from s:a over s:b to s:c. What ends at a writable volume is no part of one.
    Row {
        next: 1,
        script: "\
volume create -path s:a -disk 1 -type rw -blocks 2 -physical 6
volume create -path s:b -disk 2 -type dp -blocks 2 -physical 6
volume create -path s:c -disk 3 -type dp -blocks 2 -physical 6
volume create -path s:d -disk 4 -type rw -blocks 2 -physical 6
snapmirror policy create -policy m -type async-mirror
snapmirror create -source-path s:a -destination-path s:b -policy m
snapmirror create -source-path s:b -destination-path s:c -policy m
snapmirror create -source-path s:c -destination-path s:a -policy m
snapmirror create -source-path s:a -destination-path s:c -policy m
snapmirror create -source-path s:c -destination-path s:d -policy m
snapmirror create -source-path s:d -destination-path s:a -policy m
snapmirror show
",
        printed: "\
1: ok volume=0
2: ok volume=1
3: ok volume=2
4: ok volume=3
5: ok
6: ok relationship=1
7: ok relationship=2
8: refused Cycle
9: refused AlreadyDestination relationship=2
10: ok relationship=3
11: ok relationship=4
12: ok lines=4
  relationship 1 s:a s:b policy=m state=uninitialized status=idle base=- transfer=-
  relationship 2 s:b s:c policy=m state=uninitialized status=idle base=- transfer=-
  relationship 3 s:c s:d policy=m state=broken-off status=idle base=- transfer=-
  relationship 4 s:d s:a policy=m state=broken-off status=idle base=- transfer=-
",
    },
    // The greatest number is given to no relationship.
    Row {
        next: 4_294_967_294,
        script: "\
volume create -path s:a -disk 1 -type rw -blocks 2 -physical 6
volume create -path s:b -disk 2 -type dp -blocks 2 -physical 6
volume create -path s:c -disk 3 -type dp -blocks 2 -physical 6
volume create -path s:d -disk 4 -type dp -blocks 2 -physical 5
snapmirror policy create -policy m -type async-mirror
snapmirror create -source-path s:a -destination-path s:b -policy m
snapmirror create -source-path s:a -destination-path s:b -policy m
snapmirror create -source-path s:a -destination-path s:d -policy m
snapmirror create -source-path s:b -destination-path s:a -policy m
snapmirror create -source-path s:a -destination-path s:c -policy m
",
        printed: "\
1: ok volume=0
2: ok volume=1
3: ok volume=2
4: ok volume=3
5: ok
6: ok relationship=4294967294
7: refused AlreadyDestination relationship=4294967294
8: refused SizeMismatch
9: refused Cycle
10: refused Full what=relationships
",
    },
];

// The record of a catalogue that is empty but for the number of its next relationship.
fn record(next: u32) -> [u8; 44] {
    let mut bytes =
        *b"SMCATL01\0\0\0\x20\0\0\0\0\0\0\0\0\0\0\0\x01\0\0\0\0\0\0\0\x01\0\0\0\0\0\0\0\0\0\0\0\0";
    let [first, second, third, fourth] = next.to_be_bytes();
    bytes[20] = first;
    bytes[21] = second;
    bytes[22] = third;
    bytes[23] = fourth;
    bytes
}

// A disk with that record in its first slot.
fn catalog_disk(alloc: Global, next: u32) -> Result<MemDisk, Fail> {
    let mut disk = MemDisk::new(alloc, SLOTS_END)?;
    if disk.len() != SLOTS_END {
        return Err(OpenKind::Short)?;
    }
    disk.write(4096, &record(next))?;
    disk.sync()?;
    Ok(disk)
}

// Behind it four disks, each long enough for a volume of 512 physical blocks.
fn disks_of(alloc: Global, next: u32) -> Result<Vec<MemDisk>, Fail> {
    let mut disks = Vec::new(alloc);
    disks.push(catalog_disk(alloc, next)?)?;
    for _ in 0..4u32 {
        disks.push(MemDisk::new(alloc, 27_824_128)?)?;
    }
    Ok(disks)
}

#[test]
fn refusals_come_in_their_order(rt: HostRuntime) -> Result<(), Fail> {
    for row in ROWS {
        let told = printed(rt.alloc(), disks_of(rt.alloc(), row.next)?, row.script)?;
        assert_eq!(rt; told, Some(String::from_str(rt.alloc(), row.printed)?));
    }
    Ok(())
}

// A policy of each number, and behind them the first again and one more.
fn many_policies(alloc: Global, count: u32) -> Result<String, Fail> {
    let mut script = String::new(alloc);
    for number in 0..count {
        write!(
            script,
            "snapmirror policy create -policy p{number} -type async-mirror\n"
        )?;
    }
    script.push_str("snapmirror policy create -policy p0 -type async-mirror\n")?;
    script.push_str("snapmirror policy create -policy one_more -type async-mirror\n")?;
    Ok(script)
}

fn answers_to_many(alloc: Global, count: u32) -> Result<String, Fail> {
    let mut text = String::new(alloc);
    for number in 1..=count {
        write!(text, "{number}: ok\n")?;
    }
    write!(text, "{}: refused NameTaken\n", count.wrapping_add(1))?;
    write!(
        text,
        "{}: refused Full what=policies\n",
        count.wrapping_add(2)
    )?;
    Ok(text)
}

#[test]
fn there_are_at_most_32_policies(rt: HostRuntime) -> Result<(), Fail> {
    let script = many_policies(rt.alloc(), 32)?;
    let told = printed(rt.alloc(), disks_of(rt.alloc(), 1)?, script.as_str())?;
    assert_eq!(rt; told, Some(answers_to_many(rt.alloc(), 32)?));
    Ok(())
}
