// Courses of a volume of one block and two physical ones.
use crate::making::{disk_of, reopened, small};
use crate::playing::{Line, first_wrong};
use crate::telling::text_of;
use sm_base::VolNo;
use sm_disk::Disk;
use sm_memdisk::Image;
use sm_volume::VolumeFault;
use std::alloc::Global;
use std::test::Fail;

// 7 and 8 are stable one after the other, and 9 is written over 8: of the two physical blocks a restart
// needs one, so a second write behind a consistency point finds no space.
const WRITTEN_OVER: &[Line] = &[
    "write 0 7 = done: rw 0 1 2 1: 7",
    "cp = done: rw 0 1 2 1: 7",
    "fetch 1 7 = done: rw 0 1 2 1: 7",
    "write 0 8 = done: rw 0 1 2 2: 8",
    "write 0 9 = NoSpace: rw 0 1 2 2: 8",
    "cp = done: rw 0 1 2 1: 8",
    "write 0 9 = done: rw 0 1 2 2: 9",
    "restart = before: rw 0 1 2 1: 8",
];

// A snapshot keeps the block that is written again behind it.
const KEPT: &[Line] = &[
    "write 0 7 = done: rw 0 1 2 1: 7",
    "snapshot 0 2 s1 = done: rw 0 2 2 1: 7, 0 2: 7",
    "write 0 8 = done: rw 0 2 2 2: 8, 0 2: 7",
    "restart = before: rw 0 2 2 1: 7, 0 2: 7",
];

// A write that no consistency point comes behind.
const LOST: &[Line] = &[
    "write 0 9 = done: rw 0 1 2 1: 9",
    "sync = done: rw 0 1 2 1: 9",
    "restart = before: rw 0 1 2 0: 0",
];

// The stable image holds 7, and the disk stops the commit of 8.
const TORN: &[Line] = &[
    "write 0 7 = done: rw 0 1 2 1: 7",
    "cp = done: rw 0 1 2 1: 7",
    "write 0 8 = done: rw 0 1 2 2: 8",
    "cp = DiskFault: down",
];

const BEFORE: &[Line] = &["restart = before: rw 0 1 2 1: 7"];

const AFTER: &[Line] = &["restart = after: rw 0 1 2 1: 8"];

// The first line of two lists that is wrong; the text of the volume that is opened anew behind them, where
// it tells anything else than before.
fn wrong_line<D: Disk + Drop>(
    alloc: Global,
    disk: D,
    lines: &[Line],
    behind: &[Line],
) -> Result<Option<Line>, Fail> {
    let mut volume = small(alloc, disk)?;
    if let Some(line) = first_wrong(alloc, &mut volume, lines)? {
        return Ok(Some(line));
    }
    if let Some(line) = first_wrong(alloc, &mut volume, behind)? {
        return Ok(Some(line));
    }
    let told = text_of(alloc, &mut volume)?;
    let mut found = reopened(alloc, volume, VolNo(0))?;
    if text_of(alloc, &mut found)?.as_str() != told.as_str() {
        return Ok(Some("opened anew"));
    }
    Ok(None)
}

const IMAGES: [Image; 4] = [Image::Old, Image::New, Image::Fill(0), Image::Fill(255)];

#[test]
fn a_small_volume_keeps_what_is_stable(rt: HostRuntime) -> Result<(), Fail> {
    for image in IMAGES {
        for lines in [WRITTEN_OVER, KEPT, LOST] {
            let disk = disk_of(rt.alloc(), 0, image)?;
            assert_eq!(rt; wrong_line(rt.alloc(), disk, lines, &[])?, None);
        }
    }
    Ok(())
}

// The call at which the disk stops, what a restart leaves of what is pending, and what it answers. Creating
// takes four calls of the disk, as each commit does, and a write and a look at the block take one each: so
// the commit of 8 has the calls 14 to 17. The third of a commit writes the selector.
const STOPS: [(u64, Image, &[Line]); 8] = [
    (14, Image::Old, BEFORE),
    (14, Image::New, BEFORE),
    (15, Image::Old, BEFORE),
    (15, Image::New, BEFORE),
    (16, Image::Old, BEFORE),
    (16, Image::New, AFTER),
    (17, Image::Old, BEFORE),
    (17, Image::New, AFTER),
];

#[test]
fn a_restart_answers_which_state_is_selected(rt: HostRuntime) -> Result<(), Fail> {
    for (stops, image, behind) in STOPS {
        let disk = disk_of(rt.alloc(), stops, image)?;
        let wrong = wrong_line(rt.alloc(), disk, TORN, behind)?;
        assert_eq!(rt; wrong, None, "stopped from {stops}");
    }
    Ok(())
}

// The fault of opening a small volume's disk as that of another number.
fn fault_of_another<D: Disk + Drop>(alloc: Global, disk: D) -> Option<VolumeFault> {
    let volume = small(alloc, disk).ok()?;
    reopened(alloc, volume, VolNo(1)).err()
}

#[test]
fn another_volumes_disk(rt: HostRuntime) -> Result<(), Fail> {
    let disk = disk_of(rt.alloc(), 0, Image::Old)?;
    let fault = fault_of_another(rt.alloc(), disk);
    assert_eq!(rt; fault, Some(VolumeFault::OtherNumber { found: 0 }));
    Ok(())
}
