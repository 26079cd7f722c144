// A destination from its first image on, against the plain assignments.
ghost use Rattle.std.specs.Prelude.{◌≡◌, ◌≤◌, true, [], OnOk};
ghost use Rattle.sm_defs.specs.Volume.{new_volume};

use crate::asking::full;
use crate::making::{boxed, created, disk_of, reopened};
use crate::playing::{Line, first_wrong};
use sm_base::{Ident, Kind, SnapName, VolNo};
use sm_disk::Disk;
use sm_memdisk::Image;
use sm_volume::{Head, Volume, VolumeFault};
use std::alloc::Global;
use std::test::Fail;

// The image that landed, with 5 and 6 at 1 and 2.
const LANDED: Ident = Ident { origin: 7, seq: 3 };

const WRITTEN: &[Line] = &[
    "fetch 1 5 = done: dp 9 1 6 2: 5 6, 7 3: 5 6",
    "fetch 2 6 = done: dp 9 1 6 2: 5 6, 7 3: 5 6",
    "write 0 1 = ReadOnly: dp 9 1 6 2: 5 6, 7 3: 5 6",
    "cp = ReadOnly: dp 9 1 6 2: 5 6, 7 3: 5 6",
    "snapshot 0 2 s1 = ReadOnly: dp 9 1 6 2: 5 6, 7 3: 5 6",
    "make-writable = done: rw 9 1 6 2: 5 6, 7 3: 5 6",
    "write 2 1 = BadBlock: rw 9 1 6 2: 5 6, 7 3: 5 6",
    "write 0 1 = done: rw 9 1 6 3: 1 6, 7 3: 5 6",
    "restart = before: rw 9 1 6 2: 5 6, 7 3: 5 6",
    "write 0 2 = done: rw 9 1 6 3: 2 6, 7 3: 5 6",
    "cp = done: rw 9 1 6 3: 2 6, 7 3: 5 6",
    "write 1 3 = done: rw 9 1 6 4: 2 3, 7 3: 5 6",
    "snapshot 0 2 s1 = done: rw 9 2 6 4: 2 3, 7 3: 5 6, 0 2: 2 3",
    "write 0 4 = done: rw 9 2 6 5: 4 3, 7 3: 5 6, 0 2: 2 3",
    "snapshot 0 4 s1 = NameTaken: rw 9 2 6 5: 4 3, 7 3: 5 6, 0 2: 2 3",
    "snapshot 0 4 s2 = done: rw 9 3 6 5: 4 3, 7 3: 5 6, 0 2: 2 3, 0 4: 4 3",
    "write 1 7 = done: rw 9 3 6 6: 4 7, 7 3: 5 6, 0 2: 2 3, 0 4: 4 3",
    "write 1 8 = NoSpace: rw 9 3 6 6: 4 7, 7 3: 5 6, 0 2: 2 3, 0 4: 4 3",
    "remove 5 2 = NoSnapshot: rw 9 3 6 6: 4 7, 7 3: 5 6, 0 2: 2 3, 0 4: 4 3",
    "remove 0 2 = done: rw 9 3 6 5: 4 7, 7 3: 5 6, 0 4: 4 3",
];

// The volume that is found on the disk then.
const OPENED: &[Line] = &[
    "sync = done: rw 9 3 6 4: 4 3, 7 3: 5 6, 0 4: 4 3",
    "revert 0 2 keep-newer 11 = NoSnapshot: rw 9 3 6 4: 4 3, 7 3: 5 6, 0 4: 4 3",
    "revert 0 4 keep-newer 11 = done: dp 11 3 6 4: 4 3, 7 3: 5 6, 0 4: 4 3",
    "revert 7 3 drop-newer 12 = done: dp 12 3 6 2: 5 6, 7 3: 5 6",
    "write 1 9 = ReadOnly: dp 12 3 6 2: 5 6, 7 3: 5 6",
    "make-writable = done: rw 12 3 6 2: 5 6, 7 3: 5 6",
    "write 1 9 = done: rw 12 3 6 3: 5 9, 7 3: 5 6",
];

// Lands a block of this byte at a number of a new destination.
#[tactic(auto, using(crate::proofs::PairFits::free))]
fn land<D: Disk>(volume: &mut Volume<D>, number: u32, fill: u8) -> Result<(), VolumeFault>
    requires up { volume.old.up ≡ true }
    requires volume { volume.old.volume ≡ new_volume [] 0 Kind.Dp 0 2 6 }
    requires from_one { 1 ≤ number }
    requires within { number ≤ 6 }
    ensures up { OnOk result (volume.new.up ≡ true) }
    ensures volume { OnOk result (volume.new.volume ≡ volume.old.volume) }
{
    volume.land(number, &full(fill))
}

// Takes over the image of what landed at 1 and 2.
#[tactic(auto, using(crate::proofs::PairFits::pair_fits))]
fn adopt<D: Disk>(alloc: Global, volume: &mut Volume<D>) -> Result<(), VolumeFault>
    requires up { volume.old.up ≡ true }
    requires volume { volume.old.volume ≡ new_volume [] 0 Kind.Dp 0 2 6 }
{
    let Ok(map) = [1, 2].to_vec(alloc) else {
        return Err(VolumeFault::NoMemory);
    };
    let Ok(name) = SnapName::read(alloc, b"landed") else {
        return Err(VolumeFault::NoMemory);
    };
    let head = Head {
        ident: LANDED,
        name,
        label: None,
        time: 0,
        made: 1,
    };
    volume.adopt(alloc, head, map, 9, &[])
}

// Takes over 5 and 6.
fn take_over<D: Disk>(alloc: Global, volume: &mut Volume<D>) -> Result<(), VolumeFault>
    requires up { volume.old.up ≡ true }
    requires volume { volume.old.volume ≡ new_volume [] 0 Kind.Dp 0 2 6 }
{
    land(volume, 1, 5)?;
    land(volume, 2, 6)?;
    adopt(alloc, volume)
}

// A destination that has taken them over.
fn destination<D: Disk + Drop>(alloc: Global, disk: D) -> Result<Box<Volume<D>>, VolumeFault> {
    let mut volume = created(alloc, disk, Kind::Dp, 2, 6)?;
    take_over(alloc, &mut volume)?;
    boxed(alloc, volume)
}

// The first line that is wrong, before an opening and behind it.
fn wrong_line<D: Disk + Drop>(alloc: Global, disk: D) -> Result<Option<Line>, Fail> {
    let mut volume = destination(alloc, disk)?;
    if let Some(line) = first_wrong(alloc, &mut volume, WRITTEN)? {
        return Ok(Some(line));
    }
    let mut volume = reopened(alloc, volume, VolNo(0))?;
    first_wrong(alloc, &mut volume, OPENED)
}

#[test]
fn each_call_makes_the_plain_assignment(rt: HostRuntime) -> Result<(), Fail> {
    let disk = disk_of(rt.alloc(), 0, Image::Old)?;
    assert_eq!(rt; wrong_line(rt.alloc(), disk)?, None);
    Ok(())
}
