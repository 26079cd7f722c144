// Refusals to clients of volumes: of two causes that stand together the earlier is answered.
use crate::playing::{Course, play_courses};
use crate::starts::{MIRRORED_ON, SMALL_MIRRORED};
use std::test::Fail;

const COURSES: &[Course] = &[
    Course {
        // Three disks that are one byte too short for two physical blocks.
        name: "a new volume needs a name and a disk",
        start: &[],
        steps: &[
            "set disks 3 25735167 = set",
            "volume s:a 1 rw 1 2 = refused DiskSmall need=25735168 len=25735167",
            "volume s:a 1 rw 1 1 = ok volume=0",
            "volume s:a 0 rw 1 1 = refused NameTaken",
            "volume s:b 0 rw 1 1 = refused NoDisk disk=0",
            "volume s:b 3 rw 1 1 = refused NoDisk disk=3",
            "volume s:b 1 rw 1 2 = refused DiskTaken",
            "volume s:b 2 dp 1 1 = ok volume=1",
        ],
    },
    Course {
        name: "clients are refused in order",
        start: SMALL_MIRRORED,
        steps: &[
            "write s:x 2 1 = refused NoVolume path=s:x",
            "write s:b 2 1 = refused ReadOnly",
            "write s:a 2 1 = refused BadBlock",
            "write s:a 4294967296 1 = refused BadBlock",
            "read s:x y 2 = refused NoVolume path=s:x",
            "read s:a y 2 = refused NoSnapshot name=y",
            "read s:a snapmirror.1.1 2 = refused BadBlock",
            "read s:a - 2 = refused BadBlock",
            "cp s:x = refused NoVolume path=s:x",
            "cp s:b = refused ReadOnly",
            "clock 10 = ok",
            "clock 9 = refused ClockBack now=10",
            "clock 10 = ok",
        ],
    },
    Course {
        name: "snapshots are refused in order",
        start: SMALL_MIRRORED,
        steps: &[
            "snapshot s:x y - = refused NoVolume path=s:x",
            "snapshot s:b snapmirror.1.1 - = refused ReadOnly",
            "snapshot s:a snapmirror.1.1 - = refused NameTaken",
            "unsnapshot s:x y = refused NoVolume path=s:x",
            "unsnapshot s:b y = refused NoSnapshot name=y",
            "unsnapshot s:b snapmirror.1.1 = refused ReadOnly",
            "unsnapshot s:a snapmirror.1.1 = refused Held relationship=1",
            "snapshots s:x = refused NoVolume path=s:x",
        ],
    },
    Course {
        // Of two relationships that need a snapshot, the lowest is named.
        name: "the lowest holder is named",
        start: MIRRORED_ON,
        steps: &[
            "unsnapshot s:a snapmirror.1.1 = refused Held relationship=1",
            "relate s:c s:a m = refused Cycle",
        ],
    },
];

#[test]
fn courses(rt: HostRuntime) -> Result<(), Fail> {
    play_courses(&rt, COURSES)
}
