// Restarts and consistency points.
use crate::playing::{Course, play_courses};
use crate::starts::MIRRORED;
use std::test::Fail;

const COURSES: &[Course] = &[
    Course {
        name: "a restart after a publication settles it",
        start: MIRRORED,
        steps: &[
            "write s:a 0 2 = ok",
            "update s:b = ok transfer=2 legs=1",
            "steps 4 = publish relationship=1 id=0.5 dropped=0",
            "restart = ok",
            "read s:b - 0 = ok fill=2",
            "unsnapshot s:a snapmirror.1.1 = refused Held relationship=1",
            "unsnapshot s:a snapmirror.1.2 = refused Held relationship=1",
            "update s:b = ok transfer=2 resumed=0",
            "work 0 = settle relationship=1 base=0.5",
            "work 0 = tidy volume=0 dropped=1",
            "work 0 = idle",
        ],
    },
    Course {
        // What was written since the last consistency point is lost.
        name: "a restart goes back to the consistency point",
        start: &[],
        steps: &[
            "volume s:a 1 rw 4 8 = ok volume=0",
            "write s:a 0 1 = ok",
            "cp s:a = ok",
            "write s:a 0 2 = ok",
            "restart = ok",
            "read s:a - 0 = ok fill=1",
        ],
    },
    Course {
        // A block that a consistency point needs is not free, though the active image has another.
        name: "a write leaves what a restart needs",
        start: &[],
        steps: &[
            "volume s:a 1 rw 1 2 = ok volume=0",
            "write s:a 0 5 = ok",
            "write s:a 0 6 = ok",
            "write s:a 0 7 = ok",
            "cp s:a = ok",
            "write s:a 0 8 = ok",
            "volumes = ok lines=1\n  volume 0 s:a type=rw blocks=1 physical=2 used=2 snapshots=0",
            "write s:a 0 9 = refused NoSpace",
            "cp s:a = ok",
            "write s:a 0 9 = ok",
            "restart = ok",
            "read s:a - 0 = ok fill=8",
        ],
    },
];

#[test]
fn courses(rt: HostRuntime) -> Result<(), Fail> {
    play_courses(&rt, COURSES)
}
