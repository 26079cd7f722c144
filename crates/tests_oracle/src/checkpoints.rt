// Transfers of many blocks: checkpoints and how far may be sent at once.
use crate::playing::{Course, play_courses};
use crate::starts::MIRROR;
use std::test::Fail;

const COURSES: &[Course] = &[
    Course {
        name: "a transfer is checkpointed aborted and resumed",
        start: MIRROR,
        steps: &[
            "each 0 130 write s:a # # = ok",
            "initialize s:b = ok transfer=1 legs=1",
            "steps 67 = checkpoint relationship=1 prefix=64",
            "steps 36 = ship relationship=1 index=99 cost=130",
            "abort s:b = ok checkpoint=100",
            "initialize s:b = ok transfer=1 resumed=100",
            "work 0 = ship relationship=1 index=100 cost=130",
            "discard s:b = ok ended",
            "initialize s:b = ok transfer=2 legs=1",
            "steps 3 = ship relationship=1 index=0 cost=130",
        ],
    },
    Course {
        // Of 66 blocks the first 64 may be sent at once, and a restart goes on behind them.
        name: "a restart keeps the checkpoint",
        start: &[],
        steps: &[
            "volume s:a 1 rw 66 132 = ok volume=0",
            "volume s:b 2 dp 66 132 = ok volume=1",
            "policy m mirror = ok",
            "relate s:a s:b m = ok relationship=1",
            "each 0 66 write s:a # # = ok",
            "initialize s:b = ok transfer=1 legs=1",
            "steps 2 = prune relationship=1 dropped=0",
            "work 130 = ship relationship=1 index=2 cost=66",
            "work 0 = ship relationship=1 index=0 cost=66",
            "work 0 = ship relationship=1 index=1 cost=66",
            "work 0 = ship relationship=1 index=3 cost=66",
            "steps 61 = checkpoint relationship=1 prefix=64",
            "work 0 = ship relationship=1 index=64 cost=66",
            "restart = ok",
            "update s:b = refused Uninitialized",
            "initialize s:b = ok transfer=1 resumed=64",
            "work 0 = ship relationship=1 index=64 cost=66",
            "work 0 = ship relationship=1 index=65 cost=66",
            "work 0 = publish relationship=1 id=0.3 dropped=0",
        ],
    },
    Course {
        // Where all blocks have landed at 64, the leg is published.
        name: "a leg of 64 blocks has no checkpoint",
        start: &[],
        steps: &[
            "volume s:a 1 rw 64 64 = ok volume=0",
            "volume s:b 2 dp 64 64 = ok volume=1",
            "policy m mirror = ok",
            "relate s:a s:b m = ok relationship=1",
            "each 0 64 write s:a # # = ok",
            "initialize s:b = ok transfer=1 legs=1",
            "steps 66 = ship relationship=1 index=63 cost=64",
            "work 0 = publish relationship=1 id=0.3 dropped=0",
        ],
    },
];

#[test]
fn courses(rt: HostRuntime) -> Result<(), Fail> {
    play_courses(&rt, COURSES)
}
