// Refusals of resyncs: of two causes that stand together the earlier is answered.
use crate::playing::{Course, play_courses};
use crate::starts::{MIRRORED_ON, SMALL_MIRRORED, VAULTED};
use std::test::Fail;

const COURSES: &[Course] = &[
    Course {
        // The destination is still writable, and a transfer of it runs.
        name: "a resync bars what would end it",
        start: SMALL_MIRRORED,
        steps: &[
            "quiesce s:b = ok",
            "break s:b = ok",
            "resync s:b = ok transfer=2 common=0.3 legs=1",
            "relationships = ok lines=1\n  relationship 1 s:a s:b policy=m state=broken-off status=transferring base=0.3 transfer=2:running",
            "resync s:b = refused Transferring",
            "release s:a s:b = refused Transferring",
            "delete s:b = refused Transferring",
            "break s:b = refused Writable",
            "abort s:b = ok checkpoint=0",
            "resync s:b = ok transfer=3 common=0.3 legs=1",
        ],
    },
    Course {
        // A relationship each way between s:p and s:q, while s:p is writable.
        name: "a resync is refused in order",
        start: &[],
        steps: &[
            "volume s:p 1 rw 2 4 = ok volume=0",
            "volume s:q 2 dp 2 4 = ok volume=1",
            "policy m mirror = ok",
            "policy v vault = ok",
            "relate s:q s:p m = ok relationship=1",
            "relate s:p s:q v = ok relationship=2",
            "resync s:p = refused OtherLayout",
            "delete s:q = ok",
            "delete s:p = ok",
            "resync s:p = refused NoRelation path=s:p",
            "relate s:q s:p v = ok relationship=3",
            "resync s:p = refused NoCommon",
            "relate s:p s:q v = ok relationship=4",
            "resync s:p = refused Cycle",
        ],
    },
    Course {
        // The middle of a cascade was written, and its own snapshot is a base further on.
        name: "a resync keeps what is needed downstream",
        start: MIRRORED_ON,
        steps: &[
            "break s:b = ok",
            "snapshot s:b y - = ok id=1.2",
            "update s:c = ok transfer=3 legs=1",
            "settle = settled",
            "resync s:b = refused HeldDownstream id=1.7 relationship=2",
            "set next-transfer 4611686018427387904 = set",
            "resync s:b = refused HeldDownstream id=1.7 relationship=2",
            "update s:c = refused Full what=transfers",
        ],
    },
    Course {
        // A vault that was resynced has block numbers of a new family, which its mirror does not follow.
        name: "a mirror of another family is not updated",
        start: &[
            &[
                "volume s:a 1 rw 2 4 = ok volume=0",
                "volume s:b 2 dp 2 4 = ok volume=1",
                "volume s:c 3 dp 2 4 = ok volume=2",
            ],
            VAULTED,
        ],
        steps: &[
            "update s:c = ok nothing to transfer",
            "break s:b = ok",
            "resync s:b = ok transfer=3 common=0.2 legs=0",
            "work 0 = revert relationship=1 dropped=0",
            "work 0 = settle relationship=1 base=0.2 ended",
            "work 0 = idle",
            "set next-transfer 4611686018427387904 = set",
            "quiesce s:c = ok",
            "update s:c = refused Quiesced",
            "resume s:c = ok",
            "update s:c = refused OtherLayout",
        ],
    },
];

#[test]
fn courses(rt: HostRuntime) -> Result<(), Fail> {
    play_courses(&rt, COURSES)
}
