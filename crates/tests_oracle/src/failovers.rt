// Mirrors: a failover and its way back, cascades, halves of relationships.
use crate::playing::{Course, play_courses};
use crate::starts::{MIRROR, MIRRORED, MIRRORS, SENT, SENT_ON};
use std::test::Fail;

const COURSES: &[Course] = &[
    Course {
        name: "the source follows after a failover",
        start: MIRRORED,
        steps: &[
            "write s:a 0 2 = ok",
            "break s:b = ok",
            "write s:b 0 3 = ok",
            "snapshot s:b y - = ok id=1.2",
            "relate s:b s:a m = ok relationship=2",
            "snapshot s:a z - = ok id=0.2",
            "resync s:a = ok transfer=2 common=0.3 legs=1",
            "work 0 = revert relationship=2 dropped=1",
            "work 0 = prepare relationship=2 id=1.5",
            "work 0 = prune relationship=2 dropped=0",
            "work 0 = ship relationship=2 index=0 cost=1",
            "work 0 = publish relationship=2 id=1.5 dropped=0",
            "work 0 = settle relationship=2 base=1.5",
            "work 0 = idle",
            "read s:a - 0 = ok fill=3",
        ],
    },
    Course {
        name: "a resync is refused by state family and list",
        start: MIRROR,
        steps: &[
            "volume s:d 3 rw 256 512 = ok volume=2",
            "policy v vault = ok",
            "relate s:a s:d v = ok relationship=2",
            "resync s:b = refused NotBroken",
            "resync s:d = refused NoCommon",
            "delete s:d = ok",
            "relate s:a s:d m = ok relationship=3",
            "resync s:d = refused OtherLayout",
            "resync s:x = refused NoVolume path=s:x",
            "relate s:b s:a m = refused Cycle",
        ],
    },
    Course {
        name: "a cascade holds its bases upstream",
        start: &[
            &[
                "volume s:a 1 rw 8 32 = ok volume=0",
                "volume s:b 2 dp 8 32 = ok volume=1",
                "volume s:c 3 dp 8 32 = ok volume=2",
            ],
            MIRRORS,
            SENT,
            SENT_ON,
        ],
        steps: &[
            "write s:a 0 2 = ok",
            "update s:b = ok transfer=3 legs=1",
            "settle = settled",
            "unsnapshot s:a snapmirror.1.1 = refused Held relationship=2",
            "break s:c = ok",
            "release s:b s:c = ok",
            "work 0 = tidy volume=0 dropped=1",
            "work 0 = idle",
        ],
    },
    Course {
        name: "a quiesced mirror starts nothing",
        start: MIRRORED,
        steps: &[
            "quiesce s:b = ok",
            "update s:b = refused Quiesced",
            "resume s:b = ok",
            "update s:b = ok transfer=2 legs=1",
            "update s:b = refused Transferring",
            "break s:b = refused Transferring",
        ],
    },
    Course {
        // Of two relationships between the volumes, the one without its destination half is released first.
        name: "a half that is left is released first",
        start: MIRRORED,
        steps: &[
            "delete s:b = ok",
            "unsnapshot s:a snapmirror.1.1 = refused Held relationship=1",
            "relate s:a s:b m = ok relationship=2",
            "release s:a s:b = ok",
            "relationships = ok lines=1\n  relationship 2 s:a s:b policy=m state=snapmirrored status=idle base=- transfer=-",
            "release s:a s:b = refused Active",
            "work 0 = tidy volume=0 dropped=1",
            "break s:b = ok",
            "resync s:b = refused NoCommon",
        ],
    },
    Course {
        name: "a resync takes the source half again",
        start: MIRRORED,
        steps: &[
            "break s:b = ok",
            "release s:a s:b = ok",
            "release s:a s:b = refused NoRelation path=s:b",
            "resync s:b = ok transfer=2 common=0.3 legs=1",
            "unsnapshot s:a snapmirror.1.1 = refused Held relationship=1",
            "release s:a s:b = refused Transferring",
        ],
    },
];

#[test]
fn courses(rt: HostRuntime) -> Result<(), Fail> {
    play_courses(&rt, COURSES)
}
