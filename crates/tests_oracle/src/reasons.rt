// Why transfers stop.
use crate::playing::{Course, play_courses};
use crate::starts::{CASCADE, VAULT_AND_MIRROR};
use std::test::Fail;

const COURSES: &[Course] = &[
    Course {
        // A client's snapshot of the middle is on its way to the end when the middle is to go back.
        name: "a revert stops at what is needed downstream",
        start: &[],
        steps: &[
            "volume s:a 1 rw 2 6 = ok volume=0",
            "volume s:b 2 dp 2 6 = ok volume=1",
            "volume s:c 3 dp 2 6 = ok volume=2",
            "policy m mirror = ok",
            "policy w mirror = ok",
            "rule w all_source_snapshots 1 keep = ok",
            "relate s:a s:b m = ok relationship=1",
            "relate s:b s:c w = ok relationship=2",
            "initialize s:b = ok transfer=1 legs=1",
            "settle = settled",
            "initialize s:c = ok transfer=2 legs=1",
            "settle = settled",
            "break s:b = ok",
            "snapshot s:b y - = ok id=1.2",
            "resync s:b = ok transfer=3 common=0.3 legs=1",
            "update s:c = ok transfer=4 legs=2",
            "work 0 = interrupted relationship=1 reason=HeldDownstream id=1.2 by=2",
            "relationships = ok lines=2\n  relationship 1 s:a s:b policy=m state=broken-off status=idle base=0.3 transfer=3:HeldDownstream\n  relationship 2 s:b s:c policy=w state=snapmirrored status=transferring base=0.3 transfer=4:running",
            "settle = settled",
            "resync s:b = refused HeldDownstream id=1.9 relationship=2",
        ],
    },
    Course {
        // While the middle is broken off, the source lets a snapshot go that the middle still needs.
        name: "a prune stops at what is needed downstream",
        start: CASCADE,
        steps: &[
            "write s:a 0 2 = ok",
            "update s:b = ok transfer=3 legs=1",
            "settle = settled",
            "break s:b = ok",
            "work 0 = tidy volume=0 dropped=1",
            "work 0 = idle",
            "resync s:b = ok transfer=4 common=0.7 legs=1",
            "work 0 = revert relationship=1 dropped=0",
            "work 0 = prepare relationship=1 id=0.9",
            "work 0 = interrupted relationship=1 reason=HeldDownstream id=0.3 by=2",
            "work 0 = idle",
        ],
    },
    Course {
        // The middle was writable when the transfer was started, and is not when its snapshot is to be taken.
        name: "a source that became a destination stops its transfer",
        start: CASCADE,
        steps: &[
            "break s:b = ok",
            "update s:c = ok transfer=3 legs=1",
            "resync s:b = ok transfer=4 common=0.3 legs=1",
            "work 0 = revert relationship=1 dropped=0",
            "work 0 = prepare relationship=1 id=0.9",
            "work 0 = prune relationship=1 dropped=0",
            "work 0 = publish relationship=1 id=0.9 dropped=0",
            "work 0 = settle relationship=1 base=0.9",
            "work 0 = interrupted relationship=2 reason=SourceReadOnly",
            "work 0 = idle",
            "relationships = ok lines=2\n  relationship 1 s:a s:b policy=m state=snapmirrored status=idle base=0.9 transfer=-\n  relationship 2 s:b s:c policy=m state=snapmirrored status=idle base=0.3 transfer=3:SourceReadOnly",
        ],
    },
    Course {
        // The vault is resynced before its mirror is pruned.
        name: "another family stops a prune",
        start: VAULT_AND_MIRROR,
        steps: &[
            "break s:b = ok",
            "resync s:b = ok transfer=5 common=0.4 legs=0",
            "work 0 = revert relationship=1 dropped=0",
            "work 0 = settle relationship=1 base=0.4 ended",
            "update s:c = refused Transferring",
            "work 0 = interrupted relationship=2 reason=OtherLayout",
            "work 0 = idle",
            "update s:c = refused OtherLayout",
        ],
    },
    Course {
        // The vault is resynced when all blocks have landed at its mirror.
        name: "another family stops a publication",
        start: VAULT_AND_MIRROR,
        steps: &[
            "work 0 = prune relationship=2 dropped=0",
            "work 0 = ship relationship=2 index=0 cost=1",
            "break s:b = ok",
            "resync s:b = ok transfer=5 common=0.4 legs=0",
            "work 0 = revert relationship=1 dropped=0",
            "work 0 = settle relationship=1 base=0.4 ended",
            "work 0 = interrupted relationship=2 reason=OtherLayout",
            "work 0 = idle",
        ],
    },
];

#[test]
fn courses(rt: HostRuntime) -> Result<(), Fail> {
    play_courses(&rt, COURSES)
}
