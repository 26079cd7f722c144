// Mirrors: what an update sends, and what is held.
use crate::playing::{Course, play_courses};
use crate::starts::{MIRROR, MIRRORED};
use std::test::Fail;

const COURSES: &[Course] = &[
    Course {
        name: "an update without changes sends no block",
        start: MIRROR,
        steps: &[
            "write s:a 0 5 = ok",
            "write s:a 1 6 = ok",
            "initialize s:b = ok transfer=1 legs=1",
            "settle = settled",
            "update s:b = ok transfer=2 legs=1",
            "work 0 = prepare relationship=1 id=0.5",
            "work 0 = prune relationship=1 dropped=0",
            "work 0 = publish relationship=1 id=0.5 dropped=0",
            "work 0 = settle relationship=1 base=0.5",
            "work 0 = tidy volume=0 dropped=1",
            "work 0 = idle",
            "head = report volumes=2 relationships=1 policies=1 clock=0",
            "volume-line 0 = volume 0 s:a type=rw blocks=256 physical=512 used=2 snapshots=1",
            "active-line 0 = active 0 sha256=50774eee222c374f2be3cbb35f904f553f2c61ff12ef571558f243c81ce7848e",
            "snapshot-line 0 0 = snapshot 0 snapmirror.1.2 id=0.5 label=- time=0 made=1 sha256=50774eee222c374f2be3cbb35f904f553f2c61ff12ef571558f243c81ce7848e",
            "volume-line 1 = volume 1 s:b type=dp blocks=256 physical=512 used=2 snapshots=2",
            "active-line 1 = active 1 sha256=50774eee222c374f2be3cbb35f904f553f2c61ff12ef571558f243c81ce7848e",
            "snapshot-line 1 0 = snapshot 1 snapmirror.1.1 id=0.3 label=- time=0 made=1 sha256=50774eee222c374f2be3cbb35f904f553f2c61ff12ef571558f243c81ce7848e",
            "snapshot-line 1 1 = snapshot 1 snapmirror.1.2 id=0.5 label=- time=0 made=1 sha256=50774eee222c374f2be3cbb35f904f553f2c61ff12ef571558f243c81ce7848e",
            "relationship-line 1 = relationship 1 s:a s:b policy=m state=snapmirrored status=idle base=0.5 transfer=-",
        ],
    },
    Course {
        name: "a block written twice is sent once",
        start: MIRRORED,
        steps: &[
            "write s:a 0 2 = ok",
            "write s:a 0 3 = ok",
            "update s:b = ok transfer=2 legs=1",
            "work 0 = prepare relationship=1 id=0.5",
            "work 0 = prune relationship=1 dropped=0",
            "work 0 = ship relationship=1 index=0 cost=1",
            "settle = settled",
            "read s:b - 0 = ok fill=3",
        ],
    },
    Course {
        name: "a block of a deleted snapshot is not sent",
        start: MIRROR,
        steps: &[
            "initialize s:b = ok transfer=1 legs=1",
            "settle = settled",
            "write s:a 0 1 = ok",
            "snapshot s:a x - = ok id=0.2",
            "write s:a 0 2 = ok",
            "unsnapshot s:a x = ok",
            "update s:b = ok transfer=2 legs=1",
            "work 0 = prepare relationship=1 id=0.5",
            "work 0 = prune relationship=1 dropped=0",
            "work 0 = ship relationship=1 index=0 cost=1",
        ],
    },
    Course {
        name: "a base is held until it is released",
        start: MIRRORED,
        steps: &[
            "unsnapshot s:a snapmirror.1.1 = refused Held relationship=1",
            "break s:b = ok",
            "unsnapshot s:a snapmirror.1.1 = refused Held relationship=1",
            "release s:a s:b = ok",
            "unsnapshot s:a snapmirror.1.1 = ok",
        ],
    },
    Course {
        // A snapshot's block number is free after the snapshot is gone, and the client takes it again.
        name: "a block number used again is sent anew",
        start: &[],
        steps: &[
            "volume s:a 1 rw 2 4 = ok volume=0",
            "volume s:b 2 dp 2 4 = ok volume=1",
            "policy m mirror = ok",
            "rule m all_source_snapshots 1 keep = ok",
            "relate s:a s:b m = ok relationship=1",
            "write s:a 0 1 = ok",
            "snapshot s:a x - = ok id=0.2",
            "initialize s:b = ok transfer=1 legs=2",
            "settle = settled",
            "write s:a 0 2 = ok",
            "unsnapshot s:a x = ok",
            "update s:b = ok transfer=2 legs=1",
            "settle = settled",
            "write s:a 1 3 = ok",
            "update s:b = ok transfer=3 legs=1",
            "work 0 = prepare relationship=1 id=0.7",
            "work 0 = prune relationship=1 dropped=1",
            "work 0 = ship relationship=1 index=0 cost=1",
            "settle = settled",
            "head = report volumes=2 relationships=1 policies=1 clock=0",
            "volume-line 0 = volume 0 s:a type=rw blocks=2 physical=4 used=2 snapshots=1",
            "active-line 0 = active 0 sha256=b66f2f1967ddd2e37074c18f47b3b46f5376be9b9722230c5ed118f71b0d80d5",
            "snapshot-line 0 0 = snapshot 0 snapmirror.1.3 id=0.7 label=- time=0 made=1 sha256=b66f2f1967ddd2e37074c18f47b3b46f5376be9b9722230c5ed118f71b0d80d5",
            "volume-line 1 = volume 1 s:b type=dp blocks=2 physical=4 used=2 snapshots=2",
            "active-line 1 = active 1 sha256=b66f2f1967ddd2e37074c18f47b3b46f5376be9b9722230c5ed118f71b0d80d5",
            "snapshot-line 1 0 = snapshot 1 snapmirror.1.2 id=0.5 label=- time=0 made=1 sha256=8e6056a4fe3e6cbf7debd39fcdd12a557363f0c5b9538dee47c7b607af9be8e0",
            "snapshot-line 1 1 = snapshot 1 snapmirror.1.3 id=0.7 label=- time=0 made=1 sha256=b66f2f1967ddd2e37074c18f47b3b46f5376be9b9722230c5ed118f71b0d80d5",
            "relationship-line 1 = relationship 1 s:a s:b policy=m state=snapmirrored status=idle base=0.7 transfer=-",
        ],
    },
    Course {
        // A volume of eight blocks, though a volume may have many more, so that whole images stay small.
        name: "a volume has one block to spare",
        start: &[],
        steps: &[
            "volume s:a 1 rw 8 9 = ok volume=0",
            "each 0 8 write s:a # # = ok",
            "snapshot s:a s1 - = ok id=0.2",
            "write s:a 0 1 = ok",
            "write s:a 1 1 = refused NoSpace",
            "write s:a 8 1 = refused BadBlock",
            "read s:a - 1 = ok fill=1",
        ],
    },
    Course {
        // A snapshot that a transfer is to send is held, until the transfer is gone.
        name: "a leg is held",
        start: MIRROR,
        steps: &[
            "rule m all_source_snapshots 1 keep = ok",
            "clock 86400 = ok",
            "snapshot s:a x d = ok id=0.2",
            "initialize s:b = ok transfer=1 legs=2",
            "unsnapshot s:a x = refused Held relationship=1",
            "abort s:b = ok checkpoint=0",
            "unsnapshot s:a x = refused Held relationship=1",
            "snapshots s:a = ok lines=1\n  snapshot 0 x id=0.2 label=d time=86400 made=client",
            "discard s:b = ok ended",
            "unsnapshot s:a x = ok",
            "snapshots s:a = ok lines=0",
        ],
    },
    Course {
        name: "policies and relationships are refused in order",
        start: MIRROR,
        steps: &[
            "relationships = ok lines=1\n  relationship 1 s:a s:b policy=m state=uninitialized status=idle base=- transfer=-",
            "rule m daily 1 keep = refused WrongRule",
            "rule m all_source_snapshots 2 keep = refused BadKeep",
            "rule m sm_created 1 keep = refused RuleTaken",
            "rule m all_source_snapshots 1 keep = ok",
            "relate s:a s:b m = refused AlreadyDestination relationship=1",
            "relate s:b s:a m = refused Cycle",
        ],
    },
];

#[test]
fn courses(rt: HostRuntime) -> Result<(), Fail> {
    play_courses(&rt, COURSES)
}
