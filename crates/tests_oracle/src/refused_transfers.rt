// Refusals of transfers: of two causes that stand together the earlier is answered.
use crate::playing::{Course, play_courses};
use crate::starts::{SMALL_MIRROR, SMALL_MIRRORED};
use std::test::Fail;

const COURSES: &[Course] = &[
    Course {
        name: "transfers are refused in order",
        start: SMALL_MIRROR,
        steps: &[
            "initialize s:x = refused NoVolume path=s:x",
            "initialize s:a = refused NoRelation path=s:a",
            "update s:x = refused NoVolume path=s:x",
            "update s:a = refused NoRelation path=s:a",
            "quiesce s:x = refused NoVolume path=s:x",
            "quiesce s:a = refused NoRelation path=s:a",
            "resume s:x = refused NoVolume path=s:x",
            "resume s:a = refused NoRelation path=s:a",
            "quiesce s:b = ok",
            "update s:b = refused Uninitialized",
            "initialize s:b = refused Quiesced",
            "resume s:b = ok",
            "initialize s:b = ok transfer=1 legs=1",
            "initialize s:b = refused Transferring",
            "quiesce s:b = ok",
            "initialize s:b = refused Quiesced",
            "relationships = ok lines=1\n  relationship 1 s:a s:b policy=m state=uninitialized status=quiescing base=- transfer=1:running",
        ],
    },
    Course {
        name: "a destination with snapshots is updated alone",
        start: SMALL_MIRRORED,
        steps: &[
            "quiesce s:b = ok",
            "relationships = ok lines=1\n  relationship 1 s:a s:b policy=m state=snapmirrored status=quiesced base=0.3 transfer=-",
            "initialize s:b = refused Initialized",
            "update s:b = refused Quiesced",
            "break s:b = ok",
            "initialize s:b = refused Writable",
            "update s:b = refused Writable",
            "break s:b = refused Writable",
            "volume s:d 3 rw 2 4 = ok volume=2",
            "policy v vault = ok",
            "relate s:a s:d v = ok relationship=2",
            "update s:d = refused Writable",
            "break s:d = refused Writable",
        ],
    },
    Course {
        // A destination with snapshots whose relationship is new has nothing to update from, and is resynced.
        name: "a new relationship has no base",
        start: SMALL_MIRRORED,
        steps: &[
            "delete s:b = ok",
            "relate s:a s:b m = ok relationship=2",
            "initialize s:b = refused Initialized",
            "update s:b = refused Uninitialized",
            "break s:b = ok",
            "resync s:b = ok transfer=2 common=0.3 legs=1",
        ],
    },
    Course {
        name: "a transfer bars what would end it",
        start: SMALL_MIRROR,
        steps: &[
            "abort s:x = refused NoVolume path=s:x",
            "abort s:a = refused NoRelation path=s:a",
            "abort s:b = refused NoTransfer",
            "discard s:b = refused NoTransfer",
            "break s:x = refused NoVolume path=s:x",
            "break s:a = refused NoRelation path=s:a",
            "initialize s:b = ok transfer=1 legs=1",
            "break s:b = refused Uninitialized",
            "resync s:b = refused NotBroken",
            "delete s:b = refused Transferring",
            "release s:a s:b = refused Active",
            "abort s:b = ok checkpoint=0",
            "abort s:b = refused NoTransfer",
            "delete s:b = refused Transferring",
            "discard s:b = ok ended",
        ],
    },
    Course {
        // Two rules that preserve have no room: the first of the policy is named. Numbers of transfers are given
        // up to 2^62 - 1.
        name: "transfer numbers run out",
        start: &[],
        steps: &[
            "set next-transfer 4611686018427387903 = set",
            "volume s:a 1 rw 2 4 = ok volume=0",
            "volume s:b 2 dp 2 4 = ok volume=1",
            "policy v vault = ok",
            "rule v k 1 preserve = ok",
            "rule v j 1 preserve = ok",
            "relate s:a s:b v = ok relationship=1",
            "snapshot s:a j1 j = ok id=0.2",
            "initialize s:b = ok transfer=4611686018427387903 legs=1",
            "settle = settled",
            "update s:b = ok nothing to transfer",
            "snapshot s:a j2 j = ok id=0.4",
            "snapshot s:a k1 k = ok id=0.6",
            "snapshot s:a k2 k = ok id=0.8",
            "update s:b = refused KeepReached label=k",
            "unsnapshot s:a k2 = ok",
            "update s:b = refused KeepReached label=j",
            "unsnapshot s:a j2 = ok",
            "update s:b = refused Full what=transfers",
            "break s:b = ok",
            "resync s:b = refused Full what=transfers",
        ],
    },
    Course {
        // A vault that a client wrote has more than a rule may preserve, and nothing would be sent.
        name: "a full rule bars a transfer of nothing",
        start: &[],
        steps: &[
            "volume s:a 1 rw 2 4 = ok volume=0",
            "volume s:b 2 dp 2 4 = ok volume=1",
            "policy v vault = ok",
            "rule v k 1 preserve = ok",
            "relate s:a s:b v = ok relationship=1",
            "initialize s:b = ok nothing to transfer",
            "snapshot s:a k1 k = ok id=0.2",
            "initialize s:b = ok transfer=1 legs=1",
            "settle = settled",
            "break s:b = ok",
            "snapshot s:b z1 k = ok id=1.2",
            "resync s:b = refused KeepReached label=k",
        ],
    },
];

#[test]
fn courses(rt: HostRuntime) -> Result<(), Fail> {
    play_courses(&rt, COURSES)
}
