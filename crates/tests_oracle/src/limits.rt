// Worlds that have as many of a thing as there may be.
use crate::playing::{Course, play_courses};
use std::test::Fail;

const COURSES: &[Course] = &[
    Course {
        // One more disk is too short for any volume.
        name: "volumes run out",
        start: &[],
        steps: &[
            "set another-disk 1 = set",
            "each 0 32 volume s:v# #+1 rw 1 1 = ok volume=#",
            "volume s:v3 4 rw 1 1 = refused NameTaken",
            "volume s:x 4 rw 1 1 = refused DiskTaken",
            "volume s:x 33 rw 1 1 = refused Full what=volumes",
            "volume s:x 34 rw 1 1 = refused NoDisk disk=34",
        ],
    },
    Course {
        name: "policies run out",
        start: &[],
        steps: &[
            "each 0 32 policy p# vault = ok",
            "policy p3 mirror = refused NameTaken",
            "policy x mirror = refused Full what=policies",
        ],
    },
    Course {
        // A relationship counts while it has a half.
        name: "relationships run out",
        start: &[],
        steps: &[
            "volume s:a 1 rw 1 1 = ok volume=0",
            "volume s:b 2 dp 1 1 = ok volume=1",
            "policy m mirror = ok",
            "each 1 65 relate s:a s:b m = ok relationship=#; delete s:b = ok",
            "relate s:a s:b m = refused Full what=relationships",
            "relate s:a s:a m = refused Cycle",
            "release s:a s:b = ok",
            "relate s:a s:b m = ok relationship=65",
        ],
    },
    Course {
        // A source that has its full number of snapshots has no room for the transfer's own.
        name: "a full source stops its mirror",
        start: &[],
        steps: &[
            "volume s:a 1 rw 1 1 = ok volume=0",
            "volume s:b 2 dp 1 1 = ok volume=1",
            "policy m mirror = ok",
            "relate s:a s:b m = ok relationship=1",
            "each 1 256 snapshot s:a s# d = ok id=0.#*2",
            "snapshot s:a s7 - = refused NameTaken",
            "snapshot s:a x - = refused SnapFull",
            "initialize s:b = ok transfer=1 legs=1",
            "work 0 = interrupted relationship=1 reason=SnapFull",
            "work 0 = idle",
        ],
    },
    Course {
        // A vault whose rules let go of nothing has no room for one more.
        name: "a full vault is interrupted",
        start: &[],
        steps: &[
            "volume s:a 1 rw 1 1 = ok volume=0",
            "volume s:b 2 dp 1 1 = ok volume=1",
            "policy v vault = ok",
            "rule v d 251 keep = ok",
            "rule v w 251 keep = ok",
            "relate s:a s:b v = ok relationship=1",
            "each 1 129 snapshot s:a s# d = ok id=0.#*2",
            "each 129 256 snapshot s:a s# w = ok id=0.#*2",
            "initialize s:b = ok transfer=1 legs=255",
            "settle = settled",
            "unsnapshot s:a s1 = ok",
            "snapshot s:a s256 d = ok id=0.512",
            "update s:b = ok transfer=2 legs=1",
            "work 0 = interrupted relationship=1 reason=SnapFull",
            "work 0 = idle",
        ],
    },
    Course {
        // A volume numbers the snapshots of its clients up to 2^62 - 1.
        name: "snapshot numbers run out",
        start: &[],
        steps: &[
            "volume s:a 1 rw 1 1 = ok volume=0",
            "set next-snapshot 4611686018427387903 = set",
            "snapshot s:a x - = ok id=0.9223372036854775806",
            "snapshot s:a x - = refused NameTaken",
            "snapshot s:a y - = refused SnapFull",
        ],
    },
];

#[test]
fn courses(rt: HostRuntime) -> Result<(), Fail> {
    play_courses(&rt, COURSES)
}
