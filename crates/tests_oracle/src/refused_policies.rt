// Refusals of policies, rules and relationships: of two causes that stand together the earlier is answered.
use crate::playing::{Course, play_courses};
use crate::starts::SMALL_MIRROR;
use std::test::Fail;

const COURSES: &[Course] = &[
    Course {
        name: "rules are refused in order",
        start: &[],
        steps: &[
            "policy m mirror = ok",
            "policy m vault = refused NameTaken",
            "policy v vault = ok",
            "rule x d 0 keep = refused NoPolicy name=x",
            "rule m d 2 keep = refused WrongRule",
            "rule m sm_created 1 preserve = refused WrongRule",
            "rule m sm_created 2 keep = refused BadKeep",
            "rule m sm_created 1 keep = refused RuleTaken",
            "rule v sm_created 1 keep = refused WrongRule",
            "rule v all_source_snapshots 0 keep = refused WrongRule",
            "rule v d 0 keep = refused BadKeep",
            "rule v d 251 keep = ok",
            "rule v d 252 keep = refused BadKeep",
            "rule v d 1 preserve = refused RuleTaken",
            "policies = ok lines=2\n  policy m type=async-mirror rules=sm_created:1:false\n  policy v type=vault rules=d:251:false",
        ],
    },
    Course {
        name: "a policy has at most ten rules",
        start: &[],
        steps: &[
            "policy v vault = ok",
            "rule v r0 1 keep = ok",
            "rule v r1 1 keep = ok",
            "rule v r2 1 keep = ok",
            "rule v r3 1 keep = ok",
            "rule v r4 1 keep = ok",
            "rule v r5 1 keep = ok",
            "rule v r6 1 keep = ok",
            "rule v r7 1 keep = ok",
            "rule v r8 1 keep = ok",
            "rule v r9 1 preserve = ok",
            "rule v s 1 keep = refused RulesFull",
            "rule v r9 1 keep = refused RuleTaken",
            "rule v s 0 keep = refused BadKeep",
        ],
    },
    Course {
        name: "relationships are refused in order",
        start: SMALL_MIRROR,
        steps: &[
            "volume s:c 3 dp 2 8 = ok volume=2",
            "volume s:d 4 dp 4 8 = ok volume=3",
            "policy v vault = ok",
            "relate s:x s:y z = refused NoVolume path=s:x",
            "relate s:a s:y z = refused NoVolume path=s:y",
            "relate s:a s:b z = refused NoPolicy name=z",
            "relate s:d s:b m = refused AlreadyDestination relationship=1",
            "relate s:b s:b m = refused AlreadyDestination relationship=1",
            "relate s:a s:d v = refused SizeMismatch",
            "relate s:a s:c m = refused SizeMismatch",
            "relate s:a s:c v = ok relationship=2",
            "relate s:c s:a m = refused SizeMismatch",
            "relate s:c s:a v = refused Cycle",
            "relate s:d s:d m = refused Cycle",
        ],
    },
    Course {
        // The greatest number is given to no relationship.
        name: "relationship numbers run out",
        start: &[],
        steps: &[
            "set next-relationship 4294967294 = set",
            "volume s:a 1 rw 2 4 = ok volume=0",
            "volume s:b 2 dp 2 4 = ok volume=1",
            "volume s:c 3 dp 2 4 = ok volume=2",
            "policy m mirror = ok",
            "relate s:a s:b m = ok relationship=4294967294",
            "relate s:b s:a m = refused Cycle",
            "relate s:a s:c m = refused Full what=relationships",
        ],
    },
    Course {
        name: "each half goes once",
        start: SMALL_MIRROR,
        steps: &[
            "delete s:x = refused NoVolume path=s:x",
            "delete s:a = refused NoRelation path=s:a",
            "release s:x s:y = refused NoVolume path=s:x",
            "release s:a s:y = refused NoVolume path=s:y",
            "release s:b s:a = refused NoRelation path=s:a",
            "release s:a s:b = refused Active",
            "delete s:b = ok",
            "relationships = ok lines=1\n  relationship 1 s:a s:b policy=m state=- status=- base=- transfer=-",
            "delete s:b = refused NoRelation path=s:b",
            "release s:a s:b = ok",
            "release s:a s:b = refused NoRelation path=s:b",
            "relationships = ok lines=0",
        ],
    },
];

#[test]
fn courses(rt: HostRuntime) -> Result<(), Fail> {
    play_courses(&rt, COURSES)
}
