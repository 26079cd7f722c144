// A mirror after its first transfer, and what may be wrong with it.
use crate::telling::{Case, try_cases};
use std::test::Fail;

const MIRROR: &[&str] = &[
    "next 2 2",
    "volume s:a 1 rw 0 2 4 2 1 2 | 1 2",
    "snapshot 0 0.2 x d 5 0 1 0",
    "snapshot 0 0.3 snapmirror.1.1 - 6 1 1 2",
    "volume s:b 2 dp 0 2 4 1 1 2 | 1 2",
    "snapshot 1 0.3 snapmirror.1.1 - 6 1 1 2",
    "policy m mirror",
    "rule 0 sm_created 1",
    "relation 1 0 1 0 source destination - 0.3",
];

/// A base is not taken in the interim, so that most cases break that too.
const CASES: &[Case] = &[
    Case {
        at: 0,
        line: "next 2 2",
        breaks: " interim",
    },
    Case {
        at: 8,
        line: "relation 1 0 1 0 source destination - -",
        breaks: "",
    },
    Case {
        at: 8,
        line: "relation 1 0 1 0 source destination quiesced -",
        breaks: " interim",
    },
    // a number at two places, in the active map and between a map and a snapshot's
    Case {
        at: 1,
        line: "volume s:a 1 rw 0 2 4 2 1 1 | 1 2",
        breaks: " tags interim",
    },
    Case {
        at: 1,
        line: "volume s:a 1 rw 0 2 4 2 2 3 | 1 2",
        breaks: " tags interim",
    },
    // a number above the physical size, and the greatest
    Case {
        at: 1,
        line: "volume s:a 1 rw 0 2 4 2 1 5 | 1 2",
        breaks: " tags interim",
    },
    Case {
        at: 1,
        line: "volume s:a 1 rw 0 2 4 2 1 4 | 1 2",
        breaks: " interim",
    },
    // one identity twice, on one volume with other numbers and another name
    Case {
        at: 2,
        line: "snapshot 0 0.3 x d 5 0 1 0",
        breaks: " tags copies agree numbers interim",
    },
    // what copies tell
    Case {
        at: 5,
        line: "snapshot 1 0.3 snapmirror.1.1 - 7 1 1 2",
        breaks: " copies interim",
    },
    Case {
        at: 5,
        line: "snapshot 1 0.3 snapmirror.1.1 d 6 1 1 2",
        breaks: " copies numbers interim",
    },
    // a copy's numbers, where it is also what the destination stands at
    Case {
        at: 5,
        line: "snapshot 1 0.3 snapmirror.1.1 - 6 1 1 3",
        breaks: " agree destinations interim",
    },
    // a destination between two consistency points
    Case {
        at: 4,
        line: "volume s:b 2 dp 0 2 4 1 1 2 | 1 0",
        breaks: " destinations interim",
    },
    // a client's number that was not given, and a name that only transfers give
    Case {
        at: 1,
        line: "volume s:a 1 rw 0 2 4 1 1 2 | 1 2",
        breaks: " numbers interim",
    },
    Case {
        at: 2,
        line: "snapshot 0 0.2 snapmirror.x d 5 0 1 0",
        breaks: " numbers interim",
    },
    // a transfer's number that was not given
    Case {
        at: 0,
        line: "next 2 1",
        breaks: " numbers interim",
    },
    // a family of no volume and no transfer
    Case {
        at: 4,
        line: "volume s:b 2 dp 9 2 4 1 1 2 | 1 2",
        breaks: " families interim",
    },
    Case {
        at: 4,
        line: "volume s:b 2 dp 33 2 4 1 1 2 | 1 2",
        breaks: " interim",
    },
    Case {
        at: 4,
        line: "volume s:b 2 dp 34 2 4 1 1 2 | 1 2",
        breaks: " families interim",
    },
    // a short map, one path, one disk, and a rule that no mirror has
    Case {
        at: 1,
        line: "volume s:a 1 rw 0 2 4 2 1 | 1 2",
        breaks: " formed interim",
    },
    Case {
        at: 4,
        line: "volume s:a 2 dp 0 2 4 1 1 2 | 1 2",
        breaks: " formed interim",
    },
    Case {
        at: 4,
        line: "volume s:b 1 dp 0 2 4 1 1 2 | 1 2",
        breaks: " formed interim",
    },
    Case {
        at: 7,
        line: "rule 0 sm_created 2",
        breaks: " formed interim",
    },
    Case {
        at: 7,
        line: "rule 0 daily 1",
        breaks: " formed interim",
    },
    // relationships: source, destination, policy, one volume, number, half, base, sizes
    Case {
        at: 8,
        line: "relation 1 2 1 0 source destination - 0.3",
        breaks: " cross=0 interim",
    },
    Case {
        at: 8,
        line: "relation 1 0 2 0 source destination - 0.3",
        breaks: " cross=0 interim",
    },
    Case {
        at: 8,
        line: "relation 1 0 1 1 source destination - 0.3",
        breaks: " cross=0 interim",
    },
    Case {
        at: 8,
        line: "relation 1 0 0 0 source destination - 0.3",
        breaks: " cross=0 interim",
    },
    Case {
        at: 8,
        line: "relation 0 0 1 0 source destination - 0.3",
        breaks: " cross=0 interim",
    },
    Case {
        at: 8,
        line: "relation 2 0 1 0 source destination - 0.3",
        breaks: " cross=0 interim",
    },
    Case {
        at: 8,
        line: "relation 1 0 1 0 - destination - 0.3",
        breaks: " cross=0 interim",
    },
    Case {
        at: 8,
        line: "relation 1 0 1 0 source destination - 0.5",
        breaks: " cross=0 interim",
    },
    Case {
        at: 8,
        line: "relation 1 0 1 0 source destination - 0.2",
        breaks: " cross=0 interim",
    },
    Case {
        at: 8,
        line: "relation 1 0 1 0 source - - 0.2",
        breaks: " interim",
    },
    Case {
        at: 4,
        line: "volume s:b 2 dp 0 2 5 1 1 2 | 1 2",
        breaks: " cross=0 interim",
    },
    Case {
        at: 4,
        line: "volume s:b 2 dp 0 3 4 1 1 2 | 1 2",
        breaks: " cross=0 formed interim",
    },
];

/// Two volumes of other families, one longer than the other, that have copies of one identity.
const LONGER: &[&str] = &[
    "next 2 2",
    "volume s:a 1 rw 0 2 4 2 1 2 | 1 2",
    "snapshot 0 0.3 snapmirror.1.1 - 6 1 1 2",
    "volume s:b 2 dp 33 3 4 1 1 2 3 | 1 2 3",
    "snapshot 1 0.3 snapmirror.1.1 - 6 1 1 2 3",
];

const LONGER_CASES: &[Case] = &[
    Case {
        at: 0,
        line: "next 2 2",
        breaks: " copies",
    },
    // another identity
    Case {
        at: 2,
        line: "snapshot 0 0.1 snapmirror.1.0 - 6 1 1 2",
        breaks: "",
    },
];

#[test]
fn mirrors(rt: HostRuntime) -> Result<(), Fail> {
    try_cases(&rt, MIRROR, CASES)
}

#[test]
fn copies_of_other_lengths(rt: HostRuntime) -> Result<(), Fail> {
    try_cases(&rt, LONGER, LONGER_CASES)
}
