// A vault with a transfer that was aborted, beside a relationship whose destination half is gone.
use crate::telling::{Case, try_cases};
use std::test::Fail;

const VAULT: &[&str] = &[
    "next 3 2",
    "volume s:a 1 rw 0 1 2 3 2 | 2",
    "snapshot 0 0.2 d1 d 5 0 1",
    "snapshot 0 0.4 d2 d 6 0 2",
    "volume s:b 2 dp 1 1 2 1 1 | 1",
    "snapshot 1 0.2 d1 d 5 0 1",
    "policy v vault",
    "rule 0 d 2",
    "relation 1 0 1 0 source destination - 0.2",
    "transfer 0 1 update - 0 stopped - 0.4 |",
    "relation 2 0 1 0 source - - -",
];

const CASES: &[Case] = &[
    Case {
        at: 0,
        line: "next 3 2",
        breaks: " interim",
    },
    // another relationship to the destination
    Case {
        at: 10,
        line: "relation 2 0 1 0 source destination - -",
        breaks: " cross=1 interim",
    },
    Case {
        at: 10,
        line: "relation 1 0 1 0 source - - -",
        breaks: " formed interim",
    },
    Case {
        at: 10,
        line: "relation 2 0 1 0 - - - -",
        breaks: " formed interim",
    },
    // a transfer without a half, with a number that was not given, with a leg twice and with one that is nowhere
    Case {
        at: 8,
        line: "relation 1 0 1 0 source - - 0.2",
        breaks: " cross=0 interim",
    },
    Case {
        at: 9,
        line: "transfer 0 0 update - 0 stopped - 0.4 |",
        breaks: " cross=0 interim",
    },
    Case {
        at: 9,
        line: "transfer 0 2 update - 0 stopped - 0.4 |",
        breaks: " cross=0 interim",
    },
    Case {
        at: 9,
        line: "transfer 0 1 update - 0 stopped - 0.4 0.4 |",
        breaks: " cross=0 interim",
    },
    Case {
        at: 9,
        line: "transfer 0 1 update - 0 stopped - 0.6 |",
        breaks: " cross=0 interim",
    },
    // a leg that is still to be made is last, and no vault's
    Case {
        at: 9,
        line: "transfer 0 1 update reserved 0 stopped - 0.4 |",
        breaks: " formed kept interim",
    },
    Case {
        at: 9,
        line: "transfer 0 1 update reserved 0 stopped - 0.4 0.3 |",
        breaks: " kept interim",
    },
    // a leg without a rule
    Case {
        at: 7,
        line: "rule 0 w 2",
        breaks: " kept interim",
    },
    // what an aborted transfer has landed
    Case {
        at: 9,
        line: "transfer 0 1 update - 1 stopped - 0.4 | 0",
        breaks: " interim",
    },
    Case {
        at: 9,
        line: "transfer 0 1 update - 1 stopped - 0.4 |",
        breaks: " formed interim",
    },
    Case {
        at: 9,
        line: "transfer 0 1 update - 1 stopped - 0.4 | 1",
        breaks: " formed legs interim",
    },
    Case {
        at: 9,
        line: "transfer 0 1 update - 0 stopped pruned 0.4 |",
        breaks: " formed interim",
    },
    Case {
        at: 9,
        line: "transfer 0 1 update - 0 - pruned 0.4 |",
        breaks: " interim",
    },
    // a writable destination, a later leg that is there, no base
    Case {
        at: 4,
        line: "volume s:b 2 rw 1 1 2 1 1 | 1",
        breaks: " transfers interim",
    },
    Case {
        at: 9,
        line: "transfer 0 1 update - 0 stopped - 0.4 0.2 |",
        breaks: " transfers interim",
    },
    Case {
        at: 8,
        line: "relation 1 0 1 0 source destination - -",
        breaks: " transfers interim",
    },
    // the transfer's family: at the destination alone, at the source too, at the source before
    Case {
        at: 4,
        line: "volume s:b 2 dp 33 1 2 1 1 | 1",
        breaks: " interim",
    },
    Case {
        at: 1,
        line: "volume s:a 1 rw 33 1 2 3 2 | 2",
        breaks: " families interim",
    },
];

#[test]
fn vaults(rt: HostRuntime) -> Result<(), Fail> {
    try_cases(&rt, VAULT, CASES)
}
