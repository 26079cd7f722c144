// Transfers that run, and what of their first legs was shipped.
use crate::telling::{Case, try_cases};
use std::test::Fail;

const MIRROR: &[&str] = &[
    "next 2 2",
    "volume s:a 1 rw 0 4 6 4 1 2 3 4 | 1 2 3 4",
    "snapshot 0 0.2 x d 5 0 1 0 0 0",
    "snapshot 0 0.4 y d 6 0 1 2 3 4",
    "volume s:b 2 dp 0 4 6 1 1 0 0 0 | 1 0 0 0",
    "snapshot 1 0.2 x d 5 0 1 0 0 0",
    "snapshot 1 0.6 z d 7 0 0 0 5 0",
    "policy m mirror",
    "rule 0 sm_created 1",
    "relation 1 0 1 0 source destination - 0.2",
    "transfer 0 1 update - 1 - pruned 0.4 | 0 1",
];

/// A base is not taken in the interim, so that each case breaks that too.
const MIRROR_CASES: &[Case] = &[
    Case {
        at: 10,
        line: "transfer 0 1 update - 1 - pruned 0.4 | 0 1",
        breaks: " interim",
    },
    // a later leg that the source lacks, where the mirror was pruned for what it ships, and where it was not
    Case {
        at: 10,
        line: "transfer 0 1 update reserved 1 - pruned 0.4 0.3 | 0 1",
        breaks: " legs interim",
    },
    Case {
        at: 10,
        line: "transfer 0 1 update reserved 0 - - 0.4 0.3 |",
        breaks: " interim",
    },
    // a number of the leg at another place of the destination, and at the same place
    Case {
        at: 6,
        line: "snapshot 1 0.6 z d 7 0 0 0 2 0",
        breaks: " legs interim",
    },
    Case {
        at: 6,
        line: "snapshot 1 0.6 z d 7 0 0 2 0 0",
        breaks: " interim",
    },
    // something landed before the mirror was pruned, and nothing
    Case {
        at: 10,
        line: "transfer 0 1 update - 0 - - 0.4 | 0",
        breaks: " legs interim",
    },
    Case {
        at: 10,
        line: "transfer 0 1 update - 0 - - 0.4 |",
        breaks: " interim",
    },
    Case {
        at: 10,
        line: "transfer 0 1 update - 0 - pruned 0.4 | 0",
        breaks: " interim",
    },
    // a first leg that the source lacks
    Case {
        at: 10,
        line: "transfer 0 1 update reserved 1 - pruned 0.3 | 0",
        breaks: " legs interim",
    },
    // a checkpoint past the leg's three missing blocks, and at their end
    Case {
        at: 10,
        line: "transfer 0 1 update - 4 - pruned 0.4 | 0 1 2 3",
        breaks: " legs interim",
    },
    Case {
        at: 10,
        line: "transfer 0 1 update - 3 - pruned 0.4 | 0 1 2",
        breaks: " interim",
    },
    Case {
        at: 10,
        line: "transfer 0 1 update - 4 stopped - 0.4 | 0 1 2 3",
        breaks: " legs interim",
    },
    // an index past the missing blocks, and the last
    Case {
        at: 10,
        line: "transfer 0 1 update - 1 - pruned 0.4 | 0 3",
        breaks: " legs interim",
    },
    Case {
        at: 10,
        line: "transfer 0 1 update - 1 - pruned 0.4 | 0 2",
        breaks: " interim",
    },
    // indexes that do not ascend
    Case {
        at: 10,
        line: "transfer 0 1 update - 1 - pruned 0.4 | 0 2 1",
        breaks: " legs interim",
    },
    Case {
        at: 10,
        line: "transfer 0 1 update - 1 - pruned 0.4 | 0 0",
        breaks: " legs interim",
    },
    // an index below the checkpoint did not land
    Case {
        at: 10,
        line: "transfer 0 1 update - 2 - pruned 0.4 | 0 2",
        breaks: " legs interim",
    },
    Case {
        at: 10,
        line: "transfer 0 1 update - 2 - pruned 0.4 | 0",
        breaks: " legs interim",
    },
    // an index past the window, and its last, where no leg is left
    Case {
        at: 10,
        line: "transfer 0 1 update - 1 - pruned | 0 65",
        breaks: " legs interim",
    },
    Case {
        at: 10,
        line: "transfer 0 1 update - 1 - pruned | 0 64",
        breaks: " interim",
    },
];

const VAULT: &[&str] = &[
    "next 2 2",
    "volume s:a 1 rw 0 2 4 3 3 2 | 3 2",
    "snapshot 0 0.2 d1 d 5 0 1 2",
    "snapshot 0 0.4 d2 d 6 0 3 2",
    "volume s:b 2 dp 1 2 4 1 1 2 | 1 2",
    "snapshot 1 0.2 d1 d 5 0 1 2",
    "policy v vault",
    "rule 0 d 2",
    "relation 1 0 1 0 source destination - 0.2",
    "transfer 0 1 update - 1 - - 0.4 | 0",
];

const VAULT_CASES: &[Case] = &[
    Case {
        at: 9,
        line: "transfer 0 1 update - 1 - - 0.4 | 0",
        breaks: " interim",
    },
    // no room for the leg's one block
    Case {
        at: 4,
        line: "volume s:b 2 dp 1 2 3 1 1 2 | 1 2",
        breaks: " interim",
    },
    Case {
        at: 4,
        line: "volume s:b 2 dp 1 2 2 1 1 2 | 1 2",
        breaks: " legs interim",
    },
    // what landed of a vault's leg, whose other block the base has
    Case {
        at: 9,
        line: "transfer 0 1 update - 0 - - 0.4 | 0",
        breaks: " interim",
    },
    Case {
        at: 9,
        line: "transfer 0 1 update - 0 - - 0.4 | 1",
        breaks: " legs interim",
    },
    Case {
        at: 9,
        line: "transfer 0 1 update - 2 - - 0.4 | 0 1",
        breaks: " legs interim",
    },
    Case {
        at: 8,
        line: "relation 1 0 1 0 source destination - 0.2",
        breaks: " interim",
    },
];

#[test]
fn shipping_mirrors(rt: HostRuntime) -> Result<(), Fail> {
    try_cases(&rt, MIRROR, MIRROR_CASES)
}

#[test]
fn shipping_vaults(rt: HostRuntime) -> Result<(), Fail> {
    try_cases(&rt, VAULT, VAULT_CASES)
}
