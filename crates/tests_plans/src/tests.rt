ghost use Rattle.std.specs.Prelude.{◌≡◌, ◌<◌, ◌↔◌, IsTrue, IfOk, length};
ghost use Rattle.std.specs.List.{All};

use sm_bits::BitMap;
use sm_select::{PlanFault, plan_mirror, plan_vault};
use sm_space::Space;
use std::process::Abort;
use std::test::Fail;

// The set of these numbers, which are below its length.
fn set_of(rt: &(impl Abort + AllocGlobal), places: u32, numbers: &[u32]) -> Result<BitMap, Fail>
    ensures { IfOk result (λ set. length set ≡ places) }
{
    let mut set = BitMap::new(rt.alloc(), places)?;
    for number in numbers {
        assert!(rt; *number < set.len());
        set.set(*number);
    }
    assert!(rt; set.len() == places);
    Ok(set)
}

fn are_places(numbers: &[u32], places: u32) -> bool
    ensures { IsTrue result ↔ All (λ t. t < places) numbers.now }
{
    numbers.iter().all(|number| *number < places)
}

struct Mirror {
    what: &'static str,
    /// The leg's number at each place, below 600.
    leg: [u32; 4],
    /// The numbers that the destination's snapshots have.
    there: &'static [u32],
    /// The numbers that are sent, each to itself.
    sent: &'static [u32],
}

const MIRRORS: &[Mirror] = &[
    Mirror {
        what: "an empty destination gets each block, in ascending order",
        leg: [7, 2, 0, 9],
        there: &[],
        sent: &[2, 7, 9],
    },
    Mirror {
        what: "a destination that has all gets none",
        leg: [7, 2, 0, 9],
        there: &[2, 7, 9],
        sent: &[],
    },
    Mirror {
        what: "a leg of holes needs none",
        leg: [0, 0, 0, 0],
        there: &[5],
        sent: &[],
    },
    Mirror {
        what: "a block that the destination has is not sent again, whatever hole it marks",
        leg: [3, 0, 5, 0],
        there: &[0, 3],
        sent: &[5],
    },
    Mirror {
        what: "where the destination had 4 and 6 the leg has 6 and 5",
        leg: [6, 5, 0, 0],
        there: &[4, 6],
        sent: &[5],
    },
    Mirror {
        what: "numbers of several words, the last place too",
        leg: [599, 64, 512, 63],
        there: &[64, 65],
        sent: &[63, 512, 599],
    },
];

#[test]
fn a_mirror_gets_what_it_lacks(rt: HostRuntime) -> Result<(), Fail> {
    for row in MIRRORS {
        mirror_row(&rt, row)?;
    }
    Ok(())
}

fn mirror_row(rt: &(impl Abort + AllocGlobal), row: &Mirror) -> Result<(), Fail> {
    let alloc = rt.alloc();
    let have = set_of(rt, 600, row.there)?;
    assert!(rt; are_places(&row.leg, 600));
    let plan = plan_mirror(alloc, &row.leg, &have)?;
    let mut sent = Vec::new(alloc);
    for number in row.sent {
        sent.push((*number, *number))?;
    }
    assert_eq!(rt; plan.pairs.as_slice(), sent.as_slice(), "{}", row.what);
    assert_eq!(rt; plan.map.as_slice(), row.leg.as_slice(), "{}", row.what);
    Ok(())
}

struct Vault {
    what: &'static str,
    leg: [u32; 3],
    /// The base as each side has it.
    source: [u32; 3],
    destination: [u32; 3],
    /// The destination's physical size, and the numbers that it uses.
    physical: u32,
    used: &'static [u32],
    /// What is sent, each to its number, and the map that lands.
    pairs: &'static [(u32, u32)],
    map: &'static [u32],
    /// Where there is no plan, what is needed and what is free.
    full: Option<(u32, u32)>,
}

const VAULTS: &[Vault] = &[
    Vault {
        what: "an empty destination gets each block, place by place",
        leg: [9, 0, 4],
        source: [0, 0, 0],
        destination: [0, 0, 0],
        physical: 2,
        used: &[],
        pairs: &[(9, 1), (4, 2)],
        map: &[1, 0, 2],
        full: None,
    },
    Vault {
        what: "a destination that has all gets none, also where nothing is free",
        leg: [9, 0, 4],
        source: [9, 0, 4],
        destination: [2, 0, 1],
        physical: 2,
        used: &[1, 2],
        pairs: &[],
        map: &[2, 0, 1],
        full: None,
    },
    Vault {
        what: "a block that the base has keeps the destination's number",
        leg: [3, 0, 5],
        source: [3, 0, 4],
        destination: [1, 0, 2],
        physical: 4,
        used: &[1, 2],
        pairs: &[(5, 3)],
        map: &[1, 0, 3],
        full: None,
    },
    Vault {
        what: "the same, and nothing is free",
        leg: [3, 0, 5],
        source: [3, 0, 4],
        destination: [1, 0, 2],
        physical: 2,
        used: &[1, 2],
        pairs: &[],
        map: &[],
        full: Some((1, 0)),
    },
    Vault {
        what: "a hole stays one where the base has a block",
        leg: [0, 0, 5],
        source: [3, 0, 5],
        destination: [1, 0, 2],
        physical: 3,
        used: &[1, 2],
        pairs: &[],
        map: &[0, 0, 2],
        full: None,
    },
    Vault {
        what: "other blocks at the same places take the least numbers between those that are used",
        leg: [8, 6, 0],
        source: [9, 4, 0],
        destination: [1, 3, 0],
        physical: 600,
        used: &[1, 3],
        pairs: &[(8, 2), (6, 4)],
        map: &[2, 4, 0],
        full: None,
    },
    Vault {
        what: "the same, and one number less is free than is needed",
        leg: [8, 6, 0],
        source: [9, 4, 0],
        destination: [1, 3, 0],
        physical: 3,
        used: &[1, 3],
        pairs: &[],
        map: &[],
        full: Some((2, 1)),
    },
    Vault {
        what: "a block that the base has at another place is sent",
        leg: [4, 9, 0],
        source: [9, 4, 0],
        destination: [1, 2, 0],
        physical: 4,
        used: &[1, 2],
        pairs: &[(4, 3), (9, 4)],
        map: &[3, 4, 0],
        full: None,
    },
];

#[test]
fn a_vault_gets_what_its_base_lacks(rt: HostRuntime) -> Result<(), Fail> {
    for row in VAULTS {
        vault_row(&rt, row)?;
    }
    Ok(())
}

fn vault_row(rt: &(impl Abort + AllocGlobal), row: &Vault) -> Result<(), Fail> {
    let alloc = rt.alloc();
    assert!(rt; row.physical < 1000);
    let used = set_of(rt, row.physical + 1, row.used)?;
    let space = Space::new(alloc, row.physical, &used)?;
    let free = space.free();
    match plan_vault(alloc, &row.leg, &row.source, &row.destination, &space) {
        Ok(plan) => {
            assert_eq!(rt; None, row.full, "{}", row.what);
            assert_eq!(rt; plan.pairs.as_slice(), row.pairs, "{}", row.what);
            assert_eq!(rt; plan.map.as_slice(), row.map, "{}", row.what);
        }
        Err(PlanFault::NoSpace { need, free }) => {
            assert_eq!(rt; Some((need, free)), row.full, "{}", row.what);
        }
        Err(PlanFault::NoMemory) => panic!(rt; "no memory: {}", row.what),
    }
    assert_eq!(rt; space.free(), free, "{}", row.what);
    Ok(())
}
