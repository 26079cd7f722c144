use oracle_lists::{
    PlainBases, PlainBlock, PlainSnapshot, PlainSource, common, legs, mirror_cost, missing_places,
    missing_tags, pruned, vault_cost, vault_landing,
};
use sm_base::{Ident, Kind, Label, Path1, PolicyKind, SnapName};
use sm_policy::Policy;
use std::alloc::Global;
use std::process::Abort;
use std::test::Fail;

/// A snapshot: the number in its identity, its label or nothing, its maker, and its blocks' numbers.
type Given = (u64, &'static [u8], u32, &'static [u32]);

/// A rule: its label, how many are kept, and whether for good.
type Rule = (&'static [u8], u32, bool);

fn ident(seq: u64) -> Ident {
    Ident { origin: 0, seq }
}

// Blocks at these numbers, each of one byte.
fn image(alloc: Global, tags: &[u32]) -> Result<Vec<PlainBlock>, Fail> {
    let mut blocks = Vec::new(alloc);
    for tag in tags {
        let bytes = vec![in alloc; (*tag % 256) as u8; 1]?;
        blocks.push(PlainBlock { tag: *tag, bytes })?;
    }
    Ok(blocks)
}

fn tags_of(alloc: Global, blocks: &[PlainBlock]) -> Result<Vec<u32>, Fail> {
    let mut tags = Vec::new(alloc);
    for block in blocks {
        tags.push(block.tag)?;
    }
    Ok(tags)
}

// No text is no label.
fn label(alloc: Global, text: &[u8]) -> Result<Option<Label>, Fail> {
    if text.is_empty() {
        return Ok(None);
    }
    Ok(Some(Label::read(alloc, text)?))
}

const SNAPSHOT_NAME: &[u8] = b"s";

fn snapshot(alloc: Global, given: Given) -> Result<PlainSnapshot, Fail> {
    let (seq, text, maker, tags) = given;
    Ok(PlainSnapshot {
        ident: ident(seq),
        name: SnapName::read(alloc, SNAPSHOT_NAME)?,
        label: label(alloc, text)?,
        time: 0,
        maker,
        image: image(alloc, tags)?,
    })
}

fn snapshots(alloc: Global, list: &[Given]) -> Result<Vec<PlainSnapshot>, Fail> {
    let mut all = Vec::new(alloc);
    for given in list {
        all.push(snapshot(alloc, *given)?)?;
    }
    Ok(all)
}

// Snapshots of these numbers, without labels or blocks.
fn list(alloc: Global, seqs: &[u64]) -> Result<Vec<PlainSnapshot>, Fail> {
    let mut all = Vec::new(alloc);
    for seq in seqs {
        all.push(snapshot(alloc, (*seq, b"", 0, &[]))?)?;
    }
    Ok(all)
}

fn seqs_of(alloc: Global, snapshots: &[PlainSnapshot]) -> Result<Vec<u64>, Fail> {
    let mut seqs = Vec::new(alloc);
    for snapshot in snapshots {
        seqs.push(snapshot.ident.seq)?;
    }
    Ok(seqs)
}

fn numbers_of(alloc: Global, idents: &[Ident]) -> Result<Vec<u64>, Fail> {
    let mut seqs = Vec::new(alloc);
    for ident in idents {
        seqs.push(ident.seq)?;
    }
    Ok(seqs)
}

const POLICY_NAME: &[u8] = b"p";

// A policy with these rules beside those that its kind begins with.
fn policy(alloc: Global, kind: PolicyKind, list: &[Rule]) -> Result<Policy, Fail> {
    let name = Path1::read(alloc, POLICY_NAME)?;
    let mut policy = Policy::new(alloc, name, kind)?;
    for (text, keep, preserve) in list {
        policy.add_rule(Label::read(alloc, *text)?, *keep, *preserve)?;
    }
    Ok(policy)
}

struct Mirror {
    leg: &'static [u32],
    /// Two snapshots of the destination.
    there: &'static [Given],
    missing: &'static [u32],
}

const MIRRORS: &[Mirror] = &[
    Mirror {
        leg: &[3, 0, 5],
        there: &[(2, b"", 0, &[3]), (4, b"", 0, &[])],
        missing: &[5],
    },
    Mirror {
        leg: &[5, 3, 5, 0, 4],
        there: &[(2, b"", 0, &[]), (4, b"", 0, &[4])],
        missing: &[3, 5],
    },
    Mirror {
        leg: &[3, 0, 5],
        there: &[(2, b"", 0, &[5]), (4, b"", 0, &[0, 3])],
        missing: &[],
    },
    Mirror {
        leg: &[0, 0],
        there: &[(2, b"", 0, &[]), (4, b"", 0, &[])],
        missing: &[],
    },
];

#[test]
fn a_mirror_sends_the_blocks_that_no_snapshot_has(rt: HostRuntime) -> Result<(), Fail> {
    for row in MIRRORS {
        mirror_row(&rt, row)?;
    }
    Ok(())
}

fn mirror_row(rt: &(impl Abort + AllocGlobal), row: &Mirror) -> Result<(), Fail> {
    let alloc = rt.alloc();
    let leg = image(alloc, row.leg)?;
    let there = snapshots(alloc, row.there)?;
    let tags = missing_tags(alloc, &leg, &there)?;
    assert_eq!(rt; tags.as_slice(), row.missing);
    assert_eq!(rt; mirror_cost(alloc, &leg, &there)?, row.missing.len());
    Ok(())
}

struct Landing {
    leg: &'static [u32],
    /// The base on both sides.
    at_source: &'static [u32],
    at_destination: &'static [u32],
    free: &'static [u32],
    /// The missing places.
    places: &'static [usize],
    /// The numbers of what lands.
    landed: &'static [u32],
}

const LANDINGS: &[Landing] = &[
    Landing {
        leg: &[3, 0, 5],
        at_source: &[3, 0, 4],
        at_destination: &[1, 0, 2],
        free: &[3, 4],
        places: &[2],
        landed: &[1, 0, 3],
    },
    Landing {
        leg: &[0, 0, 5],
        at_source: &[3, 0, 5],
        at_destination: &[1, 0, 2],
        free: &[3],
        places: &[],
        landed: &[0, 0, 2],
    },
    Landing {
        leg: &[3, 0, 5],
        at_source: &[],
        at_destination: &[],
        free: &[2, 7, 8],
        places: &[0, 2],
        landed: &[2, 0, 7],
    },
    Landing {
        leg: &[3, 5, 3],
        at_source: &[5, 5, 5],
        at_destination: &[1, 1, 1],
        free: &[2, 4, 6],
        places: &[0, 2],
        landed: &[2, 1, 4],
    },
];

#[test]
fn a_vault_lands_missing_blocks_at_free_numbers(rt: HostRuntime) -> Result<(), Fail> {
    for row in LANDINGS {
        landing_row(&rt, row)?;
    }
    Ok(())
}

fn bases_of(alloc: Global, row: &Landing) -> Result<PlainBases, Fail> {
    Ok(PlainBases {
        at_source: image(alloc, row.at_source)?,
        at_destination: image(alloc, row.at_destination)?,
    })
}

fn landing_row(rt: &(impl Abort + AllocGlobal), row: &Landing) -> Result<(), Fail> {
    let alloc = rt.alloc();
    let leg = image(alloc, row.leg)?;
    let bases = bases_of(alloc, row)?;
    let missing = missing_places(alloc, &leg, &bases)?;
    assert_eq!(rt; missing.as_slice(), row.places);
    assert_eq!(rt; vault_cost(alloc, &leg, &bases)?, row.places.len());
    let tags = tags_of(alloc, &vault_landing(alloc, &leg, &bases, row.free)?)?;
    assert_eq!(rt; tags.as_slice(), row.landed);
    Ok(())
}

struct Pruning {
    rules: &'static [Rule],
    needed: u64,
    dropped: &'static [u64],
}

const PRUNINGS: &[Pruning] = &[
    Pruning {
        rules: &[],
        needed: 0,
        dropped: &[2, 3, 7],
    },
    Pruning {
        rules: &[],
        needed: 7,
        dropped: &[2, 3],
    },
    Pruning {
        rules: &[(b"all_source_snapshots", 1, false)],
        needed: 3,
        dropped: &[7],
    },
];

/// What the source has.
const AT_SOURCE: &[u64] = &[2, 5];

/// One of a client, and three of a relationship.
const OF_MAKERS: &[Given] = &[
    (2, b"", 0, &[]),
    (3, b"", 1, &[]),
    (5, b"", 1, &[]),
    (7, b"", 1, &[]),
];

#[test]
fn a_mirror_drops_what_is_neither_needed_nor_in_step(rt: HostRuntime) -> Result<(), Fail> {
    for row in PRUNINGS {
        pruning_row(&rt, row)?;
    }
    Ok(())
}

fn pruning_row(rt: &(impl Abort + AllocGlobal), row: &Pruning) -> Result<(), Fail> {
    let alloc = rt.alloc();
    let source = list(alloc, AT_SOURCE)?;
    let there = snapshots(alloc, OF_MAKERS)?;
    let policy = policy(alloc, PolicyKind::AsyncMirror, row.rules)?;
    let gone = pruned(alloc, &policy, &[ident(row.needed)], &source, &there)?;
    let seqs = seqs_of(alloc, &gone)?;
    assert_eq!(rt; seqs.as_slice(), row.dropped);
    Ok(())
}

struct Common {
    source: &'static [u64],
    destination: &'static [u64],
    newest: Option<Ident>,
}

const FOUR: Option<Ident> = Some(Ident { origin: 0, seq: 4 });

const COMMONS: &[Common] = &[
    Common {
        source: &[2, 4, 6],
        destination: &[2, 4, 9],
        newest: FOUR,
    },
    Common {
        source: &[6, 4, 2],
        destination: &[2, 4, 9],
        newest: FOUR,
    },
    Common {
        source: &[2],
        destination: &[4],
        newest: None,
    },
    Common {
        source: &[2],
        destination: &[],
        newest: None,
    },
];

#[test]
fn the_newest_common_snapshot(rt: HostRuntime) -> Result<(), Fail> {
    for row in COMMONS {
        common_row(&rt, row)?;
    }
    Ok(())
}

fn common_row(rt: &(impl Abort + AllocGlobal), row: &Common) -> Result<(), Fail> {
    let source = list(rt.alloc(), row.source)?;
    let destination = list(rt.alloc(), row.destination)?;
    assert_eq!(rt; common(&source, &destination), row.newest);
    Ok(())
}

struct Transfer {
    policy: PolicyKind,
    rules: &'static [Rule],
    source: Kind,
    base: Option<Ident>,
    sent: &'static [u64],
}

const TWO: Option<Ident> = Some(Ident { origin: 0, seq: 2 });

const EIGHT: Option<Ident> = Some(Ident { origin: 0, seq: 8 });

const TRANSFERS: &[Transfer] = &[
    Transfer {
        policy: PolicyKind::AsyncMirror,
        rules: &[(b"all_source_snapshots", 1, false)],
        source: Kind::Rw,
        base: TWO,
        sent: &[6, 8, 7],
    },
    Transfer {
        policy: PolicyKind::AsyncMirror,
        rules: &[(b"all_source_snapshots", 1, false)],
        source: Kind::Dp,
        base: TWO,
        sent: &[6, 8],
    },
    Transfer {
        policy: PolicyKind::AsyncMirror,
        rules: &[],
        source: Kind::Rw,
        base: TWO,
        sent: &[7],
    },
    Transfer {
        policy: PolicyKind::AsyncMirror,
        rules: &[],
        source: Kind::Dp,
        base: TWO,
        sent: &[8],
    },
    Transfer {
        policy: PolicyKind::Vault,
        rules: &[(b"d", 1, false)],
        source: Kind::Rw,
        base: TWO,
        sent: &[8],
    },
    Transfer {
        policy: PolicyKind::Vault,
        rules: &[(b"d", 1, false)],
        source: Kind::Dp,
        base: None,
        sent: &[2, 8],
    },
    Transfer {
        policy: PolicyKind::Vault,
        rules: &[(b"d", 1, false)],
        source: Kind::Rw,
        base: EIGHT,
        sent: &[],
    },
];

/// Four snapshots labelled d, d, not at all and d.
const SENT_BY_LABEL: &[Given] = &[
    (2, b"d", 0, &[]),
    (4, b"d", 0, &[]),
    (6, b"", 0, &[]),
    (8, b"d", 0, &[]),
];

/// Of those the destination has the second.
const AT_DESTINATION: &[u64] = &[4];

#[test]
fn what_a_transfer_sends(rt: HostRuntime) -> Result<(), Fail> {
    for row in TRANSFERS {
        transfer_row(&rt, row)?;
    }
    Ok(())
}

fn source_of(alloc: Global, kind: Kind) -> Result<PlainSource, Fail> {
    Ok(PlainSource {
        number: 0,
        kind,
        snapshots: snapshots(alloc, SENT_BY_LABEL)?,
    })
}

// What transfer 3 sends.
fn transfer_row(rt: &(impl Abort + AllocGlobal), row: &Transfer) -> Result<(), Fail> {
    let alloc = rt.alloc();
    let source = source_of(alloc, row.source)?;
    let there = list(alloc, AT_DESTINATION)?;
    let policy = policy(alloc, row.policy, row.rules)?;
    let sends = legs(alloc, 3, &policy, row.base, &source, &there)?;
    let numbers = numbers_of(alloc, &sends.idents)?;
    assert_eq!(rt; numbers.as_slice(), row.sent);
    Ok(())
}
