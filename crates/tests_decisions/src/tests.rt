ghost use Rattle.std.specs.Prelude.{◌<◌};

use sm_base::{Ident, Kind, Label, NoMemory, Path1, PolicyKind, RelNo, SnapName, VolNo};
use sm_graph::Graph;
use sm_history::{ActFault, History};
use sm_model::{Entry, Event, Reply};
use sm_policy::{Policy, RuleFault};
use sm_resync::{common, revert_list};
use sm_root::{BlockMap, Root, RootSnapshot, Snapshots};
use std::alloc::Global;
use std::process::Abort;
use std::test::Fail;

// No text is no label.
fn label(alloc: Global, text: &[u8]) -> Result<Option<Label>, Fail> {
    if text.is_empty() {
        return Ok(None);
    }
    Ok(Some(Label::read(alloc, text)?))
}

fn labels(alloc: Global, texts: &[&'static [u8]]) -> Result<Vec<Option<Label>>, Fail> {
    let mut all = Vec::new(alloc);
    for text in texts {
        all.push(label(alloc, *text)?)?;
    }
    Ok(all)
}

// A vault that keeps so many of the label d.
fn vault(alloc: Global, keep: u32, preserve: bool) -> Result<Policy, Fail> {
    let name = Path1::read(alloc, b"v")?;
    let mut policy = Policy::new(alloc, name, PolicyKind::Vault)?;
    policy.add_rule(Label::read(alloc, b"d")?, keep, preserve)?;
    Ok(policy)
}

struct Retention {
    keep: u32,
    preserve: bool,
    needed: [bool; 5],
    kept: [bool; 5],
}

/// Of five snapshots labelled d, not at all, e, d and d.
const RETENTIONS: &[Retention] = &[
    Retention {
        keep: 1,
        preserve: false,
        needed: [true, false, false, false, false],
        kept: [true, false, false, false, true],
    },
    Retention {
        keep: 2,
        preserve: false,
        needed: [false, false, false, true, false],
        kept: [false, false, false, true, true],
    },
    Retention {
        keep: 1,
        preserve: true,
        needed: [false, false, false, false, false],
        kept: [true, false, false, true, true],
    },
    Retention {
        keep: 9,
        preserve: false,
        needed: [false, true, false, false, false],
        kept: [true, true, false, true, true],
    },
];

#[test]
fn a_vault_keeps_by_its_rules(rt: HostRuntime) -> Result<(), Fail> {
    for row in RETENTIONS {
        retention_row(&rt, row)?;
    }
    Ok(())
}

fn retention_row(rt: &(impl Abort + AllocGlobal), row: &Retention) -> Result<(), Fail> {
    let alloc = rt.alloc();
    let policy = vault(alloc, row.keep, row.preserve)?;
    let labels = [
        label(alloc, b"d")?,
        None,
        label(alloc, b"e")?,
        label(alloc, b"d")?,
        label(alloc, b"d")?,
    ];
    let kept = policy.fold(alloc, &labels, &row.needed)?;
    assert_eq!(rt; kept.as_slice(), row.kept.as_slice());
    Ok(())
}

#[test]
fn rules_are_added_by_their_refusals(rt: HostRuntime) -> Result<(), Fail> {
    let alloc = rt.alloc();
    let mut policy = vault(alloc, 251, false)?;
    let again = policy.add_rule(Label::read(alloc, b"d")?, 251, false);
    assert_eq!(rt; again.err(), Some(RuleFault::RuleTaken));
    let other = policy.add_rule(Label::read(alloc, b"e")?, 252, false);
    assert_eq!(rt; other.err(), Some(RuleFault::BadKeep));
    assert_eq!(rt; policy.copy(alloc)?.rules().len(), 1);
    Ok(())
}

struct Limit {
    keep: u32,
    preserve: bool,
    /// The labels that are there, and those that would come.
    there: &'static [&'static [u8]],
    coming: &'static [&'static [u8]],
    /// Whether the rule is named.
    reached: bool,
}

const LIMITS: &[Limit] = &[
    Limit {
        keep: 2,
        preserve: true,
        there: &[b"d"],
        coming: &[b"d", b"d"],
        reached: true,
    },
    Limit {
        keep: 3,
        preserve: true,
        there: &[b"d", b"e"],
        coming: &[b"d", b"e", b"d"],
        reached: false,
    },
    Limit {
        keep: 2,
        preserve: false,
        there: &[b"d"],
        coming: &[b"d", b"d"],
        reached: false,
    },
    Limit {
        keep: 1,
        preserve: true,
        there: &[b"d", b"d"],
        coming: &[],
        reached: true,
    },
];

#[test]
fn a_rule_that_preserves_has_a_limit(rt: HostRuntime) -> Result<(), Fail> {
    for row in LIMITS {
        limit_row(&rt, row)?;
    }
    Ok(())
}

fn limit_row(rt: &(impl Abort + AllocGlobal), row: &Limit) -> Result<(), Fail> {
    let alloc = rt.alloc();
    let policy = vault(alloc, row.keep, row.preserve)?;
    let there = labels(alloc, row.there)?;
    let coming = labels(alloc, row.coming)?;
    assert_eq!(rt; policy.keep_reached(&there, &coming).is_some(), row.reached);
    Ok(())
}

// An edge of a mirror from volume 0 to 1, and one of a vault from 1 to 2.
fn two_edges(alloc: Global) -> Result<Graph, NoMemory> {
    let mut graph = Graph::new(alloc);
    graph.add(RelNo(1), VolNo(0), VolNo(1), true)?;
    graph.add(RelNo(2), VolNo(1), VolNo(2), false)?;
    Ok(graph)
}

#[test]
fn a_graph_is_walked(rt: HostRuntime) -> Result<(), Fail> {
    let alloc = rt.alloc();
    let graph = two_edges(alloc)?;
    assert!(rt; graph.would_cycle(alloc, VolNo(2), VolNo(0))?);
    assert!(rt; !graph.would_cycle(alloc, VolNo(0), VolNo(2))?);
    let upstream = graph.upstream(alloc, VolNo(2), false)?;
    assert_eq!(rt; upstream.len(), 2);
    assert!(rt; upstream.contains(&VolNo(0)) && upstream.contains(&VolNo(1)));
    Ok(())
}

// From volume 0 on to the next and the next, by so many edges, as many of them side by side.
fn ladder(alloc: Global, edges: u32, sides: u32) -> Result<Graph, NoMemory>
    requires { 0 < sides }
{
    let mut graph = Graph::new(alloc);
    for number in 0..edges {
        let at = number / sides;
        graph.add(RelNo(number), VolNo(at), VolNo(at + 1), false)?;
    }
    Ok(graph)
}

#[test]
fn a_long_chain_is_walked(rt: HostRuntime) -> Result<(), Fail> {
    let alloc = rt.alloc();
    let graph = ladder(alloc, 31, 1)?;
    assert!(rt; graph.would_cycle(alloc, VolNo(31), VolNo(0))?);
    assert!(rt; !graph.would_cycle(alloc, VolNo(0), VolNo(31))?);
    assert_eq!(rt; graph.upstream(alloc, VolNo(31), false)?.len(), 31);
    Ok(())
}

// Two edges side by side at each step: 2^31 walks lead from the first volume to the last.
#[test]
fn each_edge_is_visited_once(rt: HostRuntime) -> Result<(), Fail> {
    let alloc = rt.alloc();
    let graph = ladder(alloc, 62, 2)?;
    assert!(rt; graph.would_cycle(alloc, VolNo(31), VolNo(0))?);
    assert!(rt; !graph.would_cycle(alloc, VolNo(0), VolNo(31))?);
    assert_eq!(rt; graph.upstream(alloc, VolNo(31), false)?.len(), 31);
    assert!(rt; graph.upstream(alloc, VolNo(31), true)?.is_empty());
    Ok(())
}

#[test]
fn an_edge_goes(rt: HostRuntime) -> Result<(), Fail> {
    let alloc = rt.alloc();
    let graph = two_edges(alloc)?;
    let mut fewer = graph.copy(alloc)?;
    fewer.remove(RelNo(2));
    assert_eq!(rt; graph.incoming(VolNo(2)), Some(RelNo(2)));
    assert_eq!(rt; fewer.incoming(VolNo(2)), None);
    Ok(())
}

// The root of a volume with snapshots of these numbers.
fn root(alloc: Global, kind: Kind, numbers: &[u64]) -> Result<Root, Fail> {
    let mut snapshots = Vec::new(alloc);
    for seq in numbers {
        snapshots.push(RootSnapshot {
            ident: Ident {
                origin: 0,
                seq: *seq,
            },
            name: SnapName::read(alloc, b"s")?,
            label: None,
            time: 0,
            made: 0,
            map: BlockMap::from_vec(Vec::new(alloc))?,
        })?;
    }
    Ok(Root {
        number: VolNo(0),
        kind,
        family: 0,
        logical: 1,
        physical: 1,
        next: 1,
        stable: BlockMap::from_vec(Vec::new(alloc))?,
        snapshots: Snapshots::from_vec(snapshots),
    })
}

#[test]
fn the_newest_common_snapshot(rt: HostRuntime) -> Result<(), Fail> {
    let alloc = rt.alloc();
    let source = root(alloc, Kind::Rw, &[2, 4, 6])?;
    let destination = root(alloc, Kind::Rw, &[2, 4, 9])?;
    let newest = common(&source, &destination).ok_or("none")?;
    assert_eq!(rt; newest.seq, 4);
    let drops = revert_list(alloc, &destination, newest)?;
    assert_eq!(rt; drops.as_slice(), [Ident { origin: 0, seq: 9 }].as_slice());
    Ok(())
}

#[test]
fn a_history_grows_up_to_its_limit(rt: HostRuntime) -> Result<(), Fail> {
    let mut history = History::new(rt.alloc(), 1);
    history.reserve()?;
    history.push(Entry {
        actor: 0,
        line: 1,
        event: Event::ShowVolumes,
        reply: Reply::Idle,
    });
    assert_eq!(rt; history.reserve().err(), Some(ActFault::HistoryFull));
    assert_eq!(rt; history.into_entries().len(), 1);
    Ok(())
}
