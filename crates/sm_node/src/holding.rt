// Which relationship needs a snapshot, so that it may not go.
ghost use Rattle.std.specs.Prelude.{◌≡◌, false, ℕ, ◌&&◌, ◌||◌, ◌==◌, List, [], length, map, slice_index_or, IfOk, OnOk};
ghost use Rattle.std.specs.List.{find, list_any};
ghost use Rattle.std.specs.Option.{option_map};
ghost use Rattle.sm_defs.specs.Words.{Ascends, same_ident, is_ident, has_ident};
ghost use Rattle.sm_defs.specs.Relationship.{is_mirror, legs_of};
ghost use Rattle.sm_defs.specs.World.{Up, no_policy};
ghost use Rattle.sm_defs.specs.Edges.{is_snapmirrored, is_mirror_edge, mirror_edges};
ghost use Rattle.sm_defs.specs.Needed.{needed_at_destination, needed_for, holder};
ghost use Rattle.sm_catroot.specs.Condition.{number_of};
ghost use Rattle.sm_graph.specs.Links.{edges_of};
ghost use Rattle.sm_node.specs.Nodes.{stopped_relation, world_with};
ghost use Rattle.sm_node.specs.Holding.{holder_number, with_link};

use crate::seat::Seat;
use crate::states::state_at;
use sm_base::{Ident, NoMemory, PolicyKind, RelNo, VolNo};
use sm_catroot::Catalog;
use sm_defs::MirrorState;
use sm_disk::Disk;
use sm_graph::Graph;
use sm_policy::Policy;
use sm_relation::Relation;
use std::alloc::Global;

fn is_mirror(kind: PolicyKind) -> bool
    ensures { result ≡ is_mirror kind }
{
    match kind {
        PolicyKind::AsyncMirror => true,
        PolicyKind::Vault => false,
    }
}

// Whether the policy of the number makes mirrors. Behind the last policy stands a mirror's.
fn makes_mirrors(policies: &[Policy], number: u32) -> bool
    ensures { result ≡ is_mirror (slice_index_or policies.now number no_policy).kind }
{
    match policies.get(number as usize) {
        None => true,
        Some(policy) => is_mirror(policy.kind()),
    }
}

fn is_snapmirrored(state: MirrorState) -> bool
    ensures { result ≡ is_snapmirrored state }
{
    match state {
        MirrorState::Snapmirrored => true,
        MirrorState::Uninitialized | MirrorState::BrokenOff => false,
    }
}

fn is_mirror_edge<D: Disk>(catalog: &Catalog, seats: &[Seat<D>], relation: &Relation) -> bool
    requires { length catalog.now.volumes ≡ length seats.now }
    ensures { (lengths : List ℕ) → result ≡ is_mirror_edge (world_with catalog.now seats.now lengths) (stopped_relation relation.now) }
{
    relation.destination_half
        && makes_mirrors(&catalog.policies, relation.policy)
        && is_snapmirrored(state_at(seats, relation.destination.0))
}

fn is_same(one: Ident, other: Ident) -> bool
    ensures { result ≡ same_ident one other }
{
    one.origin == other.origin && one.seq == other.seq
}

fn is_base(base: Option<Ident>, ident: Ident) -> bool
    ensures { result ≡ is_ident base ident }
{
    match base {
        None => false,
        Some(base) => is_same(base, ident),
    }
}

fn is_among(idents: &[Ident], ident: Ident) -> bool
    ensures { result ≡ has_ident idents.now ident }
{
    idents.iter().any(|one| is_same(*one, ident))
}

fn is_leg(relation: &Relation, ident: Ident) -> bool
    ensures { result ≡ has_ident (legs_of (stopped_relation relation.now).transfer) ident }
{
    match &relation.transfer {
        None => false,
        Some(standing) => is_among(standing.legs.as_slice(), ident),
    }
}

// Whether the source's side of the relationship still needs the snapshot.
fn is_to_send(relation: &Relation, ident: Ident) -> bool
    ensures { result ≡ (relation.now.source_half && (is_ident relation.now.base ident || has_ident (legs_of (stopped_relation relation.now).transfer) ident)) }
{
    relation.source_half && (is_base(relation.base, ident) || is_leg(relation, ident))
}

fn is_base_of(relation: &Relation, volume: VolNo, ident: Ident) -> bool
    ensures { (w : Up) → result ≡ needed_at_destination w volume.0 ident (stopped_relation relation.now) }
{
    relation.destination_half && relation.destination.0 == volume.0 && is_base(relation.base, ident)
}

// Whether the relationship needs the snapshot on the volume; `mirrors` are the edges of the world's mirrors.
fn is_needed(
    alloc: Global,
    mirrors: &Graph,
    relation: &Relation,
    volume: VolNo,
    ident: Ident,
) -> Result<bool, NoMemory>
    ensures { IfOk result (λ needed. (w : Up) → mirror_edges w ≡ edges_of false mirrors.now → needed ≡ needed_for w volume.0 ident (stopped_relation relation.now)) }
{
    if is_base_of(relation, volume, ident) {
        return Ok(true);
    }
    if !is_to_send(relation, ident) {
        return Ok(false);
    }
    mirrors.would_cycle(alloc, relation.source, volume)
}

// The lowest of these relationships that needs the snapshot on the volume.
fn first_holder(
    alloc: Global,
    mirrors: &Graph,
    relations: &[Relation],
    volume: VolNo,
    ident: Ident,
) -> Result<Option<RelNo>, NoMemory>
    ensures { IfOk result (λ number. (w : Up) → mirror_edges w ≡ edges_of false mirrors.now → number ≡ option_map holder_number (find (needed_for w volume.0 ident) (map stopped_relation relations.now))) }
{
    for relation in relations {
        if is_needed(alloc, mirrors, relation, volume, ident)? {
            return Ok(Some(relation.number));
        }
    }
    Ok(None)
}

// Adds the edge of the relationship where it is a mirror's.
fn add_mirror<D: Disk>(
    graph: &mut Graph,
    catalog: &Catalog,
    seats: &[Seat<D>],
    relation: &Relation,
) -> Result<(), NoMemory>
    requires new { list_any (λ l. l.number == relation.now.number.0) graph.old ≡ false }
    requires places { length catalog.now.volumes ≡ length seats.now }
    ensures { OnOk result (graph.new ≡ with_link (is_mirror_edge (world_with catalog.now seats.now []) (stopped_relation relation.now)) relation.now graph.old) }
{
    if is_mirror_edge(catalog, seats, relation) {
        graph.add(relation.number, relation.source, relation.destination, true)?;
    }
    Ok(())
}

// The edges of the mirrors.
fn mirrors<D: Disk>(alloc: Global, catalog: &Catalog, seats: &[Seat<D>]) -> Result<Graph, NoMemory>
    requires ascending { Ascends (map number_of catalog.now.relations) }
    requires places { length catalog.now.volumes ≡ length seats.now }
    ensures { IfOk result (λ graph. (lengths : List ℕ) → mirror_edges (world_with catalog.now seats.now lengths) ≡ edges_of false graph) }
{
    let mut graph = Graph::new(alloc);
    for relation in &catalog.relations {
        add_mirror(&mut graph, catalog, seats, relation)?;
    }
    Ok(graph)
}

/// The lowest relationship that needs a snapshot on a volume. No device is called.
pub fn holder<D: Disk>(
    alloc: Global,
    catalog: &Catalog,
    seats: &[Seat<D>],
    volume: VolNo,
    ident: Ident,
) -> Result<Option<RelNo>, NoMemory>
    requires ascending { Ascends (map number_of catalog.now.relations) }
    requires places { length catalog.now.volumes ≡ length seats.now }
    ensures { IfOk result (λ number. (lengths : List ℕ) → number ≡ option_map holder_number (holder (world_with catalog.now seats.now lengths) volume.0 ident)) }
{
    let mirrors = mirrors(alloc, catalog, seats)?;
    first_holder(alloc, &mirrors, &catalog.relations, volume, ident)
}
