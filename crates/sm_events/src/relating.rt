// A volume is made the destination of another.
ghost use Rattle.std.specs.Prelude.{◌≡◌, ◌==◌, ◌<◌, ◌&&◌, ◌||◌, false, not, [], List, ℕ, length, map, slice_index_or, IfOk, OnOk};
ghost use Rattle.std.specs.List.{find, list_any};
ghost use Rattle.std.specs.Option.{option_copied};
ghost use Rattle.sm_base.specs.declared.limits.TheConstants.{LAST_RELATION, MOST_VOLUMES, MOST_POLICIES};
ghost use Rattle.sm_base.specs.declared.refusal.Refusal.TheVariants as refusals;
ghost use Rattle.sm_defs.specs.Edges as edges;
ghost use Rattle.sm_defs.specs.Relationship.{is_mirror};
ghost use Rattle.sm_defs.specs.Volume.{is_rw, no_volume};
ghost use Rattle.sm_defs.specs.Words.{Ascends, found};
ghost use Rattle.sm_defs.specs.World.{policy_at, volume_at};
ghost use Rattle.sm_model.specs.Answers.{goes_to};
ghost use Rattle.sm_model.specs.OfRelations as answers;
ghost use Rattle.sm_model.specs.Sound.{SoundUp};
ghost use Rattle.sm_model.specs.Telling.{told_by};
ghost use Rattle.sm_shape.specs.Blanked.{blanked};
ghost use Rattle.sm_catroot.specs.declared.placed.Placed.{Placed as PlainPlaced};
ghost use Rattle.sm_catroot.specs.Condition.{IsCatalog, number_of};
ghost use Rattle.sm_node.specs.Nodes.{all_placed, stopped_relation, world_with, world_of, IsUp};
ghost use Rattle.sm_node.specs.Acts.{Acts};
ghost use Rattle.sm_node.specs.Served.{first_of};
ghost use Rattle.sm_graph.specs.Links.{edges_of};
ghost use Rattle.sm_node.specs.Holding.{with_link};
ghost use Rattle.sm_events.specs.Relating.{already_by, are_full, goes_there, relation_test, related, related_at, with_new_relation};

use crate::deciding::settle;
use crate::policies::place_of;
use sm_base::limits::{LAST_RELATION, MOST_RELATIONS};
use sm_base::{Kind, NoMemory, Path, Path1, PolicyKind, Refusal, RelNo, VolNo, What};
use sm_catroot::Catalog;
use sm_disk::Disk;
use sm_graph::Graph;
use sm_model::Reply;
use sm_node::{Node, NodeFault, Seat};
use sm_relation::Relation;
use sm_root::Root;
use std::alloc::Global;

pub fn relations_of(catalog: &Catalog) -> &[Relation]
    ensures { result.now ≡ catalog.now.relations }
{
    &catalog.relations
}

// ---- the edges

fn is_rw(kind: Kind) -> bool
    ensures { result ≡ is_rw kind }
{
    match kind {
        Kind::Rw => true,
        Kind::Dp => false,
    }
}

// Whether clients may write the volume of the number. Behind the last volume stands a blank one, which they may not.
fn is_writable<D: Disk>(seats: &[Seat<D>], number: u32) -> bool
    ensures { (ps : List PlainPlaced) → length ps ≡ length seats.now → result ≡ is_rw (slice_index_or (all_placed ps seats.now) number no_volume).kind }
{
    match seats.get(number as usize) {
        None => false,
        Some(seat) => is_rw(seat.volume.root().kind),
    }
}

fn is_edge<D: Disk>(catalog: &Catalog, seats: &[Seat<D>], relation: &Relation) -> bool
    requires { length catalog.now.volumes ≡ length seats.now }
    ensures { (lengths : List ℕ) → result ≡ edges.is_edge (world_with catalog.now seats.now lengths) (stopped_relation relation.now) }
{
    let _ = catalog;
    relation.destination_half
        && (!is_writable(seats, relation.destination.0) || relation.transfer.is_some())
}

// Adds the edge of the relationship where it has one. All edges close cycles alike, those of mirrors and of vaults.
fn add_edge<D: Disk>(
    graph: &mut Graph,
    catalog: &Catalog,
    seats: &[Seat<D>],
    relation: &Relation,
) -> Result<(), NoMemory>
    requires new { list_any (λ l. l.number == relation.now.number.0) graph.old ≡ false }
    requires places { length catalog.now.volumes ≡ length seats.now }
    ensures { OnOk result (graph.new ≡ with_link (edges.is_edge (world_with catalog.now seats.now []) (stopped_relation relation.now)) relation.now graph.old) }
{
    if is_edge(catalog, seats, relation) {
        graph.add(relation.number, relation.source, relation.destination, true)?;
    }
    Ok(())
}

// Which volumes feed which.
fn edges<D: Disk>(alloc: Global, catalog: &Catalog, seats: &[Seat<D>]) -> Result<Graph, NoMemory>
    requires ascending { Ascends (map number_of catalog.now.relations) }
    requires places { length catalog.now.volumes ≡ length seats.now }
    ensures { IfOk result (λ graph. (lengths : List ℕ) → edges.edges (world_with catalog.now seats.now lengths) ≡ edges_of false graph) }
{
    let mut graph = Graph::new(alloc);
    for relation in &catalog.relations {
        add_edge(&mut graph, catalog, seats, relation)?;
    }
    Ok(graph)
}

// Whether an edge from source to destination would close a walk.
fn closes<D: Disk>(
    alloc: Global,
    catalog: &Catalog,
    seats: &[Seat<D>],
    source: u32,
    destination: u32,
) -> Result<bool, NoMemory>
    requires places { length catalog.now.volumes ≡ length seats.now }
    requires ascending { Ascends (map number_of catalog.now.relations) }
    ensures { IfOk result (λ does. does ≡ answers.closes (edges.edges (world_with catalog.now seats.now [])) source destination) }
{
    let graph = edges(alloc, catalog, seats)?;
    graph.would_cycle(alloc, VolNo(source), VolNo(destination))
}

// ---- the other tests

fn first_to(relations: &[Relation], number: u32) -> Option<&Relation>
    ensures { option_copied result ≡ find (goes_there number) relations.now }
{
    relations.iter().find(|relation| relation.destination_half && relation.destination.0 == number)
}

// The relationship whose destination the volume is, with its destination half.
fn destination_of(relations: &[Relation], number: u32) -> Option<RelNo>
    ensures { answers.already (found (goes_to number) (map stopped_relation relations.now)) ≡ already_by result }
{
    match first_to(relations, number) {
        None => None,
        Some(relation) => Some(relation.number),
    }
}

fn is_mirror(kind: PolicyKind) -> bool
    ensures { result ≡ is_mirror kind }
{
    match kind {
        PolicyKind::AsyncMirror => true,
        PolicyKind::Vault => false,
    }
}

// A mirror has as many places for blocks as its source, and any destination as many blocks.
fn roots_differ(kind: PolicyKind, source: &Root, destination: &Root) -> bool
    ensures { result ≡ (not (source.now.logical == destination.now.logical) || (is_mirror kind && not (source.now.physical == destination.now.physical))) }
{
    source.logical != destination.logical
        || (is_mirror(kind) && source.physical != destination.physical)
}

fn sizes_differ<D: Disk>(
    catalog: &Catalog,
    seats: &[Seat<D>],
    source: u32,
    destination: u32,
    policy: u32,
) -> bool
    requires places { length catalog.now.volumes ≡ length seats.now }
    requires source { source < length seats.now }
    requires destination { destination < length seats.now }
    requires policy { policy < length catalog.now.policies }
    ensures { result ≡ answers.sizes_differ (policy_at (world_with catalog.now seats.now []) policy) (volume_at (world_with catalog.now seats.now []) source) (volume_at (world_with catalog.now seats.now []) destination) }
{
    let policy = &catalog.policies[policy as usize];
    let from = &seats[source as usize];
    let to = &seats[destination as usize];
    roots_differ(policy.kind(), from.volume.root(), to.volume.root())
}

fn are_full(catalog: &Catalog) -> bool
    ensures { result ≡ are_full catalog.now }
{
    catalog.relations.len() == MOST_RELATIONS || catalog.next_relation == LAST_RELATION
}

// Whether the one volume may follow the other, with the first refusal.
#[tactic(auto, unfolding(sm_model::specs::Answers::and_then, sm_model::specs::Answers::refused_if))]
fn relation_test<D: Disk>(
    alloc: Global,
    catalog: &Catalog,
    seats: &[Seat<D>],
    source: u32,
    destination: u32,
    policy: u32,
) -> Result<Result<(), Refusal>, NoMemory>
    requires places { length catalog.now.volumes ≡ length seats.now }
    requires ascending { Ascends (map number_of catalog.now.relations) }
    requires source { source < length seats.now }
    requires destination { destination < length seats.now }
    requires policy { policy < length catalog.now.policies }
    ensures { IfOk result (λ may. may ≡ relation_test catalog.now (world_with catalog.now seats.now []) source destination policy) }
{
    if let Some(relation) = destination_of(relations_of(catalog), destination) {
        return Ok(Err(Refusal::AlreadyDestination { relation }));
    }
    if sizes_differ(catalog, seats, source, destination, policy) {
        return Ok(Err(Refusal::SizeMismatch));
    }
    if closes(alloc, catalog, seats, source, destination)? {
        return Ok(Err(Refusal::Cycle));
    }
    if are_full(catalog) {
        return Ok(Err(Refusal::Full {
            what: What::Relations,
        }));
    }
    Ok(Ok(()))
}

// ---- the decision

// The catalogue with a further relationship.
fn with_new_relation(
    alloc: Global,
    catalog: &Catalog,
    source: u32,
    destination: u32,
    policy: u32,
) -> Result<Catalog, NoMemory>
    requires room { catalog.now.next_relation < LAST_RELATION }
    ensures { IfOk result (λ next. next ≡ with_new_relation catalog.now source destination policy) }
{
    let mut next = catalog.copy(alloc)?;
    next.relations.push(Relation {
        number: RelNo(next.next_relation),
        source: VolNo(source),
        destination: VolNo(destination),
        policy,
        source_half: true,
        destination_half: true,
        quiesced: false,
        base: None,
        transfer: None,
    })?;
    next.next_relation += 1;
    Ok(next)
}

fn decide_at<D: Disk>(
    alloc: Global,
    catalog: &Catalog,
    seats: &[Seat<D>],
    source: u32,
    destination: u32,
    policy: u32,
) -> Result<Result<Catalog, Refusal>, NoMemory>
    requires fits { IsCatalog catalog.now }
    requires places { length catalog.now.volumes ≡ length seats.now }
    requires source { source < length seats.now }
    requires destination { destination < length seats.now }
    requires policy { policy < length catalog.now.policies }
    ensures { IfOk result (λ decided. decided ≡ related_at catalog.now (world_with catalog.now seats.now []) source destination policy) }
{
    match relation_test(alloc, catalog, seats, source, destination, policy)? {
        Err(refusal) => Ok(Err(refusal)),
        Ok(()) => Ok(Ok(with_new_relation(alloc, catalog, source, destination, policy)?)),
    }
}

fn no_policy(alloc: Global, name: &Path1) -> Result<Refusal, NoMemory>
    ensures { IfOk result (λ refusal. refusal ≡ refusals.NoPolicy name.now) }
{
    Ok(Refusal::NoPolicy {
        name: name.copy(alloc)?,
    })
}

// The catalogue with a relationship of the volumes by the policy, or why there is none.
fn decide<D: Disk + Drop>(
    alloc: Global,
    node: &Node<D>,
    source: &Path,
    destination: &Path,
    policy: &Path1,
) -> Result<Result<Catalog, Refusal>, NoMemory>
    requires up { IsUp node.now }
    ensures { IfOk result (λ decided. decided ≡ related node.now.root.held (world_of node.now) source.now destination.now policy.now) }
{
    node.told_up();
    let from = match node.named(alloc, source)? {
        Err(refusal) => return Ok(Err(refusal)),
        Ok(found) => found.at,
    };
    let to = match node.named(alloc, destination)? {
        Err(refusal) => return Ok(Err(refusal)),
        Ok(found) => found.at,
    };
    let catalog = node.catalog();
    match place_of(&catalog.policies, policy.text()) {
        None => Ok(Err(no_policy(alloc, policy)?)),
        Some(by) => decide_at(
            alloc,
            catalog,
            node.seats(),
            from as u32,
            to as u32,
            by as u32,
        ),
    }
}

fn next_number(catalog: &Catalog) -> RelNo
    ensures { result.0 ≡ catalog.now.next_relation }
{
    RelNo(catalog.next_relation)
}

/// Relates two volumes by a policy, as an event that is answered twice. Every refusal is decided from memory alone, in
/// time linear in the volumes and the relationships.
pub fn relate<D: Disk + Drop>(
    alloc: Global,
    node: &mut Node<D>,
    source: &Path,
    destination: &Path,
    policy: &Path1,
) -> Result<(Reply, Reply), NodeFault>
    requires up { IsUp node.old }
    requires sound { SoundUp (blanked (world_of node.old)) }

    ensures acts { Acts D.state (answers.relate (world_of node.old) source.now destination.now policy.now) node.old (first_of result) node.new }
    ensures twice { IfOk result (λ replies. told_by replies.1 ≡ told_by replies.0) }
{
    node.told_up();
    let decided = decide(alloc, node, source, destination, policy)?;
    let relation = next_number(node.catalog());
    settle(alloc, node, decided, Reply::Related { relation })
}
