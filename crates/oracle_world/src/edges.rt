// States of relationships, and where walks along them lead.
ghost use Rattle.std.specs.Prelude.{◌≡◌, ◌≤◌, length};
ghost use Rattle.sm_defs.specs.Volume.{is_rw};
ghost use Rattle.sm_defs.specs.Relationship.{is_mirror};
ghost use Rattle.sm_defs.specs.Edges.{mirror_state, state_of, is_snapmirrored, status, runs, is_edge, is_mirror_edge, upstream};
ghost use Rattle.oracle_world.specs.Walks.{edges_among, is_walked, any_leads};

use crate::finding::{kind_at, policy_kind_at, snapshots_at};
use crate::values::{PlainEdges, PlainVolume, PlainWorld};
use sm_base::{Kind, PolicyKind};
use sm_defs::{MirrorState, Status4};
use sm_model::WorldRelation;

/// Whether clients may write a volume of the kind.
pub fn is_rw(kind: Kind) -> bool
    ensures { result ≡ is_rw kind }
{
    match kind {
        Kind::Rw => true,
        Kind::Dp => false,
    }
}

/// Whether a policy of the kind is a mirror's.
pub fn is_mirror(kind: PolicyKind) -> bool
    ensures { result ≡ is_mirror kind }
{
    match kind {
        PolicyKind::AsyncMirror => true,
        PolicyKind::Vault => false,
    }
}

fn state_of(writable: bool, empty: bool) -> MirrorState
    ensures { result ≡ state_of writable empty }
{
    if writable {
        MirrorState::BrokenOff
    } else if empty {
        MirrorState::Uninitialized
    } else {
        MirrorState::Snapmirrored
    }
}

/// How a volume stands as a destination.
pub fn mirror_state(volume: &PlainVolume) -> MirrorState
    ensures { result ≡ mirror_state volume.now }
{
    state_of(is_rw(volume.kind), volume.snapshots.is_empty())
}

/// Whether a transfer of the relationship runs.
pub fn runs(relation: &WorldRelation) -> bool
    ensures { result ≡ runs relation.now }
{
    match &relation.transfer {
        None => false,
        Some(transfer) => transfer.stopped.is_none(),
    }
}

/// What a relationship is doing.
pub fn status(relation: &WorldRelation) -> Status4
    ensures { result ≡ status relation.now }
{
    if runs(relation) {
        if relation.quiesced {
            Status4::Quiescing
        } else {
            Status4::Transferring
        }
    } else if relation.quiesced {
        Status4::Quiesced
    } else {
        Status4::Idle
    }
}

/// Whether a relationship ties its destination to its source: the destination is read-only, or a
/// transfer stands.
pub fn is_edge(world: &PlainWorld, relation: &WorldRelation) -> bool
    ensures { result ≡ is_edge world.now relation.now }
{
    relation.destination_half
        && (!is_rw(kind_at(world, relation.destination.0 as usize)) || relation.transfer.is_some())
}

/// Whether a relationship is a mirror that shows a snapshot.
pub fn is_mirror_edge(world: &PlainWorld, relation: &WorldRelation) -> bool
    ensures { result ≡ is_mirror_edge world.now relation.now }
{
    let destination = relation.destination.0 as usize;
    relation.destination_half
        && is_mirror(policy_kind_at(world, relation.policy as usize))
        && is_snapmirrored(state_of(
            is_rw(kind_at(world, destination)),
            snapshots_at(world, destination).is_empty(),
        ))
}

fn is_snapmirrored(state: MirrorState) -> bool
    ensures { result ≡ is_snapmirrored state }
{
    match state {
        MirrorState::Snapmirrored => true,
        MirrorState::Uninitialized => false,
        MirrorState::BrokenOff => false,
    }
}

fn is_walked(world: &PlainWorld, edges: PlainEdges, relation: &WorldRelation) -> bool
    ensures { result ≡ is_walked edges world.now relation.now }
{
    match edges {
        PlainEdges::All => is_edge(world, relation),
        PlainEdges::AllBut(number) => relation.number.0 != number.0 && is_edge(world, relation),
        PlainEdges::Mirrors => is_mirror_edge(world, relation),
    }
}

// Whether an edge of these relationships begins a walk from a volume to a volume, of at most so many
// edges more.
fn leads_along(
    world: &PlainWorld,
    edges: PlainEdges,
    first: &[WorldRelation],
    more: usize,
    from: u32,
    to: u32,
) -> bool
    ensures { result ≡ any_leads edges world.now more from to first.now }
{
    match first {
        [] => false,
        [relation, others @ ..] => {
            if leads_along(world, edges, others, more, from, to) {
                return true;
            }
            if !is_walked(world, edges, relation) || relation.source.0 != from {
                return false;
            }
            if relation.destination.0 == to {
                return true;
            }
            if more == 0 {
                return false;
            }
            leads_along(
                world,
                edges,
                &world.relations,
                more - 1,
                relation.destination.0,
                to,
            )
        }
    }
}

fn count_walked(world: &PlainWorld, edges: PlainEdges, relations: &[WorldRelation]) -> usize
    ensures count { result ≡ length (edges_among edges world.now relations.now) }
    ensures few { result ≤ length relations.now }
{
    match relations {
        [] => 0,
        [relation, others @ ..] => {
            let count = count_walked(world, edges, others);
            if is_walked(world, edges, relation) {
                1 + count
            } else {
                count
            }
        }
    }
}

/// Whether a volume lies upstream of another along these edges.
pub fn upstream(world: &PlainWorld, edges: PlainEdges, from: u32, to: u32) -> bool
    ensures { result ≡ upstream (edges_among edges world.now world.now.relations) from to }
{
    match count_walked(world, edges, &world.relations) {
        0 => false,
        count => leads_along(world, edges, &world.relations, count - 1, from, to),
    }
}
