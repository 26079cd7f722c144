//! The rules of one relationship.

ghost use Rattle.std.specs.Prelude.{◌≡◌, ◌↔◌, IsTrue, map};
ghost use Rattle.std.specs.List.{list_any};
ghost use Rattle.sm_defs.specs.Volume.{has};
ghost use Rattle.sm_defs.specs.Words.{same_ident};
ghost use Rattle.sm_defs.specs.World.{Up};
ghost use Rattle.sm_model.specs.Crossed.{CrossedRelation};
ghost use Rattle.sm_shape.specs.Blank.{blank_snapshot};
ghost use Rattle.sm_shape.specs.Rules.{NumbersFit, HalvesFit, IsBaseOn, BasesFit, SizesFit, PairFits, HasThese};

use sm_base::{Ident, Kind, PolicyKind};
use sm_model::{WorldPolicy, WorldRelation, WorldSnapshot, WorldVolume};

fn any_has(snapshots: &[WorldSnapshot], ident: Ident) -> bool
    ensures { result ≡ list_any (λ s. same_ident s.ident ident) snapshots.now }
{
    snapshots.iter().any(|snapshot| snapshot.ident == ident)
}

/// Whether a snapshot has the identity.
pub fn has_snapshot(snapshots: &[WorldSnapshot], ident: Ident) -> bool
    ensures { result ≡ has (map blank_snapshot snapshots.now) ident }
{
    any_has(snapshots, ident)
}

fn numbers_fit(relation: &WorldRelation, next: u32) -> bool
    ensures { IsTrue result ↔ NumbersFit relation.now next }
{
    relation.source.0 != relation.destination.0
        && relation.number.0 >= 1
        && relation.number.0 < next
}

fn halves_fit(relation: &WorldRelation, destination: &WorldVolume) -> bool
    ensures { IsTrue result ↔ HalvesFit relation.now destination.now }
{
    match destination.kind {
        Kind::Rw => true,
        Kind::Dp => !relation.destination_half || relation.source_half,
    }
}

fn base_is_on(base: Option<Ident>, half: bool, snapshots: &[WorldSnapshot]) -> bool
    ensures { IsTrue result ↔ IsBaseOn base half snapshots.now }
{
    match base {
        Some(ident) => !half || has_snapshot(snapshots, ident),
        None => true,
    }
}

fn bases_fit(relation: &WorldRelation, source: &WorldVolume, destination: &WorldVolume) -> bool
    ensures { IsTrue result ↔ BasesFit relation.now source.now destination.now }
{
    base_is_on(relation.base, relation.source_half, &source.snapshots)
        && base_is_on(
            relation.base,
            relation.destination_half,
            &destination.snapshots,
        )
}

fn sizes_fit(source: &WorldVolume, destination: &WorldVolume, policy: &WorldPolicy) -> bool
    ensures { IsTrue result ↔ SizesFit source.now destination.now policy.now }
{
    match policy.kind {
        PolicyKind::AsyncMirror => source.logical == destination.logical
            && source.physical == destination.physical,
        PolicyKind::Vault => source.logical == destination.logical,
    }
}

pub fn pair_fits(
    relation: &WorldRelation,
    source: &WorldVolume,
    destination: &WorldVolume,
    policy: &WorldPolicy,
    next: u32,
) -> bool
    ensures { IsTrue result ↔ PairFits relation.now source.now destination.now policy.now next }
{
    if !numbers_fit(relation, next) {
        return false;
    }
    if !halves_fit(relation, destination) {
        return false;
    }
    if !bases_fit(relation, source, destination) {
        return false;
    }
    sizes_fit(source, destination, policy)
}

/// Whether the relationship meets the rules on its volumes and its policy, by what the world has.
pub fn relation_fits(
    volumes: &[WorldVolume],
    policies: &[WorldPolicy],
    next: u32,
    relation: &WorldRelation,
) -> bool
    ensures { (w : Up) → HasThese w volumes.now policies.now next → IsTrue result ↔ CrossedRelation w relation.now }
{
    let source = relation.source.0 as usize;
    let destination = relation.destination.0 as usize;
    let policy = relation.policy as usize;
    if source >= volumes.len() {
        return false;
    }
    if destination >= volumes.len() {
        return false;
    }
    if policy >= policies.len() {
        return false;
    }
    pair_fits(
        relation,
        &volumes[source],
        &volumes[destination],
        &policies[policy],
        next,
    )
}
