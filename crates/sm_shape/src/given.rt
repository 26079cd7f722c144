//! The test that families are of numbers that were given, and that a resynced vault's is its own.

ghost use Rattle.std.specs.Prelude.{◌≡◌, ◌≢◌, ◌↔◌, [], IsTrue, length};
ghost use Rattle.std.specs.List.{All};
ghost use Rattle.sm_defs.specs.Made.{family_of_transfer};
ghost use Rattle.sm_defs.specs.Relationship.{Relationship};
ghost use Rattle.sm_defs.specs.Words.{Among};
ghost use Rattle.sm_model.specs.FamiliesStand.{InOwnFamily, FamiliesStand};
ghost use Rattle.sm_shape.specs.Blank.{blank};
ghost use Rattle.sm_shape.specs.Behind.{EachPlace};
ghost use Rattle.sm_shape.specs.Given.{first_of, IsGivenFamily, HasGivenFamily, HasOtherFamily, HasOne, HasBaseOrFirst, LegAlone, RestsAt, StandsApart, OtherStands, StandsInFamily, OwnFamilyStands, HasFamilyStanding};

use crate::reading::{family_at, is_vault_at, snapshots_at};
use crate::rules::has_snapshot;
use sm_base::limits::FIRST_MADE_FAMILY;
use sm_base::{Ident, Kind};
use sm_model::{World, WorldPolicy, WorldRelation, WorldSnapshot, WorldTransfer, WorldVolume};

/// Whether the family is that of one of so many volumes, or of a transfer before the next.
fn is_given(family: u64, count: usize, next: u64) -> bool
    ensures { IsTrue result ↔ IsGivenFamily count next family }
{
    if family < count as u64 {
        return true;
    }
    family >= FIRST_MADE_FAMILY && family - FIRST_MADE_FAMILY < next
}

fn has_given_family(count: usize, next: u64, volume: &WorldVolume) -> bool
    ensures { IsTrue result ↔ HasGivenFamily count next volume.now }
{
    is_given(volume.family, count, next)
}

fn all_given(count: usize, next: u64, volumes: &[WorldVolume]) -> bool
    ensures { IsTrue result ↔ All (HasGivenFamily count next) volumes.now }
{
    volumes
        .iter()
        .all(|volume| has_given_family(count, next, volume))
}

/// Whether the family is the transfer's.
fn is_own(family: u64, number: u64) -> bool
    ensures { IsTrue result ↔ (family ≡ family_of_transfer number) }
{
    family >= FIRST_MADE_FAMILY && family - FIRST_MADE_FAMILY == number
}

fn has_other_family(number: u64, volume: &WorldVolume) -> bool
    ensures { IsTrue result ↔ HasOtherFamily number volume.now }
{
    !is_own(volume.family, number)
}

fn all_have_other(number: u64, volumes: &[WorldVolume]) -> bool
    ensures { IsTrue result ↔ All (HasOtherFamily number) volumes.now }
{
    volumes
        .iter()
        .all(|volume| has_other_family(number, volume))
}

fn has_one(ident: Option<Ident>, snapshots: &[WorldSnapshot]) -> bool
    ensures { IsTrue result ↔ HasOne ident snapshots.now }
{
    match ident {
        Some(ident) => has_snapshot(snapshots, ident),
        None => false,
    }
}

fn first_leg(legs: &[Ident]) -> Option<Ident>
    ensures { result ≡ first_of legs.now }
{
    match legs {
        [first, ..] => Some(*first),
        [] => None,
    }
}

fn has_base_or_first(base: Option<Ident>, legs: &[Ident], snapshots: &[WorldSnapshot]) -> bool
    ensures { IsTrue result ↔ HasBaseOrFirst base legs.now snapshots.now }
{
    if has_one(base, snapshots) {
        return true;
    }
    has_one(first_leg(legs), snapshots)
}

fn leg_alone(destination: &[WorldSnapshot], snapshots: &[WorldSnapshot], leg: Ident) -> bool
    ensures { IsTrue result ↔ LegAlone destination.now snapshots.now leg }
{
    has_snapshot(destination, leg) || !has_snapshot(snapshots, leg)
}

fn legs_alone(destination: &[WorldSnapshot], snapshots: &[WorldSnapshot], legs: &[Ident]) -> bool
    ensures { IsTrue result ↔ All (LegAlone destination.now snapshots.now) legs.now }
{
    legs.iter()
        .all(|leg| leg_alone(destination, snapshots, *leg))
}

fn rests(policies: &[WorldPolicy], place: usize, relation: &WorldRelation) -> bool
    ensures { IsTrue result ↔ RestsAt policies.now place relation.now }
{
    if !relation.destination_half {
        return true;
    }
    if relation.destination.0 as usize != place {
        return true;
    }
    if !is_vault_at(policies, relation.policy) {
        return true;
    }
    relation.base.is_none() && relation.transfer.is_none()
}

fn all_rest(policies: &[WorldPolicy], place: usize, relations: &[WorldRelation]) -> bool
    ensures { IsTrue result ↔ All (RestsAt policies.now place) relations.now }
{
    relations
        .iter()
        .all(|relation| rests(policies, place, relation))
}

fn stands_apart(
    policies: &[WorldPolicy],
    relations: &[WorldRelation],
    place: usize,
    volume: &WorldVolume,
) -> bool
    ensures { IsTrue result ↔ StandsApart policies.now relations.now place volume.now }
{
    match volume.kind {
        Kind::Rw => true,
        Kind::Dp => has_some(&volume.snapshots) && all_rest(policies, place, relations),
    }
}

fn has_some(snapshots: &[WorldSnapshot]) -> bool
    ensures { IsTrue result ↔ (snapshots.now ≢ []) }
{
    match snapshots {
        [_, ..] => true,
        [] => false,
    }
}

/// Whether the relationship's destination is at the place.
fn is_at(relation: &WorldRelation, place: usize) -> bool
    ensures { IsTrue result ↔ (place ≡ relation.now.destination) }
{
    relation.destination.0 as usize == place
}

/// Whether the volume has the transfer's family.
fn has_family(volume: &WorldVolume, transfer: &WorldTransfer) -> bool
    ensures { IsTrue result ↔ (volume.now.family ≡ family_of_transfer transfer.now.number) }
{
    is_own(volume.family, transfer.number)
}

fn legs_beside(
    destination: &[WorldSnapshot],
    snapshots: &[WorldSnapshot],
    transfer: &WorldTransfer,
) -> bool
    ensures { IsTrue result ↔ All (LegAlone destination.now snapshots.now) transfer.now.legs }
{
    legs_alone(destination, snapshots, &transfer.legs)
}

/// Whether another volume of the transfer's family stands beside its destination.
fn other_stands(
    world: &World,
    destination: &[WorldSnapshot],
    relation: &WorldRelation,
    transfer: &WorldTransfer,
    place: usize,
    volume: &WorldVolume,
) -> bool
    ensures { IsTrue result ↔ OtherStands world.now.policies.items world.now.relations.items destination.now relation.now transfer.now place volume.now }
{
    if is_at(relation, place) {
        return true;
    }
    if !has_family(volume, transfer) {
        return true;
    }
    if !legs_beside(destination, &volume.snapshots, transfer) {
        return false;
    }
    stands_apart(&world.policies, &world.relations, place, volume)
}

fn others_stand(
    world: &World,
    volumes: &[WorldVolume],
    destination: &[WorldSnapshot],
    relation: &WorldRelation,
    transfer: &WorldTransfer,
) -> bool
    ensures { IsTrue result ↔ EachPlace (OtherStands world.now.policies.items world.now.relations.items destination.now relation.now transfer.now) volumes.now }
{
    for place in 0..volumes.len() {
        if !other_stands(
            world,
            destination,
            relation,
            transfer,
            place,
            &volumes[place],
        ) {
            return false;
        }
    }
    true
}

/// Whether a destination in the transfer's family stands apart from the others.
fn in_own_family(world: &World, relation: &WorldRelation, transfer: &WorldTransfer) -> bool
    ensures { IsTrue result ↔ InOwnFamily (blank world.now) relation.now transfer.now }
{
    let family = family_at(&world.volumes, relation.source.0);
    if is_own(family, transfer.number) {
        return false;
    }
    let source = snapshots_at(&world.volumes, relation.source.0);
    if !has_base_or_first(relation.base, &transfer.legs, source) {
        return false;
    }
    let destination = snapshots_at(&world.volumes, relation.destination.0);
    others_stand(world, &world.volumes, destination, relation, transfer)
}

fn family_stands(world: &World, relation: &WorldRelation, transfer: &WorldTransfer) -> bool
    ensures { IsTrue result ↔ StandsInFamily (blank world.now) relation.now transfer.now }
{
    if !is_vault_at(&world.policies, relation.policy) {
        return true;
    }
    let family = family_at(&world.volumes, relation.destination.0);
    if !is_own(family, transfer.number) {
        return all_have_other(transfer.number, &world.volumes);
    }
    in_own_family(world, relation, transfer)
}

fn own_family_stands(world: &World, relation: &WorldRelation) -> bool
    ensures { IsTrue result ↔ OwnFamilyStands (blank world.now) relation.now }
{
    match &relation.transfer {
        Some(transfer) => family_stands(world, relation, transfer),
        None => true,
    }
}

fn has_family_standing(world: &World, relation: &WorldRelation) -> bool
    ensures { IsTrue result ↔ HasFamilyStanding (blank world.now) relation.now }
{
    own_family_stands(world, relation)
}

fn all_stand(world: &World, relations: &[WorldRelation]) -> bool
    ensures { IsTrue result ↔ ((r : Relationship) → Among relations.now r → HasFamilyStanding (blank world.now) r) }
{
    for relation in relations {
        let stands = has_family_standing(world, relation);
        if !stands {
            return false;
        }
    }
    true
}

fn families_given(volumes: &[WorldVolume], next: u64) -> bool
    ensures { IsTrue result ↔ All (HasGivenFamily (length volumes.now) next) volumes.now }
{
    all_given(volumes.len(), next, volumes)
}

/// Whether each family is a volume's or a transfer's, and a vault's transfer has its family for itself.
pub fn families_stand(world: &World) -> bool
    ensures { IsTrue result ↔ FamiliesStand (blank world.now) }
{
    if !families_given(&world.volumes, world.next_transfer) {
        return false;
    }
    all_stand(world, &world.relations)
}
