// What stands in a world, by its name or its place.
ghost use Rattle.std.specs.Prelude.{◌≡◌, ◌&&◌, ◌==◌, nat_lt, length, is_some, MatchOption, position};
ghost use Rattle.std.specs.Str.{bytes_eq};
ghost use Rattle.sm_defs.specs.Volume.{no_volume};
ghost use Rattle.sm_defs.specs.World.{volume_at, policy_at, no_policy, no_relation};
ghost use Rattle.sm_model.specs.Answers.{goes_to};
ghost use Rattle.oracle_world.specs.Finding.{IsFound};

use crate::values::{PlainVolume, PlainWorld};
use oracle_lists::PlainSnapshot;
use sm_base::{Kind, PolicyKind};
use sm_model::WorldRelation;
use sm_policy::Policy;

fn place_of_volume(volumes: &[PlainVolume], path: &[u8]) -> Option<usize>
    ensures { result ≡ position (λ v. bytes_eq v.path path.now) volumes.now }
{
    volumes.iter().position(|v| v.path.text() == path)
}

/// The place of the first volume of the path.
pub fn volume_named(world: &PlainWorld, path: &[u8]) -> Option<usize>
    ensures { IsFound (λ v. bytes_eq v.path path.now) world.now.volumes no_volume result }
{
    place_of_volume(&world.volumes, path)
}

fn place_of_policy(policies: &[Policy], name: &[u8]) -> Option<usize>
    ensures { result ≡ position (λ p. bytes_eq p.name name.now) policies.now }
{
    policies.iter().position(|p| p.name().text() == name)
}

/// The place of the first policy of the name.
pub fn policy_named(world: &PlainWorld, name: &[u8]) -> Option<usize>
    ensures { IsFound (λ p. bytes_eq p.name name.now) world.now.policies no_policy result }
{
    place_of_policy(&world.policies, name)
}

fn goes_to(relation: &WorldRelation, destination: usize) -> bool
    ensures { result ≡ goes_to destination relation.now }
{
    relation.destination_half && relation.destination.0 as usize == destination
}

fn place_of_relation(relations: &[WorldRelation], destination: usize) -> Option<usize>
    ensures { result ≡ position (goes_to destination) relations.now }
{
    relations.iter().position(|r| goes_to(r, destination))
}

/// The place of the first relationship with its destination half at the volume.
pub fn relation_to(world: &PlainWorld, destination: usize) -> Option<usize>
    ensures { IsFound (goes_to destination) world.now.relations no_relation result }
{
    place_of_relation(&world.relations, destination)
}

/// The volume at a place, or none where no volume is.
pub fn volume_at(world: &PlainWorld, at: usize) -> Option<&PlainVolume>
    ensures volume { MatchOption result (volume_at world.now at ≡ no_volume) (λ v. v.now ≡ volume_at world.now at) }
    ensures stands { is_some result ≡ nat_lt at (length world.now.volumes) }
{
    if at < world.volumes.len() {
        Some(&world.volumes[at])
    } else {
        None
    }
}

/// The kind of the volume at a place; read-only where no volume is.
pub fn kind_at(world: &PlainWorld, at: usize) -> Kind
    ensures { result ≡ (volume_at world.now at).kind }
{
    match volume_at(world, at) {
        None => Kind::Dp,
        Some(volume) => volume.kind,
    }
}

/// The snapshots of the volume at a place; none where no volume is.
pub fn snapshots_at(world: &PlainWorld, at: usize) -> &[PlainSnapshot]
    ensures { result.now ≡ (volume_at world.now at).snapshots }
{
    match volume_at(world, at) {
        None => &[],
        Some(volume) => &volume.snapshots,
    }
}

/// The kind of the policy at a place; a mirror where no policy is.
pub fn policy_kind_at(world: &PlainWorld, at: usize) -> PolicyKind
    ensures { result ≡ (policy_at world.now at).kind }
{
    if at < world.policies.len() {
        world.policies[at].kind()
    } else {
        PolicyKind::AsyncMirror
    }
}
