// Which volume needs which snapshot, and for whom.
ghost use Rattle.std.specs.Prelude.{◌≡◌};
ghost use Rattle.std.specs.List.{find, list_any};
ghost use Rattle.std.specs.Option.{option_map};
ghost use Rattle.sm_defs.specs.Words.{is_ident, has_ident};
ghost use Rattle.sm_defs.specs.Relationship.{legs_of};
ghost use Rattle.sm_defs.specs.World.{Up};
ghost use Rattle.sm_defs.specs.Needed.{needed_at_source, needed_at_destination, needed_for, needed, holder};
ghost use Rattle.oracle_world.specs.Finding.{number_of};

use crate::edges::upstream;
use crate::values::{PlainEdges, PlainWorld};
use oracle_lists::{is_among, is_same};
use sm_base::{Ident, RelNo};
use sm_model::{WorldRelation, WorldTransfer};

fn is_ident(base: Option<Ident>, ident: Ident) -> bool
    ensures { result ≡ is_ident base ident }
{
    match base {
        None => false,
        Some(base) => is_same(base, ident),
    }
}

fn is_leg(transfer: &Option<WorldTransfer>, ident: Ident) -> bool
    ensures { result ≡ has_ident (legs_of transfer.now) ident }
{
    match transfer {
        None => false,
        Some(transfer) => is_among(&transfer.legs, ident),
    }
}

/// Whether a relationship needs a snapshot on a volume because the volume is its source, or lies
/// upstream of its source along mirrors.
pub fn needed_at_source(
    world: &PlainWorld,
    volume: u32,
    ident: Ident,
    relation: &WorldRelation,
) -> bool
    ensures { result ≡ needed_at_source world.now volume ident relation.now }
{
    relation.source_half
        && (is_ident(relation.base, ident) || is_leg(&relation.transfer, ident))
        && (relation.source.0 == volume
            || upstream(world, PlainEdges::Mirrors, volume, relation.source.0))
}

/// Whether a relationship needs a snapshot on a volume because it is its destination.
pub fn needed_at_destination(volume: u32, ident: Ident, relation: &WorldRelation) -> bool
    ensures { (w : Up) → result ≡ needed_at_destination w volume ident relation.now }
{
    relation.destination_half && relation.destination.0 == volume && is_ident(relation.base, ident)
}

/// Whether a relationship needs a snapshot on a volume.
pub fn needed_for(world: &PlainWorld, volume: u32, ident: Ident, relation: &WorldRelation) -> bool
    ensures { result ≡ needed_for world.now volume ident relation.now }
{
    needed_at_source(world, volume, ident, relation)
        || needed_at_destination(volume, ident, relation)
}

/// Whether some relationship needs a snapshot on a volume.
pub fn is_needed(world: &PlainWorld, volume: u32, ident: Ident) -> bool
    ensures { result ≡ needed world.now volume ident }
{
    world
        .relations
        .iter()
        .any(|r| needed_for(world, volume, ident, r))
}

fn first_holder(
    world: &PlainWorld,
    relations: &[WorldRelation],
    volume: u32,
    ident: Ident,
) -> Option<RelNo>
    ensures { result ≡ option_map number_of (find (needed_for world.now volume ident) relations.now) }
{
    match relations {
        [] => None,
        [relation, others @ ..] => {
            if needed_for(world, volume, ident, relation) {
                Some(relation.number)
            } else {
                first_holder(world, others, volume, ident)
            }
        }
    }
}

/// The lowest relationship that needs a snapshot on a volume.
pub fn holder(world: &PlainWorld, volume: u32, ident: Ident) -> Option<RelNo>
    ensures { result ≡ option_map number_of (holder world.now volume ident) }
{
    first_holder(world, &world.relations, volume, ident)
}
