//! The test that a destination shows what was published last.

ghost use Rattle.std.specs.Prelude.{◌≡◌, ◌↔◌, IsTrue, map};
ghost use Rattle.std.specs.List.{All};
ghost use Rattle.sm_model.specs.DestinationsStand.{newest_published, StandsAtBase, DestinationsStand};
ghost use Rattle.sm_shape.specs.Blank.{blank, blank_snapshot, having};
ghost use Rattle.sm_shape.specs.Bases.{ShowsOne, newest_of, ShowsNewest, ShowsBase};

use crate::families::same_map;
use crate::places::volumes_stand;
use crate::rules::has_snapshot;
use sm_base::{Ident, Kind};
use sm_model::{World, WorldRelation, WorldSnapshot, WorldVolume};

fn newest(snapshots: &[WorldSnapshot], base: Ident, legs: &[Ident]) -> Ident
    ensures { result ≡ newest_published (map blank_snapshot snapshots.now) base legs.now }
{
    match legs {
        [leg, ..] => {
            if has_snapshot(snapshots, *leg) {
                *leg
            } else {
                base
            }
        }
        [] => base,
    }
}

fn newest_at(relation: &WorldRelation, volume: &WorldVolume, base: Ident) -> Ident
    ensures { result ≡ newest_of relation.now volume.now base }
{
    match &relation.transfer {
        Some(transfer) => newest(&volume.snapshots, base, &transfer.legs),
        None => base,
    }
}

fn shows_one(ident: Ident, numbers: &[u32], snapshot: &WorldSnapshot) -> bool
    ensures { IsTrue result ↔ ShowsOne ident numbers.now snapshot.now }
{
    snapshot.ident != ident || same_map(numbers, &snapshot.map)
}

fn shows(ident: Ident, numbers: &[u32], snapshots: &[WorldSnapshot]) -> bool
    ensures { IsTrue result ↔ All (ShowsOne ident numbers.now) snapshots.now }
{
    snapshots
        .iter()
        .all(|snapshot| shows_one(ident, numbers, snapshot))
}

fn shows_newest(relation: &WorldRelation, volume: &WorldVolume, base: Ident) -> bool
    ensures { IsTrue result ↔ ShowsNewest relation.now volume.now base }
{
    let ident = newest_at(relation, volume, base);
    shows(ident, &volume.active, &volume.snapshots)
}

fn shows_base(relation: &WorldRelation, volume: &WorldVolume) -> bool
    ensures { IsTrue result ↔ ShowsBase relation.now volume.now }
{
    match relation.base {
        Some(base) => match volume.kind {
            Kind::Rw => true,
            Kind::Dp => !relation.destination_half || shows_newest(relation, volume, base),
        },
        None => true,
    }
}

/// The same by the world's volumes.
fn stands_at_base(volumes: &[WorldVolume], relation: &WorldRelation) -> bool
    ensures { IsTrue result ↔ StandsAtBase (having volumes.now) relation.now }
{
    let destination = relation.destination.0 as usize;
    if destination >= volumes.len() {
        return true;
    }
    shows_base(relation, &volumes[destination])
}

fn all_at_base(volumes: &[WorldVolume], relations: &[WorldRelation]) -> bool
    ensures { IsTrue result ↔ All (StandsAtBase (having volumes.now)) relations.now }
{
    relations
        .iter()
        .all(|relation| stands_at_base(volumes, relation))
}

/// Whether each read-only volume is blank or stands at one of its snapshots, and a destination with a base at
/// what was published last.
pub fn destinations_stand(world: &World) -> bool
    ensures { IsTrue result ↔ DestinationsStand (blank world.now) }
{
    if !volumes_stand(&world.volumes) {
        return false;
    }
    all_at_base(&world.volumes, &world.relations)
}
