//! The test that a read-only volume stands at one of its snapshots.

ghost use Rattle.std.specs.Prelude.{◌≡◌, ◌↔◌, ◌==◌, length, IsTrue};
ghost use Rattle.std.specs.List.{All};
ghost use Rattle.sm_model.specs.DestinationsStand.{StandsAtSnapshot};
ghost use Rattle.sm_shape.specs.Places.{HasMap};
ghost use Rattle.sm_shape.specs.Blank.{blank_volume};

use crate::families::same_map;
use sm_base::Kind;
use sm_model::{WorldSnapshot, WorldVolume};

/// Whether the map has only holes.
fn is_blank(map: &[u32]) -> bool
    ensures { IsTrue result ↔ All (λ n. n ≡ 0) map.now }
{
    map.iter().all(|number| *number == 0)
}

/// Whether one of the snapshots has this map.
fn has_map(snapshots: &[WorldSnapshot], numbers: &[u32]) -> bool
    ensures { IsTrue result ↔ HasMap snapshots.now numbers.now }
{
    for snapshot in snapshots {
        let same = same_map(numbers, &snapshot.map);
        if same {
            return true;
        }
    }
    false
}

/// Whether a volume without snapshots is blank.
fn stands_blank(volume: &WorldVolume) -> bool
    ensures { IsTrue result ↔ (All (λ n. n ≡ 0) volume.now.active.items × All (λ n. n ≡ 0) volume.now.stable.items) }
{
    is_blank(&volume.active) && is_blank(&volume.stable)
}

/// Whether a volume with snapshots stands at one of them.
fn stands_still(volume: &WorldVolume) -> bool
    ensures { IsTrue result ↔ ((volume.now.stable.items ≡ volume.now.active.items) × HasMap volume.now.snapshots.items volume.now.active.items) }
{
    same_map(&volume.stable, &volume.active) && has_map(&volume.snapshots, &volume.active)
}

fn has_none(snapshots: &[WorldSnapshot]) -> bool
    ensures { result ≡ (length snapshots.now == 0) }
{
    snapshots.is_empty()
}

/// Whether the volume stands at one of its snapshots, or is blank where it has none.
fn stands_at_snapshot(volume: &WorldVolume) -> bool
    ensures { IsTrue result ↔ StandsAtSnapshot (blank_volume volume.now) }
{
    if has_none(&volume.snapshots) {
        stands_blank(volume)
    } else {
        stands_still(volume)
    }
}

fn volume_stands(volume: &WorldVolume) -> bool
    ensures { IsTrue result ↔ ((volume.now.kind ≡ Kind.Dp) → StandsAtSnapshot (blank_volume volume.now)) }
{
    match volume.kind {
        Kind::Rw => true,
        Kind::Dp => stands_at_snapshot(volume),
    }
}

/// Whether each read-only volume stands at one of its snapshots.
pub fn volumes_stand(volumes: &[WorldVolume]) -> bool
    ensures { IsTrue result ↔ All (λ v. (v.kind ≡ Kind.Dp) → StandsAtSnapshot (blank_volume v)) volumes.now }
{
    volumes.iter().all(|volume| volume_stands(volume))
}
