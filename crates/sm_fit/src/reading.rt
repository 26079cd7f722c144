//! What stands at a place that a relationship names; where nothing stands, what the definitions say of no
//! volume and of no policy.

ghost use Rattle.std.specs.Prelude.{◌≡◌, map, slice_index_or};
ghost use Rattle.std.specs.List.{find, list_any};
ghost use Rattle.std.specs.Option.{option_copied};
ghost use Rattle.sm_defs.specs.Words.{same_ident};
ghost use Rattle.sm_defs.specs.Volume.{has};
ghost use Rattle.sm_defs.specs.Relationship.{is_mirror};
ghost use Rattle.sm_defs.specs.World.{volume_at, no_policy};
ghost use Rattle.sm_shape.specs.Blank.{blank_snapshot, having};
ghost use Rattle.sm_fit.specs.Maps.{map_of, base_map};

use sm_base::{Ident, PolicyKind};
use sm_model::{WorldPolicy, WorldSnapshot, WorldVolume};

/// The snapshots of the volume at the place.
pub fn snapshots_at(volumes: &[WorldVolume], place: u32) -> &[WorldSnapshot]
    ensures { map blank_snapshot result.now ≡ (volume_at (having volumes.now) place).snapshots }
{
    let at = place as usize;
    if at >= volumes.len() {
        return &[];
    }
    &volumes[at].snapshots
}

/// How many physical blocks the volume at the place has.
pub fn physical_at(volumes: &[WorldVolume], place: u32) -> u32
    ensures { result ≡ (volume_at (having volumes.now) place).physical }
{
    let at = place as usize;
    if at >= volumes.len() {
        return 0;
    }
    volumes[at].physical
}

/// Whether the policy at the place is a mirror's.
pub fn is_mirror_at(policies: &[WorldPolicy], place: u32) -> bool
    ensures { result ≡ is_mirror (slice_index_or policies.now place no_policy).kind }
{
    let at = place as usize;
    if at >= policies.len() {
        return true;
    }
    let policy = &policies[at];
    match policy.kind {
        PolicyKind::AsyncMirror => true,
        PolicyKind::Vault => false,
    }
}

fn any_has(snapshots: &[WorldSnapshot], ident: Ident) -> bool
    ensures { result ≡ list_any (λ s. same_ident s.ident ident) snapshots.now }
{
    snapshots.iter().any(|snapshot| snapshot.ident == ident)
}

/// Whether a snapshot has the identity.
pub fn has_snapshot(snapshots: &[WorldSnapshot], ident: Ident) -> bool
    ensures { result ≡ has (map blank_snapshot snapshots.now) ident }
{
    any_has(snapshots, ident)
}

/// The snapshot of the identity.
fn snapshot_of(snapshots: &[WorldSnapshot], ident: Ident) -> Option<&WorldSnapshot>
    ensures { option_copied result ≡ find (λ s. same_ident s.ident ident) snapshots.now }
{
    snapshots.iter().find(|snapshot| snapshot.ident == ident)
}

/// The numbers of the snapshot of the identity, none where there is no such snapshot.
pub fn map_of(snapshots: &[WorldSnapshot], ident: Ident) -> &[u32]
    ensures { result.now ≡ map_of snapshots.now ident }
{
    match snapshot_of(snapshots, ident) {
        Some(snapshot) => &snapshot.map,
        None => &[],
    }
}

/// The numbers of the base, none where there is no base.
pub fn base_map(snapshots: &[WorldSnapshot], base: Option<Ident>) -> &[u32]
    ensures { result.now ≡ base_map snapshots.now base }
{
    match base {
        Some(ident) => map_of(snapshots, ident),
        None => &[],
    }
}
