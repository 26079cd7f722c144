//! What stands at a place that a relationship names; where nothing stands, what the definitions say of no
//! volume and of no policy.

ghost use Rattle.std.specs.Prelude.{◌≡◌, map, not, slice_index_or};
ghost use Rattle.sm_defs.specs.Relationship.{is_mirror};
ghost use Rattle.sm_defs.specs.World.{volume_at, no_policy};
ghost use Rattle.sm_shape.specs.Blank.{blank_snapshot, having};

use sm_base::{Kind, PolicyKind};
use sm_model::{WorldPolicy, WorldRule, WorldSnapshot, WorldVolume};

/// The snapshots of the volume at the place.
pub fn snapshots_at(volumes: &[WorldVolume], place: u32) -> &[WorldSnapshot]
    ensures { map blank_snapshot result.now ≡ (volume_at (having volumes.now) place).snapshots }
{
    let at = place as usize;
    if at >= volumes.len() {
        return &[];
    }
    &volumes[at].snapshots
}

/// The kind of the volume at the place.
pub fn kind_at(volumes: &[WorldVolume], place: u32) -> Kind
    ensures { result ≡ (volume_at (having volumes.now) place).kind }
{
    let at = place as usize;
    if at >= volumes.len() {
        return Kind::Dp;
    }
    volumes[at].kind
}

/// The family of the volume at the place.
pub fn family_at(volumes: &[WorldVolume], place: u32) -> u64
    ensures { result ≡ (volume_at (having volumes.now) place).family }
{
    let at = place as usize;
    if at >= volumes.len() {
        return 0;
    }
    volumes[at].family
}

/// Whether the policy at the place is a vault's.
pub fn is_vault_at(policies: &[WorldPolicy], place: u32) -> bool
    ensures { result ≡ not (is_mirror (slice_index_or policies.now place no_policy).kind) }
{
    let at = place as usize;
    if at >= policies.len() {
        return false;
    }
    let policy = &policies[at];
    match policy.kind {
        PolicyKind::AsyncMirror => false,
        PolicyKind::Vault => true,
    }
}

/// The rules of the policy at the place.
pub fn rules_at(policies: &[WorldPolicy], place: u32) -> &[WorldRule]
    ensures { result.now ≡ (slice_index_or policies.now place no_policy).rules }
{
    let at = place as usize;
    if at >= policies.len() {
        return &[];
    }
    let policy = &policies[at];
    &policy.rules
}
