//! The test that a world has only what opening takes for now.

ghost use Rattle.std.specs.Prelude.{◌≡◌, ◌↔◌, IsTrue};
ghost use Rattle.std.specs.List.{All};
ghost use Rattle.sm_shape.specs.Blank.{blank};
ghost use Rattle.sm_shape.specs.Interim.{IsPlain, IsMirrors, IsInterim};

use sm_base::PolicyKind;
use sm_model::{World, WorldPolicy, WorldRelation};

fn is_plain(relation: &WorldRelation) -> bool
    ensures { IsTrue result ↔ IsPlain relation.now }
{
    if relation.base.is_some() {
        return false;
    }
    if relation.transfer.is_some() {
        return false;
    }
    !relation.quiesced
}

fn are_plain(relations: &[WorldRelation]) -> bool
    ensures { IsTrue result ↔ All IsPlain relations.now }
{
    relations.iter().all(|relation| is_plain(relation))
}

fn is_mirrors(policy: &WorldPolicy) -> bool
    ensures { IsTrue result ↔ IsMirrors policy.now }
{
    match policy.kind {
        PolicyKind::AsyncMirror => true,
        PolicyKind::Vault => false,
    }
}

fn are_mirrors(policies: &[WorldPolicy]) -> bool
    ensures { IsTrue result ↔ All IsMirrors policies.now }
{
    policies.iter().all(|policy| is_mirrors(policy))
}

/// Whether no relationship has a base or a transfer or is quiesced, and no policy is a vault's.
pub fn is_interim(world: &World) -> bool
    ensures { IsTrue result ↔ IsInterim (blank world.now) }
{
    if !are_plain(&world.relations) {
        return false;
    }
    are_mirrors(&world.policies)
}
