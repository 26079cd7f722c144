// A running transfer with all that its steps look at.
ghost use Rattle.std.specs.Prelude.{◌≡◌, ◌↔◌, IsSome, IfSome};
ghost use Rattle.sm_model.specs.Running.{running_in};
ghost use Rattle.oracle_steps.specs.Seen.{running_of, PartsStand};

use crate::values::PlainRunning;
use oracle_world::PlainWorld;
use sm_model::{WorldRelation, WorldTransfer};

/// The relationship with its transfer, as the world has its policy and volumes; none exactly where one of
/// these does not stand.
pub fn running_in<'a>(
    world: &'a PlainWorld,
    relation: &'a WorldRelation,
    transfer: &'a WorldTransfer,
) -> Option<PlainRunning<'a>>
    ensures found { IfSome result (λ x. running_of x ≡ running_in world.now relation.now transfer.now) }
    ensures stands { IsSome result ↔ PartsStand world.now relation.now }
{
    let source = relation.source.0 as usize;
    let destination = relation.destination.0 as usize;
    let policy = relation.policy as usize;
    if source < world.volumes.len()
        && destination < world.volumes.len()
        && policy < world.policies.len()
    {
        Some(PlainRunning {
            relation,
            transfer,
            policy: &world.policies[policy],
            source: &world.volumes[source],
            destination: &world.volumes[destination],
        })
    } else {
        None
    }
}
