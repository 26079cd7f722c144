ghost use Rattle.std.specs.Prelude.{◌≡◌, IfOk, OnErr};
ghost use Rattle.oracle_answers.specs.Acting.{IsActed};

use crate::events::answer;
use oracle_steps::{open, step};
use oracle_world::{PlainFault, PlainWorld};
use sm_model::{Event, Reply};
use std::alloc::Global;

/// Does one event for an actor. A worker's step is the one that this program chooses.
#[tactic(auto, using(crate::proofs::Unanswered::unanswered, crate::proofs::Unanswered::unchanged), unfolding(crate::specs::Acting::IsActed, crate::specs::Acting::IsUnanswered))]
pub fn act(
    world: &mut PlainWorld,
    alloc: Global,
    actor: u32,
    event: &Event,
) -> Result<Reply, PlainFault>
    ensures ok { IfOk result (λ reply. IsActed world.old actor event.now reply world.new) }
    ensures err { OnErr result (world.new ≡ world.old) }
{
    if let Some(reply) = answer(world, alloc, event)? {
        return Ok(reply);
    }
    match event {
        Event::Work { .. } => match step(world, alloc, actor)? {
            None => Ok(Reply::Idle),
            Some(reply) => Ok(reply),
        },
        _ => {
            open(world, alloc)?;
            Ok(Reply::Done)
        }
    }
}
