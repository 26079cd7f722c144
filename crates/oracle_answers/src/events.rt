// What each event is answered.
ghost use Rattle.std.specs.Prelude.{◌≡◌, IfOk, OnErr};
ghost use Rattle.sm_model.specs.Answer.{answer};
ghost use Rattle.oracle_volumes.specs.Answering.{IsReplied};

use crate::reports::{
    head, of_image, of_relation, of_volume, show_policies, show_relations, show_snapshots,
    show_volumes,
};
use oracle_relations::{
    abort, break_off, delete, initialize, relate, release, resync, set_quiesced, update,
};
use oracle_volumes::{
    add_rule, cp, create_policy, create_volume, read, set_clock, snap, unsnap, write,
};
use oracle_world::{PlainFault, PlainWorld};
use sm_model::{Event, Reply};
use std::alloc::Global;

/// Answers an event and changes the world as that says; a worker's step and a restart have no answer.
///
/// An `Err` leaves the world, and names the number that was too great where memory did not end.
#[tactic(auto, using(crate::proofs::Replied::is_answered), unfolding(sm_model::specs::Answer::answer))]
pub fn answer(
    world: &mut PlainWorld,
    alloc: Global,
    event: &Event,
) -> Result<Option<Reply>, PlainFault>
    ensures ok { IfOk result (λ reply. IsReplied world.old (answer world.old event.now) reply world.new) }
    ensures err { OnErr result (world.new ≡ world.old) }
{
    match event {
        Event::CreateVolume {
            path,
            disk,
            kind,
            logical,
            physical,
        } => Ok(Some(create_volume(world, alloc, path, *disk, *kind, *logical, *physical)?)),
        Event::ShowVolumes => Ok(Some(show_volumes(world, alloc)?)),
        Event::Write { path, block, fill } => Ok(Some(write(world, alloc, path, *block, *fill)?)),
        Event::Snap { path, name, label } => Ok(Some(snap(world, alloc, path, name, label)?)),
        Event::Unsnap { path, name } => Ok(Some(unsnap(world, alloc, path, name)?)),
        Event::ShowSnaps { path } => Ok(Some(show_snapshots(world, alloc, path)?)),
        Event::CreatePolicy { name, kind } => Ok(Some(create_policy(world, alloc, name, *kind)?)),
        Event::AddRule {
            name,
            label,
            keep,
            preserve,
        } => Ok(Some(add_rule(world, alloc, name, label, *keep, *preserve)?)),
        Event::ShowPolicies => Ok(Some(show_policies(world, alloc)?)),
        Event::Relate {
            source,
            destination,
            policy,
        } => Ok(Some(relate(world, alloc, source, destination, policy)?)),
        Event::Initialize { destination } => Ok(Some(initialize(world, alloc, destination)?)),
        Event::Update { destination } => Ok(Some(update(world, alloc, destination)?)),
        Event::Quiesce { destination } => Ok(Some(set_quiesced(world, alloc, destination, true)?)),
        Event::Resume { destination } => Ok(Some(set_quiesced(world, alloc, destination, false)?)),
        Event::Abort { destination, hard } => Ok(Some(abort(world, alloc, destination, *hard)?)),
        Event::Break { destination } => Ok(Some(break_off(world, alloc, destination)?)),
        Event::Resync { destination } => Ok(Some(resync(world, alloc, destination)?)),
        Event::Delete { destination } => Ok(Some(delete(world, alloc, destination)?)),
        Event::Release {
            source,
            destination,
        } => Ok(Some(release(world, alloc, source, destination)?)),
        Event::ShowRelations => Ok(Some(show_relations(world, alloc)?)),
        Event::Clock { time } => Ok(Some(set_clock(world, *time))),
        Event::Cp { path } => Ok(Some(cp(world, alloc, path)?)),
        Event::Read { path, name, block } => Ok(Some(read(world, alloc, path, name, *block)?)),
        Event::Head => Ok(Some(head(world)?)),
        Event::VolumeLine { volume } => Ok(Some(of_volume(world, alloc, *volume)?)),
        Event::Digest { volume, place } => Ok(Some(of_image(world, alloc, *volume, *place)?)),
        Event::RelationLine { relation } => Ok(Some(of_relation(world, alloc, *relation)?)),
        Event::Work { .. } | Event::Restart => Ok(None),
    }
}
