// What events that start, resume or stop a transfer are answered.
ghost use Rattle.std.specs.Prelude.{◌≡◌, ◌<◌, ◌&&◌, not, length, IfOk, OnErr, OnOk, Some, is_some, is_none};
ghost use Rattle.sm_base.specs.declared.numbers.TransferKind.TheVariants.{Resync};
ghost use Rattle.sm_defs.specs.Relationship.{is_mirror};
ghost use Rattle.oracle_world.specs.Finding.{number_of};
ghost use Rattle.oracle_relations.specs.Targets.{IsOfOne};
ghost use Rattle.std.specs.Option.{option_map};
ghost use Rattle.std.specs.List.{find};
ghost use Rattle.sm_defs.specs.Edges.{is_empty, upstream};
ghost use Rattle.sm_defs.specs.Common.{common};
ghost use Rattle.sm_defs.specs.World.{volume_at, policy_at, relation_at, with_relation};
ghost use Rattle.sm_model.specs.OfTransfers as model;
ghost use Rattle.oracle_volumes.specs.Answering.{Answers};
ghost use Rattle.sm_defs.specs.Progress as progress;
ghost use Rattle.sm_defs.specs.Volume as lists;
ghost use Rattle.sm_defs.specs.May as may;

use crate::starting::{
    count_legs, has_all_transfers, new_transfer, next_legs, next_number, put, put_next,
    resume_or_start, test_room,
};
use crate::targets::{is_bare, is_running, no_target, relation, target};
use oracle_lists::{
    PlainLegs, PlainSnapshot, behind, common, copy_snapshots, has_copy, landed_prefix, up_to,
};
use oracle_volumes::is_writable;
use oracle_world::{
    PlainEdges, PlainFault, PlainWorld, back_at, copy_transfer, is_mirror, needed_at_source,
    needed_for, policy_kind_at, small, snapshots_at, upstream, volume_at, with_base, with_legs,
    with_transfer,
};
use sm_base::{Ident, NoMemory, Path, Reason, Refusal, RelNo, TransferKind, What};
use sm_model::{Reply, WorldRelation, WorldTransfer};
use std::alloc::Global;

fn is_quiesced(world: &PlainWorld, at: usize) -> bool
    requires { at < length world.now.relations }
    ensures { result ≡ (relation_at world.now at).quiesced }
{
    relation(world, at).quiesced
}

/// Starts the first transfer to a destination, or goes on with it.
pub fn initialize(
    world: &mut PlainWorld,
    alloc: Global,
    destination: &Path,
) -> Result<Reply, PlainFault>
    ensures ok { IfOk result (λ reply. Answers world.old (model.initialize world.old destination.now) reply world.new) }
    ensures err { OnErr result (world.new ≡ world.old) }
{
    let Some(t) = target(world, destination) else {
        return Ok(Reply::Refused(no_target(alloc, world, destination)?));
    };
    if is_writable(world, t.destination) {
        return Ok(Reply::Refused(Refusal::Writable));
    }
    if !is_bare(world, t.destination) {
        return Ok(Reply::Refused(Refusal::Initialized));
    }
    if is_quiesced(world, t.relation) {
        return Ok(Reply::Refused(Refusal::Quiesced));
    }
    if is_running(world, t.relation) {
        return Ok(Reply::Refused(Refusal::Transferring));
    }
    resume_or_start(world, alloc, t.relation, TransferKind::Initialize)
}

fn family_at(world: &PlainWorld, at: usize) -> u64
    ensures { result ≡ (volume_at world.now at).family }
{
    match volume_at(world, at) {
        None => 0,
        Some(volume) => volume.family,
    }
}

fn is_mirror_of(world: &PlainWorld, relation: &WorldRelation) -> bool
    ensures { result ≡ is_mirror (policy_at world.now relation.now.policy).kind }
{
    is_mirror(policy_kind_at(world, relation.policy as usize))
}

fn has_other_layout(world: &PlainWorld, at: usize) -> bool
    requires { at < length world.now.relations }
    ensures { result ≡ model.has_other_layout world.now (relation_at world.now at) }
{
    let relation = relation(world, at);
    let source = family_at(world, relation.source.0 as usize);
    let destination = family_at(world, relation.destination.0 as usize);
    is_mirror_of(world, relation) && source != destination
}

fn has_nothing(relation: &WorldRelation) -> bool
    ensures { result ≡ (is_none relation.now.base && is_none relation.now.transfer) }
{
    relation.base.is_none() && relation.transfer.is_none()
}

fn is_uninitialized(world: &PlainWorld, destination: usize, at: usize) -> bool
    requires { at < length world.now.relations }
    ensures { result ≡ may.is_uninitialized (volume_at world.now destination) (relation_at world.now at) }
{
    is_bare(world, destination) || has_nothing(relation(world, at))
}

/// Starts a further transfer to a destination, or goes on with one.
pub fn update(
    world: &mut PlainWorld,
    alloc: Global,
    destination: &Path,
) -> Result<Reply, PlainFault>
    ensures ok { IfOk result (λ reply. Answers world.old (model.update world.old destination.now) reply world.new) }
    ensures err { OnErr result (world.new ≡ world.old) }
{
    let Some(t) = target(world, destination) else {
        return Ok(Reply::Refused(no_target(alloc, world, destination)?));
    };
    if is_writable(world, t.destination) {
        return Ok(Reply::Refused(Refusal::Writable));
    }
    if is_uninitialized(world, t.destination, t.relation) {
        return Ok(Reply::Refused(Refusal::Uninitialized));
    }
    if is_quiesced(world, t.relation) {
        return Ok(Reply::Refused(Refusal::Quiesced));
    }
    if is_running(world, t.relation) {
        return Ok(Reply::Refused(Refusal::Transferring));
    }
    if has_other_layout(world, t.relation) {
        return Ok(Reply::Refused(Refusal::OtherLayout));
    }
    resume_or_start(world, alloc, t.relation, TransferKind::Update)
}

fn settled_by(
    alloc: Global,
    there: &[PlainSnapshot],
    relation: &WorldRelation,
    transfer: &WorldTransfer,
    legs: &[Ident],
) -> Result<WorldRelation, NoMemory>
    requires { relation.now.transfer ≡ Some transfer.now }
    ensures { IfOk result (λ r. r ≡ progress.settled_if_there there.now relation.now transfer.now legs.now) }
{
    match legs {
        [first, later @ ..] if has_copy(there, *first) => {
            let transfer = with_legs(alloc, transfer, later)?;
            Ok(with_base(relation, Some(*first), Some(transfer)))
        }
        _ => {
            let transfer = copy_transfer(alloc, transfer)?;
            Ok(with_transfer(relation, Some(transfer)))
        }
    }
}

fn transfer_of(
    alloc: Global,
    world: &PlainWorld,
    at: usize,
) -> Result<Option<WorldTransfer>, NoMemory>
    requires { at < length world.now.relations }
    ensures { IfOk result (λ t. t ≡ (relation_at world.now at).transfer) }
{
    match &relation(world, at).transfer {
        None => Ok(None),
        Some(transfer) => Ok(Some(copy_transfer(alloc, transfer)?)),
    }
}

// The relationship with its transfer, whose first leg is the base where it is published.
fn settled_at(
    alloc: Global,
    world: &PlainWorld,
    destination: usize,
    at: usize,
    transfer: &WorldTransfer,
) -> Result<WorldRelation, NoMemory>
    requires stands { at < length world.now.relations }
    requires its { (relation_at world.now at).transfer ≡ Some transfer.now }
    ensures { IfOk result (λ r. r ≡ progress.settled_if_there (volume_at world.now destination).snapshots (relation_at world.now at) transfer.now transfer.now.legs) }
{
    settled_by(
        alloc,
        snapshots_at(world, destination),
        relation(world, at),
        transfer,
        &transfer.legs,
    )
}

fn transfer_or(
    alloc: Global,
    relation: &WorldRelation,
    transfer: &WorldTransfer,
) -> Result<WorldTransfer, NoMemory>
    ensures { IfOk result (λ t. t ≡ model.transfer_or transfer.now relation.now.transfer) }
{
    match &relation.transfer {
        None => copy_transfer(alloc, transfer),
        Some(settled) => copy_transfer(alloc, settled),
    }
}

fn is_done(transfer: &WorldTransfer) -> bool
    ensures { result ≡ is_empty transfer.now.legs }
{
    transfer.legs.is_empty()
}

// Whether a transfer that is stopped is to be stopped, and not discarded.
fn is_halted_again(hard: bool, transfer: &WorldTransfer) -> bool
    ensures { result ≡ (not hard && is_some transfer.now.stopped) }
{
    !hard && transfer.stopped.is_some()
}

#[tactic(auto, using(crate::proofs::Whether::whether_then, crate::proofs::Whether::whether_otherwise))]
fn abort_settled(
    world: &mut PlainWorld,
    alloc: Global,
    at: usize,
    hard: bool,
    relation: WorldRelation,
    transfer: WorldTransfer,
) -> Result<Reply, PlainFault>
    requires { at < length world.old.relations }
    ensures ok { IfOk result (λ reply. Answers world.old (model.abort_settled world.old at hard relation transfer) reply world.new) }
    ensures err { OnErr result (world.new ≡ world.old) }
{
    let transfer = transfer_or(alloc, &relation, &transfer)?;
    if hard || is_done(&transfer) {
        put(world, at, with_transfer(&relation, None));
        return Ok(Reply::Ended);
    }
    let prefix = small(landed_prefix(&transfer.landed))?;
    let halted = back_at(alloc, &transfer, prefix, Some(Reason::Aborted))?;
    put(world, at, with_transfer(&relation, Some(halted)));
    Ok(Reply::Kept { checkpoint: prefix })
}

/// Stops a transfer and leaves what it landed without a gap, or, where `hard`, discards the transfer.
pub fn abort(
    world: &mut PlainWorld,
    alloc: Global,
    destination: &Path,
    hard: bool,
) -> Result<Reply, PlainFault>
    ensures ok { IfOk result (λ reply. Answers world.old (model.abort world.old destination.now hard) reply world.new) }
    ensures err { OnErr result (world.new ≡ world.old) }
{
    let Some(t) = target(world, destination) else {
        return Ok(Reply::Refused(no_target(alloc, world, destination)?));
    };
    let Some(transfer) = transfer_of(alloc, world, t.relation)? else {
        return Ok(Reply::Refused(Refusal::NoTransfer));
    };
    if is_halted_again(hard, &transfer) {
        return Ok(Reply::Refused(Refusal::NoTransfer));
    }
    let relation = settled_at(alloc, world, t.destination, t.relation, &transfer)?;
    abort_settled(world, alloc, t.relation, hard, relation, transfer)
}

fn closes_walk(world: &PlainWorld, at: usize) -> bool
    requires { at < length world.now.relations }
    ensures { result ≡ (let r = relation_at world.now at in upstream (model.other_edges world.now r) r.destination r.source) }
{
    let relation = relation(world, at);
    upstream(
        world,
        PlainEdges::AllBut(relation.number),
        relation.destination.0,
        relation.source.0,
    )
}

fn source_snapshots(world: &PlainWorld, at: usize) -> &[PlainSnapshot]
    requires { at < length world.now.relations }
    ensures { result.now ≡ (volume_at world.now (relation_at world.now at).source).snapshots }
{
    snapshots_at(world, relation(world, at).source.0 as usize)
}

fn common_of(source: &[PlainSnapshot], destination: &[PlainSnapshot]) -> Option<Ident>
    ensures { IsOfOne (common source.now destination.now) result }
{
    common(source, destination)
}

fn newest_common(world: &PlainWorld, destination: usize, at: usize) -> Option<Ident>
    requires { at < length world.now.relations }
    ensures { IsOfOne (common (volume_at world.now (relation_at world.now at).source).snapshots (volume_at world.now destination).snapshots) result }
{
    common_of(
        source_snapshots(world, at),
        snapshots_at(world, destination),
    )
}

fn is_needed_otherwise(
    world: &PlainWorld,
    ident: Ident,
    relation: &WorldRelation,
    other: &WorldRelation,
) -> bool
    ensures { result ≡ model.needed_otherwise world.now relation.now.destination ident relation.now other.now }
{
    let volume = relation.destination.0;
    if other.number.0 == relation.number.0 {
        needed_at_source(world, volume, ident, other)
    } else {
        needed_for(world, volume, ident, other)
    }
}

fn other_holder(
    world: &PlainWorld,
    relations: &[WorldRelation],
    ident: Ident,
    relation: &WorldRelation,
) -> Option<RelNo>
    ensures { result ≡ option_map number_of (find (model.needed_otherwise world.now relation.now.destination ident relation.now) relations.now) }
{
    match relations {
        [] => None,
        [other, others @ ..] => {
            if is_needed_otherwise(world, ident, relation, other) {
                Some(other.number)
            } else {
                other_holder(world, others, ident, relation)
            }
        }
    }
}

fn holder_otherwise(world: &PlainWorld, ident: Ident, relation: &WorldRelation) -> Option<RelNo>
    ensures { result ≡ option_map number_of (find (model.needed_otherwise world.now relation.now.destination ident relation.now) world.now.relations) }
{
    other_holder(world, &world.relations, ident, relation)
}

// Whether one of these snapshots is needed at the destination, but for the relationship's own base there.
#[tactic(auto, unfolding(sm_model::specs::OfTransfers::held_downstream))]
fn test_each(
    world: &PlainWorld,
    snapshots: &[PlainSnapshot],
    relation: &WorldRelation,
) -> Result<(), Refusal>
    ensures { result ≡ model.held_downstream (model.first_held (λ i. find (model.needed_otherwise world.now relation.now.destination i relation.now) world.now.relations) snapshots.now) }
{
    match snapshots {
        [] => Ok(()),
        [snapshot, newer @ ..] => {
            match holder_otherwise(world, snapshot.ident, relation) {
                Some(holder) => Err(Refusal::HeldDownstream {
                    ident: snapshot.ident,
                    relation: holder,
                }),
                None => test_each(world, newer, relation),
            }
        }
    }
}

fn past_base(world: &PlainWorld, destination: usize, base: Ident) -> &[PlainSnapshot]
    ensures { result.now ≡ lists.past base (volume_at world.now destination).snapshots }
{
    behind(snapshots_at(world, destination), base)
}

fn test_past(world: &PlainWorld, at: usize, past: &[PlainSnapshot]) -> Result<(), Refusal>
    requires { at < length world.now.relations }
    ensures { let r = relation_at world.now at in result ≡ model.held_downstream (model.first_held (λ i. find (model.needed_otherwise world.now r.destination i r) world.now.relations) past.now) }
{
    test_each(world, past, relation(world, at))
}

#[tactic(auto, unfolding(sm_model::specs::OfTransfers::held_downstream))]
fn test_reverted(
    world: &PlainWorld,
    destination: usize,
    at: usize,
    base: Ident,
) -> Result<(), Refusal>
    requires { at < length world.now.relations }
    ensures { result ≡ model.held_downstream (model.held_after world.now (relation_at world.now at) base (volume_at world.now destination).snapshots) }
{
    if !is_mirror_of(world, relation(world, at)) {
        return Ok(());
    }
    test_past(world, at, past_base(world, destination, base))
}

fn reverted(
    alloc: Global,
    world: &PlainWorld,
    destination: usize,
    at: usize,
    base: Ident,
) -> Result<Vec<PlainSnapshot>, NoMemory>
    requires { at < length world.now.relations }
    ensures { IfOk result (λ left. left.items ≡ model.as_reverted (policy_at world.now (relation_at world.now at).policy) base (volume_at world.now destination).snapshots) }
{
    let there = snapshots_at(world, destination);
    if is_mirror_of(world, relation(world, at)) {
        up_to(alloc, there, base)
    } else {
        copy_snapshots(alloc, there)
    }
}

fn resynced(relation: &WorldRelation, base: Ident, transfer: WorldTransfer) -> WorldRelation
    ensures { result ≡ model.resynced relation.now base transfer }
{
    WorldRelation {
        source_half: true,
        quiesced: false,
        ..with_base(relation, Some(base), Some(transfer))
    }
}

fn resync_legs(
    alloc: Global,
    world: &PlainWorld,
    at: usize,
    base: Ident,
    left: &[PlainSnapshot],
) -> Result<PlainLegs, PlainFault>
    requires { at < length world.now.relations }
    ensures { IfOk result (λ sends. sends ≡ model.next_legs world.now (relation_at world.now at) (Some base) left.now) }
{
    next_legs(alloc, world, relation(world, at), Some(base), left)
}

fn test_resync_room(
    alloc: Global,
    world: &PlainWorld,
    at: usize,
    left: &[PlainSnapshot],
    legs: &PlainLegs,
) -> Result<Result<(), Refusal>, PlainFault>
    requires { at < length world.now.relations }
    ensures { IfOk result (λ answer. let r = relation_at world.now at in answer ≡ model.room_for (policy_at world.now r.policy) left.now (model.of_idents legs.now.idents (volume_at world.now r.source).snapshots)) }
{
    test_room(alloc, world, relation(world, at), left, &legs.idents)
}

fn begin_resync(
    alloc: Global,
    world: &mut PlainWorld,
    at: usize,
    base: Ident,
    legs: PlainLegs,
) -> Result<(), PlainFault>
    requires { at < length world.old.relations }
    ensures ok { OnOk result (world.new ≡ model.with_next_transfer world.old at (model.resynced (relation_at world.old at) base (model.new_transfer world.old.next_transfer Resync legs))) }
    ensures err { OnErr result (world.new ≡ world.old) }
{
    let transfer = new_transfer(alloc, world.next_transfer, TransferKind::Resync, legs);
    let relation = resynced(relation(world, at), base, transfer);
    put_next(world, at, relation)
}

#[tactic(auto, unfolding(sm_model::specs::Answers::and_then, sm_model::specs::Answers::refused_if))]
fn resync_from(
    world: &mut PlainWorld,
    alloc: Global,
    at: usize,
    base: Ident,
    left: &[PlainSnapshot],
) -> Result<Reply, PlainFault>
    requires { at < length world.old.relations }
    ensures ok { IfOk result (λ reply. Answers world.old (model.resync_from world.old at (relation_at world.old at) base left.now) reply world.new) }
    ensures err { OnErr result (world.new ≡ world.old) }
{
    let legs = resync_legs(alloc, world, at, base, left)?;
    if let Err(refusal) = test_resync_room(alloc, world, at, left, &legs)? {
        return Ok(Reply::Refused(refusal));
    }
    if has_all_transfers(world) {
        return Ok(Reply::Refused(Refusal::Full {
            what: What::Transfers,
        }));
    }
    let number = next_number(world);
    let count = count_legs(&legs)?;
    begin_resync(alloc, world, at, base, legs)?;
    Ok(Reply::Resyncing {
        transfer: number,
        common: base,
        legs: count,
    })
}

/// Goes back to the newest common snapshot and updates from there.
pub fn resync(
    world: &mut PlainWorld,
    alloc: Global,
    destination: &Path,
) -> Result<Reply, PlainFault>
    ensures ok { IfOk result (λ reply. Answers world.old (model.resync world.old destination.now) reply world.new) }
    ensures err { OnErr result (world.new ≡ world.old) }
{
    let Some(t) = target(world, destination) else {
        return Ok(Reply::Refused(no_target(alloc, world, destination)?));
    };
    if !is_writable(world, t.destination) {
        return Ok(Reply::Refused(Refusal::NotBroken));
    }
    if is_running(world, t.relation) {
        return Ok(Reply::Refused(Refusal::Transferring));
    }
    if has_other_layout(world, t.relation) {
        return Ok(Reply::Refused(Refusal::OtherLayout));
    }
    if closes_walk(world, t.relation) {
        return Ok(Reply::Refused(Refusal::Cycle));
    }
    let Some(base) = newest_common(world, t.destination, t.relation) else {
        return Ok(Reply::Refused(Refusal::NoCommon));
    };
    if let Err(refusal) = test_reverted(world, t.destination, t.relation, base) {
        return Ok(Reply::Refused(refusal));
    }
    let left = reverted(alloc, world, t.destination, t.relation, base)?;
    resync_from(world, alloc, t.relation, base, &left)
}
