// What a new transfer sends, and how it begins.
ghost use Rattle.std.specs.Prelude.{◌≡◌, ◌<◌, ◌≤◌, ◌==◌, length, IfOk, OnOk, OnErr};
ghost use Rattle.sm_defs.specs.Edges.{is_empty};
ghost use Rattle.sm_defs.specs.Retention.{labels, keep_reached};
ghost use Rattle.sm_defs.specs.World.{volume_at, policy_at, relation_at, with_relation};
ghost use Rattle.sm_model.specs.OfTransfers as model;
ghost use Rattle.oracle_volumes.specs.Answering.{Answers};

use crate::targets::relation;
use oracle_lists::{
    PlainLegs, PlainSnapshot, PlainSource, copy_snapshots, is_among, labels_of, legs,
};
use oracle_volumes::policy;
use oracle_world::{
    PlainFault, PlainNumber, PlainWorld, back_at, is_mirror, kind_at, small, snapshots_at,
    with_transfer,
};
use sm_base::limits::LAST_NUMBER;
use sm_base::{Ident, Label, NoMemory, Refusal, TransferKind, What};
use sm_model::{Reply, WorldRelation, WorldTransfer, copy_label};
use sm_policy::Policy;
use std::alloc::Global;

fn source_of(
    alloc: Global,
    world: &PlainWorld,
    relation: &WorldRelation,
) -> Result<PlainSource, NoMemory>
    ensures { IfOk result (λ source. source ≡ model.source_of world.now relation.now) }
{
    let at = relation.source.0 as usize;
    Ok(PlainSource {
        number: relation.source.0,
        kind: kind_at(world, at),
        snapshots: copy_snapshots(alloc, snapshots_at(world, at))?,
    })
}

/// The policy of a relationship, whose place must stand.
pub fn policy_of<'a>(
    world: &'a PlainWorld,
    relation: &WorldRelation,
) -> Result<&'a Policy, PlainFault>
    ensures named { IfOk result (λ p. p.now ≡ policy_at world.now relation.now.policy) }
    ensures none { OnErr result (length world.now.policies ≤ relation.now.policy) }
{
    let at = relation.policy as usize;
    if at < world.policies.len() {
        Ok(policy(world, at))
    } else {
        Err(PlainFault::TooGreat {
            number: PlainNumber::Place,
        })
    }
}

/// What the next transfer would send against a base and a list.
pub(crate) fn next_legs(
    alloc: Global,
    world: &PlainWorld,
    relation: &WorldRelation,
    base: Option<Ident>,
    there: &[PlainSnapshot],
) -> Result<PlainLegs, PlainFault>
    ensures { IfOk result (λ sends. sends ≡ model.next_legs world.now relation.now base there.now) }
{
    let number = world.next_transfer;
    if number >= 1 << 63 {
        return Err(PlainFault::TooGreat {
            number: PlainNumber::Transfer,
        });
    }
    let policy = policy_of(world, relation)?;
    let source = source_of(alloc, world, relation)?;
    Ok(legs(alloc, number, policy, base, &source, there)?)
}

fn labels_among(
    alloc: Global,
    idents: &[Ident],
    snapshots: &[PlainSnapshot],
) -> Result<Vec<Option<Label>>, NoMemory>
    ensures { IfOk result (λ all. all.items ≡ labels (model.of_idents idents.now snapshots.now)) }
{
    match snapshots {
        [] => Ok(Vec::new(alloc)),
        [snapshot, newer @ ..] => {
            let mut all = labels_among(alloc, idents, newer)?;
            if is_among(idents, snapshot.ident) {
                all.insert(0, copy_label(alloc, &snapshot.label)?)?;
            }
            Ok(all)
        }
    }
}

#[tactic(auto, unfolding(sm_model::specs::OfTransfers::refused_rule))]
fn test_rules(
    alloc: Global,
    policy: &Policy,
    there: &[Option<Label>],
    coming: &[Option<Label>],
) -> Result<Result<(), Refusal>, NoMemory>
    ensures { IfOk result (λ answer. answer ≡ model.refused_rule (keep_reached policy.now.rules there.now coming.now)) }
{
    match policy.keep_reached(there, coming) {
        None => Ok(Ok(())),
        Some(label) => Ok(Err(Refusal::KeepReached {
            label: label.copy(alloc)?,
        })),
    }
}

fn test_labels(
    alloc: Global,
    policy: &Policy,
    there: &[PlainSnapshot],
    sent: &[Ident],
    source: &[PlainSnapshot],
) -> Result<Result<(), Refusal>, NoMemory>
    ensures { IfOk result (λ answer. answer ≡ model.refused_rule (keep_reached policy.now.rules (labels there.now) (labels (model.of_idents sent.now source.now)))) }
{
    let labels = labels_of(alloc, there)?;
    let coming = labels_among(alloc, sent, source)?;
    test_rules(alloc, policy, &labels, &coming)
}

#[tactic(auto, unfolding(sm_model::specs::OfTransfers::refused_rule))]
fn test_policy(
    alloc: Global,
    policy: &Policy,
    there: &[PlainSnapshot],
    sent: &[Ident],
    source: &[PlainSnapshot],
) -> Result<Result<(), Refusal>, NoMemory>
    ensures { IfOk result (λ answer. answer ≡ model.room_for policy.now there.now (model.of_idents sent.now source.now)) }
{
    if is_mirror(policy.kind()) {
        return Ok(Ok(()));
    }
    test_labels(alloc, policy, there, sent, source)
}

/// Whether a vault's rules have room for the source's snapshots of these identities.
pub(crate) fn test_room(
    alloc: Global,
    world: &PlainWorld,
    relation: &WorldRelation,
    there: &[PlainSnapshot],
    sent: &[Ident],
) -> Result<Result<(), Refusal>, PlainFault>
    ensures { IfOk result (λ answer. answer ≡ model.room_for (policy_at world.now relation.now.policy) there.now (model.of_idents sent.now (volume_at world.now relation.now.source).snapshots)) }
{
    let policy = policy_of(world, relation)?;
    let source = snapshots_at(world, relation.source.0 as usize);
    Ok(test_policy(alloc, policy, there, sent, source)?)
}

/// The number of the next transfer.
pub(crate) fn next_number(world: &PlainWorld) -> u64
    ensures { result ≡ world.now.next_transfer }
{
    world.next_transfer
}

/// Whether the numbers of transfers have run out.
pub(crate) fn has_all_transfers(world: &PlainWorld) -> bool
    ensures { result ≡ (world.now.next_transfer == LAST_NUMBER) }
{
    world.next_transfer == LAST_NUMBER
}

/// A transfer of these legs that has landed nothing.
pub(crate) fn new_transfer(
    alloc: Global,
    number: u64,
    kind: TransferKind,
    legs: PlainLegs,
) -> WorldTransfer
    ensures { result ≡ model.new_transfer number kind legs }
{
    WorldTransfer {
        number,
        kind,
        reserved: legs.reserved,
        checkpoint: 0,
        legs: legs.idents,
        stopped: None,
        landed: Vec::new(alloc),
        pruned: false,
    }
}

/// The transfer's number, which the world then gives no more.
pub(crate) fn put_next(
    world: &mut PlainWorld,
    at: usize,
    relation: WorldRelation,
) -> Result<(), PlainFault>
    requires { at < length world.old.relations }
    ensures ok { OnOk result (world.new ≡ model.with_next_transfer world.old at relation) }
    ensures err { OnErr result (world.new ≡ world.old) }
{
    let number = world.next_transfer;
    if number == u64::MAX {
        return Err(PlainFault::TooGreat {
            number: PlainNumber::Transfer,
        });
    }
    world.relations[at] = relation;
    world.next_transfer = number + 1;
    Ok(())
}

/// Puts a relationship in the place of another.
pub(crate) fn put(world: &mut PlainWorld, at: usize, relation: WorldRelation)
    requires { at < length world.old.relations }
    ensures { world.new ≡ with_relation world.old at relation }
{
    world.relations[at] = relation;
}

pub(crate) fn is_nothing(legs: &PlainLegs) -> bool
    ensures { result ≡ is_empty legs.now.idents }
{
    legs.idents.is_empty()
}

pub(crate) fn count_legs(legs: &PlainLegs) -> Result<u32, PlainFault>
    ensures { IfOk result (λ count. count ≡ length legs.now.idents) }
{
    small(legs.idents.len())
}

fn legs_at(alloc: Global, world: &PlainWorld, at: usize) -> Result<PlainLegs, PlainFault>
    requires { at < length world.now.relations }
    ensures { IfOk result (λ sends. let r = relation_at world.now at in sends ≡ model.next_legs world.now r r.base (volume_at world.now r.destination).snapshots) }
{
    let relation = relation(world, at);
    let there = snapshots_at(world, relation.destination.0 as usize);
    next_legs(alloc, world, relation, relation.base, there)
}

fn test_room_at(
    alloc: Global,
    world: &PlainWorld,
    at: usize,
    legs: &PlainLegs,
) -> Result<Result<(), Refusal>, PlainFault>
    requires { at < length world.now.relations }
    ensures { IfOk result (λ answer. let r = relation_at world.now at in answer ≡ model.room_for (policy_at world.now r.policy) (volume_at world.now r.destination).snapshots (model.of_idents legs.now.idents (volume_at world.now r.source).snapshots)) }
{
    let relation = relation(world, at);
    let there = snapshots_at(world, relation.destination.0 as usize);
    test_room(alloc, world, relation, there, &legs.idents)
}

fn begin(
    alloc: Global,
    world: &mut PlainWorld,
    at: usize,
    kind: TransferKind,
    legs: PlainLegs,
) -> Result<(), PlainFault>
    requires { at < length world.old.relations }
    ensures ok { OnOk result (world.new ≡ model.with_next_transfer world.old at (model.with_transfer (relation_at world.old at) (model.new_transfer world.old.next_transfer kind legs))) }
    ensures err { OnErr result (world.new ≡ world.old) }
{
    let transfer = new_transfer(alloc, world.next_transfer, kind, legs);
    let relation = with_transfer(relation(world, at), Some(transfer));
    put_next(world, at, relation)
}

/// Starts a transfer of the relationship at a place.
fn start(
    world: &mut PlainWorld,
    alloc: Global,
    at: usize,
    kind: TransferKind,
) -> Result<Reply, PlainFault>
    requires { at < length world.old.relations }
    ensures ok { IfOk result (λ reply. Answers world.old (model.start_it world.old at (relation_at world.old at) kind) reply world.new) }
    ensures err { OnErr result (world.new ≡ world.old) }
{
    let legs = legs_at(alloc, world, at)?;
    if let Err(refusal) = test_room_at(alloc, world, at, &legs)? {
        return Ok(Reply::Refused(refusal));
    }
    if is_nothing(&legs) {
        return Ok(Reply::Nothing);
    }
    if has_all_transfers(world) {
        return Ok(Reply::Refused(Refusal::Full {
            what: What::Transfers,
        }));
    }
    let number = next_number(world);
    let count = count_legs(&legs)?;
    begin(alloc, world, at, kind, legs)?;
    Ok(Reply::Started {
        transfer: number,
        legs: count,
    })
}

/// Goes on with the transfer of the relationship at a place, or starts one.
#[tactic(auto, unfolding(sm_model::specs::OfTransfers::resume_or_start))]
pub(crate) fn resume_or_start(
    world: &mut PlainWorld,
    alloc: Global,
    at: usize,
    kind: TransferKind,
) -> Result<Reply, PlainFault>
    requires { at < length world.old.relations }
    ensures ok { IfOk result (λ reply. let r = relation_at world.old at in Answers world.old (model.resume_or_start world.old at r kind r.transfer) reply world.new) }
    ensures err { OnErr result (world.new ≡ world.old) }
{
    let relation = relation(world, at);
    match &relation.transfer {
        None => start(world, alloc, at, kind),
        Some(transfer) => {
            let number = transfer.number;
            let checkpoint = transfer.checkpoint;
            let resumed = back_at(alloc, transfer, checkpoint, None)?;
            let relation = with_transfer(relation, Some(resumed));
            put(world, at, relation);
            Ok(Reply::Resumed {
                transfer: number,
                checkpoint,
            })
        }
    }
}
