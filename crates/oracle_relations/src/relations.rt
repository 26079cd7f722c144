// What events on relationships are answered, but for those that start or stop a transfer.
ghost use Rattle.std.specs.Prelude.{◌≡◌, ◌==◌, ◌||◌, ◌&&◌, not, ◌<◌, length, IfOk, OnErr, position};
ghost use Rattle.std.specs.List.{filter};
ghost use Rattle.sm_defs.specs.Words.{found};
ghost use Rattle.sm_defs.specs.Edges.{edges};
ghost use Rattle.sm_defs.specs.Volume.{is_rw};
ghost use Rattle.sm_defs.specs.World.{volume_at, policy_at, relation_at, with_volume, with_relation, no_relation};
ghost use Rattle.sm_model.specs.Answers.{goes_to};
ghost use Rattle.sm_model.specs.OfRelations as model;
ghost use Rattle.oracle_world.specs.Finding.{IsFound};
ghost use Rattle.oracle_volumes.specs.Answering.{Answers};
ghost use Rattle.oracle_relations.specs.Targets.{IsReleased};
ghost use Rattle.sm_defs.specs.Operations as operations;

use crate::targets::{has_transfer, is_bare, no_target, relation, target};
use oracle_volumes::{
    is_writable, place_of, place_of_policy, policy, refuse_path, refuse_policy, volume,
};
use oracle_world::{
    PlainEdges, PlainFault, PlainNumber, PlainVolume, PlainWorld, is_mirror, relation_to, small,
    upstream,
};
use sm_base::limits::{LAST_RELATION, MOST_RELATIONS};
use sm_base::{Kind, Path, Path1, Refusal, RelNo, VolNo, What};
use sm_model::{Reply, WorldRelation};
use std::alloc::Global;

fn test_destination(world: &PlainWorld, destination: usize) -> Result<(), Refusal>
    ensures { result ≡ model.already (found (goes_to destination) world.now.relations) }
{
    match relation_to(world, destination) {
        None => Ok(()),
        Some(at) => Err(Refusal::AlreadyDestination {
            relation: relation(world, at).number,
        }),
    }
}

fn sizes_differ(world: &PlainWorld, policy_place: usize, source: usize, destination: usize) -> bool
    requires policy { policy_place < length world.now.policies }
    requires source { source < length world.now.volumes }
    requires destination { destination < length world.now.volumes }
    ensures { result ≡ model.sizes_differ (policy_at world.now policy_place) (volume_at world.now source) (volume_at world.now destination) }
{
    let from = volume(world, source);
    let to = volume(world, destination);
    let mirrors = is_mirror(policy(world, policy_place).kind());
    from.logical != to.logical || (mirrors && from.physical != to.physical)
}

fn closes(world: &PlainWorld, source: u32, destination: u32) -> bool
    ensures { result ≡ model.closes (edges world.now) source destination }
{
    source == destination || upstream(world, PlainEdges::All, destination, source)
}

fn has_all_relations(world: &PlainWorld) -> bool
    ensures { result ≡ ((length world.now.relations == MOST_RELATIONS) || (world.now.next_relation == LAST_RELATION)) }
{
    world.relations.len() == MOST_RELATIONS || world.next_relation == LAST_RELATION
}

fn add_relation(
    world: &mut PlainWorld,
    source: u32,
    destination: u32,
    policy: u32,
) -> Result<RelNo, PlainFault>
    ensures ok { IfOk result (λ number. (number.0 ≡ world.old.next_relation) × (world.new ≡ model.with_new_relation world.old source destination policy)) }
    ensures err { OnErr result (world.new ≡ world.old) }
{
    let next = world.next_relation;
    if next == u32::MAX {
        return Err(PlainFault::TooGreat {
            number: PlainNumber::Relation,
        });
    }
    let number = RelNo(next);
    world.relations.push(WorldRelation {
        number,
        source: VolNo(source),
        destination: VolNo(destination),
        policy,
        source_half: true,
        destination_half: true,
        quiesced: false,
        base: None,
        transfer: None,
    })?;
    world.next_relation = next + 1;
    Ok(number)
}

/// Relates a source and a destination by a policy.
pub fn relate(
    world: &mut PlainWorld,
    alloc: Global,
    source: &Path,
    destination: &Path,
    policy: &Path1,
) -> Result<Reply, PlainFault>
    ensures ok { IfOk result (λ reply. Answers world.old (model.relate world.old source.now destination.now policy.now) reply world.new) }
    ensures err { OnErr result (world.new ≡ world.old) }
{
    let Some(from) = place_of(world, source) else {
        return refuse_path(alloc, source);
    };
    let Some(to) = place_of(world, destination) else {
        return refuse_path(alloc, destination);
    };
    let Some(by) = place_of_policy(world, policy) else {
        return refuse_policy(alloc, policy);
    };
    if let Err(refusal) = test_destination(world, to) {
        return Ok(Reply::Refused(refusal));
    }
    if sizes_differ(world, by, from, to) {
        return Ok(Reply::Refused(Refusal::SizeMismatch));
    }
    let from = small(from)?;
    let to = small(to)?;
    if closes(world, from, to) {
        return Ok(Reply::Refused(Refusal::Cycle));
    }
    if has_all_relations(world) {
        return Ok(Reply::Refused(Refusal::Full {
            what: What::Relations,
        }));
    }
    let relation = add_relation(world, from, to, small(by)?)?;
    Ok(Reply::Related { relation })
}

fn mark_quiesced(relation: &mut WorldRelation, flag: bool)
    ensures { relation.new ≡ model.quiesced_as flag relation.old }
{
    relation.quiesced = flag;
}

fn mark_quiesced_at(world: &mut PlainWorld, at: usize, flag: bool)
    requires { at < length world.old.relations }
    ensures { world.new ≡ with_relation world.old at (model.quiesced_as flag (relation_at world.old at)) }
{
    mark_quiesced(&mut world.relations[at], flag);
}

/// Bars further transfers to a destination, or lifts the bar.
pub fn set_quiesced(
    world: &mut PlainWorld,
    alloc: Global,
    destination: &Path,
    flag: bool,
) -> Result<Reply, PlainFault>
    ensures ok { IfOk result (λ reply. Answers world.old (model.set_quiesced world.old destination.now flag) reply world.new) }
    ensures err { OnErr result (world.new ≡ world.old) }
{
    let Some(t) = target(world, destination) else {
        return Ok(Reply::Refused(no_target(alloc, world, destination)?));
    };
    mark_quiesced_at(world, t.relation, flag);
    Ok(Reply::Done)
}

fn make_writable(volume: &mut PlainVolume)
    ensures { volume.new ≡ operations.writable volume.old }
{
    volume.kind = Kind::Rw;
}

fn make_writable_at(world: &mut PlainWorld, at: usize)
    requires { at < length world.old.volumes }
    ensures { world.new ≡ with_volume world.old at (operations.writable (volume_at world.old at)) }
{
    make_writable(&mut world.volumes[at]);
}

/// Makes a destination writable.
pub fn break_off(
    world: &mut PlainWorld,
    alloc: Global,
    destination: &Path,
) -> Result<Reply, PlainFault>
    ensures ok { IfOk result (λ reply. Answers world.old (model.break_off world.old destination.now) reply world.new) }
    ensures err { OnErr result (world.new ≡ world.old) }
{
    let Some(t) = target(world, destination) else {
        return Ok(Reply::Refused(no_target(alloc, world, destination)?));
    };
    if is_writable(world, t.destination) {
        return Ok(Reply::Refused(Refusal::Writable));
    }
    if is_bare(world, t.destination) {
        return Ok(Reply::Refused(Refusal::Uninitialized));
    }
    if has_transfer(world, t.relation) {
        return Ok(Reply::Refused(Refusal::Transferring));
    }
    make_writable_at(world, t.destination);
    Ok(Reply::Done)
}

fn retain_halves(relations: &mut Vec<WorldRelation>)
    ensures { relations.new.items ≡ filter model.has_a_half relations.old.items }
{
    relations.retain(|r| r.source_half || r.destination_half);
}

fn end_destination(relation: &mut WorldRelation)
    ensures { relation.new ≡ model.without_destination relation.old }
{
    relation.destination_half = false;
}

fn end_destination_at(world: &mut PlainWorld, at: usize)
    requires { at < length world.old.relations }
    ensures { world.new ≡ with_relation world.old at (model.without_destination (relation_at world.old at)) }
{
    end_destination(&mut world.relations[at]);
}

fn end_source(relation: &mut WorldRelation)
    ensures { relation.new ≡ model.without_source relation.old }
{
    relation.source_half = false;
}

fn end_source_at(world: &mut PlainWorld, at: usize)
    requires { at < length world.old.relations }
    ensures { world.new ≡ with_relation world.old at (model.without_source (relation_at world.old at)) }
{
    end_source(&mut world.relations[at]);
}

fn drop_ended(world: &mut PlainWorld)
    ensures { world.new ≡ record world.old { relations = filter model.has_a_half world.old.relations } }
{
    retain_halves(&mut world.relations);
}

/// Takes a relationship's destination half away.
pub fn delete(
    world: &mut PlainWorld,
    alloc: Global,
    destination: &Path,
) -> Result<Reply, PlainFault>
    ensures ok { IfOk result (λ reply. Answers world.old (model.delete world.old destination.now) reply world.new) }
    ensures err { OnErr result (world.new ≡ world.old) }
{
    let Some(t) = target(world, destination) else {
        return Ok(Reply::Refused(no_target(alloc, world, destination)?));
    };
    if has_transfer(world, t.relation) {
        return Ok(Reply::Refused(Refusal::Transferring));
    }
    end_destination_at(world, t.relation);
    drop_ended(world);
    Ok(Reply::Done)
}

fn is_between(relation: &WorldRelation, source: usize, destination: usize) -> bool
    ensures { result ≡ model.is_between source destination relation.now }
{
    relation.source_half
        && relation.source.0 as usize == source
        && relation.destination.0 as usize == destination
}

fn first_between(relations: &[WorldRelation], source: usize, destination: usize) -> Option<usize>
    ensures { result ≡ position (model.is_between source destination) relations.now }
{
    relations
        .iter()
        .position(|r| is_between(r, source, destination))
}

fn place_between(relations: &[WorldRelation], source: usize, destination: usize) -> Option<usize>
    ensures { IsFound (model.is_between source destination) relations.now no_relation result }
{
    first_between(relations, source, destination)
}

fn is_half(relation: &WorldRelation, source: usize, destination: usize) -> bool
    ensures { result ≡ (model.is_between source destination relation.now && not relation.now.destination_half) }
{
    is_between(relation, source, destination) && !relation.destination_half
}

fn first_half(relations: &[WorldRelation], source: usize, destination: usize) -> Option<usize>
    ensures { result ≡ position (λ r. model.is_between source destination r && not r.destination_half) relations.now }
{
    relations
        .iter()
        .position(|r| is_half(r, source, destination))
}

fn place_of_half(relations: &[WorldRelation], source: usize, destination: usize) -> Option<usize>
    ensures { IsFound (λ r. model.is_between source destination r && not r.destination_half) relations.now no_relation result }
{
    first_half(relations, source, destination)
}

fn released_among(relations: &[WorldRelation], source: usize, destination: usize) -> Option<usize>
    ensures { IsReleased relations.now source destination result }
{
    match place_of_half(relations, source, destination) {
        Some(at) => Some(at),
        None => place_between(relations, source, destination),
    }
}

fn released(world: &PlainWorld, source: usize, destination: usize) -> Option<usize>
    ensures { IsReleased world.now.relations source destination result }
{
    released_among(&world.relations, source, destination)
}

fn is_active(world: &PlainWorld, at: usize, destination: usize) -> bool
    requires { at < length world.now.relations }
    ensures { result ≡ ((relation_at world.now at).destination_half && not (is_rw (volume_at world.now destination).kind)) }
{
    relation(world, at).destination_half && !is_writable(world, destination)
}

/// Takes a relationship's source half away.
pub fn release(
    world: &mut PlainWorld,
    alloc: Global,
    source: &Path,
    destination: &Path,
) -> Result<Reply, PlainFault>
    ensures ok { IfOk result (λ reply. Answers world.old (model.release world.old source.now destination.now) reply world.new) }
    ensures err { OnErr result (world.new ≡ world.old) }
{
    let Some(from) = place_of(world, source) else {
        return refuse_path(alloc, source);
    };
    let Some(to) = place_of(world, destination) else {
        return refuse_path(alloc, destination);
    };
    let Some(at) = released(world, from, to) else {
        return Ok(Reply::Refused(Refusal::NoRelation {
            path: destination.copy(alloc)?,
        }));
    };
    if is_active(world, at, to) {
        return Ok(Reply::Refused(Refusal::Active));
    }
    if has_transfer(world, at) {
        return Ok(Reply::Refused(Refusal::Transferring));
    }
    end_source_at(world, at);
    drop_ended(world);
    Ok(Reply::Done)
}
