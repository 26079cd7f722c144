// Worlds by their lines.
use crate::words::{BadLine, Words};
use sm_base::{DiskNo, RelNo, VolNo};
use sm_model::{
    World, WorldPolicy, WorldRelation, WorldRule, WorldSnapshot, WorldTransfer, WorldVolume,
};
use std::alloc::Global;
use std::test::Fail;

fn empty_world(alloc: Global) -> Result<World, Fail> {
    Ok(World {
        clock: 0,
        next_relation: 1,
        next_transfer: 1,
        volumes: Vec::new(alloc),
        policies: Vec::new(alloc),
        relations: Vec::new(alloc),
        disks: Vec::new(alloc),
    })
}

/// `volume PATH DISK KIND FAMILY LOGICAL PHYSICAL NEXT` with the active and the stable map.
fn add_volume(alloc: Global, world: &mut World, words: &mut Words) -> Result<(), Fail> {
    let volume = WorldVolume {
        path: words.path(alloc)?,
        disk: DiskNo(words.small()?),
        kind: words.kind()?,
        family: words.number()?,
        logical: words.small()?,
        physical: words.small()?,
        next: words.number()?,
        active: words.numbers(alloc)?,
        stable: words.numbers(alloc)?,
        snapshots: Vec::new(alloc),
    };
    Ok(world.volumes.push(volume)?)
}

/// `snapshot VOLUME IDENT NAME LABEL TIME MAKER` with its map.
fn add_snapshot(alloc: Global, world: &mut World, words: &mut Words) -> Result<(), Fail> {
    let place = words.small()? as usize;
    let snapshot = WorldSnapshot {
        ident: words.ident()?,
        name: words.name(alloc)?,
        label: words.label_or_none(alloc)?,
        time: words.number()?,
        made: words.small()?,
        map: words.numbers(alloc)?,
    };
    match world.volumes.get_mut(place) {
        Some(volume) => Ok(volume.snapshots.push(snapshot)?),
        None => Err(BadLine)?,
    }
}

/// `policy NAME KIND`, without a rule.
fn add_policy(alloc: Global, world: &mut World, words: &mut Words) -> Result<(), Fail> {
    let policy = WorldPolicy {
        name: words.part(alloc)?,
        kind: words.policy_kind()?,
        rules: Vec::new(alloc),
    };
    Ok(world.policies.push(policy)?)
}

/// `rule POLICY LABEL KEEP`.
fn add_rule(alloc: Global, world: &mut World, words: &mut Words) -> Result<(), Fail> {
    let place = words.small()? as usize;
    let rule = WorldRule {
        label: words.label(alloc)?,
        keep: words.small()?,
        preserve: false,
    };
    match world.policies.get_mut(place) {
        Some(policy) => Ok(policy.rules.push(rule)?),
        None => Err(BadLine)?,
    }
}

/// `relation NUMBER SOURCE DESTINATION POLICY SOURCE-HALF DESTINATION-HALF BASE`.
fn add_relation(world: &mut World, words: &mut Words) -> Result<(), Fail> {
    let relation = WorldRelation {
        number: RelNo(words.small()?),
        source: VolNo(words.small()?),
        destination: VolNo(words.small()?),
        policy: words.small()?,
        source_half: words.mark("source")?,
        destination_half: words.mark("destination")?,
        quiesced: words.mark("quiesced")?,
        base: words.ident_or_none()?,
        transfer: None,
    };
    Ok(world.relations.push(relation)?)
}

/// `transfer RELATION NUMBER KIND RESERVED CHECKPOINT STOPPED PRUNED` with the legs and what landed.
fn set_transfer(alloc: Global, world: &mut World, words: &mut Words) -> Result<(), Fail> {
    let place = words.small()? as usize;
    let transfer = WorldTransfer {
        number: words.number()?,
        kind: words.transfer_kind()?,
        reserved: words.mark("reserved")?,
        checkpoint: words.small()?,
        stopped: words.stopped()?,
        pruned: words.mark("pruned")?,
        legs: words.idents(alloc)?,
        landed: words.numbers(alloc)?,
    };
    match world.relations.get_mut(place) {
        Some(relation) => {
            relation.transfer = Some(transfer);
            Ok(())
        }
        None => Err(BadLine)?,
    }
}

/// Puts what the line tells into the world.
fn put(alloc: Global, world: &mut World, line: &str) -> Result<(), Fail> {
    let mut words = Words { rest: line };
    match words.word()? {
        "next" => {
            world.next_relation = words.small()?;
            world.next_transfer = words.number()?;
            Ok(())
        }
        "volume" => add_volume(alloc, world, &mut words),
        "snapshot" => add_snapshot(alloc, world, &mut words),
        "policy" => add_policy(alloc, world, &mut words),
        "rule" => add_rule(alloc, world, &mut words),
        "relation" => add_relation(world, &mut words),
        "transfer" => set_transfer(alloc, world, &mut words),
        _ => Err(BadLine)?,
    }
}

/// The world of the lines, where one line stands in place of that at `place`.
pub(crate) fn world_of(
    alloc: Global,
    lines: &[&str],
    place: usize,
    instead: &str,
) -> Result<World, Fail> {
    let mut world = empty_world(alloc)?;
    for (at, line) in lines.iter().enumerate() {
        if at == place {
            put(alloc, &mut world, instead)?;
        } else {
            put(alloc, &mut world, line)?;
        }
    }
    Ok(world)
}
