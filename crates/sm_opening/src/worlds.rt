// The world of maps that a catalogue and found roots spell.
ghost use Rattle.std.specs.Prelude.{◌≡◌, map, IfOk};
ghost use Rattle.std.specs.Option.{option_map};
ghost use Rattle.sm_shape.specs.Blank.{blank, blank_snapshot, blank_volume};
ghost use Rattle.sm_shape.specs.Blanked.{blanked};
ghost use Rattle.sm_opening.specs.OnDisk as on_disk;
ghost use Rattle.sm_opening.specs.OnDisk.{Disks};
ghost use Rattle.sm_opening.specs.Unlanded.{unlanded};
ghost use Rattle.sm_opening.specs.Finding.{root_of};
ghost use Rattle.sm_opening.specs.Bare.{bare_snapshot, bare_volume, bare_volumes, bare_transfer, bare_relation, bare_world};

use sm_base::{NoMemory, Reason};
use sm_catroot::{Catalog, Placed};
use sm_model::{
    World, WorldPolicy, WorldRelation, WorldRule, WorldSnapshot, WorldTransfer, WorldVolume,
};
use sm_policy::{Policy, Rule};
use sm_relation::{Relation, Standing};
use sm_root::{Root, RootSnapshot, copy_label};
use std::alloc::Global;
use volume_store::Found;

fn world_snapshot(alloc: Global, snapshot: &RootSnapshot) -> Result<WorldSnapshot, NoMemory>
    ensures { IfOk result (λ s. blank_snapshot s ≡ bare_snapshot snapshot.now) }
{
    Ok(WorldSnapshot {
        ident: snapshot.ident,
        name: snapshot.name.copy(alloc)?,
        label: copy_label(alloc, &snapshot.label)?,
        time: snapshot.time,
        made: snapshot.made,
        map: snapshot.map.to_vec(alloc)?,
    })
}

fn world_snapshots(
    alloc: Global,
    snapshots: &[RootSnapshot],
) -> Result<Vec<WorldSnapshot>, NoMemory>
    ensures { IfOk result (λ list. map blank_snapshot list.items ≡ map bare_snapshot snapshots.now) }
{
    let mut list = Vec::new(alloc);
    for snapshot in snapshots {
        list.push(world_snapshot(alloc, snapshot)?)?;
    }
    Ok(list)
}

// Its active image is the stable one.
fn world_volume(alloc: Global, placed: &Placed, root: &Root) -> Result<WorldVolume, NoMemory>
    ensures { IfOk result (λ v. blank_volume v ≡ bare_volume placed.now root.now) }
{
    Ok(WorldVolume {
        path: placed.path.copy(alloc)?,
        disk: placed.disk,
        kind: root.kind,
        family: root.family,
        logical: root.logical,
        physical: root.physical,
        next: root.next,
        active: root.stable.to_vec(alloc)?,
        stable: root.stable.to_vec(alloc)?,
        snapshots: world_snapshots(alloc, root.snapshots.as_slice())?,
    })
}

// The volumes that have both a place and a root.
fn world_volumes(
    alloc: Global,
    placed: &[Placed],
    founds: &[Found],
) -> Result<Vec<WorldVolume>, NoMemory>
    ensures { IfOk result (λ list. map blank_volume list.items ≡ bare_volumes placed.now (map root_of founds.now)) }
{
    let mut list = Vec::new(alloc);
    for (placed, found) in placed.iter().zip(founds) {
        list.push(world_volume(alloc, placed, found.root())?)?;
    }
    Ok(list)
}

fn world_rule(alloc: Global, rule: &Rule) -> Result<WorldRule, NoMemory>
    ensures { IfOk result (λ r. r ≡ rule.now) }
{
    Ok(WorldRule {
        label: rule.label.copy(alloc)?,
        keep: rule.keep,
        preserve: rule.preserve,
    })
}

fn world_rules(alloc: Global, rules: &[Rule]) -> Result<Vec<WorldRule>, NoMemory>
    ensures { IfOk result (λ list. list.items ≡ rules.now) }
{
    let mut list = Vec::new(alloc);
    for rule in rules {
        list.push(world_rule(alloc, rule)?)?;
    }
    Ok(list)
}

fn world_policy(alloc: Global, policy: &Policy) -> Result<WorldPolicy, NoMemory>
    ensures { IfOk result (λ p. p ≡ policy.now) }
{
    Ok(WorldPolicy {
        name: policy.name().copy(alloc)?,
        kind: policy.kind(),
        rules: world_rules(alloc, policy.rules())?,
    })
}

fn world_policies(alloc: Global, policies: &[Policy]) -> Result<Vec<WorldPolicy>, NoMemory>
    ensures { IfOk result (λ list. list.items ≡ policies.now) }
{
    let mut list = Vec::new(alloc);
    for policy in policies {
        list.push(world_policy(alloc, policy)?)?;
    }
    Ok(list)
}

// A restart stopped it, whether it ran or not.
fn world_transfer(alloc: Global, transfer: &Standing) -> Result<WorldTransfer, NoMemory>
    ensures { IfOk result (λ t. t ≡ bare_transfer transfer.now) }
{
    Ok(WorldTransfer {
        number: transfer.number,
        kind: transfer.kind,
        reserved: transfer.reserved,
        checkpoint: transfer.checkpoint,
        legs: Vec::from_slice(alloc, transfer.legs.as_slice())?,
        stopped: Some(Reason::Restart),
        landed: Vec::new(alloc),
        pruned: false,
    })
}

fn world_standing(
    alloc: Global,
    transfer: &Option<Standing>,
) -> Result<Option<WorldTransfer>, NoMemory>
    ensures { IfOk result (λ t. t ≡ option_map bare_transfer transfer.now) }
{
    match transfer {
        None => Ok(None),
        Some(transfer) => Ok(Some(world_transfer(alloc, transfer)?)),
    }
}

fn world_relation(alloc: Global, relation: &Relation) -> Result<WorldRelation, NoMemory>
    ensures { IfOk result (λ r. r ≡ bare_relation relation.now) }
{
    Ok(WorldRelation {
        number: relation.number,
        source: relation.source,
        destination: relation.destination,
        policy: relation.policy,
        source_half: relation.source_half,
        destination_half: relation.destination_half,
        quiesced: relation.quiesced,
        base: relation.base,
        transfer: world_standing(alloc, &relation.transfer)?,
    })
}

fn world_relations(alloc: Global, relations: &[Relation]) -> Result<Vec<WorldRelation>, NoMemory>
    ensures { IfOk result (λ list. list.items ≡ map bare_relation relations.now) }
{
    let mut list = Vec::new(alloc);
    for relation in relations {
        list.push(world_relation(alloc, relation)?)?;
    }
    Ok(list)
}

// The same for all images of the disks.
fn bare_of(
    alloc: Global,
    catalog: &Catalog,
    founds: &[Found],
    lengths: &[u64],
) -> Result<World, NoMemory>
    ensures { IfOk result (λ world. blank world ≡ bare_world lengths.now catalog.now (map root_of founds.now)) }
{
    Ok(World {
        clock: catalog.clock,
        next_relation: catalog.next_relation,
        next_transfer: catalog.next_transfer,
        volumes: world_volumes(alloc, &catalog.volumes, founds)?,
        policies: world_policies(alloc, &catalog.policies)?,
        relations: world_relations(alloc, &catalog.relations)?,
        disks: Vec::from_slice(alloc, lengths)?,
    })
}

/// The world of a catalogue, of the volumes that were found for it, in the order of their numbers, and of
/// disks of these lengths, in bytes. Nothing of a transfer has landed in it. `NoMemory` where it finds no room.
pub fn world_of(
    alloc: Global,
    catalog: &Catalog,
    founds: &[Found],
    lengths: &[u64],
) -> Result<World, NoMemory>
    ensures { IfOk result (λ world. (d : Disks) → d.sizes ≡ lengths.now → blank world ≡ unlanded (blanked (on_disk.world_of d catalog.now (map root_of founds.now)))) }
{
    bare_of(alloc, catalog, founds, lengths)
}
