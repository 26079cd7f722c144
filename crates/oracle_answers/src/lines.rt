// The lines of tables and of the report.
ghost use Rattle.std.specs.Prelude.{◌≡◌, ◌≤◌, length, IfOk, OnErr};
ghost use Rattle.sm_defs.specs.World.{volume_at};
ghost use Rattle.sm_model.specs.OfReport as model;

use oracle_lists::{PlainBlock, PlainSnapshot};
use oracle_relations::policy_of;
use oracle_world::{
    PlainFault, PlainNumber, PlainVolume, PlainWorld, mirror_state, small, status, used, volume_at,
};
use sha2::{Digest, Sha256};
use sm_base::{NoMemory, VolNo};
use sm_model::{
    Condition, Course, Line, Rules, WorldRelation, WorldRule, WorldTransfer, copy_label,
};
use sm_policy::{Policy, Rule};
use std::alloc::Global;

fn digest(image: &[PlainBlock]) -> [u8; 32]
    ensures { result ≡ model.digest image.now }
{
    let mut hasher = Sha256::new();
    for block in image {
        hasher.update(&block.bytes);
    }
    hasher.finalize()
}

/// The line on a volume.
pub(crate) fn volume_line(
    alloc: Global,
    number: VolNo,
    volume: &PlainVolume,
) -> Result<Line, PlainFault>
    ensures { IfOk result (λ line. line ≡ model.volume_line number volume.now) }
{
    let used = small(used(alloc, volume)?)?;
    let snapshots = small(volume.snapshots.len())?;
    Ok(Line::Volume {
        volume: number,
        path: volume.path.copy(alloc)?,
        kind: volume.kind,
        blocks: volume.logical,
        physical: volume.physical,
        used,
        snapshots,
    })
}

/// The line on an active image.
pub(crate) fn active_line(number: VolNo, volume: &PlainVolume) -> Line
    ensures { result ≡ model.active_line number volume.now }
{
    Line::Active {
        volume: number,
        digest: digest(&volume.active),
    }
}

/// The line on a snapshot, with its digest.
pub(crate) fn snapshot_line(
    alloc: Global,
    number: VolNo,
    snapshot: &PlainSnapshot,
) -> Result<Line, NoMemory>
    ensures { IfOk result (λ line. line ≡ model.snapshot_line number snapshot.now) }
{
    Ok(Line::Snapshot {
        volume: number,
        name: snapshot.name.copy(alloc)?,
        ident: snapshot.ident,
        label: copy_label(alloc, &snapshot.label)?,
        time: snapshot.time,
        made: snapshot.maker,
        digest: digest(&snapshot.image),
    })
}

/// The line of a table on a snapshot.
pub(crate) fn listed_line(
    alloc: Global,
    number: VolNo,
    snapshot: &PlainSnapshot,
) -> Result<Line, NoMemory>
    ensures { IfOk result (λ line. line ≡ model.listed_line number snapshot.now) }
{
    Ok(Line::Listed {
        volume: number,
        name: snapshot.name.copy(alloc)?,
        ident: snapshot.ident,
        label: copy_label(alloc, &snapshot.label)?,
        time: snapshot.time,
        made: snapshot.maker,
    })
}

fn rules_of(alloc: Global, rules: &[Rule]) -> Result<Vec<WorldRule>, NoMemory>
    ensures { IfOk result (λ all. all.items ≡ rules.now) }
{
    let mut all = Vec::new(alloc);
    for rule in rules {
        all.push(WorldRule {
            label: rule.label.copy(alloc)?,
            keep: rule.keep,
            preserve: rule.preserve,
        })?;
    }
    Ok(all)
}

/// The line on a policy.
pub(crate) fn policy_line(alloc: Global, policy: &Policy) -> Result<Line, NoMemory>
    ensures { IfOk result (λ line. line ≡ model.policy_line policy.now) }
{
    Ok(Line::Policy {
        name: policy.name().copy(alloc)?,
        kind: policy.kind(),
        rules: Rules {
            rules: rules_of(alloc, policy.rules())?,
        },
    })
}

/// The volume of a number, which must stand.
pub(crate) fn volume_of(world: &PlainWorld, number: VolNo) -> Result<&PlainVolume, PlainFault>
    ensures named { IfOk result (λ v. v.now ≡ volume_at world.now number.0) }
    ensures none { OnErr result (length world.now.volumes ≤ number.0) }
{
    match volume_at(world, number.0 as usize) {
        None => Err(PlainFault::TooGreat {
            number: PlainNumber::Place,
        }),
        Some(volume) => Ok(volume),
    }
}

fn condition(world: &PlainWorld, relation: &WorldRelation) -> Result<Option<Condition>, PlainFault>
    ensures { IfOk result (λ c. c ≡ model.condition world.now relation.now) }
{
    if !relation.destination_half {
        return Ok(None);
    }
    let destination = volume_of(world, relation.destination)?;
    Ok(Some(Condition {
        state: mirror_state(destination),
        status: status(relation),
    }))
}

fn course(transfer: &Option<WorldTransfer>) -> Option<Course>
    ensures { result ≡ model.course transfer.now }
{
    match transfer {
        None => None,
        Some(transfer) => Some(Course {
            number: transfer.number,
            stopped: transfer.stopped,
        }),
    }
}

/// The line on a relationship, whose volumes and policy must stand.
pub(crate) fn relation_line(
    alloc: Global,
    world: &PlainWorld,
    relation: &WorldRelation,
) -> Result<Line, PlainFault>
    ensures { IfOk result (λ line. line ≡ model.relation_line world.now relation.now) }
{
    let condition = condition(world, relation)?;
    let source = volume_of(world, relation.source)?.path.copy(alloc)?;
    let destination = volume_of(world, relation.destination)?.path.copy(alloc)?;
    let policy = policy_of(world, relation)?.name().copy(alloc)?;
    Ok(Line::Relationship {
        relation: relation.number,
        source,
        destination,
        policy,
        condition,
        base: relation.base,
        transfer: course(&relation.transfer),
    })
}
