// The steps that bring a snapshot to a volume, and the one that tidies.
ghost use Rattle.std.specs.Prelude.{◌≡◌, ◌<◌, ◌+◌, ◌^◌, not, false, ℕ, length, string_bytes, IfOk};
ghost use Rattle.std.specs.List.{filter, list_any};
ghost use Rattle.sm_defs.specs.Needed.{needed};
ghost use Rattle.sm_defs.specs.Relationship.{is_mirror};
ghost use Rattle.sm_defs.specs.Classes.{class_of};
ghost use Rattle.sm_defs.specs.Retention.{retained};
ghost use Rattle.sm_policy.specs.Marks.{needed_marks};
ghost use Rattle.sm_defs.specs.Operations.{with_snapshot};
ghost use Rattle.sm_model.specs.Steps.{prepared_snapshot, is_elsewhere, family_published, arrived, list_published, published};
ghost use Rattle.sm_model.specs.Due.{prepare_reason, prepare_effect, publish_effect, is_tidied, tidy_due, tidy_effect};
ghost use Rattle.oracle_steps.specs.Changes.{IsChange, reason_of_count};
ghost use Rattle.oracle_steps.specs.Seen.{running_of};
ghost use Rattle.sm_defs.specs.Made.{made_name};

use crate::change::{PlainChange, PlainPlaced};
use crate::progress::interrupt;
use crate::reverting::{dropped, family_of_transfer, has_other_family};
use crate::shipping::landing;
use crate::values::PlainRunning;
use oracle_lists::{PlainSnapshot, copy_image, copy_snapshots, has_copy, retained, with_first};
use oracle_world::{PlainFault, PlainNumber, PlainVolume, PlainWorld, is_needed, is_rw};
use sm_base::limits::MOST_SNAPSHOTS;
use sm_base::{Ident, NameFault, NoMemory, PolicyKind, Reason, SnapName, VolNo};
use sm_model::{Reply, copy_label};
use sm_policy::Policy;
use std::alloc::Global;

fn made_text(alloc: Global, relation: u32, transfer: u64) -> Result<String, NoMemory>
    ensures { IfOk result (λ text. string_bytes text ≡ made_name relation transfer) }
{
    Ok(format!(in alloc; "snapmirror.{relation}.{transfer}")?)
}

/// The name of the snapshot that a transfer makes.
fn made_name(alloc: Global, relation: u32, transfer: u64) -> Result<SnapName, PlainFault>
    ensures { IfOk result (λ name. name ≡ made_name relation transfer) }
{
    let text = made_text(alloc, relation, transfer)?;
    match SnapName::read(alloc, text.as_bytes()) {
        Ok(name) => Ok(name),
        Err(NameFault::NoMemory) => Err(PlainFault::NoMemory),
        Err(NameFault::BadName) => Err(PlainFault::TooGreat {
            number: PlainNumber::Name,
        }),
    }
}

fn prepared_snapshot(
    alloc: Global,
    world: &PlainWorld,
    x: &PlainRunning,
    ident: Ident,
) -> Result<PlainSnapshot, PlainFault>
    ensures { IfOk result (λ snapshot. snapshot ≡ prepared_snapshot world.now (running_of x.now) ident) }
{
    let relation = x.relation;
    let transfer = x.transfer;
    let source = x.source;
    let number = relation.number.0;
    Ok(PlainSnapshot {
        ident,
        name: made_name(alloc, number, transfer.number)?,
        label: None,
        time: world.clock,
        maker: number,
        image: copy_image(alloc, &source.active)?,
    })
}

/// A consistency point of the volume, and a snapshot behind the others.
fn with_snapshot(
    alloc: Global,
    volume: &PlainVolume,
    snapshot: PlainSnapshot,
) -> Result<PlainVolume, NoMemory>
    ensures { IfOk result (λ next. next ≡ with_snapshot volume.now snapshot) }
{
    let active = copy_image(alloc, &volume.active)?;
    let stable = copy_image(alloc, &volume.active)?;
    let mut snapshots = copy_snapshots(alloc, &volume.snapshots)?;
    snapshots.push(snapshot)?;
    volume.with_images(alloc, active, stable, snapshots)
}

/// The source with the transfer's own snapshot.
fn prepared(
    alloc: Global,
    world: &PlainWorld,
    x: &PlainRunning,
    ident: Ident,
) -> Result<PlainVolume, PlainFault>
    ensures { IfOk result (λ volume. volume ≡ with_snapshot (running_of x.now).source (prepared_snapshot world.now (running_of x.now) ident)) }
{
    let snapshot = prepared_snapshot(alloc, world, x, ident)?;
    Ok(with_snapshot(alloc, x.source, snapshot)?)
}

fn prepare_reason(x: &PlainRunning) -> Option<Reason>
    ensures { result ≡ prepare_reason (running_of x.now) }
{
    let source = x.source;
    if !is_rw(source.kind) {
        Some(Reason::SourceReadOnly)
    } else if source.snapshots.len() == MOST_SNAPSHOTS {
        Some(Reason::SnapFull)
    } else {
        None
    }
}

/// Prepare: the transfer's own snapshot of its source.
#[tactic(auto, unfolding(sm_model::specs::Due::unless))]
pub(crate) fn prepare(
    alloc: Global,
    world: &PlainWorld,
    x: &PlainRunning,
    ident: Ident,
) -> Result<PlainChange, PlainFault>
    ensures { (k : ℕ) → IfOk result (λ change. IsChange world.now k change (prepare_effect world.now k (running_of x.now) ident)) }
{
    let relation = x.relation;
    match prepare_reason(x) {
        Some(reason) => interrupt(alloc, x, reason),
        None => {
            let volume = prepared(alloc, world, x, ident)?;
            Ok(PlainChange {
                reply: Reply::Prepared {
                    relation: relation.number,
                    ident,
                },
                volume: Some(PlainPlaced {
                    at: relation.source.0,
                    volume,
                }),
                relation: None,
            })
        }
    }
}

fn is_elsewhere(volumes: &[PlainVolume], place: u64, own: u32, family: u64, ident: Ident) -> bool
    requires { place + length volumes.now < 2 ^ 64 }
    ensures { result ≡ is_elsewhere volumes.now place own family ident }
{
    match volumes {
        [] => false,
        [volume, others @ ..] => {
            (place != u64::from(own)
                && volume.family == family
                && has_copy(&volume.snapshots, ident))
                || is_elsewhere(others, place + 1, own, family, ident)
        }
    }
}

fn family_published(world: &PlainWorld, x: &PlainRunning, ident: Ident) -> Result<u64, PlainFault>
    ensures { IfOk result (λ family. family ≡ family_published world.now (running_of x.now) ident) }
{
    let policy = x.policy;
    let relation = x.relation;
    let transfer = x.transfer;
    let source = x.source;
    let destination = x.destination;
    match policy.kind() {
        PolicyKind::AsyncMirror => Ok(source.family),
        PolicyKind::Vault => {
            let own = relation.destination.0;
            if is_elsewhere(&world.volumes, 0, own, destination.family, ident) {
                family_of_transfer(transfer.number)
            } else {
                Ok(destination.family)
            }
        }
    }
}

/// A leg as the destination has it.
fn arrived(alloc: Global, x: &PlainRunning, leg: &PlainSnapshot) -> Result<PlainSnapshot, NoMemory>
    ensures { IfOk result (λ there. there ≡ arrived (running_of x.now) leg.now) }
{
    Ok(PlainSnapshot {
        ident: leg.ident,
        name: leg.name.copy(alloc)?,
        label: copy_label(alloc, &leg.label)?,
        time: leg.time,
        maker: leg.maker,
        image: landing(alloc, x, leg)?,
    })
}

/// Which of some snapshots somebody needs on a volume.
fn needed_marks(
    alloc: Global,
    world: &PlainWorld,
    volume: u32,
    snapshots: &[PlainSnapshot],
) -> Result<Vec<bool>, NoMemory>
    ensures { IfOk result (λ marks. marks.items ≡ needed_marks (needed world.now volume) snapshots.now) }
{
    Ok(
        snapshots
            .iter()
            .map(|s| is_needed(world, volume, s.ident))
            .collect(alloc)?,
    )
}

/// What a vault keeps of a volume's list.
fn kept(
    alloc: Global,
    world: &PlainWorld,
    volume: u32,
    policy: &Policy,
    snapshots: &[PlainSnapshot],
) -> Result<Vec<PlainSnapshot>, NoMemory>
    requires { is_mirror policy.now.kind ≡ false }
    ensures { IfOk result (λ all. all.items ≡ retained policy.now.rules (class_of policy.now) (needed world.now volume) snapshots.now) }
{
    let needed = needed_marks(alloc, world, volume, snapshots)?;
    let kept = retained(alloc, policy, &needed, snapshots)?;
    Ok(kept)
}

fn list_published(
    alloc: Global,
    world: &PlainWorld,
    x: &PlainRunning,
    leg: PlainSnapshot,
) -> Result<Vec<PlainSnapshot>, NoMemory>
    ensures { IfOk result (λ all. all.items ≡ list_published world.now (running_of x.now) leg) }
{
    let policy = x.policy;
    let relation = x.relation;
    let destination = x.destination;
    let mut all = copy_snapshots(alloc, &destination.snapshots)?;
    all.push(leg)?;
    match policy.kind() {
        PolicyKind::AsyncMirror => Ok(all),
        PolicyKind::Vault => {
            let volume = relation.destination.0;
            kept(alloc, world, volume, policy, &all)
        }
    }
}

/// The destination as it shows a leg.
fn published(
    alloc: Global,
    world: &PlainWorld,
    x: &PlainRunning,
    leg: &PlainSnapshot,
) -> Result<PlainVolume, PlainFault>
    ensures { IfOk result (λ volume. volume ≡ published world.now (running_of x.now) leg.now) }
{
    let destination = x.destination;
    let there = arrived(alloc, x, leg)?;
    let active = landing(alloc, x, leg)?;
    let stable = landing(alloc, x, leg)?;
    let snapshots = list_published(alloc, world, x, there)?;
    Ok(PlainVolume {
        family: family_published(world, x, leg.ident)?,
        ..destination.with_images(alloc, active, stable, snapshots)?
    })
}

fn publish_reason(x: &PlainRunning, count: usize) -> Option<Reason>
    ensures { result ≡ reason_of_count (running_of x.now) count }
{
    if count > MOST_SNAPSHOTS {
        Some(Reason::SnapFull)
    } else if has_other_family(x) {
        Some(Reason::OtherLayout)
    } else {
        None
    }
}

/// Publish: the destination shows a leg.
#[tactic(auto, unfolding(sm_model::specs::Due::unless))]
pub(crate) fn publish(
    alloc: Global,
    world: &PlainWorld,
    x: &PlainRunning,
    leg: &PlainSnapshot,
) -> Result<PlainChange, PlainFault>
    ensures { (k : ℕ) → IfOk result (λ change. IsChange world.now k change (publish_effect world.now k (running_of x.now) leg.now)) }
{
    let relation = x.relation;
    let destination = x.destination;
    let volume = published(alloc, world, x, leg)?;
    match publish_reason(x, volume.snapshots.len()) {
        Some(reason) => interrupt(alloc, x, reason),
        None => {
            let before = destination.snapshots.len();
            let gone = dropped(before + 1, volume.snapshots.len())?;
            Ok(PlainChange {
                reply: Reply::Published {
                    relation: relation.number,
                    ident: leg.ident,
                    dropped: gone,
                },
                volume: Some(PlainPlaced {
                    at: relation.destination.0,
                    volume,
                }),
                relation: None,
            })
        }
    }
}

fn is_tidied(world: &PlainWorld, volume: u32, snapshot: &PlainSnapshot) -> bool
    ensures { result ≡ is_tidied world.now volume snapshot.now }
{
    snapshot.maker != 0
        && snapshot.ident.origin == volume
        && !is_needed(world, volume, snapshot.ident)
}

fn any_tidied(world: &PlainWorld, volume: u32, snapshots: &[PlainSnapshot]) -> bool
    ensures { result ≡ list_any (is_tidied world.now volume) snapshots.now }
{
    snapshots.iter().any(|s| is_tidied(world, volume, s))
}

/// Whether a volume is due to be tidied.
pub fn tidy_due(world: &PlainWorld, volume: u32) -> bool
    ensures { result ≡ tidy_due world.now volume }
{
    let at = volume as usize;
    if at >= world.volumes.len() {
        return false;
    }
    let there = &world.volumes[at];
    is_rw(there.kind) && any_tidied(world, volume, &there.snapshots)
}

fn stays(world: &PlainWorld, volume: u32, snapshot: &PlainSnapshot) -> bool
    ensures { result ≡ not (is_tidied world.now volume snapshot.now) }
{
    !is_tidied(world, volume, snapshot)
}

fn untidied_of(
    alloc: Global,
    world: &PlainWorld,
    volume: u32,
    snapshots: &[PlainSnapshot],
) -> Result<Vec<PlainSnapshot>, NoMemory>
    ensures { IfOk result (λ all. all.items ≡ filter (λ s. not (is_tidied world.now volume s)) snapshots.now) }
{
    match snapshots {
        [] => Ok(Vec::new(alloc)),
        [snapshot, newer @ ..] => {
            let all = untidied_of(alloc, world, volume, newer)?;
            if stays(world, volume, snapshot) {
                with_first(snapshot.copy(alloc)?, all)
            } else {
                Ok(all)
            }
        }
    }
}

/// Tidy: a volume lets go what transfers made there and nobody needs.
pub(crate) fn tidy(
    alloc: Global,
    world: &PlainWorld,
    volume: u32,
) -> Result<PlainChange, PlainFault>
    ensures { (k : ℕ) → IfOk result (λ change. IsChange world.now k change (tidy_effect world.now volume)) }
{
    let at = volume as usize;
    if at >= world.volumes.len() {
        return Err(PlainFault::TooGreat {
            number: PlainNumber::Place,
        });
    }
    let there = &world.volumes[at];
    let stay = untidied_of(alloc, world, volume, &there.snapshots)?;
    let gone = dropped(there.snapshots.len(), stay.len())?;
    Ok(PlainChange {
        reply: Reply::Tidied {
            volume: VolNo(volume),
            dropped: gone,
        },
        volume: Some(PlainPlaced {
            at: volume,
            volume: there.with_snapshots(alloc, stay)?,
        }),
        relation: None,
    })
}
