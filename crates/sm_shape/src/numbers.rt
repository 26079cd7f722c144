//! The test that a snapshot's number was given.

ghost use Rattle.std.specs.Prelude.{◌≡◌, ◌↔◌, ◌/◌, IsTrue, IfOk, string_bytes};
ghost use Rattle.std.specs.List.{All};
ghost use Rattle.sm_model.specs.InRange.{is_made_name};
ghost use Rattle.sm_defs.specs.Made.{made_name};
ghost use Rattle.sm_shape.specs.Numbers.{FromClient, MadeBy, FromTransfer, StandsNumbered, AreNumbered};
ghost use Rattle.sm_defs.specs.Words.{Among};
ghost use Rattle.sm_defs.specs.Volume.{Volume, Snapshot};
ghost use Rattle.sm_model.specs.Standing.{Stands};
ghost use Rattle.sm_model.specs.declared.world.WorldVolume.{WorldVolume};
ghost use Rattle.sm_model.specs.NumbersStand.{NumberStands};
ghost use Rattle.sm_shape.specs.Blank.{blank, blank_snapshot};

use sm_base::{NoMemory, SnapName};
use sm_model::{World, WorldRelation, WorldSnapshot, WorldVolume};
use std::alloc::Global;

fn is_made(name: &SnapName) -> bool
    ensures { result ≡ is_made_name name.now }
{
    name.text().starts_with(b"snapmirror.")
}

fn made_text(alloc: Global, relation: u32, transfer: u64) -> Result<String, NoMemory>
    ensures { IfOk result (λ text. string_bytes text ≡ made_name relation transfer) }
{
    Ok(format!(in alloc; "snapmirror.{relation}.{transfer}")?)
}

fn same_bytes(left: &[u8], right: &[u8]) -> bool
    ensures { IsTrue result ↔ (left.now ≡ right.now) }
{
    left == right
}

fn is_named(alloc: Global, name: &SnapName, relation: u32, transfer: u64) -> Result<bool, NoMemory>
    ensures { IfOk result (λ named. IsTrue named ↔ (name.now ≡ made_name relation transfer)) }
{
    let text = made_text(alloc, relation, transfer)?;
    let named = same_bytes(name.text(), text.as_bytes());
    Ok(named)
}

fn from_client(snapshot: &WorldSnapshot, next: u64) -> bool
    ensures { IsTrue result ↔ FromClient snapshot.now next }
{
    if snapshot.ident.seq % 2 != 0 {
        return false;
    }
    if snapshot.ident.seq / 2 < 1 {
        return false;
    }
    if snapshot.ident.seq / 2 >= next {
        return false;
    }
    if snapshot.made != 0 {
        return false;
    }
    !is_made(&snapshot.name)
}

fn made_by(snapshot: &WorldSnapshot, relation: &WorldRelation) -> bool
    ensures { IsTrue result ↔ MadeBy snapshot.now relation.now }
{
    match &relation.transfer {
        Some(transfer) => {
            transfer.number != snapshot.ident.seq / 2
                || (snapshot.ident.origin == relation.source.0
                    && snapshot.made == relation.number.0)
        }
        None => true,
    }
}

fn all_made_by(snapshot: &WorldSnapshot, relations: &[WorldRelation]) -> bool
    ensures { IsTrue result ↔ All (MadeBy snapshot.now) relations.now }
{
    relations.iter().all(|relation| made_by(snapshot, relation))
}

fn from_transfer(
    alloc: Global,
    snapshot: &WorldSnapshot,
    next_transfer: u64,
    next_relation: u32,
    relations: &[WorldRelation],
) -> Result<bool, NoMemory>
    ensures { IfOk result (λ from. IsTrue from ↔ FromTransfer snapshot.now next_transfer next_relation relations.now) }
{
    if snapshot.ident.seq % 2 != 1 {
        return Ok(false);
    }
    if snapshot.ident.seq / 2 >= next_transfer {
        return Ok(false);
    }
    if snapshot.made < 1 {
        return Ok(false);
    }
    if snapshot.made >= next_relation {
        return Ok(false);
    }
    if snapshot.label.is_some() {
        return Ok(false);
    }
    let named = is_named(alloc, &snapshot.name, snapshot.made, snapshot.ident.seq / 2)?;
    if !named {
        return Ok(false);
    }
    Ok(all_made_by(snapshot, relations))
}

/// Whether the snapshot's number was given, where its origin is this volume.
fn is_numbered(
    alloc: Global,
    world: &World,
    snapshot: &WorldSnapshot,
    origin: &WorldVolume,
) -> Result<bool, NoMemory>
    ensures { IfOk result (λ numbered. IsTrue numbered ↔ StandsNumbered world.now snapshot.now origin.now) }
{
    if snapshot.ident.seq % 2 == 0 {
        Ok(from_client(snapshot, origin.next))
    } else {
        from_transfer(
            alloc,
            snapshot,
            world.next_transfer,
            world.next_relation,
            &world.relations,
        )
    }
}

/// Whether the snapshot's number was given.
pub fn number_stands(
    alloc: Global,
    world: &World,
    volumes: &[WorldVolume],
    snapshot: &WorldSnapshot,
) -> Result<bool, NoMemory>
    requires { volumes.now ≡ world.now.volumes.items }
    ensures { IfOk result (λ numbered. IsTrue numbered ↔ NumberStands (blank world.now) (blank_snapshot snapshot.now)) }
{
    let origin = snapshot.ident.origin as usize;
    if origin >= volumes.len() {
        return Ok(false);
    }
    let numbered = is_numbered(alloc, world, snapshot, &volumes[origin])?;
    Ok(numbered)
}

/// Whether the number of each of the snapshots was given.
fn snapshots_numbered(
    alloc: Global,
    world: &World,
    snapshots: &[WorldSnapshot],
) -> Result<bool, NoMemory>
    ensures { IfOk result (λ numbered. IsTrue numbered ↔ AreNumbered world.now snapshots.now) }
{
    for snapshot in snapshots {
        let stands = number_stands(alloc, world, &world.volumes, snapshot)?;
        if !stands {
            return Ok(false);
        }
    }
    Ok(true)
}

/// The same of all volumes.
fn volumes_numbered(alloc: Global, world: &World, volumes: &[WorldVolume]) -> Result<bool, NoMemory>
    ensures { IfOk result (λ numbered. IsTrue numbered ↔ ((v : WorldVolume) → Among volumes.now v → AreNumbered world.now v.snapshots.items)) }
{
    for volume in volumes {
        let stand = snapshots_numbered(alloc, world, &volume.snapshots)?;
        if !stand {
            return Ok(false);
        }
    }
    Ok(true)
}

/// Whether each snapshot's number was given.
pub fn all_numbered(alloc: Global, world: &World) -> Result<bool, NoMemory>
    ensures { IfOk result (λ numbered. IsTrue numbered ↔ ((v : Volume) (s : Snapshot) → Stands (blank world.now) v s → NumberStands (blank world.now) s)) }
{
    let stand = volumes_numbered(alloc, world, &world.volumes)?;
    Ok(stand)
}
