// What events on volumes and snapshots are answered.
ghost use Rattle.std.specs.Prelude.{◌≡◌, ◌==◌, ◌||◌, ◌<◌, not, nat_le, length, IfOk, OnErr, OnOk, MatchOption, slice_get, slice_set, suc, None, Some};
ghost use Rattle.std.specs.List.{list_any, filter};
ghost use Rattle.std.specs.Str.{bytes_eq};
ghost use Rattle.sm_defs.specs.Words.{last_that, same_ident};
ghost use Rattle.sm_defs.specs.Volume.{Snapshot, new_volume, used};
ghost use Rattle.sm_defs.specs.World.{volume_at, with_volume};
ghost use Rattle.sm_defs.specs.Needed.{holder};
ghost use Rattle.sm_model.specs.OfVolumes as model;
ghost use Rattle.sm_defs.specs.Operations as operations;
ghost use Rattle.oracle_volumes.specs.Answering.{Answers};
ghost use Rattle.sm_defs.specs.Volume.{length_needed};

use crate::pieces::{
    full_block, is_writable, new_image, place_of, refuse_name, refuse_path, volume,
};
use oracle_lists::{PlainBlock, PlainSnapshot, copy_image, first_number, hole, is_same, same_text};
use oracle_world::{
    PlainFault, PlainNumber, PlainVolume, PlainWorld, free_tags, holder, small, snapshots_at, used,
};
use sm_base::limits::{BLOCKS_START, LAST_NUMBER, MOST_SNAPSHOTS, MOST_VOLUMES};
use sm_base::{Block, DiskNo, Ident, Kind, Label, NoMemory, Path, Refusal, SnapName, VolNo, What};
use sm_model::{Reply, copy_label};
use std::alloc::Global;

fn any_of_path(volumes: &[PlainVolume], path: &[u8]) -> bool
    ensures { result ≡ list_any (λ v. bytes_eq v.path path.now) volumes.now }
{
    volumes.iter().any(|v| v.path.text() == path)
}

fn is_path_taken(world: &PlainWorld, path: &Path) -> bool
    ensures { result ≡ list_any (λ v. bytes_eq v.path path.now) world.now.volumes }
{
    any_of_path(&world.volumes, path.text())
}

fn any_on(volumes: &[PlainVolume], disk: DiskNo) -> bool
    ensures { result ≡ list_any (λ v. v.disk == disk.0) volumes.now }
{
    volumes.iter().any(|v| v.disk.0 == disk.0)
}

fn is_disk_taken(world: &PlainWorld, disk: DiskNo) -> bool
    ensures { result ≡ list_any (λ v. v.disk == disk.0) world.now.volumes }
{
    any_on(&world.volumes, disk)
}

fn disk_length(world: &PlainWorld, disk: DiskNo) -> Option<u64>
    ensures { result ≡ slice_get world.now.disks disk.0 }
{
    world.disks.get(disk.0 as usize).copied()
}

fn count_volumes(world: &PlainWorld) -> usize
    ensures { result ≡ length world.now.volumes }
{
    world.volumes.len()
}

fn length_needed(physical: u32) -> u64
    ensures { result ≡ length_needed physical }
{
    BLOCKS_START + 4_096 * u64::from(physical)
}

fn add_volume(world: &mut PlainWorld, volume: PlainVolume) -> Result<(), NoMemory>
    ensures ok { OnOk result (world.new ≡ model.with_new_volume world.old volume) }
    ensures err { OnErr result (world.new ≡ world.old) }
{
    world.volumes.push(volume)?;
    Ok(())
}

fn new_volume(
    alloc: Global,
    path: &Path,
    disk: DiskNo,
    kind: Kind,
    number: u32,
    logical: u32,
    physical: u32,
) -> Result<PlainVolume, NoMemory>
    ensures { IfOk result (λ v. v ≡ new_volume path.now disk.0 kind number logical physical) }
{
    Ok(PlainVolume {
        path: path.copy(alloc)?,
        disk,
        kind,
        family: u64::from(number),
        logical,
        physical,
        next: 1,
        active: new_image(alloc, logical)?,
        stable: new_image(alloc, logical)?,
        snapshots: Vec::new(alloc),
    })
}

/// Makes a volume on a disk.
pub fn create_volume(
    world: &mut PlainWorld,
    alloc: Global,
    path: &Path,
    disk: DiskNo,
    kind: Kind,
    logical: u32,
    physical: u32,
) -> Result<Reply, PlainFault>
    ensures ok { IfOk result (λ reply. Answers world.old (model.create_volume world.old path.now disk kind logical physical) reply world.new) }
    ensures err { OnErr result (world.new ≡ world.old) }
{
    if is_path_taken(world, path) {
        return Ok(Reply::Refused(Refusal::NameTaken));
    }
    if disk.0 == 0 {
        return Ok(Reply::Refused(Refusal::NoDisk { disk }));
    }
    let Some(len) = disk_length(world, disk) else {
        return Ok(Reply::Refused(Refusal::NoDisk { disk }));
    };
    if is_disk_taken(world, disk) {
        return Ok(Reply::Refused(Refusal::DiskTaken));
    }
    let count = count_volumes(world);
    if count == MOST_VOLUMES {
        return Ok(Reply::Refused(Refusal::Full {
            what: What::Volumes,
        }));
    }
    let need = length_needed(physical);
    if len < need {
        return Ok(Reply::Refused(Refusal::DiskSmall { need, len }));
    }
    let number = small(count)?;
    let volume = new_volume(alloc, path, disk, kind, number, logical, physical)?;
    add_volume(world, volume)?;
    Ok(Reply::Created {
        volume: VolNo(number),
    })
}

fn is_full(alloc: Global, world: &PlainWorld, at: usize) -> Result<bool, NoMemory>
    requires { at < length world.now.volumes }
    ensures { IfOk result (λ full. full ≡ (used (volume_at world.now at) == (volume_at world.now at).physical)) }
{
    let volume = volume(world, at);
    Ok(used(alloc, volume)? == volume.physical as usize)
}

fn is_past_end(world: &PlainWorld, at: usize, place: u64) -> bool
    requires { at < length world.now.volumes }
    ensures { result ≡ nat_le (volume_at world.now at).logical place }
{
    u64::from(volume(world, at).logical) <= place
}

fn put_at(image: &mut [PlainBlock], place: u64, block: PlainBlock)
    ensures { image.new ≡ slice_set image.old place block }
{
    if (place as usize) < image.len() {
        image[place as usize] = block;
    }
}

fn put_block(alloc: Global, volume: &mut PlainVolume, place: u64, fill: u8) -> Result<(), NoMemory>
    ensures ok { OnOk result (volume.new ≡ model.written volume.old place fill) }
    ensures err { OnErr result (volume.new ≡ volume.old) }
{
    let tag = first_number(&free_tags(alloc, volume)?);
    let block = full_block(alloc, tag, fill)?;
    put_at(&mut volume.active, place, block);
    Ok(())
}

fn put_block_at(
    alloc: Global,
    world: &mut PlainWorld,
    at: usize,
    place: u64,
    fill: u8,
) -> Result<(), NoMemory>
    requires { at < length world.old.volumes }
    ensures ok { OnOk result (world.new ≡ with_volume world.old at (model.written (volume_at world.old at) place fill)) }
    ensures err { OnErr result (world.new ≡ world.old) }
{
    put_block(alloc, &mut world.volumes[at], place, fill)
}

/// Writes a block of one byte.
pub fn write(
    world: &mut PlainWorld,
    alloc: Global,
    path: &Path,
    block: u64,
    fill: u8,
) -> Result<Reply, PlainFault>
    ensures ok { IfOk result (λ reply. Answers world.old (model.write world.old path.now block fill) reply world.new) }
    ensures err { OnErr result (world.new ≡ world.old) }
{
    let Some(at) = place_of(world, path) else {
        return refuse_path(alloc, path);
    };
    if !is_writable(world, at) {
        return Ok(Reply::Refused(Refusal::ReadOnly));
    }
    if is_past_end(world, at, block) {
        return Ok(Reply::Refused(Refusal::BadBlock));
    }
    if is_full(alloc, world, at)? {
        return Ok(Reply::Refused(Refusal::NoSpace));
    }
    put_block_at(alloc, world, at, block, fill)?;
    Ok(Reply::Done)
}

fn any_named(snapshots: &[PlainSnapshot], name: &[u8]) -> bool
    ensures { result ≡ list_any (λ s. bytes_eq s.name name.now) snapshots.now }
{
    snapshots.iter().any(|s| s.name.text() == name)
}

fn is_name_taken(world: &PlainWorld, at: usize, name: &SnapName) -> bool
    ensures { result ≡ list_any (λ s. bytes_eq s.name name.now) (volume_at world.now at).snapshots }
{
    any_named(snapshots_at(world, at), name.text())
}

fn has_all_snapshots(world: &PlainWorld, at: usize) -> bool
    requires { at < length world.now.volumes }
    ensures { result ≡ ((length (volume_at world.now at).snapshots == MOST_SNAPSHOTS) || ((volume_at world.now at).next == LAST_NUMBER)) }
{
    let volume = volume(world, at);
    volume.snapshots.len() == MOST_SNAPSHOTS || volume.next == LAST_NUMBER
}

fn following(next: u64) -> Result<u64, PlainFault>
    ensures { IfOk result (λ after. after ≡ suc next) }
{
    if next == u64::MAX {
        return Err(PlainFault::TooGreat {
            number: PlainNumber::Snapshot,
        });
    }
    Ok(next + 1)
}

fn client_ident(number: u32, volume: &PlainVolume) -> Result<Ident, PlainFault>
    ensures { IfOk result (λ ident. ident ≡ model.client_ident number volume.now) }
{
    let next = volume.next;
    if next >= 1 << 63 {
        return Err(PlainFault::TooGreat {
            number: PlainNumber::Snapshot,
        });
    }
    Ok(Ident {
        origin: number,
        seq: 2 * next,
    })
}

fn take_snapshot(
    alloc: Global,
    volume: &mut PlainVolume,
    number: u32,
    time: u64,
    name: &SnapName,
    label: &Option<Label>,
) -> Result<Ident, PlainFault>
    ensures ok { IfOk result (λ ident. (ident ≡ model.client_ident number volume.old) × (volume.new ≡ model.snapped number time volume.old name.now label.now)) }
    ensures err { OnErr result (volume.new ≡ volume.old) }
{
    let ident = client_ident(number, volume)?;
    let stable = copy_image(alloc, &volume.active)?;
    let snapshot = PlainSnapshot {
        ident,
        name: name.copy(alloc)?,
        label: copy_label(alloc, label)?,
        time,
        maker: 0,
        image: copy_image(alloc, &volume.active)?,
    };
    let next = following(volume.next)?;
    volume.snapshots.push(snapshot)?;
    volume.stable = stable;
    volume.next = next;
    Ok(ident)
}

fn take_snapshot_at(
    alloc: Global,
    world: &mut PlainWorld,
    at: usize,
    name: &SnapName,
    label: &Option<Label>,
) -> Result<Ident, PlainFault>
    requires { at < length world.old.volumes }
    ensures ok { IfOk result (λ ident. let v = volume_at world.old at in (ident ≡ model.client_ident at v) × (world.new ≡ with_volume world.old at (model.snapped at world.old.clock v name.now label.now))) }
    ensures err { OnErr result (world.new ≡ world.old) }
{
    let number = small(at)?;
    let time = world.clock;
    take_snapshot(alloc, &mut world.volumes[at], number, time, name, label)
}

/// Takes a snapshot at a consistency point.
pub fn snap(
    world: &mut PlainWorld,
    alloc: Global,
    path: &Path,
    name: &SnapName,
    label: &Option<Label>,
) -> Result<Reply, PlainFault>
    ensures ok { IfOk result (λ reply. Answers world.old (model.snap world.old path.now name.now label.now) reply world.new) }
    ensures err { OnErr result (world.new ≡ world.old) }
{
    let Some(at) = place_of(world, path) else {
        return refuse_path(alloc, path);
    };
    if !is_writable(world, at) {
        return Ok(Reply::Refused(Refusal::ReadOnly));
    }
    if is_name_taken(world, at, name) {
        return Ok(Reply::Refused(Refusal::NameTaken));
    }
    if has_all_snapshots(world, at) {
        return Ok(Reply::Refused(Refusal::SnapFull));
    }
    let ident = take_snapshot_at(alloc, world, at, name, label)?;
    Ok(Reply::Snapped { ident })
}

fn newest_named<'a>(snapshots: &'a [PlainSnapshot], name: &[u8]) -> Option<&'a PlainSnapshot>
    ensures { MatchOption result (last_that (λ s. bytes_eq s.name name.now) snapshots.now ≡ None) (λ s. last_that (λ s. bytes_eq s.name name.now) snapshots.now ≡ Some s.now) }
{
    match snapshots {
        [] => None,
        [snapshot, newer @ ..] => match newest_named(newer, name) {
            Some(found) => Some(found),
            None => {
                if same_text(snapshot.name.text(), name) {
                    Some(snapshot)
                } else {
                    None
                }
            }
        },
    }
}

fn newest(world: &PlainWorld, at: usize, name: &SnapName) -> Option<Ident>
    ensures { MatchOption result (last_that (λ s. bytes_eq s.name name.now) (volume_at world.now at).snapshots ≡ None) (λ i. (s : Snapshot) × (last_that (λ s. bytes_eq s.name name.now) (volume_at world.now at).snapshots ≡ Some s) × (s.ident ≡ i)) }
{
    match newest_named(snapshots_at(world, at), name.text()) {
        None => None,
        Some(snapshot) => Some(snapshot.ident),
    }
}

fn test_held(world: &PlainWorld, at: usize, ident: Ident) -> Result<Result<(), Refusal>, PlainFault>
    ensures { IfOk result (λ answer. answer ≡ model.held (holder world.now at ident)) }
{
    let number = small(at)?;
    Ok(match holder(world, number, ident) {
        None => Ok(()),
        Some(relation) => Err(Refusal::Held { relation }),
    })
}

fn retain_others(snapshots: &mut Vec<PlainSnapshot>, ident: Ident)
    ensures { snapshots.new.items ≡ filter (λ s. not (same_ident s.ident ident)) snapshots.old.items }
{
    snapshots.retain(|s| !is_same(s.ident, ident));
}

fn drop_snapshot(volume: &mut PlainVolume, ident: Ident)
    ensures { volume.new ≡ model.without_snapshot volume.old ident }
{
    retain_others(&mut volume.snapshots, ident);
}

fn drop_snapshot_at(world: &mut PlainWorld, at: usize, ident: Ident)
    requires { at < length world.old.volumes }
    ensures { world.new ≡ with_volume world.old at (model.without_snapshot (volume_at world.old at) ident) }
{
    drop_snapshot(&mut world.volumes[at], ident);
}

/// Deletes the newest snapshot of the name.
pub fn unsnap(
    world: &mut PlainWorld,
    alloc: Global,
    path: &Path,
    name: &SnapName,
) -> Result<Reply, PlainFault>
    ensures ok { IfOk result (λ reply. Answers world.old (model.unsnap world.old path.now name.now) reply world.new) }
    ensures err { OnErr result (world.new ≡ world.old) }
{
    let Some(at) = place_of(world, path) else {
        return refuse_path(alloc, path);
    };
    let Some(ident) = newest(world, at, name) else {
        return refuse_name(alloc, name);
    };
    if !is_writable(world, at) {
        return Ok(Reply::Refused(Refusal::ReadOnly));
    }
    if let Err(refusal) = test_held(world, at, ident)? {
        return Ok(Reply::Refused(refusal));
    }
    drop_snapshot_at(world, at, ident);
    Ok(Reply::Done)
}

fn make_point(alloc: Global, volume: &mut PlainVolume) -> Result<(), NoMemory>
    ensures ok { OnOk result (volume.new ≡ operations.settled volume.old) }
    ensures err { OnErr result (volume.new ≡ volume.old) }
{
    volume.stable = copy_image(alloc, &volume.active)?;
    Ok(())
}

fn make_point_at(alloc: Global, world: &mut PlainWorld, at: usize) -> Result<(), NoMemory>
    requires { at < length world.old.volumes }
    ensures ok { OnOk result (world.new ≡ with_volume world.old at (operations.settled (volume_at world.old at))) }
    ensures err { OnErr result (world.new ≡ world.old) }
{
    make_point(alloc, &mut world.volumes[at])
}

/// A consistency point.
pub fn cp(world: &mut PlainWorld, alloc: Global, path: &Path) -> Result<Reply, PlainFault>
    ensures ok { IfOk result (λ reply. Answers world.old (model.cp world.old path.now) reply world.new) }
    ensures err { OnErr result (world.new ≡ world.old) }
{
    let Some(at) = place_of(world, path) else {
        return refuse_path(alloc, path);
    };
    if !is_writable(world, at) {
        return Ok(Reply::Refused(Refusal::ReadOnly));
    }
    make_point_at(alloc, world, at)?;
    Ok(Reply::Done)
}

fn bytes_of(alloc: Global, block: &PlainBlock) -> Result<Box<Block>, PlainFault>
    ensures { IfOk result (λ copy. copy.value.0 ≡ block.now.bytes) }
{
    if block.bytes.len() != 4_096 {
        return Err(PlainFault::TooGreat {
            number: PlainNumber::Block,
        });
    }
    let mut bytes = [0; 4_096];
    bytes.copy_from_slice(&block.bytes);
    Ok(Box::new(alloc, Block(bytes))?)
}

fn block_at(alloc: Global, image: &[PlainBlock], place: u32) -> Result<Box<Block>, PlainFault>
    ensures { IfOk result (λ copy. copy.value.0 ≡ (model.block_at image.now place).bytes) }
{
    if (place as usize) < image.len() {
        bytes_of(alloc, &image[place as usize])
    } else {
        bytes_of(alloc, &hole(alloc)?)
    }
}

fn read_active(
    alloc: Global,
    world: &PlainWorld,
    at: usize,
    place: u32,
) -> Result<Box<Block>, PlainFault>
    requires { at < length world.now.volumes }
    ensures { IfOk result (λ copy. copy.value.0 ≡ (model.block_at (volume_at world.now at).active place).bytes) }
{
    block_at(alloc, &volume(world, at).active, place)
}

fn read_newest(
    alloc: Global,
    world: &PlainWorld,
    at: usize,
    name: &SnapName,
    place: u32,
) -> Result<Option<Box<Block>>, PlainFault>
    ensures { IfOk result (λ copy. MatchOption copy (last_that (λ s. bytes_eq s.name name.now) (volume_at world.now at).snapshots ≡ None) (λ b. (s : Snapshot) × (last_that (λ s. bytes_eq s.name name.now) (volume_at world.now at).snapshots ≡ Some s) × (b.value.0 ≡ (model.block_at s.image place).bytes))) }
{
    match newest_named(snapshots_at(world, at), name.text()) {
        None => Ok(None),
        Some(snapshot) => Ok(Some(block_at(alloc, &snapshot.image, place)?)),
    }
}

/// Reads a block of the active image, or of the newest snapshot of the name.
#[tactic(auto, unfolding(sm_model::specs::Answers::and_then, sm_model::specs::Answers::refused_if, sm_model::specs::Answers::some_or, sm_model::specs::OfVolumes::image_named))]
pub fn read(
    world: &PlainWorld,
    alloc: Global,
    path: &Path,
    name: &Option<SnapName>,
    block: u32,
) -> Result<Reply, PlainFault>
    ensures { IfOk result (λ reply. Answers world.now (model.read world.now path.now name.now block) reply world.now) }
{
    let Some(at) = place_of(world, path) else {
        return refuse_path(alloc, path);
    };
    match name {
        None => {
            if is_past_end(world, at, u64::from(block)) {
                return Ok(Reply::Refused(Refusal::BadBlock));
            }
            Ok(Reply::Bytes {
                block: read_active(alloc, world, at, block)?,
            })
        }
        Some(name) => {
            let Some(bytes) = read_newest(alloc, world, at, name, block)? else {
                return refuse_name(alloc, name);
            };
            if is_past_end(world, at, u64::from(block)) {
                return Ok(Reply::Refused(Refusal::BadBlock));
            }
            Ok(Reply::Bytes { block: bytes })
        }
    }
}
