// Volumes that are made and found again.
ghost use Rattle.std.specs.Prelude.{◌≡◌, ◌≤◌, true, [], IfOk};
ghost use Rattle.sm_defs.specs.Volume.{new_volume};

use sm_base::limits::BLOCKS_START;
use sm_base::{Kind, NoMemory, VolNo};
use sm_disk::Disk;
use sm_memdisk::{Image, MemDisk};
use sm_volume::{Volume, VolumeFault};
use std::alloc::Global;

// A disk of six blocks of which a restart leaves this image. It stops at a call, where that is not 0.
pub fn disk_of(alloc: Global, stops: u64, image: Image) -> Result<MemDisk, NoMemory> {
    let mut disk = MemDisk::new(alloc, BLOCKS_START + 6 * 4096)?;
    if stops > 0 {
        disk.stop_from(stops);
    }
    disk.choose(image);
    Ok(disk)
}

// A new volume of so many blocks on so many.
pub fn created<D: Disk + Drop>(
    alloc: Global,
    disk: D,
    kind: Kind,
    logical: u32,
    physical: u32,
) -> Result<Volume<D>, VolumeFault>
    requires some { 1 ≤ logical }
    requires within { logical ≤ physical }
    requires few { physical ≤ 6 }
    ensures up { IfOk result (λ v. v.up ≡ true) }
    ensures volume { IfOk result (λ v. v.volume ≡ new_volume [] 0 kind 0 logical physical) }
{
    match Volume::create(alloc, disk, VolNo(0), kind, logical, physical) {
        Ok(volume) => Ok(volume),
        Err((_, fault)) => Err(fault),
    }
}

// The volume by a pointer, so that what holds it on stays small.
pub fn boxed<D: Disk + Drop>(
    alloc: Global,
    volume: Volume<D>,
) -> Result<Box<Volume<D>>, VolumeFault> {
    match Box::new(alloc, volume) {
        Ok(volume) => Ok(volume),
        Err(_) => Err(VolumeFault::NoMemory),
    }
}

// A new volume of one block on two.
pub fn small<D: Disk + Drop>(alloc: Global, disk: D) -> Result<Box<Volume<D>>, VolumeFault> {
    boxed(alloc, created(alloc, disk, Kind::Rw, 1, 2)?)
}

// The volume that is found on the disk of another one.
pub fn reopened<D: Disk + Drop>(
    alloc: Global,
    volume: Box<Volume<D>>,
    number: VolNo,
) -> Result<Box<Volume<D>>, VolumeFault> {
    let volume = Box::into_inner(volume);
    match Volume::open(alloc, volume.into_disk(), number) {
        Ok(volume) => boxed(alloc, volume),
        Err((_, fault)) => Err(fault),
    }
}
