// Volumes and relationships that courses begin with.
ghost use Rattle.std.specs.Prelude.{◌≡◌, ◌≤◌, true, IfOk, OnOk};

use sm_base::limits::BLOCKS_START;
use sm_base::{Block, Failed, Ident, Kind, NoMemory, RelNo, SnapName, TransferKind, VolNo};
use sm_disk::Disk;
use sm_memdisk::MemDisk;
use sm_relation::{Legs, Relation, Standing};
use sm_volume::{Volume, VolumeFault};
use std::alloc::Global;

// The snapshot that a leg sends.
pub const LEG: Ident = Ident { origin: 0, seq: 2 };

// A new volume of four blocks on so many.
fn created(
    alloc: Global,
    number: u32,
    kind: Kind,
    physical: u32,
) -> Result<Volume<MemDisk>, VolumeFault>
    requires room { 4 ≤ physical }
    requires few { physical ≤ 8 }
    ensures { IfOk result (λ v. v.up ≡ true) }
{
    let disk = MemDisk::new(alloc, BLOCKS_START + 8 * 4096)?;
    match Volume::create(alloc, disk, VolNo(number), kind, 4, physical) {
        Ok(volume) => Ok(volume),
        Err((_, fault)) => Err(fault),
    }
}

// A fault where the volume is down.
pub fn check_up<D: Disk>(volume: &Volume<D>) -> Result<(), VolumeFault>
    ensures { OnOk result (volume.now.up ≡ true) }
{
    if volume.is_up() {
        Ok(())
    } else {
        Err(VolumeFault::DiskFault)
    }
}

// Writes blocks of one byte, each at its place.
fn write_all<D: Disk>(volume: &mut Volume<D>, writes: &[(u32, u8)]) -> Result<(), VolumeFault> {
    for place in 0..writes.len() {
        check_up(volume)?;
        let one = writes[place];
        volume.write(one.0, &Block([one.1; 4096]))?;
    }
    Ok(())
}

fn snap<D: Disk>(alloc: Global, volume: &mut Volume<D>, ident: Ident) -> Result<(), VolumeFault> {
    check_up(volume)?;
    if volume.has_snapshot(ident) {
        return Err(VolumeFault::SnapFull);
    }
    match SnapName::read(alloc, b"s") {
        Ok(name) => volume.snapshot(alloc, ident, name, None, 0, 0),
        Err(_) => Err(VolumeFault::NoMemory),
    }
}

// A source with these writes and then a snapshot, by a pointer, so that what holds it on stays small.
pub fn source_of(alloc: Global, writes: &[(u32, u8)]) -> Result<Box<Volume<MemDisk>>, VolumeFault> {
    let mut volume = created(alloc, 0, Kind::Rw, 8)?;
    write_all(&mut volume, writes)?;
    snap(alloc, &mut volume, LEG)?;
    boxed(alloc, volume)
}

// A destination that has these writes of its own under a snapshot.
pub fn destination_of(
    alloc: Global,
    physical: u32,
    writes: &[(u32, u8)],
) -> Result<Box<Volume<MemDisk>>, VolumeFault>
    requires room { 4 ≤ physical }
    requires few { physical ≤ 8 }
{
    let mut volume = created(alloc, 1, Kind::Rw, physical)?;
    write_all(&mut volume, writes)?;
    snap(alloc, &mut volume, Ident { origin: 1, seq: 2 })?;
    boxed(alloc, volume)
}

fn boxed(alloc: Global, volume: Volume<MemDisk>) -> Result<Box<Volume<MemDisk>>, VolumeFault> {
    match Box::new(alloc, volume) {
        Ok(volume) => Ok(volume),
        Err(_) => Err(VolumeFault::NoMemory),
    }
}

// A relationship whose transfer sends that snapshot.
pub fn relation_of(alloc: Global) -> Result<Relation, NoMemory> {
    let mut legs = Vec::new(alloc);
    legs.push(LEG)?;
    Ok(Relation {
        number: RelNo(1),
        source: VolNo(0),
        destination: VolNo(1),
        policy: 0,
        source_half: true,
        destination_half: true,
        quiesced: false,
        base: None,
        transfer: Some(Standing {
            number: 1,
            kind: TransferKind::Initialize,
            reserved: false,
            checkpoint: 0,
            legs: Legs::from_vec(legs),
            stopped: None,
        }),
    })
}

// The first byte of a block of the disk.
pub fn byte_at<D: Disk>(disk: &mut D, number: u32) -> Result<u8, Failed> {
    let at = BLOCKS_START + 4096 * (number as u64);
    if disk.len() < at {
        return Err(Failed);
    }
    let mut bytes = [0; 4096];
    disk.read(at - 4096, &mut bytes)?;
    Ok(bytes[0])
}
