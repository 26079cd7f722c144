// The root's record, without a volume.
use crate::volume::Size;
use sm_base::{Failed, NoMemory};
use sm_disk::Disk;
use sm_root::{RECORD_SNAPSHOTS, RootFault, decode, encode};
use sm_slots::{SLOT_LEN, SLOTS_END, slot_start_of};
use std::alloc::Global;
use volume_store::{Store, VolumeFault};

// The record of the volume's root.
fn encoded<D: Disk>(alloc: Global, volume: &Store<D>) -> Result<Vec<u8>, NoMemory> {
    volume.told();
    encode(alloc, volume.root())
}

/// Encodes the volume's root so often. The answer is the length of its record.
pub fn encode_often<D: Disk>(
    alloc: Global,
    volume: &Store<D>,
    count: u32,
) -> Result<usize, VolumeFault> {
    let mut len = 0;
    for _ in 0..count {
        len = encoded(alloc, volume)?.len();
    }
    Ok(len)
}

// The blocks of the root that the bytes spell.
fn decoded(alloc: Global, bytes: &[u8]) -> Result<usize, VolumeFault> {
    if bytes.len() > SLOT_LEN {
        return Err(VolumeFault::DiskFault);
    }
    match decode(alloc, bytes) {
        Ok(root) => Ok(root.logical as usize),
        Err(RootFault::Bad { at }) => Err(VolumeFault::BadRoot { slot: 0, at }),
        Err(RootFault::NoMemory) => Err(VolumeFault::NoMemory),
    }
}

/// Decodes the record of the volume's root so often. The answer is how many blocks it has.
pub fn decode_often<D: Disk>(
    alloc: Global,
    volume: &Store<D>,
    count: u32,
) -> Result<usize, VolumeFault> {
    let bytes = encoded(alloc, volume)?;
    let mut blocks = 0;
    for _ in 0..count {
        blocks = decoded(alloc, &bytes)?;
    }
    Ok(blocks)
}

// Writes a record and its selector, as a commit does.
fn write_record<D: Disk>(disk: &mut D, slot: u8, bytes: &[u8]) -> Result<(), Failed> {
    let start = slot_start_of(slot % 2);
    if disk.len() < SLOTS_END || bytes.len() > SLOT_LEN {
        return Err(Failed);
    }
    disk.write(start, bytes)?;
    disk.sync()?;
    disk.write(0, &[slot % 2])?;
    disk.sync()
}

// The length of a root's record, to a few bytes.
fn record_len(size: Size, snapshots: u32) -> usize {
    4 * size.logical() as usize * (snapshots.min(RECORD_SNAPSHOTS) as usize + 1)
}

fn sevens(alloc: Global, len: usize) -> Result<Vec<u8>, NoMemory> {
    Ok(vec![in alloc; 7; len]?)
}

/// Does with a bare disk what making the volume does to it, but for blocks, and then what so many
/// commits do. The answer is the length of the record.
pub fn write_often<D: Disk>(
    alloc: Global,
    disk: &mut D,
    size: Size,
    snapshots: u32,
    count: u32,
) -> Result<usize, VolumeFault> {
    let bytes = sevens(alloc, record_len(size, snapshots))?;
    for number in 0..snapshots {
        let part = record_len(size, number).min(bytes.len());
        write_record(disk, (number % 2) as u8, &bytes[..part])?;
    }
    for k in 0..count {
        write_record(disk, (k % 2) as u8, &bytes)?;
    }
    Ok(bytes.len())
}
