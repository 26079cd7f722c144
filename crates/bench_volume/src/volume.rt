// The calls of a volume.
ghost use Rattle.std.specs.Prelude.{◌≡◌, true, OnOk};

use sm_base::limits::{BLOCKS_START, DISK_LENGTH, MOST_LOGICAL, MOST_PHYSICAL};
use sm_base::{Block, Ident, Kind, NameFault, NoMemory, SnapName, VolNo};
use sm_disk::Disk;
use std::alloc::Global;
use volume_store::{Store, VolumeFault};

/// How large a volume is made.
#[derive(Clone, Copy)]
pub enum Size {
    /// 4 logical and 16 physical blocks.
    Small,
    /// 4,096 logical and 16,384 physical blocks.
    Large,
}

impl Size {
    /// How many blocks an image has.
    pub fn logical(self) -> u32 {
        match self {
            Size::Small => 4,
            Size::Large => MOST_LOGICAL,
        }
    }

    /// The length of the disk.
    pub fn disk_len(self) -> u64 {
        match self {
            Size::Small => BLOCKS_START + 16 * 4096,
            Size::Large => DISK_LENGTH,
        }
    }
}

/// A volume of holes.
pub fn empty<D: Disk + Drop>(alloc: Global, disk: D, size: Size) -> Result<Store<D>, VolumeFault> {
    let made = match size {
        Size::Small => Store::create(alloc, disk, VolNo(1), Kind::Rw, 4, 16),
        Size::Large => Store::create(alloc, disk, VolNo(1), Kind::Rw, MOST_LOGICAL, MOST_PHYSICAL),
    };
    match made {
        Ok(volume) => Ok(volume),
        Err((_, fault)) => Err(fault),
    }
}

// A fault where the volume is down.
fn check_up<D: Disk>(volume: &Store<D>) -> Result<(), VolumeFault>
    ensures { OnOk result (volume.now.up ≡ true) }
{
    if volume.is_up() {
        Ok(())
    } else {
        Err(VolumeFault::DiskFault)
    }
}

fn write<D: Disk>(volume: &mut Store<D>, at: u32, block: &Block) -> Result<(), VolumeFault> {
    check_up(volume)?;
    volume.write(at, block)
}

fn settle<D: Disk>(alloc: Global, volume: &mut Store<D>) -> Result<(), VolumeFault> {
    check_up(volume)?;
    volume.cp(alloc)
}

fn remove<D: Disk>(
    alloc: Global,
    volume: &mut Store<D>,
    drops: &[Ident],
) -> Result<(), VolumeFault> {
    check_up(volume)?;
    volume.remove(alloc, drops)
}

/// Writes so many blocks, the first at the place `from`.
pub fn write_blocks<D: Disk>(
    volume: &mut Store<D>,
    from: u32,
    count: u32,
) -> Result<(), VolumeFault> {
    let logical = volume.root().logical.max(1);
    let block = Block([7; 4096]);
    for k in 0..count {
        write(volume, from.wrapping_add(k) % logical, &block)?;
    }
    Ok(())
}

// Takes the snapshot of that number.
fn take_snapshot<D: Disk>(
    alloc: Global,
    volume: &mut Store<D>,
    number: u32,
) -> Result<(), VolumeFault> {
    check_up(volume)?;
    let ident = ident_of(number);
    if volume.has_snapshot(ident) {
        return Err(VolumeFault::SnapFull);
    }
    let text = name_of(alloc, number)?;
    match SnapName::read(alloc, text.as_bytes()) {
        Ok(name) => volume.snapshot(alloc, ident, name, None, 0, 0),
        Err(NameFault::BadName) => Err(VolumeFault::NameTaken),
        Err(NameFault::NoMemory) => Err(VolumeFault::NoMemory),
    }
}

fn name_of(alloc: Global, number: u32) -> Result<String, NoMemory> {
    Ok(format!(in alloc; "s{number}")?)
}

// The identity of a client's snapshot.
fn ident_of(number: u32) -> Ident {
    Ident {
        origin: 1,
        seq: 2 * number as u64,
    }
}

/// Writes all blocks, and takes so many snapshots, between which a block is written.
pub fn prepare<D: Disk>(
    alloc: Global,
    volume: &mut Store<D>,
    size: Size,
    snapshots: u32,
) -> Result<(), VolumeFault> {
    write_blocks(volume, 0, size.logical())?;
    for number in 0..snapshots {
        write_blocks(volume, number, 1)?;
        take_snapshot(alloc, volume, number)?;
    }
    settle(alloc, volume)
}

/// Writes all blocks again, so that the stable map differs from each snapshot's everywhere.
pub fn rewrite<D: Disk>(
    alloc: Global,
    volume: &mut Store<D>,
    size: Size,
) -> Result<(), VolumeFault> {
    write_blocks(volume, 0, size.logical())?;
    settle(alloc, volume)
}

/// Makes consistency points, before each of which four blocks are written.
pub fn commit_often<D: Disk>(
    alloc: Global,
    volume: &mut Store<D>,
    count: u32,
) -> Result<(), VolumeFault> {
    for k in 0..count {
        write_blocks(volume, k.wrapping_mul(4), 4)?;
        settle(alloc, volume)?;
    }
    Ok(())
}

/// Takes a snapshot and removes it, time after time.
pub fn snapshot_often<D: Disk>(
    alloc: Global,
    volume: &mut Store<D>,
    count: u32,
) -> Result<(), VolumeFault> {
    for k in 0..count {
        let number = k.saturating_add(1000);
        take_snapshot(alloc, volume, number)?;
        remove(alloc, volume, &[ident_of(number)])?;
    }
    Ok(())
}

/// Removes no snapshot, time after time.
pub fn remove_often<D: Disk>(
    alloc: Global,
    volume: &mut Store<D>,
    count: u32,
) -> Result<(), VolumeFault> {
    for _ in 0..count {
        remove(alloc, volume, &[])?;
    }
    Ok(())
}

/// Opens the volume on its disk, time after time. The answer is how many blocks are used.
pub fn open_often<D: Disk + Drop>(
    alloc: Global,
    volume: Store<D>,
    count: u32,
) -> Result<usize, VolumeFault> {
    let mut volume = volume;
    for _ in 0..count {
        volume = open_again(alloc, volume)?;
    }
    Ok(volume.used() as usize)
}

fn open_again<D: Disk + Drop>(alloc: Global, volume: Store<D>) -> Result<Store<D>, VolumeFault> {
    match Store::open(alloc, volume.into_disk(), VolNo(1)) {
        Ok(volume) => Ok(volume),
        Err((_, fault)) => Err(fault),
    }
}
