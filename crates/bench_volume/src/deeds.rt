// What is done so and so often.
use crate::record::{decode_often, encode_often, write_often};
use crate::volume::{
    Size, commit_often, empty, open_often, prepare, remove_often, rewrite, snapshot_often,
    write_blocks,
};
use sm_disk::Disk;
use sm_memdisk::MemDisk;
use std::alloc::Global;
use volume_store::{Store, VolumeFault};

/// What is timed.
#[derive(Clone, Copy, Debug)]
pub enum Deed {
    /// A client's write.
    Write,
    /// Four writes and a consistency point.
    Commit,
    /// A snapshot, and its removal.
    Snapshot,
    /// A removal of no snapshot, which commits as each removal does.
    Remove,
    /// The same where all blocks have been written again since the snapshots.
    Rewritten,
    /// The encoding of the root.
    Encode,
    /// The decoding of the root.
    Decode,
    /// An opening of the volume on its disk.
    Open,
    /// What a commit has the disk do.
    Disk,
}

/// A run of the program.
#[derive(Clone, Copy)]
pub struct Plan {
    pub deed: Deed,
    pub size: Size,
    pub snapshots: u32,
    pub count: u32,
}

/// The deed of a word.
pub fn deed_of(word: &str) -> Option<Deed> {
    match word {
        "write" => Some(Deed::Write),
        "commit" => Some(Deed::Commit),
        "snapshot" => Some(Deed::Snapshot),
        "remove" => Some(Deed::Remove),
        "rewritten" => Some(Deed::Rewritten),
        "encode" => Some(Deed::Encode),
        "decode" => Some(Deed::Decode),
        "open" => Some(Deed::Open),
        "disk" => Some(Deed::Disk),
        _ => None,
    }
}

/// Makes the volume and does the deed. The answer is how many blocks are used, or how long the record
/// is.
pub fn perform(alloc: Global, plan: &Plan) -> Result<usize, VolumeFault> {
    let mut disk = MemDisk::new(alloc, plan.size.disk_len())?;
    if let Deed::Disk = plan.deed {
        return write_often(alloc, &mut disk, plan.size, plan.snapshots, plan.count);
    }
    perform_on(alloc, disk, plan)
}

fn perform_on<D: Disk + Drop>(alloc: Global, disk: D, plan: &Plan) -> Result<usize, VolumeFault> {
    let mut volume = empty(alloc, disk, plan.size)?;
    prepare(alloc, &mut volume, plan.size, plan.snapshots)?;
    if let Deed::Open = plan.deed {
        return open_often(alloc, volume, plan.count);
    }
    call_often(alloc, &mut volume, plan)
}

fn call_often<D: Disk>(
    alloc: Global,
    volume: &mut Store<D>,
    plan: &Plan,
) -> Result<usize, VolumeFault> {
    match plan.deed {
        Deed::Write => write_blocks(volume, 0, plan.count)?,
        Deed::Commit => commit_often(alloc, volume, plan.count)?,
        Deed::Snapshot => snapshot_often(alloc, volume, plan.count)?,
        Deed::Remove => remove_often(alloc, volume, plan.count)?,
        Deed::Rewritten => {
            rewrite(alloc, volume, plan.size)?;
            remove_often(alloc, volume, plan.count)?;
        }
        Deed::Decode => return decode_often(alloc, volume, plan.count),
        Deed::Encode => return encode_often(alloc, volume, plan.count),
        Deed::Open | Deed::Disk => {}
    }
    Ok(volume.used() as usize)
}
