// The disks of a node: files of the current folder, or disks in memory.
use sm_base::NoMemory;
use sm_base::limits::{DISK_LENGTH, MOST_DISKS};
use sm_filedisk::FileDisk;
use sm_memdisk::MemDisk;
use std::alloc::Global;
use std::{fs, io};

// The disk of a file. One whose length cannot be told is as one that could not be opened.
fn disk_of(file: fs::File) -> FileDisk {
    match FileDisk::new(file) {
        Ok(disk) => disk,
        Err(_) => FileDisk::missing(),
    }
}

// The disk of this number, where a file stands for it. One that stands there and cannot be opened for reading and
// writing is a disk of length 0.
fn numbered_file(rt: &HostRuntime, number: usize) -> Result<Option<FileDisk>, NoMemory> {
    let name = format!(in rt.alloc(); "disk{number:02}")?;
    match fs::OpenOptions::new()
        .read(true)
        .write(true)
        .open(rt, name.as_str())
    {
        Ok(file) => Ok(Some(disk_of(file))),
        Err(error) => match error.kind() {
            io::ErrorKind::NotFound => Ok(None),
            io::ErrorKind::OutOfMemory => Err(NoMemory),
            _ => Ok(Some(FileDisk::missing())),
        },
    }
}

/// The files `disk00`, `disk01` and so on of the current folder, as far as they exist in a row: as many as a node may
/// have disks.
pub fn files(rt: &HostRuntime) -> Result<Vec<FileDisk>, NoMemory> {
    let mut disks = Vec::new(rt.alloc());
    for number in 0..MOST_DISKS {
        match numbered_file(rt, number)? {
            Some(disk) => disks.push(disk)?,
            None => break,
        }
    }
    Ok(disks)
}

/// As many disks in memory as a node may have, each as long as the longest volume needs.
pub fn memory(alloc: Global) -> Result<Vec<MemDisk>, NoMemory> {
    let mut disks = Vec::new(alloc);
    for _ in 0..MOST_DISKS {
        disks.push(MemDisk::new(alloc, DISK_LENGTH)?)?;
    }
    Ok(disks)
}
