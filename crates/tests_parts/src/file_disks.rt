// The calls on a real file.
use sm_base::Failed;
use sm_disk::Disk;
use sm_filedisk::FileDisk;
use std::fs;
use std::test::Fail;

// Writes and syncs, where the range lies within the disk.
fn keep(disk: &mut FileDisk, at: u64, bytes: &[u8]) -> Result<(), Failed> {
    let len = disk.len();
    if bytes.len() > 8 || len < 8 || at > len - 8 {
        return Err(Failed);
    }
    disk.write(at, bytes)?;
    disk.sync()
}

// The four bytes from a place on.
fn four(disk: &mut FileDisk, at: u64) -> Result<[u8; 4], Failed> {
    let len = disk.len();
    let mut bytes = [0u8; 4];
    if len < 8 || at > len - 8 {
        return Err(Failed);
    }
    disk.read(at, &mut bytes)?;
    Ok(bytes)
}

#[test]
fn writes_syncs_and_reads_back(rt: HostRuntime) -> Result<(), Fail> {
    fs::write(&rt, "disk", [0u8; 16].as_slice())?;
    let file = fs::OpenOptions::new()
        .read(true)
        .write(true)
        .open(&rt, "disk")?;
    let mut disk = FileDisk::new(file)?;
    assert_eq!(rt; disk.len(), 16);
    assert_eq!(rt; keep(&mut disk, 4, &[1, 2, 3]), Ok(()));
    assert_eq!(rt; four(&mut disk, 4), Ok([1, 2, 3, 0]));
    disk.restart();
    assert_eq!(rt; four(&mut disk, 3), Ok([0, 1, 2, 3]));
    assert_eq!(rt; disk.faults(), 0);

    // The file is cut behind the disk's back, so the end lies beyond it.
    let cut = fs::OpenOptions::new().write(true).open(&rt, "disk")?;
    cut.set_len(6)?;
    assert_eq!(rt; four(&mut disk, 8), Err(Failed));
    assert_eq!(rt; disk.faults(), 1);

    let mut missing = FileDisk::missing();
    assert_eq!(rt; missing.len(), 0);
    assert_eq!(rt; missing.sync(), Err(Failed));
    assert_eq!(rt; missing.faults(), 1);
    fs::remove_file(&rt, "disk")?;
    Ok(())
}
