// Each call once, and what a restart leaves.
use sm_base::Failed;
use sm_disk::Disk;
use sm_memdisk::{Image, MemDisk};
use std::test::Fail;

// Writes, where the range lies within the disk.
fn put(disk: &mut MemDisk, at: u64, bytes: &[u8]) -> Result<(), Failed> {
    let len = disk.len();
    if bytes.len() > 4096 || len < 4096 || at > len - 4096 {
        return Err(Failed);
    }
    disk.write(at, bytes)
}

// The eight bytes from a place on.
fn eight(disk: &mut MemDisk, at: u64) -> Result<[u8; 8], Failed> {
    let len = disk.len();
    let mut bytes = [0u8; 8];
    if len < 4096 || at > len - 4096 {
        return Err(Failed);
    }
    disk.read(at, &mut bytes)?;
    Ok(bytes)
}

#[derive(Clone, Copy, Debug)]
enum Step {
    Write(u8),
    Sync,
    Restart,
}

fn take(disk: &mut MemDisk, step: Step) -> Result<(), Failed> {
    match step {
        Step::Write(byte) => put(disk, 0, &[byte]),
        Step::Sync => disk.sync(),
        Step::Restart => {
            disk.restart();
            Ok(())
        }
    }
}

#[test]
fn fails_at_the_named_call(rt: HostRuntime) -> Result<(), Fail> {
    let mut disk = MemDisk::new(rt.alloc(), 8192)?;
    disk.fail_at(2)?;
    for (step, answer, faults) in [
        (Step::Write(1), Ok(()), 0),
        (Step::Write(2), Err(Failed), 1),
        (Step::Write(3), Ok(()), 1),
    ] {
        assert_eq!(rt; take(&mut disk, step), answer, "{step:?}");
        assert_eq!(rt; disk.faults(), faults, "{step:?}");
        assert_eq!(rt; disk.starved(), 0, "{step:?}");
    }
    Ok(())
}

// Four bytes across the end of a page are written over ones, on two disks. One of them is synced.
#[test]
fn bytes_outside_a_torn_range_stay(rt: HostRuntime) -> Result<(), Fail> {
    for (image, torn) in [
        (Image::Old, [1, 1, 1, 1, 1, 1, 1, 1]),
        (Image::New, [1, 1, 9, 9, 9, 9, 1, 1]),
        (Image::Fill(0), [1, 1, 0, 0, 0, 0, 1, 1]),
        (Image::Fill(255), [1, 1, 255, 255, 255, 255, 1, 1]),
    ] {
        let mut first = MemDisk::new(rt.alloc(), 16_384)?;
        let mut second = MemDisk::new(rt.alloc(), 16_384)?;
        put(&mut first, 4092, &[1; 8])?;
        put(&mut second, 4092, &[1; 8])?;
        first.sync()?;
        second.sync()?;
        put(&mut first, 4094, &[9; 4])?;
        put(&mut second, 4094, &[9; 4])?;
        second.sync()?;
        first.choose(image);
        second.choose(image);
        first.restart();
        second.restart();
        assert_eq!(rt; eight(&mut first, 4092)?, torn, "{image:?}");
        assert_eq!(rt;
            eight(&mut second, 4092)?,
            [1, 1, 9, 9, 9, 9, 1, 1],
            "{image:?}"
        );
        assert_eq!(rt; eight(&mut first, 4084)?, [0; 8]);
    }
    Ok(())
}

// The calls from the third on fail, until a restart that comes after one of them.
#[test]
fn a_stop_holds_until_a_restart_after_it(rt: HostRuntime) -> Result<(), Fail> {
    let mut disk = MemDisk::new(rt.alloc(), 4096)?;
    disk.stop_from(3);
    for (step, answer, faults) in [
        (Step::Write(1), Ok(()), 0),
        (Step::Restart, Ok(()), 0),
        (Step::Sync, Ok(()), 0),
        (Step::Write(2), Err(Failed), 1),
        (Step::Sync, Err(Failed), 2),
        (Step::Restart, Ok(()), 2),
        (Step::Sync, Ok(()), 2),
    ] {
        assert_eq!(rt; take(&mut disk, step), answer, "{step:?}");
        assert_eq!(rt; disk.faults(), faults, "{step:?}");
    }
    assert_eq!(rt; eight(&mut disk, 0)?, [0; 8]);
    Ok(())
}

#[test]
fn costs_what_is_written(rt: HostRuntime) -> Result<(), Fail> {
    let mut disks = Vec::new(rt.alloc());
    for _ in 0..33 {
        let mut disk = MemDisk::new(rt.alloc(), u64::MAX)?;
        put(&mut disk, u64::MAX - 4096, &[7; 8])?;
        assert_eq!(rt; eight(&mut disk, u64::MAX - 4096)?, [7; 8]);
        disks.push(disk)?;
    }
    Ok(())
}
