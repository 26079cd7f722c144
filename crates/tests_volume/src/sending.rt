// Volumes that go to another thread.
use crate::making::{disk_of, small};
use sm_base::limits::BLOCKS_START;
use sm_disk::Disk;
use sm_filedisk::FileDisk;
use sm_memdisk::Image;
use sm_volume::VolumeFault;
use std::alloc::Global;
use std::test::Fail;

// Takes only what may go to another thread.
fn sent<T: Send>(value: T) -> T {
    value
}

// How many blocks a new volume uses.
fn used<D: Disk + Drop + Send>(alloc: Global, disk: D) -> Result<u32, VolumeFault> {
    let volume = sent(small(alloc, disk)?);
    Ok(volume.used())
}

#[test]
fn a_volume_may_go_to_another_thread(rt: HostRuntime) -> Result<(), Fail> {
    let disk = disk_of(rt.alloc(), 0, Image::Old)?;
    assert_eq!(rt; used(rt.alloc(), disk), Ok(0));
    let need = BLOCKS_START + 2 * 4096;
    let fault = Err(VolumeFault::DiskSmall { need, len: 0 });
    assert_eq!(rt; used(rt.alloc(), FileDisk::missing()), fault);
    Ok(())
}
