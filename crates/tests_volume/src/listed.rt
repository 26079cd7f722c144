// A list of calls.
ghost use Rattle.std.specs.Prelude.{◌≡◌, true};
ghost use Rattle.laws_volume.specs.Assigned.{AskNothing};

use crate::asking::{check_up, full};
use crate::making::{disk_of, small};
use crate::telling::text_of;
use laws_volume::{Call, perform_all};
use sm_disk::Disk;
use sm_memdisk::Image;
use sm_volume::{View, Volume, VolumeFault};
use std::alloc::Global;
use std::test::Fail;

// Writes before and after a consistency point, what is put onto the medium and read, and a restart.
fn calls() -> [Call; 7]
    ensures { AskNothing result }
{
    [
        Call::MakeWritable,
        Call::Write {
            at: 0,
            block: full(7),
        },
        Call::ConsistencyPoint,
        Call::Write {
            at: 0,
            block: full(8),
        },
        Call::Sync,
        Call::Read {
            view: View::Active,
            at: 0,
        },
        Call::Restart,
    ]
}

fn perform_calls<D: Disk>(alloc: Global, volume: &mut Volume<D>) -> Result<(), VolumeFault> {
    check_up(volume)?;
    perform_all(alloc, volume, &calls())
}

// Whether the volume tells behind them what the consistency point left.
fn is_settled<D: Disk + Drop>(alloc: Global, disk: D) -> Result<bool, Fail> {
    let mut volume = small(alloc, disk)?;
    perform_calls(alloc, &mut volume)?;
    Ok(text_of(alloc, &mut volume)?.as_str() == "rw 0 1 2 1: 7")
}

#[test]
fn calls_are_made_one_after_another(rt: HostRuntime) -> Result<(), Fail> {
    let disk = disk_of(rt.alloc(), 0, Image::Old)?;
    assert!(rt; is_settled(rt.alloc(), disk)?);
    Ok(())
}
