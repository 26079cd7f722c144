// Where the physical blocks of a disk lie.
ghost use Rattle.std.specs.Prelude.{◌≡◌, ◌+◌, ◌*◌, ◌≤◌, length, OnOk, OnErr, IsTrue};
ghost use Rattle.sm_disk.specs.Disk.{Steps, IsQuiet, Wrote, IsCounted};
ghost use Rattle.sm_base.specs.declared.limits.TheConstants.{MOST_PHYSICAL};
ghost use Rattle.volume_store.specs.Held.{block_at, block_start, need};

use sm_base::Failed;
use sm_base::limits::BLOCKS_START;
use sm_disk::Disk;

/// How many bytes a disk needs for so many physical blocks.
pub(crate) fn need_of(physical: u32) -> u64
    requires { physical ≤ MOST_PHYSICAL }
    ensures { result ≡ need physical }
{
    BLOCKS_START + 4096 * physical as u64
}

/// Writes the block of this number.
pub(crate) fn write_at<D: Disk>(disk: &mut D, number: u32, bytes: &[u8]) -> Result<(), Failed>
    requires from_one { 1 ≤ number }
    requires room { need number ≤ (D.state disk.old).size }
    requires long { length bytes.now ≡ 4096 }

    ensures block { OnOk result (IsTrue (D.state disk.old).told → block_at (D.state disk.new).seen number ≡ bytes.now) }
    ensures range { Wrote (D.state disk.old) (block_start number) 4096 (D.state disk.new) }
    ensures time { Steps (D.state disk.old) (D.state disk.new) }
    ensures cause { OnErr result (IsCounted (D.state disk.old) (D.state disk.new)) }
{
    disk.write(BLOCKS_START + 4096 * (number as u64 - 1), bytes)
}

/// Reads the block of this number.
pub(crate) fn read_at<D: Disk>(disk: &mut D, number: u32, into: &mut [u8]) -> Result<(), Failed>
    requires from_one { 1 ≤ number }
    requires room { need number ≤ (D.state disk.old).size }
    requires long { length into.old ≡ 4096 }

    ensures block { OnOk result (IsTrue (D.state disk.old).told → into.new ≡ block_at (D.state disk.old).seen number) }
    ensures quiet { IsQuiet (D.state disk.old) (D.state disk.new) }
    ensures time { Steps (D.state disk.old) (D.state disk.new) }
    ensures cause { OnErr result (IsCounted (D.state disk.old) (D.state disk.new)) }
{
    disk.read(BLOCKS_START + 4096 * (number as u64 - 1), into)
}
