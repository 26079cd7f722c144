//! A block device: what a read gives, and what a restart may leave of what was written.
#![tactic(auto)]

ghost use Rattle.std.specs.Prelude.{◌≡◌, ◌+◌, ◌≤◌, length, IsTrue, OnOk, OnErr};
ghost use Rattle.sm_disk.specs.Image.{part};
ghost use Rattle.sm_disk.specs.Disk.{DiskState, Steps, IsQuiet, IsSynced, Wrote, MayHoldAny, IsCounted};

use sm_base::Failed;

/// A device of a fixed length, whose writes are on the medium only after a sync.
///
/// Between two syncs each written range may hold any bytes after a restart, and the bytes outside
/// of it stay. Clauses on content hold where the disk tells its content, which never changes.
/// Every call keeps the length, never lowers the count of faults, and answers `Failed` only where
/// that count rose in it; a count that stands at `2^64 - 1` counts as one that rose.
pub trait Disk {
    /// What the disk means.
    ghost state: { Self → DiskState };

    /// The length in bytes.
    fn len(&self) -> u64
        ensures { result ≡ (state self.now).size };

    /// How often a call has failed. The count stays at `2^64 - 1` once it is there.
    fn faults(&self) -> u64
        ensures { result ≡ (state self.now).faults };

    /// Reads the bytes from the place `at` on. Whatever it answers, it changes neither what a read
    /// gives nor what a restart may leave.
    fn read(&mut self, at: u64, into: &mut [u8]) -> Result<(), Failed>
        requires range { at + length into.old ≤ (state self.old).size }

        ensures bytes { OnOk result (IsTrue (state self.old).told → into.new ≡ part (state self.old).seen at (length into.old)) }
        ensures quiet { IsQuiet (state self.old) (state self.new) }
        ensures time { Steps (state self.old) (state self.new) }
        ensures cause { OnErr result (IsCounted (state self.old) (state self.new)) };

    /// Writes bytes from the place `at` on. Their range is pending up to the next sync or restart. After
    /// a failure it may be pending too, and what a read gives there is not told.
    fn write(&mut self, at: u64, bytes: &[u8]) -> Result<(), Failed>
        requires range { at + length bytes.now ≤ (state self.old).size }

        ensures bytes { OnOk result (IsTrue (state self.old).told → part (state self.new).seen at (length bytes.now) ≡ bytes.now) }
        // Only the range changes, in what a read gives and in what a restart may leave.
        ensures range { Wrote (state self.old) at (length bytes.now) (state self.new) }
        ensures pending { OnOk result (MayHoldAny (state self.old) at (length bytes.now) (state self.new)) }
        ensures time { Steps (state self.old) (state self.new) }
        ensures cause { OnErr result (IsCounted (state self.old) (state self.new)) };

    /// Puts all that was written onto the medium. One that fails changes nothing.
    fn sync(&mut self) -> Result<(), Failed>
        ensures synced { OnOk result (IsSynced (state self.new)) }
        ensures failed { OnErr result (IsQuiet (state self.old) (state self.new)) }
        ensures seen { (state self.new).seen ≡ (state self.old).seen }
        ensures images { (c : _) → (state self.new).may_leave c → (state self.old).may_leave c }
        ensures time { Steps (state self.old) (state self.new) }
        ensures cause { OnErr result (IsCounted (state self.old) (state self.new)) };

    /// Cuts the power and starts again. The disk then reads as one of its images, with nothing
    /// pending.
    fn restart(&mut self)
        ensures image { IsTrue (state self.old).told → (state self.old).may_leave (state self.new).seen }
        ensures synced { IsSynced (state self.new) }
        ensures time { Steps (state self.old) (state self.new) };
}
