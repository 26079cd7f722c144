use sm_base::{Failed, NoMemory};

/// Why a call of a volume was refused or failed.
#[derive(Clone, Copy, Debug, PartialEq, Eq)]
pub enum VolumeFault {
    /// The volume is a destination, which clients don't write.
    ReadOnly,
    /// The place is not below the logical size.
    BadBlock,
    /// Each physical block is used.
    NoSpace,
    /// The volume has no snapshot of this identity.
    NoSnapshot,
    /// A snapshot of the volume has the name.
    NameTaken,
    /// The volume would have more than [`MOST_SNAPSHOTS`](sm_base::limits::MOST_SNAPSHOTS) snapshots, or its
    /// clients have taken all that have a number.
    SnapFull,
    /// The disk is shorter than the volume needs.
    DiskSmall {
        /// The length that is needed, in bytes.
        need: u64,
        /// The length of the disk.
        len: u64,
    },
    /// The disk's selected record is no root.
    BadRoot {
        /// The slot that is selected, 0 or 1: where its record begins [`slot_start_of`](sm_slots::slot_start_of) says.
        slot: u8,
        /// The first byte of the record that fits no root.
        at: u32,
    },
    /// The root is that of another volume.
    OtherNumber {
        /// Whose it is.
        found: u32,
    },
    /// The disk failed: its count of faults rose in the call.
    DiskFault,
    /// There is no memory left for the call, and the volume stands as before.
    NoMemory,
}

impl From<NoMemory> for VolumeFault {
    ghost use Rattle.std.specs.Prelude.{◌≡◌};
    ghost use Rattle.volume_store.specs.declared.faults.VolumeFault.TheVariants.{NoMemory as OutOfMemory};

    ghost from_gives = { λ _ e. e ≡ OutOfMemory };

    fn from(_: NoMemory) -> VolumeFault {
        VolumeFault::NoMemory
    }
}

impl From<Failed> for VolumeFault {
    ghost use Rattle.std.specs.Prelude.{◌≡◌};
    ghost use Rattle.volume_store.specs.declared.faults.VolumeFault.TheVariants.{DiskFault};

    ghost from_gives = { λ _ e. e ≡ DiskFault };

    fn from(_: Failed) -> VolumeFault {
        VolumeFault::DiskFault
    }
}
