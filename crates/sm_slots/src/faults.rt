use sm_base::Failed;
use std::alloc::AllocError;

/// Why the slots of a disk were not made, opened or written.
#[derive(Clone, Copy, Debug, PartialEq, Eq)]
pub enum SlotFault {
    /// The disk failed: its count of faults rose in the call.
    DiskFault,
    /// The record is longer than a slot.
    TooLarge,
}

impl From<Failed> for SlotFault {
    ghost use Rattle.std.specs.Prelude.{◌≡◌};
    ghost use Rattle.sm_slots.specs.declared.faults.SlotFault.TheVariants.{DiskFault};

    ghost from_gives = { λ _ e. e ≡ DiskFault };

    fn from(_: Failed) -> SlotFault {
        SlotFault::DiskFault
    }
}

/// Why the record in the selected slot was not read.
#[derive(Clone, Copy, Debug, PartialEq, Eq)]
pub enum RecordFault {
    /// The disk failed: its count of faults rose in the call.
    DiskFault,
    /// The slot is not blank, and its record would be longer than a slot by the length that it states.
    BadLength,
    /// There is no memory left for the record.
    NoMemory,
}

impl From<Failed> for RecordFault {
    ghost use Rattle.std.specs.Prelude.{◌≡◌};
    ghost use Rattle.sm_slots.specs.declared.faults.RecordFault.TheVariants.{DiskFault};

    ghost from_gives = { λ _ e. e ≡ DiskFault };

    fn from(_: Failed) -> RecordFault {
        RecordFault::DiskFault
    }
}

impl From<AllocError> for RecordFault {
    ghost use Rattle.std.specs.Prelude.{◌≡◌};
    ghost use Rattle.sm_slots.specs.declared.faults.RecordFault.TheVariants.{NoMemory as OutOfMemory};

    ghost from_gives = { λ _ e. e ≡ OutOfMemory };

    fn from(_: AllocError) -> RecordFault {
        RecordFault::NoMemory
    }
}
