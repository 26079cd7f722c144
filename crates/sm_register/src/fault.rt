// Why no value was read from bytes or from a disk.
use sm_base::{Failed, NoMemory};
use sm_fields::FieldFault;
use std::alloc::{AllocError, AllocFailed};

/// Why what a slot holds was not read as a value.
#[derive(Clone, Copy, Debug, PartialEq, Eq)]
pub enum DecodeFault {
    /// It spells no value.
    Bad {
        /// The first byte that fits no spelling, counted from the slot's first.
        at: u32,
    },
    /// There is no memory left for the value.
    NoMemory,
}

impl From<FieldFault> for DecodeFault {
    ghost use Rattle.std.specs.Prelude.{◌≡◌};
    ghost use Rattle.sm_register.specs.declared.fault.DecodeFault.TheVariants.{Bad};

    ghost from_gives = { λ f e. e ≡ Bad f.at };

    fn from(fault: FieldFault) -> DecodeFault {
        DecodeFault::Bad { at: fault.at }
    }
}

impl From<AllocError> for DecodeFault {
    ghost use Rattle.std.specs.Prelude.{◌≡◌};
    ghost use Rattle.sm_register.specs.declared.fault.DecodeFault.TheVariants.{NoMemory as OutOfMemory};

    ghost from_gives = { λ _ e. e ≡ OutOfMemory };

    fn from(_: AllocError) -> DecodeFault {
        DecodeFault::NoMemory
    }
}

impl From<NoMemory> for DecodeFault {
    ghost use Rattle.std.specs.Prelude.{◌≡◌};
    ghost use Rattle.sm_register.specs.declared.fault.DecodeFault.TheVariants.{NoMemory as OutOfMemory};

    ghost from_gives = { λ _ e. e ≡ OutOfMemory };

    fn from(_: NoMemory) -> DecodeFault {
        DecodeFault::NoMemory
    }
}

impl<T: Drop> From<AllocFailed<T>> for DecodeFault {
    ghost use Rattle.std.specs.Prelude.{◌≡◌};
    ghost use Rattle.sm_register.specs.declared.fault.DecodeFault.TheVariants.{NoMemory as OutOfMemory};

    ghost from_gives = { λ _ e. e ≡ OutOfMemory };

    fn from(_: AllocFailed<T>) -> DecodeFault {
        DecodeFault::NoMemory
    }
}

/// Why no register was found on a disk.
#[derive(Clone, Copy, Debug, PartialEq, Eq)]
pub enum OpenFault {
    /// The selected slot spells no value.
    BadRecord {
        /// The selected slot, 0 or 1.
        slot: u8,
        /// The first byte that fits no spelling, counted from the slot's first.
        at: u32,
    },
    /// The disk failed: its count of faults rose in the call.
    DiskFault,
    /// There is no memory left for the value.
    NoMemory,
}

impl From<Failed> for OpenFault {
    ghost use Rattle.std.specs.Prelude.{◌≡◌};
    ghost use Rattle.sm_register.specs.declared.fault.OpenFault.TheVariants.{DiskFault};

    ghost from_gives = { λ _ e. e ≡ DiskFault };

    fn from(_: Failed) -> OpenFault {
        OpenFault::DiskFault
    }
}
