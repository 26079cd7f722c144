use sm_base::NoMemory;
use sm_fields::FieldFault;
use std::alloc::{AllocError, AllocFailed};

/// Why bytes were not read as a root.
#[derive(Clone, Copy, Debug, PartialEq, Eq)]
pub enum RootFault {
    /// The bytes are no root.
    Bad {
        /// The first byte of the first field that does not stand there, that the end cuts off, or whose
        /// value breaks a condition; or the first byte behind the last field.
        at: u32,
    },
    /// There is no memory left for the root.
    NoMemory,
}

impl From<FieldFault> for RootFault {
    ghost use Rattle.std.specs.Prelude.{◌≡◌};
    ghost use Rattle.sm_root.specs.declared.fault.RootFault.TheVariants.{Bad};

    ghost from_gives = { λ f e. e ≡ Bad f.at };

    fn from(fault: FieldFault) -> RootFault {
        RootFault::Bad { at: fault.at }
    }
}

impl From<AllocError> for RootFault {
    ghost use Rattle.std.specs.Prelude.{◌≡◌};
    ghost use Rattle.sm_root.specs.declared.fault.RootFault.TheVariants.{NoMemory as OutOfMemory};

    ghost from_gives = { λ _ e. e ≡ OutOfMemory };

    fn from(_: AllocError) -> RootFault {
        RootFault::NoMemory
    }
}

impl From<NoMemory> for RootFault {
    ghost use Rattle.std.specs.Prelude.{◌≡◌};
    ghost use Rattle.sm_root.specs.declared.fault.RootFault.TheVariants.{NoMemory as OutOfMemory};

    ghost from_gives = { λ _ e. e ≡ OutOfMemory };

    fn from(_: NoMemory) -> RootFault {
        RootFault::NoMemory
    }
}

impl<T: Drop> From<AllocFailed<T>> for RootFault {
    ghost use Rattle.std.specs.Prelude.{◌≡◌};
    ghost use Rattle.sm_root.specs.declared.fault.RootFault.TheVariants.{NoMemory as OutOfMemory};

    ghost from_gives = { λ _ e. e ≡ OutOfMemory };

    fn from(_: AllocFailed<T>) -> RootFault {
        RootFault::NoMemory
    }
}
