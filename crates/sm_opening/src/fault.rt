use sm_base::{DiskNo, NoMemory};
use sm_model::OpenKind;
use std::alloc::{AllocError, AllocFailed};

/// Why no node was opened.
#[derive(Clone, Copy, Debug, PartialEq, Eq)]
pub enum OpenFault {
    /// The disks spell no world, or one of them failed.
    Unopened {
        /// The disk at fault; for the shape of the whole, disk 0.
        disk: DiskNo,
        /// What is wrong there. [`OpenKind::Fault`] comes only where the disk's count of faults rose in the call.
        kind: OpenKind,
    },
    /// There is no memory left for the node.
    NoMemory,
}

impl From<NoMemory> for OpenFault {
    ghost use Rattle.std.specs.Prelude.{◌≡◌};
    ghost use Rattle.sm_opening.specs.declared.fault.OpenFault.TheVariants.{NoMemory as OutOfMemory};

    ghost from_gives = { λ _ e. e ≡ OutOfMemory };

    fn from(_: NoMemory) -> OpenFault {
        OpenFault::NoMemory
    }
}

impl<T: Drop> From<AllocFailed<T>> for OpenFault {
    ghost use Rattle.std.specs.Prelude.{◌≡◌};
    ghost use Rattle.sm_opening.specs.declared.fault.OpenFault.TheVariants.{NoMemory as OutOfMemory};

    ghost from_gives = { λ _ e. e ≡ OutOfMemory };

    fn from(_: AllocFailed<T>) -> OpenFault {
        OpenFault::NoMemory
    }
}

impl From<AllocError> for OpenFault {
    ghost use Rattle.std.specs.Prelude.{◌≡◌};
    ghost use Rattle.sm_opening.specs.declared.fault.OpenFault.TheVariants.{NoMemory as OutOfMemory};

    ghost from_gives = { λ _ e. e ≡ OutOfMemory };

    fn from(_: AllocError) -> OpenFault {
        OpenFault::NoMemory
    }
}
