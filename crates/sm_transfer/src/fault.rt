use sm_base::{NoMemory, Reason, VolNo};

/// Why a step of a transfer is not done.
#[derive(Clone, Copy, Debug, PartialEq, Eq)]
pub enum StepFault {
    /// The transfer cannot go on, for this reason; nothing was changed.
    Stopped(Reason),
    /// The disk of this volume failed: its count of faults rose in the call.
    DiskFault { volume: VolNo },
    /// There is no memory left for the call, and no device was called.
    NoMemory,
}

impl From<NoMemory> for StepFault {
    ghost use Rattle.std.specs.Prelude.{◌≡◌};
    ghost use Rattle.sm_transfer.specs.declared.fault.StepFault.TheVariants.{NoMemory as OutOfMemory};

    ghost from_gives = { λ _ e. e ≡ OutOfMemory };

    fn from(_: NoMemory) -> StepFault {
        StepFault::NoMemory
    }
}
