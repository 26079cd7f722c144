use std::alloc::AllocError;

/// Why an event was not done and made no entry.
#[derive(Clone, Copy, Debug, PartialEq, Eq)]
pub enum ActFault {
    /// A worker asks again, though nothing was done since its last answer.
    Unchanged,
    /// The history has as many entries as it may have.
    HistoryFull,
    /// There is no memory left for the event.
    NoMemory,
}

impl From<AllocError> for ActFault {
    ghost use Rattle.std.specs.Prelude.{◌≡◌};
    ghost use Rattle.sm_history.specs.declared.fault.ActFault.TheVariants.{NoMemory as OutOfMemory};

    ghost from_gives = { λ _ e. e ≡ OutOfMemory };

    fn from(_: AllocError) -> ActFault {
        ActFault::NoMemory
    }
}
