/// How a destination stands to its source.
#[derive(Clone, Copy, Debug, PartialEq, Eq)]
pub enum MirrorState {
    /// Read-only and without a snapshot.
    Uninitialized,
    /// Read-only, and it shows a snapshot.
    Snapmirrored,
    /// Clients may write it.
    BrokenOff,
}

/// What a relationship is doing.
#[derive(Clone, Copy, Debug, PartialEq, Eq)]
pub enum Status4 {
    /// No transfer runs, and one may start.
    Idle,
    /// A transfer runs.
    Transferring,
    /// A transfer runs, and no further one may start.
    Quiescing,
    /// No transfer runs, and none may start.
    Quiesced,
}
