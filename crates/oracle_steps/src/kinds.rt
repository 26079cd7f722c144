use oracle_lists::PlainSnapshot;
use sm_base::Ident;

/// The kinds of a transfer's steps.
#[derive(Debug, Drop)]
pub enum PlainKind {
    /// The destination goes back to its base, which is this snapshot of it.
    Revert(PlainSnapshot),
    /// The transfer ends without a further leg; its base.
    Finish(Ident),
    /// A published leg becomes the base; the legs behind it.
    Settle(Ident, Vec<Ident>),
    /// The transfer's own snapshot is taken on the source.
    Prepare(Ident),
    Prune,
    /// The first leg, as the source has it, is shown at the destination.
    Publish(PlainSnapshot),
    Checkpoint,
    /// A block of the first leg, as the source has it, goes to the destination.
    Ship(PlainSnapshot),
}
