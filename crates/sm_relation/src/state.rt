// How a destination stands, and what its relationship does.
ghost use Rattle.std.specs.Prelude.{◌≡◌, ℕ, Bool, List};
ghost use Rattle.std.specs.Option.{option_map};
ghost use Rattle.sm_defs.specs.Volume.{Volume, is_rw};
ghost use Rattle.sm_defs.specs.Edges.{is_empty, state_of, mirror_state, status_of, runs, status};
ghost use Rattle.sm_defs.specs.Edges as edges;
ghost use Rattle.sm_relation.specs.Shown.{IsRootOf, transfer_of, relationship_of};

use crate::relation::{Relation, Standing};
use sm_base::Kind;
use sm_defs::{MirrorState, Status4};
use sm_root::Root;

pub(crate) fn is_writable(kind: Kind) -> bool
    ensures { result ≡ is_rw kind }
{
    match kind {
        Kind::Rw => true,
        Kind::Dp => false,
    }
}

pub(crate) fn is_bare(root: &Root) -> bool
    ensures { result ≡ is_empty root.now.snapshots }
{
    root.snapshots.as_slice().is_empty()
}

fn state_of(writable: bool, bare: bool) -> MirrorState
    ensures { result ≡ state_of writable bare }
{
    if writable {
        MirrorState::BrokenOff
    } else if bare {
        MirrorState::Uninitialized
    } else {
        MirrorState::Snapmirrored
    }
}

/// How a destination stands to its source. It takes no memory.
pub fn mirror_state(destination: &Root) -> MirrorState
    ensures { (v : Volume) → IsRootOf destination.now v → result ≡ mirror_state v }
{
    state_of(is_writable(destination.kind), is_bare(destination))
}

fn status_of(running: bool, quiesced: bool) -> Status4
    ensures { result ≡ status_of running quiesced }
{
    match (running, quiesced) {
        (true, true) => Status4::Quiescing,
        (true, false) => Status4::Transferring,
        (false, true) => Status4::Quiesced,
        (false, false) => Status4::Idle,
    }
}

pub(crate) fn is_running(transfer: &Option<Standing>) -> bool
    ensures { (landed : List ℕ) (pruned : Bool) → result ≡ edges.is_running (option_map (transfer_of landed pruned) transfer.now) }
{
    match transfer {
        None => false,
        Some(transfer) => transfer.stopped.is_none(),
    }
}

impl Relation {
    /// What it is doing. It takes no memory.
    pub fn status(&self) -> Status4
        ensures { (landed : List ℕ) (pruned : Bool) → result ≡ status (relationship_of landed pruned self.now) }
    {
        status_of(is_running(&self.transfer), self.quiesced)
    }
}
