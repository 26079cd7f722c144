// What a command asks of the state that it finds.
ghost use Rattle.std.specs.Prelude.{◌≡◌, ◌&&◌, not, is_none, ℕ, Bool, List};
ghost use Rattle.sm_defs.specs.Volume.{Volume};
ghost use Rattle.sm_defs.specs.May as may;
ghost use Rattle.sm_relation.specs.Shown.{IsRootOf, relationship_of, abort_refusal};

use crate::relation::Relation;
use crate::state::{is_bare, is_running, is_writable};
use sm_base::{Kind, Refusal};
use sm_root::Root;

/// Each call answers the first refusal of its command on the state that it finds, and none exactly where none
/// comes. `destination` is the root of the relationship's destination. None of them takes memory.
impl Relation {
    /// Of `initialize`: `Writable`; `Initialized`, where the destination has a snapshot; `Quiesced`;
    /// `Transferring`, where a transfer runs.
    #[tactic(auto, unfolding(sm_defs::specs::May::refused))]
    pub fn may_initialize(&self, destination: &Root) -> Option<Refusal>
        ensures { (v : Volume) (landed : List ℕ) (pruned : Bool) → IsRootOf destination.now v → result ≡ may.may_initialize Refusal.Writable Refusal.Initialized Refusal.Quiesced Refusal.Transferring v (relationship_of landed pruned self.now) }
    {
        if is_writable(destination.kind) {
            Some(Refusal::Writable)
        } else if !is_bare(destination) {
            Some(Refusal::Initialized)
        } else if self.quiesced {
            Some(Refusal::Quiesced)
        } else if is_running(&self.transfer) {
            Some(Refusal::Transferring)
        } else {
            None
        }
    }

    // Whether there is nothing that an update could go on from.
    fn has_nothing(&self) -> bool
        ensures { result ≡ (is_none self.now.base && is_none self.now.transfer) }
    {
        self.base.is_none() && self.transfer.is_none()
    }

    /// Of `update`: `Writable`; `Uninitialized`, where the destination has no snapshot, or the relationship has
    /// neither base nor transfer; `Quiesced`; `Transferring`, where a transfer runs; `OtherLayout`, where it is
    /// a mirror and the families differ.
    #[tactic(auto, unfolding(sm_defs::specs::May::refused))]
    pub fn may_update(&self, destination: &Root, mirror: bool, same_family: bool) -> Option<Refusal>
        ensures { (v : Volume) (landed : List ℕ) (pruned : Bool) → IsRootOf destination.now v → result ≡ may.may_update Refusal.Writable Refusal.Uninitialized Refusal.Quiesced Refusal.Transferring Refusal.OtherLayout (mirror && not same_family) v (relationship_of landed pruned self.now) }
    {
        if is_writable(destination.kind) {
            Some(Refusal::Writable)
        } else if is_bare(destination) || self.has_nothing() {
            Some(Refusal::Uninitialized)
        } else if self.quiesced {
            Some(Refusal::Quiesced)
        } else if is_running(&self.transfer) {
            Some(Refusal::Transferring)
        } else if mirror && !same_family {
            Some(Refusal::OtherLayout)
        } else {
            None
        }
    }

    /// Of `abort`: `NoTransfer`, where none stands, or where none runs and it is not to be discarded.
    #[tactic(auto, unfolding(sm_defs::specs::May::refused))]
    pub fn may_abort(&self, hard: bool) -> Option<Refusal>
        ensures { (landed : List ℕ) (pruned : Bool) → result ≡ abort_refusal Refusal.NoTransfer hard (relationship_of landed pruned self.now).transfer }
    {
        match &self.transfer {
            None => Some(Refusal::NoTransfer),
            Some(transfer) if !hard && transfer.stopped.is_some() => Some(Refusal::NoTransfer),
            Some(_) => None,
        }
    }

    /// Of `break`: `Writable`; `Uninitialized`, where the destination has no snapshot; `Transferring`, where a
    /// transfer stands.
    #[tactic(auto, unfolding(sm_defs::specs::May::refused))]
    pub fn may_break(&self, destination: &Root) -> Option<Refusal>
        ensures { (v : Volume) (landed : List ℕ) (pruned : Bool) → IsRootOf destination.now v → result ≡ may.may_break Refusal.Writable Refusal.Uninitialized Refusal.Transferring v (relationship_of landed pruned self.now) }
    {
        if is_writable(destination.kind) {
            Some(Refusal::Writable)
        } else if is_bare(destination) {
            Some(Refusal::Uninitialized)
        } else if self.transfer.is_some() {
            Some(Refusal::Transferring)
        } else {
            None
        }
    }

    /// Of `delete`: `Transferring`, where a transfer stands.
    #[tactic(auto, unfolding(sm_defs::specs::May::refused))]
    pub fn may_delete(&self) -> Option<Refusal>
        ensures { (landed : List ℕ) (pruned : Bool) → result ≡ may.may_delete Refusal.Transferring (relationship_of landed pruned self.now) }
    {
        if self.transfer.is_some() {
            Some(Refusal::Transferring)
        } else {
            None
        }
    }

    /// Of `release`, where `kind` is the destination's: `Active`, where the relationship has its destination
    /// half and the destination is read-only; `Transferring`, where a transfer stands.
    #[tactic(auto, unfolding(sm_defs::specs::May::refused))]
    pub fn may_release(&self, kind: Kind) -> Option<Refusal>
        ensures { (v : Volume) (landed : List ℕ) (pruned : Bool) → v.kind ≡ kind → result ≡ may.may_release Refusal.Active Refusal.Transferring v (relationship_of landed pruned self.now) }
    {
        if self.destination_half && !is_writable(kind) {
            Some(Refusal::Active)
        } else if self.transfer.is_some() {
            Some(Refusal::Transferring)
        } else {
            None
        }
    }
}
