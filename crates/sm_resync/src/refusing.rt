// What a resync asks of the state that it finds.
ghost use Rattle.std.specs.Prelude.{◌≡◌, ◌&&◌, not, Bool, None};
ghost use Rattle.sm_defs.specs.Words.{or_else};
ghost use Rattle.sm_defs.specs.Volume.{Volume, is_rw};
ghost use Rattle.sm_defs.specs.Relationship.{Relationship};
ghost use Rattle.sm_defs.specs.Edges.{runs};
ghost use Rattle.sm_defs.specs.May as may;

use sm_base::{Kind, Refusal};

/// The first of these refusals of a resync, and none exactly where none of them comes: `NotBroken`, where the
/// destination, of this kind, is read-only; `Transferring`, where a transfer runs; `OtherLayout`, where it is a
/// mirror and the families differ. Whether a walk would come back is asked after them. It takes no memory.
#[tactic(auto, unfolding(sm_defs::specs::May::refused))]
pub fn may_resync(kind: Kind, running: bool, mirror: bool, same_family: bool) -> Option<Refusal>
    ensures exact { result ≡ may.refused Refusal.NotBroken (not (is_rw kind)) (may.refused Refusal.Transferring running (may.refused Refusal.OtherLayout (mirror && not same_family) None)) }
    ensures before_cycle { (v : Volume) (r : Relationship) (closes : Bool) → v.kind ≡ kind → runs r ≡ running → may.may_resync Refusal.NotBroken Refusal.Transferring Refusal.OtherLayout Refusal.Cycle (mirror && not same_family) closes v r ≡ or_else result (may.refused Refusal.Cycle closes None) }
{
    match kind {
        Kind::Dp => Some(Refusal::NotBroken),
        Kind::Rw if running => Some(Refusal::Transferring),
        Kind::Rw if mirror && !same_family => Some(Refusal::OtherLayout),
        Kind::Rw => None,
    }
}
