// A leg begins.
ghost use Rattle.std.specs.Prelude.{◌≡◌, ◌∷◌, List, Some};
ghost use Rattle.sm_base.specs.declared.numbers.Ident.{Ident as PlainIdent};
ghost use Rattle.sm_relation.specs.declared.relation.Standing.{Standing as PlainStanding};
ghost use Rattle.sm_defs.specs.Volume.{Snapshot};
ghost use Rattle.sm_model.specs.Running.{Running};
ghost use Rattle.sm_transfer.specs.Beginning.{CanBegin, Begins};

use crate::bases::numbers_of;
use crate::fault::StepFault;
use crate::planning::plan_leg;
use crate::transfer::Transfer;
use sm_base::{Ident, NoMemory, PolicyKind};
use sm_disk::Disk;
use sm_relation::Relation;
use sm_volume::Volume;
use std::alloc::Global;

// The first leg of a relationship's transfer, and its checkpoint.
fn first_of(relation: &Relation) -> (Ident, u32)
    requires { (t : PlainStanding) × (i : PlainIdent) × (later : List PlainIdent) × (relation.now.transfer ≡ Some t) × (t.legs ≡ i ∷ later) }
    ensures { (t : PlainStanding) (i : PlainIdent) (later : List PlainIdent) → relation.now.transfer ≡ Some t → t.legs ≡ i ∷ later → (result.0 ≡ i) × (result.1 ≡ t.checkpoint) }
{
    match &relation.transfer {
        Some(transfer) => (transfer.legs.as_slice()[0], transfer.checkpoint),
        None => unreachable!(),
    }
}

/// Plans the first leg of a relationship's transfer and lands its checkpoint's prefix. `kind` is that of the
/// relationship's policy; the volumes are its two, of equal logical size and for a mirror of equal physical size.
/// The source has the leg, and where something of it was shipped it fits still. No device is called.
///
/// # Errors
///
/// - [`StepFault::Stopped`] exactly where the definitions stop the leg's first Ship: a vault's leg costs more
///   blocks than are free at the destination.
/// - [`StepFault::NoMemory`] where memory is wanted for the plan.
pub fn begin_leg<D: Disk>(
    alloc: Global,
    kind: PolicyKind,
    relation: &Relation,
    source: &Volume<D>,
    destination: &Volume<D>,
) -> Result<Transfer, StepFault>
    requires { (x : Running) × (leg : Snapshot) × CanBegin kind relation.now source.now.volume destination.now.volume x leg }
    ensures { (x : Running) (leg : Snapshot) → CanBegin kind relation.now source.now.volume destination.now.volume x leg → Begins x leg result }
{
    source.told();
    let first = first_of(relation);
    match plan_leg(
        alloc,
        kind,
        numbers_of(source.root(), first.0),
        relation.base,
        source,
        destination,
    ) {
        Err(fault) => Err(fault),
        Ok(plan) => match Transfer::begin(alloc, plan, first.1) {
            Ok(transfer) => Ok(transfer),
            Err(NoMemory) => Err(StepFault::NoMemory),
        },
    }
}
