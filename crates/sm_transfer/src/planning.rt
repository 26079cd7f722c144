// The plan of a leg between two volumes.
ghost use Rattle.std.specs.Prelude.{◌≡◌, ◌≤◌, length, true, IfOk};
ghost use Rattle.std.specs.List.{All};
ghost use Rattle.sm_defs.specs.Image.{Image, tags};
ghost use Rattle.sm_defs.specs.Missing.{vault_cost};
ghost use Rattle.sm_defs.specs.Relationship.{is_mirror};
ghost use Rattle.sm_defs.specs.Volume.{free, free_tags};
ghost use Rattle.sm_select.specs.PlanLaws.{IsMirrorPlan};
ghost use Rattle.sm_transfer.specs.Beginning.{bases_of, HasRoom, IsPlanOf, GoesOrStops, room_reason, leg_reason};

use crate::bases::base_numbers;
use crate::fault::StepFault;
use sm_base::{Ident, NoMemory, PolicyKind, Reason};
use sm_disk::Disk;
use sm_select::{Plan, PlanFault, plan_mirror, plan_vault};
use sm_volume::Volume;
use std::alloc::Global;

// Each number that the destination's snapshots lack.
fn plan_of_mirror<D: Disk>(
    alloc: Global,
    leg: &[u32],
    destination: &Volume<D>,
) -> Result<Plan, NoMemory>
    requires within { All (λ t. t ≤ destination.now.volume.physical) leg.now }
    ensures { (image : Image) → tags image ≡ leg.now → IfOk result (λ plan. IsMirrorPlan image destination.now.volume.snapshots plan) }
{
    plan_mirror(alloc, leg, destination.held())
}

// Each place that differs from the base, at the least numbers that are free.
fn plan_of_vault<D: Disk>(
    alloc: Global,
    leg: &[u32],
    base: Option<Ident>,
    source: &Volume<D>,
    destination: &Volume<D>,
) -> Result<Plan, StepFault>
    requires source { length leg.now ≡ source.now.volume.logical }
    requires destination { length leg.now ≡ destination.now.volume.logical }
    ensures { (image : Image) → tags image ≡ leg.now → GoesOrStops (HasRoom image (bases_of base source.now.volume destination.now.volume) (free_tags destination.now.volume))
        (room_reason (vault_cost image (bases_of base source.now.volume destination.now.volume)) (free destination.now.volume)) result }
{
    source.told();
    destination.told();
    let at_source = base_numbers(alloc, source.root(), base)?;
    let at_destination = base_numbers(alloc, destination.root(), base)?;
    match plan_vault(
        alloc,
        leg,
        at_source.as_slice(),
        at_destination.as_slice(),
        destination.space(),
    ) {
        Ok(plan) => Ok(plan),
        Err(PlanFault::NoSpace { need, free }) => {
            Err(StepFault::Stopped(Reason::NoSpace { need, free }))
        }
        Err(PlanFault::NoMemory) => Err(StepFault::NoMemory),
    }
}

// The plan of a leg with these numbers, for a policy of this kind.
pub(crate) fn plan_leg<D: Disk>(
    alloc: Global,
    kind: PolicyKind,
    leg: &[u32],
    base: Option<Ident>,
    source: &Volume<D>,
    destination: &Volume<D>,
) -> Result<Plan, StepFault>
    requires within { is_mirror kind ≡ true → All (λ t. t ≤ destination.now.volume.physical) leg.now }
    requires source { length leg.now ≡ source.now.volume.logical }
    requires destination { length leg.now ≡ destination.now.volume.logical }
    ensures { (image : Image) → tags image ≡ leg.now → GoesOrStops (IsPlanOf kind image (bases_of base source.now.volume destination.now.volume) destination.now.volume)
        (leg_reason kind image (bases_of base source.now.volume destination.now.volume) destination.now.volume) result }
{
    match kind {
        PolicyKind::AsyncMirror => match plan_of_mirror(alloc, leg, destination) {
            Ok(plan) => Ok(plan),
            Err(NoMemory) => Err(StepFault::NoMemory),
        },
        PolicyKind::Vault => plan_of_vault(alloc, leg, base, source, destination),
    }
}
