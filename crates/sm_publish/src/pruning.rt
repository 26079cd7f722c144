// Prune.
ghost use Rattle.std.specs.Prelude.{◌≡◌, ◌==◌, ◌&&◌, not, true, length, List, Option, None};
ghost use Rattle.sm_base.specs.declared.numbers.Ident.{Ident as PlainIdent};
ghost use Rattle.sm_base.specs.declared.numbers.VolNo.{VolNo as PlainNumber};
ghost use Rattle.sm_base.specs.declared.refusal.Reason.TheVariants as reasons;
ghost use Rattle.sm_defs.specs.Edges.{is_empty};
ghost use Rattle.sm_defs.specs.Relationship.{Relationship, is_mirror};
ghost use Rattle.sm_defs.specs.Volume.{Volume as Plain};
ghost use Rattle.sm_defs.specs.World.{Up};
ghost use Rattle.sm_relation.specs.Shown.{IsRootOf};
ghost use Rattle.sm_volume.specs.Seen.{root_of};
ghost use Rattle.sm_model.specs.Due.{held_reason, reason_if};
ghost use Rattle.sm_model.specs.OfTransfers.{first_held};
ghost use Rattle.sm_model.specs.Running.{Running};
ghost use Rattle.sm_publish.specs.Dropping.{holders_of, lost_from, IsPruneOf, Prunes};

use crate::committing::drop_all;
use crate::marking::{lost_reason, pruned};
use sm_base::{PolicyKind, Reason, RelNo};
use sm_disk::Disk;
use sm_policy::Policy;
use sm_root::Root;
use sm_transfer::StepFault;
use sm_volume::Volume;
use std::alloc::Global;

fn is_mirror(kind: PolicyKind) -> bool
    ensures { result ≡ is_mirror kind }
{
    match kind {
        PolicyKind::AsyncMirror => true,
        PolicyKind::Vault => false,
    }
}

// Whether a mirror's destination has snapshots with block numbers of another family than the source's.
pub(crate) fn has_other_family(policy: &Policy, source: &Root, destination: &Root) -> bool
    ensures { result ≡ (is_mirror policy.now.kind && not (is_empty destination.now.snapshots) && not (source.now.family == destination.now.family)) }
{
    is_mirror(policy.kind())
        && !destination.snapshots.as_slice().is_empty()
        && source.family != destination.family
}

fn layout_reason(policy: &Policy, source: &Root, destination: &Root) -> Option<Reason>
    ensures { result ≡ reason_if (is_mirror policy.now.kind && not (is_empty destination.now.snapshots) && not (source.now.family == destination.now.family)) reasons.OtherLayout None }
{
    if has_other_family(policy, source, destination) {
        Some(Reason::OtherLayout)
    } else {
        None
    }
}

fn prune_reason(
    policy: &Policy,
    holders: &[Option<RelNo>],
    source: &Root,
    destination: &Root,
) -> Option<Reason>
    requires { length holders.now ≡ length destination.now.snapshots }
    ensures { (who : PlainIdent → Option Relationship) (n : PlainNumber) (s d : Plain) → IsRootOf source.now s → destination.now ≡ root_of n d → holders.now ≡ holders_of who d.snapshots →
        result ≡ held_reason (first_held who (lost_from s.snapshots d.snapshots)) (reason_if (is_mirror policy.now.kind && not (is_empty d.snapshots) && not (s.family == d.family)) reasons.OtherLayout None) }
{
    match lost_reason(
        holders,
        source.snapshots.as_slice(),
        destination.snapshots.as_slice(),
    ) {
        Some(reason) => Some(reason),
        None => layout_reason(policy, source, destination),
    }
}

/// Lets go what a mirror's destination is not to have: snapshots that nobody needs and that are missing on the source
/// or that the policy does not keep in step. There is one commit if any goes, and the answer is how many went. `source`
/// is the source's root, and `holders` tells of each snapshot of the destination, in their order, the lowest
/// relationship that needs it there, if there is one.
///
/// # Errors
///
/// - [`StepFault::Stopped`] with [`Reason::HeldDownstream`] where a snapshot that is needed is not on the source, the
///   first such is named; else with [`Reason::OtherLayout`] where the destination of a mirror has snapshots and another
///   family than the source.
/// - [`StepFault::DiskFault`] with the destination where its disk failed; whether the snapshots went a restart tells.
/// - [`StepFault::NoMemory`] where memory is wanted; the destination is then as it was.
pub fn prune<D: Disk>(
    alloc: Global,
    policy: &Policy,
    holders: &[Option<RelNo>],
    source: &Root,
    destination: &mut Volume<D>,
) -> Result<u32, StepFault>
    requires up { destination.old.up ≡ true }
    requires places { length holders.now ≡ length destination.old.volume.snapshots }

    ensures { (w : Up) (x : Running) → IsPruneOf w x policy.now holders.now source.now destination.old.volume → Prunes D.state w x result destination.old destination.new }
{
    destination.told();
    let root = destination.root();
    match prune_reason(policy, holders, source, root) {
        Some(reason) => Err(StepFault::Stopped(reason)),
        None => match pruned(
            alloc,
            policy,
            holders,
            source.snapshots.as_slice(),
            root.snapshots.as_slice(),
        ) {
            Err(_) => Err(StepFault::NoMemory),
            Ok(drops) => drop_all(alloc, &drops, destination),
        },
    }
}
