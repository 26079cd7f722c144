// A client's snapshot of one of the volumes.
ghost use Rattle.std.specs.Prelude.{◌≡◌, ◌<◌, ◌≤◌, true, false, length, Some, slice_get};
ghost use Rattle.sm_base.specs.declared.limits.TheConstants.{MOST_VOLUMES};
ghost use Rattle.sm_defs.specs.Volume.{has};
ghost use Rattle.sm_model.specs.OfVolumes.{client_ident};
ghost use Rattle.sm_model.specs.OfVolumes as answers;
ghost use Rattle.sm_model.specs.declared.reply.Reply.TheVariants as replies;
ghost use Rattle.sm_volume.specs.Kept.{IsKept};
ghost use Rattle.sm_volume.specs.Assigned.{snapped};
ghost use Rattle.sm_volume.specs.Refusals.{snapshot_refusal};
ghost use Rattle.sm_node.specs.Seats.{Seated, AllUp};
ghost use Rattle.sm_node.specs.Nodes.{world_of, IsUp};
ghost use Rattle.sm_node.specs.Moves.{MovesOne, IsCommitCall};
ghost use Rattle.sm_node.specs.Acts.{Acts};
ghost use Rattle.sm_node.specs.Snapping.{IdentsAreNew};

use crate::answering::answer_of;
use crate::clock::clock_of;
use crate::fault::NodeFault;
use crate::node::Node;
use crate::seat::Seat;
use sm_base::{DiskNo, Ident, Label, Path, SnapName};
use sm_disk::Disk;
use sm_model::{Reply, copy_label};
use sm_volume::Volume;
use std::alloc::Global;

// The identity of the next snapshot that a client takes of the volume at a place.
fn next_ident<D: Disk>(seats: &[Seat<D>], at: usize) -> Ident
    requires place { at < length seats.now }
    requires few { length seats.now ≤ MOST_VOLUMES }
    ensures { (s : Seated D) → slice_get seats.now at ≡ Some s → result ≡ client_ident at s.volume.volume }
{
    let seat = &seats[at];
    seat.volume.told();
    Ident {
        origin: at as u32,
        seq: 2 * seat.volume.root().next,
    }
}

// A snapshot of a volume, which lies on this disk.
fn snap_on<D: Disk>(
    alloc: Global,
    volume: &mut Volume<D>,
    disk: DiskNo,
    ident: Ident,
    name: SnapName,
    label: Option<Label>,
    time: u64,
) -> Result<Reply, NodeFault>
    requires up { volume.old.up ≡ true }
    requires new { has volume.old.volume.snapshots ident ≡ false }

    ensures call { IsCommitCall D.state (replies.Snapped ident) disk (λ v. snapshot_refusal v ident name)
        (λ v. snapped v (record { ident = ident; name = name; label = label; time = time; made = 0 })) result volume.old volume.new }
    ensures kept { IsKept D.state volume.new }
{
    let done = volume.snapshot(alloc, ident, name, label, time, 0);
    volume.told();
    match done {
        Ok(()) => Ok(Reply::Snapped { ident }),
        Err(fault) => answer_of(fault, disk, volume.faults()),
    }
}

// A snapshot of the volume at a place, which lies on this disk.
fn snap_at<D: Disk>(
    alloc: Global,
    seats: &mut [Seat<D>],
    at: usize,
    disk: DiskNo,
    ident: Ident,
    name: SnapName,
    label: Option<Label>,
    time: u64,
) -> Result<Reply, NodeFault>
    requires place { at < length seats.old }
    requires up { AllUp seats.old }
    requires new { (s : Seated D) → slice_get seats.old at ≡ Some s → has s.volume.volume.snapshots ident ≡ false }

    ensures { MovesOne D.state at (IsCommitCall D.state (replies.Snapped ident) disk (λ v. snapshot_refusal v ident name)
        (λ v. snapped v (record { ident = ident; name = name; label = label; time = time; made = 0 })) result) seats.old seats.new }
{
    let seat = &mut seats[at];
    snap_on(alloc, &mut seat.volume, disk, ident, name, label, time)
}

impl<D: Disk + Drop> Node<D> {
    /// A client takes a snapshot, at a consistency point. The identity that it gets has to be new on the volume.
    pub fn snap(
        &mut self,
        alloc: Global,
        path: &Path,
        name: &SnapName,
        label: &Option<Label>,
    ) -> Result<Reply, NodeFault>
        requires up { IsUp self.old }
        requires new { IdentsAreNew (world_of self.old) }

        ensures acts { Acts D.state (answers.snap (world_of self.old) path.now name.now label.now) self.old result self.new }
        ensures spares { self.new.spares ≡ self.old.spares }
    {
        self.told_up();
        match self.named(alloc, path)? {
            Err(refusal) => Ok(Reply::Refused(refusal)),
            Ok(found) => {
                let name = name.copy(alloc)?;
                let label = copy_label(alloc, label)?;
                let time = clock_of(self.catalog());
                let ident = next_ident(&self.seats, found.at);
                snap_at(
                    alloc,
                    &mut self.seats,
                    found.at,
                    found.disk,
                    ident,
                    name,
                    label,
                    time,
                )
            }
        }
    }
}
