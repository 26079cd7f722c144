// A client deletes a snapshot of one of the volumes.
ghost use Rattle.std.specs.Prelude.{◌≡◌, ◌<◌, true, List, [], ◌∷◌, ℕ, length, map, Some, slice_get, IfOk};
ghost use Rattle.sm_defs.specs.Volume.{is_rw};
ghost use Rattle.sm_defs.specs.Words.{Ascends};
ghost use Rattle.sm_defs.specs.Operations.{removed};
ghost use Rattle.sm_catroot.specs.Condition.{number_of};
ghost use Rattle.sm_catroot.specs.declared.placed.Placed.{Placed};
ghost use Rattle.sm_model.specs.declared.reply.Reply.TheVariants as replies;
ghost use Rattle.sm_volume.specs.Kept.{IsKept};
ghost use Rattle.sm_volume.specs.Refusals.{remove_refusal};
ghost use Rattle.sm_node.specs.Seats.{Seated, AllUp};
ghost use Rattle.sm_model.specs.OfVolumes as answers;
ghost use Rattle.sm_node.specs.Nodes.{placed, world_with, world_of, IsUp};
ghost use Rattle.sm_node.specs.Acts.{Acts};
ghost use Rattle.sm_node.specs.Moves.{MovesOne, IsCommitCall};
ghost use Rattle.sm_node.specs.Removing.{removal};

use crate::answering::answer_of;
use crate::fault::NodeFault;
use crate::holding::holder;
use crate::newest::newest_named;
use crate::node::Node;
use crate::seat::Seat;
use sm_base::{DiskNo, Ident, Kind, NoMemory, Path, Refusal, SnapName, VolNo};
use sm_catroot::Catalog;
use sm_disk::Disk;
use sm_model::Reply;
use sm_volume::Volume;
use std::alloc::Global;

fn is_writable(kind: Kind) -> bool
    ensures { result ≡ is_rw kind }
{
    match kind {
        Kind::Rw => true,
        Kind::Dp => false,
    }
}

// Which snapshot of the volume at a place is meant by the name and may be deleted, or the refusal.
fn may_remove<D: Disk>(
    alloc: Global,
    catalog: &Catalog,
    seats: &[Seat<D>],
    at: VolNo,
    name: &SnapName,
) -> Result<Result<Ident, Refusal>, NoMemory>
    requires ascending { Ascends (map number_of catalog.now.relations) }
    requires places { length catalog.now.volumes ≡ length seats.now }
    requires place { at.0 < length seats.now }
    ensures { IfOk result (λ answer. (lengths : List ℕ) (p : Placed) (s : Seated D) → slice_get seats.now at.0 ≡ Some s → answer ≡ removal (world_with catalog.now seats.now lengths) at.0 (placed p s.volume) name.now) }
{
    let seat = &seats[at.0 as usize];
    let root = seat.volume.root();
    match newest_named(root, name) {
        None => Ok(Err(Refusal::NoSnapshot {
            name: name.copy(alloc)?,
        })),
        Some(ident) => {
            if !is_writable(root.kind) {
                return Ok(Err(Refusal::ReadOnly));
            }
            match holder(alloc, catalog, seats, at, ident)? {
                None => Ok(Ok(ident)),
                Some(relation) => Ok(Err(Refusal::Held { relation })),
            }
        }
    }
}

// Deletes a snapshot of a volume, which lies on this disk.
fn remove_on<D: Disk>(
    alloc: Global,
    volume: &mut Volume<D>,
    disk: DiskNo,
    ident: Ident,
) -> Result<Reply, NodeFault>
    requires up { volume.old.up ≡ true }

    ensures call { IsCommitCall D.state replies.Done disk (λ v. remove_refusal v (ident ∷ [])) (λ v. removed v (ident ∷ [])) result volume.old volume.new }
    ensures kept { IsKept D.state volume.new }
{
    let done = volume.remove(alloc, &[ident]);
    volume.told();
    match done {
        Ok(()) => Ok(Reply::Done),
        Err(fault) => answer_of(fault, disk, volume.faults()),
    }
}

// Deletes a snapshot of the volume at a place, which lies on this disk.
fn remove_at<D: Disk>(
    alloc: Global,
    seats: &mut [Seat<D>],
    at: usize,
    disk: DiskNo,
    ident: Ident,
) -> Result<Reply, NodeFault>
    requires place { at < length seats.old }
    requires up { AllUp seats.old }

    ensures { MovesOne D.state at (IsCommitCall D.state replies.Done disk (λ v. remove_refusal v (ident ∷ [])) (λ v. removed v (ident ∷ [])) result) seats.old seats.new }
{
    let seat = &mut seats[at];
    remove_on(alloc, &mut seat.volume, disk, ident)
}

impl<D: Disk + Drop> Node<D> {
    /// A client deletes the newest snapshot of the name, which no relationship needs.
    pub fn unsnap(
        &mut self,
        alloc: Global,
        path: &Path,
        name: &SnapName,
    ) -> Result<Reply, NodeFault>
        requires up { IsUp self.old }

        ensures acts { Acts D.state (answers.unsnap (world_of self.old) path.now name.now) self.old result self.new }
        ensures spares { self.new.spares ≡ self.old.spares }
    {
        self.told_up();
        match self.named(alloc, path)? {
            Err(refusal) => Ok(Reply::Refused(refusal)),
            Ok(found) => {
                let number = VolNo(found.at as u32);
                match may_remove(alloc, self.catalog(), self.seats(), number, name)? {
                    Err(refusal) => Ok(Reply::Refused(refusal)),
                    Ok(ident) => { remove_at(alloc, &mut self.seats, found.at, found.disk, ident) }
                }
            }
        }
    }
}
