// A block of a volume is read, or one of its images is digested.
ghost use Rattle.std.specs.Prelude.{◌≡◌, ◌<◌, true, length, Some, slice_get, IfOk, IsSome};
ghost use Rattle.sm_base.specs.declared.numbers.VolNo.{VolNo as PlainNumber};
ghost use Rattle.sm_defs.specs.Volume.{Volume as Plain};
ghost use Rattle.sm_volume.specs.Kept.{IsKept};
ghost use Rattle.sm_volume.specs.Refusals.{image_seen};
ghost use Rattle.sm_volume.specs.Seen.{root_of};
ghost use Rattle.sm_node.specs.Seats.{Seated, AllUp};
ghost use Rattle.sm_node.specs.Moves.{MovesOne};
ghost use Rattle.sm_catroot.specs.declared.placed.Placed.{Placed};
ghost use Rattle.sm_model.specs.OfVolumes as answers;
ghost use Rattle.sm_node.specs.Nodes.{placed, world_of, IsUp};
ghost use Rattle.sm_node.specs.Looking.{with_digest, IsReadCall, IsDigestCall, Looks};
ghost use Rattle.sm_node.specs.Served.{first_of};
ghost use Rattle.sm_node.specs.Viewing.{view_named, view_of_newest};

use crate::answering::answer_of;
use crate::digesting::digest_of;
use crate::fault::NodeFault;
use crate::newest::newest_named;
use crate::node::Node;
use crate::seat::Seat;
use sm_base::{Block, DiskNo, NoMemory, Path, Refusal, SnapName};
use sm_disk::Disk;
use sm_model::{Line, Reply};
use sm_root::Root;
use sm_volume::{View, Volume};
use std::alloc::Global;

fn newest_view(
    alloc: Global,
    root: &Root,
    name: &SnapName,
) -> Result<Result<View, Refusal>, NoMemory>
    ensures { IfOk result (λ answer. (number : PlainNumber) (v : Plain) → root.now ≡ root_of number v → answer ≡ view_of_newest v name.now) }
{
    match newest_named(root, name) {
        None => Ok(Err(Refusal::NoSnapshot {
            name: name.copy(alloc)?,
        })),
        Some(ident) => Ok(Ok(View::Of(ident))),
    }
}

// Which image of a volume is meant by the name, or the refusal.
fn view_of(
    alloc: Global,
    root: &Root,
    name: &Option<SnapName>,
) -> Result<Result<View, Refusal>, NoMemory>
    ensures { IfOk result (λ answer. (number : PlainNumber) (v : Plain) → root.now ≡ root_of number v → answer ≡ view_named v name.now) }
{
    match name {
        None => Ok(Ok(View::Active)),
        Some(name) => newest_view(alloc, root, name),
    }
}

// Reads a block of a volume, which lies on this disk, into the box.
fn read_on<D: Disk>(
    volume: &mut Volume<D>,
    disk: DiskNo,
    view: View,
    place: u32,
    mut block: Box<Block>,
) -> Result<Reply, NodeFault>
    requires up { volume.old.up ≡ true }

    ensures call { IsReadCall D.state disk view place result volume.old volume.new }
    ensures kept { IsKept D.state volume.new }
{
    let done = volume.read(view, place, &mut block);
    volume.told();
    match done {
        Ok(()) => Ok(Reply::Bytes { block }),
        Err(fault) => answer_of(fault, disk, volume.faults()),
    }
}

// Reads a block of the volume at a place, which lies on this disk, into the box.
fn read_at<D: Disk>(
    seats: &mut [Seat<D>],
    at: usize,
    disk: DiskNo,
    view: View,
    place: u32,
    block: Box<Block>,
) -> Result<Reply, NodeFault>
    requires place { at < length seats.old }
    requires up { AllUp seats.old }

    ensures { MovesOne D.state at (IsReadCall D.state disk view place result) seats.old seats.new }
{
    let seat = &mut seats[at];
    read_on(&mut seat.volume, disk, view, place, block)
}

// The line with this digest.
fn digested(line: Line, digest: [u8; 32]) -> Line
    ensures { result ≡ with_digest line digest }
{
    match line {
        Line::Active { volume, .. } => Line::Active { volume, digest },
        Line::Snapshot {
            volume,
            name,
            ident,
            label,
            time,
            made,
            ..
        } => Line::Snapshot {
            volume,
            name,
            ident,
            label,
            time,
            made,
            digest,
        },
        line => line,
    }
}

// Digests an image of a volume, which lies on this disk. The digest goes into the line and its copy, and `block` is
// the room for one block.
fn digest_on<D: Disk>(
    volume: &mut Volume<D>,
    disk: DiskNo,
    view: View,
    lines: (Line, Line),
    block: &mut Block,
) -> Result<(Reply, Reply), NodeFault>
    requires up { volume.old.up ≡ true }
    requires stands { IsSome (image_seen volume.old.volume view) }
    requires copy { lines.1 ≡ lines.0 }

    ensures call { IsDigestCall D.state disk view lines.0 (first_of result) volume.old volume.new }
    ensures twice { IfOk result (λ replies. replies.1 ≡ replies.0) }
    ensures kept { IsKept D.state volume.new }
{
    let (line, copy) = lines;
    let done = digest_of(volume, view, block);
    volume.told();
    match done {
        Ok(digest) => {
            let line = digested(line, digest);
            let copy = digested(copy, digest);
            Ok((Reply::Line { line }, Reply::Line { line: copy }))
        }
        Err(_) => Err(NodeFault::Down {
            disk,
            faults: volume.faults(),
        }),
    }
}

/// Digests an image of the volume at a place, which lies on this disk, into the line and its copy.
pub fn digest_at<D: Disk>(
    seats: &mut [Seat<D>],
    at: usize,
    disk: DiskNo,
    view: View,
    lines: (Line, Line),
    block: &mut Block,
) -> Result<(Reply, Reply), NodeFault>
    requires place { at < length seats.old }
    requires up { AllUp seats.old }
    requires stands { (s : Seated D) → slice_get seats.old at ≡ Some s → IsSome (image_seen s.volume.volume view) }
    requires copy { lines.1 ≡ lines.0 }

    ensures moves { MovesOne D.state at (IsDigestCall D.state disk view lines.0 (first_of result)) seats.old seats.new }
    ensures twice { IfOk result (λ replies. replies.1 ≡ replies.0) }
{
    let seat = &mut seats[at];
    digest_on(&mut seat.volume, disk, view, lines, block)
}

/// A box for a block.
pub fn room_for_block(alloc: Global) -> Result<Box<Block>, NoMemory> {
    Ok(Box::new(alloc, Block([0; 4096]))?)
}

// Which image of the volume at a place is meant by the name, or the refusal.
fn view_at<D: Disk>(
    alloc: Global,
    seats: &[Seat<D>],
    at: usize,
    name: &Option<SnapName>,
) -> Result<Result<View, Refusal>, NoMemory>
    requires { at < length seats.now }
    ensures { IfOk result (λ answer. (p : Placed) (s : Seated D) → slice_get seats.now at ≡ Some s → answer ≡ view_named (placed p s.volume) name.now) }
{
    let seat = &seats[at];
    view_of(alloc, seat.volume.root(), name)
}

impl<D: Disk + Drop> Node<D> {
    /// Reads a block of the active image, or of the newest snapshot of the name. The block's box is taken before
    /// the disk is called.
    pub fn read(
        &mut self,
        alloc: Global,
        path: &Path,
        name: &Option<SnapName>,
        place: u32,
    ) -> Result<Reply, NodeFault>
        requires up { IsUp self.old }

        ensures looks { Looks D.state (answers.read (world_of self.old) path.now name.now place) self.old result self.new }
        ensures spares { self.new.spares ≡ self.old.spares }
    {
        self.told_up();
        match self.named(alloc, path)? {
            Err(refusal) => Ok(Reply::Refused(refusal)),
            Ok(found) => match view_at(alloc, self.seats(), found.at, name)? {
                Err(refusal) => Ok(Reply::Refused(refusal)),
                Ok(view) => {
                    let block = room_for_block(alloc)?;
                    read_at(&mut self.seats, found.at, found.disk, view, place, block)
                }
            },
        }
    }
}
