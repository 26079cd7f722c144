// The report's line on an image.
ghost use Rattle.std.specs.Prelude.{◌≡◌, ◌<◌, length, Some, slice_get, IfOk};
ghost use Rattle.sm_base.specs.declared.numbers.VolNo.{VolNo as PlainNumber};
ghost use Rattle.sm_catroot.specs.declared.placed.Placed.{Placed};
ghost use Rattle.sm_defs.specs.Volume.{Volume as Plain, ident_of};
ghost use Rattle.sm_defs.specs.Words.{KeysDiffer};
ghost use Rattle.sm_defs.specs.World.{volume_at};
ghost use Rattle.sm_model.specs.InRange.{IsPlace};
ghost use Rattle.sm_model.specs.OfReport as reports;
ghost use Rattle.sm_model.specs.Telling.{told_by};
ghost use Rattle.sm_volume.specs.Seen.{root_of};
ghost use Rattle.sm_node.specs.Nodes.{world_of, IsUp};
ghost use Rattle.sm_node.specs.Looking.{IsImageLine, Looks, view_at_place};
ghost use Rattle.sm_node.specs.Served.{first_of};

use crate::fault::NodeFault;
use crate::node::Node;
use crate::reading::{digest_at, room_for_block};
use sm_base::{DiskNo, NoMemory, VolNo};
use sm_catroot::Catalog;
use sm_disk::Disk;
use sm_model::{Line, Reply};
use sm_root::{Root, copy_label};
use sm_volume::View;
use std::alloc::Global;

// How the image at a place is read.
fn image_view(root: &Root, place: Option<u32>) -> View
    requires { IsPlace (length root.now.snapshots) place }
    ensures { (number : PlainNumber) (v : Plain) → root.now ≡ root_of number v → result ≡ view_at_place v place }
{
    match place {
        None => View::Active,
        Some(place) => {
            let snapshot = &root.snapshots.as_slice()[place as usize];
            View::Of(snapshot.ident)
        }
    }
}

// The line of the image at a place, with a blank digest.
fn image_line(
    alloc: Global,
    number: VolNo,
    root: &Root,
    place: Option<u32>,
) -> Result<Line, NoMemory>
    requires { IsPlace (length root.now.snapshots) place }
    ensures { IfOk result (λ line. (n : PlainNumber) (v : Plain) → root.now ≡ root_of n v → KeysDiffer ident_of v.snapshots → IsImageLine number v place (view_at_place v place) line) }
{
    match place {
        None => Ok(Line::Active {
            volume: number,
            digest: [0; 32],
        }),
        Some(place) => {
            let snapshot = &root.snapshots.as_slice()[place as usize];
            Ok(Line::Snapshot {
                volume: number,
                name: snapshot.name.copy(alloc)?,
                ident: snapshot.ident,
                label: copy_label(alloc, &snapshot.label)?,
                time: snapshot.time,
                made: snapshot.made,
                digest: [0; 32],
            })
        }
    }
}

fn disk_of(catalog: &Catalog, at: usize) -> DiskNo
    requires { at < length catalog.now.volumes }
    ensures { (p : Placed) × (slice_get catalog.now.volumes at ≡ Some p) × (result ≡ p.disk) }
{
    let placed = &catalog.volumes[at];
    placed.disk
}

impl<D: Disk + Drop> Node<D> {
    /// The report's line on the active image of a volume, or on the snapshot at a place of its list, twice. All memory
    /// is taken before the disk is called.
    pub fn report_digest(
        &mut self,
        alloc: Global,
        number: VolNo,
        place: Option<u32>,
    ) -> Result<(Reply, Reply), NodeFault>
        requires up { IsUp self.old }
        requires there { number.0 < length (world_of self.old).volumes }
        requires place { IsPlace (length (volume_at (world_of self.old) number.0).snapshots) place }

        ensures looks { Looks D.state (reports.of_image (world_of self.old) number place) self.old (first_of result) self.new }
        ensures twice { IfOk result (λ replies. told_by replies.1 ≡ told_by replies.0) }
        ensures spares { self.new.spares ≡ self.old.spares }
    {
        self.told_up();
        let at = number.0 as usize;
        let mut block = room_for_block(alloc)?;
        let seat = &self.seats()[at];
        let root = seat.volume.root();
        let line = image_line(alloc, number, root, place)?;
        let copy = line.copy(alloc)?;
        let view = image_view(root, place);
        let disk = disk_of(self.catalog(), at);
        digest_at(&mut self.seats, at, disk, view, (line, copy), &mut block)
    }
}
