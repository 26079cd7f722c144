// The lines of volumes and snapshots.
ghost use Rattle.std.specs.Prelude.{◌≡◌, ◌≤◌, length, map, IfOk};
ghost use Rattle.sm_base.specs.declared.limits.TheConstants.{MOST_VOLUMES};
ghost use Rattle.sm_model.specs.OfReport as reports;
ghost use Rattle.sm_node.specs.Nodes.{placed as placed_volume, all_placed, world_of, IsUp};
ghost use Rattle.sm_node.specs.Acts.{Acts};
ghost use Rattle.sm_node.specs.Showing.{listed};

use crate::fault::NodeFault;
use crate::node::Node;
use crate::seat::Seat;
use sm_base::{NoMemory, Path, VolNo};
use sm_catroot::Placed;
use sm_disk::Disk;
use sm_model::{Line, Lines, Reply};
use sm_root::{RootSnapshot, copy_label};
use std::alloc::Global;

fn listed_line(alloc: Global, number: VolNo, snapshot: &RootSnapshot) -> Result<Line, NoMemory>
    ensures { IfOk result (λ line. line ≡ listed number snapshot.now) }
{
    Ok(Line::Listed {
        volume: number,
        name: snapshot.name.copy(alloc)?,
        ident: snapshot.ident,
        label: copy_label(alloc, &snapshot.label)?,
        time: snapshot.time,
        made: snapshot.made,
    })
}

fn listed_lines(
    alloc: Global,
    number: VolNo,
    snapshots: &[RootSnapshot],
) -> Result<Vec<Line>, NoMemory>
    ensures { IfOk result (λ lines. lines.items ≡ map (listed number) snapshots.now) }
{
    let mut lines = Vec::new(alloc);
    for snapshot in snapshots {
        lines.push(listed_line(alloc, number, snapshot)?)?;
    }
    Ok(lines)
}

// The lines of a volume's snapshots, oldest first.
fn snapshot_lines<D: Disk>(
    alloc: Global,
    number: VolNo,
    seat: &Seat<D>,
) -> Result<Vec<Line>, NoMemory>
    ensures { IfOk result (λ lines. lines.items ≡ map (reports.listed_line number) seat.now.volume.volume.snapshots) }
{
    listed_lines(alloc, number, seat.volume.root().snapshots.as_slice())
}

/// The line of a volume. No device is called.
pub fn volume_line<D: Disk>(
    alloc: Global,
    number: VolNo,
    placed: &Placed,
    seat: &Seat<D>,
) -> Result<Line, NoMemory>
    ensures { IfOk result (λ line. line ≡ reports.volume_line number (placed_volume placed.now seat.now.volume)) }
{
    seat.volume.told();
    let root = seat.volume.root();
    Ok(Line::Volume {
        volume: number,
        path: placed.path.copy(alloc)?,
        kind: root.kind,
        blocks: root.logical,
        physical: root.physical,
        used: seat.volume.used(),
        snapshots: root.snapshots.as_slice().len() as u32,
    })
}

// The lines of the volumes, by number.
fn volume_lines<D: Disk>(
    alloc: Global,
    places: &[Placed],
    seats: &[Seat<D>],
) -> Result<Vec<Line>, NoMemory>
    requires few { length places.now ≤ MOST_VOLUMES }
    requires as_many { length places.now ≡ length seats.now }
    ensures { IfOk result (λ lines. lines.items ≡ reports.volume_lines 0 (all_placed places.now seats.now)) }
{
    let mut lines = Vec::new(alloc);
    for at in 0..places.len() {
        let number = VolNo(at as u32);
        lines.push(volume_line(alloc, number, &places[at], &seats[at])?)?;
    }
    Ok(lines)
}

impl<D: Disk + Drop> Node<D> {
    /// The table of the volumes. No device is called.
    pub fn show_volumes(&self, alloc: Global) -> Result<Reply, NodeFault>
        requires up { IsUp self.now }
        ensures { Acts D.state (reports.show_volumes (world_of self.now)) self.now result self.now }
    {
        self.told_up();
        let catalog = self.catalog();
        let lines = volume_lines(alloc, &catalog.volumes, self.seats())?;
        Ok(Reply::Table {
            lines: Lines { lines },
        })
    }

    /// The table of a volume's snapshots, oldest first. No device is called.
    pub fn show_snapshots(&self, alloc: Global, path: &Path) -> Result<Reply, NodeFault>
        requires up { IsUp self.now }
        ensures { Acts D.state (reports.show_snapshots (world_of self.now) path.now) self.now result self.now }
    {
        self.told_up();
        match self.named(alloc, path)? {
            Err(refusal) => Ok(Reply::Refused(refusal)),
            Ok(found) => {
                let number = VolNo(found.at as u32);
                let lines = snapshot_lines(alloc, number, &self.seats()[found.at])?;
                Ok(Reply::Table {
                    lines: Lines { lines },
                })
            }
        }
    }
}
