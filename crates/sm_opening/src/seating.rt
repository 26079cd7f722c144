// Each disk is taken to its place in the node.
ghost use Rattle.std.specs.Prelude.{◌≡◌, ◌≤◌, ◌<◌, [], map, length, None, Some, slice_get, slice_set, vec_capacity};
ghost use Rattle.sm_base.specs.declared.limits.TheConstants.{MOST_VOLUMES};
ghost use Rattle.sm_volume.specs.Kept.{IsKept};
ghost use Rattle.sm_opening.specs.Looked.{size_of};
ghost use Rattle.sm_opening.specs.Finding.{IsCatalogFound, AreVolumesFound, LieApart};
ghost use Rattle.sm_opening.specs.Syncing.{AllSynced};
ghost use Rattle.sm_opening.specs.Seating.{IsSeatFrom, IsReady, AreReady, AreSeated, IsMadeOf};

use sm_base::DiskNo;
use sm_catroot::{Catalog, Placed};
use sm_disk::Disk;
use sm_node::{Node, Seat};
use sm_register::{Found as FoundCatalog, Register};
use sm_volume::Volume;
use volume_store::Found;

// Moves all disks to the places of their numbers.
fn spare_all<D: Disk + Drop>(disks: &mut Vec<D>, spares: &mut Vec<Option<D>>)
    requires empty { spares.old.items ≡ [] }
    requires room { length disks.old.items ≤ vec_capacity spares.old }

    ensures spares { spares.new.items ≡ map Some disks.old.items }
    ensures empty { disks.new.items ≡ [] }
    ensures capacity { vec_capacity disks.new ≡ vec_capacity disks.old }
{
    for disk in disks.drain(..) {
        spares.push_reserved(Some(disk));
    }
}

// The disk of a number, which is there.
fn take<D: Disk + Drop>(spares: &mut [Option<D>], number: usize) -> D
    requires place { number < length spares.old }
    requires there { (d : _) × (slice_get spares.old number ≡ Some (Some d)) }
    ensures taken { slice_get spares.old number ≡ Some (Some result) }
    ensures left { spares.new ≡ slice_set spares.old number None }
{
    let Some(disk) = spares[number].take() else {
        unreachable!()
    };
    disk
}

// Takes the disk of a number to the volume that was found there.
fn seat_on<D: Disk + Drop>(spares: &mut [Option<D>], disk: DiskNo, found: Found) -> Seat<D>
    requires place { disk.0 < length spares.old }
    requires ready { (place : _) × IsReady D.state spares.old place disk.0 found }
    ensures seat { IsSeatFrom D.state spares.old disk.0 found result }
    ensures kept { IsKept D.state result.volume }
    ensures left { spares.new ≡ slice_set spares.old disk.0 None }
{
    let volume = Volume::start(take(spares, disk.0 as usize), found);
    volume.told();
    Seat { disk, volume }
}

// Seats the volumes in the order of their numbers.
fn seat_volumes<D: Disk + Drop>(
    spares: &mut [Option<D>],
    seats: &mut Vec<Seat<D>>,
    placed: &[Placed],
    founds: Vec<Found>,
)
    requires empty { seats.old.items ≡ [] }
    requires room { length founds.items ≤ vec_capacity seats.old }
    requires as_many { length founds.items ≡ length placed.now }
    requires apart { LieApart (length spares.old) placed.now }
    requires ready { AreReady D.state placed.now founds.items spares.old }

    ensures { AreSeated D.state placed.now founds.items (length founds.items) spares.old spares.new seats.new.items }
{
    for found in founds {
        let disk = placed[seats.len()].disk;
        seats.push_reserved(seat_on(spares, disk, found));
    }
}

/// Makes a node of what was found on its disks: disk 0 has the catalogue, each volume lies on the disk
/// that the catalogue says, and the others hold nothing. No device is called, and no memory is taken:
/// `spares` and `seats` are empty, with room for the disks and for the volumes.
pub fn seat<D: Disk + Drop>(
    mut disks: Vec<D>,
    mut spares: Vec<Option<D>>,
    mut seats: Vec<Seat<D>>,
    lengths: Vec<u64>,
    catalog: FoundCatalog<Catalog>,
    founds: Vec<Found>,
) -> Node<D>
    requires no_spares { spares.items ≡ [] }
    requires spares_room { length disks.items ≤ vec_capacity spares }
    requires no_seats { seats.items ≡ [] }
    requires seats_room { length founds.items ≤ vec_capacity seats }
    requires apart { LieApart (length disks.items) catalog.value.volumes }
    requires few { length catalog.value.volumes ≤ MOST_VOLUMES }
    requires lengths { lengths.items ≡ map (size_of D.state) disks.items }
    requires catalog { IsCatalogFound D.state disks.items catalog }
    requires volumes { AreVolumesFound D.state catalog.value.volumes disks.items founds.items }
    requires synced { AllSynced D.state catalog.value.volumes disks.items }

    ensures { IsMadeOf D.state disks.items lengths.items catalog founds.items result }
{
    spare_all(&mut disks, &mut spares);
    let register = Register::start(take(&mut spares, 0), catalog);
    seat_volumes(&mut spares, &mut seats, &register.held().volumes, founds);
    Node::new(register, seats, spares, lengths, disks)
}
