// A volume is made on a disk that holds nothing.
ghost use Rattle.std.specs.Prelude.{◌≡◌, ◌==◌, ◌<◌, ◌≤◌, ℕ, length, slice_get, slice_set, List, Some, IfOk, IfErr, OnOk, vec_len, vec_capacity};
ghost use Rattle.std.specs.List.{list_any};
ghost use Rattle.std.specs.Str.{bytes_eq};
ghost use Rattle.sm_base.specs.declared.limits.TheConstants.{MOST_LOGICAL, MOST_PHYSICAL, MOST_VOLUMES};
ghost use Rattle.sm_defs.specs.Volume.{length_needed};
ghost use Rattle.sm_model.specs.InRange.{IsCreation};
ghost use Rattle.sm_model.specs.OfVolumes as answers;
ghost use Rattle.sm_node.specs.Nodes.{world_of, IsUp};
ghost use Rattle.sm_node.specs.Acts.{Acts};
ghost use Rattle.sm_node.specs.Creating.{creation_test, created, with_place, IsAtHand, Takes, IsMade, IsUnmade};

use crate::committing::commit_as;
use crate::fault::NodeFault;
use crate::node::Node;
use crate::seat::Seat;
use sm_base::limits::{BLOCKS_START, MOST_VOLUMES};
use sm_base::{DiskNo, Kind, NoMemory, Path, Refusal, VolNo, What};
use sm_catroot::{Catalog, Placed};
use sm_disk::Disk;
use sm_model::Reply;
use sm_register::Ready;
use sm_volume::{Volume, VolumeFault};
use std::alloc::Global;

fn is_path_taken(volumes: &[Placed], path: &[u8]) -> bool
    ensures { result ≡ list_any (λ p. bytes_eq p.path path.now) volumes.now }
{
    volumes.iter().any(|placed| placed.path.text() == path)
}

fn is_disk_taken(volumes: &[Placed], disk: u32) -> bool
    ensures { result ≡ list_any (λ p. p.disk.0 == disk) volumes.now }
{
    volumes.iter().any(|placed| placed.disk.0 == disk)
}

fn length_of(lengths: &[u64], disk: u32) -> Option<u64>
    ensures { result ≡ slice_get lengths.now disk }
{
    lengths.get(disk as usize).copied()
}

// How long a disk has to be for so many physical blocks, in bytes.
fn length_for(physical: u32) -> u64
    ensures { result ≡ length_needed physical }
{
    BLOCKS_START + 4_096 * u64::from(physical)
}

// Whether a volume of this path, on this disk and with this many physical blocks may be made.
#[tactic(auto, unfolding(sm_model::specs::Answers::and_then, sm_model::specs::Answers::refused_if, sm_model::specs::Answers::some_or))]
fn may_create(
    volumes: &[Placed],
    lengths: &[u64],
    path: &[u8],
    disk: DiskNo,
    physical: u32,
) -> Result<(), Refusal>
    ensures { result ≡ creation_test volumes.now lengths.now path.now disk physical }
{
    if is_path_taken(volumes, path) {
        return Err(Refusal::NameTaken);
    }
    if disk.0 == 0 {
        return Err(Refusal::NoDisk { disk });
    }
    let Some(len) = length_of(lengths, disk.0) else {
        return Err(Refusal::NoDisk { disk });
    };
    if is_disk_taken(volumes, disk.0) {
        return Err(Refusal::DiskTaken);
    }
    if volumes.len() == MOST_VOLUMES {
        return Err(Refusal::Full {
            what: What::Volumes,
        });
    }
    let need = length_for(physical);
    if len < need {
        return Err(Refusal::DiskSmall { need, len });
    }
    Ok(())
}

// The same by the catalogue.
fn may_create_by(
    catalog: &Catalog,
    lengths: &[u64],
    path: &Path,
    disk: DiskNo,
    physical: u32,
) -> Result<(), Refusal>
    ensures { result ≡ creation_test catalog.now.volumes lengths.now path.now disk physical }
{
    may_create(&catalog.volumes, lengths, path.text(), disk, physical)
}

// The catalogue with one more volume.
fn with_place(
    alloc: Global,
    catalog: &Catalog,
    path: &Path,
    disk: DiskNo,
) -> Result<Catalog, NoMemory>
    ensures { IfOk result (λ next. next ≡ with_place catalog.now path.now disk) }
{
    let mut next = catalog.copy(alloc)?;
    next.volumes.push(Placed {
        path: path.copy(alloc)?,
        disk,
    })?;
    Ok(next)
}

// Takes a disk from its place.
fn take_spare<D: Disk>(spares: &mut [Option<D>], disk: DiskNo) -> D
    requires there { IsAtHand spares.old disk.0 }
    requires within { disk.0 < length spares.old }
    ensures { Takes spares.old disk.0 result spares.new }
{
    match spares[disk.0 as usize].take() {
        Some(device) => device,
        None => unreachable!(),
    }
}

// Puts a disk back to its place.
fn put_back<D: Disk + Drop>(spares: &mut [Option<D>], disk: DiskNo, device: D)
    requires { disk.0 < length spares.old }
    ensures { spares.new ≡ slice_set spares.old disk.0 (Some device) }
{
    spares[disk.0 as usize] = Some(device);
}

// Room for one more volume.
fn reserve_seat<D: Disk>(seats: &mut Vec<Seat<D>>) -> Result<(), NoMemory>
    ensures same { seats.new.items ≡ seats.old.items }
    ensures room { OnOk result (vec_len seats.new < vec_capacity seats.new) }
{
    seats.reserve(1)?;
    Ok(())
}

// Makes a volume on a device that is long enough, the disk of this number.
fn make_on<D: Disk>(
    alloc: Global,
    device: D,
    disk: DiskNo,
    number: u32,
    kind: Kind,
    logical: u32,
    physical: u32,
) -> Result<Volume<D>, (D, NodeFault)>
    requires some { 1 ≤ logical }
    requires few { logical ≤ MOST_LOGICAL }
    requires room { logical ≤ physical }
    requires places { physical ≤ MOST_PHYSICAL }
    requires long { length_needed physical ≤ (D.state device).size }

    ensures made { IfOk result (λ m. IsMade D.state device number kind logical physical m) }
    ensures unmade { IfErr result (λ e. IsUnmade D.state device disk e.0 e.1) }
{
    match Volume::create(alloc, device, VolNo(number), kind, logical, physical) {
        Ok(volume) => {
            volume.told();
            Ok(volume)
        }
        Err((device, VolumeFault::DiskFault)) => {
            let faults = device.faults();
            Err((device, NodeFault::Down { disk, faults }))
        }
        Err((device, _)) => Err((device, NodeFault::NoMemory)),
    }
}

impl<D: Disk + Drop> Node<D> {
    // Makes a volume on a disk at hand, and then commits the catalogue that names it. The room of the volume is taken
    // before the first device is called.
    fn make(
        &mut self,
        alloc: Global,
        next: Ready<Catalog>,
        disk: DiskNo,
        kind: Kind,
        logical: u32,
        physical: u32,
    ) -> Result<Reply, NodeFault>
        requires up { IsUp self.old }
        requires few { length self.old.seats < MOST_VOLUMES }
        requires at_hand { IsAtHand self.old.spares disk.0 }
        requires next { (path : List ℕ) × (next ≡ with_place self.old.root.held path disk) }
        requires long { (len : ℕ) → slice_get self.old.lengths disk.0 ≡ Some len → length_needed physical ≤ len }
        requires some_blocks { 1 ≤ logical }
        requires few_blocks { logical ≤ MOST_LOGICAL }
        requires room { logical ≤ physical }
        requires few_places { physical ≤ MOST_PHYSICAL }

        ensures acts { (path : List ℕ) → next ≡ with_place self.old.root.held path disk → Acts D.state (created (world_of self.old) path disk kind logical physical) self.old result self.new }
    {
        self.told_up();
        let number = self.seats.len() as u32;
        reserve_seat(&mut self.seats)?;
        let device = take_spare(&mut self.spares, disk);
        match make_on(alloc, device, disk, number, kind, logical, physical) {
            Ok(volume) => {
                self.seats.push_reserved(Seat { disk, volume });
                let reply = Reply::Created {
                    volume: VolNo(number),
                };
                commit_as(&mut self.register, next, reply)
            }
            Err((device, fault)) => {
                put_back(&mut self.spares, disk, device);
                Err(fault)
            }
        }
    }

    /// Makes a volume on a disk. Every refusal is decided from memory alone, and all memory is taken before the first
    /// device is called.
    pub fn create(
        &mut self,
        alloc: Global,
        path: &Path,
        disk: DiskNo,
        kind: Kind,
        logical: u32,
        physical: u32,
    ) -> Result<Reply, NodeFault>
        requires up { IsUp self.old }
        requires given { IsCreation path.now disk.0 logical physical }

        ensures acts { Acts D.state (answers.create_volume (world_of self.old) path.now disk kind logical physical) self.old result self.new }
    {
        self.told_up();
        if let Err(refusal) = may_create_by(
            self.register.held(),
            &self.lengths,
            path,
            disk,
            physical,
        ) {
            return Ok(Reply::Refused(refusal));
        }
        let next = with_place(alloc, self.register.held(), path, disk)?;
        let ready = Ready::new(alloc, next)?;
        self.make(alloc, ready, disk, kind, logical, physical)
    }
}
