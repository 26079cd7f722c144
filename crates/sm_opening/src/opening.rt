// A node is opened.
ghost use Rattle.std.specs.Prelude.{◌≡◌, ◌≤◌, [], length, IfOk, IfErr, vec_capacity};
ghost use Rattle.sm_opening.specs.Looked.{disks_of, AllTold, EachMoves, IsKeptOn, IsLookedAt, IsDamageOf, AnswersDamage, IsFaultCounted};
ghost use Rattle.sm_opening.specs.OnDisk.{Damage, IsDamage};
ghost use Rattle.sm_opening.specs.Judged.{IsNoDiskFault};
ghost use Rattle.sm_opening.specs.Opening.{IsReadyOn, Opens, without_disks};

use crate::fault::OpenFault;
use crate::looking::look;
use crate::records::{Records, volumes_of};
use crate::seating::seat;
use crate::syncing::sync_all;
use sm_disk::Disk;
use sm_node::{Node, Seat};
use std::alloc::Global;

// What a node is made of, with the room that it needs.
#[derive(Drop)]
struct Parts<D: Disk + Drop> {
    records: Records,
    lengths: Vec<u64>,
    spares: Vec<Option<D>>,
    seats: Vec<Seat<D>>,
}

// Reads the records, takes the memory that the node needs, and then puts onto the media what was written.
fn prepare<D: Disk + Drop>(alloc: Global, disks: &mut [D]) -> Result<Parts<D>, OpenFault>
    ensures moves { EachMoves D.state IsKeptOn disks.old disks.new }
    ensures quiet { IfErr result (λ e. IsNoDiskFault e → EachMoves D.state IsLookedAt disks.old disks.new) }
    ensures counted { IfErr result (IsFaultCounted D.state disks.old disks.new) }
    ensures faults { IfErr result (λ e. AllTold D.state disks.old → IsDamageOf (IsDamage (disks_of D.state disks.old)) e) }
    ensures exact { AllTold D.state disks.old → (f : Damage) → IsDamage (disks_of D.state disks.old) f → AnswersDamage f result }
    ensures ready { IfOk result (λ p. IsReadyOn D.state disks.old disks.new p.lengths.items p.records) }
    ensures no_spares { IfOk result (λ p. p.spares.items ≡ []) }
    ensures spares_room { IfOk result (λ p. length disks.new ≤ vec_capacity p.spares) }
    ensures no_seats { IfOk result (λ p. p.seats.items ≡ []) }
    ensures seats_room { IfOk result (λ p. length p.records.founds ≤ vec_capacity p.seats) }
{
    let (records, lengths): (Records, Vec<u64>) = match look(alloc, disks) {
        Ok(found) => found,
        Err(fault) => return Err(fault),
    };
    let Ok(spares) = Vec::with_capacity(alloc, disks.len()) else {
        return Err(OpenFault::NoMemory);
    };
    let Ok(seats) = Vec::with_capacity(alloc, records.founds().len()) else {
        return Err(OpenFault::NoMemory);
    };
    match sync_all(disks, volumes_of(records.catalog())) {
        Ok(()) => Ok(Parts {
            records,
            lengths,
            spares,
            seats,
        }),
        Err(fault) => Err(fault),
    }
}

/// Opens the node whose disks these are, each at the place of its number: disk 0 has the catalogue, or is
/// blank for a node on which nothing was created. What was written before is put onto the media, once
/// nothing else can refuse.
///
/// # Errors
///
/// The disks come back, each in its place. [`OpenFault::Unopened`] with the disk and the kind of the first
/// fault: disk 0, the volumes by number, the relationships by number, the shape of the whole; where the
/// disks tell their content it comes exactly there, but for a failure of a disk and want of memory. No disk
/// is changed then. [`OpenKind::Fault`](sm_model::OpenKind::Fault) only where that disk's count of faults
/// rose in this call; no disk reads otherwise then, and a restart may leave nothing new.
pub fn open<D: Disk + Drop>(alloc: Global, disks: Vec<D>) -> Result<Node<D>, (Vec<D>, OpenFault)>
    ensures opens { IfOk result (λ n. Opens D.state disks.items n) }
    ensures moves { IfErr result (λ e. EachMoves D.state IsKeptOn disks.items e.0.items) }
    ensures quiet { IfErr result (λ e. IsNoDiskFault e.1 → EachMoves D.state IsLookedAt disks.items e.0.items) }
    ensures counted { IfErr result (λ e. IsFaultCounted D.state disks.items e.0.items e.1) }
    ensures faults { IfErr result (λ e. AllTold D.state disks.items → IsDamageOf (IsDamage (disks_of D.state disks.items)) e.1) }
    ensures exact { AllTold D.state disks.items → (f : Damage) → IsDamage (disks_of D.state disks.items) f → AnswersDamage f (without_disks result) }
{
    let mut disks = disks;
    match prepare(alloc, &mut disks) {
        Ok(parts) => Ok(seat(
            disks,
            parts.spares,
            parts.seats,
            parts.lengths,
            parts.records.catalog,
            parts.records.founds,
        )),
        Err(fault) => Err((disks, fault)),
    }
}
