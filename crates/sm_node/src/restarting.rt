// The disks of a node are restarted in turn. No memory is taken.
ghost use Rattle.std.specs.Prelude.{◌≡◌, ◌<◌, length, IfSome, OnOk, IfErr};
ghost use Rattle.sm_disk.specs.Disk.{IsSynced};
ghost use Rattle.sm_register.specs.Turned.{joined};
ghost use Rattle.sm_node.specs.Turning.{SeatTurns, OneTurns, InTurn, AllBack, VolumeFailed, SpareTurns, SparesTurn, SparesSynced};

use crate::seat::Seat;
use sm_base::{DiskNo, Side};
use sm_disk::Disk;

/// The side of some restarts, of which one more was read.
pub fn join(side: Side, read: Side) -> Side
    ensures { result ≡ joined side read }
{
    match side {
        Side::Before => read,
        Side::After => Side::After,
    }
}

// Restarts the disk of a volume.
fn restart_seat<D: Disk>(seat: &mut Seat<D>, side: &mut Side) -> Result<(), (DiskNo, u64)>
    ensures { SeatTurns D.state side.old seat.old result side.new seat.new }
{
    let volume = &mut seat.volume;
    let done = volume.restart();
    volume.told();
    let Ok(read) = done else {
        return Err((seat.disk, volume.faults()));
    };
    *side = join(*side, read);
    Ok(())
}

// The same of the volume at a place.
fn restart_at<D: Disk>(
    seats: &mut [Seat<D>],
    at: usize,
    side: &mut Side,
) -> Result<(), (DiskNo, u64)>
    requires place { at < length seats.old }
    ensures { OneTurns D.state at side.old seats.old result side.new seats.new }
{
    restart_seat(&mut seats[at], side)
}

/// Restarts the disks of the volumes in turn, and adds the sides that they tell.
///
/// # Errors
///
/// The number of the first disk that failed, and its count of faults. Those behind it are left alone.
pub fn restart_seats<D: Disk>(seats: &mut [Seat<D>], side: &mut Side) -> Result<(), (DiskNo, u64)>
    ensures turns { InTurn D.state seats.old side.old seats.new side.new }
    ensures back { OnOk result (AllBack D.state seats.new) }
    ensures failed { IfErr result (λ e. VolumeFailed D.state seats.old e.0 e.1 seats.new) }
{
    for at in 0..seats.len() {
        match restart_at(seats, at, side) {
            Ok(()) => (),
            Err(failed) => return Err(failed),
        }
    }
    Ok(())
}

fn restart_spare<D: Disk>(spare: &mut Option<D>)
    ensures turns { SpareTurns D.state spare.old spare.new }
    ensures synced { IfSome spare.new (λ disk. IsSynced (D.state disk)) }
{
    if let Some(disk) = spare {
        disk.restart();
    }
}

/// Restarts the disks that hold nothing.
pub fn restart_spares<D: Disk>(spares: &mut [Option<D>])
    ensures turns { SparesTurn D.state spares.old spares.new }
    ensures synced { SparesSynced D.state spares.new }
{
    for at in 0..spares.len() {
        restart_spare(&mut spares[at]);
    }
}
