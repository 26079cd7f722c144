// A node comes back: its disks are restarted. No memory is taken.
ghost use Rattle.std.specs.Prelude.{◌≡◌, ◌<◌, ◌≤◌, suc, length, IfErr, OnOk, OnErr};
ghost use Rattle.sm_model.specs.World.{Deed};
ghost use Rattle.sm_node.specs.Pending.{NothingPending, IsLong};
ghost use Rattle.sm_node.specs.Halved.{IsHalved};
ghost use Rattle.sm_node.specs.Counted.{CountsStay, CountRises};
ghost use Rattle.sm_node.specs.Returning.{Returns, StaysDown};
ghost use Rattle.sm_node.specs.Turning.{NodeTurns, AllAreBack, SeatFailed, TakesLast, IsTrimmed};

use crate::node::Node;
use crate::restarting::{join, restart_seats, restart_spares};
use crate::seat::Seat;
use sm_base::{DiskNo, Failed, Side};
use sm_disk::Disk;

// Takes the last volume off, and answers the number of its disk, and its device.
fn take_last<D: Disk>(seats: &mut Vec<Seat<D>>) -> (DiskNo, D)
    requires some { 0 < length seats.old.items }
    ensures { TakesLast seats.old.items result.0 result.1 seats.new.items }
{
    let Some(seat) = seats.pop() else {
        unreachable!()
    };
    (seat.disk, seat.volume.into_disk())
}

impl<D: Disk + Drop> Node<D> {
    // Restarts the disks in turn, up to the first that fails.
    fn restart_disks(&mut self, side: &mut Side) -> Result<(), (DiskNo, u64)>
        requires long { IsLong self.old }

        ensures turns { NodeTurns D.state self.old side.old self.new side.new }
        ensures back { OnOk result (AllAreBack D.state self.new) }
        ensures failed { IfErr result (λ e. SeatFailed D.state self.old e.0 e.1 self.new) }
    {
        let read = match self.register.restart() {
            Ok(read) => read,
            Err(Failed) => return Err((DiskNo(0), self.register.faults())),
        };
        *side = join(*side, read);
        if let Err(failed) = restart_seats(&mut self.seats, side) {
            return Err(failed);
        }
        restart_spares(&mut self.spares);
        Ok(())
    }

    // Takes off the volume behind those of the catalogue. Its disk holds nothing again.
    fn trim(&mut self)
        requires long { length self.old.seats ≤ suc (length self.old.root.held.volumes) }
        ensures { IsTrimmed self.old self.new }
    {
        if self.seats.len() <= self.register.held().volumes.len() {
            return;
        }
        let (disk, device) = take_last(&mut self.seats);
        self.spares[disk.0 as usize] = Some(device);
    }

    /// Restarts the disks in turn, up to the first that fails, and adds the side that they tell to those of
    /// the restarts before. A node that is down since a deed failed is up again, with the world of that side;
    /// a volume whose creation was not committed is taken off, and its disk holds nothing again. Nothing is
    /// pending then on any disk, those that hold nothing included. It takes no memory.
    ///
    /// # Errors
    ///
    /// The disk that failed and its count of faults, which rose in this call. The node is down as before, and
    /// what was found is not lost: a further restart goes on.
    pub fn restart(&mut self, side: &mut Side) -> Result<(), (DiskNo, u64)>
        requires long { IsLong self.old }

        ensures returns { OnOk result ((d : Deed) → IsHalved D.state d side.old self.old → Returns D.state d self.old self.new side.new) }
        ensures stays { OnErr result ((d : Deed) → IsHalved D.state d side.old self.old → StaysDown D.state d self.old self.new side.new) }
        ensures side { NothingPending self.old → side.new ≡ side.old }
        ensures failed { IfErr result (λ e. SeatFailed D.state self.old e.0 e.1 self.new) }
        ensures counts { CountsStay D.state self.old self.new }
        ensures rises { IfErr result (λ e. CountRises D.state e.0 e.1 self.old self.new) }
    {
        self.told();
        if let Err(failed) = self.restart_disks(side) {
            return Err(failed);
        }
        self.trim();
        self.told();
        Ok(())
    }
}
