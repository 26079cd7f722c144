//! What the disks of a node show together: one image of each disk, from any moment of an event, and
//! the world before the event or after it.
//!
//! A node has a seat for its catalogue's disk, number 0, and one behind it for each volume. A world is
//! what an image of each seat's disk is to show, and of whatever type the layer above likes. Each law is
//! what a function without code ensures.
#![tactic(auto)]

ghost use Rattle.std.specs.Prelude.{ℕ};
ghost use Rattle.sm_disk.specs.Image.{Image};
ghost use Rattle.sm_seats.specs.Seats.{DisksGoTogether, EndsInOne};
ghost use Rattle.sm_seats.specs.Moves.{OneChangesWhole, OneIsAddedWhole, NothingChanges};
ghost use Rattle.sm_seats.specs.Numbers.{SeatsAreNumbered};

use sm_disk::Disk;

/// The worlds of the layer above, and what an image of each seat's disk is to show of one.
pub trait Seated {
    ghost World: { Type 0 };

    ghost shows: { World → ℕ → Image → Type 0 };
}

/// Over any number of disks, of which one commits: one image of each, from any moment of the event,
/// show the world before, or the committing disk's shows its part of the world after, and then all show
/// that world where the others' images are from the event's end.
pub fn disks_go_together<D: Disk, W: Seated>()
    ensures { DisksGoTogether D.state W.shows }
{}

/// At the end of such an event a restart finds the world before, or the one after.
pub fn ends_in_one<D: Disk, W: Seated>()
    ensures { EndsInOne D.state W.shows }
{}

/// An event that changes the disk of one seat, so that this disk shows the world before or after
/// meanwhile, is such an event.
pub fn one_changes<D: Disk, W: Seated>()
    ensures { OneChangesWhole D.state W.shows }
{}

/// So is one that formats a disk behind those of the volumes and then commits the catalogue.
pub fn one_is_added<D: Disk, W: Seated>()
    ensures { OneIsAddedWhole D.state W.shows }
{}

/// So is one that asks no disk for anything.
pub fn nothing_changes<D: Disk, W: Seated>()
    ensures { NothingChanges D.state W.shows }
{}

/// The same by the numbers of the disks: a seat keeps its disk's number, or shows nothing of the world
/// before. That two seats have two disks is not asked.
pub fn seats_are_numbered<D: Disk, W: Seated>()
    ensures { SeatsAreNumbered D.state W.shows }
{}
