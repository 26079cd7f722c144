// What a disk shows of a world that several disks show together (`sm_seats`).
ghost use Rattle.sm_volume.specs.Shown.{ShownAnywhere};
ghost use Rattle.sm_volume.specs.Worlds.{PartGoesOn, PartStaysSelected, PartIsCommitted, PartIsSelected};

use sm_disk::Disk;

/// What a disk shows of a volume, and which state of it is selected, does not depend on the path and the
/// disk's number that a node gives the volume: a volume knows neither.
#[tactic(auto, using(crate::proofs::Placed::anywhere))]
pub fn shown_at_any_place()
    ensures { ShownAnywhere }
{}

/// A disk's part of the world, blocks that landed below a checkpoint included, stays on every image
/// through a call that changes no block of it, and so does which of its two states is selected.
#[tactic(auto, using(crate::proofs::Together::part_goes_on, crate::proofs::Together::part_stays_selected))]
pub fn part_goes_on<D: Disk>()
    ensures shown { PartGoesOn D.state }
    ensures selected { PartStaysSelected D.state }
{}

/// Through a call that commits each image shows the part before or the one after, and the state that it
/// selects tells which.
#[tactic(auto, using(crate::proofs::Together::part_is_committed, crate::proofs::Together::part_is_selected))]
pub fn part_is_committed<D: Disk>()
    ensures shown { PartIsCommitted D.state }
    ensures selected { PartIsSelected D.state }
{}
