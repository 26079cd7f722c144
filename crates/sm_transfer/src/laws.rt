// What Ships and Checkpoints keep, and what that is in the words of the definitions.
ghost use Rattle.sm_transfer.specs.Defined.{BeginsAsDefined, ShipsAsDefined, ChecksAsDefined, StopsAsDefined};
ghost use Rattle.sm_transfer.specs.Landed.{WhatLandedHasLanded};
ghost use Rattle.sm_transfer.specs.Landing.{ShipKeepsWhatLanded, CheckpointKeepsWhatLanded, WhatLandedIsTheLegs, LegsLandApart, PlannedShipsFit, DueShipsFit};

use sm_disk::Disk;

/// A Ship keeps what landed on what the destination reads, with the block that it ships; each image keeps what
/// landed below the checkpoint, at any moment.
pub fn ship_keeps_what_landed<D: Disk>()
    ensures { ShipKeepsWhatLanded D.state }
{}

/// After a Checkpoint each image has all blocks that it counts.
pub fn checkpoint_keeps_what_landed<D: Disk>()
    ensures { CheckpointKeepsWhatLanded D.state }
{}

/// What landed by the plan of a leg is the leg's, as the definitions ask of every image; no two blocks land at one
/// number.
pub fn what_landed_is_the_legs()
    ensures legs { WhatLandedIsTheLegs }
    ensures landed { WhatLandedHasLanded }
    ensures apart { LegsLandApart }
{}

/// An index of a leg's plan that has not landed is one that [`Transfer::ship`](crate::Transfer::ship) takes, and
/// each that may be shipped by the definitions is such a one.
pub fn due_ships_fit()
    ensures planned { PlannedShipsFit }
    ensures due { DueShipsFit }
{}

/// What the steps make of a transfer is what the definitions make of theirs.
pub fn steps_are_the_definitions()
    ensures begins { BeginsAsDefined }
    ensures ships { ShipsAsDefined }
    ensures checks { ChecksAsDefined }
    ensures stops { StopsAsDefined }
{}
