// A node that is down since a disk failed: laws of it, each what a function without code ensures.
ghost use Rattle.sm_node.specs.Returning.{FallsAreHalved, UpIsHalved, HalvedShows};

use sm_disk::Disk;

/// An event that fails leaves a node that is down between the world before it and the one that it was to
/// make: which of its two slots the disk that failed selects tells the world of all images.
pub fn falls_are_halved<D: Disk>()
    ensures { FallsAreHalved D.state }
{}

/// So is a node that is up, where the world before is its own.
pub fn up_is_halved<D: Disk>()
    ensures { UpIsHalved D.state }
{}

/// Whatever a restart now may leave of the disks of such a node shows one of the two worlds.
pub fn halved_shows<D: Disk>()
    ensures { HalvedShows D.state }
{}
