// What an event on a node that is up rests on.
ghost use Rattle.std.specs.Prelude.{◌≡◌};
ghost use Rattle.sm_node.specs.Nodes.{IsUp};
ghost use Rattle.sm_node.specs.Parts.{StandsUp};

use crate::node::Node;
use sm_disk::Disk;
use sm_seats::{Seated, nothing_changes, one_changes, one_is_added};

/// The worlds of a node: what an image of the disk at each seat shows of one.
pub struct Worlds;

impl Seated for Worlds {
    ghost use Rattle.sm_defs.specs.World.{Up};
    ghost use Rattle.sm_node.specs.Parts.{part};

    ghost World = { Up };

    ghost shows = { part };
}

impl<D: Disk + Drop> Node<D> {
    /// What holds of every node that is up, and of what its disks show together.
    pub fn told_up(&self)
        requires up { IsUp self.now }
        ensures { StandsUp D.state self.now }
    {
        self.told();
        one_changes::<D, Worlds>();
        one_is_added::<D, Worlds>();
        nothing_changes::<D, Worlds>();
    }
}
