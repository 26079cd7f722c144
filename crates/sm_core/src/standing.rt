// What the disks of a catalogue show at any moment.
ghost use Rattle.std.specs.Prelude.{◌≡◌};
ghost use Rattle.sm_core.specs.Falling.{IsCatalogue, world_now};
ghost use Rattle.sm_core.specs.Kept.{Stands};

use crate::down::Down;
use sm_disk::Disk;
use sm_node::Node;

/// Whatever a restart of the disks may leave now shows the world of the node, or one of the pair while it is down.
pub fn stands<D: Disk + Drop>(node: &Node<D>, down: &Option<Down<D>>)
    requires { IsCatalogue D.state down.now node.now }
    ensures { Stands D.state (world_now down.now node.now) node.now }
{
    match down {
        Some(_) => (),
        None => node.told_up(),
    }
}
