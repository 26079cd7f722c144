// How volumes stand as destinations.
ghost use Rattle.std.specs.Prelude.{◌≡◌, List, length, slice_index_or};
ghost use Rattle.sm_defs.specs.Volume.{no_volume};
ghost use Rattle.sm_defs.specs.Edges.{mirror_state};
ghost use Rattle.sm_catroot.specs.declared.placed.Placed.{Placed};
ghost use Rattle.sm_node.specs.Nodes.{all_placed};

use crate::seat::Seat;
use sm_defs::MirrorState;
use sm_disk::Disk;
use sm_relation::mirror_state;

/// How the volume of the number stands as a destination. Behind the last volume stands a blank one.
pub fn state_at<D: Disk>(seats: &[Seat<D>], number: u32) -> MirrorState
    ensures { (ps : List Placed) → length ps ≡ length seats.now → result ≡ mirror_state (slice_index_or (all_placed ps seats.now) number no_volume) }
{
    match seats.get(number as usize) {
        None => MirrorState::Uninitialized,
        Some(seat) => mirror_state(seat.volume.root()),
    }
}
