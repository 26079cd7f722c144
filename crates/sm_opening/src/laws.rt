//! What the images of a node's disks spell is one world or one fault, never two and never both.

ghost use Rattle.std.specs.Prelude.{◌≡◌, List};
ghost use Rattle.sm_defs.specs.World.{Up};
ghost use Rattle.sm_model.specs.Crossed.{Crossed};
ghost use Rattle.sm_shape.specs.Blanked.{blanked};
ghost use Rattle.sm_node.specs.Nodes as nodes;
ghost use Rattle.sm_node.specs.Nodes.{Node};
ghost use Rattle.sm_opening.specs.Looked.{disks_of, AllTold};
ghost use Rattle.sm_opening.specs.OnDisk.{Disks, Damage, AreBytes, Spells, IsShaped, IsDamage};
ghost use Rattle.sm_opening.specs.Opening.{Opens};

use sm_disk::Disk;

/// Images spell one world at most.
pub fn a_world_is_spelled_once()
    ensures { (d : Disks) (v w : Up) → Spells d v → Spells d w → v ≡ w }
{}

/// Images of bytes have one first fault at most.
pub fn a_fault_is_named_once()
    ensures { (d : Disks) (f g : Damage) → AreBytes d → IsDamage d f → IsDamage d g → f ≡ g }
{}

/// Images of bytes that spell a world have no fault.
pub fn a_world_has_no_fault()
    ensures { (d : Disks) (w : Up) (f : Damage) → AreBytes d → Spells d w → IsDamage d f → ⊥ }
{}

/// The world of a node that was opened is the one that its disks spell, where they tell their content.
pub fn an_opened_node_is_spelled<D: Disk>()
    ensures { (olds : List D) (n : Node D) → Opens D.state olds n → AllTold D.state olds → Spells (disks_of D.state olds) (nodes.world_of n) }
{}

/// The world of a node that was opened has the shape that opening asks for, and its relationships fit, with each block
/// read as zeros: also where its disks tell nothing of their content.
pub fn an_opened_node_has_its_shape<D: Disk>()
    ensures { (olds : List D) (n : Node D) → Opens D.state olds n → Crossed (blanked (nodes.world_of n)) × IsShaped (blanked (nodes.world_of n)) }
{}
