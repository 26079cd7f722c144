//! Which worlds disks can spell: those that a restart leaves and that have room on them, and no sound one of
//! these is left out.
//!
//! Each law is what a function without code ensures.
#![tactic(auto)]

ghost use Rattle.std.specs.Prelude.{◌≡◌, ◌≤◌, ℕ, List, Some, slice_get};
ghost use Rattle.sm_base.specs.declared.limits.TheConstants.{SLOTS_END};
ghost use Rattle.sm_defs.specs.World.{Up, empty_world};
ghost use Rattle.sm_model.specs.Crossed.{Crossed};
ghost use Rattle.sm_model.specs.Opened.{opened};
ghost use Rattle.sm_model.specs.Sound.{SoundUp};
ghost use Rattle.sm_shape.specs.Blanked.{blanked};
ghost use Rattle.sm_shape.specs.Interim.{IsInterim};
ghost use Rattle.sm_shape.specs.Shape.{ShapeUp};
ghost use Rattle.sm_opening.specs.OnDisk.{Disks, Spells};
ghost use Rattle.laws_disks.specs.BlankDisks.{blank_disks};
ghost use Rattle.laws_disks.specs.Room.{HasRoom, IsSpelled};

/// A sound world as a restart leaves it, with room on its disks for the catalogue and the volumes, is spelled
/// by some disks of these lengths, where nothing is or was transferred.
pub fn a_sound_world_is_spelled()
    ensures { (w : Up) → SoundUp w → HasRoom w → opened w ≡ w → IsInterim w → IsSpelled w }
{}

/// What disks spell is as a restart leaves it, and has room on them.
pub fn a_spelled_world_has_room()
    ensures room { (d : Disks) (w : Up) → Spells d w → HasRoom w }
    ensures still { (d : Disks) (w : Up) → Spells d w → opened w ≡ w }
    ensures sizes { (d : Disks) (w : Up) → Spells d w → w.disks ≡ d.sizes }
{}

/// A sound world has the shape that opening asks of it, and its relationships fit, also where something is
/// transferred.
pub fn a_sound_world_has_its_shape()
    ensures crossed { (w : Up) → SoundUp w → Crossed (blanked w) }
    ensures shape { (w : Up) → SoundUp w → ShapeUp (blanked w) }
{}

/// Disks on which nothing was written spell the world in which nothing was created, where the first has
/// room for a catalogue.
pub fn blank_disks_spell_the_empty_world()
    ensures { (sizes : List ℕ) (size : ℕ) → slice_get sizes 0 ≡ Some size → SLOTS_END ≤ size → Spells (blank_disks sizes) (empty_world sizes) }
{}
