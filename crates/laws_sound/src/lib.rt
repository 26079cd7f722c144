//! A sound world stays sound: through each deed, each restart and each entry.
//!
//! Each law is what a function without code ensures.
#![tactic(auto)]

ghost use Rattle.laws_sound.specs.Soundness.{DeedsKeepSound, RestartsKeepSound, EntriesKeepSound};

/// Each deed of a sound world, of an event that a script, a worker or the report can ask for, leaves a
/// sound world.
pub fn deeds_keep_sound()
    ensures { DeedsKeepSound }
{}

/// Each restart of a sound world leaves a sound one.
pub fn restarts_keep_sound()
    ensures { RestartsKeepSound }
{}

/// Each entry that fits leads from a sound world to a sound one, with the node up or down.
pub fn entries_keep_sound()
    ensures { EntriesKeepSound }
{}
