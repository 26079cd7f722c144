//! What holds of a world whatever the bytes of its blocks are: laws of the world in which each block is read as
//! zeros. They serve a node whose disks tell nothing of their content.
//!
//! Each law is what a function without code ensures.
#![tactic(auto)]

ghost use Rattle.laws_blank.specs.Laws.{AnswersCommute, BlankedStaysSound, SoundIsSoundBlanked, ShapedIsSound, RestartsStaySound, IdentitiesAreNew};

/// Where each block is read as zeros, an event that shows no bytes has the same reply or refusal, and leads to the
/// same world but for the bytes.
pub fn answers_commute()
    ensures { AnswersCommute }
{}

/// A sound world is sound where each block is read as zeros.
pub fn sound_is_sound_blanked()
    ensures { SoundIsSoundBlanked }
{}

/// A world that has the shape that opening asks for and whose relationships fit, with each block read as zeros, is
/// sound so.
pub fn a_shaped_world_is_sound()
    ensures { ShapedIsSound }
{}

/// Where a world is sound with each block read as zeros, the world that an answer leads to is so too.
pub fn blanked_stays_sound()
    ensures { BlankedStaysSound }
{}

/// Where a world is sound with each block read as zeros, the world after a restart is so too.
pub fn restarts_stay_sound()
    ensures { RestartsStaySound }
{}

/// The identity that a client's next snapshot of a volume gets is on no snapshot of that volume, where the world is
/// sound with each block read as zeros.
pub fn identities_are_new()
    ensures { IdentitiesAreNew }
{}
