//! Copies of one identity have the same contents, one number of a block means the same bytes in a volume,
//! and identities and numbers are new where they are given: kept by each answer, each step and each restart.
//!
//! Each law is what a function without code ensures.
#![tactic(auto)]

ghost use Rattle.laws_copies.specs.Copies.{AnswersKeepTags, StepsKeepTags, DeedsKeepTags, RestartsKeepTags, AnswersKeepCopies, StepsKeepCopies, DeedsKeepCopies, RestartsKeepCopies};
ghost use Rattle.laws_copies.specs.Numbers.{DeedsKeepNumbers, RestartsKeepNumbers};

/// After each answer of a sound world a number of a block stands for one place and one block in each
/// volume.
pub fn answers_keep_tags()
    ensures { AnswersKeepTags }
{}

/// After each step of a sound world a number of a block stands for one place and one block in each
/// volume.
pub fn steps_keep_tags()
    ensures { StepsKeepTags }
{}

/// After each deed of a sound world a number of a block stands for one place and one block in each
/// volume.
pub fn deeds_keep_tags()
    ensures { DeedsKeepTags }
{}

/// Where a number of a block stands for one place and one block in each volume, so it does after a
/// restart.
pub fn restarts_keep_tags()
    ensures { RestartsKeepTags }
{}

/// After each answer of a sound world copies of one identity agree.
pub fn answers_keep_copies()
    ensures { AnswersKeepCopies }
{}

/// After each step of a sound world copies of one identity agree.
pub fn steps_keep_copies()
    ensures { StepsKeepCopies }
{}

/// After each deed of a sound world copies of one identity agree.
pub fn deeds_keep_copies()
    ensures { DeedsKeepCopies }
{}

/// Copies of one identity agree after a restart if they agreed before.
pub fn restarts_keep_copies()
    ensures { RestartsKeepCopies }
{}

/// Each deed of a sound world, of an event that can be asked for, leaves identities of numbers that
/// were given.
pub fn deeds_keep_numbers()
    ensures { DeedsKeepNumbers }
{}

/// A restart of a sound world leaves identities of numbers that were given.
pub fn restarts_keep_numbers()
    ensures { RestartsKeepNumbers }
{}
