//! Copies in one family have the same numbers of blocks, families are of numbers that were given, and a vault's
//! own family stands apart: kept by each answer, each step and each restart.
//!
//! Each law is what a function without code ensures.
#![tactic(auto)]

ghost use Rattle.laws_families.specs.Families.{AnswersKeepFamilyBlocks, DeedsKeepFamilyBlocks, RestartsKeepFamilyBlocks, DeedsKeepFamilyNumbers, RestartsKeepFamilyNumbers, DeedsKeepOwnFamilies, RestartsKeepOwnFamilies};

/// After each answer of a sound world copies of one identity in one family have the same numbers of
/// blocks.
pub fn answers_keep_family_blocks()
    ensures { AnswersKeepFamilyBlocks }
{}

/// After each deed of a sound world copies of one identity in one family have the same numbers of
/// blocks.
pub fn deeds_keep_family_blocks()
    ensures { DeedsKeepFamilyBlocks }
{}

/// Copies of one identity in one family have the same numbers of blocks after a restart if they had
/// before.
pub fn restarts_keep_family_blocks()
    ensures { RestartsKeepFamilyBlocks }
{}

/// After each deed of a sound world each family is a volume's number, or belongs to a transfer whose
/// number was given.
pub fn deeds_keep_family_numbers()
    ensures { DeedsKeepFamilyNumbers }
{}

/// Where each family is of a number that was given, so it is after a restart.
pub fn restarts_keep_family_numbers()
    ensures { RestartsKeepFamilyNumbers }
{}

/// After each deed of a sound world families are of numbers that were given, and a vault's own family
/// stands apart.
pub fn deeds_keep_own_families()
    ensures { DeedsKeepOwnFamilies }
{}

/// After a restart of a sound world families are of numbers that were given, and a vault's own family
/// stands apart.
pub fn restarts_keep_own_families()
    ensures { RestartsKeepOwnFamilies }
{}
