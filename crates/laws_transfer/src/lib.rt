//! Laws of the definitions that a transfer rests on: costs, landing, legs, retention, pruning, the
//! common snapshot, and needs.
//!
//! Each law is what a function without code ensures.
#![tactic(auto)]

ghost use Rattle.laws_transfer.specs.Costs.{MissingTagsAreThese, MissingTagsAreDetermined, MissingPlacesAreThese, MirrorCostsNothing, VaultCostsNothing};
ghost use Rattle.laws_transfer.specs.Landing.{LandingHasTheLegsBytes, MissingBlocksTakeNumbersInOrder, FreeNumbersAscend, LandingOverwritesNothing, LandingRestsOnMaps};
ghost use Rattle.laws_transfer.specs.Keeping.{RetentionKeepsTheNeeded, RetentionThins, RetentionKeepsByReason, RetentionBeginsAtTheNewest, RetentionKeepsTheNewest, RulesKeepNoMore, KeepReachedNamesTheFirst, BasesAreNeeded, LegsAreNeeded};
ghost use Rattle.laws_transfer.specs.Dropping.{PruningDropsExactly, PruningThins, CommonIsTheNewest, NothingIsCommon};
ghost use Rattle.laws_transfer.specs.Sending.{LegsAreNew, ReservedForWritableSources, VaultsSendByRule, MirrorsOfAllSendAll};

/// A mirror's missing tags ascend, each once; they are the leg's tags but 0 that no snapshot of the
/// destination has.
pub fn missing_tags_are_these()
    ensures { MissingTagsAreThese }
{}

/// Any other list that ascends and has the same tags is the same list.
pub fn missing_tags_are_determined()
    ensures { MissingTagsAreDetermined }
{}

/// A vault's missing places ascend, each once; they are the places where the leg has a block that the
/// source's base does not have there.
pub fn missing_places_are_these()
    ensures { MissingPlacesAreThese }
{}

/// A mirror's leg costs nothing exactly where each of its blocks stands in some snapshot of the destination.
pub fn mirror_costs_nothing()
    ensures { MirrorCostsNothing }
{}

/// A vault's leg costs nothing exactly where at each place it is a hole or has the base's block.
pub fn vault_costs_nothing()
    ensures { VaultCostsNothing }
{}

/// What lands at a vault has the leg's bytes at every place, where holes read as zeros and the blocks
/// that are kept have the leg's bytes.
pub fn landing_has_the_legs_bytes()
    ensures { LandingHasTheLegsBytes }
{}

/// The missing blocks take the numbers that are given, in order.
pub fn missing_blocks_take_numbers_in_order()
    ensures { MissingBlocksTakeNumbersInOrder }
{}

/// A volume's free numbers ascend, each once; they are those that none of its images uses.
pub fn free_numbers_ascend()
    ensures { FreeNumbersAscend }
{}

/// Where enough numbers are free, a landed block is a hole, the base's block at its place, or stands at
/// a number that no image of the volume used.
pub fn landing_overwrites_nothing()
    ensures { LandingOverwritesNothing }
{}

/// Which places are missing and which numbers land rests on the block maps alone.
pub fn landing_rests_on_maps()
    ensures { LandingRestsOnMaps }
{}

/// Retention keeps each needed snapshot.
pub fn retention_keeps_the_needed()
    ensures { RetentionKeepsTheNeeded }
{}

/// What retention keeps is the list with some left out, in order.
pub fn retention_thins()
    ensures { RetentionThins }
{}

/// A snapshot stays exactly where it is needed, its rule preserves, or fewer than its rule's number of
/// newer ones of its class are kept.
pub fn retention_keeps_by_reason()
    ensures { RetentionKeepsByReason }
{}

/// What is kept of the newer part of a list rests on no older snapshot.
pub fn retention_begins_at_the_newest()
    ensures { RetentionBeginsAtTheNewest }
{}

/// The newest snapshot stays where its class has a rule that preserves or keeps at least one.
pub fn retention_keeps_the_newest()
    ensures { RetentionKeepsTheNewest }
{}

/// Where nobody needs any, a rule that does not preserve keeps no more than its number.
pub fn rules_keep_no_more()
    ensures { RulesKeepNoMore }
{}

/// The first rule that preserves and has no room is named, and none exactly where each has room.
pub fn keep_reached_names_the_first()
    ensures { KeepReachedNamesTheFirst }
{}

/// A relationship's base is needed at its source and at its destination, on each side that has its half.
pub fn bases_are_needed()
    ensures { BasesAreNeeded }
{}

/// A transfer's remaining legs are needed at the source.
pub fn legs_are_needed()
    ensures { LegsAreNeeded }
{}

/// Pruning drops exactly the snapshots that are not needed and are missing on the source or not covered.
pub fn pruning_drops_exactly()
    ensures { PruningDropsExactly }
{}

/// What pruning drops stands in the list, in order.
pub fn pruning_thins()
    ensures { PruningThins }
{}

/// The common snapshot is on both lists, and the source has nothing that is newer at the destination.
pub fn common_is_the_newest()
    ensures { CommonIsTheNewest }
{}

/// There is no common snapshot exactly where the source has none of the destination's.
pub fn nothing_is_common()
    ensures { NothingIsCommon }
{}

/// Each leg is a snapshot of the source after the base that the destination does not have, but for a
/// reserved one, which is the last.
pub fn legs_are_new()
    ensures { LegsAreNew }
{}

/// A leg is reserved exactly for a mirror of a writable source.
pub fn reserved_for_writable_sources()
    ensures { ReservedForWritableSources }
{}

/// A vault sends the new snapshots whose label has a rule, and no others.
pub fn vaults_send_by_rule()
    ensures { VaultsSendByRule }
{}

/// A mirror of all snapshots sends each new one.
pub fn mirrors_of_all_send_all()
    ensures { MirrorsOfAllSendAll }
{}
