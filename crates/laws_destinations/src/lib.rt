//! A read-only destination shows what was published last, and a standing transfer fits its destination: kept
//! by each answer, each step and each restart.
//!
//! Each law is what a function without code ensures.
#![tactic(auto)]

ghost use Rattle.laws_destinations.specs.Destinations.{AnswersKeepDestinations, DeedsKeepDestinations, RestartsKeepDestinations};
ghost use Rattle.laws_destinations.specs.Transfers.{DeedsKeepTransfers, RestartsKeepTransfers};

/// After each answer of a sound world each read-only volume stands at one of its snapshots, and each
/// destination shows what was published last.
pub fn answers_keep_destinations()
    ensures { AnswersKeepDestinations }
{}

/// After each deed of a sound world each read-only volume stands at one of its snapshots, and each
/// destination shows what was published last.
pub fn deeds_keep_destinations()
    ensures { DeedsKeepDestinations }
{}

/// After a restart of a sound world each read-only volume stands at one of its snapshots, and each
/// destination shows what was published last.
pub fn restarts_keep_destinations()
    ensures { RestartsKeepDestinations }
{}

/// After each deed of a sound world each standing transfer has a destination that it can go on to: a
/// writable one only for a resync that shipped nothing, and none of its legs there but the first.
pub fn deeds_keep_transfers()
    ensures { DeedsKeepTransfers }
{}

/// After a restart of a sound world each standing transfer has a destination that it can go on to.
pub fn restarts_keep_transfers()
    ensures { RestartsKeepTransfers }
{}
