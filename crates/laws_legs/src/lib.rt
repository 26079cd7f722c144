//! A running transfer's first leg still fits at its destination, and a vault's legs have rules: kept by each
//! answer, each step and each restart.
//!
//! Each law is what a function without code ensures.
#![tactic(auto)]

ghost use Rattle.laws_legs.specs.Fitting.{AnswersKeepFit, DeedsKeepFit, RestartsKeepFit};
ghost use Rattle.laws_legs.specs.Keeping.{DeedsKeepLegs, RestartsKeepLegs};

/// After each answer of a sound world what was shipped of a transfer's first leg fits at its
/// destination.
pub fn answers_keep_fit()
    ensures { AnswersKeepFit }
{}

/// After each deed of a sound world what was shipped of a transfer's first leg fits at its destination.
pub fn deeds_keep_fit()
    ensures { DeedsKeepFit }
{}

/// After a restart of a sound world what was shipped of a transfer's first leg fits at its destination.
pub fn restarts_keep_fit()
    ensures { RestartsKeepFit }
{}

/// After each deed of a sound world each vault's transfer makes no leg, and its legs have rules.
pub fn deeds_keep_legs()
    ensures { DeedsKeepLegs }
{}

/// After a restart of a sound world each vault's transfer makes no leg, and its legs have rules.
pub fn restarts_keep_legs()
    ensures { RestartsKeepLegs }
{}
