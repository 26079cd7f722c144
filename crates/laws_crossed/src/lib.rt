//! Relationships and volumes refer to each other as they should, and bases and legs are where they belong:
//! kept by each answer, each step and each restart.
//!
//! Each law is what a function without code ensures.
#![tactic(auto)]

ghost use Rattle.laws_crossed.specs.Crossing.{StepsKeepCrossed, DeedsKeepCrossed, RestartsKeepCrossed};

/// After each step of a sound world relationships and transfers fit their volumes and each other.
pub fn steps_keep_crossed()
    ensures { StepsKeepCrossed }
{}

/// After each deed of a sound world relationships and transfers fit their volumes and each other.
pub fn deeds_keep_crossed()
    ensures { DeedsKeepCrossed }
{}

/// After a restart of a sound world relationships and transfers fit their volumes and each other.
pub fn restarts_keep_crossed()
    ensures { RestartsKeepCrossed }
{}
