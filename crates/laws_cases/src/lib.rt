//! What every law over answers and steps is split by: the moves that an answer makes and the steps that a
//! running transfer takes. Its own laws: refusals and tables leave the world, and what is needed stays.
//!
//! Each law is what a function without code ensures.
#![tactic(auto)]

ghost use Rattle.laws_cases.specs.Answering.{OpeningAgainChangesNothing, ShowingLeavesTheWorld, OkIsNoRefusal, StepsAreNoRefusals, DeedsAreNoRefusals, RefusalsLeaveTheWorld};
ghost use Rattle.laws_cases.specs.Needs.{AnswersKeepTheNeeded, StepsKeepTheNeeded, DeedsKeepTheNeeded, RestartsKeepSnapshots};

/// Opening a world that was just opened changes nothing.
pub fn opening_again_changes_nothing()
    ensures { OpeningAgainChangesNothing }
{}

/// Tables, reads and the report leave the world.
pub fn showing_leaves_the_world()
    ensures { ShowingLeavesTheWorld }
{}

/// An answer that is no refusal is never told as one.
pub fn ok_is_no_refusal()
    ensures { OkIsNoRefusal }
{}

/// No step's reply is a refusal: what bars a step interrupts its transfer.
pub fn steps_are_no_refusals()
    ensures { StepsAreNoRefusals }
{}

/// No deed's reply is a refusal.
pub fn deeds_are_no_refusals()
    ensures { DeedsAreNoRefusals }
{}

/// What is refused leaves the world, unless a device failed.
pub fn refusals_leave_the_world()
    ensures { RefusalsLeaveTheWorld }
{}

/// No answer drops a snapshot that some relationship needs.
pub fn answers_keep_the_needed()
    ensures { AnswersKeepTheNeeded }
{}

/// No step drops a snapshot that some relationship needs.
pub fn steps_keep_the_needed()
    ensures { StepsKeepTheNeeded }
{}

/// No deed drops a snapshot that some relationship needs.
pub fn deeds_keep_the_needed()
    ensures { DeedsKeepTheNeeded }
{}

/// A restart leaves each volume's snapshots as they are.
pub fn restarts_keep_snapshots()
    ensures { RestartsKeepSnapshots }
{}
