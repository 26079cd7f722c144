//! A running transfer of a sound world has a step, the step that this program chooses is due, and none is found
//! exactly where none is due.
//!
//! Each law is what a function without code ensures.
#![tactic(auto)]

ghost use Rattle.laws_idle.specs.Idling.{ChosenIsDue, DeedsKeepEnds, RestartsKeepEnds, RunningTransfersHaveSteps, IdleIsExact};

/// The step that this program chooses for an actor is due, in every world.
pub fn chosen_is_due()
    ensures { ChosenIsDue }
{}

/// Where each transfer without a base has a leg, so it is after each deed.
pub fn deeds_keep_ends()
    ensures { DeedsKeepEnds }
{}

/// Where each transfer without a base has a leg, so it is after a restart.
pub fn restarts_keep_ends()
    ensures { RestartsKeepEnds }
{}

/// In a sound world each running transfer has a step due, with an effect of it.
pub fn running_transfers_have_steps()
    ensures { RunningTransfersHaveSteps }
{}

/// In a sound world the program finds no step for an actor exactly where none is due for anybody.
pub fn idle_is_exact()
    ensures { IdleIsExact }
{}
