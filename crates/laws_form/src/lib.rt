//! The world stays formed: lengths, names, numbers and limits are in range after each answer, each step and
//! each restart.
//!
//! Each law is what a function without code ensures.
#![tactic(auto)]

ghost use Rattle.laws_form.specs.Forming.{AnswersKeepForm, DeedsKeepForm, RestartsKeepForm};

/// Each answer of a sound world to an event that can be asked for leaves a world that is formed.
pub fn answers_keep_form()
    ensures { AnswersKeepForm }
{}

/// Each deed of a sound world, of an event that a script, a worker or the report can ask for, leaves a
/// world that is formed.
pub fn deeds_keep_form()
    ensures { DeedsKeepForm }
{}

/// A world that is formed is so after a restart, sound or not.
pub fn restarts_keep_form()
    ensures { RestartsKeepForm }
{}
