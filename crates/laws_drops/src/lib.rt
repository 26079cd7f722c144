//! Each answer, each step, each entry and each deed of a run drops exactly the snapshots that the rules name.
//!
//! Each law is what a function without code ensures.
#![tactic(auto)]

ghost use Rattle.laws_drops.specs.Dropping.{DropsAreNamed, AnswersDropWhatIsNamed};
ghost use Rattle.laws_drops.specs.Runs.{RunsDoDeeds, RunsKeepTheNeeded, EntriesGoOn, EntriesDropWhatIsNamed, NoDeedKeepsSnapshots, EntriesKeepTheNeeded};

/// Each deed of a sound world drops exactly the snapshots that the rules name for it.
pub fn drops_are_named()
    ensures { DropsAreNamed }
{}

/// A deed that is no step drops exactly the snapshots that the rules name for it, in every world, sound
/// or not.
pub fn answers_drop_what_is_named()
    ensures { AnswersDropWhatIsNamed }
{}

/// Each deed of a run from a world that is up is an answer, a step, or a restart that changed nothing.
pub fn runs_do_deeds()
    ensures { RunsDoDeeds }
{}

/// No deed of a run from a world that is up drops a snapshot that some relationship needs.
pub fn runs_keep_the_needed()
    ensures { RunsKeepTheNeeded }
{}

/// After each entry what is under way in a world that is down could be done, if it was so before.
pub fn entries_go_on()
    ensures { EntriesGoOn }
{}

/// Each entry from a sound world drops exactly what the rules name for its deed: a restart that finds a
/// deed done too, and an entry without a deed nothing.
pub fn entries_drop_what_is_named()
    ensures { EntriesDropWhatIsNamed }
{}

/// An entry without a deed leaves all snapshots as they are, in every world.
pub fn no_deed_keeps_snapshots()
    ensures { NoDeedKeepsSnapshots }
{}

/// No entry drops a snapshot that some relationship needs, nor does a restart that finds a deed done.
pub fn entries_keep_the_needed()
    ensures { EntriesKeepTheNeeded }
{}
