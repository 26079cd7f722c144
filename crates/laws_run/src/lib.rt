//! Laws of whole legal runs, from any sound world, whatever is asked and whatever fails: each world is sound,
//! copies have what their origins held, what goes is what the rules name, and the text is determined.
//!
//! Each law is what a function without code ensures.
#![tactic(auto)]

ghost use Rattle.laws_run.specs.Laws.{EmptyWorldIsSound, RunsKeepSoundness, EachWorldIsSound, DeedsBeginSound, TextIsDetermined, ChosenTextIsDetermined, RefusalsAreListed, EntriesAreRefusedAsListed, FirstVolumeIsMade};
ghost use Rattle.laws_run.specs.Examples.{TransfersRun};
ghost use Rattle.laws_run.specs.Worlds.{WorldsAreSound, WorldsHaveOrigins, RunsEndWithOrigins, RunsMakeOnce, RunsDropByRule, EntriesDropByRule, NoneNeededGoes, WorldsHaveBases};

/// The world in which nothing was created is sound.
pub fn empty_world_is_sound()
    ensures { EmptyWorldIsSound }
{}

/// Each run from a sound world ends in a sound one, whatever is asked and whatever fails.
pub fn runs_keep_soundness()
    ensures { RunsKeepSoundness }
{}

/// A legal run from a sound world passes through sound worlds alone: behind any of its entries it can be
/// cut in two runs, with a sound world between them.
pub fn each_world_is_sound()
    ensures { EachWorldIsSound }
{}

/// Each deed of a legal run from a sound world begins in a sound world.
pub fn deeds_begin_sound()
    ensures { DeedsBeginSound }
{}

/// What a history was asked for, its start and the sides of its restarts determine its text and its
/// last world, where no disk fails and no worker acts.
pub fn text_is_determined()
    ensures { TextIsDetermined }
{}

/// Each event is refused only for the reasons that are listed for it.
pub fn refusals_are_listed()
    ensures { RefusalsAreListed }
{}

/// Each entry that answers a refusal answers one that is listed for its event, but of a disk that
/// failed or a node that is down.
pub fn entries_are_refused_as_listed()
    ensures { EntriesAreRefusedAsListed }
{}

/// Where nothing was created, a volume is made on any disk that is long enough.
pub fn first_volume_is_made()
    ensures { FirstVolumeIsMade }
{}

/// Each world of a run from a sound world is sound: the first, those between entries, the last.
pub fn worlds_are_sound()
    ensures { WorldsAreSound }
{}

/// In each world of a run from a sound world that is up each copy of an identity has what its origin
/// held.
pub fn worlds_have_origins()
    ensures { WorldsHaveOrigins }
{}

/// In the last world of a run from a sound world that is up each copy of an identity has what its
/// origin held.
pub fn runs_end_with_origins()
    ensures { RunsEndWithOrigins }
{}

/// No deed of a run from a sound world that is up makes an identity that stood at the start or was made
/// before.
pub fn runs_make_once()
    ensures { RunsMakeOnce }
{}

/// Each deed of a run from a sound world that is up drops exactly the snapshots that the rules name for
/// it.
pub fn runs_drop_by_rule()
    ensures { RunsDropByRule }
{}

/// In each world of a run from a sound world a base is on each side that has its half, and a remaining
/// leg on its source but for a reserved one that was not made.
pub fn worlds_have_bases()
    ensures { WorldsHaveBases }
{}

/// Each entry of a run from a sound world that is up drops exactly what the rules name for its deed: a
/// restart that finds a deed done too, and an entry without a deed nothing.
pub fn entries_drop_by_rule()
    ensures { EntriesDropByRule }
{}

/// No entry of a run from a world that is up drops a snapshot that some relationship needs.
pub fn none_needed_goes()
    ensures { NoneNeededGoes }
{}

/// What a history was asked for, its start and the sides of its restarts determine its text and its last
/// world, where no disk fails and each worker's step is the one that this program chooses for its actor.
pub fn chosen_text_is_determined()
    ensures { ChosenTextIsDetermined }
{}

/// A transfer of each kind, of a mirror and of a vault, runs in some sound world, so that what is said of them is not said of nothing.
pub fn transfers_run()
    ensures { TransfersRun }
{}
