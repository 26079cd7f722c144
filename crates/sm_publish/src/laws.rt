// The steps beside those of the definitions.
ghost use Rattle.sm_publish.specs.Defined.{TidiesAsDefined, PrunesAsDefined, PruneStopsAsDefined, PreparesAsDefined, PrepareStopsAsDefined, SettlesAsDefined, FinishesAsDefined};

use sm_disk::Disk;

/// What a step tells and makes is the reply and the world of the definitions' step, and what stops it is their
/// interruption.
pub fn steps_are_the_definitions<D: Disk>()
    ensures tidies { TidiesAsDefined D.state }
    ensures prunes { PrunesAsDefined D.state }
    ensures prune_stops { PruneStopsAsDefined D.state }
    ensures prepares { PreparesAsDefined D.state }
    ensures prepare_stops { PrepareStopsAsDefined D.state }
{}

/// The same of a Settle, with a further leg or without.
pub fn settles_as_defined()
    ensures settles { SettlesAsDefined }
    ensures finishes { FinishesAsDefined }
{}
