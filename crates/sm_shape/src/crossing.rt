//! The test that relationships fit each other.

ghost use Rattle.std.specs.Prelude.{◌≡◌, ◌≢◌, ◌↔◌, ◌<◌, true, IsTrue, Some};
ghost use Rattle.std.specs.List.{All};
ghost use Rattle.sm_base.specs.declared.numbers.Ident.{Ident};
ghost use Rattle.sm_shape.specs.Crossing.{HasOtherDestination, HasNewDestination, HasOtherTransfer, HasNewTransfer};

use sm_model::WorldRelation;

fn other_destination(relation: &WorldRelation, earlier: &WorldRelation) -> bool
    ensures { IsTrue result ↔ HasOtherDestination relation.now earlier.now }
{
    !earlier.destination_half || earlier.destination.0 != relation.destination.0
}

/// Whether no earlier relationship with a destination half has the destination.
pub fn destination_is_new(before: &[WorldRelation], relation: &WorldRelation) -> bool
    ensures { IsTrue result ↔ HasNewDestination before.now relation.now }
{
    !relation.destination_half
        || before
            .iter()
            .all(|earlier| other_destination(relation, earlier))
}

fn other_transfer(number: u64, earlier: &WorldRelation) -> bool
    ensures { IsTrue result ↔ HasOtherTransfer number earlier.now }
{
    match &earlier.transfer {
        Some(transfer) => transfer.number != number,
        None => true,
    }
}

/// Whether no earlier relationship's transfer has the number.
pub fn transfer_is_new(before: &[WorldRelation], relation: &WorldRelation) -> bool
    ensures { IsTrue result ↔ HasNewTransfer before.now relation.now }
{
    match &relation.transfer {
        Some(transfer) => before
            .iter()
            .all(|earlier| other_transfer(transfer.number, earlier)),
        None => true,
    }
}
