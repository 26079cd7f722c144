//! The test of the form of relationships: halves, the order of their numbers, and what an interrupted
//! transfer has landed.

ghost use Rattle.std.specs.Prelude.{◌≡◌, ◌≢◌, ◌≤◌, ◌↔◌, IsTrue, suc, length, true, false, None};
ghost use Rattle.std.specs.List.{All};
ghost use Rattle.sm_base.specs.declared.limits.TheConstants.{MOST_SNAPSHOTS};
ghost use Rattle.sm_defs.specs.Volume.{numbers};
ghost use Rattle.sm_defs.specs.Legs.{made_ident};
ghost use Rattle.sm_model.specs.OfRelations.{has_a_half};
ghost use Rattle.sm_model.specs.Formed.{FormedTransfer, FormedRelation};
ghost use Rattle.sm_shape.specs.Behind.{EachBehind};
ghost use Rattle.sm_shape.specs.Forms.{EndsWithMade, OwnTransferForms, IsBefore, RelationFitsBehind};

use sm_base::Ident;
use sm_base::limits::MOST_SNAPSHOTS;
use sm_model::{WorldRelation, WorldTransfer};

/// Whether just the numbers below the checkpoint landed.
fn is_prefix(landed: &[u32], checkpoint: u32) -> bool
    ensures { IsTrue result ↔ (landed.now ≡ numbers 0 checkpoint) }
{
    let long = landed.len() == checkpoint as usize;
    if !long {
        return false;
    }
    for place in 0..landed.len() {
        let stands = landed[place] as usize == place;
        if !stands {
            return false;
        }
    }
    true
}

/// Whether the identity is that of the snapshot that the transfer makes.
fn is_made_leg(source: u32, number: u64, leg: Ident) -> bool
    ensures { IsTrue result ↔ (leg ≡ made_ident source number) }
{
    leg.origin == source && leg.seq % 2 == 1 && leg.seq / 2 == number
}

/// Whether the last leg is the one that the transfer makes.
fn ends_with_made(source: u32, number: u64, legs: &[Ident]) -> bool
    ensures { IsTrue result ↔ EndsWithMade source number legs.now }
{
    match legs {
        [.., last] => is_made_leg(source, number, *last),
        [] => false,
    }
}

fn are_few(legs: &[Ident]) -> bool
    ensures { IsTrue result ↔ (length legs.now ≤ suc MOST_SNAPSHOTS) }
{
    legs.len() <= MOST_SNAPSHOTS + 1
}

fn transfer_forms(relation: &WorldRelation, transfer: &WorldTransfer) -> bool
    ensures { IsTrue result ↔ FormedTransfer relation.now transfer.now }
{
    let _checkpoint = transfer.checkpoint;
    if transfer.stopped.is_some() && transfer.pruned {
        return false;
    }
    if transfer.stopped.is_some() && !is_prefix(&transfer.landed, transfer.checkpoint) {
        return false;
    }
    if transfer.reserved && !ends_with_made(relation.source.0, transfer.number, &transfer.legs) {
        return false;
    }
    are_few(&transfer.legs)
}

fn own_transfer_forms(relation: &WorldRelation) -> bool
    ensures { IsTrue result ↔ OwnTransferForms relation.now }
{
    match &relation.transfer {
        Some(transfer) => transfer_forms(relation, transfer),
        None => true,
    }
}

fn has_half(relation: &WorldRelation) -> bool
    ensures { result ≡ has_a_half relation.now }
{
    relation.source_half || relation.destination_half
}

fn relation_forms(relation: &WorldRelation) -> bool
    ensures { IsTrue result ↔ FormedRelation relation.now }
{
    if !has_half(relation) {
        return false;
    }
    own_transfer_forms(relation)
}

fn is_before(relation: &WorldRelation, earlier: &WorldRelation) -> bool
    ensures { IsTrue result ↔ IsBefore relation.now earlier.now }
{
    earlier.number.0 < relation.number.0
}

fn are_before(before: &[WorldRelation], relation: &WorldRelation) -> bool
    ensures { IsTrue result ↔ All (IsBefore relation.now) before.now }
{
    before.iter().all(|earlier| is_before(relation, earlier))
}

fn relation_fits(before: &[WorldRelation], relation: &WorldRelation) -> bool
    ensures { IsTrue result ↔ RelationFitsBehind before.now relation.now }
{
    if !relation_forms(relation) {
        return false;
    }
    are_before(before, relation)
}

/// Whether each relationship has its form, and their numbers ascend.
pub fn relations_form(relations: &[WorldRelation]) -> bool
    ensures { IsTrue result ↔ EachBehind RelationFitsBehind relations.now }
{
    for place in 0..relations.len() {
        if !relation_fits(&relations[..place], &relations[place]) {
            return false;
        }
    }
    true
}
