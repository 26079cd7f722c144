// Settle.
ghost use Rattle.std.specs.Prelude.{◌≡◌, [], ◌∷◌, List, Some, None};
ghost use Rattle.sm_base.specs.declared.numbers.Ident.{Ident as PlainIdent};
ghost use Rattle.sm_publish.specs.Settling.{Settles};

use sm_base::Ident;
use sm_relation::{Legs, Relation, Standing};

// The transfer with these legs, if there are any.
fn with_legs(transfer: &Standing, legs: Vec<Ident>) -> Option<Standing>
    ensures none { legs.items ≡ [] → result ≡ None }
    ensures some { (i : PlainIdent) (later : List PlainIdent) → legs.items ≡ i ∷ later → result ≡ Some (record transfer.now { legs = legs.items; checkpoint = 0 }) }
{
    if legs.is_empty() {
        return None;
    }
    Some(Standing {
        number: transfer.number,
        kind: transfer.kind,
        reserved: transfer.reserved,
        checkpoint: 0,
        legs: Legs::from_vec(legs),
        stopped: transfer.stopped,
    })
}

// The first leg, if there is one, and the transfer without it, if a further one remains.
fn advanced(transfer: Standing) -> (Option<Ident>, Option<Standing>)
    ensures none { transfer.legs ≡ [] → (result.0 ≡ None) × (result.1 ≡ None) }
    ensures last { (i : PlainIdent) → transfer.legs ≡ i ∷ [] → (result.0 ≡ Some i) × (result.1 ≡ None) }
    ensures some { (i j : PlainIdent) (later : List PlainIdent) → transfer.legs ≡ i ∷ j ∷ later → (result.0 ≡ Some i) × (result.1 ≡ Some (record transfer { legs = j ∷ later; checkpoint = 0 })) }
{
    let Standing {
        number,
        kind,
        reserved,
        legs,
        stopped,
        ..
    } = transfer;
    let mut legs = legs.into_vec();
    if legs.is_empty() {
        return (None, None);
    }
    let first = legs.remove(0);
    if legs.is_empty() {
        return (Some(first), None);
    }
    let further = Standing {
        number,
        kind,
        reserved,
        checkpoint: 0,
        legs: Legs::from_vec(legs),
        stopped,
    };
    (Some(first), Some(further))
}

/// Makes the first leg of a relationship's transfer its base and takes it off, once the destination has it. With the
/// last leg the transfer ends, as it does where no leg remains. It takes no memory.
pub fn settle(relation: &mut Relation)
    ensures { Settles relation.old relation.new }
{
    if let Some(transfer) = relation.transfer.take() {
        let (first, further) = advanced(transfer);
        if first.is_some() {
            relation.base = first;
        }
        relation.transfer = further;
    }
}
