//! What of a first leg was shipped, beside how many blocks there are to ship.

ghost use Rattle.std.specs.Prelude.{◌↔◌, IsTrue};
ghost use Rattle.std.specs.List.{All};
ghost use Rattle.sm_model.specs.LegsFit.{IsUnderWay};
ghost use Rattle.sm_fit.specs.Shipped.{IsBelow, IsThere, IsToFit, IsWithin};

use crate::reading::has_snapshot;
use sm_base::Ident;
use sm_model::{WorldSnapshot, WorldTransfer};

/// Whether a snapshot has the identity.
pub fn is_there(snapshots: &[WorldSnapshot], ident: Ident) -> bool
    ensures { IsTrue result ↔ IsThere snapshots.now ident }
{
    has_snapshot(snapshots, ident)
}

/// Whether something of the first leg was shipped.
fn is_under_way(transfer: &WorldTransfer) -> bool
    ensures { IsTrue result ↔ IsUnderWay transfer.now }
{
    transfer.checkpoint != 0 || !transfer.landed.is_empty()
}

/// Whether the leg has to fit: something of it was shipped, and the destination lacks it.
pub fn is_to_fit(transfer: &WorldTransfer, destination: &[WorldSnapshot], leg: Ident) -> bool
    ensures { IsTrue result ↔ IsToFit transfer.now destination.now leg }
{
    if is_there(destination, leg) {
        return false;
    }
    is_under_way(transfer)
}

fn are_below(landed: &[u32], cost: usize) -> bool
    ensures { IsTrue result ↔ All (IsBelow cost) landed.now }
{
    landed.iter().all(|index| (*index as usize) < cost)
}

/// Whether no more was shipped than so many blocks.
pub fn is_within(transfer: &WorldTransfer, cost: usize) -> bool
    ensures { IsTrue result ↔ IsWithin transfer.now cost }
{
    if transfer.checkpoint as usize > cost {
        return false;
    }
    are_below(&transfer.landed, cost)
}
