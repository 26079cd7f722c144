//! The test that what landed is within a running transfer's window.

ghost use Rattle.std.specs.Prelude.{◌↔◌, ◌<◌, ℕ, IsTrue};
ghost use Rattle.std.specs.List.{All};
ghost use Rattle.sm_defs.specs.Words.{Among, Ascends};
ghost use Rattle.sm_model.specs.LegsFit.{InWindow};
ghost use Rattle.sm_fit.specs.Shipped.{IsNear, WindowFits};

use sm_base::limits::WINDOW;
use sm_model::WorldTransfer;

/// Whether each index is below the next.
fn ascends(landed: &[u32]) -> bool
    ensures { IsTrue result ↔ Ascends landed.now }
{
    for place in 1..landed.len() {
        if landed[place - 1] >= landed[place] {
            return false;
        }
    }
    true
}

/// Whether all below the checkpoint are there, so that each stands at its own place.
fn has_all_below(landed: &[u32], checkpoint: u32) -> bool
    requires { Ascends landed.now }
    ensures { IsTrue result ↔ ((k : ℕ) → k < checkpoint → Among landed.now k) }
{
    let below = checkpoint as usize;
    if below > landed.len() {
        return false;
    }
    for place in 0..below {
        if landed[place] as usize != place {
            return false;
        }
    }
    true
}

fn is_near(index: u32, checkpoint: u32) -> bool
    ensures { IsTrue result ↔ IsNear checkpoint index }
{
    u64::from(index) < u64::from(checkpoint) + u64::from(WINDOW)
}

fn are_near(landed: &[u32], checkpoint: u32) -> bool
    ensures { IsTrue result ↔ All (IsNear checkpoint) landed.now }
{
    landed.iter().all(|index| is_near(*index, checkpoint))
}

fn in_window(transfer: &WorldTransfer) -> bool
    ensures { IsTrue result ↔ InWindow transfer.now }
{
    if !ascends(&transfer.landed) {
        return false;
    }
    if !has_all_below(&transfer.landed, transfer.checkpoint) {
        return false;
    }
    are_near(&transfer.landed, transfer.checkpoint)
}

/// Whether what landed of a transfer that runs ascends, with all that is below its checkpoint and nothing too far
/// past it.
pub fn window_fits(transfer: &WorldTransfer) -> bool
    ensures { IsTrue result ↔ WindowFits transfer.now }
{
    if transfer.stopped.is_some() {
        return true;
    }
    in_window(transfer)
}
