//! Where a resync goes back to: the newest common snapshot, and what the destination has after it.
#![tactic(auto)]

mod going_back;
mod refusing;

pub use going_back::{common, revert_list};
pub use refusing::may_resync;
