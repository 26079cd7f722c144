//! Which blocks a leg of a transfer needs at its destination, and where they land.
//!
//! Plans are made of block numbers alone; the contracts say what they are in the words of images and volumes.
#![tactic(auto)]

mod laws;
mod mirror;
mod plan;
mod vault;

pub use laws::{mirror_plans_the_leg, vault_plans_the_leg};
pub use mirror::plan_mirror;
pub use plan::{Plan, PlanFault};
pub use vault::plan_vault;
