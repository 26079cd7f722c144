//! The steps of transfers that commit on a volume or change the catalogue's record of a relationship.
//!
//! Each step makes at most one commit, on the one volume that it changes, and changes no block: every image that a
//! restart leaves shows the volume before the step or the one that the definitions make of it.
#![tactic(auto)]

mod committing;
mod laws;
mod marking;
mod preparing;
mod pruning;
mod settling;
mod tidying;

pub use laws::{settles_as_defined, steps_are_the_definitions};
pub use preparing::prepare;
pub use pruning::prune;
pub use settling::settle;
pub use sm_transfer::StepFault;
pub use tidying::tidy;
