//! A relationship from one volume to another, and the transfer that it may have.
#![tactic(auto)]

mod legs;
mod may;
mod relation;
mod state;

pub use legs::Legs;
pub use relation::{Relation, Standing};
pub use state::mirror_state;
