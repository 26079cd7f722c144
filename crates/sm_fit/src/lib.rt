//! Tests whether what was shipped of the legs of transfers still fits, and with it whether a world of maps is sound
//! but for the bytes of its blocks and for the rules of relationships.
#![tactic(auto)]

mod first;
mod legs;
mod mirrors;
mod reading;
mod tables;
mod vaults;
mod whole;
mod window;

pub use legs::legs_fit;
pub use whole::shape;
