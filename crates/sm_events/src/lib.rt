//! The events of a node. Those on policies and the relating of volumes are decided here from what the catalogue keeps, and
//! committed on its disk; the others are the node's own.
#![tactic(auto)]

mod acting;
mod deciding;
mod listing;
mod policies;
mod relating;
mod tables;

pub use acting::act;
