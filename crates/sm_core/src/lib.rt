//! The catalogue: a node with its history. One event is one entry, whether the node is up or down.
#![tactic(auto)]

mod acting;
mod catalogue;
mod down;
mod next;
mod opening;
mod parts;
mod restarting;
mod rising;
mod standing;
mod unchanged;
mod written;

pub use catalogue::Catalogue;
pub use rising::{faults_are_counted, faults_join};
pub use sm_opening::OpenFault;
pub use written::only_written_blocks_are_new;
