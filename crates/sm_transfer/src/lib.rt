//! One leg of a transfer: planned, shipped block by block, put onto the medium, and stopped.
//!
//! A leg is planned from what the two volumes keep in memory. After that a Ship costs one read and one write,
//! and a Checkpoint one sync; neither commits anything.
#![tactic(auto)]

mod bases;
mod begin;
mod fault;
mod landed;
mod laws;
mod planning;
mod shipping;
mod transfer;

pub use begin::begin_leg;
pub use fault::StepFault;
pub use laws::{
    checkpoint_keeps_what_landed, due_ships_fit, ship_keeps_what_landed, steps_are_the_definitions,
    what_landed_is_the_legs,
};
pub use transfer::Transfer;
