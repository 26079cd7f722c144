//! Opening a node: which world its disks spell, or the first fault of them.
#![tactic(auto)]

mod catalog;
mod fault;
mod judging;
mod laws;
mod looking;
mod lying;
mod opening;
mod records;
mod seating;
mod syncing;
mod volume;
mod volumes;
mod worlds;

pub use fault::OpenFault;
pub use laws::{
    a_fault_is_named_once, a_world_has_no_fault, a_world_is_spelled_once,
    an_opened_node_has_its_shape, an_opened_node_is_spelled,
};
pub use looking::look;
pub use opening::open;
pub use records::Records;
