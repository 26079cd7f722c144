//! A node: the catalogue on disk 0, each volume on its disk, and the disks that hold nothing.
#![tactic(auto)]

mod acting;
mod answering;
mod calls;
mod clock;
mod committing;
mod crash;
mod creating;
mod digesting;
mod fault;
mod handing;
mod holding;
mod imaging;
mod laws;
mod named;
mod naming;
mod newest;
mod node;
mod point;
mod reading;
mod removing;
mod reporting;
mod restarting;
mod returning;
mod seat;
mod showing;
mod snapping;
mod states;
mod telling;
mod writing;

pub use fault::NodeFault;
pub use laws::{falls_are_halved, halved_shows, up_is_halved};
pub use named::Named;
pub use node::Node;
pub use reporting::relation_line;
pub use seat::Seat;
pub use telling::copied;
