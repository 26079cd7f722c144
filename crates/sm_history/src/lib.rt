//! The history of events, and what a value is that keeps one.
#![tactic(auto)]

mod fault;
mod history;
mod kept;

pub use fault::ActFault;
pub use history::History;
pub use kept::Kept;
