//! A record on a disk: one value in two slots, replaced whole by one commit, which no crash tears.
//!
//! Contracts see the value that is selected, the one of a commit whose outcome is not known, and the
//! disk. Which bytes spell a value is the [`Record`]'s own.
#![tactic(auto)]

mod fault;
mod finding;
mod ready;
mod record;
mod register;
mod restart;

pub use fault::{DecodeFault, OpenFault};
pub use finding::{Found, find};
pub use ready::Ready;
pub use record::Record;
pub use register::Register;
