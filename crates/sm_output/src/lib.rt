//! What a call of the program writes, by how it ends: the transcript of its history, the line of each entry where
//! they are asked for, and a last line.
#![tactic(auto)]

mod entries;
mod output;
mod status;
mod words;
mod writing;

pub use status::Status;
pub use writing::print;
