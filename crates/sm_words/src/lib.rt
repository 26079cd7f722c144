//! The words of the program's line: which words it takes, and the options that they give.
#![tactic(auto)]

mod command;
mod options;
mod words;

pub use options::{Mode, Options};
pub use words::read_words;
