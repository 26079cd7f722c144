//! The script as a table of commands: its lines, their words, their options and what each asks for.
#![tactic(auto)]

mod command;
mod events;
mod fault;
mod forms;
mod given;
mod grammar;
mod limits;
mod lines;
mod number;
mod options;
mod read;
mod table;
mod tasks;
mod time;
mod typed;
mod value;
mod words;

pub use command::{Command, Script, Task};
pub use fault::{LineKind, ScriptFault};
pub use read::read_script;
