//! The top call of the program: words, a script and disks in, the transcript of its run out, and the disks back.
#![tactic(auto)]

mod commands;
mod laws;
mod outcome;
mod run;
mod running;

pub use laws::smooth_calls_end_well;
pub use outcome::Outcome;
pub use run::{run_lab, run_single};
pub use sm_output::Status;
pub use sm_words::{Mode, Options};
