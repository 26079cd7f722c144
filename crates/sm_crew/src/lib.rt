//! Who acts on a catalogue: the commands of a script, one event after another, and the report.
#![tactic(auto)]

mod alone;
mod looking;
mod report;
mod step;
mod stop;

pub use alone::run_alone;
pub use report::run_report;
