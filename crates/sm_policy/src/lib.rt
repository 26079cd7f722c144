//! Policies: which labels have a rule, which snapshots a vault keeps, and where a rule has no room.
#![tactic(auto)]

mod adding;
mod classing;
mod folding;
mod policy;
mod reaching;
mod ruling;

pub use adding::{RuleFault, is_bad_keep, is_mirror_label, is_wrong_rule};
pub use policy::{Policy, Rule};
