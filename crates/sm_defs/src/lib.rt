//! Definitions that several layers cite: images, volumes, relationships, edges and needs.
//!
//! The crate has no logic in code: its `specs/` say what the words of every contract above mean, and
//! two plain enums are the states that they name.
#![tactic(auto)]

mod states;

pub use states::{MirrorState, Status4};
