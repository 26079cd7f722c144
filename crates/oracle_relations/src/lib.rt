//! What a plain world answers to events on relationships and their transfers.
//!
//! Each function answers its definition, and changes the world as that says. An `Err` leaves the world
//! as it was.
#![tactic(auto, unfolding(sm_model::specs::Answers::and_then, sm_model::specs::Answers::refused_if, sm_model::specs::Answers::some_or, sm_model::specs::Answers::allowed, sm_defs::specs::May::refused, sm_model::specs::OfVolumes::held, sm_model::specs::OfRelations::already))]

mod relations;
mod starting;
mod target;
mod targets;
mod transfers;

pub use relations::{break_off, delete, relate, release, set_quiesced};
pub use starting::policy_of;
pub use targets::relation;
pub use transfers::{abort, initialize, resync, update};
