//! What a plain world answers to events on volumes, snapshots, policies and the clock.
//!
//! Each function answers its definition, and changes the world as that says. An `Err` leaves the world
//! as it was.
#![tactic(auto, unfolding(sm_model::specs::Answers::and_then, sm_model::specs::Answers::refused_if, sm_model::specs::Answers::some_or, sm_model::specs::OfVolumes::held, sm_model::specs::OfRelations::already))]

mod pieces;
mod policies;
mod volumes;

pub use pieces::{is_writable, place_of, refuse_path, volume};
pub use policies::{add_rule, create_policy, place_of_policy, policy, refuse_policy, set_clock};
pub use volumes::{cp, create_volume, read, snap, unsnap, write};
