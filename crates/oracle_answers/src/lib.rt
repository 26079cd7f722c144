//! The plain machine: what a plain world answers to each event.
//!
//! It has no disks, no script and no threads, and no disk fails in it. It is slow: there to try the
//! definitions on small worlds, and for histories to be compared with. Each function answers its
//! definition, and changes the world as that says. An `Err` leaves the world as it was.
#![tactic(auto, unfolding(sm_model::specs::Answers::and_then, sm_model::specs::Answers::refused_if, sm_model::specs::Answers::some_or, sm_model::specs::Answers::allowed, sm_defs::specs::May::refused, sm_model::specs::OfVolumes::held, sm_model::specs::OfRelations::already))]

mod acting;
mod events;
mod lines;
mod reports;

pub use acting::act;
pub use events::answer;
pub use reports::{
    head, of_image, of_relation, of_volume, show_policies, show_relations, show_snapshots,
    show_volumes,
};
