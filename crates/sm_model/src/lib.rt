//! Events, replies and worlds, and the definitions of answers, steps, legal runs and sound worlds.
#![tactic(auto)]

mod copying;
mod event;
mod reply;
mod world;

pub use copying::copy_rules;
pub use event::{Event, copy_label};
pub use reply::{Condition, Course, Entry, Line, Lines, Reply, Rules};
pub use world::{
    OpenKind, World, WorldPolicy, WorldRelation, WorldRule, WorldSnapshot, WorldTransfer,
    WorldVolume,
};
