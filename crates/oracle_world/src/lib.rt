//! A world with whole images, as plain lists, and what is asked of it.
//!
//! Each function answers its definition. They copy whole images and look through whole lists: they are
//! there to try the definitions on small worlds, and for faster code to be compared with.
#![tactic(auto)]

mod blocks;
mod changing;
mod edges;
mod finding;
mod needs;
mod values;

pub use blocks::{free, free_tags, tags_of, used};
pub use changing::{back_at, copy_transfer, with_base, with_legs, with_transfer};
pub use edges::{is_edge, is_mirror, is_mirror_edge, is_rw, mirror_state, runs, status, upstream};
pub use finding::{
    kind_at, policy_kind_at, policy_named, relation_to, snapshots_at, volume_at, volume_named,
};
pub use needs::{holder, is_needed, needed_at_destination, needed_at_source, needed_for};
pub use values::{PlainEdges, PlainFault, PlainNumber, PlainVolume, PlainWorld, small};
