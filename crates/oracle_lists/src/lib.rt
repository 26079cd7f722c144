//! What a transfer rests on, as slow and plain functions over lists: missing blocks and costs, what
//! lands, legs, retention, pruning, and the common snapshot.
//!
//! Each function answers its definition. They copy whole lists, and are there to be read and for
//! faster code to be compared with.
#![tactic(auto)]

mod dropping;
mod keeping;
mod landing;
mod lists;
mod missing;
mod numbers;
mod sending;
mod values;

pub use dropping::{common, is_pruned, pruned, sends_all};
pub use keeping::{labels_of, retained};
pub use landing::{first_number, hole, vault_landing};
pub use lists::{has_copy, is_among, is_same, same_text, with_first};
pub use missing::{mirror_cost, missing_places, missing_tags, vault_cost};
pub use numbers::{landed_prefix, numbers_below, stands};
pub use sending::{behind, candidates, legs, up_to, without_copies};
pub use values::{
    PlainBases, PlainBlock, PlainLegs, PlainSnapshot, PlainSource, copy_image, copy_snapshots,
};
