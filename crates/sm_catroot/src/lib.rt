//! The record of a node: its catalogue, as it is written on disk 0, and read again.
#![tactic(auto)]

mod catalog;
mod kept;
mod laws;
mod parts;
mod paths;
mod placed;
mod policies;
mod reading;
mod relations;
mod rules;
mod transfers;
mod writing;

/// The magic word of a catalogue.
pub const MAGIC: [u8; 8] = *b"SMCATL01";

/// Legs of a transfer, at most.
pub const MOST_LEGS: u32 = 256;

pub use catalog::Catalog;
pub use laws::{both_ways, catalog_or_fault};
pub use parts::{Halves, Numbers, RelationHead, TransferHead};
pub use placed::Placed;
pub use reading::decode;
pub use writing::encode;
