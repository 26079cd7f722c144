//! The record of a volume: its root, as it is written on the volume's disk, and read again.
#![tactic(auto)]

mod fault;
mod head;
mod laws;
mod lists;
mod maps;
mod parts;
mod reading;
mod root;
mod snapshots;
mod writing;

/// The magic word of a root, version 1.
pub const MAGIC: [u8; 8] = *b"SMROOT01";

/// How many snapshots a record of version 1 holds, however many a volume may have.
pub const RECORD_SNAPSHOTS: u32 = 255;

pub use fault::RootFault;
pub use head::Head;
pub use laws::{both_ways, root_or_fault};
pub use lists::{BlockMap, Snapshots};
pub use reading::decode;
pub use root::{Root, RootSnapshot, copy_label};
pub use writing::encode;
