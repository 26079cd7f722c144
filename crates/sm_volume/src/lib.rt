//! A write-anywhere volume over one disk.
//!
//! A write takes the least physical block that neither the active image, the stable image nor a
//! snapshot uses, so no block in use is overwritten. Each call has at most one commit; each image that
//! a restart since the call began might have left shows the volume before the call or the one after it.
//!
//! Contracts see a volume of the definitions beside its disk: its images with their blocks, its
//! snapshots and its numbers. How it lies on the disk is `volume_store`'s.
#![tactic(auto)]

mod calls;
mod io;
mod laws;
mod open;
mod restart;
mod volume;

pub use laws::{part_goes_on, part_is_committed, shown_at_any_place};
pub use volume::Volume;
pub use volume_store::{Found, Head, View, VolumeFault, find, look};
