//! A write-anywhere volume over one disk.
//!
//! A write takes the least physical block that neither the active image, the stable image nor a
//! snapshot uses, so no block in use is overwritten. Each call has at most one commit, which makes
//! another root the selected record of the disk; each image that a restart since the call began might
//! have left shows the volume before the call or the one after it.
#![tactic(auto)]

mod blocks;
mod calls;
mod faults;
mod finding;
mod found;
mod held;
mod io;
mod marks;
mod next;
mod open;
mod reading;
mod restart;
mod state;

pub use faults::VolumeFault;
pub use finding::look;
pub use found::{Found, find};
pub use held::Store;
pub use io::View;
pub use sm_root::Head;
