//! Names, numbers, blocks and plain faults: the words that every other crate uses.
#![tactic(auto)]

mod faults;
mod gate;
pub mod limits;
mod names;
mod numbers;
mod refusal;

pub use faults::{Failed, NameFault, NoMemory};
pub use gate::Gate;
pub use names::{Label, Path, Path1, SnapName};
pub use numbers::{Block, DiskNo, Ident, Kind, PolicyKind, RelNo, Side, TransferKind, VolNo};
pub use refusal::{Reason, Refusal, What};
