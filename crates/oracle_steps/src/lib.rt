//! Due steps of a world with whole images: which they are, what they do, and which one this program takes.
//!
//! Each function answers its definition, slowly and over whole lists.
#![tactic(auto)]

mod change;
mod choice;
mod due;
mod kinds;
mod opened;
mod progress;
mod publishing;
mod reverting;
mod running;
mod shipping;
mod stepping;
mod values;

pub use change::{PlainChange, PlainChoice, PlainFound, PlainPlaced};
pub use choice::chosen;
pub use due::{kind_due, reserved_leg};
pub use kinds::PlainKind;
pub use opened::open;
pub use progress::interrupted;
pub use publishing::tidy_due;
pub use running::running_in;
pub use shipping::{all_landed, at_checkpoint, bases, cost, landing, shippable, snapshot_of};
pub use stepping::step;
pub use values::PlainRunning;
