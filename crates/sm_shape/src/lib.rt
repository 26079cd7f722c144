//! Tests whether a world of maps is sound but for the bytes of its blocks, part by part, and the first
//! relationship that breaks a rule.
#![tactic(auto)]

mod bases;
mod copies;
mod crossing;
mod families;
mod first;
mod formed;
mod given;
mod interim;
mod kept;
mod marks;
mod numbers;
mod places;
mod policies;
mod reading;
mod relations;
mod rules;
mod shape;
mod standing;
mod tags;
mod transfers;
mod unmade;
mod volumes;

pub use bases::destinations_stand;
pub use copies::copies_named;
pub use families::families_agree;
pub use first::first_crossing;
pub use formed::is_formed;
pub use given::families_stand;
pub use interim::is_interim;
pub use kept::legs_kept;
pub use marks::{take_map, take_snapshots};
pub use shape::{interim_shape, shape_but_legs};
pub use standing::transfers_stand;
pub use tags::tags_fit;
pub use unmade::numbers_stand;
