//! What lists of calls make of a volume: the plain assignments to the volume of the definitions.
#![tactic(auto)]

mod call;
mod performing;

pub use call::Call;
pub use performing::{perform, perform_all};
