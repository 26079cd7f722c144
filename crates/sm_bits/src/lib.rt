//! Sets of places, kept as one bit for each place.
//!
//! The words of a map are read and written eight at a time (`std::simd`); each answer is proved
//! equal to the plain definition on sets.
#![tactic(auto)]

mod map;
mod words;

pub use map::BitMap;
