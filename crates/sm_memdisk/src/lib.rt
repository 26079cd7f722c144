//! A simulated block device: sparse, honest, and failing exactly where it is told to.
#![tactic(auto)]

mod disk;
mod log;
mod page;
mod pages;
mod store;
mod undo;

pub use disk::MemDisk;

/// What a restart leaves in the ranges that were written since the last sync or restart.
#[derive(Clone, Copy, Debug, PartialEq, Eq)]
pub enum Image {
    /// The bytes that stood there at the last sync or restart.
    Old,
    /// The bytes that a read gave.
    New,
    /// This byte everywhere.
    Fill(u8),
}
