//! A file as a block device. It is trusted, and tells nothing of its content.
#![tactic(auto)]

mod disk;

pub use disk::FileDisk;
