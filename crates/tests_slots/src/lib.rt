//! Tests of slots over a disk in memory: commits through restarts, and what is read.
#![tactic(auto)]

#[cfg(test)]
mod tests;
