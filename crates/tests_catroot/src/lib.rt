//! Tests of the record of a node: a new node's and a full one, read and written, and records that are no catalogue.
#![tactic(auto)]

#[cfg(test)]
mod tests;
