//! Tests of opening: which nodes are opened, and which fault is named of the others.
#![tactic(auto)]

#[cfg(test)]
mod nodes;
