//! Tests of decisions: what a vault keeps, what lies upstream, what is common, and when a history is full.
#![tactic(auto)]

#[cfg(test)]
mod tests;
