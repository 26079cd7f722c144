//! Tests of plans: which blocks a leg needs at its destination, and where they land.
#![tactic(auto)]

#[cfg(test)]
mod tests;
