//! Tests of the tests of a world's shape: worlds as lines of text, each with one line that is otherwise, and the
//! parts that it breaks.
#![tactic(auto)]

#[cfg(test)]
mod mirrors;
#[cfg(test)]
mod shipping;
#[cfg(test)]
mod telling;
#[cfg(test)]
mod vaults;
#[cfg(test)]
mod words;
#[cfg(test)]
mod worlds;
