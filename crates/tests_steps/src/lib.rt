//! Tests of the steps of transfers over volumes on disks in memory: legs in courses of steps with their answers.
#![tactic(auto)]

#[cfg(test)]
mod beginning;
#[cfg(test)]
mod courses;
#[cfg(test)]
mod making;
#[cfg(test)]
mod moving;
