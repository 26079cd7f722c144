//! Tests of volumes over disks in memory, as tables of calls and answers: a small volume through
//! restarts and stopped commits, and a destination from its first image on.
#![tactic(auto)]

#[cfg(test)]
mod asking;
#[cfg(test)]
mod destination;
#[cfg(test)]
mod listed;
#[cfg(test)]
mod making;
#[cfg(test)]
mod playing;
#[cfg(test)]
mod sending;
#[cfg(test)]
mod small;
#[cfg(test)]
mod telling;
#[cfg(test)]
mod words;
