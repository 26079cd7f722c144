//! Tests of the plain machine: courses of events, each with the text of its answer, as tables that one loop plays.
#![tactic(auto)]

#[cfg(test)]
mod asking;
#[cfg(test)]
mod checkpoints;
#[cfg(test)]
mod failovers;
#[cfg(test)]
mod limits;
#[cfg(test)]
mod lists;
#[cfg(test)]
mod playing;
#[cfg(test)]
mod reasons;
#[cfg(test)]
mod refused_policies;
#[cfg(test)]
mod refused_resyncs;
#[cfg(test)]
mod refused_to_clients;
#[cfg(test)]
mod refused_transfers;
#[cfg(test)]
mod repeating;
#[cfg(test)]
mod restarts;
#[cfg(test)]
mod starts;
#[cfg(test)]
mod steps;
#[cfg(test)]
mod updates;
#[cfg(test)]
mod vaults;
#[cfg(test)]
mod words;
