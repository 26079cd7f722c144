//! Tests of a catalogue over disks in memory: scripts with what they print, and disks that fail or stop.
#![tactic(auto)]

#[cfg(test)]
mod disks;
#[cfg(test)]
mod printing;
#[cfg(test)]
mod relating;
#[cfg(test)]
mod reports;
#[cfg(test)]
mod scripts;
#[cfg(test)]
mod stops;
