//! Tests of whole runs of the program over streams and disks in memory: words, a script and disks in; a status, an
//! output and the disks out.
#![tactic(auto)]

#[cfg(test)]
mod disks;
#[cfg(test)]
mod program;
#[cfg(test)]
mod runs;
#[cfg(test)]
mod streams;
#[cfg(test)]
mod words;
