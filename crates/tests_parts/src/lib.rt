//! Tests of single crates, a module each.
#![tactic(auto)]

#[cfg(test)]
mod bit_maps;
#[cfg(test)]
mod fields;
#[cfg(test)]
mod file_disks;
#[cfg(test)]
mod free_numbers;
#[cfg(test)]
mod memory_disks;
#[cfg(test)]
mod names;
#[cfg(test)]
mod roots;
#[cfg(test)]
mod streams;
