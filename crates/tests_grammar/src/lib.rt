//! Tests of the script's grammar: what each command asks for, each kind of bad line, line ends, and any bytes.
#![tactic(auto)]

#[cfg(test)]
mod bad;
#[cfg(test)]
mod bytes;
#[cfg(test)]
mod good;
