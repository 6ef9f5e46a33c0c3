//! Tests of the crates that everything else stands on.
#![tactic(auto)]

#[cfg(test)]
mod disks;
#[cfg(test)]
mod fields;
