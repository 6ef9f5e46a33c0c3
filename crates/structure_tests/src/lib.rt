//! Tests of the structures that the manager stands on.
#![tactic(auto)]

#[cfg(test)]
mod epochs;
#[cfg(test)]
mod sorted;
#[cfg(test)]
mod turns;
