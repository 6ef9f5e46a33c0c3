//! Tests in which threads meet at a turn, at a lock or at a gate, and of calls whose refusals no run reaches.
#![tactic(auto)]

#[cfg(test)]
mod book;
#[cfg(test)]
mod flushes;
#[cfg(test)]
mod longest;
#[cfg(test)]
mod members;
#[cfg(test)]
mod om_beside;
#[cfg(test)]
mod om_refusals;
#[cfg(test)]
mod om_store;
#[cfg(test)]
mod stripes;
#[cfg(test)]
mod tellings;
#[cfg(test)]
mod turns;
