//! Tests of a leader and its follower over files, hosts and sinks in memory.
#![tactic(auto)]

#[cfg(test)]
mod beside;
#[cfg(test)]
mod calls;
#[cfg(test)]
mod failing;
#[cfg(test)]
mod guests;
#[cfg(test)]
mod rows;
