//! Tests of what the kernel keeps: pages and frames, address spaces, the table, pipes and sleepers;
//! and of what services do to a process's memory. Nothing stands on it.
#![tactic(auto)]

#[cfg(test)]
mod checks;
#[cfg(test)]
mod children;
#[cfg(test)]
mod compared;
#[cfg(test)]
mod copies;
#[cfg(test)]
mod memory;
#[cfg(test)]
mod objects;
#[cfg(test)]
mod pages;
#[cfg(test)]
mod signals;
#[cfg(test)]
mod spaces;
#[cfg(test)]
mod table;
