//! Tests of rounds: a thread's quantum, the opening of a group, and the phases. Nothing stands on
//! it.
#![tactic(auto)]

#[cfg(test)]
mod checks;
#[cfg(test)]
mod guests;
#[cfg(test)]
mod opening;
#[cfg(test)]
mod quanta;
#[cfg(test)]
mod rounds;
#[cfg(test)]
mod schemes;
