//! Tests of the kernel's services and of the signal point, by guests that run as whole groups: the
//! machine's worked examples, each refusal, what a signal does to a thread in each of its states,
//! a fork's copy of many pages, code that is stored while it runs, and what services see of memory
//! in each scheme. What each is to answer was worked out from the rules of the machine.
#![tactic(auto)]

#[cfg(test)]
mod checks;
#[cfg(test)]
mod code;
#[cfg(test)]
mod examples;
#[cfg(test)]
mod guests;
#[cfg(test)]
mod pages;
#[cfg(test)]
mod refusals;
#[cfg(test)]
mod runs;
#[cfg(test)]
mod schemes;
#[cfg(test)]
mod signals;
