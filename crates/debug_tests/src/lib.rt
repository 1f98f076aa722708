//! Conversations of a debugger with the whole program. Each guest is run, and its log is shown:
//! packet by packet stands what is answered, as it was worked out by hand and as the definition of
//! a session gives it. Nothing stands on this crate.
#![tactic(auto)]

#[cfg(test)]
mod calls;
#[cfg(test)]
mod frames;
#[cfg(test)]
mod logs;
#[cfg(test)]
mod one_thread;
#[cfg(test)]
mod processes;
#[cfg(test)]
mod races;
