//! Tests of the words that a thread has written: stores and look-ups by hand, the room, long
//! chains, and words put in memory beside stores that are done at once.
#![tactic(auto)]

#[cfg(test)]
mod chains;
#[cfg(test)]
mod checks;
#[cfg(test)]
mod commits;
#[cfg(test)]
mod room;
#[cfg(test)]
mod stores;
