//! Tests of recorded runs that are walked: a small group's moves over logs, on and back.
#![tactic(auto)]

#[cfg(test)]
mod playing;
