//! Tests of what `dos` says: the line and the status of each refusal, the lines of a report, and
//! what `inspect` and `gen` print.
#![tactic(auto)]

#[cfg(test)]
mod printed;
#[cfg(test)]
mod refusals;
