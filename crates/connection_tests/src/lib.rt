//! Tests of a debugger's connection, with a session that answers each text twice with itself.
#![tactic(auto)]

#[cfg(test)]
mod echo;
#[cfg(test)]
mod serving;
