//! Tests of traces: the lines that small groups leave, and what a line that fails leaves. The lines
//! were worked out from the rules of ownership.
#![tactic(auto)]

#[cfg(test)]
mod traces;
