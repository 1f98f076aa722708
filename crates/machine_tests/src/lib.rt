//! Tests of one machine: instructions and what they do, executable files, the assembler, and the
//! image that is made from a number. Nothing stands on it.
#![tactic(auto)]

#[cfg(test)]
mod assembler;
#[cfg(test)]
mod checks;
#[cfg(test)]
mod generated;
#[cfg(test)]
mod halfwords;
#[cfg(test)]
mod images;
#[cfg(test)]
mod instructions;
#[cfg(test)]
mod steps;
