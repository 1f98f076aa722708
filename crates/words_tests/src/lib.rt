//! Tests of the words: what each command's words ask for, and which are refused.
#![tactic(auto)]

#[cfg(test)]
mod checks;
#[cfg(test)]
mod commands;
#[cfg(test)]
mod numbers;
#[cfg(test)]
mod posts;
#[cfg(test)]
mod refusals;
#[cfg(test)]
mod requests;
#[cfg(test)]
mod schemes;
