//! Tests of the outside and of the log: sinks, files and hosts in memory and over std, the recorder
//! and the replayer, and logs read and written.
#![tactic(auto)]

#[cfg(test)]
mod cuts;
#[cfg(test)]
mod files;
#[cfg(test)]
mod hosts;
#[cfg(test)]
mod ranges;
#[cfg(test)]
mod recorders;
#[cfg(test)]
mod replayers;
#[cfg(test)]
mod shims;
#[cfg(test)]
mod sinks;
#[cfg(test)]
mod texts;
#[cfg(test)]
mod versions;
