//! Tests of the packets: what each asks, how it stands on the wire, and what a person asks.
#![tactic(auto)]

#[cfg(test)]
mod checks;
#[cfg(test)]
mod commands;
#[cfg(test)]
mod packets;
#[cfg(test)]
mod resumptions;
#[cfg(test)]
mod stub;
#[cfg(test)]
mod wire;
#[cfg(test)]
mod writing;
