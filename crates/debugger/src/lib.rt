//! A debugger's session: a recorded run, where one stands in it, and what a client has named, set
//! and was told of. Each packet is answered as `debug_session` says.
#![tactic(auto)]

mod answers;
mod backwards;
mod commands;
mod forwards;
mod going;
mod halts;
mod moving;
mod opening;
mod resuming;
mod serving;
mod session;
mod stops;
mod stretches;

pub use serving::debug_group;
pub use stops::DebugStop;
