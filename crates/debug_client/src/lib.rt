//! What a debugger's client has named, set and was told of, and what is told of a moment by it,
//! read from the kernel's state.
#![tactic(auto)]

mod actions;
mod births;
mod choosing;
mod client;
mod listing;
mod naming;
mod numbers;
mod points;
mod showing;

pub use actions::{action_of_thread, thread_named};
pub use births::Births;
pub use client::Client;
