//! Whether a saved group that was read is in a lawful world: what the ranges of its fields don't
//! say, by exact counts, in a time that grows with its frames, pages, processes and threads alone.
#![tactic(auto)]

mod apart;
mod counts;
mod lawful;
pub mod laws;
mod parts;
mod processes;
mod reading;
mod threads;

pub use counts::count_uses;
pub use lawful::is_lawful;
pub use reading::{SavedError, read_lawful_group};
