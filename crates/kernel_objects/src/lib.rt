//! What processes share beside memory: pipes, and the queue of the threads that sleep.
#![tactic(auto)]

mod futexes;
mod pipes;

pub use futexes::FutexQueue;
pub use pipes::Pipes;
