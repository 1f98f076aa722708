//! A trace of page owners: after each round a line for each frame whose owner has changed in it.
#![tactic(auto)]

mod lines;
mod putting;
mod stop;
mod tracing;

pub use lines::change_line;
pub use stop::TraceStop;
pub use tracing::run_traced;
