//! A run that is replayed from a log, and of which it is put which frames change their owners.
#![tactic(auto)]

mod tracing;

pub use tracing::trace_log;
