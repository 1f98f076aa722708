//! What a debugger is told of a run that was recorded: by the moments of its history. Its code is
//! the types of points and stops; `specs/` says what is told.
#![tactic(auto)]

pub mod laws;
mod points;
mod stops;

pub use points::{Breakpoint, WatchKind, Watchpoint};
pub use stops::{Cause, Stop};
