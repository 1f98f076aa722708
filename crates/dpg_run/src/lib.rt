//! The run of a group of images, from its opening to its report.
#![tactic(auto)]

pub mod laws;
mod open;
mod reaching;
mod report;
mod run;

pub use open::open_group;
pub use reaching::{Reached, run_to};
pub use report::{put_processes, put_report};
pub use run::{limit_ending, run_group, run_next, run_some, tell_end};
