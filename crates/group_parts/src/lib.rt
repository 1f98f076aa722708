//! The parts of a kernel's state as plain data, and built again of that: processes and threads,
//! pipes, sleepers and frames.
#![tactic(auto)]

mod building;
mod ends;
mod frames;
mod pipes;
mod reading;
mod sleepers;

pub use building::restore_table;
pub use frames::{record_frames, restore_frames};
pub use pipes::restore_pipes;
pub use reading::{record_processes, record_threads};
pub use sleepers::{record_sleepers, restore_sleepers};
