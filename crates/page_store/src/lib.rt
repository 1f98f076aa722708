//! Pages of 4096 bytes, and the frames that hold them.
#![tactic(auto)]

mod changes;
mod compared;
mod frames;
mod page;
mod tally;

pub use compared::{Compared, Slot};
pub use frames::Frames;
pub use page::Page;
