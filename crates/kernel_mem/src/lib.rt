//! What services do to the memory of processes: the one place where the table's entries meet the
//! frames.
//!
//! Each call is stated over every world that frames and a table are set into (`specs/Seen`), by the
//! flat world's own definitions.
#![tactic(auto)]

mod copy;
mod drop;
mod forking;
mod map;
mod ranges;
mod words;

pub use copy::{check, copy_in, copy_out};
pub use drop::{drop_space, unmap};
pub use forking::fork;
pub use map::map_pages;
pub use ranges::share;
pub use words::{entry_at, grant_load, word_at};
