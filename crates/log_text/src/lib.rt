//! The text of a log: what a log says, how it is spelled in either version, written and read, and
//! how one goes through its exchanges or adds to them in place.
#![tactic(auto)]

mod entries;
mod entry;
mod entry_reading;
mod entry_writing;
mod growing;
mod header;
mod item;
pub mod laws;
mod log;
mod log_reading;
mod log_walk;
mod log_writing;
mod posts;
mod progress;
mod refusal;
mod translation;
mod version;

pub use entry::Entry;
pub use growing::GrowingEntries;
pub use header::{Digests, LogHeader};
pub use log::Log;
pub use log_reading::read_log;
pub use log_walk::{exchange_at, place_behind};
pub use log_writing::write_log;
pub use posts::fill;
pub use refusal::{LogError, ReadError};
pub use version::LogVersion;
