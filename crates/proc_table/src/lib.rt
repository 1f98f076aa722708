//! The table of the processes and threads of a group, exact on the lists of the flat world.
#![tactic(auto)]

mod collected;
mod processes;
mod record;
mod records;
mod signals;
mod table;
mod thread;
mod threads;

pub use collected::Collected;
pub use signals::SignalState;
pub use table::Table;
pub use thread::Thread;
