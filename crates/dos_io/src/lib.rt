//! What a run sees of the outside: sinks that take bytes, named files, a host with input and a
//! clock, and the shim that decides what crosses the border of a group.
//!
//! Each is a trait. It says in its contract what the outside tells, as an option, since a pipe or a
//! disk tells nothing that a proof could rest on, and it counts its faults, so that a caller can
//! say of each fault where it came from. The forms in memory tell all and fail where they are told
//! to; the forms over std tell nothing.
#![tactic(auto)]

mod asked_files;
mod border;
mod calls;
mod exchange;
mod files;
mod host;
mod host_question;
mod host_trail;
pub mod laws;
mod memory;
mod memory_host;
mod quiet;
mod shim;
mod signal_list;
mod sink;
mod std_host;
mod system;

pub use border::{Border, GroupBorder, Stream};
pub use exchange::{ClockRule, Exchange, Piece};
pub use files::{FileError, Files};
pub use host::{Host, HostFault};
pub use host_question::HostQuestion;
pub use memory::{MemoryFiles, MemorySink};
pub use memory_host::MemoryHost;
pub use quiet::Quiet;
pub use shim::{Shim, ShimStop};
pub use signal_list::SignalList;
pub use sink::{Sink, SinkFault};
pub use std_host::StdHost;
pub use system::{StdErr, StdFiles, StdOut, StdStream};
