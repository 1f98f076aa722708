//! Rounds of a group over the kernel's state: the parallel phase, the serial phase, and the shim's
//! question before them.
//!
//! Each call is stated over the flat world of the state, whatever bytes were sent before. See the
//! definitions of `round_core`.
#![tactic(auto)]

mod away;
mod buffers;
mod in_place;
mod kernel;
mod packs;
pub mod part;
pub mod phases;
mod ripening;
pub mod round;
mod signals;
mod taken_apart;

pub use away::{HandedOut, PartsRun, hand_out, parallel_phase, run_parts, take_in};
pub use kernel::{Kernel, run_round, serial_phase};
pub use round::RoundEnd;
pub use taken_apart::{SparePacks, put_together, take_apart};
