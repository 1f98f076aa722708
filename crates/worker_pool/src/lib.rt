//! Workers: who runs the packs of a round's parallel phase, in one of several ways, and counts the
//! instructions.
//!
//! Whatever the way, `Workers::run_all` leaves each pack as `run_pack` does, in order: in place on
//! the caller's own thread; on threads with an even part each; on threads that draw packs from a
//! board; or on threads that have a deque of numbers each and steal from one another. `share` and
//! `share_from` run parts from a board in slices, for threads that stay.
#![tactic(auto)]

mod crew;
mod deques;
mod gate;
mod lent;
mod pace;
mod pools;
mod slices;
mod tally;
mod ways;
mod workers;

pub use crew::{Task, sweep};
pub use gate::{Gate, OpenGate};
pub use lent::Lent;
pub use pools::{Boarded, Serial, Spread, Stealing};
pub use slices::{SLICE, share, share_from};
pub use tally::Tally;
pub use ways::{Hands, Nobody, Staff, Way, run_in_place};
pub use workers::Workers;
