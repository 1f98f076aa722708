//! A walk over a kernel, move by move: what the next move is, without making it, and the move
//! itself. Moves and moments are those of `group_moves`; the calls by which they are made are those
//! of which `group_rounds` makes its phases.
#![tactic(auto)]

mod code;
mod exits;
mod frames;
pub mod laws;
mod moving;
mod need;
mod passing;
mod stops;
mod turns;
mod walker;

pub use code::instruction_of;
pub use need::{Need, need_of};
pub use stops::why_stops;
pub use walker::{MoveKind, Phase, Walker};
