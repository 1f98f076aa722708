//! Which moments and moves hit what is set: breakpoints by where a thread stands, watchpoints by
//! what a move changes and touches. A watch looks before a move, and says behind it what was hit.
#![tactic(auto)]

mod breaks;
mod pages;
mod touches;
mod watched;

pub use breaks::{is_broken_at, is_thread_broken};
pub use touches::{Touch, is_touched_as, touch_of};
pub use watched::Watched;
