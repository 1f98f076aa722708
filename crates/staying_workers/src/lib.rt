//! Workers that stay from call to call, and draw packs from a board that they are lent. They run
//! each pack in slices, and put it back after each, so that one whose processor is slow keeps none
//! from the others.
//!
//! A thread costs as much to start and to join as some thousands of instructions of a guest; one
//! that stays, and is given the next order while it still looks for it, costs some hundred. What an
//! order lends it comes back with the order: the board, a seat at it, and what the packs share. An
//! order comes back within a bounded number of looks, or when the worker's thread has ended and was
//! joined, so a call of the pool returns whatever its workers do.
//!
//! `Kept` is the workers between calls, `Hired` those that a pool may use, and `Staying` the pool,
//! which is one of worker_pool's `Workers`. Where memory or threads are wanting the caller runs the
//! packs itself.
#![tactic(auto)]

mod fewer;
mod held;
mod kept;
mod orders;
mod pool;
mod rounds;

pub use held::Held;
pub use kept::{Hired, Kept, run_lent};
pub use orders::PackOrder;
pub use pool::Staying;
