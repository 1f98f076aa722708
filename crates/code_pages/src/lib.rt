//! What the code of pages stands for, while it is known: for each page a copy of its bytes, and
//! lines in the order in which they were learnt, each an instruction with what the loop that runs
//! it wants to know of it.
#![tactic(auto)]

mod kind;
mod known;
mod learning;
mod line;

pub use kind::Kind;
pub use known::{CodePages, line_from};
pub use line::Line;
