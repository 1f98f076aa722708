//! Where a session stands, in lines for a person: its round and move, the move that led there and
//! the one that comes next, and how much of the log was used.
#![tactic(auto)]

mod here;
mod moves;
mod questions;

pub use here::{Here, Next, where_lines};
