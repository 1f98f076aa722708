//! The parallel part of one thread: it runs in place over the frames and its space, or over pages
//! of its own with the frames lent.
#![tactic(auto)]

mod buffered;
mod extent;
mod flight;
pub mod laws;
mod lent;
mod lines;
mod pack;
mod page_places;
mod pages;
mod run;
mod slots;
mod slowly;
mod thread_memory;
mod through;

pub use pack::{Pack, Shared, View, run_out, run_pack, run_pack_through, run_slice};
pub use run::{run_until_address, run_until_stop};
