//! The opening of a group: images become processes, threads and frames. `specs/` has the world that
//! a group opens with, and the law that it is lawful.
#![tactic(auto)]

mod error;
mod filling;
mod group;
pub mod laws;
mod open;
mod pages;

pub use error::OpenError;
pub use open::open_state;
pub use pages::{entry_of, fill_page, needed, next_page, page_count};
