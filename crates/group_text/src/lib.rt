//! The text of a saved group: what it says, and how it is read. `specs/GroupText` has one format
//! for each row of the text, `specs/Groups` what a saved group says and the flat world that it
//! stands for, and `specs/Records` what the plain data that is read is of it.
#![tactic(auto)]

mod group;
mod header;
pub mod laws;
mod parts;
mod processes;
mod records;
mod refusal;
mod registers;
mod rows;
mod threads;

pub use group::read_group;
pub use records::{FrameRecord, GroupRecord, ProcessRecord, SleeperRecord, ThreadRecord};
pub use refusal::{GroupError, GroupRefusal};
