//! A saved group is written: its plain data is put as the one text that `group_text` reads, in one
//! pass, into room that is reserved once.
#![tactic(auto)]

mod fields;
mod group;
mod parts;
mod processes;
mod room;
mod threads;

pub use group::write_group;
