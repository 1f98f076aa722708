//! Executable files from instructions: words and labels are given one after another, and
//! `Builder::finish` makes an ELF32 file with the code and at most one part of data.
#![tactic(auto)]

mod builder;
mod error;
mod file;
mod item;
mod words;

pub use builder::Builder;
pub use error::AsmError;
pub use item::{Item, Label};
