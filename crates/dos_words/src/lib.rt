//! The words that the program is run with, and what they ask for.
#![tactic(auto)]

mod command;
mod error;
pub mod laws;
mod names;
mod number;
mod posts;
mod read;
mod request;

pub use error::WordsError;
pub use names::read_names;
pub use read::read_words;
pub use request::{Names, Posts, Request, Text};
