//! Words that a thread has written and that aren't in memory yet, in the order in which they came.
//! What the thread reads is looked up there by an index, in a few steps whatever their number, and
//! read over what memory has; to put the words in memory one goes over them alone.
#![tactic(auto)]

mod index;
mod merge;
mod words;

pub use merge::bytes_over;
pub use words::WrittenWords;

/// A word of memory of which bytes were written: its frame; its offset there, a multiple of 4; a
/// mask of the bytes that were written, bit i for byte i from the low end; and their values.
#[derive(Clone, Copy, Debug, PartialEq, Eq)]
pub struct Written {
    pub frame: u32,
    pub offset: u32,
    pub mask: u32,
    pub value: u32,
}
