//! Tests of what is known of pages of code: runs of lines by hand, where they end, jumps into what
//! is known, blocks of bytes, bytes that change, and lines that are used up.
#![tactic(auto)]

#[cfg(test)]
mod blocks;
#[cfg(test)]
mod changes;
#[cfg(test)]
mod checks;
#[cfg(test)]
mod room;
#[cfg(test)]
mod runs;
