//! The pages of a process: a map from page numbers to entries.
#![tactic(auto)]

mod space;

pub use space::Space;
