//! The group that is made from a number: its image, and the sinks that keep a digest of an output
//! or nothing.
//!
//! The program of the image computes on so many threads, each on a page of its own; what it does
//! is listed in `specs/Generated`, instruction by instruction.
#![tactic(auto)]

mod code;
mod image;
pub mod laws;
mod program;
mod sinks;
mod trail;

pub use image::generated_image;
pub use sinks::{DigestSink, DropSink};
