//! A bitmap in levels: a bit a place, and above it a bit for each word that isn't 0.
#![tactic(auto)]

mod bitmap;
mod words;

pub use bitmap::Bitmap;
