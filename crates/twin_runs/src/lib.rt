//! The runs of a leader and of its follower, each of the same images as the other.
#![tactic(auto)]

mod both;
mod follower;
pub mod laws;
mod leader;

pub use both::{Both, run_both};
pub use follower::follow_group;
pub use leader::lead_group;
