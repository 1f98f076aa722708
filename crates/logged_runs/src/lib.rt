//! Runs of a group that was opened, recorded in a log, replayed from one, as
//! far as a round or whole, or gone on with from there.
#![tactic(auto)]

pub mod laws;
mod recording;
mod replaying;
mod resuming;

pub use recording::record_group;
pub use replaying::replay_group;
pub use resuming::{Arrived, replay_to, resume_group};
