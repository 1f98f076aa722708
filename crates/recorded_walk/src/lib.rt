//! A recorded run that is walked: one move on, and to any place of its history. The history is that
//! of `debug_session`; its moves are made by a walker, over the answers of the run's log.
#![tactic(auto)]

pub mod laws;
mod making;
mod playback;
mod puts;
mod track;

pub use playback::Playback;
pub use track::at_most;
