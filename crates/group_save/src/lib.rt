//! A kernel's state as a saved group, and a saved group as a kernel's state: both whole, as the
//! flat world of the one and of the other say.
#![tactic(auto)]

mod recording;
mod restoring;

pub use recording::record_group;
pub use restoring::restore_group;
