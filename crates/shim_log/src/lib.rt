//! The shims of a log: the recorder, which asks a host and keeps each answer in a log; and the
//! replayer, which answers from one.
#![tactic(auto)]

pub mod laws;
mod ledger;
mod recorder;
mod replayer;

pub use ledger::Ledger;
pub use recorder::Recorder;
pub use replayer::Replayer;
