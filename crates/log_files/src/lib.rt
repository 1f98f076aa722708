//! The file of a log: read and judged, agreed with the images of a call, and written.
#![tactic(auto)]

mod agreeing;
mod loading;
mod refusal;
mod storing;

pub use agreeing::{agree, digest_of};
pub use loading::load_log;
pub use refusal::{LoadError, LogRefusal};
pub use storing::{digest_of_log, store_log};
