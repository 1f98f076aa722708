//! The file of a saved group: read and judged, held against a log, and written.
#![tactic(auto)]

mod belonging;
mod laws;
mod loading;
mod refusal;

pub use belonging::is_of_log;
pub use laws::written_groups_are_taken;
pub use loading::load_group;
pub use refusal::{GroupFileError, SavedRefusal};
