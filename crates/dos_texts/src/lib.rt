//! What `dos` says: how a call ends, with its status and the line of a refusal; the lines of a
//! report; and what `inspect`, `gen`, `migrate` and `save` print.
#![tactic(auto)]

mod group_lines;
mod image_lines;
mod inspect;
mod line;
mod log_lines;
mod migration;
mod misfit_line;
mod output;
mod refusal;
mod report;

pub use group_lines::put_saved;
pub use inspect::put_inspect;
pub use line::LINE;
pub use migration::put_migrated;
pub use output::put_output;
pub use refusal::{Refusal, ending_status, put_refusal};
pub use report::{ending_word, process_line, rounds_line};
