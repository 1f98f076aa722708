//! The commands of `dos`: `run` reads 1 to 8 images, runs them as one group, records the run in a
//! log and reports; `replay` runs them again by the answers of such a log; `inspect` prints the
//! parts of an image; `gen` runs an image that is made from a number; `migrate` writes a log's
//! text of version 2; `debug` shows the run of a log to a debugger.
#![tactic(auto)]

// A kernel, images and a request are passed to `drop`: where the end of a scope drops them, the
// function's proof goes through all their parts, at each exit; a kernel's take it half a minute.

mod debug;
mod generate;
mod images;
mod inspect;
mod migrate;
mod replay;
mod resume;
mod run;
mod save;
mod stops;
mod top;
mod trace;
mod words;

pub use images::load_all;
pub use run::{open, report};
pub use top::dos_main;
