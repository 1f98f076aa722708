//! Two shims of one run: a leader asks a host and hands each exchange on, and a follower in
//! another thread answers by them. Between them is a queue under the rule that what was taken, and
//! then what it holds, is what was pushed, in order.
#![tactic(auto)]

mod bell;
mod following;
mod leading;
mod line;
mod note;
mod pushed;
mod reader;
mod teller;

pub use following::Following;
pub use leading::Leading;
pub use line::{Line, Pass};
pub use note::Note;
pub use pushed::{Sent, Taken};
pub use reader::Reader;
pub use teller::Teller;
