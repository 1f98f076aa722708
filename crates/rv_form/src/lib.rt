//! An instruction with its fields, as one number of eight bytes: what a word stands for, once it is
//! decoded.
#![tactic(auto)]

mod decoding;
mod form;

pub use decoding::form_of;
pub use form::{Form, Op};
