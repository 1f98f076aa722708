//! A debugger's connection: bytes that a host gives are read as packets, and what a session answers
//! is framed and put to an output. `specs/` of `debug_session` says what is put.
#![tactic(auto)]

mod answering;
mod connection;
mod frames;
pub mod laws;
mod serving;
mod stops;

pub use answering::Answering;
pub use connection::Connection;
pub use serving::serve;
pub use stops::{HearStop, ServeStop};
