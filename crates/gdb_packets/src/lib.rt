//! Packets of gdb's remote serial protocol: framing, numbers, ids, and what each packet asks.
#![tactic(auto)]

pub mod around;
pub mod commands;
pub mod duties;
pub mod escapes;
pub mod framing;
pub mod hexadecimal;
pub mod ids;
pub mod laws;
pub mod openings;
pub mod packets;
pub mod resumptions;
