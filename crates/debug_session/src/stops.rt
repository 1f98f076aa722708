//! Why a client is told that the run stopped, and how.

use crate::points::Watchpoint;

/// A breakpoint; a watchpoint; the birth of a process, with its thread; an end of the history; or a
/// step, a fault, or a moment that was gone to, which their signals say.
#[derive(Clone, Copy, Debug, PartialEq, Eq)]
pub enum Cause {
    Broke,
    Watched(Watchpoint),
    Bore { process: u32, thread: u32 },
    ReachedEnd,
    ReachedStart,
    Plainly,
}

/// A signal by gdb's number, a process and its thread, and why.
#[derive(Clone, Copy, Debug, PartialEq, Eq)]
pub struct Stop {
    pub signal: u8,
    pub whose: (u32, u32),
    pub cause: Cause,
}
