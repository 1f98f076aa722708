//! Breakpoints and watchpoints as they are set.

/// An address in a process.
#[derive(Clone, Copy, Debug, PartialEq, Eq)]
pub struct Breakpoint {
    /// The process's number.
    pub process: u32,
    /// The address of an instruction.
    pub address: u32,
}

/// What a watchpoint is hit by.
#[derive(Clone, Copy, Debug, PartialEq, Eq)]
pub enum WatchKind {
    /// that bytes change
    Changes,
    /// that they are read
    Reads,
    /// both
    Accesses,
}

/// So many bytes from an address in a process.
#[derive(Clone, Copy, Debug, PartialEq, Eq)]
pub struct Watchpoint {
    /// The process's number.
    pub process: u32,
    /// The address of the first byte.
    pub address: u32,
    /// How many there are, from 1 to 4096.
    pub length: u32,
    /// What it is hit by.
    pub kind: WatchKind,
}
