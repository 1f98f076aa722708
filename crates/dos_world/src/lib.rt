//! The plain types of a deterministic process group, and the registers of a thread. `specs/` has
//! the flat world that they describe: a group of processes and threads as one piece of data, what
//! an access reaches, the services, the signals, and which worlds are lawful.
#![tactic(auto)]

pub mod errors;
pub mod laws;
mod reach;
mod regs;

pub use regs::Regs;

/// What an instruction or a service wants of a page.
#[derive(Clone, Copy, Debug, PartialEq, Eq)]
pub enum Access {
    /// An instruction is read; the page needs X.
    Fetch,
    /// Data is read; every mapped page is readable.
    Load,
    /// Data is written; the page needs W.
    Store,
    /// The access of lr.w, sc.w and the AMOs: a word is read and may be written; the page needs W.
    Claim,
}

/// How much an access takes.
#[derive(Clone, Copy)]
pub enum Size {
    /// 8 bits.
    Byte,
    /// 16 bits.
    Half,
    /// 32 bits.
    Word,
}

/// Whom a frame, a page of 4096 bytes of the store, belongs to.
#[derive(Clone, Copy, Debug, PartialEq, Eq)]
pub enum Owner {
    /// Nothing maps it.
    Free,
    /// Everybody may read it, nobody may write it.
    Shared,
    /// The thread of this number may read and write it, and nobody else may; also after that thread
    /// is gone.
    Of(u32),
}

/// How a run ended.
#[derive(Clone, Copy, Debug, PartialEq, Eq)]
pub enum Ending {
    /// No thread lived.
    Done,
    /// As many rounds were run as the configuration allows.
    Limit,
    /// Threads lived, and none of them was ready.
    Stalled,
}

/// Whether a live thread runs.
#[derive(Clone, Copy, Debug, PartialEq, Eq)]
pub enum ThreadState {
    /// It runs in each round in which it is so after the signal point.
    Ready,
    /// It waits at an ecall that runs again in the first round in which it would not wait.
    Retry,
    /// It sleeps on a word until it is woken or a handler begins.
    Asleep,
}

/// What a descriptor names.
#[derive(Clone, Copy, Debug, PartialEq, Eq)]
pub enum End {
    /// The group's input, which the shim gives.
    Input,
    /// The group's output.
    Output,
    /// The group's error output.
    Error,
    /// The reading end of the pipe of this number, 0 to 63.
    PipeRead(u8),
    /// The writing end of the pipe of this number, 0 to 63.
    PipeWrite(u8),
}

/// Why an instruction stops.
#[derive(Clone, Copy, Debug, PartialEq, Eq)]
pub enum Reason {
    /// The page at this address is another's, for this access.
    Page { address: u32, access: Access },
    /// It can't be done: 4 is no instruction, 5 is ebreak, 7 is misaligned, 11 is no page or no
    /// right.
    Fault(u8),
    /// It is an ecall.
    Service,
}

/// A signal, 1 to 31, for the process of this number.
#[derive(Clone, Copy, PartialEq, Eq)]
pub struct Post {
    pub pid: u32,
    pub signal: u8,
}

/// How the threads of a round see memory before its serial phase.
#[derive(Clone, Copy, Debug, PartialEq, Eq)]
pub enum Scheme {
    /// A page is one thread's, or shared for reading. Who meets another's page waits for the
    /// serial phase.
    Ownership,
    /// Each thread works on memory as the round began and on the words that it has written itself.
    /// These are put in memory in thread order before the serial phase.
    Buffered,
}

/// What a run is given: instructions for each thread and round (16 to 65536), rounds at most (1 to
/// 1000000), frames (16 to 16384), and how the threads of a round see memory.
#[derive(Clone, Copy, Debug, PartialEq, Eq)]
pub struct Config {
    pub quantum: u32,
    pub rounds: u32,
    pub frames: u32,
    pub scheme: Scheme,
}

/// What the shim is asked, in which round, counted from 1, and for which thread.
#[derive(Clone, Copy, Debug, PartialEq, Eq)]
pub enum Question {
    /// Which signals come at the start of the round.
    Signals { round: u32 },
    /// The next bytes of the input, at most `max` (1 to 4096).
    Input { round: u32, tid: u32, max: u32 },
    /// A reading of the clock.
    Clock { round: u32, tid: u32 },
    /// Nothing: the run has ended so, after this many rounds.
    End { ending: Ending, rounds: u32 },
}

/// Where a log differs from the run that replays it: the entry, counted from 0, its question and
/// the question asked. The two questions differ.
#[derive(Clone, Copy, Debug, PartialEq, Eq)]
pub struct Misfit {
    pub entry: u32,
    pub kept: Question,
    pub asked: Question,
}

/// A page of a process: the frame, whether it may be written and executed, and whether a fork
/// shares it.
#[derive(Clone, Copy, Debug, PartialEq, Eq)]
pub struct Entry {
    pub frame: u32,
    pub write: bool,
    pub exec: bool,
    pub shared: bool,
}
