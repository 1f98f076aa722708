// Why bytes are no log.
ghost use Rattle.std.specs.Prelude.{◌≡◌};
ghost use Rattle.log_text.specs.declared.refusal.ReadError.TheVariants.{Refused, Memory};

use std::alloc::{AllocError, AllocFailed};

/// Why bytes are no log: the first thing that is wrong, from left to right, with its place, counted
/// in bytes from 0.
#[derive(Clone, Copy, Debug, PartialEq, Eq)]
pub enum LogError {
    /// The bytes end inside the field that begins here.
    Short(u64),
    /// They don't begin as a log.
    Magic,
    /// They are of this other version.
    Version(u16),
    /// The header's field that begins here is out of its range.
    Header(u64),
    /// The entry's field that begins here is out of its range, or is an unknown kind.
    Entry(u64),
    /// A byte stands here, behind the end.
    AfterEnd(u64),
}

/// Why a log isn't read.
#[derive(Clone, Copy, Debug, PartialEq, Eq)]
pub enum ReadError {
    /// The bytes are no log.
    Refused(LogError),
    /// Want of memory.
    Memory,
}

impl From<LogError> for ReadError {
    ghost from_gives = { λ refusal e. e ≡ Refused refusal };

    fn from(refusal: LogError) -> ReadError {
        ReadError::Refused(refusal)
    }
}

impl From<AllocError> for ReadError {
    ghost from_gives = { λ _ e. e ≡ Memory };

    fn from(_e: AllocError) -> ReadError {
        ReadError::Memory
    }
}
