//! Why a group can't be opened.

use std::alloc::AllocError;
use thiserror::Error;

/// Why a group wasn't opened.
#[derive(Clone, Copy, Debug, PartialEq, Eq, Error)]
pub enum OpenError {
    /// The images need more frames than there are.
    #[error("the images need {needed} frames, and there are {frames}")]
    NoRoom {
        /// How many frames they need.
        needed: u64,
        /// How many frames there are.
        frames: u32,
    },
    /// Want of memory.
    #[error("out of memory")]
    Memory,
}

impl From<AllocError> for OpenError {
    ghost use Rattle.std.specs.Prelude.{◌≡◌};
    ghost use Rattle.group_open.specs.declared.error.OpenError.{OpenError};

    ghost from_gives = { λ _ error. error ≡ OpenError.Memory };

    fn from(_: AllocError) -> OpenError {
        OpenError::Memory
    }
}
