//! Why the words give no request.
use std::alloc::AllocError;
use thiserror::Error;

/// Why the words give no request.
#[derive(Clone, Copy, Debug, PartialEq, Eq, Error)]
pub enum WordsError {
    /// They ask for nothing that the program does.
    #[error("the words are refused")]
    Refused,
    /// Want of memory.
    #[error("out of memory")]
    Memory,
}

impl From<AllocError> for WordsError {
    ghost use Rattle.std.specs.Prelude.{◌≡◌};
    ghost use Rattle.dos_words.specs.declared.error.WordsError.TheVariants.{Memory};

    ghost from_gives = { λ _ e. e ≡ Memory };

    fn from(_e: AllocError) -> WordsError {
        WordsError::Memory
    }
}
