//! Why there is no file.

use std::alloc::AllocError;

/// Why a builder has no file. The first three are tested in this order, and the last two of them
/// item by item. It names a label by its number, and a word by the place of its first halfword,
/// counted in halfwords from the base.
#[derive(Clone, Copy, Debug, PartialEq, Eq)]
pub enum AsmError {
    /// There is no code, a part is not within 0x1000 to 0xEFFEFFFF, or the two parts meet.
    Range,
    /// A word names the label with this number, which is not set.
    Unset(u32),
    /// The word at this place goes too far for its format.
    Reach(u32),
    /// There was no memory for the file.
    Memory,
}

impl From<AllocError> for AsmError {
    ghost use Rattle.std.specs.Prelude.{◌≡◌};
    ghost use Rattle.rv_asm.specs.declared.error.AsmError.{AsmError};

    ghost from_gives = { λ _ error. error ≡ AsmError.Memory };

    fn from(_: AllocError) -> AsmError {
        AsmError::Memory
    }
}
