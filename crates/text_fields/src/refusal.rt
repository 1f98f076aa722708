// Why a field or a row isn't read.
ghost use Rattle.std.specs.Prelude.{◌≡◌};
ghost use Rattle.text_fields.specs.declared.refusal.RowError.TheVariants.{Refused, Memory};

use std::alloc::{AllocError, AllocFailed};

/// Why a field isn't read, with the place at which it begins, counted in bytes from 0.
#[derive(Clone, Copy, Debug, PartialEq, Eq)]
pub enum FieldError {
    /// The bytes end inside the field.
    Short(u64),
    /// The field is out of its range.
    Range(u64),
}

/// Why a row isn't read whose value takes memory.
#[derive(Clone, Copy, Debug, PartialEq, Eq)]
pub enum RowError {
    /// This field isn't read.
    Refused(FieldError),
    /// Memory ran out.
    Memory,
}

impl From<FieldError> for RowError {
    ghost from_gives = { λ field row. row ≡ Refused field };

    fn from(error: FieldError) -> RowError {
        RowError::Refused(error)
    }
}

impl From<AllocError> for RowError {
    ghost from_gives = { λ _ row. row ≡ Memory };

    fn from(_error: AllocError) -> RowError {
        RowError::Memory
    }
}

impl<T: Drop> From<AllocFailed<T>> for RowError {
    ghost from_gives = { λ _ row. row ≡ Memory };

    fn from(_error: AllocFailed<T>) -> RowError {
        RowError::Memory
    }
}
