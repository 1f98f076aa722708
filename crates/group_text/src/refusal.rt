// Why bytes are no saved group.
ghost use Rattle.std.specs.Prelude.{◌≡◌};
ghost use Rattle.group_text.specs.Refusals.{field_refusal, row_error};
ghost use Rattle.group_text.specs.declared.refusal.GroupError.TheVariants.{Refused};

use text_fields::{FieldError, RowError};

/// Why bytes are no saved group: the first thing that is wrong, from left to right, with its place,
/// counted in bytes from 0.
#[derive(Clone, Copy, Debug, PartialEq, Eq)]
pub enum GroupRefusal {
    /// The bytes end inside the field that begins here.
    Short(u64),
    /// They don't begin as a saved group.
    Magic,
    /// They are of this other version.
    Version(u16),
    /// The field that begins here is out of its range.
    Field(u64),
    /// A byte stands here, behind the end.
    AfterEnd(u64),
}

impl From<FieldError> for GroupRefusal {
    ghost from_gives = { λ error refusal. refusal ≡ field_refusal error };

    fn from(error: FieldError) -> GroupRefusal {
        match error {
            FieldError::Short(place) => GroupRefusal::Short(place),
            FieldError::Range(place) => GroupRefusal::Field(place),
        }
    }
}

/// Why a saved group isn't read.
#[derive(Clone, Copy, Debug, PartialEq, Eq)]
pub enum GroupError {
    /// The bytes are no saved group.
    Refused(GroupRefusal),
    /// Memory ran out.
    Memory,
}

impl From<GroupRefusal> for GroupError {
    ghost from_gives = { λ refusal e. e ≡ Refused refusal };

    fn from(refusal: GroupRefusal) -> GroupError {
        GroupError::Refused(refusal)
    }
}

impl From<RowError> for GroupError {
    ghost from_gives = { λ error e. e ≡ row_error error };

    fn from(error: RowError) -> GroupError
        ensures { result ≡ row_error error }
    {
        match error {
            RowError::Refused(field) => GroupError::Refused(GroupRefusal::from(field)),
            RowError::Memory => GroupError::Memory,
        }
    }
}
