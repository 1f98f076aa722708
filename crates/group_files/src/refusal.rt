// Why a saved group isn't resumed.

use group_text::GroupRefusal;

/// Why a run isn't gone on with from the file of a saved group.
#[derive(Clone, Copy, PartialEq, Eq)]
pub enum SavedRefusal {
    /// The file is longer than 83886080 bytes (80 MiB).
    TooLong,
    /// It is no saved group, for this.
    Refused(GroupRefusal),
    /// It is one, and no group comes into such a world.
    Unlawful,
    /// It was saved from a replay of another log.
    OtherLog,
}

/// Why there is no saved group of a file.
#[derive(Clone, Copy)]
pub enum GroupFileError {
    /// The file is refused.
    Group(SavedRefusal),
    /// It can't be read.
    Fault,
    /// Memory ran out.
    Memory,
}
