// Named files, read and written whole.
ghost use Rattle.std.specs.Prelude.{◌≡◌, ◌≢◌, IsTrue, Bool, OnOk, Some, ◌<◌, ◌≤◌, List, ℕ, Option};
ghost use Rattle.std.specs.Prelude.{length, IfOk, IfSome, IsErrOf, [], ◌∷◌, ◌++◌};
ghost use Rattle.dos_io.specs.FileCalls.{FileCall, getting, setting};
ghost use Rattle.dos_io.specs.Outside.{Rose};
ghost use Rattle.dos_io.specs.declared.files.FileError.TheVariants.{Memory};

use std::alloc::{AllocError, AllocFailed};
use thiserror::Error;

/// Why a file wasn't read or written.
#[derive(Clone, Copy, Debug, PartialEq, Eq, Error)]
pub enum FileError {
    /// It is longer than the limit.
    #[error("the file is too long")]
    TooLong,
    /// It can't be opened, read or written.
    #[error("the file can't be read or written")]
    Fault,
    /// Memory ran out.
    #[error("out of memory")]
    Memory,
}

impl From<AllocError> for FileError {
    ghost from_gives = { λ _ e. e ≡ Memory };

    fn from(_error: AllocError) -> FileError {
        FileError::Memory
    }
}

impl<T: Drop> From<AllocFailed<T>> for FileError {
    ghost from_gives = { λ _ e. e ≡ Memory };

    fn from(_error: AllocFailed<T>) -> FileError {
        FileError::Memory
    }
}

/// Files by name.
pub trait Files {
    /// The content of a name, where it is told.
    ghost content: { Self → List ℕ → Option (List ℕ) };

    /// Whether the files tell of each name what it holds; a name of which they then tell nothing
    /// holds nothing.
    ghost tells: { Self → Bool };

    /// How often a call has failed by a fault. It never falls, and stands still at 2^64 - 1.
    ghost faults: { Self → ℕ };

    /// The calls so far, in order, whatever they answered.
    ghost asked: { Self → List FileCall };

    /// The content of a name, if it has at most `limit` bytes.
    fn get(&mut self, name: &str, limit: u64) -> Result<Vec<u8>, FileError>
        ensures bytes { IfOk result (λ v. IfSome (content self.old name.now) (λ t. v.items ≡ t)) }
        ensures held { IfOk result (λ v. IsTrue (tells self.old)
            → content self.old name.now ≡ Some v.items) }
        ensures within { IfOk result (λ v. length v.items ≤ limit) }
        ensures too_long { IsErrOf result FileError.TooLong → IfSome (content self.old name.now)
            (λ t. limit < length t) }
        ensures fault { IsErrOf result FileError.Fault → Rose (faults self.old) (faults self.new) }

        ensures asked { asked self.new ≡ asked self.old ++ getting name.now ∷ [] }
        ensures stays { (n : List ℕ) → content self.new n ≡ content self.old n }
        ensures tells { tells self.new ≡ tells self.old }
        ensures later { faults self.old ≤ faults self.new };

    /// Gives a name these bytes as its content. After a fault the name may hold anything.
    fn set(&mut self, name: &str, bytes: &[u8]) -> Result<(), FileError>
        ensures content { OnOk result (IfSome (content self.old name.now)
            (λ _. content self.new name.now ≡ Some bytes.now)) }
        ensures holds { OnOk result (IsTrue (tells self.old) → content self.new name.now
            ≡ Some bytes.now) }
        ensures memory { IsErrOf result FileError.Memory
            → content self.new name.now ≡ content self.old name.now }
        ensures never { result ≢ Err FileError.TooLong }
        ensures fault { IsErrOf result FileError.Fault → Rose (faults self.old) (faults self.new) }

        ensures asked { asked self.new ≡ asked self.old ++ setting name.now ∷ [] }
        ensures others { (n : List ℕ) → n ≢ name.now → content self.new n ≡ content self.old n }
        ensures tells { tells self.new ≡ tells self.old }
        ensures later { faults self.old ≤ faults self.new };
}
