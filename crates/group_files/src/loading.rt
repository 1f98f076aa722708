// A saved group, read from its file.
ghost use Rattle.std.specs.Prelude.{◌≡◌, ◌≤◌, ℕ, List, length, IfOk, IfErr, IfSome, IsErrOf, Ok};
ghost use Rattle.std.specs.Prelude.{[], ◌∷◌, ◌++◌};
ghost use Rattle.dos_io.specs.FileCalls.{getting};
ghost use Rattle.dos_io.specs.Outside.{Rose};
ghost use Rattle.dos_world.specs.Lawful.{Lawful};
ghost use Rattle.group_text.specs.GroupText.{group_row, grouptext};
ghost use Rattle.group_text.specs.Groups.{world_in};
ghost use Rattle.group_text.specs.Records.{group_of_record};
ghost use Rattle.group_files.specs.Judging.{IsGroupRefusal, IsOfItsFile, group_verdict};

use crate::refusal::{GroupFileError, SavedRefusal};
use dos_io::{FileError, Files};
use group_text::GroupRecord;
use lawful_groups::{SavedError, read_lawful_group};
use std::alloc::Global;

/// The longest file of a saved group, in bytes: 80 MiB.
const LIMIT: u64 = 83886080;

// A file that has been read, as a saved group.
fn read_file(alloc: Global, bytes: &[u8]) -> Result<GroupRecord, GroupFileError>
    requires { length bytes.now ≤ 83886080 }
    ensures accepted { IfOk result (λ g. group_verdict bytes.now ≡ Ok (group_of_record g)) }
    ensures fits { IfOk result (λ g. group_row.Fits (group_of_record g)) }
    ensures lawful { IfOk result (λ g. Lawful (world_in (group_of_record g))) }
    ensures refused { IfErr result (IsGroupRefusal (group_verdict bytes.now)) }
    ensures of_file { IfErr result IsOfItsFile }
    ensures fault { ¬ IsErrOf result GroupFileError.Fault }
{
    match read_lawful_group(alloc, bytes) {
        Ok(group) => Ok(group),
        Err(SavedError::Refused(error)) => Err(GroupFileError::Group(SavedRefusal::Refused(error))),
        Err(SavedError::Unlawful) => Err(GroupFileError::Group(SavedRefusal::Unlawful)),
        Err(SavedError::Memory) => Err(GroupFileError::Memory),
    }
}

/// The saved group that the file of this name holds: in its ranges, and in a lawful world. It is
/// refused where the file is longer than 80 MiB, spells no group, or its world isn't lawful; it is
/// a fault only where the count of `files` rose. They are asked once.
pub fn load_group<F: Files>(
    alloc: Global,
    files: &mut F,
    name: &str,
) -> Result<GroupRecord, GroupFileError>
    ensures accepted { IfOk result (λ g. IfSome (F.content files.old name.now)
        (λ file. group_verdict file ≡ Ok (group_of_record g))) }
    ensures fits { IfOk result (λ g. group_row.Fits (group_of_record g)) }
    ensures lawful { IfOk result (λ g. Lawful (world_in (group_of_record g))) }
    ensures refused { IfErr result (λ why. IfSome (F.content files.old name.now)
        (λ file. IsGroupRefusal (group_verdict file) why)) }
    ensures of_file { IfErr result IsOfItsFile }
    ensures asked { F.asked files.new ≡ F.asked files.old ++ getting name.now ∷ [] }
    ensures fault { IsErrOf result GroupFileError.Fault
        → Rose (F.faults files.old) (F.faults files.new) }
    ensures later { F.faults files.old ≤ F.faults files.new }
    ensures stays { (n : List ℕ) → F.content files.new n ≡ F.content files.old n }
    ensures tells { F.tells files.new ≡ F.tells files.old }
{
    match files.get(name, LIMIT) {
        Ok(bytes) => read_file(alloc, &bytes),
        Err(FileError::TooLong) => Err(GroupFileError::Group(SavedRefusal::TooLong)),
        Err(FileError::Fault) => Err(GroupFileError::Fault),
        Err(FileError::Memory) => Err(GroupFileError::Memory),
    }
}
