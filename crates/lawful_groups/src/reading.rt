// A saved group that is read and is lawful.
ghost use Rattle.std.specs.Prelude.{◌≡◌, IfOk};
ghost use Rattle.group_text.specs.GroupText.{group_row};
ghost use Rattle.group_text.specs.Reading.{group_in_text};
ghost use Rattle.group_text.specs.Records.{group_of_record};
ghost use Rattle.lawful_groups.specs.Lawfulness.{GivesLawful};

use crate::lawful::is_lawful;
use group_text::{GroupError, GroupRecord, GroupRefusal, read_group};
use std::alloc::Global;

/// Why a lawful group isn't read.
#[derive(Clone, Copy, Debug, PartialEq, Eq)]
pub enum SavedError {
    /// The bytes are no saved group.
    Refused(GroupRefusal),
    /// They are one, and no group is in such a world.
    Unlawful,
    /// Memory ran out.
    Memory,
}

/// The saved group that these bytes spell, which is in a lawful world; or the first thing that is
/// wrong, with its place; or that its world isn't lawful.
pub fn read_lawful_group(alloc: Global, bytes: &[u8]) -> Result<GroupRecord, SavedError>
    ensures gives { GivesLawful group_of_record result (group_in_text bytes.now) }
    ensures fits { IfOk result (λ g. group_row.Fits (group_of_record g)) }
{
    let group = match read_group(alloc, bytes) {
        Ok(group) => group,
        Err(GroupError::Refused(refusal)) => return Err(SavedError::Refused(refusal)),
        Err(GroupError::Memory) => return Err(SavedError::Memory),
    };
    match is_lawful(alloc, &group) {
        Ok(true) => Ok(group),
        Ok(false) => Err(SavedError::Unlawful),
        Err(_) => Err(SavedError::Memory),
    }
}
