//! What is read of a text, and written again.
use crate::texts::{smallest, worked};
use group_text::{GroupError, GroupRefusal, read_group};
use group_writer::write_group;
use lawful_groups::{SavedError, read_lawful_group};
use std::alloc::{AllocError, Global};
use std::process::Abort;

/// The text is refused so; none where it is a group in a lawful world.
pub fn is_read(rt: &impl Abort, alloc: Global, text: &[u8], refusal: Option<SavedError>) {
    assert_eq!(rt; read_lawful_group(alloc, text).err(), refusal);
}

/// The text is refused so; none where it is a group's.
pub fn is_spelled(rt: &impl Abort, alloc: Global, text: &[u8], refusal: Option<GroupRefusal>) {
    let error = read_group(alloc, text).err();
    assert_eq!(rt; error, refusal.map(GroupError::Refused));
}

// The text of the group that this text spells; none where it is no group's.
fn rewritten(alloc: Global, text: &[u8]) -> Result<Option<Vec<u8>>, AllocError> {
    match read_group(alloc, text) {
        Ok(group) => Ok(Some(write_group(alloc, &group)?)),
        Err(GroupError::Refused(_)) => Ok(None),
        Err(GroupError::Memory) => Err(AllocError),
    }
}

/// Whether the text is a group's, which is written as this text again, into no more room.
pub fn is_written_again(rt: &impl Abort, alloc: Global, text: &[u8]) -> bool {
    match rewritten(alloc, text).expect(rt, "memory") {
        Some(written) => {
            assert_eq!(rt; written.as_slice(), text);
            assert_eq!(rt; written.capacity(), text.len());
            true
        }
        None => false,
    }
}

#[test]
fn a_smallest_group_is_read_and_written_again(rt: HostRuntime) {
    let spelled = smallest(&rt, rt.alloc());
    assert_eq!(&rt; spelled.text.len(), 282);
    is_read(&rt, rt.alloc(), &spelled.text, None);
    assert!(&rt; is_written_again(&rt, rt.alloc(), &spelled.text));
    drop(spelled);
}

#[test]
fn a_worked_group_is_read_and_written_again(rt: HostRuntime) {
    let spelled = worked(&rt, rt.alloc());
    assert_eq!(&rt; spelled.text.len(), 8997);
    is_read(&rt, rt.alloc(), &spelled.text, None);
    assert!(&rt; is_written_again(&rt, rt.alloc(), &spelled.text));
    drop(spelled);
}
