//! Groups whose fields are in their ranges, in a world that isn't lawful.
use crate::ranges::with_others;
use crate::reading::{is_read, is_spelled};
use lawful_groups::SavedError;

/// What stands at a place of `WORKED` in place of its bytes: fewer thread numbers than processes; a
/// process that is its own parent; a pipe with bytes and no end; a frame that is used twice, by one
/// process; one that is used and Free; a thread of a process that has ended; one in the queue that
/// isn't asleep; and a sleeper that isn't a thread.
const UNLAWFUL: [(usize, &[u8]); 8] = [
    (58, &[1, 0, 0, 0]),
    (66, &[1, 0, 0, 0]),
    (202, &[0, 0, 0, 0]),
    (278, &[0, 0, 0, 0]),
    (278, &[5, 0, 0, 0]),
    (295, &[2, 0, 0, 0]),
    (299, &[0]),
    (715, &[2, 0, 0, 0]),
];

#[test]
fn groups_that_are_not_lawful_are_told(rt: HostRuntime) {
    for (place, bytes) in UNLAWFUL {
        let text = with_others(&rt, rt.alloc(), place, bytes);
        is_spelled(&rt, rt.alloc(), &text, None);
        is_read(&rt, rt.alloc(), &text, Some(SavedError::Unlawful));
    }
}
