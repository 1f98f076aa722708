//! A text cut at each length.
use crate::reading::{is_read, is_spelled};
use crate::texts::{Spelled, smallest, worked};
use group_text::GroupRefusal;
use lawful_groups::SavedError;
use std::alloc::Global;
use std::process::Abort;

// A text that is cut is short at the field that is cut; with a byte more it goes on behind its end.
fn is_short_at_each_field(rt: &impl Abort, alloc: Global, spelled: &Spelled) {
    for length in 0..spelled.text.len() {
        let start = spelled.starts.get(length).copied().unwrap_or(0);
        let refusal = GroupRefusal::Short(start);
        is_spelled(rt, alloc, &spelled.text[..length], Some(refusal));
    }
}

// With a byte more it goes on behind its end.
fn is_too_long(rt: &impl Abort, alloc: Global, mut spelled: Spelled) {
    let refusal = GroupRefusal::AfterEnd(spelled.text.len() as u64);
    spelled.text.push(0).expect(rt, "memory");
    is_spelled(rt, alloc, &spelled.text, Some(refusal));
    is_read(rt, alloc, &spelled.text, Some(SavedError::Refused(refusal)));
}

#[test]
fn a_smallest_group_cut_anywhere_is_short(rt: HostRuntime) {
    let spelled = smallest(&rt, rt.alloc());
    is_short_at_each_field(&rt, rt.alloc(), &spelled);
    is_too_long(&rt, rt.alloc(), spelled);
}

#[test]
fn a_worked_group_cut_anywhere_is_short(rt: HostRuntime) {
    let spelled = worked(&rt, rt.alloc());
    is_short_at_each_field(&rt, rt.alloc(), &spelled);
    is_too_long(&rt, rt.alloc(), spelled);
}
