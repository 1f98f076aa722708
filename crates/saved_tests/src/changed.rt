//! A text with each byte changed.
use crate::reading::is_written_again;
use crate::texts::{Spelled, smallest, worked};
use std::alloc::Global;
use std::process::Abort;

// How many of the texts are a group's that have another byte at this place: 0, 255, and one more.
fn changed_at(rt: &impl Abort, alloc: Global, text: &mut Vec<u8>, place: usize) -> u32 {
    let mut groups: u32 = 0;
    if place < text.len() {
        let byte = text[place];
        for other in [0, 255, byte.wrapping_add(1)] {
            if place < text.len() {
                text[place] = other;
            }
            if is_written_again(rt, alloc, text) {
                groups = groups.saturating_add(1);
            }
        }
        if place < text.len() {
            text[place] = byte;
        }
    }
    groups
}

// The same of all places.
fn changed(rt: &impl Abort, alloc: Global, mut spelled: Spelled) -> u32 {
    let mut groups: u32 = 0;
    for place in 0..spelled.text.len() {
        groups = groups.saturating_add(changed_at(rt, alloc, &mut spelled.text, place));
    }
    groups
}

// Each byte of its digest may be any.
#[test]
fn a_smallest_group_with_a_changed_byte(rt: HostRuntime) {
    let spelled = smallest(&rt, rt.alloc());
    assert!(&rt; changed(&rt, rt.alloc(), spelled) > 96);
}

// Each byte of its two pages may be any.
#[test]
fn a_worked_group_with_a_changed_byte(rt: HostRuntime) {
    let spelled = worked(&rt, rt.alloc());
    assert!(&rt; changed(&rt, rt.alloc(), spelled) > 24576);
}
