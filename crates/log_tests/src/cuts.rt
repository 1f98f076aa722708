//! A log cut at every length.
ghost use Rattle.std.specs.Prelude.{◌≤◌};

use crate::texts::{EACH_KIND, is_read};
use log_text::{LogError, ReadError};
use std::alloc::Global;
use std::process::Abort;

/// Where the fields of `EACH_KIND` begin.
const FIELDS: [u64; 25] = [
    0, 4, 6, 8, 12, 16, 20, 52, 53, 57, 58, 62, 63, 64, 68, 72, 74, 76, 78, 79, 83, 87, 95, 96, 97,
];

/// Where the field begins in which a text of this length ends.
fn last_field(length: u64) -> u64 {
    let mut place = 0;
    for field in FIELDS {
        if field <= length {
            place = field;
        }
    }
    place
}

// The first bytes of `EACH_KIND`, so many, are short at the field that is cut.
fn is_short(rt: &impl Abort, alloc: Global, length: usize)
    requires { length ≤ 101 }
{
    let short = ReadError::Refused(LogError::Short(last_field(length as u64)));
    is_read(rt, alloc, &EACH_KIND[..length], Some(short));
}

#[test]
fn a_log_cut_at_any_length_is_short_at_the_field_that_is_cut(rt: HostRuntime) {
    for length in 0..EACH_KIND.len() {
        is_short(&rt, rt.alloc(), length);
    }
    is_read(&rt, rt.alloc(), &EACH_KIND, None);
}
