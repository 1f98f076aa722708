//! Logs written in the other version.
ghost use Rattle.std.specs.Prelude.{◌≤◌, length};

use crate::texts::{EACH_KIND, SMALLEST, SMALLEST_ONE, STRETCHES, are};
use log_text::{LogVersion, read_log, write_log};
use std::alloc::Global;
use std::process::Abort;

// The log of `STRETCHES` in version 1.
const EACH_ROUND: [u8; 116] = [
    0x44, 0x50, 0x47, 0x4c, 0x01, 0x00, 0x01, 0x00, 0xe8, 0x03, 0x00, 0x00, 0xa0, 0x86, 0x01, 0x00,
    0x00, 0x10, 0x00, 0x00, 7, 7, 7, 7, 7, 7, 7, 7, 7, 7, 7, 7, 7, 7, 7, 7, 7, 7, 7, 7, 7, 7, 7, 7,
    7, 7, 7, 7, 7, 7, 7, 7, 0x01, 0x01, 0x00, 0x00, 0x00, 0x00, 0x01, 0x02, 0x00, 0x00, 0x00, 0x00,
    0x01, 0x03, 0x00, 0x00, 0x00, 0x00, 0x03, 0x01, 0x00, 0x00, 0x00, 0x01, 0x00, 0x00, 0x00, 0x07,
    0x00, 0x00, 0x00, 0x00, 0x00, 0x00, 0x00, 0x01, 0x04, 0x00, 0x00, 0x00, 0x00, 0x01, 0x06, 0x00,
    0x00, 0x00, 0x00, 0x01, 0x07, 0x00, 0x00, 0x00, 0x01, 0x01, 0x00, 0x00, 0x00, 0x0f, 0x00, 0x00,
    0x07, 0x00, 0x00, 0x00,
];

// What is read of this text is written in this version as that one.
fn is_written_as(rt: &impl Abort, alloc: Global, text: &[u8], version: LogVersion, wanted: &[u8])
    requires { length text.now ≤ 67108864 }
{
    let log = read_log(alloc, text).expect(rt, "a log");
    let written = write_log(alloc, &log, version).expect(rt, "memory");
    are(rt, &written, wanted);
    drop(written);
    drop(log);
}

#[test]
fn stretches_are_joined_and_taken_apart(rt: HostRuntime) {
    let alloc = rt.alloc();
    is_written_as(&rt, alloc, &SMALLEST_ONE, LogVersion::Two, &SMALLEST);
    is_written_as(&rt, alloc, &SMALLEST, LogVersion::One, &SMALLEST_ONE);
    is_written_as(&rt, alloc, &EACH_ROUND, LogVersion::Two, &STRETCHES);
    is_written_as(&rt, alloc, &STRETCHES, LogVersion::One, &EACH_ROUND);
}

// Without a stretch the versions differ in the header alone.
#[test]
fn other_entries_are_the_same_in_each_version(rt: HostRuntime) {
    let alloc = rt.alloc();
    let mut two = EACH_KIND;
    two[4] = 2;
    is_written_as(&rt, alloc, &EACH_KIND, LogVersion::Two, &two);
    is_written_as(&rt, alloc, &two, LogVersion::One, &EACH_KIND);
}
