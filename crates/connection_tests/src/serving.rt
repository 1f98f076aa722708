//! What is put, and how it ends.
ghost use Rattle.std.specs.Prelude.{◌≤◌};

use crate::echo::Echo;
use debug_connection::{ServeStop, serve};
use dos_io::{MemoryHost, MemorySink};
use std::alloc::Global;
use std::process::Abort;

// Serves this input, in pieces of so many bytes, where these calls of the host and these puts fail.
fn serves(
    rt: &impl Abort,
    alloc: Global,
    input: &[u8],
    piece: u32,
    failing: (&[u32], &[u32]),
    wanted: (&str, Result<(), ServeStop>),
)
    requires { 1 ≤ piece }
{
    let mut host = MemoryHost::new(alloc, input, piece, &[], failing.0).expect(rt, "memory");
    let mut out = MemorySink::new(alloc, 4096, failing.1).expect(rt, "memory");
    let mut server = Echo { alloc };
    let end = serve(alloc, &mut server, &mut host, &mut out);
    assert_eq!(rt; end, wanted.1);
    assert_eq!(rt; out.bytes(), wanted.0.as_bytes());
}

const ROWS: [(&str, &str); 7] = [
    ("$?#3f", "+$?#3f$?#3f"),
    ("$?#00", "-"),
    ("$?#3f-+", "+$?#3f$?#3f$?#3f"),
    (
        "$QStartNoAckMode#b0+$?#zz-",
        "+$QStartNoAckMode#b0$QStartNoAckMode#b0$?#3f$?#3f",
    ),
    ("-\x03abc", ""),
    ("$?", ""),
    ("$#00", "+$#00$#00"),
];

#[test]
fn rows_are_put_in_any_pieces(rt: HostRuntime) {
    for (input, output) in &ROWS {
        for piece in 1..28 {
            let bytes = input.as_bytes();
            serves(&rt, rt.alloc(), bytes, piece, (&[], &[]), (output, Ok(())));
        }
    }
}

#[test]
fn what_is_put_before_a_fault_stays(rt: HostRuntime) {
    let puts = [(1, ""), (2, "+"), (3, "+$?#3f")];
    for (put, output) in &puts {
        let wanted = (*output, Err(ServeStop::SinkFault));
        serves(&rt, rt.alloc(), b"$?#3f", 5, (&[], &[*put]), wanted);
    }
    let reads = [(1, ""), (2, "+$?#3f$?#3f"), (3, "+$?#3f$?#3f-")];
    for (read, output) in &reads {
        let wanted = (*output, Err(ServeStop::HostFault));
        serves(&rt, rt.alloc(), b"$?#3f$?#00", 5, (&[*read], &[]), wanted);
    }
}

// A packet with one byte more than is taken.
fn long_packet(rt: &impl Abort, alloc: Global) -> Vec<u8> {
    let mut input = Vec::new(alloc);
    input.push(b'$').expect(rt, "memory");
    for _ in 0..16385 {
        input.push(b'a').expect(rt, "memory");
    }
    input.extend_from_slice(b"#61").expect(rt, "memory");
    input
}

#[test]
fn a_long_packet_gets_the_empty_answer(rt: HostRuntime) {
    let input = long_packet(&rt, rt.alloc());
    serves(&rt, rt.alloc(), &input, 4096, (&[], &[]), ("+$#00", Ok(())));
}
