//! Packets on the wire.
use crate::stub::Stub;
use gdb_packets::framing::{Event, Framer};
use std::process::Abort;

fn check(rt: &impl Abort, input: &str, wanted: &str) {
    let mut stub = Stub::new();
    for byte in input.as_bytes() {
        stub.take(*byte);
    }
    assert_eq!(rt; stub.sent(), wanted.as_bytes(), "{input}");
}

#[test]
fn packets_are_acknowledged(rt: HostRuntime) {
    check(&rt, "$?#3f", "+$T05thread:p1.1;#a6");
    check(&rt, "$?#3F", "+$T05thread:p1.1;#a6");
    check(&rt, "$?#00", "-");
    check(&rt, "$?#zz", "-");
    check(&rt, "$?#3f-+", "+$T05thread:p1.1;#a6$T05thread:p1.1;#a6");
    check(&rt, "$zz#f4", "+$#00");
}

#[test]
fn without_acknowledgement_the_sum_is_not_looked_at(rt: HostRuntime) {
    check(
        &rt,
        "$QStartNoAckMode#b0+$?#zz",
        "+$OK#9a$T05thread:p1.1;#a6",
    );
    check(&rt, "$QStartNoAckMode#b0-+", "+$OK#9a");
}

#[test]
fn what_is_no_packet_has_no_effect(rt: HostRuntime) {
    check(&rt, "\u{3}", "");
    check(&rt, "abc", "");
    check(&rt, "$?", "");
    check(&rt, "$?#3", "");
    check(&rt, "+\u{3}#3f$?#3f", "+$T05thread:p1.1;#a6");
}

/// The event of a packet of so many bytes `a`, with the sum of none.
fn event_of(length: usize) -> Option<Event> {
    let mut framer = Framer::new();
    framer.take(b'$');
    for _ in 0..length {
        framer.take(b'a');
    }
    framer.take(b'#');
    framer.take(b'0');
    framer.take(b'0')
}

#[test]
fn a_packet_over_the_limit_is_told_as_that(rt: HostRuntime) {
    assert_eq!(&rt; event_of(16384), Some(Event::Packet { is_sound: true }));
    assert_eq!(&rt; event_of(16385), Some(Event::TooLong { is_sound: false }));
    assert_eq!(&rt; event_of(20000), Some(Event::TooLong { is_sound: false }));
}
