//! What is sent and what is heard, as it goes over a connection.
use gdb_packets::around::around;
use std::alloc::Global;
use std::process::Abort;

/// What is sent, a packet, or behind `!` what a person asks by `monitor`; and what is heard, one
/// packet each: behind `"` bytes for the person's console, and `*` for any.
pub type Said = (&'static str, &'static [&'static str]);

fn put(rt: &impl Abort, to: &mut Vec<u8>, bytes: &[u8]) {
    to.extend_from_slice(bytes).expect(rt, "memory");
}

// two hexadecimal digits
fn put_digits(rt: &impl Abort, to: &mut Vec<u8>, byte: u8) {
    let digits = b"0123456789abcdef";
    let high = digits[(byte / 16) as usize];
    let low = digits[(byte % 16) as usize];
    put(rt, to, &[high, low]);
}

fn put_hexadecimal(rt: &impl Abort, to: &mut Vec<u8>, bytes: &[u8]) {
    for byte in bytes {
        put_digits(rt, to, *byte);
    }
}

/// Packets without acknowledgement, as a client sends them: their sums aren't looked at.
pub fn sent(rt: &impl Abort, alloc: Global, script: &[Said]) -> Vec<u8> {
    let mut bytes = Vec::new(alloc);
    put(rt, &mut bytes, b"$QStartNoAckMode#b0");
    for (packet, _) in script {
        put(rt, &mut bytes, b"$");
        match packet.strip_prefix("!") {
            Some(words) => {
                put(rt, &mut bytes, b"qRcmd,");
                put_hexadecimal(rt, &mut bytes, words.as_bytes());
            }
            None => put(rt, &mut bytes, packet.as_bytes()),
        }
        put(rt, &mut bytes, b"#00");
    }
    bytes
}

// what stands between `$` and `#`, and what follows the sum behind it
fn first_packet<'a>(rt: &impl Abort, bytes: &'a [u8]) -> (&'a [u8], &'a [u8]) {
    let rest = bytes.strip_prefix(b"$").expect(rt, "a packet");
    let (body, behind) = around(rest, b'#').expect(rt, "a packet's end");
    (body, behind.get(2..).expect(rt, "a packet's sum"))
}

// a packet as it is wanted
fn wanted_packet(rt: &impl Abort, alloc: Global, text: &str) -> Vec<u8> {
    let mut bytes = Vec::new(alloc);
    match text.strip_prefix("\"") {
        Some(told) => {
            put(rt, &mut bytes, b"O");
            put_hexadecimal(rt, &mut bytes, told.as_bytes());
        }
        None => put(rt, &mut bytes, text.as_bytes()),
    }
    bytes
}

fn check_packet(rt: &impl Abort, alloc: Global, body: &[u8], wanted: &str, packet: &str) {
    if wanted == "*" {
        return;
    }
    let bytes = wanted_packet(rt, alloc, wanted);
    assert_eq!(rt; body, bytes.as_slice(), "{packet:?}");
    drop(bytes);
}

/// What was put is what is wanted, and nothing behind it.
pub fn check_heard(rt: &impl Abort, alloc: Global, put: &[u8], script: &[Said]) {
    let mut rest = put.strip_prefix(b"+$OK#9a").expect(rt, "the first answer");
    for (packet, answers) in script {
        for wanted in *answers {
            let (body, behind) = first_packet(rt, rest);
            check_packet(rt, alloc, body, wanted, packet);
            rest = behind;
        }
    }
    assert_eq!(rt; rest.len(), 0);
}
