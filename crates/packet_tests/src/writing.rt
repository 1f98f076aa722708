//! What is written.
use arrayvec::ArrayVec;
use gdb_packets::escapes::{push_escaped, read_escaped};
use gdb_packets::hexadecimal::{push_bytes, push_number, read_bytes};
use gdb_packets::ids::push_id;
use std::process::Abort;

fn check_number(rt: &impl Abort, number: u32, wanted: &str) {
    let mut text: ArrayVec<u8, 8> = ArrayVec::new();
    push_number(&mut text, number);
    assert_eq!(rt; text.as_slice(), wanted.as_bytes());
}

#[test]
fn numbers_have_no_zeros_in_front(rt: HostRuntime) {
    check_number(&rt, 0, "0");
    check_number(&rt, 10, "a");
    check_number(&rt, 16, "10");
    check_number(&rt, 0x10050, "10050");
    check_number(&rt, 0xefff_fff0, "effffff0");
    check_number(&rt, 0xffff_ffff, "ffffffff");
}

#[test]
fn registers_are_in_memory_order(rt: HostRuntime) {
    let mut text: ArrayVec<u8, 8> = ArrayVec::new();
    push_bytes(&mut text, &0xefff_fff0u32.to_le_bytes());
    assert_eq!(&rt; text.as_slice(), "f0ffffef".as_bytes());
}

#[test]
fn digits_are_bytes(rt: HostRuntime) {
    let bytes: Option<ArrayVec<u8, 8>> = read_bytes("00fFA90a".as_bytes());
    match bytes {
        None => panic!(&rt; "no bytes"),
        Some(bytes) => assert_eq!(&rt; bytes.as_slice(), [0, 255, 169, 10].as_slice()),
    }
    let odd: Option<ArrayVec<u8, 8>> = read_bytes("00f".as_bytes());
    assert!(&rt; odd.is_none());
}

#[test]
fn an_id_names_process_and_thread(rt: HostRuntime) {
    let mut text: ArrayVec<u8, 18> = ArrayVec::new();
    push_id(&mut text, 1, 26);
    assert_eq!(&rt; text.as_slice(), "p1.1a".as_bytes());
}

#[test]
fn four_bytes_are_escaped(rt: HostRuntime) {
    let mut text: ArrayVec<u8, 16> = ArrayVec::new();
    push_escaped(&mut text, "a#$*}".as_bytes());
    let wanted = [b'a', b'}', 3, b'}', 4, b'}', 10, b'}', b']'];
    assert_eq!(&rt; text.as_slice(), wanted.as_slice());
    let back: Option<ArrayVec<u8, 16>> = read_escaped(wanted.as_slice());
    match back {
        None => panic!(&rt; "no bytes"),
        Some(back) => assert_eq!(&rt; back.as_slice(), "a#$*}".as_bytes()),
    }
}
