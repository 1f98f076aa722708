//! Texts of saved groups, spelled by hand, field by field.
use std::alloc::Global;
use std::process::Abort;

/// A field: a number of one, two or four bytes, these bytes, or so many bytes of one value.
#[derive(Clone, Copy)]
pub enum Field {
    U8(u8),
    U16(u16),
    U32(u32),
    Bytes(&'static [u8]),
    Filled(u8, u32),
}

/// A text, and for each of its bytes where the field begins in which it stands.
#[derive(Drop)]
pub struct Spelled {
    pub text: Vec<u8>,
    pub starts: Vec<u64>,
}

/// A group of one process, which has ended with status 7 and wasn't collected, in 16 Free frames.
pub const SMALLEST: [(u32, Field); 16] = [
    (1, Field::Bytes(b"DPGS")),
    (1, Field::U16(1)),
    // digest, used
    (1, Field::Filled(7, 32)),
    (1, Field::U32(0)),
    // quantum, limit of rounds, frames, rounds, thread numbers, process numbers
    (1, Field::U32(16)),
    (1, Field::U32(1)),
    (1, Field::U32(16)),
    (1, Field::U32(1)),
    (1, Field::U32(1)),
    (1, Field::U32(1)),
    // process 1: parent, kind, status
    (1, Field::U32(0)),
    (1, Field::U8(1)),
    (1, Field::U8(7)),
    // threads, pipes, sleepers
    (1, Field::U8(0)),
    (64, Field::U16(0)),
    (1, Field::U8(0)),
];

/// A group of two processes after 3 rounds. The first lives: signal 1 is ignored, and signal 2 has
/// a handler; it has its input, its outputs and both ends of pipe 0, in which `abc` stands; it has
/// the private page 0x10 in frame 0 and the shared page 0x11 in frame 1; and its one thread sleeps
/// on the word at 8 of frame 1, in a handler, with signal 1 pending and signal 2 masked. The second
/// has ended with status 9 and was collected. 14 Free frames follow.
pub const WORKED: [(u32, Field); 76] = [
    (1, Field::Bytes(b"DPGS")),
    (1, Field::U16(1)),
    // 6: digest, used
    (1, Field::Filled(7, 32)),
    (1, Field::U32(5)),
    // 42: quantum, limit of rounds, frames, rounds, thread numbers, process numbers
    (1, Field::U32(1000)),
    (1, Field::U32(100_000)),
    (1, Field::U32(16)),
    (1, Field::U32(3)),
    (1, Field::U32(2)),
    (1, Field::U32(2)),
    // 66: process 1: parent, kind, status
    (1, Field::U32(0)),
    (1, Field::U8(0)),
    (1, Field::U8(0)),
    // 72: actions
    (1, Field::U32(1)),
    (1, Field::U32(0x1_0000)),
    (29, Field::U32(0)),
    // 196: descriptors
    (1, Field::U8(1)),
    (1, Field::U8(0)),
    (1, Field::U8(2)),
    (1, Field::U8(0)),
    (1, Field::U8(3)),
    (1, Field::U8(0)),
    (1, Field::U8(4)),
    (1, Field::U8(0)),
    (1, Field::U8(5)),
    (1, Field::U8(0)),
    (54, Field::U8(0)),
    // 260: pages, each with its frame, rights, and whether it is shared
    (1, Field::U32(2)),
    (1, Field::U32(0x10)),
    (1, Field::U32(0)),
    (1, Field::U8(3)),
    (1, Field::U8(0)),
    (1, Field::U32(0x11)),
    (1, Field::U32(1)),
    (1, Field::U8(2)),
    (1, Field::U8(1)),
    // 284: process 2: parent, kind, status
    (1, Field::U32(1)),
    (1, Field::U8(2)),
    (1, Field::U8(9)),
    // 290: threads: number, process, state
    (1, Field::U8(1)),
    (1, Field::U32(1)),
    (1, Field::U32(1)),
    (1, Field::U8(2)),
    // 300: pc, x1 to x31, the reservation
    (1, Field::U32(0x1_0000)),
    (1, Field::U32(0x0102_0304)),
    (30, Field::U32(0)),
    (1, Field::U8(1)),
    (1, Field::U32(0x1_1000)),
    // 433: budget, pending, mask
    (1, Field::U32(0)),
    (1, Field::U32(2)),
    (1, Field::U32(4)),
    // 445: what is saved: pc, x1 to x31, the reservation, mask
    (1, Field::U8(1)),
    (1, Field::U32(0x1_0004)),
    (31, Field::U32(5)),
    (1, Field::U8(0)),
    (1, Field::U32(0)),
    (1, Field::U32(0)),
    // 583: pipes
    (1, Field::U16(3)),
    (1, Field::Bytes(b"abc")),
    (63, Field::U16(0)),
    // 714: sleepers: thread, frame, offset
    (1, Field::U8(1)),
    (1, Field::U32(1)),
    (1, Field::U32(1)),
    (1, Field::U16(8)),
    // 725: frame 0, of thread 1
    (1, Field::U8(2)),
    (1, Field::U32(1)),
    (1, Field::Filled(0x13, 4096)),
    // 4826: frame 1, shared
    (1, Field::U8(1)),
    (1, Field::U32(0)),
    (1, Field::Filled(0xff, 4096)),
    // 8927: the first of the Free frames
    (1, Field::U8(0)),
    (1, Field::U32(0)),
    (1, Field::U8(0)),
    (1, Field::U32(0)),
    (1, Field::U8(0)),
    (1, Field::U32(0)),
];

fn add_byte(rt: &impl Abort, spelled: &mut Spelled, byte: u8, start: u64) {
    spelled.text.push(byte).expect(rt, "memory");
    spelled.starts.push(start).expect(rt, "memory");
}

fn add_bytes(rt: &impl Abort, spelled: &mut Spelled, bytes: &[u8]) {
    let start = spelled.text.len() as u64;
    for i in 0..bytes.len() {
        add_byte(rt, spelled, bytes[i], start);
    }
}

fn add_filled(rt: &impl Abort, spelled: &mut Spelled, byte: u8, count: u32) {
    let start = spelled.text.len() as u64;
    for _ in 0..count {
        add_byte(rt, spelled, byte, start);
    }
}

/// The text becomes longer by a field.
pub fn add(rt: &impl Abort, spelled: &mut Spelled, field: Field) {
    match field {
        Field::U8(number) => add_bytes(rt, spelled, &[number]),
        Field::U16(number) => add_bytes(rt, spelled, &number.to_le_bytes()),
        Field::U32(number) => add_bytes(rt, spelled, &number.to_le_bytes()),
        Field::Bytes(bytes) => add_bytes(rt, spelled, bytes),
        Field::Filled(byte, count) => add_filled(rt, spelled, byte, count),
    }
}

fn add_times(rt: &impl Abort, spelled: &mut Spelled, times: u32, field: Field) {
    for _ in 0..times {
        add(rt, spelled, field);
    }
}

// so many Free frames
fn add_free(rt: &impl Abort, spelled: &mut Spelled, frames: u32) {
    for _ in 0..frames {
        add(rt, spelled, Field::U8(0));
        add(rt, spelled, Field::U32(0));
    }
}

/// The text of these fields, each so many times, and of so many Free frames behind them.
pub fn spell(rt: &impl Abort, alloc: Global, fields: &[(u32, Field)], free: u32) -> Spelled {
    let mut spelled = Spelled {
        text: Vec::new(alloc),
        starts: Vec::new(alloc),
    };
    for (times, field) in fields {
        add_times(rt, &mut spelled, *times, *field);
    }
    add_free(rt, &mut spelled, free);
    spelled
}

/// `SMALLEST`, whole.
pub fn smallest(rt: &impl Abort, alloc: Global) -> Spelled {
    spell(rt, alloc, &SMALLEST, 16)
}

/// `WORKED`, whole.
pub fn worked(rt: &impl Abort, alloc: Global) -> Spelled {
    spell(rt, alloc, &WORKED, 11)
}
