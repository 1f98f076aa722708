//! Guests by the words of their code, and their files.
use dos_io::MemoryFiles;
use rv_asm::Builder;
use std::alloc::Global;
use std::process::Abort;

/// Where the code begins. Its pages may be written too.
const CODE: u32 = 0x1_0000;

/// A guest, and what it leaves.
#[derive(Clone, Copy)]
pub struct Guest {
    /// Its instructions by their addresses, one behind the other. As the machine has it, one whose
    /// lowest two bits are both 1 is a word, and any other a halfword. Between them are zeros.
    pub code: &'static [(u32, u32)],
    /// What comes from outside, at most so many bytes at a time.
    pub input: &'static [u8],
    pub piece: u32,
    /// What it writes.
    pub out: &'static [u8],
    /// The lines of its processes.
    pub report: &'static str,
}

/// A guest that is given nothing and writes nothing.
pub const QUIET: Guest = Guest {
    code: &[],
    input: b"",
    piece: 64,
    out: b"",
    report: "",
};

// Zeros from one address up to another.
fn put_zeros(rt: &impl Abort, builder: &mut Builder, from: u32, to: u32) {
    for _ in 0..to.saturating_sub(from) / 2 {
        builder.half(0).expect(rt, "memory");
    }
}

// The instruction that stands at the address; the address behind it.
fn put(rt: &impl Abort, builder: &mut Builder, address: u32, code: u32) -> u32 {
    if code % 4 == 3 {
        builder.word(code).expect(rt, "memory");
        return address.wrapping_add(4);
    }
    builder.half((code % 65536) as u16).expect(rt, "memory");
    address.wrapping_add(2)
}

fn file(rt: &impl Abort, alloc: Global, guest: &Guest) -> Vec<u8> {
    let mut builder = Builder::new(alloc, CODE, true).expect(rt, "memory");
    let mut next = CODE;
    for &(address, code) in guest.code {
        put_zeros(rt, &mut builder, next, address);
        next = put(rt, &mut builder, address, code);
    }
    builder.finish().expect(rt, "an image")
}

/// Nothing but this guest, which is named `a`.
pub fn files_of(rt: &impl Abort, alloc: Global, guest: &Guest) -> MemoryFiles {
    let mut files = MemoryFiles::new(alloc, &[]).expect(rt, "memory");
    let image = file(rt, alloc, guest);
    files.add("a", &image).expect(rt, "memory");
    drop(image);
    files
}
