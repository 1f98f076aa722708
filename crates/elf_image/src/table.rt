//! The table of program headers.

ghost use Rattle.std.specs.Prelude.{◌≡◌, ◌+◌, ◌*◌, ◌≤◌, ◌<◌, length, filter};
ghost use Rattle.arrayvec.specs.ArrayVec.{array_vec_len};
ghost use Rattle.elf_image.specs.Fields.{e_phoff, header_at, headers, HasTable};
ghost use Rattle.elf_image.specs.Image.{is_part};

use crate::field::{
    E_PHNUM, E_PHOFF, P_FILESZ, P_FLAGS, P_MEMSZ, P_OFFSET, P_TYPE, P_VADDR, half, word,
};
use crate::header::Header;
use arrayvec::ArrayVec;

/// How many program headers a file may have.
pub const MOST_HEADERS: usize = 64;

/// The size of a program header in bytes.
pub const PROGRAM_HEADER: usize = 32;

/// Some of a file's program headers, in the table's order.
pub type Headers = ArrayVec<Header, MOST_HEADERS>;

// The header with this index in the table.
#[tactic(auto, unfolding(crate::specs::Fields::header_at))]
fn header_at(bytes: &[u8], index: u32) -> Header
    requires whole { 52 ≤ length bytes.now }
    requires inside { e_phoff bytes.now + 32 * index + 32 ≤ length bytes.now }
    ensures { result ≡ header_at bytes.now index }
{
    let place = word(bytes, E_PHOFF) as usize + PROGRAM_HEADER * index as usize;
    Header {
        index,
        kind: word(bytes, place + P_TYPE),
        offset: word(bytes, place + P_OFFSET),
        address: word(bytes, place + P_VADDR),
        file_size: word(bytes, place + P_FILESZ),
        memory_size: word(bytes, place + P_MEMSZ),
        flags: word(bytes, place + P_FLAGS),
    }
}

/// The whole table.
pub fn headers(bytes: &[u8]) -> Headers
    requires { HasTable bytes.now }
    ensures { result.items ≡ headers bytes.now }
{
    let count = half(bytes, E_PHNUM);
    let mut table = Headers::new();
    for index in 0..u32::from(count) {
        table.push(header_at(bytes, index));
    }
    table
}

/// The headers of parts.
pub fn part_headers(headers: &[Header]) -> Headers
    requires { length headers.now ≤ 64 }
    ensures { result.items ≡ filter is_part headers.now }
{
    let mut parts = Headers::new();
    for header in headers {
        if header.is_part() {
            parts.push(*header);
        }
    }
    parts
}
