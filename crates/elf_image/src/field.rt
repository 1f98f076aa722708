//! The little-endian numbers of a file.

ghost use Rattle.std.specs.Prelude.{◌≡◌, ◌+◌, ◌≤◌, length};
ghost use Rattle.elf_image.specs.Fields.{half, word};

use byteorder::{ByteOrder, LittleEndian};

/// The size of the file header in bytes.
pub const FILE_HEADER: usize = 52;

/// Where the class, the byte order and the version stand in `e_ident`.
pub const EI_CLASS: usize = 4;

pub const EI_DATA: usize = 5;

pub const EI_VERSION: usize = 6;

// Where the other fields of the file header begin.
pub const E_TYPE: usize = 16;

pub const E_MACHINE: usize = 18;

pub const E_VERSION: usize = 20;

pub const E_ENTRY: usize = 24;

pub const E_PHOFF: usize = 28;

pub const E_FLAGS: usize = 36;

pub const E_PHENTSIZE: usize = 42;

pub const E_PHNUM: usize = 44;

// Where the fields of a program header begin, from its place on.
pub const P_TYPE: usize = 0;

pub const P_OFFSET: usize = 4;

pub const P_VADDR: usize = 8;

pub const P_FILESZ: usize = 16;

pub const P_MEMSZ: usize = 20;

pub const P_FLAGS: usize = 24;

/// The number of two bytes that begins at `place`.
pub fn half(bytes: &[u8], place: usize) -> u16
    requires { place + 2 ≤ length bytes.now }
    ensures { result ≡ half bytes.now place }
{
    LittleEndian::read_u16(&bytes[place..])
}

/// The number of four bytes that begins at `place`.
pub fn word(bytes: &[u8], place: usize) -> u32
    requires { place + 4 ≤ length bytes.now }
    ensures { result ≡ word bytes.now place }
{
    LittleEndian::read_u32(&bytes[place..])
}
