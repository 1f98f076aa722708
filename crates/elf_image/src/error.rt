//! Why a file is no image.

use std::fmt;
use thiserror::Error;

/// Why a file was refused. The first fourteen are tested in this order, and the first that holds is
/// answered.
#[derive(Clone, Copy, Debug, PartialEq, Eq, Error)]
pub enum ImageError {
    /// The file has fewer than 52 bytes, so it has no file header.
    Short,
    /// The first four bytes are not `7F 45 4C 46`.
    NotElf,
    /// The file is not of the class of 32 bits.
    Class,
    /// The file's numbers are not little-endian.
    ByteOrder,
    /// The version, in `e_ident` or in `e_version`, is not 1.
    Version,
    /// `e_type` is not `ET_EXEC`.
    Kind,
    /// `e_machine` is not `EM_RISCV`.
    Machine,
    /// `e_flags` asks for instructions or registers that guests have not.
    Flags,
    /// There are over 64 program headers, or their table is not of entries of 32 bytes within the
    /// file.
    HeaderTable,
    /// The file wants a dynamic linker or an interpreter.
    Dynamic,
    /// The segment with this index in the table has more bytes than memory, or leaves the file or a
    /// guest's addresses.
    Segment(u32),
    /// The segments with these two indexes share an address; the first is the lower.
    Overlap(u32, u32),
    /// No segment takes memory.
    NoLoad,
    /// The entry is not a multiple of 2, or in no segment that may be executed.
    Entry,
    /// There was no memory to hold the parts. The file may be sound.
    Memory,
}

impl ImageError {
    ghost use Rattle.std.specs.Prelude.{◌≡◌};
    ghost use Rattle.elf_image.specs.Image.{refusal_number};

    /// The refusal's number, from 1 to 14 in the order of the tests. `Memory` is no refusal, and
    /// has 0.
    pub fn number(&self) -> u32
        ensures { result ≡ refusal_number self.now }
    {
        match self {
            ImageError::Short => 1,
            ImageError::NotElf => 2,
            ImageError::Class => 3,
            ImageError::ByteOrder => 4,
            ImageError::Version => 5,
            ImageError::Kind => 6,
            ImageError::Machine => 7,
            ImageError::Flags => 8,
            ImageError::HeaderTable => 9,
            ImageError::Dynamic => 10,
            ImageError::Segment(_) => 11,
            ImageError::Overlap(_, _) => 12,
            ImageError::NoLoad => 13,
            ImageError::Entry => 14,
            ImageError::Memory => 0,
        }
    }

    // What is wrong, in words, without the indexes of segments.
    fn text(&self) -> &'static str {
        match self {
            ImageError::Short => "the file is too short for a file header",
            ImageError::NotElf => "the file is no ELF file",
            ImageError::Class => "the file is not of 32 bits",
            ImageError::ByteOrder => "the file is not little-endian",
            ImageError::Version => "the file's version is not 1",
            ImageError::Kind => "the file is no executable",
            ImageError::Machine => "the file is not for RISC-V",
            ImageError::Flags => "the file asks for an extension",
            ImageError::HeaderTable => "the table of program headers is unsound",
            ImageError::Dynamic => "the file is not static",
            ImageError::Segment(_) => "a segment does not fit",
            ImageError::Overlap(_, _) => "segments overlap",
            ImageError::NoLoad => "the file has nothing to load",
            ImageError::Entry => "the entry is in no code",
            ImageError::Memory => "out of memory",
        }
    }
}

impl fmt::Display for ImageError {
    fn fmt<W: fmt::Write>(&self, f: &mut fmt::Formatter<W>) -> fmt::Result {
        match self {
            ImageError::Segment(index) => write!(f, "segment {index} does not fit"),
            ImageError::Overlap(low, high) => write!(f, "segments {low} and {high} overlap"),
            _ => f.write_str(self.text()),
        }
    }
}
