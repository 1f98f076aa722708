//! The headers of a file, field by field.

ghost use Rattle.std.specs.Prelude.{◌≡◌, ◌++◌, OnOk, flat_map};
ghost use Rattle.rv_asm.specs.File.{code_of, file_header, program_header};
ghost use Rattle.rv_asm.specs.Words.{bytes_of_half, bytes_of_word};

use std::alloc::AllocError;

/// The size of the file header in bytes, where the program headers begin.
pub const FILE_HEADER: u32 = 52;

/// The size of a program header in bytes.
pub const PROGRAM_HEADER: u32 = 32;

/// The magic number, ELFCLASS32, ELFDATA2LSB, EV_CURRENT, and padding.
const IDENT: [u8; 16] = [0x7F, 0x45, 0x4C, 0x46, 1, 1, 1, 0, 0, 0, 0, 0, 0, 0, 0, 0];

/// `e_type` of an executable at fixed addresses.
const ET_EXEC: u16 = 2;

/// `e_machine` of RISC-V.
const EM_RISCV: u16 = 243;

/// `e_version`.
const EV_CURRENT: u32 = 1;

/// `p_type` of a part that is loaded.
const PT_LOAD: u32 = 1;

/// `p_align`, a page.
const PAGE: u32 = 0x1000;

/// What a program header says of a part.
#[derive(Drop)]
pub struct Segment {
    pub offset: u32,
    pub address: u32,
    pub file_size: u32,
    pub memory_size: u32,
    pub flags: u32,
}

// Std's bytes of a number, and not byteorder's writers: those answer with an error of I/O where
// memory is wanting, and here that is told as what it is.
fn put_halves(file: &mut Vec<u8>, values: &[u16]) -> Result<(), AllocError>
    ensures { OnOk result (file.new.items ≡ file.old.items ++ flat_map bytes_of_half values.now) }
{
    for value in values {
        file.extend_from_slice(&value.to_le_bytes())?;
    }
    Ok(())
}

/// Adds words, each little-endian.
pub fn put_words(file: &mut Vec<u8>, values: &[u32]) -> Result<(), AllocError>
    ensures { OnOk result (file.new.items ≡ file.old.items ++ code_of values.now) }
{
    for value in values {
        file.extend_from_slice(&value.to_le_bytes())?;
    }
    Ok(())
}

/// Adds the file header, of a file with so many program headers behind it and no sections.
pub fn put_file_header(
    file: &mut Vec<u8>,
    flags: u32,
    entry: u32,
    headers: u16,
) -> Result<(), AllocError>
    ensures { OnOk result (file.new.items ≡ file.old.items ++ file_header flags entry headers) }
{
    file.extend_from_slice(&IDENT)?;
    put_halves(file, &[ET_EXEC, EM_RISCV])?;
    put_words(file, &[EV_CURRENT, entry, FILE_HEADER, 0, flags])?;
    put_halves(
        file,
        &[FILE_HEADER as u16, PROGRAM_HEADER as u16, headers, 0, 0, 0],
    )
}

/// Adds a program header.
pub fn put_program_header(file: &mut Vec<u8>, segment: &Segment) -> Result<(), AllocError>
    ensures { OnOk result
        (file.new.items ≡ file.old.items
        ++ program_header segment.now.offset segment.now.address segment.now.file_size
        segment.now.memory_size segment.now.flags) }
{
    put_words(
        file,
        &[
            PT_LOAD,
            segment.offset,
            segment.address,
            segment.address,
            segment.file_size,
            segment.memory_size,
            segment.flags,
            PAGE,
        ],
    )
}
