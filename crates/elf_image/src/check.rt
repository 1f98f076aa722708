//! The refusals, in their order.

ghost use Rattle.std.specs.Prelude.{◌≡◌, ◌+◌, ◌*◌, ◌≤◌, length, OnOk, option_copied, find};
ghost use Rattle.std.specs.List.{list_any};
ghost use Rattle.elf_image.specs.Fields.{HasTable};
ghost use Rattle.elf_image.specs.Image.{checked, format_refusal, machine_refusal, table_refusal};
ghost use Rattle.elf_image.specs.Image.{segment_refusal, overlap_refusal, entry_refusal};
ghost use Rattle.elf_image.specs.Image.{is_dynamic, is_segment_bad, do_meet, holds_entry};

use crate::ImageError;
use crate::field::{
    E_FLAGS, E_MACHINE, E_PHENTSIZE, E_PHNUM, E_PHOFF, E_TYPE, E_VERSION, EI_CLASS, EI_DATA,
    EI_VERSION, FILE_HEADER, half, word,
};
use crate::header::Header;
use crate::table::{MOST_HEADERS, PROGRAM_HEADER};

/// The first bytes of an ELF file.
const MAGIC: [u8; 4] = [0x7F, 0x45, 0x4C, 0x46];

/// `e_type` of an executable at fixed addresses.
const ET_EXEC: u16 = 2;

/// `e_machine` of RISC-V.
const EM_RISCV: u16 = 243;

/// The bits of `e_flags` of which none may be set.
const REFUSED_FLAGS: u32 = 0xE;

/// What the address of an instruction, and so an entry, is a multiple of.
const CODE_UNIT: u32 = 2;

/// It is a little-endian ELF32 file of version 1.
#[tactic(auto, unfolding(crate::specs::Image::format_refusal))]
pub fn check_format(bytes: &[u8]) -> Result<(), ImageError>
    ensures whole { OnOk result (52 ≤ length bytes.now) }
    ensures answer { result ≡ checked (format_refusal bytes.now) }
{
    if bytes.len() < FILE_HEADER {
        return Err(ImageError::Short);
    }
    if !bytes.starts_with(&MAGIC) {
        return Err(ImageError::NotElf);
    }
    if bytes[EI_CLASS] != 1 {
        return Err(ImageError::Class);
    }
    if bytes[EI_DATA] != 1 {
        return Err(ImageError::ByteOrder);
    }
    if bytes[EI_VERSION] != 1 {
        return Err(ImageError::Version);
    }
    if word(bytes, E_VERSION) != 1 {
        return Err(ImageError::Version);
    }
    Ok(())
}

/// It is an executable for RISC-V, without extensions.
#[tactic(auto, unfolding(crate::specs::Image::machine_refusal))]
pub fn check_machine(bytes: &[u8]) -> Result<(), ImageError>
    requires { 52 ≤ length bytes.now }
    ensures { result ≡ checked (machine_refusal bytes.now) }
{
    if half(bytes, E_TYPE) != ET_EXEC {
        return Err(ImageError::Kind);
    }
    if half(bytes, E_MACHINE) != EM_RISCV {
        return Err(ImageError::Machine);
    }
    if word(bytes, E_FLAGS) & REFUSED_FLAGS != 0 {
        return Err(ImageError::Flags);
    }
    Ok(())
}

/// The table of program headers is in the file, and not too long.
#[tactic(auto, unfolding(crate::specs::Image::table_refusal))]
pub fn check_table(bytes: &[u8]) -> Result<(), ImageError>
    requires { 52 ≤ length bytes.now }
    ensures table { OnOk result (HasTable bytes.now) }
    ensures answer { result ≡ checked (table_refusal bytes.now) }
{
    let count = usize::from(half(bytes, E_PHNUM));
    if count > MOST_HEADERS {
        return Err(ImageError::HeaderTable);
    }
    if count == 0 {
        return Ok(());
    }
    if usize::from(half(bytes, E_PHENTSIZE)) != PROGRAM_HEADER {
        return Err(ImageError::HeaderTable);
    }
    if word(bytes, E_PHOFF) as usize + PROGRAM_HEADER * count > bytes.len() {
        return Err(ImageError::HeaderTable);
    }
    Ok(())
}

fn has_dynamic(headers: &[Header]) -> bool
    ensures { result ≡ list_any is_dynamic headers.now }
{
    headers.iter().any(|header| header.is_dynamic())
}

// The first segment that can't be loaded.
fn first_bad(headers: &[Header], file_len: u64) -> Option<&Header>
    ensures { option_copied result ≡ find (is_segment_bad file_len) headers.now }
{
    headers.iter().find(|header| header.is_bad(file_len))
}

/// The file is static, and what is to be loaded can be.
#[tactic(auto, unfolding(crate::specs::Image::segment_refusal))]
pub fn check_segments(headers: &[Header], file_len: u64) -> Result<(), ImageError>
    ensures { result ≡ checked (segment_refusal file_len headers.now) }
{
    if has_dynamic(headers) {
        return Err(ImageError::Dynamic);
    }
    match first_bad(headers, file_len) {
        Some(header) => Err(ImageError::Segment(header.index)),
        None => Ok(()),
    }
}

// The first of the others that shares an address with a part.
fn first_meeting<'a>(part: &Header, others: &'a [Header]) -> Option<&'a Header>
    ensures { option_copied result ≡ find (do_meet part.now) others.now }
{
    others.iter().find(|other| part.meets(other))
}

/// No two parts share an address.
#[tactic(auto, unfolding(crate::specs::Image::overlap_refusal))]
pub fn check_overlap(parts: &[Header]) -> Result<(), ImageError>
    ensures { result ≡ checked (overlap_refusal parts.now) }
{
    let mut rest = parts;
    while let [first, others @ ..] = rest {
        if let Some(other) = first_meeting(first, others) {
            return Err(ImageError::Overlap(first.index, other.index));
        }
        rest = others;
    }
    Ok(())
}

fn is_entry_held(parts: &[Header], entry: u32) -> bool
    ensures { result ≡ list_any (holds_entry entry) parts.now }
{
    parts.iter().any(|part| part.holds_entry(entry))
}

/// There are parts, and the entry is in one that may be executed.
#[tactic(auto, unfolding(crate::specs::Image::entry_refusal))]
pub fn check_entry(parts: &[Header], entry: u32) -> Result<(), ImageError>
    ensures { result ≡ checked (entry_refusal entry parts.now) }
{
    if parts.is_empty() {
        return Err(ImageError::NoLoad);
    }
    if entry % CODE_UNIT != 0 {
        return Err(ImageError::Entry);
    }
    if !is_entry_held(parts, entry) {
        return Err(ImageError::Entry);
    }
    Ok(())
}
