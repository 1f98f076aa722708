//! Reading a file.

ghost use Rattle.std.specs.Prelude.{◌≡◌, ◌≢◌, ◌≤◌, ◌<◌, length, map, take, drop, false, All, None};
ghost use Rattle.std.specs.Prelude.{Some, OnOk, IfOk, IfErr};
ghost use Rattle.elf_image.specs.Image.{image, IsLoadable, leaves_file, part_headers, part_of};
ghost use Rattle.elf_image.specs.Image.{refusal, format_refusal, machine_refusal, table_refusal};
ghost use Rattle.elf_image.specs.Image.{overlap_refusal, entry_refusal};
ghost use Rattle.elf_image.specs.Fields.{HasTable};
ghost use Rattle.std.specs.Option.{option_or};

use crate::check::{
    check_entry, check_format, check_machine, check_overlap, check_segments, check_table,
};
use crate::error::ImageError;
use crate::field::{E_ENTRY, word};
use crate::header::Header;
use crate::image::Image;
use crate::part::{Bytes, Part, Parts};
use crate::table::{Headers, headers, part_headers};
use std::alloc::{AllocError, Global};

// The bytes that a part has in the file.
fn content<'a>(bytes: &'a [u8], header: &Header) -> &'a [u8]
    requires { leaves_file (length bytes.now) header.now ≡ false }
    ensures { result.now ≡ take header.now.file_size (drop header.now.offset bytes.now) }
{
    if header.file_size == 0 {
        return &[];
    }
    let start = header.offset as usize;
    &bytes[start..start + header.file_size as usize]
}

// The part that a header describes.
fn part_of(alloc: Global, bytes: &[u8], header: &Header) -> Result<Part, AllocError>
    requires { IsLoadable (length bytes.now) header.now }
    ensures { IfOk result (λ part. part ≡ part_of bytes.now header.now) }
{
    let content = Vec::from_slice(alloc, content(bytes, header))?;
    Ok(Part {
        address: header.address,
        bytes: Bytes::new(content),
        zeros: header.memory_size - header.file_size,
        write: header.is_writable(),
        exec: header.is_executable(),
        index: header.index,
    })
}

// The parts of a file, in the order of their headers.
fn parts_of(alloc: Global, bytes: &[u8], headers: &[Header]) -> Result<Parts, AllocError>
    requires { All (IsLoadable (length bytes.now)) headers.now }
    ensures { IfOk result (λ parts. parts ≡ map (part_of bytes.now) headers.now) }
{
    let mut parts = Vec::with_capacity(alloc, headers.len())?;
    for header in headers {
        parts.push(part_of(alloc, bytes, header)?)?;
    }
    Ok(Parts::new(parts))
}

// The checks that need no program header.
fn check_bytes(bytes: &[u8]) -> Result<(), ImageError>
    ensures header { OnOk result (52 ≤ length bytes.now) }
    ensures table { OnOk result (HasTable bytes.now) }
    ensures format { OnOk result (format_refusal bytes.now ≡ None) }
    ensures machine { OnOk result (machine_refusal bytes.now ≡ None) }
    ensures in_file { OnOk result (table_refusal bytes.now ≡ None) }
    ensures refused { IfErr result (λ error. option_or (format_refusal bytes.now)
        (option_or (machine_refusal bytes.now) (table_refusal bytes.now)) ≡ Some error) }
{
    check_format(bytes)?;
    check_machine(bytes)?;
    check_table(bytes)
}

// The checks of the parts' headers among each other and with the entry.
fn check_parts(parts: &[Header], entry: u32) -> Result<(), ImageError>
    ensures apart { OnOk result (overlap_refusal parts.now ≡ None) }
    ensures entered { OnOk result (entry_refusal entry parts.now ≡ None) }
    ensures refused { IfErr result (λ error. option_or (overlap_refusal parts.now)
        (entry_refusal entry parts.now) ≡ Some error) }
{
    check_overlap(parts)?;
    check_entry(parts, entry)
}

// The headers of the parts, of a file that is not refused.
#[tactic(auto, unfolding(crate::specs::Image::refusal))]
fn accepted_headers(bytes: &[u8]) -> Result<Headers, ImageError>
    ensures accepted { IfOk result (λ parts. refusal bytes.now ≡ None) }
    ensures header { IfOk result (λ parts. 52 ≤ length bytes.now) }
    ensures parts { IfOk result (λ parts. parts.items ≡ part_headers bytes.now) }
    ensures refused { IfErr result (λ error. refusal bytes.now ≡ Some error) }
{
    check_bytes(bytes)?;
    let table = headers(bytes);
    check_segments(&table, bytes.len() as u64)?;
    let parts = part_headers(&table);
    check_parts(&parts, word(bytes, E_ENTRY))?;
    Ok(parts)
}

/// Reads an ELF32 executable. An `Err` other than `Memory` is the first refusal that holds of the
/// file; `Memory` comes only where there was no room for the parts.
pub fn read_image(alloc: Global, bytes: &[u8]) -> Result<Image, ImageError>
    ensures accepted { IfOk result (λ read. image bytes.now ≡ Ok read) }
    ensures refused { IfErr result (λ error. error ≢ ImageError.Memory
        → image bytes.now ≡ Err error) }

    // A file that is refused takes no memory, so that want of memory hides no refusal.
    ensures certain { IfErr (image bytes.now) (λ error. result ≡ Err error) }
{
    let headers = accepted_headers(bytes)?;
    match parts_of(alloc, bytes, &headers) {
        Ok(parts) => Ok(Image {
            entry: word(bytes, E_ENTRY),
            parts,
        }),
        Err(AllocError) => Err(ImageError::Memory),
    }
}
