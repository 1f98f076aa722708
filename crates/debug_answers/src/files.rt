// The files that were run, as a client reads them.
ghost use Rattle.std.specs.Prelude.{◌≡◌, ◌++◌, ◌<◌, ◌≤◌, ◌^◌, length, OnOk, Some, None};
ghost use Rattle.std.specs.Prelude.{if◌then◌else◌, codes};
ghost use Rattle.kernel_objects.specs.Pipework.{vector_bytes};
ghost use Rattle.debug_session.specs.Sessions.{Session};
ghost use Rattle.debug_session.specs.Files.{name_told, number_or_error, file_opened};
ghost use Rattle.debug_session.specs.Files.{counted_bytes, status_bytes, status_told, piece_told};
ghost use Rattle.gdb_packets.specs.Escapes.{escaped};
ghost use Rattle.gdb_packets.specs.Hexadecimal.{number_digits};
ghost use Rattle.debug_session.specs.Files.{file_status_told, file_piece_told};
ghost use Rattle.debug_answers.specs.Images.{name_kept};

use crate::names::{name_kept, name_opened, place_of_name, rooted};
use crate::parts::{put_escaped, put_part};
use crate::texts::{put_bytes, put_number, put_text};
use gdb_packets::packets::Stretch;
use std::alloc::{AllocError, Global};

// how many bytes of a file are told at once
const MOST: u32 = 4096;

// what stands in a file's status before its length: a plain file that all may read
const MODE: [u8; 28] = [
    0, 0, 0, 0, 0, 0, 0, 0, 0, 0, 0x81, 0xa4, 0, 0, 0, 0, 0, 0, 0, 0, 0, 0, 0, 0, 0, 0, 0, 0,
];

/// A part of a name with `/` before it, as `qXfer:exec-file:read` asks. Any numbers.
pub fn put_name_told(
    alloc: Global,
    out: &mut Vec<u8>,
    name: &[u8],
    part: Stretch,
) -> Result<(), AllocError>
    ensures { OnOk result (out.new.items ≡ out.old.items ++ name_told (Some name.now) part) }
{
    let whole = rooted(alloc, name)?;
    put_part(out, whole.as_slice(), part)
}

/// The same of the image of a process, by the names of the images and the number of the image of
/// each process, both in their order from 1; an error where the process isn't known or has none.
pub fn put_exec_file(
    alloc: Global,
    out: &mut Vec<u8>,
    names: &[Vec<u8>],
    images: &[u32],
    is_known: bool,
    process: u32,
    part: Stretch,
) -> Result<(), AllocError>
    ensures { OnOk result (out.new.items ≡ out.old.items ++ name_told
        (if is_known then name_kept (vector_bytes names.now) images.now process else None) part) }
{
    if !is_known {
        return put_text(out, "E01");
    }
    match name_kept(names, images, process) {
        None => put_text(out, "E01"),
        Some(name) => put_name_told(alloc, out, name, part),
    }
}

fn put_number_or_error(out: &mut Vec<u8>, number: Option<u32>) -> Result<(), AllocError>
    ensures { OnOk result (out.new.items ≡ out.old.items ++ number_or_error number) }
{
    match number {
        None => put_text(out, "F-1,2"),
        Some(number) => {
            put_text(out, "F")?;
            put_number(out, number)
        }
    }
}

/// The place of the file whose name stands in this packet, as `vFile:open` asks, by the names of
/// the files in their order.
pub fn put_file_opened(out: &mut Vec<u8>, names: &[Vec<u8>], text: &[u8]) -> Result<(), AllocError>
    requires names { length names.now < 2 ^ 32 }
    requires text { length text.now ≤ 16384 }
    ensures { (s : Session) → s.recording.names ≡ vector_bytes names.now
        → OnOk result (out.new.items ≡ out.old.items ++ file_opened s text.now) }
{
    match name_opened(text) {
        None => put_text(out, "F-1,2"),
        Some(name) => put_number_or_error(out, place_of_name(names, name.as_slice())),
    }
}

// how many bytes follow
fn put_count(out: &mut Vec<u8>, count: u32) -> Result<(), AllocError>
    ensures { OnOk result (out.new.items
        ≡ out.old.items ++ (codes "F" ++ number_digits count ++ codes ";")) }
{
    put_text(out, "F")?;
    put_number(out, count)?;
    put_text(out, ";")
}

// the bytes of the status of a plain file of so many bytes
fn put_status_bytes(out: &mut Vec<u8>, count: u64) -> Result<(), AllocError>
    ensures { OnOk result (out.new.items ≡ out.old.items ++ escaped (status_bytes count)) }
{
    put_bytes(out, &MODE)?;
    put_escaped(out, &count.to_be_bytes())?;
    put_bytes(out, &[0; 28])
}

fn put_status(out: &mut Vec<u8>, bytes: &[u8]) -> Result<(), AllocError>
    ensures { OnOk result (out.new.items ≡ out.old.items ++ status_told (Some bytes.now)) }
{
    put_count(out, 64)?;
    put_status_bytes(out, bytes.len() as u64)
}

/// The status of the file at this place, as `vFile:fstat` asks, by the files in their order. Any
/// number.
pub fn put_file_status(out: &mut Vec<u8>, files: &[Vec<u8>], file: u32) -> Result<(), AllocError>
    ensures { (s : Session) → s.recording.files ≡ vector_bytes files.now
        → OnOk result (out.new.items ≡ out.old.items ++ file_status_told s file) }
{
    match files.get(file as usize) {
        None => put_text(out, "F-1,9"),
        Some(bytes) => put_status(out, bytes.as_slice()),
    }
}

// how many bytes follow, and these
fn put_counted(out: &mut Vec<u8>, bytes: &[u8]) -> Result<(), AllocError>
    requires { length bytes.now ≤ 4096 }
    ensures { OnOk result (out.new.items ≡ out.old.items ++ counted_bytes bytes.now) }
{
    put_count(out, bytes.len() as u32)?;
    put_escaped(out, bytes)
}

// at most so many bytes of a file from a place on, and at most 4096
fn put_piece(out: &mut Vec<u8>, bytes: &[u8], part: Stretch) -> Result<(), AllocError>
    ensures { OnOk result (out.new.items ≡ out.old.items ++ piece_told (Some bytes.now) part) }
{
    let most = part.length.min(MOST) as usize;
    let (_, rest) = bytes.split_at((part.from as usize).min(bytes.len()));
    let (piece, _) = rest.split_at(most.min(rest.len()));
    put_counted(out, piece)
}

/// Bytes of the file at this place, as `vFile:pread` asks, by the files in their order. Any
/// numbers.
pub fn put_file_piece(
    out: &mut Vec<u8>,
    files: &[Vec<u8>],
    file: u32,
    part: Stretch,
) -> Result<(), AllocError>
    ensures { (s : Session) → s.recording.files ≡ vector_bytes files.now
        → OnOk result (out.new.items ≡ out.old.items ++ file_piece_told s file part) }
{
    match files.get(file as usize) {
        None => put_text(out, "F-1,9"),
        Some(bytes) => put_piece(out, bytes.as_slice(), part),
    }
}
