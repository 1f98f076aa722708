// Names of files, of images and in packets.
ghost use Rattle.std.specs.Prelude.{◌≡◌, ◌++◌, ◌∷◌, ◌<◌, ◌≤◌, ◌^◌, [], bytes_eq, length};
ghost use Rattle.std.specs.Prelude.{Some, None, IfOk, MatchOption};
ghost use Rattle.dos_world.specs.Numbered.{numbered};
ghost use Rattle.kernel_objects.specs.Pipework.{vector_bytes};
ghost use Rattle.debug_session.specs.Sessions.{Session};
ghost use Rattle.debug_session.specs.Files.{rooted, name_opened, place_of_name};
ghost use Rattle.debug_answers.specs.Images.{name_kept};

use arrayvec::ArrayVec;
use gdb_packets::around::around;
use gdb_packets::hexadecimal::read_bytes;
use std::alloc::{AllocError, Global};

// how many bytes a name in a packet has at most
const MOST: usize = 8192;

// a packet that opens a file has its name behind so many bytes
const OPENING: usize = 11;

// the number of the image of a process
fn image_kept(images: &[u32], process: u32) -> Option<u32>
    ensures { result ≡ numbered images.now process }
{
    if process == 0 {
        return None;
    }
    match images.get(process as usize - 1) {
        None => None,
        Some(image) => Some(*image),
    }
}

fn name_numbered(names: &[Vec<u8>], image: u32) -> Option<&[u8]>
    ensures { MatchOption result (numbered (vector_bytes names.now) image ≡ None)
        (λ name. numbered (vector_bytes names.now) image ≡ Some name.now) }
{
    if image == 0 {
        return None;
    }
    match names.get(image as usize - 1) {
        None => None,
        Some(name) => Some(name.as_slice()),
    }
}

/// The name of the image of a process, where one is kept.
pub(crate) fn name_kept<'n>(names: &'n [Vec<u8>], images: &[u32], process: u32) -> Option<&'n [u8]>
    ensures { MatchOption result (name_kept (vector_bytes names.now) images.now process ≡ None)
        (λ name. name_kept (vector_bytes names.now) images.now process ≡ Some name.now) }
{
    match image_kept(images, process) {
        None => None,
        Some(image) => name_numbered(names, image),
    }
}

// what stands before a name that doesn't begin with `/`
fn root_before(name: &[u8]) -> &'static str
    ensures { result.now ++ name.now ≡ rooted name.now }
{
    match name {
        [] => "/",
        [first, ..] => { if *first == b'/' { "" } else { "/" } }
    }
}

/// A name with `/` before it, where it doesn't begin so.
pub(crate) fn rooted(alloc: Global, name: &[u8]) -> Result<Vec<u8>, AllocError>
    ensures { IfOk result (λ whole. whole.items ≡ rooted name.now) }
{
    let mut whole = Vec::from_slice(alloc, root_before(name).as_bytes())?;
    whole.extend_from_slice(name)?;
    Ok(whole)
}

// whether a name is `/` and this file's
fn is_behind_root(file: &[u8], name: &[u8]) -> bool
    ensures { result ≡ bytes_eq (47 ∷ file.now) name.now }
{
    match name {
        [] => false,
        [first, rest @ ..] => {
            if *first != b'/' {
                return false;
            }
            file == rest
        }
    }
}

// whether a name is this file's, with `/` before it
fn is_of_file(file: &[u8], name: &[u8]) -> bool
    ensures { result ≡ bytes_eq (rooted file.now) name.now }
{
    match file {
        [] => is_behind_root(file, name),
        [first, ..] => {
            if *first == b'/' {
                return file == name;
            }
            is_behind_root(file, name)
        }
    }
}

/// The place of a file of this name.
pub(crate) fn place_of_name(names: &[Vec<u8>], name: &[u8]) -> Option<u32>
    requires { length names.now < 2 ^ 32 }
    ensures { (s : Session) → s.recording.names ≡ vector_bytes names.now
        → result ≡ place_of_name s name.now }
{
    for place in 0..names.len() {
        if is_of_file(names[place].as_slice(), name) {
            return Some(place as u32);
        }
    }
    None
}

/// The name that stands in a packet that opens a file.
pub(crate) fn name_opened(text: &[u8]) -> Option<ArrayVec<u8, MOST>>
    requires { length text.now ≤ 16384 }
    ensures { MatchOption result (name_opened text.now ≡ None)
        (λ name. name_opened text.now ≡ Some name.items) }
{
    let (_, rest) = text.split_at(OPENING.min(text.len()));
    let Some((name, _)) = around(rest, b',') else {
        return None;
    };
    read_bytes(name)
}
