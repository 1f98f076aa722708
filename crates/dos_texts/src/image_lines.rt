//! The lines of images that aren't run.

ghost use Rattle.std.specs.Prelude.{◌≡◌, ◌≤◌, ◌++◌};
ghost use Rattle.arrayvec.specs.ArrayString.{array_string_len};
ghost use Rattle.dos_texts.specs.Exit.{line};
ghost use Rattle.dos_texts.specs.Lines.{image_too_long, image_refused, no_room, indexes_text};

use crate::line::LINE;
use arrayvec::ArrayString;
use elf_image::ImageError;
use itoa::Buffer;

/// Writes the indexes of the headers that a refusal names.
fn push_indexes(line: &mut ArrayString<LINE>, error: ImageError)
    requires { array_string_len line.old ≤ 64 }
    ensures bytes { line.new.bytes ≡ line.old.bytes ++ indexes_text error }
    ensures room { array_string_len line.new ≤ 159 }
{
    let mut number = Buffer::new();
    match error {
        ImageError::Segment(index) => {
            line.push_str(" at ");
            line.push_str(number.format(index));
        }
        ImageError::Overlap(first, second) => {
            line.push_str(" at ");
            line.push_str(number.format(first));
            line.push_str(" and ");
            line.push_str(number.format(second));
        }
        _ => {}
    }
}

/// The line of an image whose file is too long.
pub(crate) fn long_line(image: u32) -> ArrayString<LINE>
    ensures { result.bytes ≡ line (image_too_long image) }
{
    let mut number = Buffer::new();
    let mut line = ArrayString::new();
    line.push_str("dos: image ");
    line.push_str(number.format(image));
    line.push_str(" too long\n");
    line
}

/// The line of an image that is refused.
pub(crate) fn refused_line(image: u32, error: ImageError) -> ArrayString<LINE>
    ensures { result.bytes ≡ line (image_refused image error) }
{
    let mut number = Buffer::new();
    let mut line = ArrayString::new();
    line.push_str("dos: image ");
    line.push_str(number.format(image));
    line.push_str(" refused ");
    line.push_str(number.format(error.number()));
    push_indexes(&mut line, error);
    line.push_str("\n");
    line
}

/// The line of images for which there is no room.
pub(crate) fn room_line(needed: u64, frames: u32) -> ArrayString<LINE>
    ensures { result.bytes ≡ line (no_room needed frames) }
{
    let mut number = Buffer::new();
    let mut line = ArrayString::new();
    line.push_str("dos: needs ");
    line.push_str(number.format(needed));
    line.push_str(" frames, has ");
    line.push_str(number.format(frames));
    line.push_str("\n");
    line
}
