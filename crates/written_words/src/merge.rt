// Bytes put into a word, and a word put over another.
ghost use Rattle.std.specs.Prelude.{◌≡◌, ◌+◌, ◌*◌, ◌-◌, ◌^◌, ◌≤◌, ◌<◌, ◌%◌, ◌==◌};
ghost use Rattle.std.specs.Prelude.{bit_or, if◌then◌else◌};
ghost use Rattle.dos_world.specs.Reach.{bytes_of, number_of, width, written};
ghost use Rattle.written_words.specs.Words.{with_bytes_from, written_by};

use crate::Written;
use dos_world::Size;

/// The mask of a word of which all bytes were written.
pub(crate) const WHOLE: u32 = 15;

/// The mask of an access's bytes in its word, of which it begins at this one.
#[inline(always)]
fn mask_of(first: u32, size: Size) -> u32
    requires { first + width size ≤ 4 }
    ensures { result ≡ (2 ^ width size - 1) * 2 ^ first }
{
    match size {
        Size::Byte => 1 << first,
        Size::Half => 3 << first,
        Size::Word => 15,
    }
}

/// The mask with those of an access's bytes in its word too.
#[inline(always)]
fn mask_with(mask: u32, first: u32, size: Size) -> u32
    requires mask { mask < 16 }
    requires within { first + width size ≤ 4 }
    ensures { result ≡ bit_or mask ((2 ^ width size - 1) * 2 ^ first) }
{
    match size {
        // whatever was written before
        Size::Word => WHOLE,
        _ => mask | mask_of(first, size),
    }
}

/// The number with these low bytes of a value from this byte on.
#[inline(always)]
fn value_with(old: u32, first: u32, size: Size, value: u32) -> u32
    requires { first + width size ≤ 4 }
    ensures { result ≡ number_of (written (bytes_of 4 old) first (bytes_of (width size) value)) }
{
    let mut bytes = old.to_le_bytes();
    let [a, b, c, d] = value.to_le_bytes();
    let first = first as usize;
    bytes[first] = a;
    match size {
        Size::Byte => {}
        Size::Half => bytes[first + 1] = b,
        Size::Word => bytes = [a, b, c, d],
    }
    u32::from_le_bytes(bytes)
}

/// The word with the low bytes of a value written from this byte on.
#[inline]
pub(crate) fn with_value(word: Written, first: u32, size: Size, value: u32) -> Written
    requires mask { word.mask < 16 }
    requires within { first + width size ≤ 4 }
    ensures { result ≡ with_bytes_from first (bytes_of (width size) value) word }
{
    Written {
        frame: word.frame,
        offset: word.offset,
        mask: mask_with(word.mask, first, size),
        value: value_with(word.value, first, size, value),
    }
}

// the new byte where the mask's low bit is 1, else the old one
#[inline(always)]
fn chosen(mask: u32, new: u8, old: u8) -> u8
    ensures { result ≡ (if mask % 2 == 1 then new else old) }
{
    if mask % 2 == 1 { new } else { old }
}

/// The bytes of a word of memory with those of a written word over them.
#[inline]
pub fn bytes_over(old: [u8; 4], word: Written) -> [u8; 4]
    ensures { result ≡ written_by word.mask old 0 (bytes_of 4 word.value) }
{
    // most words are written whole
    if word.mask == WHOLE {
        return word.value.to_le_bytes();
    }
    let [e, f, g, h] = old;
    let [a, b, c, d] = word.value.to_le_bytes();
    let first = word.mask;
    let second = first / 2;
    let third = second / 2;
    let fourth = third / 2;
    [
        chosen(first, a, e),
        chosen(second, b, f),
        chosen(third, c, g),
        chosen(fourth, d, h),
    ]
}
