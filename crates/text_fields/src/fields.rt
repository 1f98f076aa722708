// Fields, from left to right.
ghost use Rattle.std.specs.Prelude.{◌≡◌, ◌≤◌, ℕ, List, length, IfOk};
ghost use Rattle.std.specs.Int.{w16, w32, w64};
ghost use Rattle.text_fields.specs.Formats.{u8_in, u16_in, u32_in, from_to};
ghost use Rattle.text_fields.specs.Reading.{GivesField, field_place, first_bytes, first_number};
ghost use Rattle.text_fields.specs.Reading.{first_byte};

use crate::refusal::FieldError;
use byteorder::{ByteOrder, LittleEndian};

/// The place at which the bytes that are left begin.
pub fn field_place(end: usize, bytes: &[u8]) -> u64
    ensures { result ≡ field_place end bytes.now }
{
    end.saturating_sub(bytes.len()) as u64
}

/// The next bytes, so many.
pub fn read_bytes(count: usize, end: usize, bytes: &[u8]) -> Result<(&[u8], &[u8]), FieldError>
    ensures { GivesField (λ x. (x.0.now, x.1.now)) result (first_bytes count end bytes.now) }
{
    if bytes.len() < count {
        return Err(FieldError::Short(field_place(end, bytes)));
    }
    Ok(bytes.split_at(count))
}

/// The next byte.
pub fn read_byte(end: usize, bytes: &[u8]) -> Result<(u8, &[u8]), FieldError>
    ensures { GivesField (λ x. (x.0, x.1.now)) result (first_byte end bytes.now) }
{
    match bytes {
        [] => Err(FieldError::Short(field_place(end, bytes))),
        [first, rest @ ..] => Ok((*first, rest)),
    }
}

/// The next two bytes, as a number.
#[tactic(auto, using(crate::proofs::Numbers::two_bytes))]
pub fn read_u16(end: usize, bytes: &[u8]) -> Result<(u16, &[u8]), FieldError>
    ensures { GivesField (λ x. (x.0, x.1.now)) result (first_number w16 end bytes.now) }
{
    if bytes.len() < 2 {
        return Err(FieldError::Short(field_place(end, bytes)));
    }
    let (front, rest) = bytes.split_at(2);
    Ok((LittleEndian::read_u16(front), rest))
}

/// The next four bytes, as a number.
#[tactic(auto, using(crate::proofs::Numbers::four_bytes))]
pub fn read_u32(end: usize, bytes: &[u8]) -> Result<(u32, &[u8]), FieldError>
    ensures { GivesField (λ x. (x.0, x.1.now)) result (first_number w32 end bytes.now) }
{
    if bytes.len() < 4 {
        return Err(FieldError::Short(field_place(end, bytes)));
    }
    let (front, rest) = bytes.split_at(4);
    Ok((LittleEndian::read_u32(front), rest))
}

/// The next eight bytes, as a number.
#[tactic(auto, using(crate::proofs::Numbers::eight_bytes))]
pub fn read_u64(end: usize, bytes: &[u8]) -> Result<(u64, &[u8]), FieldError>
    ensures { GivesField (λ x. (x.0, x.1.now)) result (first_number w64 end bytes.now) }
{
    if bytes.len() < 8 {
        return Err(FieldError::Short(field_place(end, bytes)));
    }
    let (front, rest) = bytes.split_at(8);
    Ok((LittleEndian::read_u64(front), rest))
}

/// The next byte, from `low` to `high`.
pub fn read_byte_within(
    low: u8,
    high: u8,
    end: usize,
    bytes: &[u8],
) -> Result<(u8, &[u8]), FieldError>
    ensures range { IfOk result (λ x. (low ≤ x.0) × (x.0 ≤ high)) }
    ensures value { GivesField (λ x. (x.0, x.1.now)) result
        ((u8_in (from_to low high)).read end bytes.now) }
{
    let (number, rest) = read_byte(end, bytes)?;
    if low <= number {
        if number <= high {
            return Ok((number, rest));
        }
    }
    Err(FieldError::Range(field_place(end, bytes)))
}

/// The next two bytes, as a number from `low` to `high`.
pub fn read_u16_within(
    low: u16,
    high: u16,
    end: usize,
    bytes: &[u8],
) -> Result<(u16, &[u8]), FieldError>
    ensures range { IfOk result (λ x. (low ≤ x.0) × (x.0 ≤ high)) }
    ensures value { GivesField (λ x. (x.0, x.1.now)) result
        ((u16_in (from_to low high)).read end bytes.now) }
{
    let (number, rest) = read_u16(end, bytes)?;
    if low <= number {
        if number <= high {
            return Ok((number, rest));
        }
    }
    Err(FieldError::Range(field_place(end, bytes)))
}

/// The next four bytes, as a number from `low` to `high`.
pub fn read_u32_within(
    low: u32,
    high: u32,
    end: usize,
    bytes: &[u8],
) -> Result<(u32, &[u8]), FieldError>
    ensures range { IfOk result (λ x. (low ≤ x.0) × (x.0 ≤ high)) }
    ensures value { GivesField (λ x. (x.0, x.1.now)) result
        ((u32_in (from_to low high)).read end bytes.now) }
{
    let (number, rest) = read_u32(end, bytes)?;
    if low <= number {
        if number <= high {
            return Ok((number, rest));
        }
    }
    Err(FieldError::Range(field_place(end, bytes)))
}
