// Rows that take no memory, from left to right.
ghost use Rattle.std.specs.Prelude.{◌≡◌, ◌≤◌, ◌<◌, ℕ, IfOk, true};
ghost use Rattle.dos_world.specs.SignalCalls.{is_action};
ghost use Rattle.text_fields.specs.Formats.{u16_in, u32_in};
ghost use Rattle.text_fields.specs.Reading.{GivesField};
ghost use Rattle.group_text.specs.Ranges.{may_mask, may_pend, is_word_in_page};
ghost use Rattle.group_text.specs.GroupText.{is_pipe_of};
ghost use Rattle.group_text.specs.GroupText.{descriptor_row, held_row, page_row, state_row};
ghost use Rattle.group_text.specs.GroupText.{state_by_code};
ghost use Rattle.group_text.specs.GroupText.{end_by_code};

use dos_world::{End, Entry, ThreadState};
use text_fields::{
    FieldError, field_place, read_byte, read_byte_within, read_u16, read_u32, read_u32_within,
};

/// A page from `least` on, its frame, its rights, and whether it is shared.
pub(crate) fn read_page(
    frames: u32,
    least: u32,
    end: usize,
    bytes: &[u8],
) -> Result<((u32, Entry), &[u8]), FieldError>
    ensures value { GivesField (λ x. (x.0, x.1.now)) result
        ((page_row frames least).read end bytes.now) }
    ensures range { IfOk result (λ x. (least ≤ x.0.0) × (x.0.0 ≤ 0xEFFFF)) }
{
    let (page, rest) = read_u32_within(least, 0xef_fff, end, bytes)?;
    let (frame, rest) = read_u32_within(0, frames.saturating_sub(1), end, rest)?;
    let (rights, rest) = read_byte_within(0, 3, end, rest)?;
    let (shared, rest) = read_byte_within(0, 1, end, rest)?;
    let entry = Entry {
        frame,
        write: rights / 2 == 1,
        exec: rights % 2 == 1,
        shared: shared == 1,
    };
    Ok(((page, entry), rest))
}

fn is_action(action: u32) -> bool
    ensures { result ≡ is_action action }
{
    action == 1 || action % 2 == 0 && action < 0xf000_0000
}

/// A signal's action.
pub(crate) fn read_action(end: usize, bytes: &[u8]) -> Result<(u32, &[u8]), FieldError>
    ensures { GivesField (λ x. (x.0, x.1.now)) result ((u32_in is_action).read end bytes.now) }
{
    let (action, rest) = read_u32(end, bytes)?;
    if is_action(action) {
        return Ok((action, rest));
    }
    Err(FieldError::Range(field_place(end, bytes)))
}

fn may_pend(set: u32) -> bool
    ensures { result ≡ may_pend set }
{
    set & 1 == 0
}

/// The signals that are pending.
pub(crate) fn read_pending(end: usize, bytes: &[u8]) -> Result<(u32, &[u8]), FieldError>
    ensures { GivesField (λ x. (x.0, x.1.now)) result ((u32_in may_pend).read end bytes.now) }
{
    let (set, rest) = read_u32(end, bytes)?;
    if may_pend(set) {
        return Ok((set, rest));
    }
    Err(FieldError::Range(field_place(end, bytes)))
}

fn may_mask(set: u32) -> bool
    ensures { result ≡ may_mask set }
{
    set & 1 == 0 && set >> 9 & 1 == 0
}

/// A mask of signals.
pub(crate) fn read_mask(end: usize, bytes: &[u8]) -> Result<(u32, &[u8]), FieldError>
    ensures { GivesField (λ x. (x.0, x.1.now)) result ((u32_in may_mask).read end bytes.now) }
{
    let (set, rest) = read_u32(end, bytes)?;
    if may_mask(set) {
        return Ok((set, rest));
    }
    Err(FieldError::Range(field_place(end, bytes)))
}

/// The offset of a word in a page.
pub(crate) fn read_offset(end: usize, bytes: &[u8]) -> Result<(u16, &[u8]), FieldError>
    ensures { GivesField (λ x. (x.0, x.1.now)) result
        ((u16_in is_word_in_page).read end bytes.now) }
{
    let (offset, rest) = read_u16(end, bytes)?;
    if offset % 4 == 0 {
        if offset < 4096 {
            return Ok((offset, rest));
        }
    }
    Err(FieldError::Range(field_place(end, bytes)))
}

/// Whether a thread runs or waits.
pub(crate) fn read_state(end: usize, bytes: &[u8]) -> Result<(ThreadState, &[u8]), FieldError>
    ensures { GivesField (λ x. (x.0, x.1.now)) result (state_row.read end bytes.now) }
{
    let (code, rest) = read_byte_within(0, 2, end, bytes)?;
    Ok((state_of(code), rest))
}

fn state_of(code: u8) -> ThreadState
    ensures { result ≡ state_by_code code }
{
    match code {
        0 => ThreadState::Ready,
        1 => ThreadState::Retry,
        _ => ThreadState::Asleep,
    }
}

/// The address that lr.w reserved.
pub(crate) fn read_held(end: usize, bytes: &[u8]) -> Result<(Option<u32>, &[u8]), FieldError>
    ensures { GivesField (λ x. (x.0, x.1.now)) result (held_row.read end bytes.now) }
{
    let (code, rest) = read_byte_within(0, 1, end, bytes)?;
    if code == 0 {
        let (_, rest) = read_u32_within(0, 0, end, rest)?;
        return Ok((None, rest));
    }
    let (word, rest) = read_u32(end, rest)?;
    Ok((Some(word), rest))
}

fn end_by(kind: u8, pipe: u8) -> Option<End>
    ensures { result ≡ end_by_code kind pipe }
{
    match kind {
        0 => None,
        1 => Some(End::Input),
        2 => Some(End::Output),
        3 => Some(End::Error),
        4 => Some(End::PipeRead(pipe)),
        _ => Some(End::PipeWrite(pipe)),
    }
}

fn is_pipe_of(kind: u8, pipe: u8) -> bool
    ensures { result ≡ is_pipe_of kind pipe }
{
    if kind < 4 {
        return pipe == 0;
    }
    pipe <= 63
}

/// A descriptor: what it names, and its pipe.
pub(crate) fn read_descriptor(end: usize, bytes: &[u8]) -> Result<(Option<End>, &[u8]), FieldError>
    ensures { GivesField (λ x. (x.0, x.1.now)) result (descriptor_row.read end bytes.now) }
{
    let (kind, rest) = read_byte_within(0, 5, end, bytes)?;
    let (pipe, after) = read_byte(end, rest)?;
    if is_pipe_of(kind, pipe) {
        return Ok((end_by(kind, pipe), after));
    }
    Err(FieldError::Range(field_place(end, rest)))
}
