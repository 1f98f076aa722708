// Entries, from left to right.

ghost use Rattle.std.specs.Prelude.{◌≡◌, ◌≤◌, IfOk, IfErr, Err};
ghost use Rattle.text_fields.specs.Formats.{many, u32_in};
ghost use Rattle.text_fields.specs.Reading.{GivesField};
ghost use Rattle.log_text.specs.Gives.{behind};
ghost use Rattle.log_text.specs.Passing.{Passes};
ghost use Rattle.log_text.specs.Reading.{item_at, refused_as};
ghost use Rattle.log_text.specs.Rows.{post_row, signals_row, input_row, clock_row};
ghost use Rattle.log_text.specs.Rows.{ending_of_byte, end_row, is_apart, most_quiet, quiet_row};
ghost use Rattle.log_text.specs.Rows.{kind_may_stand, row_of_kind, item_row};
ghost use Rattle.log_text.specs.Views.{posts_in_text, item_of};
ghost use Rattle.log_text.specs.declared.refusal.LogError.TheVariants as refusal;

use crate::entry::Entry;
use crate::item::Item;
use crate::progress::Progress;
use crate::refusal::LogError;
use crate::version::LogVersion;
use dos_world::{Ending, Post};
use text_fields::{
    FieldError, field_place, read_byte, read_byte_within, read_bytes, read_u16_within, read_u32,
    read_u32_within, read_u64,
};

fn read_post(end: usize, bytes: &[u8]) -> Result<(Post, &[u8]), FieldError>
    ensures { GivesField (λ x. (x.0, x.1.now)) result (post_row.read end bytes.now) }
{
    let (pid, rest) = read_u32(end, bytes)?;
    let (signal, rest) = read_byte_within(1, 31, end, rest)?;
    Ok((Post { pid, signal }, rest))
}

// The bytes behind so many posts, each of which is tested.
fn pass_posts(count: u8, end: usize, bytes: &[u8]) -> Result<&[u8], FieldError>
    ensures { GivesField (λ rest. rest.now) result
        (behind ((many count post_row).read end bytes.now)) }
{
    let mut rest = bytes;
    for _ in 0..count {
        let (_, after) = read_post(end, rest)?;
        rest = after;
    }
    Ok(rest)
}

fn read_posts(count: u8, end: usize, bytes: &[u8]) -> Result<(&[u8], &[u8]), FieldError>
    ensures { GivesField (λ x. (posts_in_text x.0.now, x.1.now)) result
        ((many count post_row).read end bytes.now) }
{
    let rest = pass_posts(count, end, bytes)?;
    Ok(bytes.split_at(bytes.len() - rest.len()))
}

fn read_signals(least: u8, end: usize, bytes: &[u8]) -> Result<(Item<'_>, &[u8]), FieldError>
    ensures { GivesField (λ x. (item_of x.0, x.1.now)) result
        ((signals_row least).read end bytes.now) }
{
    let (round, rest) = read_u32(end, bytes)?;
    let (count, rest) = read_byte_within(least, 32, end, rest)?;
    let (posts, rest) = read_posts(count, end, rest)?;
    Ok((Item::Kept(Entry::Signals { round, posts }), rest))
}

fn read_input(end: usize, bytes: &[u8]) -> Result<(Item<'_>, &[u8]), FieldError>
    ensures { GivesField (λ x. (item_of x.0, x.1.now)) result (input_row.read end bytes.now) }
{
    let (round, rest) = read_u32(end, bytes)?;
    let (tid, rest) = read_u32(end, rest)?;
    let (max, rest) = read_u16_within(1, 4096, end, rest)?;
    let (len, rest) = read_u16_within(0, max, end, rest)?;
    let (bytes, rest) = read_bytes(len as usize, end, rest)?;
    let entry = Entry::Input {
        round,
        tid,
        max,
        bytes,
    };
    Ok((Item::Kept(entry), rest))
}

fn read_clock(end: usize, bytes: &[u8]) -> Result<(Item<'_>, &[u8]), FieldError>
    ensures { GivesField (λ x. (item_of x.0, x.1.now)) result (clock_row.read end bytes.now) }
{
    let (round, rest) = read_u32(end, bytes)?;
    let (tid, rest) = read_u32(end, rest)?;
    let (reading, rest) = read_u64(end, rest)?;
    let entry = Entry::Clock {
        round,
        tid,
        reading,
    };
    Ok((Item::Kept(entry), rest))
}

fn ending_from(code: u8) -> Ending
    ensures { result ≡ ending_of_byte code }
{
    match code {
        0 => Ending::Done,
        1 => Ending::Limit,
        _ => Ending::Stalled,
    }
}

fn read_end(end: usize, bytes: &[u8]) -> Result<(Item<'_>, &[u8]), FieldError>
    ensures { GivesField (λ x. (item_of x.0, x.1.now)) result (end_row.read end bytes.now) }
{
    let (code, rest) = read_byte_within(0, 2, end, bytes)?;
    let (rounds, rest) = read_u32(end, rest)?;
    let ending = ending_from(code);
    Ok((Item::Kept(Entry::End { ending, rounds }), rest))
}

// The first round of a quiet entry.
fn read_quiet_round(
    progress: Progress,
    end: usize,
    bytes: &[u8],
) -> Result<(u32, &[u8]), FieldError>
    ensures { GivesField (λ x. (x.0, x.1.now)) result
        ((u32_in (is_apart progress.goes_on)).read end bytes.now) }
{
    let (round, rest) = read_u32(end, bytes)?;
    if progress.is_next(round) {
        return Err(FieldError::Range(field_place(end, bytes)));
    }
    Ok((round, rest))
}

// The most rounds that a quiet entry may stand for.
fn most_rounds(round: u32, held: u32) -> u32
    requires { held ≤ 16777216 }
    ensures { result ≡ most_quiet round held }
{
    let rounds = 4294967296 - u64::from(round);
    let free = 16777216 - held;
    if rounds < u64::from(free) {
        return rounds as u32;
    }
    free
}

fn read_quiet(progress: Progress, end: usize, bytes: &[u8]) -> Result<(Item<'_>, &[u8]), FieldError>
    requires { progress.held ≤ 16777216 }
    ensures { GivesField (λ x. (item_of x.0, x.1.now)) result
        ((quiet_row progress).read end bytes.now) }
{
    let (round, rest) = read_quiet_round(progress, end, bytes)?;
    let (count, rest) = read_u32_within(1, most_rounds(round, progress.held), end, rest)?;
    Ok((Item::Quiet { round, count }, rest))
}

// Whether an entry of this kind may come.
fn kind_may_stand(version: LogVersion, progress: Progress, kind: u8) -> bool
    ensures { result ≡ kind_may_stand version progress kind }
{
    if kind == 0 {
        return true;
    }
    if progress.held == 16777216 {
        return false;
    }
    kind <= version.last_kind()
}

// An entry behind its kind.
fn read_kind(
    kind: u8,
    version: LogVersion,
    progress: Progress,
    end: usize,
    bytes: &[u8],
) -> Result<(Item<'_>, &[u8]), FieldError>
    requires { progress.held ≤ 16777216 }
    ensures { GivesField (λ x. (item_of x.0, x.1.now)) result
        ((row_of_kind version progress kind).read end bytes.now) }
{
    match kind {
        0 => read_end(end, bytes),
        1 => read_signals(version.least_posts(), end, bytes),
        2 => read_input(end, bytes),
        3 => read_clock(end, bytes),
        _ => read_quiet(progress, end, bytes),
    }
}

/// The next entry of a log of this version, behind what was read so far.
pub(crate) fn read_item(
    version: LogVersion,
    progress: Progress,
    end: usize,
    bytes: &[u8],
) -> Result<(Item<'_>, &[u8]), FieldError>
    requires { progress.held ≤ 16777216 }
    ensures { GivesField (λ x. (item_of x.0, x.1.now)) result
        ((item_row version progress).read end bytes.now) }
{
    let (kind, rest) = read_byte(end, bytes)?;
    if kind_may_stand(version, progress, kind) {
        return read_kind(kind, version, progress, end, rest);
    }
    Err(FieldError::Range(field_place(end, bytes)))
}

// The refusal of an entry's field.
fn entry_error(error: FieldError) -> LogError
    ensures { result ≡ refused_as refusal.Entry error }
{
    match error {
        FieldError::Short(place) => LogError::Short(place),
        FieldError::Range(place) => LogError::Entry(place),
    }
}

// How the run ended, where the next entry is the end, or how far was read with it; and the bytes
// behind the entry.
#[inline]
pub(crate) fn pass_item(
    version: LogVersion,
    progress: Progress,
    end: usize,
    bytes: &[u8],
) -> Result<(Option<(Ending, u32)>, Progress, &[u8]), LogError>
    requires { progress.held ≤ 16777216 }
    ensures passed { IfOk result (λ x. Passes version progress end bytes.now x.0 x.1 x.2.now) }
    ensures refused { IfErr result (λ e. item_at version progress end bytes.now ≡ Err e) }
{
    match read_item(version, progress, end, bytes) {
        Ok((item, rest)) => match item.end() {
            Some(last) => Ok((Some(last), progress, rest)),
            None => Ok((None, item.after(progress), rest)),
        },
        Err(error) => Err(entry_error(error)),
    }
}
