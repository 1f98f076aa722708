// Reading a log, from left to right. What decides takes no memory, so a refusal is never hidden by
// the want of it.
ghost use Rattle.std.specs.Prelude.{◌≡◌, ◌≤◌, ◌<◌, ◌-◌, ℕ, List, length, take, IfOk, Ok};
ghost use Rattle.std.specs.Int.{w16};
ghost use Rattle.std.specs.Str.{bytes_eq};
ghost use Rattle.log_text.specs.EntriesText.{IsEntriesText};
ghost use Rattle.log_text.specs.Gives.{Gives, ReadsAs};
ghost use Rattle.log_text.specs.Reading.{magic_at, version_at, read_header, fields_at};
ghost use Rattle.log_text.specs.Reading.{nothing_read, body_at, log_of, log_at, as_row, refused_as};
ghost use Rattle.log_text.specs.Rows.{log_header_row};
ghost use Rattle.log_text.specs.declared.refusal.LogError.TheVariants as refusal;
ghost use Rattle.text_fields.specs.Formats.{bytes as bytes_row, many};
ghost use Rattle.text_fields.specs.Reading.{GivesField, first_bytes, first_number};
ghost use Rattle.log_text.specs.Views.{body_of};
ghost use Rattle.log_text.specs.LogText.{Log as LogValue, log_magic, logtext};
ghost use Rattle.log_text.specs.Ranges.{FitsHeader, FitsLog};

use crate::entries::Entries;
use crate::entry_reading::pass_item;
use crate::header::{Digests, LogHeader};
use crate::log::Log;
use crate::progress::Progress;
use crate::refusal::{LogError, ReadError};
use crate::version::LogVersion;
use dos_world::Ending;
use std::alloc::Global;
use text_fields::{
    FieldError, field_place, read_bytes, read_u16, read_u16_within, read_u32_within,
};

/// What stands behind a header: the text of the entries, how many they are, and the end.
#[derive(Drop)]
pub(crate) struct Tail<'a> {
    text: &'a [u8],
    count: u32,
    ending: Ending,
    rounds: u32,
}

// The first `count` bytes.
fn front(bytes: &[u8], count: usize) -> &[u8]
    requires { count ≤ length bytes.now }
    ensures { result.now ≡ take count bytes.now }
{
    &bytes[..count]
}

// What stands behind a header: the text in front of the bytes that are left, and the end.
fn tail_of(bytes: &[u8], left: usize, count: u32, ending: Ending, rounds: u32) -> Tail<'_>
    requires { left ≤ length bytes.now }
    ensures text { result.text.now ≡ take (length bytes.now - left) bytes.now }
    ensures count { result.count ≡ count }
    ensures ending { result.ending ≡ ending }
    ensures rounds { result.rounds ≡ rounds }
{
    Tail {
        text: front(bytes, bytes.len() - left),
        count,
        ending,
        rounds,
    }
}

// The entries and the end, and the bytes behind it.
fn read_tail(version: LogVersion, end: usize, bytes: &[u8]) -> Result<(Tail<'_>, &[u8]), LogError>
    ensures value { Gives (λ x. (body_of version x.0, x.1.now)) result
        (body_at version (length bytes.now) nothing_read end bytes.now) }
    ensures text { IfOk result (λ x. IsEntriesText version x.0.text.now x.0.count) }
{
    let mut rest = bytes;
    let mut progress = Progress::new();
    for _ in 0..bytes.len() {
        let (last, further, after) = pass_item(version, progress, end, rest)?;
        match last {
            Some((ending, rounds)) => {
                let tail = tail_of(bytes, rest.len(), progress.held, ending, rounds);
                return Ok((tail, after));
            }
            None => {}
        }
        rest = after;
        progress = further;
    }
    Err(LogError::Short(field_place(end, rest)))
}

// The refusal of a field of the header.
fn header_error(error: FieldError) -> LogError
    ensures { result ≡ refused_as refusal.Header error }
{
    match error {
        FieldError::Short(place) => LogError::Short(place),
        FieldError::Range(place) => LogError::Header(place),
    }
}

// The first bytes of a log.
fn first_bytes(end: usize, bytes: &[u8]) -> Result<(&[u8], &[u8]), LogError>
    ensures { Gives (λ x. (x.0.now, x.1.now)) result
        (as_row refusal.Header (first_bytes 4 end bytes.now)) }
{
    match read_bytes(4, end, bytes) {
        Ok(read) => Ok(read),
        Err(error) => Err(header_error(error)),
    }
}

// The number of its version.
fn read_number(end: usize, bytes: &[u8]) -> Result<(u16, &[u8]), LogError>
    ensures { Gives (λ x. (x.0, x.1.now)) result
        (as_row refusal.Header (first_number w16 end bytes.now)) }
{
    match read_u16(end, bytes) {
        Ok(read) => Ok(read),
        Err(error) => Err(header_error(error)),
    }
}

// Whether a log begins with these bytes.
fn is_magic(front: &[u8]) -> bool
    ensures { result ≡ bytes_eq front.now log_magic }
{
    front == b"DPGL".as_slice()
}

#[tactic(auto, unfolding(crate::specs::Reading::magic_at))]
fn read_magic(end: usize, bytes: &[u8]) -> Result<&[u8], LogError>
    ensures { Gives (λ x. x.now) result (magic_at end bytes.now) }
{
    let (front, rest) = first_bytes(end, bytes)?;
    if is_magic(front) {
        return Ok(rest);
    }
    Err(LogError::Magic)
}

#[tactic(auto, unfolding(crate::specs::Reading::version_at))]
fn read_version(end: usize, bytes: &[u8]) -> Result<(LogVersion, &[u8]), LogError>
    ensures { Gives (λ x. (x.0, x.1.now)) result (version_at end bytes.now) }
{
    let (version, rest) = read_number(end, bytes)?;
    if version == 1 {
        return Ok((LogVersion::One, rest));
    }
    if version == 2 {
        return Ok((LogVersion::Two, rest));
    }
    Err(LogError::Version(version))
}

// A digest of its 32 bytes.
fn digest_of(bytes: &[u8]) -> [u8; 32]
    requires { length bytes.now ≡ 32 }
    ensures { result ≡ bytes.now }
{
    let mut digest = [0; 32];
    digest.copy_from_slice(bytes);
    digest
}

fn read_digests(count: u16, end: usize, bytes: &[u8]) -> Result<(Digests, &[u8]), FieldError>
    requires { count ≤ 8 }
    ensures { GivesField (λ x. (x.0, x.1.now)) result
        ((many count (bytes_row 32)).read end bytes.now) }
{
    let mut digests = Digests::new();
    let mut rest = bytes;
    for _ in 0..count {
        let (digest, after) = read_bytes(32, end, rest)?;
        digests.push(digest_of(digest));
        rest = after;
    }
    Ok((digests, rest))
}

// The header's fields behind the version.
fn read_row(end: usize, bytes: &[u8]) -> Result<(LogHeader, &[u8]), FieldError>
    ensures { GivesField (λ x. (x.0, x.1.now)) result (log_header_row.read end bytes.now) }
{
    let (images, rest) = read_u16_within(1, 8, end, bytes)?;
    let (quantum, rest) = read_u32_within(16, 65536, end, rest)?;
    let (rounds, rest) = read_u32_within(1, 1000000, end, rest)?;
    let (frames, rest) = read_u32_within(16, 16384, end, rest)?;
    let (digests, rest) = read_digests(images, end, rest)?;
    let header = LogHeader {
        quantum,
        rounds,
        frames,
        digests,
    };
    Ok((header, rest))
}

// The same, refused as a log is.
#[tactic(auto, unfolding(crate::specs::Reading::fields_at))]
fn read_fields(end: usize, bytes: &[u8]) -> Result<(LogHeader, &[u8]), LogError>
    ensures { Gives (λ x. (x.0, x.1.now)) result (fields_at end bytes.now) }
{
    match read_row(end, bytes) {
        Ok(read) => Ok(read),
        Err(error) => Err(header_error(error)),
    }
}

#[tactic(auto, unfolding(crate::specs::Reading::read_header))]
fn read_header(end: usize, bytes: &[u8]) -> Result<(LogVersion, LogHeader, &[u8]), LogError>
    ensures { Gives (λ x. ((x.0, x.1), x.2.now)) result (read_header end bytes.now) }
{
    let rest = read_magic(end, bytes)?;
    let (version, rest) = read_version(end, rest)?;
    let (header, rest) = read_fields(end, rest)?;
    Ok((version, header, rest))
}

// The version, the header, and what stands behind it up to the last byte.
#[tactic(auto, unfolding(crate::specs::Reading::log_at))]
fn read_parts(bytes: &[u8]) -> Result<(LogVersion, LogHeader, Tail<'_>), LogError>
    ensures value { Gives (λ x. log_of (x.0, x.1) (body_of x.0 x.2)) result (log_at bytes.now) }
    ensures header { IfOk result (λ x. FitsHeader x.1) }
    ensures text { IfOk result (λ x. IsEntriesText x.0 x.2.text.now x.2.count) }
{
    let (version, header, rest) = read_header(bytes.len(), bytes)?;
    let (tail, rest) = read_tail(version, bytes.len(), rest)?;
    if !rest.is_empty() {
        return Err(LogError::AfterEnd(field_place(bytes.len(), rest)));
    }
    Ok((version, header, tail))
}

// All of it; memory is taken where nothing can be refused any more.
fn read_whole(alloc: Global, bytes: &[u8]) -> Result<Log, ReadError>
    ensures { ReadsAs result (log_at bytes.now) }
{
    let (version, header, tail) = read_parts(bytes)?;
    let entries = Entries::from_text(alloc, version, tail.text, tail.count)?;
    let _count = entries.len();
    Ok(Log {
        header,
        entries,
        ending: tail.ending,
        rounds: tail.rounds,
    })
}

/// The log that the bytes spell in either version, all of the bytes: at most 64 MiB. It is refused
/// where they spell none, with the first thing that is wrong; it is want of memory only where they
/// spell one.
///
/// It takes a time that grows with the length of the text alone.
pub fn read_log(alloc: Global, bytes: &[u8]) -> Result<Log, ReadError>
    requires { length bytes.now ≤ 67108864 }

    // The log, or which refusal it is.
    ensures exact { ReadsAs result (log_at bytes.now) }

    // What is read is spelled so, and is in its ranges.
    ensures found { IfOk result (λ log. (bytes.now ≡ logtext log) × FitsLog log) }

    // What is spelled so is read, unless memory runs out.
    ensures only { (log : LogValue) → FitsLog log → bytes.now ≡ logtext log
        → ReadsAs result (Ok log) }
{
    read_whole(alloc, bytes)
}
