// A saved group, from its first byte to its last.
ghost use Rattle.std.specs.Prelude.{◌≡◌, ℕ};
ghost use Rattle.text_fields.specs.Reading.{GivesRow};
ghost use Rattle.group_text.specs.GroupText.{body_row, group_row};
ghost use Rattle.group_text.specs.Reading.{GivesGroup, GivesPart, group_in_text, past_magic};
ghost use Rattle.group_text.specs.Reading.{past_version};
ghost use Rattle.group_text.specs.Records.{group_of_record, header_of_record};

use crate::header::{HeaderRecord, read_header};
use crate::parts::{read_frames, read_pipes, read_sleepers};
use crate::processes::read_processes;
use crate::records::GroupRecord;
use crate::refusal::{GroupError, GroupRefusal};
use crate::threads::read_threads;
use std::alloc::Global;
use text_fields::{RowError, field_place, read_bytes, read_u16};

// the bytes behind the magic
#[tactic(auto, unfolding(crate::specs::Reading::past_magic))]
fn read_magic(end: usize, bytes: &[u8]) -> Result<&[u8], GroupRefusal>
    ensures { GivesPart (λ x. x.now) result (past_magic end bytes.now) }
{
    let (first, rest) = read_bytes(4, end, bytes)?;
    if first == b"DPGS".as_slice() {
        Ok(rest)
    } else {
        Err(GroupRefusal::Magic)
    }
}

// the bytes behind the version
#[tactic(auto, unfolding(crate::specs::Reading::past_version))]
fn read_version(end: usize, bytes: &[u8]) -> Result<&[u8], GroupRefusal>
    ensures { GivesPart (λ x. x.now) result (past_version end bytes.now) }
{
    let (version, rest) = read_u16(end, bytes)?;
    if version == 1 {
        Ok(rest)
    } else {
        Err(GroupRefusal::Version(version))
    }
}

// the parts behind a header
#[tactic(auto, using(crate::proofs::ReadingLaws::refuses_on))]
fn read_body<'b>(
    alloc: Global,
    header: HeaderRecord,
    end: usize,
    bytes: &'b [u8],
) -> Result<(GroupRecord, &'b [u8]), RowError>
    ensures { GivesRow (λ x. (group_of_record x.0, x.1.now)) result
        ((body_row (header_of_record header)).read end bytes.now) }
{
    let digest = header.digest;
    let frames = header.config.frames;
    let (processes, rest) = read_processes(alloc, frames, header.processes, end, bytes)?;
    let (threads, rest) = read_threads(alloc, header.threads, header.processes, end, rest)?;
    let (pipes, rest) = read_pipes(alloc, end, rest)?;
    let (sleepers, rest) = read_sleepers(alloc, header.threads, frames, end, rest)?;
    let (frames, rest) = read_frames(alloc, header.threads, frames, end, rest)?;
    let group = GroupRecord {
        digest,
        used: header.used,
        config: header.config,
        rounds: header.rounds,
        given: header.threads,
        processes,
        threads,
        pipes,
        sleepers,
        frames,
    };
    Ok((group, rest))
}

// the header and the parts behind it
fn read_fields<'b>(
    alloc: Global,
    end: usize,
    bytes: &'b [u8],
) -> Result<(GroupRecord, &'b [u8]), RowError>
    ensures { GivesRow (λ x. (group_of_record x.0, x.1.now)) result
        (group_row.read end bytes.now) }
{
    let (header, rest) = read_header(end, bytes)?;
    read_body(alloc, header, end, rest)
}

/// The saved group that these bytes spell, or the first thing that is wrong, with its place.
#[tactic(auto, unfolding(crate::specs::Reading::group_in_text))]
pub fn read_group(alloc: Global, bytes: &[u8]) -> Result<GroupRecord, GroupError>
    ensures { GivesGroup group_of_record result (group_in_text bytes.now) }
{
    let end = bytes.len();
    let rest = read_magic(end, bytes)?;
    let rest = read_version(end, rest)?;
    match read_fields(alloc, end, rest) {
        Ok((group, rest)) => {
            if rest.is_empty() {
                Ok(group)
            } else {
                Err(GroupError::Refused(GroupRefusal::AfterEnd(field_place(end, rest))))
            }
        }
        Err(error) => Err(GroupError::from(error)),
    }
}
