// Pipes, sleepers and frames.
ghost use Rattle.std.specs.Prelude.{◌≡◌, ◌≤◌, ℕ, List, map, IfOk};
ghost use Rattle.dos_world.specs.World.{Sleeper};
ghost use Rattle.dos_world.specs.declared.Owner.{Owner};
ghost use Rattle.text_fields.specs.Formats.{many, bytes, u8_in, any};
ghost use Rattle.text_fields.specs.Reading.{GivesField, GivesRow};
ghost use Rattle.group_text.specs.GroupText.{pipe_row, sleeper_row, sleeper_rows, frame_row};
ghost use Rattle.group_text.specs.GroupText.{free_row, shared_row, owned_row};
ghost use Rattle.group_text.specs.Groups.{page_if_used};
ghost use Rattle.group_text.specs.Records.{HasItsPage, frame_of_record, sleeper_of_record};
ghost use Rattle.page_store.specs.Store.{whole};

use crate::records::{FrameRecord, SleeperRecord};
use crate::rows::read_offset;
use dos_world::Owner;
use page_store::Page;
use std::alloc::{AllocError, Global};
use text_fields::{
    FieldError, Row, RowError, read_byte, read_byte_within, read_bytes, read_many, read_u16_within,
    read_u32_within,
};

struct PipeRow;

impl Row for PipeRow {
    type Item = Vec<u8>;

    ghost Seen = { List ℕ };

    ghost seen = { λ v. v.items };

    ghost reading = { λ row. pipe_row.read };

    fn read<'b>(
        &self,
        alloc: Global,
        end: usize,
        bytes: &'b [u8],
    ) -> Result<(Vec<u8>, &'b [u8]), RowError> {
        let (len, rest) = read_u16_within(0, 4096, end, bytes)?;
        let (held, rest) = read_bytes(usize::from(len), end, rest)?;
        Ok((Vec::from_slice(alloc, held)?, rest))
    }
}

/// 64 pipes.
pub(crate) fn read_pipes<'b>(
    alloc: Global,
    end: usize,
    bytes: &'b [u8],
) -> Result<(Vec<Vec<u8>>, &'b [u8]), RowError>
    ensures { GivesRow (λ x. (map (λ p. p.items) x.0.items, x.1.now)) result
        ((many 64 pipe_row).read end bytes.now) }
{
    read_many(alloc, &PipeRow, 64, end, bytes)
}

/// A thread of a number up to `given`, and the word in one of so many frames on which it sleeps.
pub(crate) fn read_sleeper(
    given: u16,
    frames: u32,
    end: usize,
    bytes: &[u8],
) -> Result<(SleeperRecord, &[u8]), FieldError>
    ensures { GivesField (λ x. (sleeper_of_record x.0, x.1.now)) result
        ((sleeper_row given frames).read end bytes.now) }
{
    let (tid, rest) = read_u32_within(1, u32::from(given), end, bytes)?;
    let (frame, rest) = read_u32_within(0, frames.saturating_sub(1), end, rest)?;
    let (offset, rest) = read_offset(end, rest)?;
    Ok((SleeperRecord { tid, frame, offset }, rest))
}

// Sleepers of numbers up to `given`, in so many frames.
#[derive(Drop)]
struct SleeperRow {
    given: u16,
    frames: u32,
}

impl Row for SleeperRow {
    type Item = SleeperRecord;

    ghost Seen = { Sleeper };

    ghost seen = { sleeper_of_record };

    ghost reading = { λ row. (sleeper_row row.given row.frames).read };

    fn read<'b>(
        &self,
        _alloc: Global,
        end: usize,
        bytes: &'b [u8],
    ) -> Result<(SleeperRecord, &'b [u8]), RowError> {
        Ok(read_sleeper(self.given, self.frames, end, bytes)?)
    }
}

/// The sleepers in their order.
pub(crate) fn read_sleepers<'b>(
    alloc: Global,
    given: u16,
    frames: u32,
    end: usize,
    bytes: &'b [u8],
) -> Result<(Vec<SleeperRecord>, &'b [u8]), RowError>
    ensures { GivesRow (λ x. (map sleeper_of_record x.0.items, x.1.now)) result
        ((sleeper_rows given frames).read end bytes.now) }
{
    let (count, rest) = read_byte(end, bytes)?;
    let row = SleeperRow { given, frames };
    read_many(alloc, &row, u32::from(count), end, rest)
}

fn read_free(end: usize, bytes: &[u8]) -> Result<((Owner, &[u8]), &[u8]), FieldError>
    ensures gives { GivesField (λ x. ((x.0.0, x.0.1.now), x.1.now)) result
        (free_row.read end bytes.now) }
    ensures page { IfOk result (λ x. HasItsPage x.0.0 x.0.1.now) }
{
    let (_, rest) = read_u32_within(0, 0, end, bytes)?;
    Ok(((Owner::Free, &[]), rest))
}

fn read_shared(end: usize, bytes: &[u8]) -> Result<((Owner, &[u8]), &[u8]), FieldError>
    ensures gives { GivesField (λ x. ((x.0.0, x.0.1.now), x.1.now)) result
        (shared_row.read end bytes.now) }
    ensures page { IfOk result (λ x. HasItsPage x.0.0 x.0.1.now) }
{
    let (_, rest) = read_u32_within(0, 0, end, bytes)?;
    let (page, rest) = read_bytes(4096, end, rest)?;
    Ok(((Owner::Shared, page), rest))
}

fn read_owned(given: u16, end: usize, bytes: &[u8]) -> Result<((Owner, &[u8]), &[u8]), FieldError>
    ensures gives { GivesField (λ x. ((x.0.0, x.0.1.now), x.1.now)) result
        ((owned_row given).read end bytes.now) }
    ensures page { IfOk result (λ x. HasItsPage x.0.0 x.0.1.now) }
{
    let (thread, rest) = read_u32_within(1, u32::from(given), end, bytes)?;
    let (page, rest) = read_bytes(4096, end, rest)?;
    Ok(((Owner::Of(thread), page), rest))
}

// a frame's owner, and its bytes where it isn't Free
fn read_frame(given: u16, end: usize, bytes: &[u8]) -> Result<((Owner, &[u8]), &[u8]), FieldError>
    ensures gives { GivesField (λ x. ((x.0.0, x.0.1.now), x.1.now)) result
        ((frame_row given).read end bytes.now) }
    ensures page { IfOk result (λ x. HasItsPage x.0.0 x.0.1.now) }
{
    let (kind, rest) = read_byte_within(0, 2, end, bytes)?;
    if kind == 0 {
        return read_free(end, rest);
    }
    if kind == 1 {
        return read_shared(end, rest);
    }
    read_owned(given, end, rest)
}

// the page of a frame with these bytes, which has 4096 or none
fn page_from(alloc: Global, owner: Owner, bytes: &[u8]) -> Result<Page, AllocError>
    requires { HasItsPage owner bytes.now }
    ensures { IfOk result (λ page. page_if_used owner (whole page) ≡ bytes.now) }
{
    let mut page = Page::new(alloc)?;
    match owner {
        Owner::Free => Ok(page),
        Owner::Shared => {
            page.copy_from(0, bytes);
            Ok(page)
        }
        Owner::Of(_) => {
            page.copy_from(0, bytes);
            Ok(page)
        }
    }
}

// Frames of threads of numbers up to `given`.
#[derive(Drop)]
struct FrameRow {
    given: u16,
}

impl Row for FrameRow {
    type Item = FrameRecord;

    ghost Seen = { Owner × List ℕ };

    ghost seen = { frame_of_record };

    ghost reading = { λ row. (frame_row row.given).read };

    fn read<'b>(
        &self,
        alloc: Global,
        end: usize,
        bytes: &'b [u8],
    ) -> Result<(FrameRecord, &'b [u8]), RowError> {
        let ((owner, held), rest) = read_frame(self.given, end, bytes)?;
        let page = page_from(alloc, owner, held)?;
        Ok((FrameRecord { owner, page }, rest))
    }
}

/// So many frames.
pub(crate) fn read_frames<'b>(
    alloc: Global,
    given: u16,
    frames: u32,
    end: usize,
    bytes: &'b [u8],
) -> Result<(Vec<FrameRecord>, &'b [u8]), RowError>
    ensures { GivesRow (λ x. (map frame_of_record x.0.items, x.1.now)) result
        ((many frames (frame_row given)).read end bytes.now) }
{
    read_many(alloc, &FrameRow { given }, frames, end, bytes)
}
