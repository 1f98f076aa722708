// The processes.
ghost use Rattle.std.specs.Prelude.{◌≡◌, ◌≤◌, ◌<◌, ℕ, List, Option, None, Ok, map, IfOk};
ghost use Rattle.dos_world.specs.World.{Process};
ghost use Rattle.dos_world.specs.declared.Entry.{Entry};
ghost use Rattle.dos_world.specs.SignalCalls.{is_action};
ghost use Rattle.dos_world.specs.declared.End.{End};
ghost use Rattle.text_fields.specs.Formats.{many, u32_in, u8_in, from_to};
ghost use Rattle.text_fields.specs.Reading.{GivesField, GivesRow};
ghost use Rattle.group_text.specs.GroupText.{descriptor_row, page_row, space_row, live_row};
ghost use Rattle.group_text.specs.GroupText.{ended_row, life_row, process_row};
ghost use Rattle.group_text.specs.Records.{process_of_record, recorded_life};

use crate::records::ProcessRecord;
use crate::rows::{read_action, read_descriptor, read_page};
use dos_world::{End, Entry};
use std::alloc::Global;
use text_fields::{
    NumberedRow, Row, RowError, read_ascending, read_byte, read_byte_within, read_many,
    read_u32_within,
};

struct ActionRow;

impl Row for ActionRow {
    type Item = u32;

    ghost Seen = { ℕ };

    ghost seen = { λ x. x };

    ghost reading = { λ row. (u32_in is_action).read };

    fn read<'b>(
        &self,
        _alloc: Global,
        end: usize,
        bytes: &'b [u8],
    ) -> Result<(u32, &'b [u8]), RowError> {
        Ok(read_action(end, bytes)?)
    }
}

struct DescriptorRow;

impl Row for DescriptorRow {
    type Item = Option<End>;

    ghost Seen = { Option End };

    ghost seen = { λ x. x };

    ghost reading = { λ row. descriptor_row.read };

    fn read<'b>(
        &self,
        _alloc: Global,
        end: usize,
        bytes: &'b [u8],
    ) -> Result<(Option<End>, &'b [u8]), RowError> {
        Ok(read_descriptor(end, bytes)?)
    }
}

// Pages in so many frames.
#[derive(Drop)]
struct PageRow {
    frames: u32,
}

impl NumberedRow for PageRow {
    type Item = (u32, Entry);

    ghost Seen = { ℕ × Entry };

    ghost seen = { λ x. x };

    ghost number = { λ x. x.0 };

    ghost reading = { λ row least. (page_row row.frames least).read };

    fn number_of(item: &(u32, Entry)) -> u32 {
        item.0
    }

    fn read<'b>(
        &self,
        _alloc: Global,
        least: u32,
        end: usize,
        bytes: &'b [u8],
    ) -> Result<((u32, Entry), &'b [u8]), RowError> {
        Ok(read_page(self.frames, least, end, bytes)?)
    }
}

/// The pages of a space in rising order, at most as many as there are frames.
pub(crate) fn read_space<'b>(
    alloc: Global,
    frames: u32,
    end: usize,
    bytes: &'b [u8],
) -> Result<(Vec<(u32, Entry)>, &'b [u8]), RowError>
    ensures { GivesRow (λ x. (x.0.items, x.1.now)) result ((space_row frames).read end bytes.now) }
{
    let (count, rest) = read_u32_within(0, frames, end, bytes)?;
    read_ascending(alloc, &PageRow { frames }, count, 1, end, rest)
}

// the actions of the signals 1 to 31
fn read_actions<'b>(
    alloc: Global,
    end: usize,
    bytes: &'b [u8],
) -> Result<(Vec<u32>, &'b [u8]), RowError>
    ensures { GivesRow (λ x. (x.0.items, x.1.now)) result
        ((many 31 (u32_in is_action)).read end bytes.now) }
{
    read_many(alloc, &ActionRow, 31, end, bytes)
}

// 32 descriptors
fn read_descriptors<'b>(
    alloc: Global,
    end: usize,
    bytes: &'b [u8],
) -> Result<(Vec<Option<End>>, &'b [u8]), RowError>
    ensures { GivesRow (λ x. (x.0.items, x.1.now)) result
        ((many 32 descriptor_row).read end bytes.now) }
{
    read_many(alloc, &DescriptorRow, 32, end, bytes)
}

// a process of this parent that lives
#[tactic(auto, using(crate::proofs::ReadingLaws::refuses_on))]
fn read_live<'b>(
    alloc: Global,
    parent: u32,
    frames: u32,
    end: usize,
    bytes: &'b [u8],
) -> Result<(ProcessRecord, &'b [u8]), RowError>
    ensures life { GivesRow (λ x. (recorded_life x.0, x.1.now)) result
        ((live_row frames).read end bytes.now) }
    ensures parent { IfOk result (λ x. x.0.parent ≡ parent) }
{
    let (_, rest) = read_byte_within(0, 0, end, bytes)?;
    let (actions, rest) = read_actions(alloc, end, rest)?;
    let (ends, rest) = read_descriptors(alloc, end, rest)?;
    let (pages, rest) = read_space(alloc, frames, end, rest)?;
    let record = ProcessRecord {
        parent,
        status: None,
        collected: false,
        actions,
        ends,
        pages,
    };
    Ok((record, rest))
}

// a process of this parent that has ended
fn read_ended<'b>(
    alloc: Global,
    parent: u32,
    collected: bool,
    end: usize,
    bytes: &'b [u8],
) -> Result<(ProcessRecord, &'b [u8]), RowError>
    ensures life { GivesRow (λ x. (recorded_life x.0, x.1.now)) result
        ((ended_row collected).read end bytes.now) }
    ensures parent { IfOk result (λ x. x.0.parent ≡ parent) }
{
    let (status, rest) = read_byte(end, bytes)?;
    let record = ProcessRecord {
        parent,
        status: Some(status),
        collected,
        actions: Vec::new(alloc),
        ends: Vec::new(alloc),
        pages: Vec::new(alloc),
    };
    Ok((record, rest))
}

// a process of this parent
fn read_life<'b>(
    alloc: Global,
    parent: u32,
    frames: u32,
    end: usize,
    bytes: &'b [u8],
) -> Result<(ProcessRecord, &'b [u8]), RowError>
    ensures life { GivesRow (λ x. (recorded_life x.0, x.1.now)) result
        ((life_row frames).read end bytes.now) }
    ensures parent { IfOk result (λ x. x.0.parent ≡ parent) }
{
    let (kind, rest) = read_byte_within(0, 2, end, bytes)?;
    if kind == 0 {
        return read_live(alloc, parent, frames, end, rest);
    }
    read_ended(alloc, parent, kind == 2, end, rest)
}

// Processes of parents up to `processes`, in so many frames.
#[derive(Drop)]
struct ProcessRow {
    frames: u32,
    processes: u32,
}

impl Row for ProcessRow {
    type Item = ProcessRecord;

    ghost Seen = { Process };

    ghost seen = { process_of_record };

    ghost reading = { λ row. (process_row row.frames row.processes).read };

    #[tactic(auto, using(crate::proofs::ReadingLaws::refuses_on))]
    fn read<'b>(
        &self,
        alloc: Global,
        end: usize,
        bytes: &'b [u8],
    ) -> Result<(ProcessRecord, &'b [u8]), RowError> {
        let (parent, rest) = read_u32_within(0, self.processes, end, bytes)?;
        match read_life(alloc, parent, self.frames, end, rest) {
            Ok((record, rest)) => Ok((record, rest)),
            Err(error) => Err(error),
        }
    }
}

/// So many processes, in so many frames.
pub(crate) fn read_processes<'b>(
    alloc: Global,
    frames: u32,
    processes: u32,
    end: usize,
    bytes: &'b [u8],
) -> Result<(Vec<ProcessRecord>, &'b [u8]), RowError>
    ensures { GivesRow (λ x. (map process_of_record x.0.items, x.1.now)) result
        ((many processes (process_row frames processes)).read end bytes.now) }
{
    let row = ProcessRow { frames, processes };
    read_many(alloc, &row, processes, end, bytes)
}
