// The live threads.
ghost use Rattle.std.specs.Prelude.{◌≡◌, ◌≤◌, ◌<◌, ℕ, map, reverse, IfOk};
ghost use Rattle.dos_world.specs.World.{Registers, Thread};
ghost use Rattle.text_fields.specs.Formats.{many, u32_in, u8_in, from_to};
ghost use Rattle.text_fields.specs.Reading.{GivesField, GivesRow};
ghost use Rattle.group_text.specs.GroupText.{saved_row, saved_in_order, saved_rows, thread_row};
ghost use Rattle.group_text.specs.GroupText.{thread_rows};
ghost use Rattle.group_text.specs.Records.{thread_of_record};

use crate::records::ThreadRecord;
use crate::registers::read_registers;
use crate::rows::{read_mask, read_pending, read_state};
use dos_world::Regs;
use std::alloc::Global;
use text_fields::{
    FieldError, NumberedRow, Row, RowError, read_ascending, read_byte_within, read_many, read_u32,
    read_u32_within,
};

/// Registers and a mask that a handler has saved.
pub(crate) fn read_saved_one(end: usize, bytes: &[u8]) -> Result<((Regs, u32), &[u8]), FieldError>
    ensures { GivesField (λ x. (x.0, x.1.now)) result (saved_row.read end bytes.now) }
{
    let (regs, rest) = match read_registers(end, bytes) {
        Ok(read) => read,
        Err(error) => return Err(error),
    };
    let (mask, rest) = read_mask(end, rest)?;
    Ok(((regs, mask), rest))
}

struct SavedRow;

impl Row for SavedRow {
    type Item = (Regs, u32);

    ghost Seen = { Registers × ℕ };

    ghost seen = { λ x. x };

    ghost reading = { λ row. saved_row.read };

    fn read<'b>(
        &self,
        _alloc: Global,
        end: usize,
        bytes: &'b [u8],
    ) -> Result<((Regs, u32), &'b [u8]), RowError> {
        match read_saved_one(end, bytes) {
            Ok(read) => Ok(read),
            Err(error) => Err(RowError::Refused(error)),
        }
    }
}

// what handlers have saved, the first saved first
fn read_saved_in_order<'b>(
    alloc: Global,
    end: usize,
    bytes: &'b [u8],
) -> Result<(Vec<(Regs, u32)>, &'b [u8]), RowError>
    ensures { GivesRow (λ x. (x.0.items, x.1.now)) result (saved_in_order.read end bytes.now) }
{
    let (depth, rest) = read_byte_within(0, 4, end, bytes)?;
    read_many(alloc, &SavedRow, u32::from(depth), end, rest)
}

/// What handlers have saved, the last saved first.
#[tactic(auto, using(crate::proofs::ReadingLaws::refuses_on))]
pub(crate) fn read_saved<'b>(
    alloc: Global,
    end: usize,
    bytes: &'b [u8],
) -> Result<(Vec<(Regs, u32)>, &'b [u8]), RowError>
    ensures { GivesRow (λ x. (x.0.items, x.1.now)) result (saved_rows.read end bytes.now) }
{
    match read_saved_in_order(alloc, end, bytes) {
        Ok((mut saved, rest)) => {
            saved.reverse();
            Ok((saved, rest))
        }
        Err(error) => Err(error),
    }
}

// Threads of numbers up to `given`, each of a process of a number up to `processes`.
#[derive(Drop)]
struct ThreadRow {
    given: u16,
    processes: u32,
}

impl NumberedRow for ThreadRow {
    type Item = ThreadRecord;

    ghost Seen = { ℕ × Thread };

    ghost seen = { thread_of_record };

    ghost number = { λ t. t.0 };

    ghost reading = { λ row least. (thread_row row.given row.processes least).read };

    fn number_of(item: &ThreadRecord) -> u32 {
        item.tid
    }

    #[tactic(auto, using(crate::proofs::ReadingLaws::refuses_on))]
    fn read<'b>(
        &self,
        alloc: Global,
        least: u32,
        end: usize,
        bytes: &'b [u8],
    ) -> Result<(ThreadRecord, &'b [u8]), RowError> {
        let (tid, rest) = read_u32_within(least, u32::from(self.given), end, bytes)?;
        let (pid, rest) = read_u32_within(1, self.processes, end, rest)?;
        let (state, rest) = read_state(end, rest)?;
        let (regs, rest) = match read_registers(end, rest) {
            Ok(read) => read,
            Err(error) => return Err(RowError::Refused(error)),
        };
        let (budget, rest) = read_u32(end, rest)?;
        let (pending, rest) = read_pending(end, rest)?;
        let (mask, rest) = read_mask(end, rest)?;
        match read_saved(alloc, end, rest) {
            Ok((saved, rest)) => {
                let record = ThreadRecord {
                    tid,
                    pid,
                    regs,
                    budget,
                    state,
                    pending,
                    mask,
                    saved,
                };
                Ok((record, rest))
            }
            Err(error) => Err(error),
        }
    }
}

/// The live threads in rising number, of numbers up to `given`, of `processes` processes.
pub(crate) fn read_threads<'b>(
    alloc: Global,
    given: u16,
    processes: u32,
    end: usize,
    bytes: &'b [u8],
) -> Result<(Vec<ThreadRecord>, &'b [u8]), RowError>
    ensures { GivesRow (λ x. (map thread_of_record x.0.items, x.1.now)) result
        ((thread_rows given processes).read end bytes.now) }
{
    let (count, rest) = read_byte_within(0, 64, end, bytes)?;
    let row = ThreadRow { given, processes };
    read_ascending(alloc, &row, u32::from(count), 1, end, rest)
}
