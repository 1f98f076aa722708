// Lists of rows.
ghost use Rattle.std.specs.Prelude.{◌≡◌, ◌<◌, ◌-◌, ◌^◌, ℕ, suc, map, List, IfOk};
ghost use Rattle.text_fields.specs.Reading.{FieldReader, GivesRow, read_list};

use crate::refusal::RowError;
use std::alloc::Global;

/// A kind of row: what is made of one, and how it is read.
pub trait Row {
    type Item: Drop;

    /// What contracts see of an item.
    ghost Seen: { Type 0 };

    ghost seen: { Self.Item → Seen };

    /// How a row is read.
    ghost reading: { Self → FieldReader Seen };

    /// The row that comes next.
    fn read<'b>(
        &self,
        alloc: Global,
        end: usize,
        bytes: &'b [u8],
    ) -> Result<(Self::Item, &'b [u8]), RowError>
        ensures { GivesRow (λ x. (seen x.0, x.1.now)) result (reading self.now end bytes.now) };
}

/// So many rows of one kind.
pub fn read_many<'b, R: Row>(
    alloc: Global,
    row: &R,
    count: u32,
    end: usize,
    bytes: &'b [u8],
) -> Result<(Vec<R::Item>, &'b [u8]), RowError>
    ensures { GivesRow (λ x. (map R.seen x.0.items, x.1.now)) result
        (read_list (λ (s : ℕ). R.reading row.now) (λ s x. s) count 0 end bytes.now) }
{
    let mut list = Vec::new(alloc);
    let mut rest = bytes;
    for _ in 0..count {
        let (item, after) = row.read(alloc, end, rest)?;
        list.push(item)?;
        rest = after;
    }
    Ok((list, rest))
}

/// A kind of row whose items have numbers that rise from row to row.
pub trait NumberedRow {
    type Item: Drop;

    /// What contracts see of an item.
    ghost Seen: { Type 0 };

    ghost seen: { Self.Item → Seen };

    ghost number: { Seen → ℕ };

    /// How a row is read whose number is at least this.
    ghost reading: { Self → ℕ → FieldReader Seen };

    /// The number of an item.
    fn number_of(item: &Self::Item) -> u32
        ensures { result ≡ number (seen item.now) };

    /// The row that comes next.
    fn read<'b>(
        &self,
        alloc: Global,
        least: u32,
        end: usize,
        bytes: &'b [u8],
    ) -> Result<(Self::Item, &'b [u8]), RowError>
        ensures row { GivesRow (λ x. (seen x.0, x.1.now)) result
            (reading self.now least end bytes.now) }
        ensures number { IfOk result (λ x. number (seen x.0) < 2 ^ 32 - 1) };
}

/// So many rows of one kind, the first of which has at least this number.
pub fn read_ascending<'b, R: NumberedRow>(
    alloc: Global,
    row: &R,
    count: u32,
    least: u32,
    end: usize,
    bytes: &'b [u8],
) -> Result<(Vec<R::Item>, &'b [u8]), RowError>
    ensures { GivesRow (λ x. (map R.seen x.0.items, x.1.now)) result
        (read_list (R.reading row.now) (λ s x. suc (R.number x)) count least end bytes.now) }
{
    let mut list = Vec::new(alloc);
    let mut least = least;
    let mut rest = bytes;
    for _ in 0..count {
        let (item, after) = row.read(alloc, least, end, rest)?;
        least = R::number_of(&item) + 1;
        list.push(item)?;
        rest = after;
    }
    Ok((list, rest))
}
