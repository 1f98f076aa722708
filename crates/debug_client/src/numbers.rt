// Lists of numbers.
ghost use Rattle.std.specs.Prelude.{◌≡◌, ℕ, Bool, IfOk, OnOk, not, filter, length, slice_get};
ghost use Rattle.std.specs.Prelude.{◌==◌};
ghost use Rattle.dos_world.specs.Numbered.{run_of};
ghost use Rattle.flat_machine.specs.Opening.{rising, with_number};
ghost use Rattle.debug_session.specs.Homes.{is_some_number};
ghost use Rattle.debug_session.specs.Sessions.{is_among};
ghost use Rattle.debug_client.specs.Numbers.{place_for};

use std::alloc::{AllocError, Global};

pub(crate) fn is_among(number: u32, numbers: &[u32]) -> bool
    ensures { result ≡ is_among number numbers.now }
{
    numbers.iter().any(|other| *other == number)
}

/// Whether this number is there.
pub(crate) fn is_some_number(number: u32, there: Option<u32>) -> bool
    ensures { result ≡ is_some_number number there }
{
    match there {
        None => false,
        Some(other) => number == other,
    }
}

/// 1, 2 and so on, so many of them.
pub(crate) fn run_of(alloc: Global, count: u32) -> Result<Vec<u32>, AllocError>
    ensures { IfOk result (λ numbers. numbers.items ≡ run_of 1 count) }
{
    let mut numbers = Vec::new(alloc);
    for place in 0..count {
        numbers.push(place + 1)?;
    }
    Ok(numbers)
}

// where a number stands in a rising list, or is to stand
fn place_for(number: u32, numbers: &[u32]) -> usize
    ensures { result ≡ place_for number numbers.now }
{
    for (place, other) in numbers.iter().enumerate() {
        if *other >= number {
            return place;
        }
    }
    numbers.len()
}

// whether a number stands at this place
fn stands_at(number: u32, numbers: &[u32], place: usize) -> bool
    ensures { result ≡ is_some_number number (slice_get numbers.now place) }
{
    match numbers.get(place) {
        None => false,
        Some(other) => number == *other,
    }
}

// a number is put into a rising list, once
fn put_number(numbers: &mut Vec<u32>, number: u32) -> Result<(), AllocError>
    ensures { OnOk result (numbers.new.items ≡ with_number number numbers.old.items) }
{
    let place = place_for(number, numbers);
    if stands_at(number, numbers, place) {
        return Ok(());
    }
    numbers.insert(place, number)?;
    Ok(())
}

/// The numbers in rising order, each once.
pub(crate) fn rising(alloc: Global, numbers: &[u32]) -> Result<Vec<u32>, AllocError>
    ensures { IfOk result (λ all. all.items ≡ rising numbers.now) }
{
    let mut all = Vec::new(alloc);
    let mut left = numbers.len();
    while left > 0 {
        left -= 1;
        put_number(&mut all, numbers[left])?;
    }
    Ok(all)
}

/// All but this number.
pub(crate) fn remove_number(numbers: &mut Vec<u32>, number: u32)
    ensures { numbers.new.items ≡ filter (λ k. not (k == number)) numbers.old.items }
{
    numbers.retain(|other| *other != number);
}
