//! Each number at and past each end of its range, and how numbers are spelled.
use crate::checks::same_at;
use crate::requests::{DEFAULTS, asked, check_refused, numbers};
use std::alloc::Global;
use std::process::Abort;

/// An option with its value, and the number that it gives at its place.
type Row = (&'static str, &'static str, usize, u64);

/// Options of a run.
static READ: [Row; 15] = [
    ("--quantum", "16", 0, 16),
    ("--quantum", "65536", 0, 65536),
    ("--rounds", "1", 1, 1),
    ("--rounds", "1000000", 1, 1000000),
    ("--frames", "16", 2, 16),
    ("--frames", "16384", 2, 16384),
    ("--workers", "1", 3, 1),
    ("--workers", "32", 3, 32),
    ("--clock-step", "0", 4, 0),
    ("--clock-step", "7", 4, 7),
    (
        "--clock-step",
        "10000000000000000000",
        4,
        10000000000000000000,
    ),
    (
        "--clock-step",
        "18446744073709551615",
        4,
        18446744073709551615,
    ),
    ("--clock-from", "0", 5, 0),
    ("--clock-from", "1000", 5, 1000),
    (
        "--clock-from",
        "18446744073709551615",
        5,
        18446744073709551615,
    ),
];

/// Options of a run with values that are refused.
static REFUSED: [(&str, &str); 21] = [
    ("--quantum", "15"),
    ("--quantum", "65537"),
    ("--rounds", "0"),
    ("--rounds", "1000001"),
    ("--frames", "15"),
    ("--frames", "16385"),
    ("--workers", "0"),
    ("--workers", "33"),
    ("--clock-step", "18446744073709551616"),
    ("--clock-step", "100000000000000000000"),
    ("--clock-from", "18446744073709551616"),
    ("--clock-step", "00"),
    ("--clock-step", "01"),
    ("--quantum", "0016"),
    ("--quantum", "+16"),
    ("--quantum", "1 6"),
    ("--quantum", "16a"),
    ("--quantum", "0x10"),
    ("--quantum", "1/"),
    ("--quantum", "1:"),
    ("--quantum", "\u{661}6"),
];

/// The numbers of a run with this option, if the words ask for one.
fn numbers_with(alloc: Global, option: &str, value: &str) -> Option<[u64; 6]> {
    match asked(alloc, &["run", option, value, "--log", "l", "a"]) {
        Ok(request) => numbers(&request),
        Err(_) => None,
    }
}

/// The numbers where no option but one gives one.
fn changed(place: usize, number: u64) -> [u64; 6] {
    let mut numbers = DEFAULTS;
    if let Some(changed) = numbers.get_mut(place) {
        *changed = number;
    }
    numbers
}

fn check_read(rt: &impl Abort, alloc: Global, rows: &[Row]) {
    for &(option, value, place, number) in rows {
        let wanted = Some(changed(place, number));
        same_at(
            rt,
            numbers_with(alloc, option, value),
            wanted,
            (option, value),
        );
    }
}

#[test]
fn numbers_in_range_are_read(rt: HostRuntime) {
    check_read(&rt, rt.alloc(), &READ);
}

#[test]
fn other_numbers_are_refused(rt: HostRuntime) {
    for &(option, value) in &REFUSED {
        let words = ["run", option, value, "--log", "l", "a"];
        check_refused(&rt, rt.alloc(), &words);
    }
}
