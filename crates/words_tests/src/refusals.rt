//! Words that ask for nothing.
use crate::requests::check_refused;

static REFUSED: [&[&str]; 40] = [
    &[],
    &[""],
    &["a"],
    &["walk", "a"],
    &["--help"],
    &["-h"],
    &["help"],
    &["--version"],
    &["-V"],
    &["run", "--help"],
    &["run", "-h"],
    &["run", "--log", "l", "a", "--version"],
    &["run"],
    &["run", "a"],
    &["run", "--log", "l"],
    &["run", "--log"],
    &["run", "a", "--log"],
    &["run", "--log", "l", "--log", "l", "a"],
    &["run", "--log", "l", "--log=m", "a"],
    &["run", "--workers", "2", "--log", "l", "--workers", "2", "a"],
    &["run", "a", "--log", "l", "b"],
    &["run", "--log", "l", "a", "--workers", "2", "b"],
    &["run", "--log", "l", "-a"],
    &["run", "--log", "-l", "a"],
    &["run", "--log", "l", "--number", "1", "a"],
    &["run", "--quantum", "--log", "l", "a"],
    &["run", "-l", "l", "a"],
    &["--log", "l", "run", "a"],
    &["replay", "a"],
    &["replay", "--log", "l"],
    &["replay", "--log", "l", "--quantum", "16", "a"],
    &["replay", "--log", "l", "--workers", "33", "a"],
    &["inspect"],
    &["inspect", "a", "b"],
    &["inspect", "--log", "l", "a"],
    &["gen"],
    &["gen", "--number", "1"],
    &["gen", "--threads", "1"],
    &["gen", "--number", "1", "--threads", "1", "a"],
    &["gen", "--number", "1", "--threads", "1", "--log", "l"],
];

#[test]
fn other_words_are_refused(rt: HostRuntime) {
    for &texts in &REFUSED {
        check_refused(&rt, rt.alloc(), texts);
    }
}

static OUT_OF_RANGE: [(&str, &str); 4] = [
    ("4294967296", "1"),
    ("1", "0"),
    ("1", "33"),
    ("01", "1"),
];

#[test]
fn generated_runs_are_in_range(rt: HostRuntime) {
    for &(number, threads) in &OUT_OF_RANGE {
        let words = ["gen", "--number", number, "--threads", threads];
        check_refused(&rt, rt.alloc(), &words);
    }
}

// Each option but the workers must be given, once; a save has names, and a resume has none.
static SAVES_REFUSED: [&[&str]; 20] = [
    &["save"],
    &["save", "a"],
    &["save", "--log", "l", "--round", "3", "--to", "m"],
    &["save", "--log", "l", "--round", "3", "a"],
    &["save", "--log", "l", "--to", "m", "a"],
    &["save", "--round", "3", "--to", "m", "a"],
    &["save", "--log", "l", "--round", "3", "--from", "m", "a"],
    &[
        "save", "--log", "l", "--round", "3", "--round", "3", "--to", "m", "a",
    ],
    &[
        "save", "--log", "l", "--round", "3", "--to", "m", "--to", "m", "a",
    ],
    &[
        "save",
        "--log",
        "l",
        "--round",
        "3",
        "--to",
        "m",
        "--quantum",
        "16",
        "a",
    ],
    &["save", "--log", "l", "--round", "3", "--to", "m", "-a"],
    &[
        "save", "--log", "l", "--round", "3", "--to", "m", "a", "b", "c", "d", "e", "f", "g", "h",
        "i",
    ],
    &["resume"],
    &["resume", "--log", "l"],
    &["resume", "--from", "m"],
    &["resume", "--log", "l", "--from", "m", "a"],
    &["resume", "--log", "l", "--from", "m", "--from", "m"],
    &["resume", "--log", "l", "--to", "m"],
    &["resume", "--log", "l", "--from", "m", "--round", "3"],
    &["resume", "--log", "l", "--from"],
];

#[test]
fn words_of_saved_groups_are_refused(rt: HostRuntime) {
    for &texts in &SAVES_REFUSED {
        check_refused(&rt, rt.alloc(), texts);
    }
}

// A debugged run has a log and 1 to 8 names.
static DEBUGS_REFUSED: [&[&str]; 7] = [
    &["debug", "a"],
    &["debug", "--log", "l"],
    &["debug", "--log", "l", "--log", "l", "a"],
    &["debug", "--log", "l", "--workers", "0", "a"],
    &["debug", "--log", "l", "--workers", "33", "a"],
    &["debug", "--log", "l", "--round", "3", "a"],
    &[
        "debug", "--log", "l", "a", "b", "c", "d", "e", "f", "g", "h", "i",
    ],
];

#[test]
fn words_of_debugged_runs_are_refused(rt: HostRuntime) {
    for &texts in &DEBUGS_REFUSED {
        check_refused(&rt, rt.alloc(), texts);
    }
}

// Values of a save's option that are refused.
static SAVED_OUT_OF_RANGE: [(&str, &str); 10] = [
    ("--round", "0"),
    ("--round", "1000001"),
    ("--round", "4294967296"),
    ("--round", "03"),
    ("--round", "+3"),
    ("--round", "3 "),
    ("--round", "-3"),
    ("--workers", "0"),
    ("--workers", "33"),
    ("--workers", "04"),
];

#[test]
fn rounds_and_workers_of_a_save_are_in_range(rt: HostRuntime) {
    for &(option, value) in &SAVED_OUT_OF_RANGE {
        let other = if option == "--round" {
            ["--workers", "2"]
        } else {
            ["--round", "3"]
        };
        let words = [
            "save", option, value, other[0], other[1], "--log", "l", "--to", "m", "a",
        ];
        check_refused(&rt, rt.alloc(), &words);
    }
    for value in ["0", "33", "04"] {
        let words = ["resume", "--workers", value, "--log", "l", "--from", "m"];
        check_refused(&rt, rt.alloc(), &words);
    }
}
