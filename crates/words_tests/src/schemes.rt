//! Schemes that words name.
use crate::checks::same_at;
use crate::requests::{are_names, asked, check_refused};
use dos_words::Request;
use dos_world::Scheme;
use std::alloc::Global;

/// The scheme of a run or a replay of the image `a` with the log `l`, else none.
fn scheme_of(request: &Request) -> Option<Scheme> {
    match request {
        Request::Run {
            scheme,
            log,
            names,
            ..
        } => if log.as_str() == "l" && are_names(names, &["a"]) {
            Some(*scheme)
        } else {
            None
        },
        Request::Replay {
            scheme,
            log,
            names,
            ..
        } => if log.as_str() == "l" && are_names(names, &["a"]) {
            Some(*scheme)
        } else {
            None
        },
        _ => None,
    }
}

/// The scheme that the words ask for, if they ask for such a run or replay.
fn scheme_asked(alloc: Global, texts: &[&str]) -> Option<Scheme> {
    match asked(alloc, texts) {
        Ok(request) => scheme_of(&request),
        Err(_) => None,
    }
}

/// Words of runs and replays, and their schemes. Some words are canonical, and others aren't.
static SCHEMES: [(&[&str], Scheme); 14] = [
    (&["run", "--log", "l", "a"], Scheme::Ownership),
    (
        &["run", "--scheme", "ownership", "--log", "l", "a"],
        Scheme::Ownership,
    ),
    (
        &["run", "--scheme", "buffered", "--log", "l", "a"],
        Scheme::Buffered,
    ),
    (
        &["run", "--log", "l", "--scheme", "buffered", "a"],
        Scheme::Buffered,
    ),
    (
        &[
            "run",
            "--quantum",
            "16",
            "--rounds",
            "1",
            "--frames",
            "17",
            "--workers",
            "2",
            "--scheme",
            "buffered",
            "--signals",
            "1:1:15",
            "--clock-from",
            "5",
            "--clock-step",
            "7",
            "--log",
            "l",
            "a",
        ],
        Scheme::Buffered,
    ),
    (
        &["run", "--scheme=ownership", "--log=l", "a"],
        Scheme::Ownership,
    ),
    (
        &["run", "a", "--scheme=buffered", "--log=l"],
        Scheme::Buffered,
    ),
    (&["replay", "--log", "l", "a"], Scheme::Ownership),
    (
        &["replay", "--scheme", "ownership", "--log", "l", "a"],
        Scheme::Ownership,
    ),
    (
        &["replay", "--scheme", "buffered", "--log", "l", "a"],
        Scheme::Buffered,
    ),
    (
        &[
            "replay",
            "--workers",
            "2",
            "--scheme",
            "buffered",
            "--log",
            "l",
            "a",
        ],
        Scheme::Buffered,
    ),
    (
        &[
            "replay",
            "--log",
            "l",
            "--scheme",
            "buffered",
            "--workers",
            "2",
            "a",
        ],
        Scheme::Buffered,
    ),
    (
        &["replay", "--log=l", "--scheme=buffered", "--", "a"],
        Scheme::Buffered,
    ),
    (
        &["replay", "a", "--log", "l", "--scheme", "ownership"],
        Scheme::Ownership,
    ),
];

#[test]
fn runs_and_replays_have_a_scheme(rt: HostRuntime) {
    let alloc = rt.alloc();
    for &(texts, wanted) in &SCHEMES {
        same_at(&rt, scheme_asked(alloc, texts), Some(wanted), texts);
    }
}

/// Words that name no scheme, or where no scheme may be named.
static REFUSED: [&[&str]; 19] = [
    &["run", "--scheme", "shared", "--log", "l", "a"],
    &["run", "--scheme", "Ownership", "--log", "l", "a"],
    &["run", "--scheme", "buffer", "--log", "l", "a"],
    &["run", "--scheme", "bufferedly", "--log", "l", "a"],
    &["run", "--scheme", "", "--log", "l", "a"],
    &["run", "--scheme=", "--log", "l", "a"],
    &["run", "--log", "l", "a", "--scheme"],
    &["run", "--scheme", "--log", "l", "a"],
    &[
        "run", "--scheme", "buffered", "--log", "l", "--scheme", "buffered", "a",
    ],
    &[
        "run",
        "--scheme",
        "buffered",
        "--scheme=ownership",
        "--log",
        "l",
        "a",
    ],
    &["run", "--log", "l", "a", "--scheme", "buffered", "b"],
    &["replay", "--scheme", "shared", "--log", "l", "a"],
    &[
        "replay", "--scheme", "buffered", "--log", "l", "--scheme", "buffered", "a",
    ],
    &["inspect", "--scheme", "buffered", "a"],
    &[
        "gen",
        "--number",
        "1",
        "--threads",
        "1",
        "--scheme",
        "buffered",
    ],
    &["trace", "--scheme", "buffered", "--log", "l", "a"],
    &["debug", "--scheme", "buffered", "--log", "l", "a"],
    &[
        "save", "--log", "l", "--round", "3", "--to", "m", "--scheme", "buffered", "a",
    ],
    &[
        "resume", "--log", "l", "--from", "m", "--scheme", "buffered",
    ],
];

#[test]
fn other_schemes_are_refused(rt: HostRuntime) {
    for &texts in &REFUSED {
        check_refused(&rt, rt.alloc(), texts);
    }
}
