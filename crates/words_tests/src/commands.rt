//! What the words of each command ask for.
use crate::checks::{same, same_at};
use crate::requests::{
    DEFAULTS, NO_CLOCK, are_names, asked, check_refused, has_names, numbers, runs,
};
use dos_words::Request;
use std::alloc::Global;
use std::process::Abort;

/// Whether these words ask for a run of these numbers with the log `l` and the image `a`.
fn runs_a(alloc: Global, texts: &[&str], wanted: [u64; 6]) -> bool {
    match asked(alloc, texts) {
        Ok(request) => numbers(&request) == Some(wanted) && has_names(&request, "l", &["a"]),
        Err(_) => false,
    }
}

fn check_run(rt: &impl Abort, alloc: Global, texts: &[&str], wanted: [u64; 6]) {
    same_at(rt, runs_a(alloc, texts, wanted), true, texts);
}

#[test]
fn options_stand_in_any_order(rt: HostRuntime) {
    let alloc = rt.alloc();
    check_run(&rt, alloc, &["run", "--log", "l", "a"], DEFAULTS);
    let wanted = [16, 1, 17, 2, 7, 5];
    let one = [
        "run",
        "--quantum",
        "16",
        "--rounds",
        "1",
        "--frames",
        "17",
        "--workers",
        "2",
        "--clock-from",
        "5",
        "--clock-step",
        "7",
        "--log",
        "l",
        "a",
    ];
    let other = [
        "run",
        "--log",
        "l",
        "--clock-step",
        "7",
        "--clock-from",
        "5",
        "--workers",
        "2",
        "--frames",
        "17",
        "--rounds",
        "1",
        "--quantum",
        "16",
        "a",
    ];
    check_run(&rt, alloc, &one, wanted);
    check_run(&rt, alloc, &other, wanted);
}

#[test]
fn words_of_other_forms_are_taken(rt: HostRuntime) {
    let alloc = rt.alloc();
    check_run(&rt, alloc, &["run", "--log=l", "a"], DEFAULTS);
    check_run(&rt, alloc, &["run", "a", "--log", "l"], DEFAULTS);
    check_run(&rt, alloc, &["run", "--log", "l", "--", "a"], DEFAULTS);
    let workers = [1000, 100000, 4096, 2, 1, NO_CLOCK];
    check_run(&rt, alloc, &["run", "--workers=2", "a", "--log=l"], workers);
    let dashed = ["run", "--log", "l", "--", "-a", "--log"];
    same(&rt, runs(alloc, &dashed, "l", &["-a", "--log"]), true);
}

#[test]
fn one_to_eight_names_are_taken(rt: HostRuntime) {
    let alloc = rt.alloc();
    let eight = ["a", "b", "c", "d", "e", "f", "g", "h"];
    let words = ["run", "--log", "l", "a", "b", "c", "d", "e", "f", "g", "h"];
    same(&rt, runs(alloc, &words, "l", &eight), true);
    let nine = [
        "run", "--log", "l", "a", "b", "c", "d", "e", "f", "g", "h", "i",
    ];
    check_refused(&rt, alloc, &nine);
}

/// Whether these words ask for a replay of the log `l` with these workers and the images `a`, `b`.
fn replays(alloc: Global, texts: &[&str], wanted: u32) -> bool {
    match asked(alloc, texts) {
        Ok(
            Request::Replay {
                workers,
                log,
                names,
                ..
            },
        ) => workers == wanted && log.as_str() == "l" && are_names(&names, &["a", "b"]),
        _ => false,
    }
}

/// Whether these words ask for the parts of the image `a`.
fn inspects_a(alloc: Global, texts: &[&str]) -> bool {
    match asked(alloc, texts) {
        Ok(Request::Inspect { name }) => name.as_str() == "a",
        _ => false,
    }
}

/// The number, the threads and the workers of a generated run.
fn generates(alloc: Global, texts: &[&str]) -> Option<[u32; 3]> {
    match asked(alloc, texts) {
        Ok(
            Request::Gen {
                number,
                threads,
                workers,
            },
        ) => Some([number, threads, workers]),
        _ => None,
    }
}

/// Whether these words ask for the log `l` anew in the file `m`.
fn migrates(alloc: Global, texts: &[&str]) -> bool {
    match asked(alloc, texts) {
        Ok(Request::Migrate { log, to }) => log.as_str() == "l" && to.as_str() == "m",
        _ => false,
    }
}

fn check_replay(rt: &impl Abort, alloc: Global, texts: &[&str], wanted: u32) {
    same_at(rt, replays(alloc, texts, wanted), true, texts);
}

#[test]
fn other_commands_are_read(rt: HostRuntime) {
    let alloc = rt.alloc();
    check_replay(&rt, alloc, &["replay", "--log", "l", "a", "b"], 4);
    let least = ["replay", "--log", "l", "--workers", "1", "a", "b"];
    check_replay(&rt, alloc, &least, 1);
    let most = ["replay", "--workers", "32", "--log", "l", "a", "b"];
    check_replay(&rt, alloc, &most, 32);
    same(&rt, inspects_a(alloc, &["inspect", "a"]), true);
    let least = ["gen", "--number", "0", "--threads", "1"];
    same(&rt, generates(alloc, &least), Some([0, 1, 4]));
    let most = [
        "gen",
        "--workers",
        "32",
        "--threads",
        "32",
        "--number",
        "4294967295",
    ];
    same(&rt, generates(alloc, &most), Some([4294967295, 32, 32]));
}

#[test]
fn migrations_have_a_log_and_a_file(rt: HostRuntime) {
    let alloc = rt.alloc();
    same(
        &rt,
        migrates(alloc, &["migrate", "--log", "l", "--to", "m"]),
        true,
    );
    same(
        &rt,
        migrates(alloc, &["migrate", "--to=m", "--log=l"]),
        true,
    );
    check_refused(&rt, alloc, &["migrate", "--log", "l"]);
    check_refused(&rt, alloc, &["migrate", "--to", "m"]);
    check_refused(&rt, alloc, &["migrate", "--log", "l", "--to", "m", "a"]);
    check_refused(
        &rt,
        alloc,
        &["migrate", "--log", "l", "--to", "m", "--to", "n"],
    );
}

/// The workers and the round of a replay of the log `l` with the images `a`, `b`, whose group is
/// saved in the file `m`.
fn saves(alloc: Global, texts: &[&str]) -> Option<[u32; 2]> {
    match asked(alloc, texts) {
        Ok(
            Request::Save {
                workers,
                log,
                round,
                to,
                names,
            },
        ) => {
            let are_given = log.as_str() == "l"
                && to.as_str() == "m"
                && are_names(&names, &["a", "b"]);
            if are_given {
                Some([workers, round])
            } else {
                None
            }
        }
        _ => None,
    }
}

/// The workers with which the saved group `m` is gone on with by the log `l`.
fn resumes(alloc: Global, texts: &[&str]) -> Option<u32> {
    match asked(alloc, texts) {
        Ok(Request::Resume { workers, log, from }) => {
            let are_given = log.as_str() == "l" && from.as_str() == "m";
            if are_given { Some(workers) } else { None }
        }
        _ => None,
    }
}

/// The workers with which `a` and `b` are debugged by the log `l`.
fn debugs(alloc: Global, texts: &[&str]) -> Option<u32> {
    match asked(alloc, texts) {
        Ok(
            Request::Debug {
                workers,
                log,
                names,
            },
        ) => {
            let are_given = log.as_str() == "l" && are_names(&names, &["a", "b"]);
            if are_given { Some(workers) } else { None }
        }
        _ => None,
    }
}

/// Words of debugged runs, and their workers.
static DEBUGS: [(&[&str], u32); 3] = [
    (&["debug", "--log", "l", "a", "b"], 4),
    (&["debug", "a", "b", "--workers", "1", "--log", "l"], 1),
    (&["debug", "--workers=32", "--log=l", "--", "a", "b"], 32),
];

#[test]
fn a_debugged_run_has_a_log_and_images(rt: HostRuntime) {
    let alloc = rt.alloc();
    for &(texts, wanted) in &DEBUGS {
        same_at(&rt, debugs(alloc, texts), Some(wanted), texts);
    }
}

/// Words of saves, and their workers and rounds.
static SAVES: [(&[&str], [u32; 2]); 5] = [
    (
        &["save", "--log", "l", "--round", "3", "--to", "m", "a", "b"],
        [4, 3],
    ),
    (
        &[
            "save",
            "--to",
            "m",
            "--workers",
            "1",
            "--round",
            "1",
            "--log",
            "l",
            "a",
            "b",
        ],
        [1, 1],
    ),
    (
        &[
            "save",
            "--workers=32",
            "--log=l",
            "--to=m",
            "--round=1000000",
            "a",
            "b",
        ],
        [32, 1000000],
    ),
    (
        &[
            "save", "--log", "l", "--round", "2", "--to", "m", "--", "a", "b",
        ],
        [4, 2],
    ),
    (
        &["save", "a", "b", "--log", "l", "--round", "2", "--to", "m"],
        [4, 2],
    ),
];

#[test]
fn a_save_has_a_log_a_round_a_file_and_images(rt: HostRuntime) {
    let alloc = rt.alloc();
    for &(texts, wanted) in &SAVES {
        same_at(&rt, saves(alloc, texts), Some(wanted), texts);
    }
}

/// Words of resumes, and their workers.
static RESUMES: [(&[&str], u32); 4] = [
    (&["resume", "--log", "l", "--from", "m"], 4),
    (
        &["resume", "--from", "m", "--workers", "1", "--log", "l"],
        1,
    ),
    (
        &["resume", "--workers", "32", "--from", "m", "--log", "l"],
        32,
    ),
    (&["resume", "--from=m", "--log=l", "--workers=2"], 2),
];

#[test]
fn a_resume_has_a_log_and_a_file(rt: HostRuntime) {
    let alloc = rt.alloc();
    for &(texts, wanted) in &RESUMES {
        same_at(&rt, resumes(alloc, texts), Some(wanted), texts);
    }
}
