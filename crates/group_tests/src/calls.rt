//! Calls of the program.
use crate::checks::{same, same_at};
use dos_cmd::dos_main;
use dos_io::{Files, MemoryFiles, MemoryHost, MemorySink};
use std::alloc::Global;
use std::process::Abort;
use std::thread::Threads;
use worker_pool::{OpenGate, Stealing, Tally, Workers};

/// The file of the log, which each run writes.
pub const LOG: &str = "log";

/// What a call is to leave: its status, its output and its error output.
pub type Wanted<'a> = (u8, &'a str, &'a str);

/// What a call left.
#[derive(Drop)]
pub struct Left {
    status: u8,
    out: MemorySink,
    err: MemorySink,
    /// By how much the tally grew; 0 where that isn't looked at.
    work: u64,
}

impl Left {
    /// The status, what stands on both outputs, and by how much the tally grew.
    pub fn seen(&self) -> (u8, &[u8], &[u8], u64) {
        (self.status, self.out.bytes(), self.err.bytes(), self.work)
    }
}

/// What comes from outside, and which calls fail, by their numbers from 1.
#[derive(Clone, Copy)]
pub struct Outside<'a> {
    /// The input, in pieces of `piece` bytes.
    pub input: &'a [u8],
    pub piece: u32,
    pub clocks: &'a [u64],
    pub host_failing: &'a [u32],
    pub out_failing: &'a [u32],
    pub err_failing: &'a [u32],
}

/// Nothing comes, and nothing fails.
pub const NOTHING: Outside<'static> = Outside {
    input: b"",
    piece: 1,
    clocks: &[],
    host_failing: &[],
    out_failing: &[],
    err_failing: &[],
};

fn add_word(rt: &impl Abort, alloc: Global, words: &mut Vec<String>, text: &str) {
    let word = String::from_str(alloc, text).expect(rt, "memory");
    words.push(word).expect(rt, "memory");
}

// The words, where `run` also says where its log goes.
fn words_of(rt: &impl Abort, alloc: Global, texts: &[&str]) -> Vec<String> {
    let mut words = Vec::new(alloc);
    for text in texts {
        add_word(rt, alloc, &mut words, text);
        if *text == "run" {
            add_word(rt, alloc, &mut words, "--log");
            add_word(rt, alloc, &mut words, LOG);
        }
    }
    words
}

fn host_of(rt: &impl Abort, alloc: Global, outside: &Outside<'_>) -> MemoryHost {
    let Outside { input, clocks, .. } = *outside;
    let piece = outside.piece.max(1);
    MemoryHost::new(alloc, input, piece, clocks, outside.host_failing).expect(rt, "memory")
}

// A sink with room for two million bytes.
fn sink(rt: &impl Abort, alloc: Global, failing: &[u32]) -> MemorySink {
    MemorySink::new(alloc, 2000000, failing).expect(rt, "memory")
}

/// Calls the program with these words and workers, and `--log log` behind the word `run`.
pub fn call_by<W: Workers>(
    rt: &impl Abort,
    alloc: Global,
    files: &mut MemoryFiles,
    texts: &[&str],
    outside: &Outside<'_>,
    workers: &mut W,
) -> Left {
    let words = words_of(rt, alloc, texts);
    let mut host = host_of(rt, alloc, outside);
    let mut out = sink(rt, alloc, outside.out_failing);
    let mut err = sink(rt, alloc, outside.err_failing);
    let status = dos_main(alloc, &words, files, &mut host, &mut out, &mut err, workers);
    drop(words);
    drop(host);
    Left {
        status,
        out,
        err,
        work: 0,
    }
}

/// The same with a pool that steals, whose tally is looked at.
pub fn call_over<R: Threads + Sync + Abort>(
    rt: &R,
    alloc: Global,
    files: &mut MemoryFiles,
    texts: &[&str],
    outside: &Outside<'_>,
) -> Left {
    let gate = OpenGate::new();
    let mut tally = Tally::new();
    let mut workers = Stealing::new(rt, alloc, 1, &gate, &mut tally);
    let mut left = call_by(rt, alloc, files, texts, outside, &mut workers);
    workers.finish();
    left.work = tally.count();
    left
}

/// The same with nothing from outside.
pub fn call<R: Threads + Sync + Abort>(
    rt: &R,
    alloc: Global,
    files: &mut MemoryFiles,
    texts: &[&str],
) -> Left {
    call_over(rt, alloc, files, texts, &NOTHING)
}

/// A call of these words left what is wanted.
pub fn check_left(rt: &impl Abort, left: &Left, texts: &[&str], wanted: Wanted<'_>) {
    let (status, out, err) = wanted;
    let seen = (left.status, left.out.bytes(), left.err.bytes());
    same_at(rt, seen, (status, out.as_bytes(), err.as_bytes()), texts);
}

/// A call put so many bytes to output, and this to error.
pub fn check_long(rt: &impl Abort, left: &Left, count: usize, err: &str) {
    let seen = (left.out.bytes().len(), left.err.bytes());
    same(rt, seen, (count, err.as_bytes()));
}

/// Calls the program, which leaves what is wanted; by how much the tally grew.
pub fn leaves_over<R: Threads + Sync + Abort>(
    rt: &R,
    alloc: Global,
    files: &mut MemoryFiles,
    texts: &[&str],
    outside: &Outside<'_>,
    wanted: Wanted<'_>,
) -> u64 {
    let left = call_over(rt, alloc, files, texts, outside);
    check_left(rt, &left, texts, wanted);
    let work = left.work;
    drop(left);
    work
}

/// The same with nothing from outside.
pub fn leaves<R: Threads + Sync + Abort>(
    rt: &R,
    alloc: Global,
    files: &mut MemoryFiles,
    texts: &[&str],
    wanted: Wanted<'_>,
) -> u64 {
    leaves_over(rt, alloc, files, texts, &NOTHING, wanted)
}

/// The words of a call, the numbers of the puts to output and to error that fail in it, and what it
/// leaves.
pub struct Case {
    pub words: &'static [&'static str],
    pub out_failing: &'static [u32],
    pub err_failing: &'static [u32],
    pub status: u8,
    pub out: &'static str,
    pub err: &'static str,
}

/// A call in which nothing fails, and which leaves nothing.
pub const SILENT: Case = Case {
    words: &[],
    out_failing: &[],
    err_failing: &[],
    status: 0,
    out: "",
    err: "",
};

fn check_case<R: Threads + Sync + Abort>(
    rt: &R,
    alloc: Global,
    files: &mut MemoryFiles,
    case: &Case,
) {
    let outside = Outside {
        out_failing: case.out_failing,
        err_failing: case.err_failing,
        ..NOTHING
    };
    let wanted = (case.status, case.out, case.err);
    let _ = leaves_over(rt, alloc, files, case.words, &outside, wanted);
}

/// Calls the program with the words of each case in turn.
pub fn check_cases<R: Threads + Sync + Abort>(
    rt: &R,
    alloc: Global,
    files: &mut MemoryFiles,
    cases: &[Case],
) {
    for case in cases {
        check_case(rt, alloc, files, case);
    }
}

fn begins_with_option(words: &[&str]) -> bool {
    let [option, _value, ..] = words else {
        return false;
    };
    option.starts_with("--")
}

// The names of a run's words, which stand behind its options.
fn names<'a>(texts: &'a [&'a str]) -> &'a [&'a str] {
    let mut rest = texts.get(1..).unwrap_or(&[]);
    for _ in 0..texts.len() {
        if !begins_with_option(rest) {
            return rest;
        }
        rest = rest.get(2..).unwrap_or(&[]);
    }
    rest
}

// The option of the scheme and its value, or nothing where the words have none.
fn scheme_words<'a>(texts: &'a [&'a str]) -> &'a [&'a str] {
    for place in 0..texts.len() {
        if texts[place] == "--scheme" {
            return texts.get(place..place + 2).unwrap_or(&[]);
        }
    }
    &[]
}

/// The words that replay the log of a run of these words, by the same scheme.
pub fn replay_words<'a>(rt: &impl Abort, alloc: Global, texts: &'a [&'a str]) -> Vec<&'a str> {
    let mut words = Vec::new(alloc);
    words
        .extend_from_slice(&["replay", "--log", LOG])
        .expect(rt, "memory");
    words
        .extend_from_slice(scheme_words(texts))
        .expect(rt, "memory");
    words.extend_from_slice(names(texts)).expect(rt, "memory");
    words
}

// A replay left what the run did.
fn check_same(rt: &impl Abort, again: &Left, ran: &Left) {
    same(rt, (again.status, again.work), (ran.status, ran.work));
    same(
        rt,
        (again.out.bytes(), again.err.bytes()),
        (ran.out.bytes(), ran.err.bytes()),
    );
}

/// A replay of the log of a run of these words leaves what the run left.
pub fn check_replay<R: Threads + Sync + Abort>(
    rt: &R,
    alloc: Global,
    files: &mut MemoryFiles,
    texts: &[&str],
    ran: Left,
) {
    let words = replay_words(rt, alloc, texts);
    let again = call(rt, alloc, files, &words);
    check_same(rt, &again, &ran);
    drop(words);
    drop(again);
    drop(ran);
}

/// Both schemes, by their words.
pub const SCHEMES: [&str; 2] = ["ownership", "buffered"];

// How many workers a run has, where its words don't say it.
const NUMBERS: [&str; 3] = ["1", "2", "32"];

/// The words of a run with these options more.
pub fn with_options<'a>(
    rt: &impl Abort,
    alloc: Global,
    texts: &[&'a str],
    options: &[&'a str],
) -> Vec<&'a str> {
    let mut words = Vec::new(alloc);
    words.push("run").expect(rt, "memory");
    words.extend_from_slice(options).expect(rt, "memory");
    words
        .extend_from_slice(texts.get(1..).unwrap_or(&[]))
        .expect(rt, "memory");
    words
}

// Runs with these words and options, which leaves what is wanted, and then replays the log.
fn run_with<R: Threads + Sync + Abort>(
    rt: &R,
    alloc: Global,
    files: &mut MemoryFiles,
    texts: &[&str],
    options: &[&str],
    outside: &Outside<'_>,
    wanted: Wanted<'_>,
) {
    let words = with_options(rt, alloc, texts, options);
    let left = call_over(rt, alloc, files, &words, outside);
    check_left(rt, &left, &words, wanted);
    check_replay(rt, alloc, files, &words, left);
    drop(words);
}

/// Runs with these words by a scheme, and unless they say with how many workers with 1, 2 and 32,
/// which leaves what is wanted, and then replays each log.
pub fn run_by<R: Threads + Sync + Abort>(
    rt: &R,
    alloc: Global,
    files: &mut MemoryFiles,
    texts: &[&str],
    scheme: &str,
    outside: &Outside<'_>,
    wanted: Wanted<'_>,
) {
    if texts.contains(&"--workers") {
        let options = ["--scheme", scheme];
        run_with(rt, alloc, files, texts, &options, outside, wanted);
        return;
    }
    for workers in NUMBERS {
        let options = ["--scheme", scheme, "--workers", workers];
        run_with(rt, alloc, files, texts, &options, outside, wanted);
    }
}

/// The same by both schemes, which leave the same.
pub fn run_twice_over<R: Threads + Sync + Abort>(
    rt: &R,
    alloc: Global,
    files: &mut MemoryFiles,
    texts: &[&str],
    outside: &Outside<'_>,
    wanted: Wanted<'_>,
) {
    for scheme in SCHEMES {
        run_by(rt, alloc, files, texts, scheme, outside, wanted);
    }
}

/// The same with nothing from outside.
pub fn run_twice<R: Threads + Sync + Abort>(
    rt: &R,
    alloc: Global,
    files: &mut MemoryFiles,
    texts: &[&str],
    wanted: Wanted<'_>,
) {
    run_twice_over(rt, alloc, files, texts, &NOTHING, wanted);
}

// These bytes, and those behind them.
fn joined(rt: &impl Abort, alloc: Global, first: &[u8], second: &[u8]) -> Vec<u8> {
    let mut bytes = Vec::new(alloc);
    bytes.extend_from_slice(first).expect(rt, "memory");
    bytes.extend_from_slice(second).expect(rt, "memory");
    bytes
}

/// A call ended with 0, and the last that it put to error is this line.
pub fn check_last_line(rt: &impl Abort, left: &Left, line: &[u8]) {
    let err = left.err.bytes();
    same(rt, (left.status, err.ends_with(line)), (0, true));
}

/// What two calls left, one behind the other, is what a third left, but for the line that stands
/// last in the first one's error.
pub fn check_joined(
    rt: &impl Abort,
    alloc: Global,
    first: &Left,
    line: &[u8],
    second: &Left,
    whole: &Left,
) {
    check_last_line(rt, first, line);
    let told = first.err.bytes().strip_suffix(line).unwrap_or(b"");
    let out = joined(rt, alloc, first.out.bytes(), second.out.bytes());
    let err = joined(rt, alloc, told, second.err.bytes());
    let seen = (second.status, out.as_slice(), err.as_slice());
    same(
        rt,
        seen,
        (whole.status, whole.out.bytes(), whole.err.bytes()),
    );
    let work = first.work.saturating_add(second.work);
    same(rt, work, whole.work);
    drop(out);
    drop(err);
}

/// The bytes of the log.
pub fn log_of(rt: &impl Abort, files: &mut MemoryFiles) -> Vec<u8> {
    files.get(LOG, 1 << 27).expect(rt, "a log")
}

/// How many bytes the log has.
pub fn log_length(rt: &impl Abort, files: &mut MemoryFiles) -> usize {
    let log = log_of(rt, files);
    let length = log.len();
    drop(log);
    length
}

/// Whether there is a log.
pub fn has_log(files: &mut MemoryFiles) -> bool {
    files.get(LOG, 1 << 27).is_ok()
}
