//! Calls of the program, which record a run and show it.
use crate::frames::{Said, check_heard, sent};
use dos_cmd::dos_main;
use dos_io::{Files, MemoryFiles, MemoryHost, MemorySink};
use rv_asm::Builder;
use std::alloc::Global;
use std::process::Abort;
use std::thread::Threads;
use worker_pool::{OpenGate, Stealing, Tally};

/// Where the code begins.
const CODE: u32 = 0x1_0000;

fn words_of(rt: &impl Abort, alloc: Global, texts: &[&str]) -> Vec<String> {
    let mut words = Vec::new(alloc);
    for text in texts {
        let word = String::from_str(alloc, text).expect(rt, "memory");
        words.push(word).expect(rt, "memory");
    }
    words
}

fn file_of(rt: &impl Abort, alloc: Global, code: &[u32]) -> Vec<u8> {
    let mut builder = Builder::new(alloc, CODE, true).expect(rt, "memory");
    for word in code {
        builder.word(*word).expect(rt, "memory");
    }
    builder.finish().expect(rt, "an image")
}

// Calls the program over this input; its status, and what it put to output and to error.
fn call<R: Threads + Sync + Abort>(
    rt: &R,
    alloc: Global,
    files: &mut MemoryFiles,
    input: &[u8],
    texts: &[&str],
) -> (u8, MemorySink, MemorySink) {
    let words = words_of(rt, alloc, texts);
    let mut host = MemoryHost::new(alloc, input, 7, &[], &[]).expect(rt, "memory");
    let mut out = MemorySink::new(alloc, 40000, &[]).expect(rt, "memory");
    let mut err = MemorySink::new(alloc, 4000, &[]).expect(rt, "memory");
    let gate = OpenGate::new();
    let mut tally = Tally::new();
    let mut workers = Stealing::new(rt, alloc, 1, &gate, &mut tally);
    let status = dos_main(
        alloc,
        &words,
        files,
        &mut host,
        &mut out,
        &mut err,
        &mut workers,
    );
    workers.finish();
    drop(words);
    drop(host);
    (status, out, err)
}

// The session says what is wanted, by so many workers.
fn check_by<R: Threads + Sync + Abort>(
    rt: &R,
    alloc: Global,
    files: &mut MemoryFiles,
    workers: &str,
    script: &[Said],
) {
    let input = sent(rt, alloc, script);
    let words = ["debug", "--log", "log", "--workers", workers, "a"];
    let (status, out, err) = call(rt, alloc, files, &input, &words);
    assert_eq!(rt; status, 0);
    check_heard(rt, alloc, out.bytes(), script);
    drop(input);
    drop(out);
    drop(err);
}

// The session says what is wanted, by each number of workers.
fn check_by_each<R: Threads + Sync + Abort>(
    rt: &R,
    alloc: Global,
    files: &mut MemoryFiles,
    script: &[Said],
) {
    for workers in ["1", "2", "32"] {
        check_by(rt, alloc, files, workers, script);
    }
}

// The file `a` of this code, and the log of its run over this input.
fn recorded<R: Threads + Sync + Abort>(
    rt: &R,
    alloc: Global,
    code: &[u32],
    input: &[u8],
) -> MemoryFiles {
    let mut files = MemoryFiles::new(alloc, &[]).expect(rt, "memory");
    let image = file_of(rt, alloc, code);
    files.add("a", &image).expect(rt, "memory");
    drop(image);
    let (_, out, err) = call(rt, alloc, &mut files, input, &["run", "--log", "log", "a"]);
    drop(out);
    drop(err);
    files
}

/// A guest of this code is run over this input, and its log is shown.
pub fn check<R: Threads + Sync + Abort>(
    rt: &R,
    alloc: Global,
    code: &[u32],
    input: &[u8],
    script: &[Said],
) {
    let mut files = recorded(rt, alloc, code, input);
    check_by_each(rt, alloc, &mut files, script);
    drop(files);
}

// The byte of a file at a place is this one from now on.
fn change(rt: &impl Abort, files: &mut MemoryFiles, name: &str, place: usize, byte: u8) {
    let mut bytes = files.get(name, 1 << 20).expect(rt, "a file");
    if let Some(old) = bytes.get_mut(place) {
        *old = byte;
    }
    files.add(name, &bytes).expect(rt, "memory");
    drop(bytes);
}

/// A guest of this code is run, and its log is shown with another byte at a place.
pub fn check_changed<R: Threads + Sync + Abort>(
    rt: &R,
    alloc: Global,
    code: &[u32],
    place: usize,
    byte: u8,
    script: &[Said],
) {
    let mut files = recorded(rt, alloc, code, b"");
    change(rt, &mut files, "log", place, byte);
    check_by_each(rt, alloc, &mut files, script);
    drop(files);
}

/// A guest of this code is run, and its log is refused for so many images, with status 4: nothing
/// is answered.
pub fn check_refused<R: Threads + Sync + Abort>(
    rt: &R,
    alloc: Global,
    code: &[u32],
    words: &[&str],
    line: &str,
) {
    let mut files = recorded(rt, alloc, code, b"");
    let (status, out, err) = call(rt, alloc, &mut files, b"$?#3f", words);
    assert_eq!(rt; status, 4);
    assert_eq!(rt; out.bytes().len(), 0);
    assert_eq!(rt; err.bytes(), line.as_bytes());
    drop(files);
    drop(out);
    drop(err);
}
