//! What a call asks of its files and its host, and what it puts to its outputs, in one order.
ghost use Rattle.std.specs.Prelude.{◌≡◌, ◌<◌, ◌≤◌, ◌++◌, ◌∷◌, [], length, drop, None, false, IfOk};
ghost use Rattle.std.specs.Prelude.{OnOk};
ghost use Rattle.dos_io.specs.Outside.{HasCause};
ghost use Rattle.dos_io.specs.Memory.{asked_of, calls_of};

use crate::calls::LOG;
use crate::checks::same_at;
use crate::machine_words::add_words;
use crate::saves::{GROUP, RESUME};
use dos_cmd::dos_main;
use dos_io::{
    FileError, Files, Host, HostFault, HostQuestion, MemoryFiles, MemoryHost, Sink, SinkFault,
};
use std::alloc::{AllocError, Global};
use std::cell::RefCell;
use std::process::Abort;
use std::thread::Threads;
use worker_pool::{OpenGate, Stealing, Tally};

// What was asked and put so far, each in brackets.
type Events = RefCell<Vec<u8>>;

fn add(events: &mut Vec<u8>, what: &str, bytes: &[u8]) -> Result<(), AllocError> {
    events.extend_from_slice(b"[")?;
    events.extend_from_slice(what.as_bytes())?;
    events.extend_from_slice(bytes)?;
    events.extend_from_slice(b"]")
}

// It comes behind what came so far.
fn note(events: &Events, what: &str, bytes: &[u8]) {
    if let Ok(mut list) = events.try_borrow_mut() {
        let _added = add(&mut list, what, bytes);
    }
}

// Files in memory, which note what they are asked.
#[derive(Drop)]
struct NotedFiles<'a> {
    files: MemoryFiles,
    events: &'a Events,
}

impl Files for NotedFiles<'_> {
    ghost content = { λ _ _. None };

    ghost tells = { λ _. false };

    ghost faults = { λ s. (calls_of s.files).faults };

    ghost asked = { λ s. asked_of s.files };

    fn get(&mut self, name: &str, limit: u64) -> Result<Vec<u8>, FileError> {
        note(self.events, "get ", name.as_bytes());
        self.files.get(name, limit)
    }

    fn set(&mut self, name: &str, bytes: &[u8]) -> Result<(), FileError> {
        note(self.events, "set ", name.as_bytes());
        self.files.set(name, bytes)
    }
}

// A host in memory, which notes what it is asked.
#[derive(Drop)]
struct NotedHost<'a> {
    host: MemoryHost,
    events: &'a Events,
}

impl Host for NotedHost<'_> {
    ghost told = { λ _. None };

    ghost asked = { λ s. s.host.asked };

    ghost faults = { λ s. s.host.calls.faults };

    fn input(&mut self, buf: &mut [u8]) -> Result<usize, HostFault>
        requires { 0 < length buf.old }
        ensures short { IfOk result (λ k. k ≤ length buf.old) }
        ensures rest { IfOk result (λ k. drop k buf.new ≡ drop k buf.old) }
        ensures asked { self.new.host.asked
            ≡ self.old.host.asked ++ HostQuestion.Bytes (length buf.old) ∷ [] }
        ensures cause { HasCause self.old.host.calls.faults self.new.host.calls.faults result }
        ensures steady { OnOk result (self.new.host.calls.faults
            ≡ self.old.host.calls.faults) }
    {
        note(self.events, "input", b"");
        self.host.input(buf)
    }

    fn clock(&mut self) -> Result<u64, HostFault> {
        note(self.events, "clock", b"");
        self.host.clock()
    }

    ghost filled = { λ _. tt };
}

// An output of this name, which notes what is put to it, and keeps nothing.
#[derive(Drop)]
struct NotedSink<'a> {
    name: &'static str,
    events: &'a Events,
}

impl Sink for NotedSink<'_> {
    ghost told = { λ _. None };

    ghost faults = { λ _. 0 };

    fn put(&mut self, piece: &[u8]) -> Result<(), SinkFault> {
        note(self.events, self.name, piece);
        Ok(())
    }
}

// Prompts by its text, reads 8 bytes, and writes what came to error; looks at the clock, and ends
// with 0.
const PROMPTS: [u32; 20] = [
    0x0080_0893,
    0x0010_0513,
    0x0001_05b7,
    0x1005_8593,
    0x0020_0613,
    0x0000_0073,
    0x0070_0893,
    0x0000_0513,
    0xfc01_0593,
    0x0080_0613,
    0x0000_0073,
    0x0005_0613,
    0x0080_0893,
    0x0020_0513,
    0x0000_0073,
    0x0160_0893,
    0x0000_0073,
    0x0020_0893,
    0x0000_0513,
    0x0000_0073,
];

// Writes two bytes of its text to output, two to error, two to output and two to error, and ends
// with 0.
const WRITES_TO_BOTH: [u32; 22] = [
    0x0080_0893,
    0x0001_0437,
    0x1004_0413,
    0x0010_0513,
    0x0004_0593,
    0x0020_0613,
    0x0000_0073,
    0x0020_0513,
    0x0024_0593,
    0x0020_0613,
    0x0000_0073,
    0x0010_0513,
    0x0044_0593,
    0x0020_0613,
    0x0000_0073,
    0x0020_0513,
    0x0064_0593,
    0x0020_0613,
    0x0000_0073,
    0x0020_0893,
    0x0000_0513,
    0x0000_0073,
];

// The words of some calls over the same files and the same host, the code of the guest `a` and its
// text, the host's calls that fail, and what the calls ask and put.
struct Case {
    calls: &'static [&'static [&'static str]],
    code: &'static [u32],
    text: &'static [u8],
    host_failing: &'static [u32],
    events: &'static str,
}

const RUN: [&str; 4] = ["run", "--log", LOG, "a"];

const SAVE: [&str; 8] = ["save", "--log", LOG, "--round", "1", "--to", GROUP, "a"];

const CASES: [Case; 8] = [
    // what the guest puts before it reads is put before the host is asked
    Case {
        calls: &[&RUN],
        code: &PROMPTS,
        text: b"? ",
        host_failing: &[],
        events: "[get a][out ? ][input][err yes][clock][set log]\
            [err process 1 status 0\n][err rounds 1 done\n]",
    },
    // output and error in turn
    Case {
        calls: &[&RUN],
        code: &WRITES_TO_BOTH,
        text: b"abcdefgh",
        host_failing: &[],
        events: "[get a][out ab][err cd][out ef][err gh][set log]\
            [err process 1 status 0\n][err rounds 1 done\n]",
    },
    // a stop, behind which nothing is asked or put but its line
    Case {
        calls: &[&RUN],
        code: &PROMPTS,
        text: b"? ",
        host_failing: &[1],
        events: "[get a][out ? ][input][err dos: host fault\n]",
    },
    Case {
        calls: &[&RUN],
        code: &PROMPTS,
        text: b"? ",
        host_failing: &[2],
        events: "[get a][out ? ][input][err yes][clock][err dos: host fault\n]",
    },
    // each file is read as its turn comes, and none behind one that can't be
    Case {
        calls: &[&["run", "--log", LOG, "a", "a", "none", "a"]],
        code: &PROMPTS,
        text: b"? ",
        host_failing: &[],
        events: "[get a][get a][get none][err dos: file fault\n]",
    },
    // a replay asks its log first, then the images, and no host
    Case {
        calls: &[&RUN, &["replay", "--log", LOG, "a"]],
        code: &PROMPTS,
        text: b"? ",
        host_failing: &[],
        events: "[get a][out ? ][input][err yes][clock][set log]\
            [err process 1 status 0\n][err rounds 1 done\n]\
            [get log][get a][out ? ][err yes][err process 1 status 0\n][err rounds 1 done\n]",
    },
    // a group is written once its run has come to the round, and the line is put behind that; who
    // goes on with it asks for the group, then for the log, and for no image
    Case {
        calls: &[&RUN, &SAVE, &RESUME],
        code: &PROMPTS,
        text: b"? ",
        host_failing: &[],
        events: "[get a][out ? ][input][err yes][clock][set log]\
            [err process 1 status 0\n][err rounds 1 done\n]\
            [get log][get a][out ? ][err yes][set group][err saved round 1\n]\
            [get group][get log][err process 1 status 0\n][err rounds 1 done\n]",
    },
    // where there is no log, no image is asked for, nor is a group written; and a group that isn't
    // there hides the log behind it
    Case {
        calls: &[&SAVE, &RESUME],
        code: &PROMPTS,
        text: b"? ",
        host_failing: &[],
        events: "[get log][err dos: file fault\n][get group][err dos: file fault\n]",
    },
];

fn words_of(rt: &impl Abort, alloc: Global, texts: &[&str]) -> Vec<String> {
    let mut words = Vec::new(alloc);
    for text in texts {
        words
            .push(String::from_str(alloc, text).expect(rt, "memory"))
            .expect(rt, "memory");
    }
    words
}

fn files_of<'a>(rt: &impl Abort, alloc: Global, case: &Case, events: &'a Events) -> NotedFiles<'a> {
    let mut files = MemoryFiles::new(alloc, &[]).expect(rt, "memory");
    add_words(rt, alloc, &mut files, case.code, case.text);
    NotedFiles { files, events }
}

fn host_of<'a>(rt: &impl Abort, alloc: Global, case: &Case, events: &'a Events) -> NotedHost<'a> {
    let host = MemoryHost::new(alloc, b"yes", 8, &[5], case.host_failing).expect(rt, "memory");
    NotedHost { host, events }
}

// Calls the program with these words over files, a host and outputs that note all in one list.
fn call<R: Threads + Sync + Abort>(
    rt: &R,
    alloc: Global,
    texts: &[&str],
    files: &mut NotedFiles<'_>,
    host: &mut NotedHost<'_>,
    events: &Events,
) {
    let words = words_of(rt, alloc, texts);
    let mut out = NotedSink {
        name: "out ",
        events,
    };
    let mut err = NotedSink {
        name: "err ",
        events,
    };
    let gate = OpenGate::new();
    let mut tally = Tally::new();
    let mut workers = Stealing::new(rt, alloc, 1, &gate, &mut tally);
    let _status = dos_main(alloc, &words, files, host, &mut out, &mut err, &mut workers);
    workers.finish();
    drop(words);
}

// The calls of a case, one after another.
fn play<R: Threads + Sync + Abort>(rt: &R, alloc: Global, case: &Case, events: &Events) {
    let mut files = files_of(rt, alloc, case, events);
    let mut host = host_of(rt, alloc, case, events);
    for words in case.calls {
        call(rt, alloc, words, &mut files, &mut host, events);
    }
    drop(files);
    drop(host);
}

fn check_case<R: Threads + Sync + Abort>(rt: &R, alloc: Global, case: &Case) {
    let events = RefCell::new(Vec::new(alloc));
    play(rt, alloc, case, &events);
    let noted = events.into_inner();
    same_at(rt, noted.as_slice(), case.events.as_bytes(), case.events);
    drop(noted);
}

#[test]
fn calls_ask_and_put_in_the_machines_order(rt: HostRuntime) {
    for case in &CASES {
        check_case(&rt, rt.alloc(), case);
    }
}
