//! The group that is made from a number.
use crate::calls::leaves;
use dos_io::MemoryFiles;
use std::alloc::Global;
use std::process::Abort;
use std::thread::Threads;

// What number 7 comes to with one thread and with 8.
const ONE: &str = "\
    rounds 13 done\n\
    process 1 status 0\n\
    output 4100 bytes\n\
    sha256 e59d0f930d0ea4db1caa85500322a5534b2c60e19a71fb491a8eac6055e8aa34\n";

const EIGHT: &str = "\
    rounds 14 done\n\
    process 1 status 0\n\
    output 32800 bytes\n\
    sha256 960b87a6bce3e57eefc45993a88a37a062414cb1d9e710e960a5f06fab696e99\n";

// The numbers of threads and of workers, and what is put to output.
const ROWS: [(&str, &str, &str); 6] = [
    ("1", "1", ONE),
    ("1", "2", ONE),
    ("1", "32", ONE),
    ("8", "1", EIGHT),
    ("8", "2", EIGHT),
    ("8", "32", EIGHT),
];

fn check_row<R: Threads + Sync + Abort>(
    rt: &R,
    alloc: Global,
    files: &mut MemoryFiles,
    row: &(&str, &str, &str),
) {
    let (threads, workers, out) = *row;
    let words = [
        "gen",
        "--number",
        "7",
        "--threads",
        threads,
        "--workers",
        workers,
    ];
    let _ = leaves(rt, alloc, files, &words, (0, out, ""));
}

#[test]
fn it_is_the_same_with_any_number_of_workers(rt: HostRuntime) {
    let alloc = rt.alloc();
    let mut files = MemoryFiles::new(alloc, &[]).expect(&rt, "memory");
    for row in &ROWS {
        check_row(&rt, alloc, &mut files, row);
    }
    drop(files);
}
