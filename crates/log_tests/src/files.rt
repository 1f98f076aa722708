//! Files in memory and over std.
use dos_io::{FileError, Files, MemoryFiles, StdFiles};
use std::alloc::Global;
use std::process::Abort;

// The file is given, and has these bytes.
fn gives(rt: &impl Abort, files: &mut impl Files, name: &str, limit: u64, bytes: &[u8]) {
    let given = files.get(name, limit).expect(rt, "a file that is given");
    assert_eq!(rt; given.as_slice(), bytes);
}

fn gives_no(rt: &impl Abort, files: &mut impl Files, name: &str, limit: u64, error: FileError) {
    assert_eq!(rt; files.get(name, limit).err(), Some(error));
}

fn sets(
    rt: &impl Abort,
    files: &mut impl Files,
    name: &str,
    bytes: &[u8],
    answer: Result<(), FileError>,
) {
    assert_eq!(rt; files.set(name, bytes), answer);
}

#[test]
fn files_give_what_they_were_given(rt: HostRuntime) {
    let mut files = MemoryFiles::new(rt.alloc(), &[3, 5]).expect(&rt, "memory");
    files.add("a", b"abc").expect(&rt, "memory");
    gives(&rt, &mut files, "a", 3, b"abc");
    gives_no(&rt, &mut files, "a", 2, FileError::TooLong);
    gives_no(&rt, &mut files, "a", 3, FileError::Fault);
    gives_no(&rt, &mut files, "b", 3, FileError::Fault);
    sets(&rt, &mut files, "b", b"x", Err(FileError::Fault));
    sets(&rt, &mut files, "b", b"xy", Ok(()));
    gives(&rt, &mut files, "b", 3, b"xy");
    gives(&rt, &mut files, "a", 3, b"abc");
    drop(files);
}

// The file "nine" is written with 9000 bytes, and read within a limit.
fn check_limits(rt: &impl Abort, files: &mut impl Files, content: &[u8]) {
    sets(rt, files, "nine", content, Ok(()));
    gives(rt, files, "nine", 9000, content);
    gives_no(rt, files, "nine", 8999, FileError::TooLong);
    gives_no(rt, files, "nine", 0, FileError::TooLong);
}

// The same, with bytes that are made for it.
fn check_content(rt: &impl Abort, alloc: Global, files: &mut impl Files) {
    let content = vec![in alloc; 7u8; 9000].expect(rt, "memory");
    check_limits(rt, files, &content);
    drop(content);
}

// It is written anew with nothing.
fn check_emptied(rt: &impl Abort, files: &mut impl Files) {
    sets(rt, files, "nine", b"", Ok(()));
    gives(rt, files, "nine", 0, b"");
}

// Files of a folder that is empty at first.
fn check_folder(rt: &impl Abort, alloc: Global, files: &mut impl Files) {
    gives_no(rt, files, "none", 9, FileError::Fault);
    check_content(rt, alloc, files);
    let nowhere = Err(FileError::Fault);
    sets(rt, files, "no/such/folder", b"x", nowhere);
    check_emptied(rt, files);
}

#[test]
fn files_are_read_within_their_limit(rt: HostRuntime) {
    let mut files = StdFiles::new(&rt, rt.alloc());
    check_folder(&rt, rt.alloc(), &mut files);
}
