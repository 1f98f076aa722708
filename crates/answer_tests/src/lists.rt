//! Threads, parts of texts, and lines for a person.
ghost use Rattle.kernel_calls.specs.StateWorld.{IsSound};

use crate::checks::{same_lines, same_text};
use crate::group::opened;
use debug_answers::{
    description_text, end_lines, pipe_lines, process_lines, put_current, put_part, put_stopped,
    put_thread_list, put_threads, sleeper_lines, thread_lines,
};
use gdb_packets::packets::Stretch;
use kernel_calls::State;
use std::alloc::{AllocError, Global};
use std::process::Abort;

fn check_threads(rt: &impl Abort, alloc: Global, pairs: &[(u32, u32)], wanted: &str) {
    let mut out = Vec::new(alloc);
    put_threads(&mut out, pairs).expect(rt, "memory");
    same_text(rt, out.as_slice(), wanted);
}

#[test]
fn threads_are_told_by_their_ids(rt: HostRuntime) {
    check_threads(&rt, rt.alloc(), &[], "l");
    check_threads(&rt, rt.alloc(), &[(1, 1)], "mp1.1");
    check_threads(&rt, rt.alloc(), &[(1, 1), (2, 2)], "mp1.1,p2.2");
    check_threads(&rt, rt.alloc(), &[(1, 10), (26, 255)], "mp1.a,p1a.ff");
}

fn check_current(rt: &impl Abort, alloc: Global) {
    let mut out = Vec::new(alloc);
    put_current(&mut out, (1, 1)).expect(rt, "memory");
    put_stopped(&mut out, (2, 16)).expect(rt, "memory");
    same_text(rt, out.as_slice(), "QCp1.1T05thread:p2.10;");
}

#[test]
fn the_current_thread_is_told(rt: HostRuntime) {
    check_current(&rt, rt.alloc());
}

fn check_part(rt: &impl Abort, alloc: Global, text: &str, part: Stretch, wanted: &str) {
    let mut out = Vec::new(alloc);
    put_part(&mut out, text.as_bytes(), part).expect(rt, "memory");
    same_text(rt, out.as_slice(), wanted);
}

#[test]
fn a_part_of_a_text_is_told(rt: HostRuntime) {
    let all = Stretch {
        from: 0,
        length: 0x100,
    };
    let first = Stretch { from: 0, length: 3 };
    let last = Stretch { from: 3, length: 3 };
    let none = Stretch { from: 7, length: 3 };
    check_part(&rt, rt.alloc(), "/bin/a", all, "l/bin/a");
    check_part(&rt, rt.alloc(), "/bin/a", first, "m/bi");
    check_part(&rt, rt.alloc(), "/bin/a", last, "ln/a");
    check_part(&rt, rt.alloc(), "/bin/a", none, "l");
    check_part(&rt, rt.alloc(), "1}2", all, "l1}]2");
}

#[test]
fn registers_are_described(rt: HostRuntime) {
    let start = Stretch {
        from: 0,
        length: 0x20,
    };
    let end = Stretch {
        from: 0x40d,
        length: 0x100,
    };
    check_part(
        &rt,
        rt.alloc(),
        description_text(),
        start,
        "m<target><architecture>riscv:rv32",
    );
    check_part(
        &rt,
        rt.alloc(),
        description_text(),
        end,
        "lreg name=\"pc\" bitsize=\"32\"/></feature></target>",
    );
}

fn check_list(rt: &impl Abort, alloc: Global, state: &State, pairs: &[(u32, u32)], wanted: &str) {
    let mut out = Vec::new(alloc);
    put_thread_list(&mut out, state, pairs).expect(rt, "memory");
    same_text(rt, out.as_slice(), wanted);
}

fn set_budget(state: &mut State) {
    if state.table.is_thread(1) {
        state.table.set_budget(1, 998);
    }
}

#[test]
fn threads_are_told_with_what_they_are_about(rt: HostRuntime) {
    let mut state = opened(&rt, rt.alloc());
    set_budget(&mut state);
    check_list(
        &rt,
        rt.alloc(),
        &state,
        &[(1, 1), (2, 2)],
        "<threads><thread id=\"p1.1\">ready, 998 left</thread>\
        <thread id=\"p2.2\">not born yet</thread></threads>",
    );
    drop(state);
}

fn names_of(alloc: Global, name: &str) -> Result<Vec<Vec<u8>>, AllocError> {
    let mut names = Vec::new(alloc);
    names.push(Vec::from_slice(alloc, name.as_bytes())?)?;
    Ok(names)
}

#[test]
fn processes_are_told_with_their_images(rt: HostRuntime) {
    let state = opened(&rt, rt.alloc());
    let names = names_of(rt.alloc(), "bin/a").expect(&rt, "memory");
    let lines = process_lines(rt.alloc(), &state, &names, &[1]).expect(&rt, "memory");
    same_lines(&rt, &lines, &["process 1 live, parent 0, image bin/a\n"]);
    let others = process_lines(rt.alloc(), &state, &names, &[2]).expect(&rt, "memory");
    same_lines(&rt, &others, &["process 1 live, parent 0, image \n"]);
    drop(state);
}

#[test]
fn lines_are_told(rt: HostRuntime) {
    let state = opened(&rt, rt.alloc());
    let threads = thread_lines(rt.alloc(), &state).expect(&rt, "memory");
    same_lines(&rt, &threads, &["thread 1 of process 1: ready, 0 left\n"]);
    let ends = end_lines(rt.alloc(), &state, 1).expect(&rt, "memory");
    let open = [
        "descriptor 0: input\n",
        "descriptor 1: output\n",
        "descriptor 2: error\n",
    ];
    same_lines(&rt, &ends, &open);
    let none = end_lines(rt.alloc(), &state, 2).expect(&rt, "memory");
    same_lines(&rt, &none, &["no process\n"]);
    let pipes = pipe_lines(rt.alloc(), &state).expect(&rt, "memory");
    same_lines(&rt, &pipes, &["no pipe is open\n"]);
    let sleepers = sleeper_lines(rt.alloc(), &state).expect(&rt, "memory");
    same_lines(&rt, &sleepers, &["nobody sleeps\n"]);
    drop(state);
}
