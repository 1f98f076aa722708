// What the table does where a number names no live process or thread is no part of its contract:
// the helpers ask first. They say nothing of what they did, and they compare, so that the proof of
// a test is short.
use crate::checks::{same, same_at};
use dos_world::{End, Regs, ThreadState};
use proc_table::{SignalState, Table};
use std::alloc::{AllocError, Global};
use std::process::Abort;

pub(crate) fn empty_table(alloc: Global) -> Result<Table, AllocError> {
    Table::reserve(alloc, 16)
}

// A process with this parent, 0 where it has none, and one thread: both numbers.
pub(crate) fn add_process(table: &mut Table, parent: u32) -> Option<Result<(u32, u32), u8>> {
    if parent != 0 && !table.is_live(parent) {
        return None;
    }
    Some(table.add_process(parent, Regs::new(0x1_0000), SignalState::new(u32::MAX)))
}

fn add_thread(table: &mut Table, pid: u32, mask: u32) -> Option<Result<u32, u8>> {
    if !table.is_live(pid) {
        return None;
    }
    Some(table.add_thread(pid, Regs::new(0x1_0000), mask))
}

fn end_thread(table: &mut Table, tid: u32) {
    if table.is_thread(tid) {
        table.end_thread(tid);
    }
}

pub(crate) fn end_process(table: &mut Table, pid: u32, status: u8) {
    if table.is_live(pid) {
        table.end_process(pid, status);
    }
}

fn check_new_process(
    rt: &impl Abort,
    table: &mut Table,
    parent: u32,
    wanted: Result<(u32, u32), u8>,
) {
    same_at(
        rt,
        add_process(table, parent),
        Some(wanted),
        "parent",
        parent,
    );
}

fn check_new_thread(
    rt: &impl Abort,
    table: &mut Table,
    pid: u32,
    mask: u32,
    wanted: Result<u32, u8>,
) {
    same_at(
        rt,
        add_thread(table, pid, mask),
        Some(wanted),
        "process",
        pid,
    );
}

// Adds a process with each of these parents, whose number and whose thread's are the same.
pub(crate) fn check_added(rt: &impl Abort, table: &mut Table, rows: &[(u32, u32)]) {
    for &(parent, number) in rows {
        check_new_process(rt, table, parent, Ok((number, number)));
    }
}

// How many numbers of processes were given, and how many processes and threads live.
fn check_counts(rt: &impl Abort, table: &Table, wanted: (u32, u32, u32)) {
    let counts = (
        table.processes(),
        table.live_processes(),
        table.live_threads(),
    );
    same(rt, counts, wanted);
}

// Whether each of these threads lives.
fn check_live(rt: &impl Abort, table: &Table, rows: &[(u32, bool)]) {
    for &(tid, want) in rows {
        same_at(rt, table.is_thread(tid), want, "thread", tid);
    }
}

// This process doesn't live.
fn check_not_live(rt: &impl Abort, table: &Table, pid: u32) {
    assert!(rt; !table.is_live(pid));
}

// How many threads of a process live, and the lowest of them.
fn check_threads_of(rt: &impl Abort, table: &Table, pid: u32, wanted: (u32, Option<u32>)) {
    same_at(
        rt,
        (table.threads_of(pid), table.first_thread(pid)),
        wanted,
        "process",
        pid,
    );
}

#[test]
fn numbers_are_given_from_1_and_not_again(rt: HostRuntime) {
    let mut table = empty_table(rt.alloc()).expect(&rt, "memory");
    check_counts(&rt, &table, (0, 0, 0));
    check_not_live(&rt, &table, 0);
    check_new_process(&rt, &mut table, 0, Ok((1, 1)));
    check_new_thread(&rt, &mut table, 1, 0, Ok(2));
    end_thread(&mut table, 2);
    check_new_thread(&rt, &mut table, 1, 0, Ok(3));
    check_new_process(&rt, &mut table, 1, Ok((2, 4)));
    end_process(&mut table, 2, 7);
    check_new_process(&rt, &mut table, 0, Ok((3, 5)));
    check_counts(&rt, &table, (3, 2, 3));
    let rows = [(1, true), (2, false), (3, true), (4, false), (5, true)];
    check_live(&rt, &table, &rows);
    drop(table);
}

#[test]
fn at_most_64_threads_live(rt: HostRuntime) {
    let mut table = empty_table(rt.alloc()).expect(&rt, "memory");
    check_new_process(&rt, &mut table, 0, Ok((1, 1)));
    for number in 2..65 {
        check_new_thread(&rt, &mut table, 1, 0, Ok(number));
    }
    check_new_thread(&rt, &mut table, 1, 0, Err(11));
    check_new_process(&rt, &mut table, 0, Err(11));
    end_thread(&mut table, 10);
    check_new_thread(&rt, &mut table, 1, 0, Ok(65));
    check_threads_of(&rt, &table, 1, (64, Some(1)));
    drop(table);
}

#[test]
fn at_most_32_processes_live(rt: HostRuntime) {
    let mut table = empty_table(rt.alloc()).expect(&rt, "memory");
    for number in 1..33 {
        check_new_process(&rt, &mut table, 0, Ok((number, number)));
    }
    check_new_process(&rt, &mut table, 0, Err(11));
    end_process(&mut table, 7, 0);
    check_counts(&rt, &table, (32, 31, 31));
    check_new_process(&rt, &mut table, 0, Ok((33, 33)));
    check_new_process(&rt, &mut table, 0, Err(11));
    drop(table);
}

// The parent and the status of a process whose number was given.
fn parent_and_status(table: &Table, pid: u32) -> Option<(u32, Option<u8>)> {
    if pid == 0 || pid > table.processes() {
        return None;
    }
    Some((table.parent(pid), table.status(pid)))
}

fn check_ended(rt: &impl Abort, table: &Table, rows: &[(u32, (u32, Option<u8>))]) {
    for &(pid, want) in rows {
        same_at(
            rt,
            parent_and_status(table, pid),
            Some(want),
            "process",
            pid,
        );
    }
}

#[test]
fn a_process_ends_with_its_threads_and_leaves_its_children(rt: HostRuntime) {
    let mut table = empty_table(rt.alloc()).expect(&rt, "memory");
    check_added(&rt, &mut table, &[(0, 1), (1, 2), (2, 3)]);
    check_new_thread(&rt, &mut table, 1, 0, Ok(4));
    check_threads_of(&rt, &table, 1, (2, Some(1)));
    end_process(&mut table, 1, 9);
    check_threads_of(&rt, &table, 1, (0, None));
    let rows = [(1, false), (2, true), (3, true), (4, false)];
    check_live(&rt, &table, &rows);
    let rows = [(1, (0, Some(9))), (2, (0, None)), (3, (2, None))];
    check_ended(&rt, &table, &rows);
    drop(table);
}

// The lowest live thread above each of these numbers.
fn check_next(rt: &impl Abort, table: &Table, rows: &[(u32, Option<u32>)]) {
    for &(after, want) in rows {
        same_at(rt, table.next_thread(after), want, "after", after);
    }
}

#[test]
fn the_next_thread_is_one_that_lives(rt: HostRuntime) {
    let mut table = empty_table(rt.alloc()).expect(&rt, "memory");
    check_next(&rt, &table, &[(0, None)]);
    check_added(&rt, &mut table, &[(0, 1), (0, 2), (0, 3), (0, 4), (0, 5)]);
    end_thread(&mut table, 2);
    end_thread(&mut table, 4);
    let rows = [
        (0, Some(1)),
        (1, Some(3)),
        (2, Some(3)),
        (3, Some(5)),
        (4, Some(5)),
        (5, None),
        (u32::MAX, None),
    ];
    check_next(&rt, &table, &rows);
    drop(table);
}

fn open(table: &mut Table, end: End) -> Option<u32> {
    if !table.is_live(1) {
        return None;
    }
    table.open_lowest(1, end)
}

fn close(table: &mut Table, number: u32) -> Option<End> {
    if !table.is_live(1) {
        return None;
    }
    table.close(1, number)
}

fn check_opened(rt: &impl Abort, table: &mut Table, end: End, wanted: Option<u32>) {
    same(rt, open(table, end), wanted);
}

fn check_closed(rt: &impl Abort, table: &mut Table, number: u32, wanted: Option<End>) {
    same_at(rt, close(table, number), wanted, "descriptor", number);
}

#[test]
fn the_lowest_of_32_descriptors_comes_first(rt: HostRuntime) {
    let mut table = empty_table(rt.alloc()).expect(&rt, "memory");
    check_new_process(&rt, &mut table, 0, Ok((1, 1)));
    for number in 0..32 {
        check_opened(&rt, &mut table, End::Output, Some(number));
    }
    check_opened(&rt, &mut table, End::Input, None);
    check_closed(&rt, &mut table, 5, Some(End::Output));
    check_closed(&rt, &mut table, 5, None);
    check_closed(&rt, &mut table, 3, Some(End::Output));
    check_opened(&rt, &mut table, End::PipeRead(5), Some(3));
    check_closed(&rt, &mut table, 3, Some(End::PipeRead(5)));
    drop(table);
}

// A thread's process, mask, state and budget.
fn thread(table: &Table, tid: u32) -> Option<(u32, u32, ThreadState, u32)> {
    if !table.is_thread(tid) {
        return None;
    }
    Some((
        table.process_of(tid),
        table.mask(tid),
        table.state(tid),
        table.budget(tid),
    ))
}

// These threads of process 1 have just begun, with these masks.
fn check_begun(rt: &impl Abort, table: &Table, rows: &[(u32, u32)]) {
    for &(tid, mask) in rows {
        same(
            rt,
            thread(table, tid),
            Some((1, mask, ThreadState::Ready, 0)),
        );
    }
}

#[test]
fn a_thread_begins_ready_with_its_mask(rt: HostRuntime) {
    let mut table = empty_table(rt.alloc()).expect(&rt, "memory");
    check_new_process(&rt, &mut table, 0, Ok((1, 1)));
    check_new_thread(&rt, &mut table, 1, 6, Ok(2));
    // 0 and 9 can't be masked
    check_begun(&rt, &table, &[(1, 0xffff_fdfe), (2, 6)]);
    drop(table);
}

// Sets a thread's run, and charges it for a call.
fn charged(table: &mut Table, tid: u32, regs: Regs, budget: u32) -> Option<(Option<u32>, u32)> {
    if budget == 0 || !table.is_thread(tid) {
        return None;
    }
    table.set_run(tid, regs, budget);
    if !table.is_thread(tid) || table.budget(tid) == 0 {
        return None;
    }
    table.charge(tid);
    if !table.is_thread(tid) {
        return None;
    }
    Some((table.regs(tid).held(), table.budget(tid)))
}

// What thread 1 holds, and its budget, when it was charged for a call with a budget of 3.
fn check_charged(rt: &impl Abort, table: &mut Table, regs: Regs, wanted: (Option<u32>, u32)) {
    same(rt, charged(table, 1, regs, 3), Some(wanted));
}

#[test]
fn a_call_costs_one_of_the_budget_and_the_reservation(rt: HostRuntime) {
    let mut table = empty_table(rt.alloc()).expect(&rt, "memory");
    check_new_process(&rt, &mut table, 0, Ok((1, 1)));
    let mut regs = Regs::new(0x1_0000);
    regs.set_held(Some(0x2_0000));
    check_charged(&rt, &mut table, regs, (None, 2));
    drop(table);
}
