// As in `table`, the helpers ask first.
use crate::checks::{same, same_at};
use crate::table::{add_process, empty_table};
use dos_world::ThreadState;
use proc_table::Table;
use std::alloc::{AllocError, Global};
use std::process::Abort;

// a table with process 1 and its thread 1, which begins at 0x10000 and masks nothing
fn one_thread(alloc: Global) -> Result<Table, AllocError> {
    let mut table = empty_table(alloc)?;
    let _ = add_process(&mut table, 0);
    set_mask(&mut table, 1, 0);
    Ok(table)
}

// Sets the thread's mask; the mask afterwards.
fn set_mask(table: &mut Table, tid: u32, mask: u32) -> Option<u32> {
    if !table.is_thread(tid) {
        return None;
    }
    table.set_mask(tid, mask);
    if !table.is_thread(tid) {
        return None;
    }
    Some(table.mask(tid))
}

fn set_state(table: &mut Table, tid: u32, state: ThreadState) {
    if table.is_thread(tid) {
        table.set_state(tid, state);
    }
}

fn wake(table: &mut Table, tid: u32, value: u32) {
    if table.is_thread(tid) {
        table.wake(tid, value);
    }
}

// Whether a thread runs, its pc, its a0 and its mask.
fn shown(table: &Table, tid: u32) -> Option<(ThreadState, u32, u32, u32)> {
    if !table.is_thread(tid) {
        return None;
    }
    let regs = table.regs(tid);
    Some((table.state(tid), regs.pc(), regs.get(10), table.mask(tid)))
}

// What thread 1 shows.
fn check_shown(rt: &impl Abort, table: &Table, wanted: (ThreadState, u32, u32, u32)) {
    same(rt, shown(table, 1), Some(wanted));
}

fn check_mask(rt: &impl Abort, table: &mut Table, mask: u32, wanted: u32) {
    same_at(rt, set_mask(table, 1, mask), Some(wanted), "mask", mask);
}

fn post(table: &mut Table, tid: u32, signal: u8) {
    if signal < 32 {
        if table.is_thread(tid) {
            table.post(tid, signal);
        }
    }
}

// None also where the thread doesn't live.
fn first_signal(table: &Table, tid: u32) -> Option<u8> {
    if !table.is_thread(tid) {
        return None;
    }
    table.first_signal(tid)
}

fn check_first(rt: &impl Abort, table: &Table, wanted: Option<u8>) {
    same(rt, first_signal(table, 1), wanted);
}

// Whether a handler began: the thread lives, and fewer than 4 are saved.
fn begin_handler(table: &mut Table, tid: u32, signal: u8, handler: u32) -> bool {
    if signal >= 32 {
        return false;
    }
    if !table.is_thread(tid) {
        return false;
    }
    if table.depth(tid) >= 4 {
        return false;
    }
    table.begin_handler(tid, signal, handler);
    true
}

fn restore(table: &mut Table, tid: u32) -> bool {
    if !table.is_thread(tid) {
        return false;
    }
    table.restore(tid)
}

// A handler of the signal begins at thread 1, or doesn't.
fn check_begun(rt: &impl Abort, table: &mut Table, signal: u8, wanted: bool) {
    same_at(
        rt,
        begin_handler(table, 1, signal, 0x2_0000),
        wanted,
        "signal",
        signal,
    );
}

fn check_restored(rt: &impl Abort, table: &mut Table, wanted: bool) {
    same(rt, restore(table, 1), wanted);
}

#[test]
fn a_thread_that_waits_is_woken_with_an_answer(rt: HostRuntime) {
    let mut table = one_thread(rt.alloc()).expect(&rt, "memory");
    set_state(&mut table, 1, ThreadState::Asleep);
    check_shown(&rt, &table, (ThreadState::Asleep, 0x1_0000, 0, 0));
    wake(&mut table, 1, 7);
    check_shown(&rt, &table, (ThreadState::Ready, 0x1_0004, 7, 0));
    drop(table);
}

#[test]
fn signals_0_and_9_are_not_masked(rt: HostRuntime) {
    let mut table = one_thread(rt.alloc()).expect(&rt, "memory");
    check_mask(&rt, &mut table, u32::MAX, 0xffff_fdfe);
    check_mask(&rt, &mut table, 0x201, 0);
    check_mask(&rt, &mut table, 6, 6);
    drop(table);
}

#[test]
fn the_lowest_unmasked_signal_comes_first_and_9_before_all(rt: HostRuntime) {
    let mut table = one_thread(rt.alloc()).expect(&rt, "memory");
    check_first(&rt, &table, None);
    post(&mut table, 1, 15);
    check_first(&rt, &table, Some(15));
    post(&mut table, 1, 2);
    check_first(&rt, &table, Some(2));
    check_mask(&rt, &mut table, 4, 4);
    check_first(&rt, &table, Some(15));
    post(&mut table, 1, 9);
    check_first(&rt, &table, Some(9));
    drop(table);
}

#[test]
fn a_handler_begins_and_what_was_saved_comes_back(rt: HostRuntime) {
    let mut table = one_thread(rt.alloc()).expect(&rt, "memory");
    post(&mut table, 1, 2);
    check_begun(&rt, &mut table, 2, true);
    check_shown(&rt, &table, (ThreadState::Ready, 0x2_0000, 2, 4));
    check_first(&rt, &table, None);
    check_restored(&rt, &mut table, true);
    check_shown(&rt, &table, (ThreadState::Ready, 0x1_0000, 0, 0));
    check_restored(&rt, &mut table, false);
    drop(table);
}

#[test]
fn at_most_4_handlers_are_begun(rt: HostRuntime) {
    let mut table = one_thread(rt.alloc()).expect(&rt, "memory");
    for signal in 1..5 {
        check_begun(&rt, &mut table, signal, true);
    }
    check_begun(&rt, &mut table, 5, false);
    check_shown(&rt, &table, (ThreadState::Ready, 0x2_0000, 4, 0x1e));
    drop(table);
}

fn action(table: &Table, signal: u8) -> Option<u32> {
    if signal == 0 || signal > 31 {
        return None;
    }
    if !table.is_live(1) {
        return None;
    }
    Some(table.action(1, signal))
}

fn set_action(table: &mut Table, signal: u8, action: u32) {
    if signal == 0 || signal > 31 {
        return;
    }
    if table.is_live(1) {
        table.set_action(1, signal, action);
    }
}

fn check_actions(rt: &impl Abort, table: &Table, rows: &[(u8, u32)]) {
    for &(signal, want) in rows {
        same_at(rt, action(table, signal), Some(want), "signal", signal);
    }
}

#[test]
fn each_signal_has_an_action_of_its_own(rt: HostRuntime) {
    let mut table = one_thread(rt.alloc()).expect(&rt, "memory");
    set_action(&mut table, 1, 0x2_0000);
    set_action(&mut table, 31, 1);
    check_actions(&rt, &table, &[(1, 0x2_0000), (2, 0), (30, 0), (31, 1)]);
    drop(table);
}
