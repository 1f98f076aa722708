use crate::checks::same_at;
use crate::table::{check_added, empty_table, end_process};
use proc_table::{Collected, Table};
use std::process::Abort;

fn end_processes(table: &mut Table, rows: &[(u32, u8)]) {
    for &(pid, status) in rows {
        end_process(table, pid, status);
    }
}

// What waits of these parents would come to, which collect nothing.
fn check_waits(rt: &impl Abort, table: &Table, rows: &[(u32, u32, Collected)]) {
    for &(parent, which, want) in rows {
        same_at(
            rt,
            table.child_ended(parent, which),
            want,
            "parent, which",
            (parent, which),
        );
    }
}

fn check_collected(rt: &impl Abort, table: &mut Table, rows: &[(u32, u32, Collected)]) {
    for &(parent, which, want) in rows {
        same_at(
            rt,
            table.collect(parent, which),
            want,
            "parent, which",
            (parent, which),
        );
    }
}

#[test]
fn a_wait_finds_the_lowest_child_that_has_ended(rt: HostRuntime) {
    let mut table = empty_table(rt.alloc()).expect(&rt, "memory");
    check_added(&rt, &mut table, &[(0, 1), (1, 2), (1, 3), (1, 4)]);
    check_waits(
        &rt,
        &table,
        &[(2, 0, Collected::NoChild), (1, 0, Collected::Wait)],
    );
    end_processes(&mut table, &[(4, 40), (3, 30)]);
    let rows = [
        (1, 0, Collected::Got { pid: 3, status: 30 }),
        (1, 1, Collected::NoChild),
        (1, 2, Collected::Wait),
        (1, 4, Collected::Got { pid: 4, status: 40 }),
    ];
    check_waits(&rt, &table, &rows);
    drop(table);
}

#[test]
fn a_child_is_collected_once(rt: HostRuntime) {
    let mut table = empty_table(rt.alloc()).expect(&rt, "memory");
    check_added(&rt, &mut table, &[(0, 1), (1, 2), (1, 3)]);
    end_processes(&mut table, &[(2, 20), (3, 30)]);
    let rows = [
        (1, 3, Collected::Got { pid: 3, status: 30 }),
        (1, 3, Collected::NoChild),
        (1, 0, Collected::Got { pid: 2, status: 20 }),
        (1, 0, Collected::NoChild),
    ];
    check_collected(&rt, &mut table, &rows);
    drop(table);
}

#[test]
fn children_of_several_parents_end_out_of_order(rt: HostRuntime) {
    let mut table = empty_table(rt.alloc()).expect(&rt, "memory");
    let added = [(0, 1), (1, 2), (1, 3), (2, 4), (1, 5), (2, 6), (1, 7)];
    check_added(&rt, &mut table, &added);
    end_processes(&mut table, &[(5, 50), (3, 30), (6, 60)]);
    let rows = [
        (1, 5, Collected::Got { pid: 5, status: 50 }),
        (1, 5, Collected::NoChild),
        (2, 0, Collected::Got { pid: 6, status: 60 }),
        (1, 0, Collected::Got { pid: 3, status: 30 }),
        (1, 0, Collected::Wait),
        (2, 0, Collected::Wait),
        (3, 0, Collected::NoChild),
    ];
    check_collected(&rt, &mut table, &rows);
    check_added(&rt, &mut table, &[(1, 8)]);
    end_processes(&mut table, &[(8, 80), (7, 70)]);
    let rows = [
        (1, 0, Collected::Got { pid: 7, status: 70 }),
        (1, 0, Collected::Got { pid: 8, status: 80 }),
        (1, 0, Collected::Wait),
    ];
    check_collected(&rt, &mut table, &rows);
    drop(table);
}

#[test]
fn orphans_are_nobodys_children(rt: HostRuntime) {
    let mut table = empty_table(rt.alloc()).expect(&rt, "memory");
    let added = [(0, 1), (1, 2), (2, 3), (2, 4), (1, 5), (2, 6)];
    check_added(&rt, &mut table, &added);
    end_processes(&mut table, &[(4, 40), (3, 30)]);
    let of_a_parent = [(2, 4, Collected::Got { pid: 4, status: 40 })];
    check_collected(&rt, &mut table, &of_a_parent);
    end_process(&mut table, 2, 20);
    let rows = [
        (2, 0, Collected::NoChild),
        (0, 4, Collected::NoChild),
        (0, 0, Collected::Got { pid: 3, status: 30 }),
        (0, 6, Collected::Wait),
        (1, 0, Collected::Got { pid: 2, status: 20 }),
        (1, 0, Collected::Wait),
    ];
    check_collected(&rt, &mut table, &rows);
    drop(table);
}
