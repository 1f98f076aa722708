//! Each refusal of a service, and how many descriptors and pipes there are.
use crate::guests::{
    A0, A1, A7, CLOSE, DUP, FORK, FUTEX_WAIT, FUTEX_WAKE, KILL, MAP, OTHER, PIPE, READ, ROUND, S0,
    S1, SHARE, SIG_HANDLER, SIG_MASK, SIG_RETURN, STACK, Step, TEMP0, TEMP1, THREAD_EXIT,
    THREAD_NEW, UNMAP, WAIT, WRITE, ZERO,
};
use crate::runs::{Row, USUAL, check_rows};
use rv_isa::BranchOp;

/// Where no page is mapped.
const NOWHERE: u32 = 0x3_0000;

/// A page that may be read alone.
const READ_ONLY: u32 = 0x2_0000;

const PROCESSES: &[Step] = &[
    Step::Ask(WAIT, 0, 0, 0),
    Step::Ask(WAIT, 1, 0, 0),
    Step::Ask(KILL, 1, 32, 0),
    Step::Ask(KILL, 9, 32, 0),
    Step::Ask(KILL, 9, 0, 0),
    Step::Ask(KILL, 0, 0, 0),
    Step::Ask(KILL, 1, 0, 0),
];

const DESCRIPTORS: &[Step] = &[
    Step::Ask(READ, 1, STACK, 1),
    Step::Ask(READ, 3, 0, 0),
    Step::Ask(READ, 32, STACK, 1),
    Step::Ask(READ, 0, 0, 0),
    Step::Ask(READ, 0, 0, 1),
    Step::Ask(READ, 0, 0xefff_ffff, 2),
    Step::Ask(MAP, READ_ONLY, 1, 4),
    Step::Ask(READ, 0, READ_ONLY, 1),
    Step::Ask(WRITE, 0, STACK, 1),
    Step::Ask(WRITE, 1, 0, 0),
    Step::Ask(WRITE, 1, 0, 1),
    Step::AskBoth(PIPE, 0, 0, 0),
    Step::Ask(WRITE, 3, STACK, 1),
    Step::Ask(READ, 4, STACK, 1),
    Step::Ask(CLOSE, 3, 0, 0),
    Step::Ask(WRITE, 4, STACK, 0),
    Step::Ask(WRITE, 4, 0, 1),
    Step::Ask(WRITE, 4, STACK, 1),
    Step::Ask(CLOSE, 3, 0, 0),
    Step::Ask(CLOSE, 32, 0, 0),
    Step::Ask(DUP, 3, 0, 0),
    Step::Ask(DUP, 32, 0, 0),
];

const PAGES: &[Step] = &[
    Step::Ask(FUTEX_WAIT, 2, 0, 0),
    Step::Ask(FUTEX_WAIT, 0, 0, 0),
    Step::Ask(FUTEX_WAIT, STACK, 2, 0),
    Step::Ask(FUTEX_WAKE, 2, 1, 0),
    Step::Ask(FUTEX_WAKE, 0, 1, 0),
    Step::Ask(MAP, NOWHERE + 1, 1, 6),
    Step::Ask(MAP, NOWHERE, 0, 6),
    Step::Ask(MAP, 0, 1, 6),
    Step::Ask(MAP, 0xf000_0000, 1, 6),
    Step::Ask(MAP, NOWHERE, 0xffff_ffff, 6),
    Step::Ask(MAP, NOWHERE, 5000, 8),
    Step::Ask(MAP, READ_ONLY - 0x1000, 2, 6),
    Step::Ask(MAP, NOWHERE, 5000, 6),
    Step::Ask(UNMAP, READ_ONLY + 1, 1, 0),
    Step::Ask(UNMAP, READ_ONLY, 0, 0),
    Step::Ask(UNMAP, READ_ONLY, 2, 0),
    Step::Ask(UNMAP, 0xf000_0000, 1, 0),
    Step::Ask(SHARE, READ_ONLY + 1, 1, 0),
    Step::Ask(SHARE, READ_ONLY, 0, 0),
    Step::Ask(SHARE, READ_ONLY, 2, 0),
    Step::Ask(SHARE, 0, 1, 0),
    Step::Ask(SHARE, READ_ONLY, 1, 0),
    Step::Ask(UNMAP, READ_ONLY, 1, 0),
    Step::Ask(UNMAP, READ_ONLY, 1, 0),
];

const ACTIONS: &[Step] = &[
    Step::Ask(SIG_HANDLER, 0, 0, 0),
    Step::Ask(SIG_HANDLER, 32, 0, 0),
    Step::Ask(SIG_HANDLER, 9, 0, 0),
    Step::Ask(SIG_HANDLER, 10, 3, 0),
    Step::Ask(SIG_HANDLER, 10, 0xf000_0000, 0),
    Step::Ask(SIG_HANDLER, 10, 0xefff_fffc, 0),
    Step::Ask(SIG_HANDLER, 10, 1, 0),
    Step::Ask(SIG_HANDLER, 10, 0, 0),
    Step::Ask(SIG_MASK, 0xffff_ffff, 0, 0),
    Step::Ask(SIG_MASK, 0, 0, 0),
    Step::End(0),
];

/// A return without a signal leaves the thread at its call, until another one writes a nop there.
const NO_RETURN: &[Step] = &[
    Step::Ask(THREAD_NEW, OTHER, STACK + 0x2000, 0),
    Step::Put(A7, SIG_RETURN),
    Step::GoTo(RETURN),
    Step::At(RETURN),
    Step::Ecall,
    Step::Tell,
    Step::Ask(ROUND, 0, 0, 0),
    Step::End(0),
    Step::At(OTHER),
    Step::Put(TEMP0, RETURN),
    Step::Put(TEMP1, 0x13),
    Step::Store(TEMP1, TEMP0),
    Step::Call(THREAD_EXIT, 0, 0, 0),
];

const RETURN: u32 = 0x1_0400;

/// Takes each descriptor.
const TAKES_DESCRIPTORS: &[Step] = &[
    Step::Call(DUP, 1, 0, 0),
    Step::If(BranchOp::Bge, A0, ZERO, 0x1_0000),
    Step::Tell,
    Step::Ask(PIPE, 0, 0, 0),
    Step::Ask(CLOSE, 31, 0, 0),
    Step::Ask(PIPE, 0, 0, 0),
    Step::Ask(CLOSE, 30, 0, 0),
    Step::AskBoth(PIPE, 0, 0, 0),
    Step::Ask(DUP, 32, 0, 0),
    Step::Ask(DUP, 0, 0, 0),
    Step::End(0),
];

const TAKES: u32 = 0x1_0000;

const REFUSED: u32 = 0x1_0100;

const LAST: u32 = 0x1_0400;

const CHILD: u32 = 0x1_0800;

const CLOSES: u32 = 0x1_0900;

/// Takes as many pipes as there are, keeping one end of each: 28 in the process, 28 in its child,
/// which closes what it was given, and 8 in the child's. Each tells the refusal, and then the
/// lowest descriptor that is free.
const TAKES_PIPES: &[Step] = &[
    Step::At(TAKES),
    Step::Call(PIPE, 0, 0, 0),
    Step::If(BranchOp::Blt, A0, ZERO, REFUSED),
    Step::Add(A0, A1, 0),
    Step::Put(A7, CLOSE),
    Step::Ecall,
    Step::GoTo(TAKES),
    Step::At(REFUSED),
    Step::Tell,
    Step::Call(DUP, 0, 0, 0),
    Step::Add(S0, A0, -31),
    Step::Tell,
    Step::If(BranchOp::Bne, S0, ZERO, LAST),
    Step::Call(FORK, 0, 0, 0),
    Step::If(BranchOp::Beq, A0, ZERO, CHILD),
    Step::AskBoth(WAIT, 0, 0, 0),
    Step::End(0),
    Step::At(LAST),
    Step::End(3),
    Step::At(CHILD),
    Step::Put(S1, 3),
    Step::GoTo(CLOSES),
    Step::At(CLOSES),
    Step::Add(A0, S1, 0),
    Step::Put(A7, CLOSE),
    Step::Ecall,
    Step::Add(S1, S1, 1),
    Step::If(BranchOp::Beq, A0, ZERO, CLOSES),
    Step::GoTo(TAKES),
];

const ROWS: [Row; 4] = [
    Row {
        quantum: 65536,
        guest: &[PROCESSES, DESCRIPTORS, PAGES, ACTIONS],
        told: &[
            // of processes
            -10,
            -10,
            -22,
            -22,
            -3,
            -3,
            0, // of descriptors
            -9,
            -9,
            -9,
            0,
            -14,
            -14,
            0,
            -14,
            -9,
            0,
            -14,
            3,
            4,
            -9,
            -9,
            0,
            0,
            -14,
            -32,
            -9,
            -9,
            -9,
            -9, // of pages
            -22,
            -14,
            -11,
            -22,
            -14,
            -22,
            -22,
            -22,
            -22,
            -22,
            -22,
            -22,
            -12,
            -22,
            -22,
            -22,
            -22,
            -22,
            -22,
            -22,
            -22,
            0,
            0,
            -22, // of actions
            -22,
            -22,
            -22,
            -22,
            -22,
            0,
            -0x1000_0004,
            1,
            0,
            -514,
        ],
        report: "process 1 status 0\nrounds 1 done\n",
        ..USUAL
    },
    Row {
        guest: &[NO_RETURN],
        told: &[2, -22, 3],
        report: "process 1 status 0\nrounds 3 done\n",
        ..USUAL
    },
    Row {
        guest: &[TAKES_DESCRIPTORS],
        told: &[-24, -24, 0, -24, 0, 30, 31, -9, -24],
        report: "process 1 status 0\nrounds 1 done\n",
        ..USUAL
    },
    Row {
        guest: &[TAKES_PIPES],
        told: &[-24, 31, -24, 31, -24, 11, 3, 3, 2, 0],
        report: "process 1 status 0\nprocess 2 status 0\nprocess 3 status 3\nrounds 5 done\n",
        ..USUAL
    },
];

#[test]
fn services_refuse(rt: HostRuntime) {
    check_rows(&rt, rt.alloc(), &ROWS);
}
