//! A fork of a space of many pages.
use crate::guests::{A0, FORK, MAP, Step, TEMP0, TEMP1, TEMP2, WAIT, ZERO};
use crate::runs::{Row, USUAL, check_rows};
use rv_isa::BranchOp;

/// Where the pages begin, 1000 of them, and where they end.
const FIRST: u32 = 0x10_0000;

const PAST: u32 = FIRST + 1000 * 4096;

const FILLS: u32 = 0x1_0100;

const SPOILS: u32 = 0x1_0200;

const CHILD: u32 = 0x1_0400;

const COMPARES: u32 = 0x1_0500;

const DIFFERS: u32 = 0x1_0600;

/// Each word becomes its own address. The child compares all of them, while its parent writes zeros
/// into each of its pages.
const COPIES: &[Step] = &[
    Step::Ask(MAP, FIRST, 1000, 6),
    Step::Put(TEMP0, FIRST),
    Step::Put(TEMP1, PAST),
    Step::GoTo(FILLS),
    Step::At(FILLS),
    Step::Store(TEMP0, TEMP0),
    Step::Add(TEMP0, TEMP0, 4),
    Step::If(BranchOp::Bltu, TEMP0, TEMP1, FILLS),
    Step::Call(FORK, 0, 0, 0),
    Step::If(BranchOp::Beq, A0, ZERO, CHILD),
    Step::Put(TEMP0, FIRST),
    Step::Put(TEMP1, PAST),
    Step::GoTo(SPOILS),
    Step::At(SPOILS),
    Step::Store(ZERO, TEMP0),
    Step::Add(TEMP0, TEMP0, 1024),
    Step::If(BranchOp::Bltu, TEMP0, TEMP1, SPOILS),
    Step::AskBoth(WAIT, 0, 0, 0),
    Step::End(0),
    Step::At(CHILD),
    Step::Put(TEMP0, FIRST),
    Step::Put(TEMP1, PAST),
    Step::GoTo(COMPARES),
    Step::At(COMPARES),
    Step::Load(TEMP2, TEMP0),
    Step::If(BranchOp::Bne, TEMP0, TEMP2, DIFFERS),
    Step::Add(TEMP0, TEMP0, 4),
    Step::If(BranchOp::Bltu, TEMP0, TEMP1, COMPARES),
    Step::End(0),
    Step::At(DIFFERS),
    Step::End(1),
];

const ROWS: [Row; 1] = [Row {
    quantum: 65536,
    guest: &[COPIES],
    told: &[0, 2, 0],
    report: "process 1 status 0\nprocess 2 status 0\nrounds 111 done\n",
    ..USUAL
}];

#[test]
fn a_fork_copies_each_byte(rt: HostRuntime) {
    check_rows(&rt, rt.alloc(), &ROWS);
}
