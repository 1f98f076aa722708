//! Code that is stored while it runs: what was stored is what runs next.
use crate::guests::{
    A0, FORK, MAP, OTHER, S0, S1, SHARE, STACK, Step, TEMP0, TEMP1, TEMP2, THREAD_EXIT, THREAD_NEW,
    WAIT, YIELD, ZERO,
};
use crate::runs::{Row, USUAL, check_rows};
use rv_isa::BranchOp;

/// addi a0, zero, 1
const ONE: u32 = 0x0010_0513;

/// addi a0, zero, 2
const TWO: u32 = 0x0020_0513;

/// addi a0, zero, 6
const SIX: u32 = 0x0060_0513;

/// From one such word to the next.
const NEXT: u32 = 0x0010_0000;

/// add t0, t0, t2
const TO_NEXT: u32 = 0x0072_82b3;

/// jalr ra, 0(t1)
const GO_THERE: u32 = 0x0003_00e7;

/// jalr zero, 0(ra)
const BACK: u32 = 0x0000_8067;

/// slli s1, s1, 4, and add s1, s1, a0: one digit more
const DIGIT: [u32; 2] = [0x0044_9493, 0x00a4_84b3];

/// addi s1, s1, 5, and addi s1, s1, 7
const FIVE_MORE: u32 = 0x0054_8493;

const SEVEN_MORE: u32 = 0x0074_8493;

const LOOP: u32 = 0x1_0100;

const CHILD: u32 = 0x1_0400;

// The code's second page: the place of LOOP in it, and one behind.
const FAR: u32 = 0x1_1100;

const FAR_END: u32 = 0x1_1400;

/// A page that may be written and executed.
const PAGE: u32 = 0x10_0000;

const PLACE: u32 = PAGE + 0x100;

/// Each turn stores the word behind the store anew, and runs it at once.
const WITHIN_A_PAGE: &[Step] = &[
    Step::Put(TEMP0, ONE),
    Step::Put(TEMP1, LOOP + 4),
    Step::Put(TEMP2, NEXT),
    Step::Put(S0, SIX),
    Step::GoTo(LOOP),
    Step::At(LOOP),
    Step::Store(TEMP0, TEMP1),
    Step::Words(&[0]),
    Step::Words(&DIGIT),
    Step::Words(&[TO_NEXT]),
    Step::If(BranchOp::Bne, TEMP0, S0, LOOP),
    Step::Add(A0, S1, 0),
    Step::Tell,
    Step::End(0),
];

/// The word stands on another page, and is called there.
const ACROSS_PAGES: &[Step] = &[
    Step::Ask(MAP, PAGE, 1, 7),
    Step::Put(TEMP0, BACK),
    Step::Put(TEMP1, PLACE + 4),
    Step::Store(TEMP0, TEMP1),
    Step::Put(TEMP0, ONE),
    Step::Put(TEMP1, PLACE),
    Step::Put(TEMP2, NEXT),
    Step::Put(S0, SIX),
    Step::GoTo(LOOP),
    Step::At(LOOP),
    Step::Store(TEMP0, TEMP1),
    Step::Words(&[GO_THERE]),
    Step::Words(&DIGIT),
    Step::Words(&[TO_NEXT]),
    Step::If(BranchOp::Bne, TEMP0, S0, LOOP),
    Step::Add(A0, S1, 0),
    Step::Tell,
    Step::End(0),
];

/// Words at one offset of two pages run in turn, and a store changes the first of them alone.
const AT_ONE_OFFSET: &[Step] = &[
    Step::Put(TEMP0, SEVEN_MORE),
    Step::Put(TEMP1, LOOP),
    Step::GoTo(LOOP),
    Step::At(LOOP),
    Step::Words(&[FIVE_MORE]),
    Step::GoTo(FAR),
    Step::At(FAR),
    Step::Words(&[FIVE_MORE]),
    Step::If(BranchOp::Bne, S0, ZERO, FAR_END),
    Step::Add(S0, ZERO, 1),
    Step::Store(TEMP0, TEMP1),
    Step::GoTo(LOOP),
    Step::At(FAR_END),
    Step::Add(A0, S1, 0),
    Step::Tell,
    Step::End(0),
];

/// Thread 2 runs a word over and over, until thread 1 has stored another there in round 3.
const BY_ANOTHER_THREAD: &[Step] = &[
    Step::Ask(THREAD_NEW, OTHER, STACK + 0x2000, 0),
    Step::Put(TEMP0, TWO),
    Step::Put(TEMP1, OTHER + 8),
    Step::Call(YIELD, 0, 0, 0),
    Step::Call(YIELD, 0, 0, 0),
    Step::Store(TEMP0, TEMP1),
    Step::Call(THREAD_EXIT, 0, 0, 0),
    Step::At(OTHER),
    Step::Put(S0, 1),
    Step::Words(&[ONE]),
    Step::If(BranchOp::Beq, A0, S0, OTHER + 8),
    Step::Tell,
    Step::End(0),
];

/// The child calls a word on a page that it shares with its parent, until the parent has stored
/// another there in round 3.
const BY_ANOTHER_PROCESS: &[Step] = &[
    Step::Ask(MAP, PAGE, 1, 7),
    Step::Put(TEMP0, BACK),
    Step::Put(TEMP1, PLACE + 4),
    Step::Store(TEMP0, TEMP1),
    Step::Put(TEMP0, ONE),
    Step::Put(TEMP1, PLACE),
    Step::Store(TEMP0, TEMP1),
    Step::Ask(SHARE, PAGE, 1, 0),
    Step::Put(TEMP0, TWO),
    Step::Call(FORK, 0, 0, 0),
    Step::If(BranchOp::Beq, A0, ZERO, CHILD),
    Step::Call(YIELD, 0, 0, 0),
    Step::Call(YIELD, 0, 0, 0),
    Step::Store(TEMP0, TEMP1),
    Step::AskBoth(WAIT, 0, 0, 0),
    Step::End(0),
    Step::At(CHILD),
    Step::Put(S0, 1),
    Step::Words(&[GO_THERE]),
    Step::If(BranchOp::Beq, A0, S0, CHILD + 8),
    Step::Tell,
    Step::End(0),
];

const ROWS: [Row; 5] = [
    Row {
        guest: &[WITHIN_A_PAGE],
        told: &[0x12345],
        report: "process 1 status 0\nrounds 1 done\n",
        ..USUAL
    },
    Row {
        guest: &[ACROSS_PAGES],
        told: &[0, 0x12345],
        report: "process 1 status 0\nrounds 1 done\n",
        ..USUAL
    },
    Row {
        guest: &[AT_ONE_OFFSET],
        told: &[22],
        report: "process 1 status 0\nrounds 1 done\n",
        ..USUAL
    },
    Row {
        guest: &[BY_ANOTHER_THREAD],
        told: &[2, 2],
        report: "process 1 status 0\nrounds 4 done\n",
        ..USUAL
    },
    Row {
        guest: &[BY_ANOTHER_PROCESS],
        told: &[0, 0, 2, 2, 0],
        report: "process 1 status 0\nprocess 2 status 0\nrounds 5 done\n",
        ..USUAL
    },
];

#[test]
fn what_was_stored_runs_next(rt: HostRuntime) {
    check_rows(&rt, rt.alloc(), &ROWS);
}
