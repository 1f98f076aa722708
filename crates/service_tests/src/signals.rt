//! What a signal does to a thread that runs, that waits and that sleeps.
use crate::guests::{
    A0, FORK, FUTEX, FUTEX_WAIT, KILL, OTHER, PIPE, READ, ROUND, SIG_HANDLER, SIG_MASK, SIG_RETURN,
    STACK, Step, WAIT, YIELD, ZERO,
};
use crate::runs::{IN_2, IN_2_TO_6, Posts, Row, USUAL, check_rows};
use dos_world::Ending;
use rv_isa::BranchOp;

// What becomes of signal 10.

const IGNORES: &[Step] = &[Step::Call(SIG_HANDLER, 10, 1, 0)];

const HANDLES: &[Step] = &[Step::Call(SIG_HANDLER, 10, OTHER, 0)];

const MASKS: &[Step] = &[
    Step::Call(SIG_HANDLER, 10, OTHER, 0),
    Step::Call(SIG_MASK, 0xffff_ffff, 0, 0),
];

// What the thread does as it comes.

const RUNS: &[Step] = &[
    Step::Call(YIELD, 0, 0, 0),
    Step::Call(YIELD, 0, 0, 0),
    Step::Call(YIELD, 0, 0, 0),
    Step::Ask(ROUND, 0, 0, 0),
    Step::End(0),
];

const WAITS: &[Step] = &[
    Step::Call(PIPE, 0, 0, 0),
    Step::Ask(READ, 3, STACK, 1),
    Step::Ask(ROUND, 0, 0, 0),
    Step::End(0),
];

const SLEEPS: &[Step] = &[
    Step::Ask(FUTEX_WAIT, FUTEX, 0, 0),
    Step::Ask(ROUND, 0, 0, 0),
    Step::End(0),
];

// Handlers, which tell the round. The last three let the signal in again.

const RETURNS: &[Step] = &[
    Step::At(OTHER),
    Step::Ask(ROUND, 0, 0, 0),
    Step::Call(SIG_RETURN, 0, 0, 0),
];

const YIELDS_AND_RETURNS: &[Step] = &[
    Step::At(OTHER),
    Step::Ask(ROUND, 0, 0, 0),
    Step::Call(SIG_MASK, 0, 0, 0),
    Step::Call(YIELD, 0, 0, 0),
    Step::Call(SIG_RETURN, 0, 0, 0),
];

const WAITS_AGAIN: &[Step] = &[
    Step::At(OTHER),
    Step::Ask(ROUND, 0, 0, 0),
    Step::Call(SIG_MASK, 0, 0, 0),
    Step::Call(READ, 3, STACK, 1),
];

const SLEEPS_AGAIN: &[Step] = &[
    Step::At(OTHER),
    Step::Ask(ROUND, 0, 0, 0),
    Step::Call(SIG_MASK, 0, 0, 0),
    Step::Call(FUTEX_WAIT, FUTEX, 0, 0),
];

const NINE: Posts = Posts { signal: 9, ..IN_2 };

const RUNNING: [Row; 6] = [
    Row {
        posts: IN_2,
        guest: &[RUNS],
        report: "process 1 status 138\nrounds 1 done\n",
        ..USUAL
    },
    Row {
        posts: IN_2,
        guest: &[IGNORES, RUNS],
        told: &[4],
        report: "process 1 status 0\nrounds 4 done\n",
        ..USUAL
    },
    Row {
        posts: IN_2,
        guest: &[HANDLES, RUNS, RETURNS],
        told: &[2, 4],
        report: "process 1 status 0\nrounds 4 done\n",
        ..USUAL
    },
    Row {
        posts: IN_2,
        guest: &[MASKS, RUNS, RETURNS],
        told: &[4],
        report: "process 1 status 0\nrounds 4 done\n",
        ..USUAL
    },
    Row {
        posts: NINE,
        guest: &[MASKS, RUNS],
        report: "process 1 status 137\nrounds 1 done\n",
        ..USUAL
    },
    // the fifth stays pending in round 6, in which all four return
    Row {
        posts: IN_2_TO_6,
        guest: &[HANDLES, RUNS, YIELDS_AND_RETURNS],
        told: &[2, 3, 4, 5, 7, 9],
        report: "process 1 status 0\nrounds 9 done\n",
        ..USUAL
    },
];

/// Rows of a thread that blocks in round 1, by steps that tell what it was answered and the round,
/// and whose last handler blocks again.
macro_rules! blocked {
    ($blocks:expr, $again:expr) => {
        [
            Row {
                posts: IN_2,
                guest: &[$blocks],
                report: "process 1 status 138\nrounds 1 done\n",
                ..USUAL
            },
            Row {
                posts: IN_2,
                guest: &[IGNORES, $blocks],
                ending: Ending::Stalled,
                report: "process 1 live\nrounds 1 stalled\n",
                ..USUAL
            },
            Row {
                posts: IN_2,
                guest: &[HANDLES, $blocks, RETURNS],
                told: &[2, -4, 2],
                report: "process 1 status 0\nrounds 2 done\n",
                ..USUAL
            },
            Row {
                posts: IN_2,
                guest: &[MASKS, $blocks, RETURNS],
                ending: Ending::Stalled,
                report: "process 1 live\nrounds 1 stalled\n",
                ..USUAL
            },
            Row {
                posts: NINE,
                guest: &[MASKS, $blocks],
                report: "process 1 status 137\nrounds 1 done\n",
                ..USUAL
            },
            Row {
                posts: IN_2_TO_6,
                guest: &[HANDLES, $blocks, $again],
                told: &[2, 3, 4, 5],
                ending: Ending::Stalled,
                report: "process 1 live\nrounds 5 stalled\n",
                ..USUAL
            },
        ]
    };
}

const WAITING: [Row; 6] = blocked!(WAITS, WAITS_AGAIN);

const SLEEPING: [Row; 6] = blocked!(SLEEPS, SLEEPS_AGAIN);

/// Its child ends in round 2, and is collected in round 4.
const COLLECTS_LATE: &[Step] = &[
    Step::Call(FORK, 0, 0, 0),
    Step::If(BranchOp::Beq, A0, ZERO, OTHER),
    Step::Call(YIELD, 0, 0, 0),
    Step::Call(YIELD, 0, 0, 0),
    Step::Call(YIELD, 0, 0, 0),
    Step::AskBoth(WAIT, 0, 0, 0),
    Step::End(0),
    Step::At(OTHER),
    Step::End(5),
];

const CHILD: u32 = 0x1_0c00;

/// Its wait for the child is ended by the child's own end, of which a handler tells.
const IS_TOLD_OF_ITS_CHILD: &[Step] = &[
    Step::Call(SIG_HANDLER, 17, OTHER, 0),
    Step::Call(FORK, 0, 0, 0),
    Step::If(BranchOp::Beq, A0, ZERO, CHILD),
    Step::Ask(WAIT, 0, 0, 0),
    Step::AskBoth(WAIT, 0, 0, 0),
    Step::End(0),
];

const ENDS_WITH_5: &[Step] = &[Step::At(CHILD), Step::End(5)];

/// A signal to itself comes in the next round.
const SIGNALS_ITSELF: &[Step] = &[
    Step::Ask(KILL, 1, 10, 0),
    Step::Call(YIELD, 0, 0, 0),
    Step::Ask(ROUND, 0, 0, 0),
    Step::End(0),
];

const SENT: [Row; 3] = [
    // a post to a process that has ended is passed over
    Row {
        posts: Posts {
            rounds: [3, 4, 0, 0, 0],
            pid: 2,
            signal: 9,
        },
        guest: &[COLLECTS_LATE],
        told: &[2, 5],
        report: "process 1 status 0\nprocess 2 status 5\nrounds 4 done\n",
        ..USUAL
    },
    Row {
        guest: &[IS_TOLD_OF_ITS_CHILD, RETURNS, ENDS_WITH_5],
        told: &[3, -4, 2, 5],
        report: "process 1 status 0\nprocess 2 status 5\nrounds 3 done\n",
        ..USUAL
    },
    Row {
        guest: &[HANDLES, SIGNALS_ITSELF, RETURNS],
        told: &[0, 2, 2],
        report: "process 1 status 0\nrounds 2 done\n",
        ..USUAL
    },
];

#[test]
fn signals_come_to_a_thread_that_runs(rt: HostRuntime) {
    check_rows(&rt, rt.alloc(), &RUNNING);
}

#[test]
fn signals_come_to_a_thread_that_waits(rt: HostRuntime) {
    check_rows(&rt, rt.alloc(), &WAITING);
}

#[test]
fn signals_come_to_a_thread_that_sleeps(rt: HostRuntime) {
    check_rows(&rt, rt.alloc(), &SLEEPING);
}

#[test]
fn processes_are_signalled_by_their_own(rt: HostRuntime) {
    check_rows(&rt, rt.alloc(), &SENT);
}
