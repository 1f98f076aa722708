//! What services see of words that two threads write in one round, in each scheme: in the buffered
//! one, all that both wrote before their services.
use crate::guests::{
    A0, FUTEX, FUTEX_WAIT, FUTEX_WAKE, OTHER, READ, ROUND, STACK, Step, TEMP0, TEMP1, THREAD_EXIT,
    THREAD_NEW, WRITE, YIELD,
};
use crate::runs::{Row, USUAL, check_rows};
use dos_world::Scheme;

/// A second thread begins with the second round.
const SECOND: &[Step] = &[
    Step::Ask(THREAD_NEW, OTHER, STACK + 0x1000, 0),
    Step::Call(YIELD, 0, 0, 0),
];

/// Where each thread has a flag of its own.
const FIRST_FLAG: u32 = FUTEX;

const SECOND_FLAG: u32 = FUTEX + 4;

/// Each thread stores 1 to its own flag and tells the other's, in that round and in the next.
const FLAGS: &[Step] = &[
    Step::Put(TEMP0, FIRST_FLAG),
    Step::Put(TEMP1, 1),
    Step::Store(TEMP1, TEMP0),
    Step::Put(TEMP0, SECOND_FLAG),
    Step::Load(A0, TEMP0),
    Step::Tell,
    Step::Call(YIELD, 0, 0, 0),
    Step::Load(A0, TEMP0),
    Step::Tell,
    Step::Call(YIELD, 0, 0, 0),
    Step::End(0),
    Step::At(OTHER),
    Step::Put(TEMP0, SECOND_FLAG),
    Step::Put(TEMP1, 1),
    Step::Store(TEMP1, TEMP0),
    Step::Put(TEMP0, FIRST_FLAG),
    Step::Load(A0, TEMP0),
    Step::Tell,
    Step::Call(YIELD, 0, 0, 0),
    Step::Load(A0, TEMP0),
    Step::Tell,
    Step::Call(THREAD_EXIT, 0, 0, 0),
];

/// Both store to one word, which each tells in the next round: the second thread's store is last.
const ONE_WORD: &[Step] = &[
    Step::Put(TEMP0, FUTEX),
    Step::Put(TEMP1, 7),
    Step::Store(TEMP1, TEMP0),
    Step::Call(YIELD, 0, 0, 0),
    Step::Load(A0, TEMP0),
    Step::Tell,
    Step::Call(YIELD, 0, 0, 0),
    Step::End(0),
    Step::At(OTHER),
    Step::Put(TEMP0, FUTEX),
    Step::Put(TEMP1, 8),
    Step::Store(TEMP1, TEMP0),
    Step::Call(YIELD, 0, 0, 0),
    Step::Load(A0, TEMP0),
    Step::Tell,
    Step::Call(THREAD_EXIT, 0, 0, 0),
];

/// The first thread sleeps where a word is 0, to which the second one stores 1 in the same round
/// before it wakes one sleeper.
const SLEEPS_BY_A_WORD: &[Step] = &[
    Step::Ask(FUTEX_WAIT, FUTEX, 0, 0),
    Step::Ask(ROUND, 0, 0, 0),
    Step::Call(YIELD, 0, 0, 0),
    Step::End(0),
    Step::At(OTHER),
    Step::Put(TEMP0, FUTEX),
    Step::Put(TEMP1, 1),
    Step::Store(TEMP1, TEMP0),
    Step::Ask(FUTEX_WAKE, FUTEX, 1, 0),
    Step::Call(THREAD_EXIT, 0, 0, 0),
];

/// The first thread writes a word to which the second one stores in the same round.
const WRITES_A_WORD: &[Step] = &[
    Step::Call(WRITE, 1, FUTEX, 4),
    Step::Call(YIELD, 0, 0, 0),
    Step::Call(WRITE, 1, FUTEX, 4),
    Step::End(0),
    Step::At(OTHER),
    Step::Put(TEMP0, FUTEX),
    Step::Put(TEMP1, 9),
    Step::Store(TEMP1, TEMP0),
    Step::Call(THREAD_EXIT, 0, 0, 0),
];

/// The first thread reads four bytes of input to a word, which the second one tells in the same
/// round and in the next.
const READS_A_WORD: &[Step] = &[
    Step::Ask(READ, 0, FUTEX, 4),
    Step::Call(YIELD, 0, 0, 0),
    Step::Call(YIELD, 0, 0, 0),
    Step::End(0),
    Step::At(OTHER),
    Step::Put(TEMP0, FUTEX),
    Step::Load(A0, TEMP0),
    Step::Tell,
    Step::Call(YIELD, 0, 0, 0),
    Step::Load(A0, TEMP0),
    Step::Tell,
    Step::Call(THREAD_EXIT, 0, 0, 0),
];

/// Where the threads write the same page, the second one runs behind the first one's services.
const OWNED: [Row; 5] = [
    Row {
        guest: &[SECOND, FLAGS],
        told: &[2, 0, 1, 1, 1],
        report: "process 1 status 0\nrounds 4 done\n",
        ..USUAL
    },
    Row {
        guest: &[SECOND, ONE_WORD],
        told: &[2, 8, 8],
        report: "process 1 status 0\nrounds 4 done\n",
        ..USUAL
    },
    Row {
        guest: &[SECOND, SLEEPS_BY_A_WORD],
        told: &[2, 1, 0, 3],
        report: "process 1 status 0\nrounds 4 done\n",
        ..USUAL
    },
    Row {
        guest: &[SECOND, WRITES_A_WORD],
        told: &[2, 0, 9],
        report: "process 1 status 0\nrounds 3 done\n",
        ..USUAL
    },
    Row {
        guest: &[SECOND, READS_A_WORD],
        told: &[2, 4, 0x3332_3130, 0x3332_3130],
        report: "process 1 status 0\nrounds 4 done\n",
        ..USUAL
    },
];

const BUFFERED: Row = Row {
    scheme: Scheme::Buffered,
    ..USUAL
};

/// Neither sees the other's words before both are put in, and a service sees them all.
const WRITTEN: [Row; 5] = [
    Row {
        guest: &[SECOND, FLAGS],
        told: &[2, 0, 0, 1, 1],
        report: "process 1 status 0\nrounds 4 done\n",
        ..BUFFERED
    },
    Row {
        guest: &[SECOND, ONE_WORD],
        told: &[2, 8, 8],
        report: "process 1 status 0\nrounds 4 done\n",
        ..BUFFERED
    },
    Row {
        guest: &[SECOND, SLEEPS_BY_A_WORD],
        told: &[2, -11, 2, 0],
        report: "process 1 status 0\nrounds 3 done\n",
        ..BUFFERED
    },
    Row {
        guest: &[SECOND, WRITES_A_WORD],
        told: &[2, 9, 9],
        report: "process 1 status 0\nrounds 3 done\n",
        ..BUFFERED
    },
    Row {
        guest: &[SECOND, READS_A_WORD],
        told: &[2, 4, 0, 0x3332_3130],
        report: "process 1 status 0\nrounds 4 done\n",
        ..BUFFERED
    },
];

#[test]
fn threads_own_their_pages(rt: HostRuntime) {
    check_rows(&rt, rt.alloc(), &OWNED);
}

#[test]
fn threads_write_words_of_their_own(rt: HostRuntime) {
    check_rows(&rt, rt.alloc(), &WRITTEN);
}
