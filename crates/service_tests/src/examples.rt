//! The machine's worked examples.
use crate::checks::same;
use crate::guests::{
    A0, CLOCK, CLOSE, FUTEX, FUTEX_WAIT, FUTEX_WAKE, GET_TID, OTHER, PIPE, READ, ROUND,
    SIG_HANDLER, SIG_MASK, STACK, Step, TEMP0, THREAD_EXIT, THREAD_NEW, WRITE, YIELD,
};
use crate::runs::{IN_2, IN_2_TO_6, Posts, Row, USUAL, check_buffered, check_rows, image};
use dos_world::{Config, Ending, Scheme};
use dpg_run::open_group;
use group_open::OpenError;

/// Three threads sleep on one word in the order of their numbers. They are woken two and then one
/// at a time, and each goes on in the next round.
const WAKES: &[Step] = &[
    Step::Ask(THREAD_NEW, OTHER, STACK + 0x1000, 0),
    Step::Ask(THREAD_NEW, OTHER, STACK + 0x2000, 0),
    Step::Ask(THREAD_NEW, OTHER, STACK + 0x3000, 0),
    Step::Call(YIELD, 0, 0, 0),
    Step::Call(YIELD, 0, 0, 0),
    Step::Ask(FUTEX_WAKE, FUTEX, 2, 0),
    Step::Ask(FUTEX_WAKE, FUTEX, 0, 0),
    Step::Call(YIELD, 0, 0, 0),
    Step::Call(YIELD, 0, 0, 0),
    Step::Ask(FUTEX_WAKE, FUTEX, 9, 0),
    Step::Call(YIELD, 0, 0, 0),
    Step::Call(YIELD, 0, 0, 0),
    Step::End(0),
    Step::At(OTHER),
    Step::Ask(FUTEX_WAIT, FUTEX, 0, 0),
    Step::Ask(GET_TID, 0, 0, 0),
    Step::Ask(ROUND, 0, 0, 0),
    Step::Call(THREAD_EXIT, 0, 0, 0),
];

/// A word that holds 1, and places where there is none.
const DOES_NOT_SLEEP: &[Step] = &[
    Step::Ask(FUTEX_WAIT, OTHER, 2, 0),
    Step::Ask(FUTEX_WAIT, 0, 2, 0),
    Step::Ask(FUTEX_WAIT, 0x1_0002, 2, 0),
    Step::End(0),
    Step::At(OTHER),
    Step::Words(&[1]),
];

/// A write waits where the pipe is full, until another thread has read a byte.
const FULL_PIPE: &[Step] = &[
    Step::Ask(THREAD_NEW, OTHER, STACK + 0x2000, 0),
    Step::AskBoth(PIPE, 0, 0, 0),
    Step::Ask(WRITE, 4, STACK, 5000),
    Step::Ask(WRITE, 4, STACK, 1),
    Step::Ask(ROUND, 0, 0, 0),
    Step::End(0),
    Step::At(OTHER),
    Step::Ask(READ, 3, STACK, 1),
    Step::Ask(ROUND, 0, 0, 0),
    Step::Call(THREAD_EXIT, 0, 0, 0),
];

/// The ends of a pipe, one of them closed.
const CLOSED_ENDS: &[Step] = &[
    Step::AskBoth(PIPE, 0, 0, 0),
    Step::Ask(CLOSE, 4, 0, 0),
    Step::Ask(READ, 3, STACK, 1),
    Step::Ask(CLOSE, 3, 0, 0),
    Step::Ask(CLOSE, 3, 0, 0),
    Step::AskBoth(PIPE, 0, 0, 0),
    Step::Ask(CLOSE, 3, 0, 0),
    Step::Ask(WRITE, 4, STACK, 1),
    Step::End(0),
];

/// A thread fills its own pipe.
const OWN_PIPE: &[Step] = &[
    Step::AskBoth(PIPE, 0, 0, 0),
    Step::Ask(WRITE, 4, STACK, 5000),
    Step::Ask(WRITE, 4, STACK, 1),
];

/// The input comes in pieces of four bytes, and a piece's rest before the next one.
const OUTSIDE: &[Step] = &[
    Step::Ask(READ, 0, STACK, 64),
    Step::Put(TEMP0, STACK),
    Step::Load(A0, TEMP0),
    Step::Tell,
    Step::Ask(READ, 0, STACK, 2),
    Step::Ask(READ, 0, STACK, 64),
    Step::Ask(READ, 0, STACK, 64),
    Step::Ask(READ, 0, STACK, 64),
    Step::AskBoth(CLOCK, 0, 0, 0),
    Step::AskBoth(CLOCK, 0, 0, 0),
    Step::End(0),
];

/// Sleeps, and nobody is to wake it.
const SLEEPS: &[Step] = &[Step::Words(&[
    0x00B0_0893,
    0x0000_0517,
    0x0005_2583,
    0x0000_0073,
    0x0020_0893,
    0x0000_0073,
])];

/// Sleeps, with a handler for signal 15 that returns, and ends with the low byte of the answer.
const IS_WOKEN: &[Step] = &[Step::Words(&[
    0x0100_0893,
    0x00F0_0513,
    0x0000_0597,
    0x0245_8593,
    0x0000_0073,
    0x00B0_0893,
    0x0000_0517,
    0x0005_2583,
    0x0000_0073,
    0x0020_0893,
    0x0000_0073,
    0x0120_0893,
    0x0000_0073,
])];

/// Ends with 7.
const SEVEN: &[Step] = &[Step::Words(&[0x0020_0893, 0x0070_0513, 0x0000_0073])];

/// Maps a page, and ends with the low byte of the answer.
const MAPS: &[Step] = &[Step::Words(&[
    0x00D0_0893,
    0x0002_0537,
    0x0010_0593,
    0x0060_0613,
    0x0000_0073,
    0x0020_0893,
    0x0000_0073,
])];

/// Forks; the child ends with 5, and so does the parent, by what it collects.
const FORKS: &[Step] = &[Step::Words(&[
    0x0040_0893,
    0x0000_0073,
    0x0005_0E63,
    0x0050_0893,
    0x0000_0513,
    0x0000_0073,
    0x0005_8513,
    0x0020_0893,
    0x0000_0073,
    0x0050_0513,
    0x0020_0893,
    0x0000_0073,
])];

/// Forks until it is refused, and ends with the low byte of the answer.
const FORKS_ON: &[Step] = &[Step::Words(&[
    0x0040_0893,
    0x0000_0073,
    0xFEA0_4CE3,
    0x0020_0893,
    0x0000_0073,
])];

/// Sleeps, with a handler for signal 10 that lets it in again and sleeps too.
const SLEEPS_ON: &[Step] = &[
    Step::Ask(SIG_HANDLER, 10, OTHER, 0),
    Step::Call(FUTEX_WAIT, FUTEX, 0, 0),
    Step::At(OTHER),
    Step::Ask(ROUND, 0, 0, 0),
    Step::Call(SIG_MASK, 0, 0, 0),
    Step::Call(FUTEX_WAIT, FUTEX, 0, 0),
];

const SLEEPERS: [Row; 2] = [
    Row {
        guest: &[WAKES],
        told: &[2, 3, 4, 2, 0, 0, 2, 4, 0, 3, 4, 1, 0, 4, 6],
        report: "process 1 status 0\nrounds 7 done\n",
        ..USUAL
    },
    Row {
        guest: &[DOES_NOT_SLEEP],
        told: &[-11, -14, -22],
        report: "process 1 status 0\nrounds 1 done\n",
        ..USUAL
    },
];

const PIPES: [Row; 4] = [
    Row {
        guest: &[FULL_PIPE],
        told: &[2, 3, 4, 4096, 1, 2, 1, 3],
        report: "process 1 status 0\nrounds 3 done\n",
        ..USUAL
    },
    Row {
        guest: &[CLOSED_ENDS],
        told: &[3, 4, 0, 0, 0, -9, 3, 4, 0, -32],
        report: "process 1 status 0\nrounds 1 done\n",
        ..USUAL
    },
    Row {
        guest: &[OWN_PIPE],
        told: &[3, 4, 4096],
        ending: Ending::Stalled,
        report: "process 1 live\nrounds 1 stalled\n",
        ..USUAL
    },
    Row {
        guest: &[OUTSIDE],
        told: &[4, 0x3332_3130, 2, 2, 2, 0, 2, 1, -1, 0],
        report: "process 1 status 0\nrounds 1 done\n",
        ..USUAL
    },
];

const FIFTEEN: Posts = Posts { signal: 15, ..IN_2 };

const SEVENTEEN: Posts = Posts { signal: 17, ..IN_2 };

const SIGNALS: [Row; 6] = [
    Row {
        guest: &[SLEEPS],
        ending: Ending::Stalled,
        report: "process 1 live\nrounds 1 stalled\n",
        ..USUAL
    },
    Row {
        posts: FIFTEEN,
        guest: &[SLEEPS],
        report: "process 1 status 143\nrounds 1 done\n",
        ..USUAL
    },
    // by default this signal does nothing
    Row {
        posts: SEVENTEEN,
        guest: &[SLEEPS],
        ending: Ending::Stalled,
        report: "process 1 live\nrounds 1 stalled\n",
        ..USUAL
    },
    // there is no such process
    Row {
        posts: Posts { pid: 9, ..FIFTEEN },
        guest: &[SLEEPS],
        ending: Ending::Stalled,
        report: "process 1 live\nrounds 1 stalled\n",
        ..USUAL
    },
    Row {
        posts: FIFTEEN,
        guest: &[IS_WOKEN],
        report: "process 1 status 252\nrounds 2 done\n",
        ..USUAL
    },
    // the fifth stays pending
    Row {
        posts: IN_2_TO_6,
        guest: &[SLEEPS_ON],
        told: &[0, 2, 3, 4, 5],
        ending: Ending::Stalled,
        report: "process 1 live\nrounds 5 stalled\n",
        ..USUAL
    },
];

const FRAMES: [Row; 5] = [
    Row {
        frames: 17,
        guest: &[MAPS],
        report: "process 1 status 244\nrounds 1 done\n",
        ..USUAL
    },
    Row {
        frames: 18,
        guest: &[MAPS],
        report: "process 1 status 0\nrounds 1 done\n",
        ..USUAL
    },
    Row {
        guest: &[FORKS],
        report: "process 1 status 5\nprocess 2 status 5\nrounds 3 done\n",
        ..USUAL
    },
    Row {
        frames: 34,
        guest: &[FORKS_ON],
        report: "process 1 status 244\nprocess 2 status 0\nrounds 2 done\n",
        ..USUAL
    },
    Row {
        guest: &[FORKS_ON],
        report: "\
            process 1 status 245\nprocess 2 status 0\nprocess 3 status 0\n\
            process 4 status 0\nprocess 5 status 0\nprocess 6 status 0\nprocess 7 status 0\n\
            process 8 status 0\nprocess 9 status 0\nprocess 10 status 0\n\
            process 11 status 0\nprocess 12 status 0\nprocess 13 status 0\n\
            process 14 status 0\nprocess 15 status 0\nprocess 16 status 0\n\
            process 17 status 0\nprocess 18 status 0\nprocess 19 status 0\n\
            process 20 status 0\nprocess 21 status 0\nprocess 22 status 0\n\
            process 23 status 0\nprocess 24 status 0\nprocess 25 status 0\n\
            process 26 status 0\nprocess 27 status 0\nprocess 28 status 0\n\
            process 29 status 0\nprocess 30 status 0\nprocess 31 status 0\n\
            process 32 status 0\nrounds 2 done\n",
        ..USUAL
    },
];

#[test]
fn sleepers_are_woken(rt: HostRuntime) {
    check_rows(&rt, rt.alloc(), &SLEEPERS);
}

#[test]
fn pipes_and_input_are_read(rt: HostRuntime) {
    check_rows(&rt, rt.alloc(), &PIPES);
}

#[test]
fn signals_come_from_outside(rt: HostRuntime) {
    check_rows(&rt, rt.alloc(), &SIGNALS);
}

#[test]
fn pages_are_mapped_while_there_are_frames(rt: HostRuntime) {
    check_rows(&rt, rt.alloc(), &FRAMES);
}

// whose threads tell each other of things by services alone, which are served one after another
#[test]
fn services_do_the_same_in_the_buffered_scheme(rt: HostRuntime) {
    check_buffered(&rt, rt.alloc(), &SLEEPERS);
    check_buffered(&rt, rt.alloc(), &PIPES);
    check_buffered(&rt, rt.alloc(), &SIGNALS);
    check_buffered(&rt, rt.alloc(), &FRAMES);
}

#[test]
fn a_group_needs_its_frames(rt: HostRuntime) {
    let config = Config {
        quantum: 1000,
        rounds: 100,
        frames: 16,
        scheme: Scheme::Ownership,
    };
    let images = [image(&rt, rt.alloc(), &[SEVEN])];
    let refusal = open_group(rt.alloc(), &images, config).err();
    let wanted = OpenError::NoRoom {
        needed: 17,
        frames: 16,
    };
    same(&rt, refusal, Some(wanted));
    drop(images);
}
