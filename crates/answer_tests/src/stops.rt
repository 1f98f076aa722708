//! Stops, signals of faults, and bytes for the person's console.
use crate::checks::same_text;
use debug_answers::{fault_signal, put_console, put_stop};
use debug_session::{Cause, Stop, WatchKind, Watchpoint};
use std::alloc::Global;
use std::process::Abort;

fn check_stop(rt: &impl Abort, alloc: Global, stop: Stop, wanted: &str) {
    let mut out = Vec::new(alloc);
    put_stop(&mut out, stop).expect(rt, "memory");
    same_text(rt, out.as_slice(), wanted);
}

fn trapped(whose: (u32, u32), cause: Cause) -> Stop {
    Stop {
        signal: 5,
        whose,
        cause,
    }
}

fn watched(address: u32, kind: WatchKind) -> Cause {
    Cause::Watched(Watchpoint {
        process: 1,
        address,
        length: 4,
        kind,
    })
}

const STOPS: [(u8, &str); 4] = [
    (5, "T05thread:p1.1;"),
    (2, "T02thread:p1.1;"),
    (10, "T0athread:p1.1;"),
    (11, "T0bthread:p1.1;"),
];

#[test]
fn a_stop_has_its_signal(rt: HostRuntime) {
    for (signal, wanted) in STOPS {
        let stop = Stop {
            signal,
            whose: (1, 1),
            cause: Cause::Plainly,
        };
        check_stop(&rt, rt.alloc(), stop, wanted);
    }
}

#[test]
fn a_stop_has_its_cause(rt: HostRuntime) {
    let alloc = rt.alloc();
    let broke = trapped((2, 16), Cause::Broke);
    check_stop(&rt, alloc, broke, "T05thread:p2.10;swbreak:;");
    let bore = Cause::Bore {
        process: 2,
        thread: 2,
    };
    check_stop(
        &rt,
        alloc,
        trapped((1, 1), bore),
        "T05thread:p1.1;fork:p2.2;",
    );
    let end = trapped((1, 2), Cause::ReachedEnd);
    check_stop(&rt, alloc, end, "T05thread:p1.2;replaylog:end;");
    let start = trapped((1, 1), Cause::ReachedStart);
    check_stop(&rt, alloc, start, "T05thread:p1.1;replaylog:begin;");
}

#[test]
fn a_stop_has_its_watchpoint(rt: HostRuntime) {
    let alloc = rt.alloc();
    let changes = trapped((1, 1), watched(0x10050, WatchKind::Changes));
    check_stop(&rt, alloc, changes, "T05thread:p1.1;watch:10050;");
    let reads = trapped((1, 1), watched(0xefffffb0, WatchKind::Reads));
    check_stop(&rt, alloc, reads, "T05thread:p1.1;rwatch:efffffb0;");
    let accesses = trapped((1, 1), watched(0, WatchKind::Accesses));
    check_stop(&rt, alloc, accesses, "T05thread:p1.1;awatch:0;");
}

const SIGNALS: [(u8, u8); 6] = [(4, 4), (5, 5), (7, 10), (11, 11), (0, 5), (255, 5)];

fn check_signal(rt: &impl Abort, number: u8, wanted: u8) {
    assert_eq!(rt; fault_signal(number), wanted);
}

#[test]
fn a_fault_has_its_signal(rt: HostRuntime) {
    for (number, wanted) in SIGNALS {
        check_signal(&rt, number, wanted);
    }
}

fn check_console(rt: &impl Abort, alloc: Global, text: &str, wanted: &str) {
    let mut out = Vec::new(alloc);
    put_console(&mut out, text.as_bytes()).expect(rt, "memory");
    same_text(rt, out.as_slice(), wanted);
}

#[test]
fn bytes_for_the_console_are_in_digits(rt: HostRuntime) {
    check_console(&rt, rt.alloc(), "Hi\n", "O48690a");
    check_console(&rt, rt.alloc(), "", "O");
}
