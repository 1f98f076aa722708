//! Guests on both sides, where nothing fails but the host; words and images that are refused.

use crate::calls::{COPY, Call, both};
use crate::guests::{COPIES_TO_BOTH, PROMPTS, STORES_AT_ZERO, WRITES_TO_BOTH, YIELDS};

const DONE: &str = "process 1 status 0\nrounds 1 done\n";

#[test]
fn a_guest_copies_its_input(rt: HostRuntime) {
    both(&rt, rt.alloc(), &COPY, (0, "0123456789", "", DONE));
}

#[test]
fn a_host_fails_at_its_second_call(rt: HostRuntime) {
    let call = Call {
        host_failing: 2,
        ..COPY
    };
    both(
        &rt,
        rt.alloc(),
        &call,
        (5, "0123456789", "", "dos: host fault\n"),
    );
}

#[test]
fn both_put_the_same_bytes(rt: HostRuntime) {
    let alloc = rt.alloc();
    let prompts = Call {
        code: &PROMPTS,
        text: b"? ",
        input: b"yes",
        clocks: &[7],
        ..COPY
    };
    let err = "yesprocess 1 status 0\nrounds 1 done\n";
    both(&rt, alloc, &prompts, (0, "? ", "yes", err));
    let writes = Call {
        code: &WRITES_TO_BOTH,
        text: b"aAbBcCdD",
        ..COPY
    };
    let err = "bBdDprocess 1 status 0\nrounds 1 done\n";
    both(&rt, alloc, &writes, (0, "aAcC", "bBdD", err));
    let copies = Call {
        code: &COPIES_TO_BOTH,
        piece: 1,
        ..COPY
    };
    let err = "0123456789process 1 status 0\nrounds 1 done\n";
    both(&rt, alloc, &copies, (0, "0123456789", "0123456789", err));
    let faults = Call {
        code: &STORES_AT_ZERO,
        ..COPY
    };
    both(
        &rt,
        alloc,
        &faults,
        (0, "", "", "process 1 status 139\nrounds 1 done\n"),
    );
}

#[test]
fn a_guest_runs_on_to_the_limit(rt: HostRuntime) {
    let call = Call {
        code: &YIELDS,
        ..COPY
    };
    let err = "process 1 live\nrounds 100000 limit\n";
    both(&rt, rt.alloc(), &call, (7, "", "", err));
}

#[test]
fn words_that_are_no_names_are_refused(rt: HostRuntime) {
    let alloc = rt.alloc();
    let refused = (2, "", "", "dos: words refused\n");
    let none = Call { words: &[], ..COPY };
    both(&rt, alloc, &none, refused);
    let empty = Call {
        words: &["a", ""],
        ..COPY
    };
    both(&rt, alloc, &empty, refused);
    let option = Call {
        words: &["--log"],
        ..COPY
    };
    both(&rt, alloc, &option, refused);
    let nine = Call {
        words: &["a", "a", "a", "a", "a", "a", "a", "a", "a"],
        ..COPY
    };
    both(&rt, alloc, &nine, refused);
}

#[test]
fn a_file_that_is_not_there_is_a_fault(rt: HostRuntime) {
    let alloc = rt.alloc();
    let fault = (5, "", "", "dos: file fault\n");
    let other = Call {
        words: &["a", "b"],
        ..COPY
    };
    both(&rt, alloc, &other, fault);
    let failing = Call {
        files_failing: 1,
        ..COPY
    };
    both(&rt, alloc, &failing, fault);
}
