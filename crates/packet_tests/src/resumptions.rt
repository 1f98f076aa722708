//! What a packet `vCont` resumes.
use gdb_packets::ids::{ThreadId, Which};
use gdb_packets::resumptions::{Action, Resumption, read_resumptions};
use std::alloc::Global;
use std::process::Abort;

fn check(rt: &impl Abort, alloc: Global, text: &str, wanted: &[Resumption]) {
    match read_resumptions(alloc, text.as_bytes()) {
        Ok(Some(read)) => assert_eq!(rt; read.as_slice(), wanted, "{text}"),
        _ => panic!(rt; "{text}"),
    }
}

fn check_refused(rt: &impl Abort, alloc: Global, text: &str) {
    match read_resumptions(alloc, text.as_bytes()) {
        Ok(read) => assert!(rt; read.is_none(), "{text}"),
        Err(_) => panic!(rt; "{text}"),
    }
}

const ALL: ThreadId = ThreadId::ThreadAlone(Which::All);

const FIRST: ThreadId = ThreadId::Both {
    process: Which::Only(1),
    thread: Which::Only(1),
};

const FIRST_PROCESS: ThreadId = ThreadId::Both {
    process: Which::Only(1),
    thread: Which::All,
};

#[test]
fn each_action_is_read(rt: HostRuntime) {
    let alloc = rt.alloc();
    let wanted = [
        Resumption {
            action: Action::Range {
                low: 65568,
                high: 65576,
            },
            threads: FIRST,
        },
        Resumption {
            action: Action::StepSignal(11),
            threads: FIRST_PROCESS,
        },
        Resumption {
            action: Action::Step,
            threads: ThreadId::ProcessAlone(Which::Only(2)),
        },
        Resumption {
            action: Action::ContinueSignal(5),
            threads: ThreadId::ThreadAlone(Which::Only(3)),
        },
        Resumption {
            action: Action::Continue,
            threads: ALL,
        },
    ];
    check(
        &rt,
        alloc,
        ";r10020,10028:p1.1;S0b:p1.-1;s:p2;C05:3;c",
        &wanted,
    );
}

#[test]
fn other_texts_are_refused(rt: HostRuntime) {
    let alloc = rt.alloc();
    for text in [
        "", "c", ";", ";;c", ";c;", ";C5", ";r1", ";c:p1.1:", ";cc", "?",
    ] {
        check_refused(&rt, alloc, text);
    }
}
