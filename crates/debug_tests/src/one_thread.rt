//! Sessions over one thread.
use crate::calls::check;
use crate::frames::Said;

/// Ends with status 7.
pub const ENDS: &[u32] = &[0x0020_0893, 0x0070_0513, 0x0000_0073];

const STEPS: &[Said] = &[
    ("?", &["T05thread:p1.1;"]),
    ("p2", &["f0ffffef"]),
    ("vCont;s:p1.1", &["T05thread:p1.1;"]),
    ("p20", &["04000100"]),
    ("vCont;s:p1.1", &["T05thread:p1.1;"]),
    ("pa", &["07000000"]),
    ("vCont;s:p1.1", &["T05thread:p1.1;replaylog:end;"]),
    ("p20", &["08000100"]),
    ("bs", &["T05thread:p1.1;"]),
    ("p20", &["04000100"]),
    ("bs", &["T05thread:p1.1;"]),
    ("bs", &["T05thread:p1.1;replaylog:begin;"]),
    ("bc", &["T05thread:p1.1;replaylog:begin;"]),
    ("c", &["T05thread:p1.1;replaylog:end;"]),
    ("m10000,c", &["930820001305700073000000"]),
    ("m10ffe,8", &["0000"]),
    ("mfffc,8", &["E0e"]),
    (
        "M10000,1:00",
        &["E.nothing in a recorded run can be changed"],
    ),
    ("zz", &[""]),
    (
        "qXfer:threads:read::0,1000",
        &["l<threads><thread id=\"p1.1\">ready, 998 left</thread></threads>"],
    ),
    (
        "!where",
        &[
            "\"round 1 move 2, serial phase\n",
            "\"last: thread 1 runs an instruction\n",
            "\"next: thread 1 is served\n",
            "\"log entry 1 of 2\n",
            "OK",
        ],
    ),
];

#[test]
fn a_process_exits(rt: HostRuntime) {
    check(&rt, rt.alloc(), ENDS, b"", STEPS);
}

const LOOKS: &[Said] = &[
    ("Hgp0.0", &["OK"]),
    ("qC", &["QCp1.1"]),
    (
        "qXfer:features:read:target.xml:0,20",
        &["m<target><architecture>riscv:rv32"],
    ),
    ("qfThreadInfo", &["mp1.1"]),
    ("qsThreadInfo", &["l"]),
    ("vCont?", &["vCont;c;C;s;S;r"]),
    ("Tp1.2", &["E01"]),
    ("p21", &["E01"]),
    ("k", &[]),
    ("qXfer:exec-file:read:1:0,100", &["l/a"]),
    ("vFile:setfs:0", &["F0"]),
    ("vFile:open:2f61,0,0", &["F0"]),
    ("vFile:open:61,0,0", &["F-1,2"]),
    ("vFile:fstat:1", &["F-1,9"]),
    ("vFile:pread:0,4,0", &["F4;\u{7f}ELF"]),
    ("vFile:close:0", &["F0"]),
    (
        "!processes",
        &["\"process 1 live, parent 0, image a\n", "OK"],
    ),
    (
        "!page 0x10004",
        &[
            "\"page 00010000 of process 1: frame 0, owner thread 1, rights rwx, private\n",
            "OK",
        ],
    ),
    ("!page here", &["\"page ADDRESS [PROCESS]\n", "OK"]),
    ("!pages 2", &["\"no process\n", "OK"]),
    ("!pipes", &["\"no pipe is open\n", "OK"]),
];

#[test]
fn what_is_there_is_told(rt: HostRuntime) {
    check(&rt, rt.alloc(), ENDS, b"", LOOKS);
}

/// A store to no page.
const STORES: &[u32] = &[0x0000_2023];

const FAULTS: &[Said] = &[
    ("c", &["T0bthread:p1.1;"]),
    (
        "!where",
        &["*", "*", "\"next: thread 1 faults with 11\n", "*", "OK"],
    ),
    ("c", &["T05thread:p1.1;replaylog:end;"]),
    (
        "!where",
        &["*", "*", "\"next: thread 1 faults with 11\n", "*", "OK"],
    ),
];

#[test]
fn a_fault_is_told_before_it_ends_the_process(rt: HostRuntime) {
    check(&rt, rt.alloc(), STORES, b"", FAULTS);
}

/// Sleeps on a word that is as expected: the group is stalled.
const SLEEPS: &[u32] = &[
    0x00B0_0893,
    0x0000_0517,
    0x0005_2583,
    0x0000_0073,
    0x0020_0893,
    0x0000_0073,
];

const STALLS: &[Said] = &[
    ("c", &["T05thread:p1.1;replaylog:end;"]),
    (
        "!where",
        &[
            "\"round 2 move 0, between rounds\n",
            "*",
            "\"next: none, the group is stalled\n",
            "*",
            "OK",
        ],
    ),
    ("bs", &["T05thread:p1.1;"]),
    (
        "!where",
        &["\"round 1 move 3, serial phase\n", "*", "*", "*", "OK"],
    ),
    ("!sleepers", &["\"nobody sleeps\n", "OK"]),
    ("vCont;s:p1.1", &["T05thread:p1.1;"]),
    (
        "!sleepers",
        &["\"thread 1 sleeps at frame 0 offset 4\n", "OK"],
    ),
    (
        "!threads",
        &[
            "\"thread 1 of process 1: sleeps at 00010004, frame 0 offset 4\n",
            "OK",
        ],
    ),
];

#[test]
fn nobody_is_ready(rt: HostRuntime) {
    check(&rt, rt.alloc(), SLEEPS, b"", STALLS);
}

/// Reads at most 64 bytes to sp - 64 and writes what came, until nothing comes.
const COPIES: &[u32] = &[
    0x0070_0893,
    0x0000_0513,
    0xFC01_0593,
    0x0400_0613,
    0x0000_0073,
    0x0005_0C63,
    0x0005_0613,
    0x0080_0893,
    0x0010_0513,
    0x0000_0073,
    0xFD9F_F06F,
    0x0020_0893,
    0x0000_0073,
];

/// A service changes what is watched; then a person goes to a moment.
const WATCHES: &[Said] = &[
    ("Z2,efffffb0,4", &["OK"]),
    ("vCont;c:p1.-1", &["T05thread:p1.1;watch:efffffb0;"]),
    ("z2,efffffb0,4", &["OK"]),
    ("vCont;s:p1.1", &["T05thread:p1.1;"]),
    ("mefffffb0,7", &["30313233343536"]),
    (
        "!goto 1 2",
        &["\"the next continue goes to round 1 move 2\n", "OK"],
    ),
    ("vCont;c", &["T02thread:p1.1;"]),
    (
        "!where",
        &["\"round 1 move 2, parallel phase\n", "*", "*", "*", "OK"],
    ),
    (
        "c",
        &["\"0123456", "\"789", "T05thread:p1.1;replaylog:end;"],
    ),
    ("!output", &["\"0123456", "\"789", "OK"]),
];

#[test]
fn a_service_changes_what_is_watched(rt: HostRuntime) {
    check(&rt, rt.alloc(), COPIES, b"0123456789", WATCHES);
}
