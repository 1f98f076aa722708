//! A race in a debugger.
use crate::calls::check;
use crate::frames::Said;

/// Two threads load one word, at 0x10050, yield, add 1 and store.
const RACES: &[u32] = &[
    0x0030_0893,
    0x0000_0517,
    0x0145_0513,
    0x0000_0073,
    0x0170_0893,
    0x0000_0073,
    0x0000_0417,
    0x0384_2283,
    0x0170_0893,
    0x0000_0073,
    0x0012_8293,
    0x0254_2C23,
    0x0000_0073,
    0x0080_0893,
    0x0010_0513,
    0x0384_0593,
    0x0010_0613,
    0x0000_0073,
    0x0010_0893,
    0x0000_0073,
    0x0000_0030,
];

/// The last change is found backwards. Thread 2 stores the same number, which changes nothing: that
/// is the lost addition.
const WHO_WROTE_IT: &[Said] = &[
    ("Z2,10050,4", &["OK"]),
    ("vCont;c:p1.-1", &["T05thread:p1.1;watch:10050;"]),
    (
        "!where",
        &["\"round 3 move 2, serial phase\n", "*", "*", "*", "OK"],
    ),
    ("z2,10050,4", &["OK"]),
    ("vCont;s:p1.1", &["T05thread:p1.1;"]),
    ("m10050,4", &["31000000"]),
    ("Z2,10050,4", &["OK"]),
    (
        "vCont;c:p1.-1",
        &["\"1", "\"1", "T05thread:p1.2;replaylog:end;"],
    ),
    (
        "!where",
        &["\"round 4 move 13, serial phase\n", "*", "*", "*", "OK"],
    ),
    ("bc", &["T05thread:p1.1;watch:10050;"]),
    (
        "!where",
        &["\"round 3 move 3, serial phase\n", "*", "*", "*", "OK"],
    ),
    ("z2,10050,4", &["OK"]),
    ("Hcp1.2", &["OK"]),
    ("bs", &["T05thread:p1.2;"]),
    ("m10050,4", &["30000000"]),
];

#[test]
fn who_wrote_it_last(rt: HostRuntime) {
    check(&rt, rt.alloc(), RACES, b"", WHO_WROTE_IT);
}

/// A breakpoint at the store, in the serial phase: each thread comes to it.
const AT_THE_STORE: &[Said] = &[
    ("Z0,1002c,4", &["OK"]),
    ("vCont;c", &["T05thread:p1.1;swbreak:;"]),
    (
        "!where",
        &["\"round 3 move 2, serial phase\n", "*", "*", "*", "OK"],
    ),
    ("vCont;c", &["T05thread:p1.2;swbreak:;"]),
    (
        "!where",
        &["\"round 3 move 4, serial phase\n", "*", "*", "*", "OK"],
    ),
    ("vCont;c", &["\"1", "\"1", "T05thread:p1.2;replaylog:end;"]),
    ("bc", &["T05thread:p1.2;swbreak:;"]),
    (
        "!where",
        &["\"round 3 move 4, serial phase\n", "*", "*", "*", "OK"],
    ),
];

/// A breakpoint at the addition, in the parallel phase: the mover isn't always who stands in front.
const AT_THE_ADDITION: &[Said] = &[
    ("Z0,10028,4", &["OK"]),
    ("vCont;c", &["T05thread:p1.1;swbreak:;"]),
    (
        "!where",
        &["\"round 3 move 0, parallel phase\n", "*", "*", "*", "OK"],
    ),
    ("vCont;c", &["T05thread:p1.2;swbreak:;"]),
    (
        "!where",
        &["\"round 3 move 1, parallel phase\n", "*", "*", "*", "OK"],
    ),
    ("vCont;c", &["\"1", "\"1", "T05thread:p1.2;replaylog:end;"]),
    ("bc", &["T05thread:p1.2;swbreak:;"]),
    ("bc", &["T05thread:p1.1;swbreak:;"]),
];

#[test]
fn who_comes_to_a_breakpoint(rt: HostRuntime) {
    check(&rt, rt.alloc(), RACES, b"", AT_THE_STORE);
    check(&rt, rt.alloc(), RACES, b"", AT_THE_ADDITION);
}

/// Thread 1, which isn't resumed, changes what is watched: the hit is told behind its move, to
/// thread 2, whose next step is owed and makes no move.
const BY_ANOTHER: &[Said] = &[
    ("Z2,10050,4", &["OK"]),
    ("vCont;c:p1.2", &["T05thread:p1.2;watch:10050;"]),
    (
        "!where",
        &["\"round 3 move 3, serial phase\n", "*", "*", "*", "OK"],
    ),
    ("vCont;s:p1.2", &["T05thread:p1.2;"]),
    (
        "!where",
        &["\"round 3 move 3, serial phase\n", "*", "*", "*", "OK"],
    ),
    ("vCont;s:p1.2", &["T05thread:p1.2;"]),
    (
        "!where",
        &["\"round 3 move 5, serial phase\n", "*", "*", "*", "OK"],
    ),
];

#[test]
fn another_thread_hits_a_watchpoint(rt: HostRuntime) {
    check(&rt, rt.alloc(), RACES, b"", BY_ANOTHER);
}

/// Each load is a read, of either thread; a load and a store are accesses.
const WHO_READS: &[Said] = &[
    ("Z3,10050,4", &["OK"]),
    ("vCont;c", &["T05thread:p1.1;rwatch:10050;"]),
    (
        "!where",
        &["\"round 2 move 1, parallel phase\n", "*", "*", "*", "OK"],
    ),
    ("z3,10050,4", &["OK"]),
    ("vCont;s:p1.1", &["T05thread:p1.1;"]),
    ("Z4,10050,4", &["OK"]),
    ("vCont;c", &["T05thread:p1.2;awatch:10050;"]),
    (
        "!where",
        &["\"round 2 move 5, serial phase\n", "*", "*", "*", "OK"],
    ),
];

#[test]
fn reads_and_accesses_are_told(rt: HostRuntime) {
    check(&rt, rt.alloc(), RACES, b"", WHO_READS);
}
