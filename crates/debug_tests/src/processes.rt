//! Sessions over a process and its child.
use crate::calls::check;
use crate::frames::Said;

/// Forks; the parent waits and exits with the child's status, and the child exits with 5.
const FORKS: &[u32] = &[
    0x0040_0893,
    0x0000_0073,
    0x0005_0E63,
    0x0050_0893,
    0x0000_0513,
    0x0000_0073,
    0x0005_8513,
    0x0020_0893,
    0x0000_0073,
    0x0050_0513,
    0x0020_0893,
    0x0000_0073,
];

/// The child is told of, and stays listed where it has ended.
const TOLD: &[Said] = &[
    ("qSupported:multiprocess+;fork-events+", &["*"]),
    ("qXfer:exec-file:read:2:0,100", &["E01"]),
    ("vCont;c:p1.-1", &["T05thread:p1.1;fork:p2.2;"]),
    (
        "!processes",
        &[
            "\"process 1 live, parent 0, image a\n",
            "\"process 2 live, parent 1, image a\n",
            "OK",
        ],
    ),
    ("qXfer:exec-file:read:2:0,100", &["l/a"]),
    ("qfThreadInfo", &["mp1.1,p2.2"]),
    ("Hgp2.0", &["OK"]),
    ("Z0,10024,4", &["OK"]),
    ("vCont;c", &["T05thread:p2.2;swbreak:;"]),
    (
        "!where",
        &["\"round 2 move 1, parallel phase\n", "*", "*", "*", "OK"],
    ),
    ("p20", &["24000100"]),
    ("vCont;c", &["T05thread:p1.1;replaylog:end;"]),
    (
        "!where",
        &["\"round 3 move 3, serial phase\n", "*", "*", "*", "OK"],
    ),
    ("qfThreadInfo", &["mp1.1,p2.2"]),
    (
        "!threads",
        &["\"thread 1 of process 1: ready, 997 left\n", "OK"],
    ),
    ("bc", &["T05thread:p2.2;swbreak:;"]),
    ("bc", &["T05thread:p1.1;replaylog:begin;"]),
];

/// A child that is let go isn't shown any more.
const LET_GO: &[Said] = &[
    ("qSupported:multiprocess+;fork-events+", &["*"]),
    ("vCont;c:p1.-1", &["T05thread:p1.1;fork:p2.2;"]),
    ("D;2", &["OK"]),
    ("qfThreadInfo", &["mp1.1"]),
    ("vCont;c:p1.-1", &["T05thread:p1.1;replaylog:end;"]),
];

/// To a client that isn't told of forks none is told.
const UNTOLD: &[Said] = &[
    ("vCont;c:p1.-1", &["T05thread:p1.1;replaylog:end;"]),
    (
        "!processes",
        &[
            "\"process 1 live, parent 0, image a\n",
            "\"process 2 status 5\n",
            "OK",
        ],
    ),
];

#[test]
fn a_fork_is_told(rt: HostRuntime) {
    for script in [TOLD, LET_GO, UNTOLD] {
        check(&rt, rt.alloc(), FORKS, b"", script);
    }
}
