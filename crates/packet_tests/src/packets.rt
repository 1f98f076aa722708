//! What each packet asks.
use crate::checks::same_at;
use gdb_packets::commands::Command;
use gdb_packets::ids::{ThreadId, Which};
use gdb_packets::openings::Plain;
use gdb_packets::packets::{Packet, Point, PointKind, Stretch, read_packet};
use std::process::Abort;

type Case = (&'static str, Packet);

fn asked(text: &str) -> Option<Packet> {
    if text.len() > 16384 {
        return None;
    }
    Some(read_packet(text.as_bytes()))
}

fn check(rt: &impl Abort, cases: &[Case]) {
    for (text, wanted) in cases {
        same_at(rt, asked(text), Some(*wanted), *text);
    }
}

const GREETINGS: [Case; 16] = [
    (
        "qSupported:multiprocess+;swbreak+;hwbreak+;fork-events+;vfork-events+;no-resumed+",
        Packet::Supported(true),
    ),
    (
        "qSupported:multiprocess+;fork-events+",
        Packet::Supported(true),
    ),
    (
        "qSupported:multiprocess+;fork-events-;vfork-events+",
        Packet::Supported(false),
    ),
    ("qSupported", Packet::Supported(false)),
    ("QStartNoAckMode", Packet::Alone(Plain::NoAcknowledgement)),
    ("?", Packet::Alone(Plain::StopReason)),
    ("qC", Packet::Alone(Plain::CurrentThread)),
    ("qAttached", Packet::Attached(None)),
    ("qAttached:1", Packet::Attached(Some(1))),
    ("qfThreadInfo", Packet::Alone(Plain::FirstThreads)),
    ("qsThreadInfo", Packet::Alone(Plain::NextThreads)),
    ("D", Packet::Detach(None)),
    ("D;1", Packet::Detach(Some(1))),
    ("D;2", Packet::Detach(Some(2))),
    ("vKill;2", Packet::KillProcess(2)),
    ("k", Packet::Alone(Plain::Kill)),
];

#[test]
fn a_session_begins_and_ends(rt: HostRuntime) {
    check(&rt, &GREETINGS);
}

const THREADS: [Case; 11] = [
    (
        "Tp1.1",
        Packet::Alive(ThreadId::Both {
            process: Which::Only(1),
            thread: Which::Only(1),
        }),
    ),
    (
        "Hgp0.0",
        Packet::GeneralThread(ThreadId::Both {
            process: Which::Any,
            thread: Which::Any,
        }),
    ),
    (
        "Hgp1.1",
        Packet::GeneralThread(ThreadId::Both {
            process: Which::Only(1),
            thread: Which::Only(1),
        }),
    ),
    (
        "Hgp2.0",
        Packet::GeneralThread(ThreadId::Both {
            process: Which::Only(2),
            thread: Which::Any,
        }),
    ),
    (
        "Hc-1",
        Packet::ResumedThread(ThreadId::ThreadAlone(Which::All)),
    ),
    (
        "Hc0",
        Packet::ResumedThread(ThreadId::ThreadAlone(Which::Any)),
    ),
    (
        "Hcp1.0",
        Packet::ResumedThread(ThreadId::Both {
            process: Which::Only(1),
            thread: Which::Any,
        }),
    ),
    (
        "Hcp1.2",
        Packet::ResumedThread(ThreadId::Both {
            process: Which::Only(1),
            thread: Which::Only(2),
        }),
    ),
    (
        "Hcp1.-1",
        Packet::ResumedThread(ThreadId::Both {
            process: Which::Only(1),
            thread: Which::All,
        }),
    ),
    (
        "Hcp2",
        Packet::ResumedThread(ThreadId::ProcessAlone(Which::Only(2))),
    ),
    (
        "HgpfFfF.0000001a",
        Packet::GeneralThread(ThreadId::Both {
            process: Which::Only(65535),
            thread: Which::Only(26),
        }),
    ),
];

#[test]
fn threads_are_named(rt: HostRuntime) {
    check(&rt, &THREADS);
}

const STATES: [Case; 16] = [
    ("g", Packet::Alone(Plain::Registers)),
    ("p2", Packet::Register(2)),
    ("p20", Packet::Register(32)),
    ("pa", Packet::Register(10)),
    (
        "m10000,c",
        Packet::Memory(Stretch {
            from: 65536,
            length: 12,
        }),
    ),
    (
        "m10ffe,8",
        Packet::Memory(Stretch {
            from: 69630,
            length: 8,
        }),
    ),
    (
        "mfffc,8",
        Packet::Memory(Stretch {
            from: 65532,
            length: 8,
        }),
    ),
    (
        "m10050,4",
        Packet::Memory(Stretch {
            from: 65616,
            length: 4,
        }),
    ),
    (
        "m10000,4",
        Packet::Memory(Stretch {
            from: 65536,
            length: 4,
        }),
    ),
    (
        "mefffffb0,a",
        Packet::Memory(Stretch {
            from: 4026531760,
            length: 10,
        }),
    ),
    ("m0,0", Packet::Memory(Stretch { from: 0, length: 0 })),
    (
        "mFFFFFFFF,ffffffff",
        Packet::Memory(Stretch {
            from: 4294967295,
            length: 4294967295,
        }),
    ),
    ("M10000,1:00", Packet::Write),
    ("G0000", Packet::Write),
    ("P2=00000000", Packet::Write),
    ("G", Packet::Write),
];

#[test]
fn registers_and_memory_are_read(rt: HostRuntime) {
    check(&rt, &STATES);
}

const POINTS: [Case; 13] = [
    (
        "Z2,10050,4",
        Packet::Insert(Point {
            kind: PointKind::WriteWatchpoint,
            at: Stretch {
                from: 65616,
                length: 4,
            },
        }),
    ),
    (
        "z2,10050,4",
        Packet::Remove(Point {
            kind: PointKind::WriteWatchpoint,
            at: Stretch {
                from: 65616,
                length: 4,
            },
        }),
    ),
    (
        "Z0,1002c,4",
        Packet::Insert(Point {
            kind: PointKind::SoftwareBreakpoint,
            at: Stretch {
                from: 65580,
                length: 4,
            },
        }),
    ),
    (
        "Z0,10028,4",
        Packet::Insert(Point {
            kind: PointKind::SoftwareBreakpoint,
            at: Stretch {
                from: 65576,
                length: 4,
            },
        }),
    ),
    (
        "Z0,10024,4",
        Packet::Insert(Point {
            kind: PointKind::SoftwareBreakpoint,
            at: Stretch {
                from: 65572,
                length: 4,
            },
        }),
    ),
    (
        "Z1,10024,2",
        Packet::Insert(Point {
            kind: PointKind::HardwareBreakpoint,
            at: Stretch {
                from: 65572,
                length: 2,
            },
        }),
    ),
    (
        "Z2,efffffb0,4",
        Packet::Insert(Point {
            kind: PointKind::WriteWatchpoint,
            at: Stretch {
                from: 4026531760,
                length: 4,
            },
        }),
    ),
    (
        "z2,efffffb0,4",
        Packet::Remove(Point {
            kind: PointKind::WriteWatchpoint,
            at: Stretch {
                from: 4026531760,
                length: 4,
            },
        }),
    ),
    (
        "Z3,10050,1",
        Packet::Insert(Point {
            kind: PointKind::ReadWatchpoint,
            at: Stretch {
                from: 65616,
                length: 1,
            },
        }),
    ),
    (
        "z4,10050,1",
        Packet::Remove(Point {
            kind: PointKind::AccessWatchpoint,
            at: Stretch {
                from: 65616,
                length: 1,
            },
        }),
    ),
    ("Z5,10050,1", Packet::Unknown),
    ("zz", Packet::Unknown),
    ("Z", Packet::Unknown),
];

#[test]
fn points_are_set_and_taken_away(rt: HostRuntime) {
    check(&rt, &POINTS);
}

const RESUMPTIONS: [Case; 11] = [
    ("vCont?", Packet::ResumeForms),
    ("vCont;s:p1.1", Packet::Resume),
    ("vCont;c", Packet::Resume),
    ("vCont;c:p1.-1", Packet::Resume),
    ("vCont;s:p1.2;c", Packet::Resume),
    ("vCont;C05:p1.1;S0b", Packet::Resume),
    ("vCont;r10020,10028:p1.1;c:p1.-1", Packet::Resume),
    ("c", Packet::Alone(Plain::Continue)),
    ("s", Packet::Alone(Plain::Step)),
    ("bc", Packet::Alone(Plain::BackContinue)),
    ("bs", Packet::Alone(Plain::BackStep)),
];

#[test]
fn threads_are_resumed(rt: HostRuntime) {
    check(&rt, &RESUMPTIONS);
}

const TEXTS: [Case; 10] = [
    (
        "qXfer:features:read:target.xml:0,ffb",
        Packet::Description(Stretch {
            from: 0,
            length: 4091,
        }),
    ),
    (
        "qXfer:threads:read::0,1000",
        Packet::Threads(Stretch {
            from: 0,
            length: 4096,
        }),
    ),
    (
        "qXfer:threads:read::0,400",
        Packet::Threads(Stretch {
            from: 0,
            length: 1024,
        }),
    ),
    (
        "qXfer:exec-file:read:1:0,ffb",
        Packet::ExecFile {
            process: Some(1),
            part: Stretch {
                from: 0,
                length: 4091,
            },
        },
    ),
    (
        "qXfer:exec-file:read::10,20",
        Packet::ExecFile {
            process: None,
            part: Stretch {
                from: 16,
                length: 32,
            },
        },
    ),
    ("vFile:setfs:0", Packet::SetFileSystem(0)),
    ("vFile:open:2f61,0,1c0", Packet::OpenFile),
    ("vFile:fstat:0", Packet::FileStatus(0)),
    (
        "vFile:pread:0,1000,2000",
        Packet::ReadFile {
            file: 0,
            part: Stretch {
                from: 8192,
                length: 4096,
            },
        },
    ),
    ("vFile:close:0", Packet::CloseFile(0)),
];

#[test]
fn texts_and_files_are_read(rt: HostRuntime) {
    check(&rt, &TEXTS);
}

const COMMANDS: [Case; 6] = [
    ("qRcmd,7768657265", Packet::Monitor(Command::Where)),
    (
        "qRcmd,676f746f20312032",
        Packet::Monitor(Command::Goto { round: 1, made: 2 }),
    ),
    (
        "qRcmd,676F746F2031",
        Packet::Monitor(Command::Goto { round: 1, made: 0 }),
    ),
    ("qRcmd,", Packet::Monitor(Command::Other)),
    ("qRcmd,7", Packet::Malformed),
    ("qRcmd,7g", Packet::Malformed),
];

#[test]
fn a_person_asks(rt: HostRuntime) {
    check(&rt, &COMMANDS);
}

const MALFORMED: [Case; 45] = [
    ("m10000", Packet::Malformed),
    ("m10000,", Packet::Malformed),
    ("m,4", Packet::Malformed),
    ("m10000,4,", Packet::Malformed),
    ("m123456789,4", Packet::Malformed),
    ("m 1,1", Packet::Malformed),
    ("mg,1", Packet::Malformed),
    ("p", Packet::Malformed),
    ("p-1", Packet::Malformed),
    ("p123456789", Packet::Malformed),
    ("T", Packet::Malformed),
    ("Tp1.", Packet::Malformed),
    ("Tp.1", Packet::Malformed),
    ("Hg", Packet::Malformed),
    ("Hgp1.x", Packet::Malformed),
    ("Hcp", Packet::Malformed),
    ("Z0", Packet::Malformed),
    ("Z0,10000", Packet::Malformed),
    ("Z0,10000,4;X1,0", Packet::Malformed),
    ("z2,10050,", Packet::Malformed),
    ("gg", Packet::Malformed),
    ("c10000", Packet::Malformed),
    ("bcx", Packet::Malformed),
    ("kk", Packet::Malformed),
    ("D2", Packet::Malformed),
    ("D;", Packet::Malformed),
    ("qAttached:", Packet::Malformed),
    ("vCont", Packet::Malformed),
    ("vCont;", Packet::Malformed),
    ("vCont;c;", Packet::Malformed),
    ("vCont;x", Packet::Malformed),
    ("vCont;C5", Packet::Malformed),
    ("vCont;r1", Packet::Malformed),
    ("vCont;c:", Packet::Malformed),
    ("vCont?x", Packet::Malformed),
    ("vKill;", Packet::Malformed),
    ("vKill;x", Packet::Malformed),
    ("qXfer:threads:read::0", Packet::Malformed),
    ("qXfer:features:read:target.xml:0;1", Packet::Malformed),
    ("qXfer:exec-file:read:0,1", Packet::Malformed),
    ("vFile:setfs:", Packet::Malformed),
    ("vFile:open:2f6", Packet::Malformed),
    ("vFile:open:2f61", Packet::Malformed),
    ("vFile:pread:0,1", Packet::Malformed),
    ("vFile:fstat:x", Packet::Malformed),
];

#[test]
fn what_does_not_go_on_is_malformed(rt: HostRuntime) {
    check(&rt, &MALFORMED);
}

const UNKNOWN: [Case; 32] = [
    ("", Packet::Unknown),
    ("vMustReplyEmpty", Packet::Unknown),
    ("qTStatus", Packet::Unknown),
    ("qOffsets", Packet::Unknown),
    ("qSymbol::", Packet::Unknown),
    ("X10000,0:", Packet::Unknown),
    ("qCRC:10000,4", Packet::Unknown),
    ("qfThreadInfoX", Packet::Unknown),
    ("QStartNoAckModes", Packet::Unknown),
    ("qSupportedx", Packet::Unknown),
    ("vContx", Packet::Unknown),
    ("vCtrlC", Packet::Unknown),
    ("vKill", Packet::Unknown),
    ("vRun;", Packet::Unknown),
    ("H", Packet::Unknown),
    ("Hx1", Packet::Unknown),
    ("b", Packet::Unknown),
    ("v", Packet::Unknown),
    ("q", Packet::Unknown),
    ("Q", Packet::Unknown),
    ("C05", Packet::Unknown),
    ("S05", Packet::Unknown),
    ("!", Packet::Unknown),
    ("R00", Packet::Unknown),
    ("i", Packet::Unknown),
    ("qXfer:memory-map:read::0,1000", Packet::Unknown),
    ("qXfer:threads:write::0:", Packet::Unknown),
    ("vFile:unlink:2f61", Packet::Unknown),
    ("qRcmd", Packet::Unknown),
    ("QThreadSuffixSupported", Packet::Unknown),
    ("qL1200000000000000000", Packet::Unknown),
    ("$", Packet::Unknown),
];

#[test]
fn other_packets_are_unknown(rt: HostRuntime) {
    check(&rt, &UNKNOWN);
}
