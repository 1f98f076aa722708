//! What a person asks by `monitor`.
use crate::checks::same_at;
use gdb_packets::commands::{Command, read_command};

const CASES: [(&str, Command); 30] = [
    ("where", Command::Where),
    ("  where ", Command::Where),
    ("where now", Command::Other),
    ("Where", Command::Other),
    ("goto 3", Command::Goto { round: 3, made: 0 }),
    ("goto 3  17", Command::Goto { round: 3, made: 17 }),
    ("goto 007", Command::Goto { round: 7, made: 0 }),
    (
        "goto 1000000 0",
        Command::Goto {
            round: 1000000,
            made: 0,
        },
    ),
    ("goto", Command::GotoForm),
    ("goto x", Command::GotoForm),
    ("goto 1 x", Command::GotoForm),
    ("goto 1 2 3", Command::GotoForm),
    ("goto -1", Command::GotoForm),
    ("threads", Command::Threads),
    ("processes", Command::Processes),
    (
        "page 10050",
        Command::Page {
            address: 65616,
            process: None,
        },
    ),
    (
        "page 0x10050 2",
        Command::Page {
            address: 65616,
            process: Some(2),
        },
    ),
    ("page", Command::PageForm),
    ("page 0x", Command::PageForm),
    ("page main", Command::PageForm),
    ("pages", Command::Pages(None)),
    ("pages 2", Command::Pages(Some(2))),
    ("pages two", Command::Other),
    ("pipes", Command::Pipes),
    ("ends", Command::Ends(None)),
    ("ends 1", Command::Ends(Some(1))),
    ("sleepers", Command::Sleepers),
    ("output", Command::Output),
    ("", Command::Other),
    ("help", Command::Other),
];

#[test]
fn words_are_commands(rt: HostRuntime) {
    for (text, wanted) in CASES {
        same_at(&rt, read_command(text.as_bytes()), wanted, text);
    }
}
