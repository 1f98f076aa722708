//! Refusals, each with its status and its line.
use crate::printed::has;
use dos_io::MemorySink;
use dos_texts::{Refusal, put_refusal};
use dos_world::{Ending, Misfit, Question};
use elf_image::ImageError;
use group_files::SavedRefusal;
use group_text::GroupRefusal;
use log_files::LogRefusal;
use log_text::LogError;
use std::alloc::Global;
use std::process::Abort;

// The status of a refusal, and its line in a sink of its own, which fails at these calls.
fn says(rt: &impl Abort, alloc: Global, failing: &[u32], refusal: Refusal, status: u8, line: &str) {
    let mut err = MemorySink::new(alloc, 192, failing).expect(rt, "memory");
    let said = put_refusal(refusal, &mut err);
    has(rt, &err, line);
    drop(err);
    assert_eq!(rt; said, status);
}

/// Puts the line of each refusal to a sink of its own.
fn say(rt: &impl Abort, alloc: Global, rows: &[(Refusal, u8, &str)]) {
    for (refusal, status, line) in rows {
        says(rt, alloc, &[], *refusal, *status, line);
    }
}

#[test]
fn plain_refusals(rt: HostRuntime) {
    let rows = [
        (Refusal::Words, 2, "dos: words refused\n"),
        (Refusal::Files, 5, "dos: file fault\n"),
        (Refusal::Host, 5, "dos: host fault\n"),
        (Refusal::Sink, 6, ""),
        (Refusal::Memory, 9, "dos: out of memory\n"),
        (Refusal::LogFull, 10, "dos: log full\n"),
    ];
    say(&rt, rt.alloc(), &rows);
}

#[test]
fn refusals_of_images(rt: HostRuntime) {
    let rows = [
        (Refusal::TooLong(2), 3, "dos: image 2 too long\n"),
        (
            Refusal::Image(1, ImageError::Short),
            3,
            "dos: image 1 refused 1\n",
        ),
        (
            Refusal::Image(8, ImageError::Entry),
            3,
            "dos: image 8 refused 14\n",
        ),
        (
            Refusal::Image(1, ImageError::Segment(0)),
            3,
            "dos: image 1 refused 11 at 0\n",
        ),
        (
            Refusal::Image(4294967295, ImageError::Overlap(62, 63)),
            3,
            "dos: image 4294967295 refused 12 at 62 and 63\n",
        ),
        (
            Refusal::NoRoom(18446744073709551615, 16384),
            3,
            "dos: needs 18446744073709551615 frames, has 16384\n",
        ),
    ];
    say(&rt, rt.alloc(), &rows);
}

#[test]
fn refusals_of_logs(rt: HostRuntime) {
    let rows = [
        (Refusal::Log(LogRefusal::TooLong), 4, "dos: log too long\n"),
        (
            Refusal::Log(LogRefusal::Refused(LogError::Short(58))),
            4,
            "dos: log refused: short at 58\n",
        ),
        (
            Refusal::Log(LogRefusal::Refused(LogError::Magic)),
            4,
            "dos: log refused: magic\n",
        ),
        (
            Refusal::Log(LogRefusal::Refused(LogError::Version(65535))),
            4,
            "dos: log refused: version 65535\n",
        ),
        (
            Refusal::Log(LogRefusal::Refused(LogError::Header(8))),
            4,
            "dos: log refused: header at 8\n",
        ),
        (
            Refusal::Log(LogRefusal::Refused(LogError::Entry(52))),
            4,
            "dos: log refused: entry at 52\n",
        ),
        (
            Refusal::Log(LogRefusal::Refused(LogError::AfterEnd(64))),
            4,
            "dos: log refused: after end at 64\n",
        ),
        (
            Refusal::Log(LogRefusal::Images(1, 2)),
            4,
            "dos: log has 1 images, given 2\n",
        ),
        (
            Refusal::Log(LogRefusal::Digest(1, [0x0a; 32], [0x9c; 32])),
            4,
            "\
                dos: image 1 has digest \
                0a0a0a0a0a0a0a0a0a0a0a0a0a0a0a0a0a0a0a0a0a0a0a0a0a0a0a0a0a0a0a0a, \
                log has 9c9c9c9c9c9c9c9c9c9c9c9c9c9c9c9c9c9c9c9c9c9c9c9c9c9c9c9c9c9c9c9c\n",
        ),
    ];
    say(&rt, rt.alloc(), &rows);
}

#[test]
fn refusals_of_saved_groups(rt: HostRuntime) {
    let rows = [
        (
            Refusal::Group(SavedRefusal::TooLong),
            11,
            "dos: group too long\n",
        ),
        (
            Refusal::Group(SavedRefusal::Refused(GroupRefusal::Short(0))),
            11,
            "dos: group refused: short at 0\n",
        ),
        (
            Refusal::Group(SavedRefusal::Refused(GroupRefusal::Short(83886080))),
            11,
            "dos: group refused: short at 83886080\n",
        ),
        (
            Refusal::Group(SavedRefusal::Refused(GroupRefusal::Magic)),
            11,
            "dos: group refused: magic\n",
        ),
        (
            Refusal::Group(SavedRefusal::Refused(GroupRefusal::Version(65535))),
            11,
            "dos: group refused: version 65535\n",
        ),
        (
            Refusal::Group(SavedRefusal::Refused(GroupRefusal::Field(18446744073709551615))),
            11,
            "dos: group refused: field at 18446744073709551615\n",
        ),
        (
            Refusal::Group(SavedRefusal::Refused(GroupRefusal::AfterEnd(285))),
            11,
            "dos: group refused: after end at 285\n",
        ),
        (
            Refusal::Group(SavedRefusal::Unlawful),
            11,
            "dos: group refused: unlawful\n",
        ),
        (
            Refusal::Group(SavedRefusal::OtherLog),
            11,
            "dos: group is of another log\n",
        ),
    ];
    say(&rt, rt.alloc(), &rows);
}

/// The refusal of a run that asks for `asked` where its log has `kept`.
fn differs(entry: u32, kept: Question, asked: Question) -> Refusal {
    Refusal::Misfit(Misfit { entry, kept, asked })
}

#[test]
fn misfits(rt: HostRuntime) {
    let signals = Question::Signals { round: 2 };
    let clock = Question::Clock { round: 3, tid: 2 };
    let input = Question::Input {
        round: 3,
        tid: 1,
        max: 64,
    };
    let done = Question::End {
        ending: Ending::Done,
        rounds: 1,
    };
    let limit = Question::End {
        ending: Ending::Limit,
        rounds: 100000,
    };
    let stalled = Question::End {
        ending: Ending::Stalled,
        rounds: 4294967295,
    };
    let rows = [
        (
            differs(12, input, clock),
            4,
            "dos: log entry 12 is input round 3 thread 1 max 64, asked clock round 3 thread 2\n",
        ),
        (
            differs(1, done, limit),
            4,
            "dos: log entry 1 is end done rounds 1, asked end limit rounds 100000\n",
        ),
        (
            differs(4294967295, stalled, signals),
            4,
            "dos: log entry 4294967295 is end stalled rounds 4294967295, asked signals round 2\n",
        ),
    ];
    say(&rt, rt.alloc(), &rows);
}

#[test]
fn a_line_that_is_not_taken_is_a_fault(rt: HostRuntime) {
    says(&rt, rt.alloc(), &[1], Refusal::Words, 6, "");
    let unlawful = Refusal::Group(SavedRefusal::Unlawful);
    says(&rt, rt.alloc(), &[1], unlawful, 6, "");
}
