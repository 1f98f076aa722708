//! Where a session stands.
use crate::checks::same_lines;
use debug_where::{Here, Next, where_lines};
use dos_world::{Ending, Misfit, Question};
use group_walk::{MoveKind, Phase};
use std::alloc::Global;
use std::process::Abort;

fn check_here(rt: &impl Abort, alloc: Global, here: &Here, wanted: &[&str]) {
    let lines = where_lines(alloc, here).expect(rt, "memory");
    same_lines(rt, &lines, wanted);
}

#[test]
fn a_move_follows(rt: HostRuntime) {
    let race = Here {
        begun: 3,
        made: 2,
        phase: Phase::Serial,
        last: Some(MoveKind::Runs { thread: 2 }),
        next: Next::Follows(MoveKind::IsServed { thread: 1 }),
        used: 4,
        entries: 6,
    };
    let lines = [
        "round 3 move 2, serial phase\n",
        "last: thread 2 runs an instruction\n",
        "next: thread 1 is served\n",
        "log entry 4 of 6\n",
    ];
    check_here(&rt, rt.alloc(), &race, &lines);
    let fault = Here {
        begun: 1,
        made: 0,
        phase: Phase::Parallel,
        last: Some(MoveKind::Begins),
        next: Next::Follows(MoveKind::Faults {
            thread: 1,
            number: 11,
        }),
        used: 1,
        entries: 2,
    };
    let lines = [
        "round 1 move 0, parallel phase\n",
        "last: a round begins\n",
        "next: thread 1 faults with 11\n",
        "log entry 1 of 2\n",
    ];
    check_here(&rt, rt.alloc(), &fault, &lines);
}

fn ended(ending: Ending) -> Here {
    Here {
        begun: 2,
        made: 0,
        phase: Phase::Ended(ending),
        last: Some(MoveKind::Begins),
        next: Next::HasEnded(ending),
        used: 2,
        entries: 3,
    }
}

fn check_ended(rt: &impl Abort, alloc: Global, ending: Ending, next: &str) {
    let lines = [
        "round 2 move 0, between rounds\n",
        "last: a round begins\n",
        next,
        "log entry 2 of 3\n",
    ];
    check_here(rt, alloc, &ended(ending), &lines);
}

#[test]
fn the_run_has_ended(rt: HostRuntime) {
    let alloc = rt.alloc();
    check_ended(&rt, alloc, Ending::Done, "next: none, the group is done\n");
    check_ended(
        &rt,
        alloc,
        Ending::Stalled,
        "next: none, the group is stalled\n",
    );
    check_ended(
        &rt,
        alloc,
        Ending::Limit,
        "next: none, the group is at its limit\n",
    );
}

fn check_misfit(rt: &impl Abort, alloc: Global, kept: Question, next: &str) {
    let here = Here {
        begun: 0,
        made: 0,
        phase: Phase::Between,
        last: None,
        next: Next::Misfits(Some(Misfit {
            entry: 0,
            kept,
            asked: Question::Signals { round: 1 },
        })),
        used: 0,
        entries: 2,
    };
    let lines = [
        "round 0 move 0, between rounds\n",
        "last: none\n",
        next,
        "log entry 0 of 2\n",
    ];
    check_here(rt, alloc, &here, &lines);
}

#[test]
fn the_log_misfits(rt: HostRuntime) {
    let alloc = rt.alloc();
    check_misfit(
        &rt,
        alloc,
        Question::Signals { round: 2 },
        "next: none, log entry 0 is signals round 2, asked signals round 1\n",
    );
    let input = Question::Input {
        round: 1,
        tid: 2,
        max: 64,
    };
    check_misfit(
        &rt,
        alloc,
        input,
        "next: none, log entry 0 is input round 1 thread 2 max 64, asked signals round 1\n",
    );
    let clock = Question::Clock { round: 1, tid: 2 };
    check_misfit(
        &rt,
        alloc,
        clock,
        "next: none, log entry 0 is clock round 1 thread 2, asked signals round 1\n",
    );
    let end = Question::End {
        ending: Ending::Limit,
        rounds: 9,
    };
    check_misfit(
        &rt,
        alloc,
        end,
        "next: none, log entry 0 is end limit rounds 9, asked signals round 1\n",
    );
}
