//! What the server can, and what a person may ask of it.
use crate::checks::same_text;
use debug_answers::{put_command_forms, put_features, put_goal_form, put_goal_line, put_page_form};
use std::alloc::Global;
use std::process::Abort;

fn check_features(rt: &impl Abort, alloc: Global, is_told_forks: bool, wanted: &str) {
    let mut out = Vec::new(alloc);
    put_features(&mut out, is_told_forks).expect(rt, "memory");
    same_text(rt, out.as_slice(), wanted);
}

#[test]
fn forks_are_told_to_who_knows_them(rt: HostRuntime) {
    check_features(
        &rt,
        rt.alloc(),
        false,
        "PacketSize=4000;QStartNoAckMode+;multiprocess+;swbreak+;ReverseStep+;\
        ReverseContinue+;vContSupported+;qXfer:features:read+;qXfer:exec-file:read+;\
        qXfer:threads:read+",
    );
    check_features(
        &rt,
        rt.alloc(),
        true,
        "PacketSize=4000;QStartNoAckMode+;multiprocess+;swbreak+;ReverseStep+;\
        ReverseContinue+;vContSupported+;qXfer:features:read+;qXfer:exec-file:read+;\
        qXfer:threads:read+;fork-events+",
    );
}

fn check_goal(rt: &impl Abort, alloc: Global, round: u64, made: u64, wanted: &str) {
    let mut out = Vec::new(alloc);
    put_goal_line(&mut out, round, made).expect(rt, "memory");
    same_text(rt, out.as_slice(), wanted);
}

#[test]
fn a_goal_is_told(rt: HostRuntime) {
    let alloc = rt.alloc();
    check_goal(
        &rt,
        alloc,
        1,
        2,
        "the next continue goes to round 1 move 2\n",
    );
    check_goal(
        &rt,
        alloc,
        40,
        0,
        "the next continue goes to round 40 move 0\n",
    );
}

fn check_forms(rt: &impl Abort, alloc: Global) {
    let mut out = Vec::new(alloc);
    put_command_forms(&mut out).expect(rt, "memory");
    put_goal_form(&mut out).expect(rt, "memory");
    put_page_form(&mut out).expect(rt, "memory");
    same_text(
        rt,
        out.as_slice(),
        "where, goto ROUND [MOVE], threads, processes, page ADDRESS [PROCESS], \
        pages [PROCESS], pipes, ends [PROCESS], sleepers, output\n\
        goto ROUND [MOVE]\npage ADDRESS [PROCESS]\n",
    );
}

#[test]
fn what_may_be_asked_is_told(rt: HostRuntime) {
    check_forms(&rt, rt.alloc());
}
