//! Registers and memory.
ghost use Rattle.kernel_calls.specs.StateWorld.{IsSound};

use crate::checks::same_text;
use crate::group::opened;
use debug_answers::{put_memory, put_register, put_registers};
use kernel_calls::State;
use std::alloc::Global;
use std::process::Abort;

fn check_register(rt: &impl Abort, alloc: Global, state: &State, number: u32, wanted: &str)
    requires { IsSound state.now }
{
    let mut out = Vec::new(alloc);
    put_register(&mut out, state, true, 1, number).expect(rt, "memory");
    same_text(rt, out.as_slice(), wanted);
}

fn check_memory(rt: &impl Abort, alloc: Global, state: &State, part: (u32, u32), wanted: &str)
    requires { IsSound state.now }
{
    let mut out = Vec::new(alloc);
    put_memory(&mut out, state, 1, part.0, part.1).expect(rt, "memory");
    same_text(rt, out.as_slice(), wanted);
}

#[test]
fn a_register_is_told(rt: HostRuntime) {
    let state = opened(&rt, rt.alloc());
    check_register(&rt, rt.alloc(), &state, 0, "00000000");
    check_register(&rt, rt.alloc(), &state, 2, "f0ffffef");
    check_register(&rt, rt.alloc(), &state, 0x20, "00000100");
    check_register(&rt, rt.alloc(), &state, 0x21, "E01");
    drop(state);
}

const BEGUN: &str = "0000000000000000f0ffffef0000000000000000000000000000000000000000\
    0000000000000000000000000000000000000000000000000000000000000000\
    0000000000000000000000000000000000000000000000000000000000000000\
    0000000000000000000000000000000000000000000000000000000000000000\
    00000100";

const UNKNOWN: &str = "xxxxxxxxxxxxxxxxxxxxxxxxxxxxxxxxxxxxxxxxxxxxxxxxxxxxxxxxxxxxxxxx\
    xxxxxxxxxxxxxxxxxxxxxxxxxxxxxxxxxxxxxxxxxxxxxxxxxxxxxxxxxxxxxxxx\
    xxxxxxxxxxxxxxxxxxxxxxxxxxxxxxxxxxxxxxxxxxxxxxxxxxxxxxxxxxxxxxxx\
    xxxxxxxxxxxxxxxxxxxxxxxxxxxxxxxxxxxxxxxxxxxxxxxxxxxxxxxxxxxxxxxx\
    xxxxxxxx";

fn check_all(
    rt: &impl Abort,
    alloc: Global,
    state: &State,
    is_listed: bool,
    thread: u32,
    wanted: &str,
)
    requires { IsSound state.now }
{
    let mut out = Vec::new(alloc);
    put_registers(&mut out, state, is_listed, thread).expect(rt, "memory");
    same_text(rt, out.as_slice(), wanted);
}

#[test]
fn all_registers_are_told(rt: HostRuntime) {
    let state = opened(&rt, rt.alloc());
    check_all(&rt, rt.alloc(), &state, true, 1, BEGUN);
    check_all(&rt, rt.alloc(), &state, true, 2, UNKNOWN);
    check_all(&rt, rt.alloc(), &state, false, 2, "E01");
    drop(state);
}

#[test]
fn memory_is_told_as_far_as_it_is_mapped(rt: HostRuntime) {
    let state = opened(&rt, rt.alloc());
    check_memory(
        &rt,
        rt.alloc(),
        &state,
        (0x10000, 12),
        "930820001305700073000000",
    );
    check_memory(&rt, rt.alloc(), &state, (0x10ffe, 8), "0000");
    check_memory(&rt, rt.alloc(), &state, (0xfffc, 8), "E0e");
    check_memory(&rt, rt.alloc(), &state, (0xfffc, 0), "");
    check_memory(&rt, rt.alloc(), &state, (0xefff0ffe, 4), "00000000");
    drop(state);
}
