//! Pages in lines.
ghost use Rattle.kernel_calls.specs.StateWorld.{IsSound};

use crate::checks::same_lines;
use crate::group::opened;
use debug_answers::{page_lines, pages_lines};
use kernel_calls::State;
use std::alloc::Global;
use std::process::Abort;

fn check_page(rt: &impl Abort, alloc: Global, state: &State, at: (u32, u32), wanted: &[&str])
    requires { IsSound state.now }
{
    let lines = page_lines(alloc, state, at.0, at.1).expect(rt, "memory");
    same_lines(rt, &lines, wanted);
}

#[test]
fn a_page_is_told(rt: HostRuntime) {
    let state = opened(&rt, rt.alloc());
    let code = ["page 00010000 of process 1: frame 0, owner thread 1, rights rwx, private\n"];
    let top = ["page effff000 of process 1: frame 16, owner thread 1, rights rw-, private\n"];
    let none = ["page 00011000 of process 1 isn't mapped\n"];
    check_page(&rt, rt.alloc(), &state, (1, 0x10008), &code);
    check_page(&rt, rt.alloc(), &state, (1, 0xefff_fff0), &top);
    check_page(&rt, rt.alloc(), &state, (1, 0x11fff), &none);
    check_page(&rt, rt.alloc(), &state, (2, 0x10008), &["no process\n"]);
    drop(state);
}

fn check_pages(rt: &impl Abort, alloc: Global, state: &State, process: u32, wanted: &[&str])
    requires { IsSound state.now }
{
    let lines = pages_lines(alloc, state, process).expect(rt, "memory");
    same_lines(rt, &lines, wanted);
}

#[test]
fn pages_are_told_in_stretches(rt: HostRuntime) {
    let state = opened(&rt, rt.alloc());
    let all = [
        "pages 00010000 to 00010000: frames 0 to 0, owner thread 1, rights rwx, private\n",
        "pages efff0000 to effff000: frames 1 to 16, owner thread 1, rights rw-, private\n",
    ];
    check_pages(&rt, rt.alloc(), &state, 1, &all);
    check_pages(&rt, rt.alloc(), &state, 0, &["no process\n"]);
    drop(state);
}
