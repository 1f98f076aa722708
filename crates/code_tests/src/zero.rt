//! A thread that writes x0, in a loop: nothing of it is seen.
use crate::calls::check_twice;
use crate::guests::{Guest, QUIET};

/// Each of six turns writes x0 in nine ways, and adds x0 and 1 to a0: 6.
const OVER_AND_OVER: Guest = Guest {
    code: &[
        (0x10000, 0x0001_02b7), // lui t0, 0x10
        (0x10004, 0x0060_0413), // li s0, 6
        (0x10008, 0x0002_a003), // lw x0, 0(t0)
        (0x1000c, 0x0002_c003), // lbu x0, 0(t0)
        (0x10010, 0x0070_0013), // addi x0, x0, 7
        (0x10014, 0x0001), // c.nop
        (0x10016, 0x0084_0033), // add x0, s0, s0
        (0x1001a, 0x0024_1013), // slli x0, s0, 2
        (0x1001e, 0x0004_5013), // srli x0, s0, 0
        (0x10022, 0x0054_4033), // xor x0, s0, t0
        (0x10026, 0x0084_7033), // and x0, s0, s0
        (0x1002a, 0x0005_0533), // add a0, a0, x0
        (0x1002e, 0x0015_0513), // addi a0, a0, 1
        (0x10032, 0xfff4_0413), // addi s0, s0, -1
        (0x10036, 0xfc04_19e3), // bnez s0, 0x10008
        (0x1003a, 0x0020_0893), // li a7, 2
        (0x1003e, 0x0000_0073), // ecall
    ],
    report: "process 1 status 6\n",
    ..QUIET
};

#[test]
fn over_and_over(rt: HostRuntime) {
    check_twice(&rt, rt.alloc(), &OVER_AND_OVER);
}
