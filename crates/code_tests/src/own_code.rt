//! A thread that stores over its own code: over its next instruction, further down, behind, on
//! other pages and back, and over and over.
use crate::calls::{check_in_both, check_twice};
use crate::guests::{Guest, QUIET};

/// Each of six turns stores over the instruction behind the store, which adds 10 and 1 in turn: 33.
const OVER_THE_NEXT: Guest = Guest {
    code: &[
        (0x10000, 0x0001_02b7), // lui t0, 0x10
        (0x10004, 0x0342_a303), // lw t1, 0x34(t0)
        (0x10008, 0x0302_a383), // lw t2, 0x30(t0)
        (0x1000c, 0x0063_c3b3), // xor t2, t2, t1
        (0x10010, 0x0060_0413), // li s0, 6
        (0x10014, 0x0062_ac23), // sw t1, 0x18(t0)
        (0x10018, 0x0645_0513), // addi a0, a0, 100
        (0x1001c, 0x0073_4333), // xor t1, t1, t2
        (0x10020, 0xfff4_0413), // addi s0, s0, -1
        (0x10024, 0xfe04_18e3), // bnez s0, 0x10014
        (0x10028, 0x0020_0893), // li a7, 2
        (0x1002c, 0x0000_0073), // ecall
        (0x10030, 0x0015_0513), // addi a0, a0, 1
        (0x10034, 0x00a5_0513), // addi a0, a0, 10
    ],
    report: "process 1 status 33\n",
    ..QUIET
};

#[test]
fn over_the_next(rt: HostRuntime) {
    check_twice(&rt, rt.alloc(), &OVER_THE_NEXT);
}

/// The same where five instructions stand between the store and the one that is stored over.
const FURTHER_DOWN: Guest = Guest {
    code: &[
        (0x10000, 0x0001_02b7), // lui t0, 0x10
        (0x10004, 0x0482_a303), // lw t1, 0x48(t0)
        (0x10008, 0x0442_a383), // lw t2, 0x44(t0)
        (0x1000c, 0x0063_c3b3), // xor t2, t2, t1
        (0x10010, 0x0060_0413), // li s0, 6
        (0x10014, 0x0262_a623), // sw t1, 0x2c(t0)
        (0x10018, 0x0015_8593), // addi a1, a1, 1
        (0x1001c, 0x0015_8593), // addi a1, a1, 1
        (0x10020, 0x0015_8593), // addi a1, a1, 1
        (0x10024, 0x0015_8593), // addi a1, a1, 1
        (0x10028, 0x0015_8593), // addi a1, a1, 1
        (0x1002c, 0x0645_0513), // addi a0, a0, 100
        (0x10030, 0x0073_4333), // xor t1, t1, t2
        (0x10034, 0xfff4_0413), // addi s0, s0, -1
        (0x10038, 0xfc04_1ee3), // bnez s0, 0x10014
        (0x1003c, 0x0020_0893), // li a7, 2
        (0x10040, 0x0000_0073), // ecall
        (0x10044, 0x0015_0513), // addi a0, a0, 1
        (0x10048, 0x00a5_0513), // addi a0, a0, 10
    ],
    report: "process 1 status 33\n",
    ..QUIET
};

#[test]
fn further_down(rt: HostRuntime) {
    check_twice(&rt, rt.alloc(), &FURTHER_DOWN);
}

/// Of a loop's eight turns the third stores over its first instruction, which adds 1 three times
/// and then 10 five times: 53.
const BEHIND: Guest = Guest {
    code: &[
        (0x10000, 0x0001_02b7), // lui t0, 0x10
        (0x10004, 0x02c2_a303), // lw t1, 0x2c(t0)
        (0x10008, 0x0080_0413), // li s0, 8
        (0x1000c, 0x0050_0493), // li s1, 5
        (0x10010, 0x0015_0513), // addi a0, a0, 1
        (0x10014, 0xfff4_0413), // addi s0, s0, -1
        (0x10018, 0x0094_1463), // bne s0, s1, 0x10020
        (0x1001c, 0x0062_a823), // sw t1, 0x10(t0)
        (0x10020, 0xfe04_18e3), // bnez s0, 0x10010
        (0x10024, 0x0020_0893), // li a7, 2
        (0x10028, 0x0000_0073), // ecall
        (0x1002c, 0x00a5_0513), // addi a0, a0, 10
    ],
    report: "process 1 status 53\n",
    ..QUIET
};

#[test]
fn behind(rt: HostRuntime) {
    check_twice(&rt, rt.alloc(), &BEHIND);
}

/// A store over itself: of the three turns the second and the third add 7: 14.
const ITSELF: Guest = Guest {
    code: &[
        (0x10000, 0x0001_02b7), // lui t0, 0x10
        (0x10004, 0x0202_a303), // lw t1, 0x20(t0)
        (0x10008, 0x0030_0413), // li s0, 3
        (0x1000c, 0x0062_a623), // sw t1, 0xc(t0)
        (0x10010, 0xfff4_0413), // addi s0, s0, -1
        (0x10014, 0xfe04_1ce3), // bnez s0, 0x1000c
        (0x10018, 0x0020_0893), // li a7, 2
        (0x1001c, 0x0000_0073), // ecall
        (0x10020, 0x0075_0513), // addi a0, a0, 7
    ],
    report: "process 1 status 14\n",
    ..QUIET
};

#[test]
fn itself(rt: HostRuntime) {
    check_twice(&rt, rt.alloc(), &ITSELF);
}

/// A call of an instruction that was stored anew, and one of it as it stood before, three times
/// both: 33.
const THERE_AND_BACK: Guest = Guest {
    code: &[
        (0x10000, 0x0001_02b7), // lui t0, 0x10
        (0x10004, 0x0382_a303), // lw t1, 0x38(t0)
        (0x10008, 0x0302_a383), // lw t2, 0x30(t0)
        (0x1000c, 0x0030_0413), // li s0, 3
        (0x10010, 0x0262_a823), // sw t1, 0x30(t0)
        (0x10014, 0x01c0_00ef), // jal ra, 0x10030
        (0x10018, 0x0272_a823), // sw t2, 0x30(t0)
        (0x1001c, 0x0140_00ef), // jal ra, 0x10030
        (0x10020, 0xfff4_0413), // addi s0, s0, -1
        (0x10024, 0xfe04_16e3), // bnez s0, 0x10010
        (0x10028, 0x0020_0893), // li a7, 2
        (0x1002c, 0x0000_0073), // ecall
        (0x10030, 0x0015_0513), // addi a0, a0, 1
        (0x10034, 0x0000_8067), // ret
        (0x10038, 0x00a5_0513), // addi a0, a0, 10
    ],
    report: "process 1 status 33\n",
    ..QUIET
};

#[test]
fn there_and_back(rt: HostRuntime) {
    check_twice(&rt, rt.alloc(), &THERE_AND_BACK);
}

/// A jump that goes elsewhere in its second turn: 1 and 10, and then 1 and 100: 112.
const A_JUMP: Guest = Guest {
    code: &[
        (0x10000, 0x0001_02b7), // lui t0, 0x10
        (0x10004, 0x0282_a303), // lw t1, 0x28(t0)
        (0x10008, 0x0015_0513), // addi a0, a0, 1
        (0x1000c, 0x0040_006f), // j 0x10010
        (0x10010, 0x00a5_0513), // addi a0, a0, 10
        (0x10014, 0x0062_a623), // sw t1, 0xc(t0)
        (0x10018, 0xff1f_f06f), // j 0x10008
        (0x1001c, 0x0645_0513), // addi a0, a0, 100
        (0x10020, 0x0020_0893), // li a7, 2
        (0x10024, 0x0000_0073), // ecall
        (0x10028, 0x0100_006f), // j .+16; the jump from 0x1000c to 0x1001c
    ],
    report: "process 1 status 112\n",
    ..QUIET
};

#[test]
fn a_jump(rt: HostRuntime) {
    check_twice(&rt, rt.alloc(), &A_JUMP);
}

/// A call for the thread's number, which is 1, over it 5 more, and the call again: 1, 6 and 1, so
/// 8.
const A_SERVICE: Guest = Guest {
    code: &[
        (0x10000, 0x0001_02b7), // lui t0, 0x10
        (0x10004, 0x03c2_a303), // lw t1, 0x3c(t0)
        (0x10008, 0x0182_a383), // lw t2, 0x18(t0)
        (0x1000c, 0x0063_c3b3), // xor t2, t2, t1
        (0x10010, 0x0150_0893), // li a7, 21
        (0x10014, 0x0030_0413), // li s0, 3
        (0x10018, 0x0000_0073), // ecall
        (0x1001c, 0x00a4_84b3), // add s1, s1, a0
        (0x10020, 0x0062_ac23), // sw t1, 0x18(t0)
        (0x10024, 0x0073_4333), // xor t1, t1, t2
        (0x10028, 0xfff4_0413), // addi s0, s0, -1
        (0x1002c, 0xfe04_16e3), // bnez s0, 0x10018
        (0x10030, 0x0004_8513), // mv a0, s1
        (0x10034, 0x0020_0893), // li a7, 2
        (0x10038, 0x0000_0073), // ecall
        (0x1003c, 0x0055_0513), // addi a0, a0, 5
    ],
    report: "process 1 status 8\n",
    ..QUIET
};

#[test]
fn a_service(rt: HostRuntime) {
    check_in_both(&rt, rt.alloc(), &A_SERVICE);
}

/// A store of a word that is no instruction: 132.
const INTO_NONE: Guest = Guest {
    code: &[
        (0x10000, 0x0001_02b7), // lui t0, 0x10
        (0x10004, 0x0020_0413), // li s0, 2
        (0x10008, 0x0015_0513), // addi a0, a0, 1
        (0x1000c, 0xfff4_0413), // addi s0, s0, -1
        (0x10010, 0x0002_a423), // sw zero, 0x8(t0)
        (0x10014, 0xfe04_1ae3), // bnez s0, 0x10008
        (0x10018, 0x0020_0893), // li a7, 2
        (0x1001c, 0x0000_0073), // ecall
    ],
    report: "process 1 status 132\n",
    ..QUIET
};

#[test]
fn into_none(rt: HostRuntime) {
    check_twice(&rt, rt.alloc(), &INTO_NONE);
}

/// Six turns store over an instruction on the next page and call it: it adds 10 and 1 in turn, 33.
const ON_ANOTHER_PAGE: Guest = Guest {
    code: &[
        (0x10000, 0x0001_02b7), // lui t0, 0x10
        (0x10004, 0x0001_1e37), // lui t3, 0x11
        (0x10008, 0x0382_a303), // lw t1, 0x38(t0)
        (0x1000c, 0x0342_a383), // lw t2, 0x34(t0)
        (0x10010, 0x0063_c3b3), // xor t2, t2, t1
        (0x10014, 0x0060_0413), // li s0, 6
        (0x10018, 0x006e_2023), // sw t1, 0(t3)
        (0x1001c, 0x000e_00e7), // jalr ra, 0(t3)
        (0x10020, 0x0073_4333), // xor t1, t1, t2
        (0x10024, 0xfff4_0413), // addi s0, s0, -1
        (0x10028, 0xfe04_18e3), // bnez s0, 0x10018
        (0x1002c, 0x0020_0893), // li a7, 2
        (0x10030, 0x0000_0073), // ecall
        (0x10034, 0x0015_0513), // addi a0, a0, 1
        (0x10038, 0x00a5_0513), // addi a0, a0, 10
        (0x11000, 0x0645_0513), // addi a0, a0, 100
        (0x11004, 0x0000_8067), // ret
    ],
    report: "process 1 status 33\n",
    ..QUIET
};

#[test]
fn on_another_page(rt: HostRuntime) {
    check_twice(&rt, rt.alloc(), &ON_ANOTHER_PAGE);
}

/// Six calls of code on the next page, which stores over the instruction behind the call: 33.
const FROM_ANOTHER_PAGE: Guest = Guest {
    code: &[
        (0x10000, 0x0001_02b7), // lui t0, 0x10
        (0x10004, 0x0001_1e37), // lui t3, 0x11
        (0x10008, 0x0342_a303), // lw t1, 0x34(t0)
        (0x1000c, 0x0302_a383), // lw t2, 0x30(t0)
        (0x10010, 0x0063_c3b3), // xor t2, t2, t1
        (0x10014, 0x0060_0413), // li s0, 6
        (0x10018, 0x000e_00e7), // jalr ra, 0(t3)
        (0x1001c, 0x0645_0513), // addi a0, a0, 100
        (0x10020, 0xfff4_0413), // addi s0, s0, -1
        (0x10024, 0xfe04_1ae3), // bnez s0, 0x10018
        (0x10028, 0x0020_0893), // li a7, 2
        (0x1002c, 0x0000_0073), // ecall
        (0x10030, 0x0015_0513), // addi a0, a0, 1
        (0x10034, 0x00a5_0513), // addi a0, a0, 10
        (0x11000, 0x0062_ae23), // sw t1, 0x1c(t0)
        (0x11004, 0x0073_4333), // xor t1, t1, t2
        (0x11008, 0x0000_8067), // ret
    ],
    report: "process 1 status 33\n",
    ..QUIET
};

#[test]
fn from_another_page(rt: HostRuntime) {
    check_twice(&rt, rt.alloc(), &FROM_ANOTHER_PAGE);
}

/// The code of each of two pages stores over an instruction of the other, and both are run in each
/// of six turns: twice 33.
const OF_TWO_PAGES: Guest = Guest {
    code: &[
        (0x10000, 0x0001_02b7), // lui t0, 0x10
        (0x10004, 0x0001_1e37), // lui t3, 0x11
        (0x10008, 0x03c2_a303), // lw t1, 0x3c(t0)
        (0x1000c, 0x0382_a383), // lw t2, 0x38(t0)
        (0x10010, 0x0063_c3b3), // xor t2, t2, t1
        (0x10014, 0x0060_0413), // li s0, 6
        (0x10018, 0x006e_2023), // sw t1, 0(t3)
        (0x1001c, 0x000e_00e7), // jalr ra, 0(t3)
        (0x10020, 0x0645_0513), // addi a0, a0, 100
        (0x10024, 0x0073_4333), // xor t1, t1, t2
        (0x10028, 0xfff4_0413), // addi s0, s0, -1
        (0x1002c, 0xfe04_16e3), // bnez s0, 0x10018
        (0x10030, 0x0020_0893), // li a7, 2
        (0x10034, 0x0000_0073), // ecall
        (0x10038, 0x0015_0513), // addi a0, a0, 1
        (0x1003c, 0x00a5_0513), // addi a0, a0, 10
        (0x11000, 0x0645_0513), // addi a0, a0, 100
        (0x11004, 0x0262_a023), // sw t1, 0x20(t0)
        (0x11008, 0x0000_8067), // ret
    ],
    report: "process 1 status 66\n",
    ..QUIET
};

#[test]
fn of_two_pages(rt: HostRuntime) {
    check_twice(&rt, rt.alloc(), &OF_TWO_PAGES);
}

/// A straight run goes on from one page to the next, over whose first instruction it has stored:
/// 33.
const ON_TO_THE_NEXT_PAGE: Guest = Guest {
    code: &[
        (0x10000, 0x0001_02b7), // lui t0, 0x10
        (0x10004, 0x0001_1e37), // lui t3, 0x11
        (0x10008, 0x0202_a303), // lw t1, 0x20(t0)
        (0x1000c, 0x01c2_a383), // lw t2, 0x1c(t0)
        (0x10010, 0x0063_c3b3), // xor t2, t2, t1
        (0x10014, 0x0060_0413), // li s0, 6
        (0x10018, 0x7e10_006f), // j 0x10ff8
        (0x1001c, 0x0015_0513), // addi a0, a0, 1
        (0x10020, 0x00a5_0513), // addi a0, a0, 10
        (0x10ff8, 0x006e_2023), // sw t1, 0(t3)
        (0x10ffc, 0x0073_4333), // xor t1, t1, t2
        (0x11000, 0x0645_0513), // addi a0, a0, 100
        (0x11004, 0xfff4_0413), // addi s0, s0, -1
        (0x11008, 0xfe04_18e3), // bnez s0, 0x10ff8
        (0x1100c, 0x0020_0893), // li a7, 2
        (0x11010, 0x0000_0073), // ecall
    ],
    report: "process 1 status 33\n",
    ..QUIET
};

#[test]
fn on_to_the_next_page(rt: HostRuntime) {
    check_twice(&rt, rt.alloc(), &ON_TO_THE_NEXT_PAGE);
}

/// Two instructions at one offset of pages that are 64 pages apart, of which first the one and then
/// the other is stored over: 1 and 2, 1 and 20, 10 and 20, so 54.
const FAR_APART: Guest = Guest {
    code: &[
        // maps 0x50000
        (0x10000, 0x0005_0537), // lui a0, 0x50
        (0x10004, 0x0010_0593), // li a1, 1
        (0x10008, 0x0070_0613), // li a2, 7
        (0x1000c, 0x00d0_0893), // li a7, 13
        (0x10010, 0x0000_0073), // ecall
        (0x10014, 0x0001_02b7), // lui t0, 0x10
        (0x10018, 0x0005_0e37), // lui t3, 0x50
        (0x1001c, 0x05c2_a303), // lw t1, 0x5c(t0)
        (0x10020, 0x106e_2023), // sw t1, 0x100(t3)
        (0x10024, 0x1042_a303), // lw t1, 0x104(t0)
        (0x10028, 0x106e_2223), // sw t1, 0x104(t3)
        (0x1002c, 0x1002_80e7), // jalr ra, 0x100(t0)
        (0x10030, 0x100e_00e7), // jalr ra, 0x100(t3)
        (0x10034, 0x0642_a303), // lw t1, 0x64(t0)
        (0x10038, 0x106e_2023), // sw t1, 0x100(t3)
        (0x1003c, 0x1002_80e7), // jalr ra, 0x100(t0)
        (0x10040, 0x100e_00e7), // jalr ra, 0x100(t3)
        (0x10044, 0x0602_a303), // lw t1, 0x60(t0)
        (0x10048, 0x1062_a023), // sw t1, 0x100(t0)
        (0x1004c, 0x1002_80e7), // jalr ra, 0x100(t0)
        (0x10050, 0x100e_00e7), // jalr ra, 0x100(t3)
        (0x10054, 0x0020_0893), // li a7, 2
        (0x10058, 0x0000_0073), // ecall
        (0x1005c, 0x0025_0513), // addi a0, a0, 2
        (0x10060, 0x00a5_0513), // addi a0, a0, 10
        (0x10064, 0x0145_0513), // addi a0, a0, 20
        (0x10100, 0x0015_0513), // addi a0, a0, 1
        (0x10104, 0x0000_8067), // ret
    ],
    report: "process 1 status 54\n",
    ..QUIET
};

#[test]
fn far_apart(rt: HostRuntime) {
    check_twice(&rt, rt.alloc(), &FAR_APART);
}

/// Ten atomic additions count an immediate up from 0, and each is followed by the instruction: 1 to
/// 10, which is 55.
const BY_AN_ADDITION: Guest = Guest {
    code: &[
        (0x10000, 0x0001_03b7), // lui t2, 0x10
        (0x10004, 0x0143_8393), // addi t2, t2, 0x14
        (0x10008, 0x0010_0337), // lui t1, 0x100
        (0x1000c, 0x00a0_0413), // li s0, 10
        (0x10010, 0x0063_a02f), // amoadd.w zero, t1, (t2)
        (0x10014, 0x0005_0513), // addi a0, a0, 0
        (0x10018, 0xfff4_0413), // addi s0, s0, -1
        (0x1001c, 0xfe04_1ae3), // bnez s0, 0x10010
        (0x10020, 0x0020_0893), // li a7, 2
        (0x10024, 0x0000_0073), // ecall
    ],
    report: "process 1 status 55\n",
    ..QUIET
};

#[test]
fn by_an_addition(rt: HostRuntime) {
    check_twice(&rt, rt.alloc(), &BY_AN_ADDITION);
}

/// The same by a store of what was reserved, which is tried again until it is done.
const IF_RESERVED: Guest = Guest {
    code: &[
        (0x10000, 0x0001_03b7), // lui t2, 0x10
        (0x10004, 0x0203_8393), // addi t2, t2, 0x20
        (0x10008, 0x0010_0337), // lui t1, 0x100
        (0x1000c, 0x00a0_0413), // li s0, 10
        (0x10010, 0x1003_ae2f), // lr.w t3, (t2)
        (0x10014, 0x006e_0e33), // add t3, t3, t1
        (0x10018, 0x19c3_aeaf), // sc.w t4, t3, (t2)
        (0x1001c, 0xfe0e_9ae3), // bnez t4, 0x10010
        (0x10020, 0x0005_0513), // addi a0, a0, 0
        (0x10024, 0xfff4_0413), // addi s0, s0, -1
        (0x10028, 0xfe04_14e3), // bnez s0, 0x10010
        (0x1002c, 0x0020_0893), // li a7, 2
        (0x10030, 0x0000_0073), // ecall
    ],
    report: "process 1 status 55\n",
    ..QUIET
};

#[test]
fn if_reserved(rt: HostRuntime) {
    check_twice(&rt, rt.alloc(), &IF_RESERVED);
}

/// Each of 200 turns counts an immediate of the loop up: 0 to 199 make 19900, which is 0x4dbc.
const COUNTS_UP: Guest = Guest {
    code: &[
        (0x10000, 0x0001_02b7), // lui t0, 0x10
        (0x10004, 0x0010_03b7), // lui t2, 0x100
        (0x10008, 0x0102_a303), // lw t1, 0x10(t0)
        (0x1000c, 0x0c80_0413), // li s0, 200
        (0x10010, 0x0005_0513), // addi a0, a0, 0
        (0x10014, 0x0073_0333), // add t1, t1, t2
        (0x10018, 0x0062_a823), // sw t1, 0x10(t0)
        (0x1001c, 0xfff4_0413), // addi s0, s0, -1
        (0x10020, 0xfe04_18e3), // bnez s0, 0x10010
        // writes the sum
        (0x10024, 0xfea1_2823), // sw a0, -16(sp)
        (0x10028, 0x0010_0513), // li a0, 1
        (0x1002c, 0xff01_0593), // addi a1, sp, -16
        (0x10030, 0x0040_0613), // li a2, 4
        (0x10034, 0x0080_0893), // li a7, 8
        (0x10038, 0x0000_0073), // ecall
        (0x1003c, 0x0000_0513), // li a0, 0
        (0x10040, 0x0020_0893), // li a7, 2
        (0x10044, 0x0000_0073), // ecall
    ],
    out: b"\xbc\x4d\0\0",
    report: "process 1 status 0\n",
    ..QUIET
};

#[test]
fn counts_up(rt: HostRuntime) {
    check_twice(&rt, rt.alloc(), &COUNTS_UP);
}

/// Each of 300 turns counts one up on the next page, and calls it: 1 to 300 make 45150, which is
/// 0xb05e.
const COUNTS_UP_ON_ANOTHER_PAGE: Guest = Guest {
    code: &[
        (0x10000, 0x0001_1e37), // lui t3, 0x11
        (0x10004, 0x0010_03b7), // lui t2, 0x100
        (0x10008, 0x000e_2303), // lw t1, 0(t3)
        (0x1000c, 0x12c0_0413), // li s0, 300
        (0x10010, 0x0073_0333), // add t1, t1, t2
        (0x10014, 0x006e_2023), // sw t1, 0(t3)
        (0x10018, 0x000e_00e7), // jalr ra, 0(t3)
        (0x1001c, 0xfff4_0413), // addi s0, s0, -1
        (0x10020, 0xfe04_18e3), // bnez s0, 0x10010
        // writes the sum
        (0x10024, 0xfea1_2823), // sw a0, -16(sp)
        (0x10028, 0x0010_0513), // li a0, 1
        (0x1002c, 0xff01_0593), // addi a1, sp, -16
        (0x10030, 0x0040_0613), // li a2, 4
        (0x10034, 0x0080_0893), // li a7, 8
        (0x10038, 0x0000_0073), // ecall
        (0x1003c, 0x0000_0513), // li a0, 0
        (0x10040, 0x0020_0893), // li a7, 2
        (0x10044, 0x0000_0073), // ecall
        (0x11000, 0x0005_0513), // addi a0, a0, 0
        (0x11004, 0x0000_8067), // ret
    ],
    out: b"\x5e\xb0\0\0",
    report: "process 1 status 0\n",
    ..QUIET
};

#[test]
fn counts_up_on_another_page(rt: HostRuntime) {
    check_twice(&rt, rt.alloc(), &COUNTS_UP_ON_ANOTHER_PAGE);
}

/// Six signals to itself, each behind a store over an instruction of the handler, which counts in
/// memory: 10 and 1 in turn, 33.
const A_HANDLER: Guest = Guest {
    code: &[
        (0x10000, 0x0001_02b7), // lui t0, 0x10
        (0x10004, 0x0742_a303), // lw t1, 0x74(t0)
        (0x10008, 0x0702_a383), // lw t2, 0x70(t0)
        (0x1000c, 0x0063_c3b3), // xor t2, t2, t1
        (0x10010, 0x0060_0413), // li s0, 6
        (0x10014, 0x00f0_0513), // li a0, 15
        (0x10018, 0x0001_05b7), // lui a1, 0x10
        (0x1001c, 0x05c5_8593), // addi a1, a1, 0x5c
        (0x10020, 0x0100_0893), // li a7, 16
        (0x10024, 0x0000_0073), // ecall
        (0x10028, 0x0662_a023), // sw t1, 0x60(t0)
        (0x1002c, 0x0010_0513), // li a0, 1
        (0x10030, 0x00f0_0593), // li a1, 15
        (0x10034, 0x0130_0893), // li a7, 19
        (0x10038, 0x0000_0073), // ecall
        (0x1003c, 0x0170_0893), // li a7, 23
        (0x10040, 0x0000_0073), // ecall
        (0x10044, 0x0073_4333), // xor t1, t1, t2
        (0x10048, 0xfff4_0413), // addi s0, s0, -1
        (0x1004c, 0xfc04_1ee3), // bnez s0, 0x10028
        (0x10050, 0x1002_a503), // lw a0, 0x100(t0)
        (0x10054, 0x0020_0893), // li a7, 2
        (0x10058, 0x0000_0073), // ecall
        (0x1005c, 0x1002_a503), // lw a0, 0x100(t0)
        (0x10060, 0x0645_0513), // addi a0, a0, 100
        (0x10064, 0x10a2_a023), // sw a0, 0x100(t0)
        (0x10068, 0x0120_0893), // li a7, 18
        (0x1006c, 0x0000_0073), // ecall
        (0x10070, 0x0015_0513), // addi a0, a0, 1
        (0x10074, 0x00a5_0513), // addi a0, a0, 10
    ],
    report: "process 1 status 33\n",
    ..QUIET
};

#[test]
fn a_handler(rt: HostRuntime) {
    check_in_both(&rt, rt.alloc(), &A_HANDLER);
}
