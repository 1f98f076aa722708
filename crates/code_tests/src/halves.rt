//! Stores over a part of an instruction, or of a word that has two, and over an instruction on two
//! pages.
use crate::calls::check_twice;
use crate::guests::{Guest, QUIET};

/// The upper half of a wide instruction, its immediate, is stored over: 5 and 1 in turn, 18.
const AN_UPPER_HALF: Guest = Guest {
    code: &[
        (0x10000, 0x0001_02b7), // lui t0, 0x10
        (0x10004, 0x0550_0313), // li t1, 0x55
        (0x10008, 0x0400_0393), // li t2, 0x40
        (0x1000c, 0x0060_0413), // li s0, 6
        (0x10010, 0x0062_9b23), // sh t1, 0x16(t0)
        (0x10014, 0x0645_0513), // addi a0, a0, 100
        (0x10018, 0x0073_4333), // xor t1, t1, t2
        (0x1001c, 0xfff4_0413), // addi s0, s0, -1
        (0x10020, 0xfe04_18e3), // bnez s0, 0x10010
        (0x10024, 0x0020_0893), // li a7, 2
        (0x10028, 0x0000_0073), // ecall
    ],
    report: "process 1 status 18\n",
    ..QUIET
};

#[test]
fn an_upper_half(rt: HostRuntime) {
    check_twice(&rt, rt.alloc(), &AN_UPPER_HALF);
}

/// The lower half, with the operation: a0 is doubled and counted up in turn, from 1: 2, 3, 6, 7,
/// 14, 15.
const A_LOWER_HALF: Guest = Guest {
    code: &[
        (0x10000, 0x0001_02b7), // lui t0, 0x10
        // the lower half of slli a0, a0, 1
        (0x10004, 0x0000_1337), // lui t1, 1
        (0x10008, 0x5133_0313), // addi t1, t1, 0x513
        (0x1000c, 0x0000_13b7), // lui t2, 1
        (0x10010, 0x0060_0413), // li s0, 6
        (0x10014, 0x0010_0513), // li a0, 1
        (0x10018, 0x0062_9e23), // sh t1, 0x1c(t0)
        (0x1001c, 0x0015_0513), // addi a0, a0, 1
        (0x10020, 0x0073_4333), // xor t1, t1, t2
        (0x10024, 0xfff4_0413), // addi s0, s0, -1
        (0x10028, 0xfe04_18e3), // bnez s0, 0x10018
        (0x1002c, 0x0020_0893), // li a7, 2
        (0x10030, 0x0000_0073), // ecall
    ],
    report: "process 1 status 15\n",
    ..QUIET
};

#[test]
fn a_lower_half(rt: HostRuntime) {
    check_twice(&rt, rt.alloc(), &A_LOWER_HALF);
}

/// The uppermost byte alone: 17 and 1 in turn, 54.
const A_BYTE: Guest = Guest {
    code: &[
        (0x10000, 0x0001_02b7), // lui t0, 0x10
        (0x10004, 0x0010_0313), // li t1, 1
        (0x10008, 0x0060_0413), // li s0, 6
        (0x1000c, 0x0062_89a3), // sb t1, 0x13(t0)
        (0x10010, 0x0015_0513), // addi a0, a0, 1
        (0x10014, 0x0013_4313), // xori t1, t1, 1
        (0x10018, 0xfff4_0413), // addi s0, s0, -1
        (0x1001c, 0xfe04_18e3), // bnez s0, 0x1000c
        (0x10020, 0x0020_0893), // li a7, 2
        (0x10024, 0x0000_0073), // ecall
    ],
    report: "process 1 status 54\n",
    ..QUIET
};

#[test]
fn a_byte(rt: HostRuntime) {
    check_twice(&rt, rt.alloc(), &A_BYTE);
}

/// Of two compressed instructions in one word the second is stored over: 10 and 2 in turn, beside 1
/// in each of six turns: 42.
const THE_SECOND_OF_TWO: Guest = Guest {
    code: &[
        (0x10000, 0x0001_02b7), // lui t0, 0x10
        (0x10004, 0x0322_d303), // lhu t1, 0x32(t0)
        (0x10008, 0x0302_d383), // lhu t2, 0x30(t0)
        (0x1000c, 0x0063_c3b3), // xor t2, t2, t1
        (0x10010, 0x0060_0413), // li s0, 6
        (0x10014, 0x0062_9d23), // sh t1, 0x1a(t0)
        (0x10018, 0x0505), // c.addi a0, 1
        (0x1001a, 0x050d), // c.addi a0, 3
        (0x1001c, 0x0073_4333), // xor t1, t1, t2
        (0x10020, 0xfff4_0413), // addi s0, s0, -1
        (0x10024, 0xfe04_18e3), // bnez s0, 0x10014
        (0x10028, 0x0020_0893), // li a7, 2
        (0x1002c, 0x0000_0073), // ecall
        (0x10030, 0x0509), // c.addi a0, 2
        (0x10032, 0x0529), // c.addi a0, 10
    ],
    report: "process 1 status 42\n",
    ..QUIET
};

#[test]
fn the_second_of_two(rt: HostRuntime) {
    check_twice(&rt, rt.alloc(), &THE_SECOND_OF_TWO);
}

/// The first of two: 10 and 1 in turn, beside 2 in each of six turns: 45.
const THE_FIRST_OF_TWO: Guest = Guest {
    code: &[
        (0x10000, 0x0001_02b7), // lui t0, 0x10
        (0x10004, 0x0322_d303), // lhu t1, 0x32(t0)
        (0x10008, 0x0302_d383), // lhu t2, 0x30(t0)
        (0x1000c, 0x0063_c3b3), // xor t2, t2, t1
        (0x10010, 0x0060_0413), // li s0, 6
        (0x10014, 0x0062_9c23), // sh t1, 0x18(t0)
        (0x10018, 0x050d), // c.addi a0, 3
        (0x1001a, 0x0509), // c.addi a0, 2
        (0x1001c, 0x0073_4333), // xor t1, t1, t2
        (0x10020, 0xfff4_0413), // addi s0, s0, -1
        (0x10024, 0xfe04_18e3), // bnez s0, 0x10014
        (0x10028, 0x0020_0893), // li a7, 2
        (0x1002c, 0x0000_0073), // ecall
        (0x10030, 0x0505), // c.addi a0, 1
        (0x10032, 0x0529), // c.addi a0, 10
    ],
    report: "process 1 status 45\n",
    ..QUIET
};

#[test]
fn the_first_of_two(rt: HostRuntime) {
    check_twice(&rt, rt.alloc(), &THE_FIRST_OF_TWO);
}

/// A compressed store of the word that it stands in, whose other instruction adds 10 and 1 in turn:
/// 33.
const THE_NEXT_IN_ITS_WORD: Guest = Guest {
    code: &[
        (0x10000, 0x0001_07b7), // lui a5, 0x10
        (0x10004, 0x0187_8793), // addi a5, a5, 0x18
        (0x10008, 0x0007_a703), // lw a4, 0(a5)
        // what differs between adding 1 and 10
        (0x1000c, 0x002c_03b7), // lui t2, 0x2c0
        (0x10010, 0x0077_4733), // xor a4, a4, t2
        (0x10014, 0x0060_0413), // li s0, 6
        (0x10018, 0xc398), // c.sw a4, 0(a5)
        (0x1001a, 0x0505), // c.addi a0, 1
        (0x1001c, 0x0077_4733), // xor a4, a4, t2
        (0x10020, 0xfff4_0413), // addi s0, s0, -1
        (0x10024, 0xfe04_1ae3), // bnez s0, 0x10018
        (0x10028, 0x0020_0893), // li a7, 2
        (0x1002c, 0x0000_0073), // ecall
    ],
    report: "process 1 status 33\n",
    ..QUIET
};

#[test]
fn the_next_in_its_word(rt: HostRuntime) {
    check_twice(&rt, rt.alloc(), &THE_NEXT_IN_ITS_WORD);
}

/// A word is two compressed instructions, which add 1 and 2, and, by another lower half, a wide
/// one, which adds 80: of four turns the first and the third add 80, the others 3: 166.
const TWO_OF_ONE: Guest = Guest {
    code: &[
        (0x10000, 0x0001_02b7), // lui t0, 0x10
        // the lower half of addi a0, s2, 80
        (0x10004, 0x5130_0313), // li t1, 0x513
        (0x10008, 0x0160_0393), // li t2, 0x16
        (0x1000c, 0x0040_0413), // li s0, 4
        (0x10010, 0x0062_9a23), // sh t1, 0x14(t0)
        (0x10014, 0x0505), // c.addi a0, 1
        (0x10016, 0x0509), // c.addi a0, 2; 0x0509_0513 is addi a0, s2, 80
        (0x10018, 0x0005_0913), // mv s2, a0
        (0x1001c, 0x0073_4333), // xor t1, t1, t2
        (0x10020, 0xfff4_0413), // addi s0, s0, -1
        (0x10024, 0xfe04_16e3), // bnez s0, 0x10010
        (0x10028, 0x0020_0893), // li a7, 2
        (0x1002c, 0x0000_0073), // ecall
    ],
    report: "process 1 status 166\n",
    ..QUIET
};

#[test]
fn two_of_one(rt: HostRuntime) {
    check_twice(&rt, rt.alloc(), &TWO_OF_ONE);
}

/// The same where the whole word is stored: 10, and 1 and 2, in turn: 39.
const TWO_BY_ONE: Guest = Guest {
    code: &[
        (0x10000, 0x0001_02b7), // lui t0, 0x10
        (0x10004, 0x0302_a303), // lw t1, 0x30(t0)
        (0x10008, 0x0182_a383), // lw t2, 0x18(t0)
        (0x1000c, 0x0063_c3b3), // xor t2, t2, t1
        (0x10010, 0x0060_0413), // li s0, 6
        (0x10014, 0x0062_ac23), // sw t1, 0x18(t0)
        (0x10018, 0x0505), // c.addi a0, 1
        (0x1001a, 0x0509), // c.addi a0, 2
        (0x1001c, 0x0073_4333), // xor t1, t1, t2
        (0x10020, 0xfff4_0413), // addi s0, s0, -1
        (0x10024, 0xfe04_18e3), // bnez s0, 0x10014
        (0x10028, 0x0020_0893), // li a7, 2
        (0x1002c, 0x0000_0073), // ecall
        (0x10030, 0x00a5_0513), // addi a0, a0, 10
    ],
    report: "process 1 status 39\n",
    ..QUIET
};

#[test]
fn two_by_one(rt: HostRuntime) {
    check_twice(&rt, rt.alloc(), &TWO_BY_ONE);
}

/// A wide instruction lies in two words of its page. A store over the second of them changes its
/// upper half and the compressed one behind it: 5 and 10, and 1 and 2, in turn: 54.
const OVER_TWO_WORDS: Guest = Guest {
    code: &[
        (0x10000, 0x0001_02b7), // lui t0, 0x10
        // the upper half of addi a0, a0, 5, and c.addi a0, 10
        (0x10004, 0x0529_0337), // lui t1, 0x5290
        (0x10008, 0x0553_0313), // addi t1, t1, 0x55
        // what differs from the upper half of addi a0, a0, 1, and c.addi a0, 2
        (0x1000c, 0x0020_03b7), // lui t2, 0x200
        (0x10010, 0x0403_8393), // addi t2, t2, 0x40
        (0x10014, 0x0060_0413), // li s0, 6
        (0x10018, 0x0262_a023), // sw t1, 0x20(t0)
        (0x1001c, 0x0001), // c.nop
        (0x1001e, 0x0015_0513), // addi a0, a0, 1
        (0x10022, 0x0509), // c.addi a0, 2
        (0x10024, 0x0073_4333), // xor t1, t1, t2
        (0x10028, 0xfff4_0413), // addi s0, s0, -1
        (0x1002c, 0xfe04_16e3), // bnez s0, 0x10018
        (0x10030, 0x0020_0893), // li a7, 2
        (0x10034, 0x0000_0073), // ecall
    ],
    report: "process 1 status 54\n",
    ..QUIET
};

#[test]
fn over_two_words(rt: HostRuntime) {
    check_twice(&rt, rt.alloc(), &OVER_TWO_WORDS);
}

/// The upper half of a wide instruction is one of its own as well, and both are called. A store
/// over it has the half add 1 and then 10, and lui put 0x505 and then 0x529 into the upper half of
/// a2, which is 36 more: 47.
const FROM_THE_MIDDLE: Guest = Guest {
    code: &[
        (0x10000, 0x0001_02b7), // lui t0, 0x10
        (0x10004, 0x03c2_d303), // lhu t1, 0x3c(t0)
        (0x10008, 0x02e0_00ef), // jal ra, 0x10036
        (0x1000c, 0x0280_00ef), // jal ra, 0x10034
        (0x10010, 0x0006_0693), // mv a3, a2
        (0x10014, 0x0262_9b23), // sh t1, 0x36(t0)
        (0x10018, 0x01e0_00ef), // jal ra, 0x10036
        (0x1001c, 0x0180_00ef), // jal ra, 0x10034
        (0x10020, 0x40d6_0633), // sub a2, a2, a3
        (0x10024, 0x0106_5613), // srli a2, a2, 16
        (0x10028, 0x00c5_0533), // add a0, a0, a2
        (0x1002c, 0x0020_0893), // li a7, 2
        (0x10030, 0x0000_0073), // ecall
        (0x10034, 0x0505_0637), // lui a2, 0x5050; its upper half is c.addi a0, 1
        (0x10038, 0x0000_8067), // ret
        (0x1003c, 0x0529), // c.addi a0, 10
    ],
    report: "process 1 status 47\n",
    ..QUIET
};

#[test]
fn from_the_middle(rt: HostRuntime) {
    check_twice(&rt, rt.alloc(), &FROM_THE_MIDDLE);
}

/// An instruction over two pages. Its upper half, on the second page, is stored over by code of the
/// first: 5 and 1 in turn, 18.
const OVER_TWO_PAGES_ABOVE: Guest = Guest {
    code: &[
        (0x10000, 0x0001_12b7), // lui t0, 0x11
        (0x10004, 0x0550_0313), // li t1, 0x55
        (0x10008, 0x0400_0393), // li t2, 0x40
        (0x1000c, 0x0060_0413), // li s0, 6
        (0x10010, 0x7e90_006f), // j 0x10ff8
        (0x10ff8, 0x0062_9023), // sh t1, 0(t0)
        (0x10ffc, 0x0001), // c.nop
        (0x10ffe, 0x0645_0513), // addi a0, a0, 100
        (0x11002, 0x0073_4333), // xor t1, t1, t2
        (0x11006, 0xfff4_0413), // addi s0, s0, -1
        (0x1100a, 0xfe04_17e3), // bnez s0, 0x10ff8
        (0x1100e, 0x0020_0893), // li a7, 2
        (0x11012, 0x0000_0073), // ecall
    ],
    report: "process 1 status 18\n",
    ..QUIET
};

#[test]
fn over_two_pages_above(rt: HostRuntime) {
    check_twice(&rt, rt.alloc(), &OVER_TWO_PAGES_ABOVE);
}

/// Its lower half, on the first page, is stored over by code of the second, behind it: from 1 a0 is
/// counted up and doubled in turn: 2, 4, 5, 10, 11, 22.
const OVER_TWO_PAGES_BELOW: Guest = Guest {
    code: &[
        (0x10000, 0x0001_12b7), // lui t0, 0x11
        // the lower half of slli a0, a0, 1
        (0x10004, 0x0000_1337), // lui t1, 1
        (0x10008, 0x5133_0313), // addi t1, t1, 0x513
        (0x1000c, 0x0000_13b7), // lui t2, 1
        (0x10010, 0x0060_0413), // li s0, 6
        (0x10014, 0x0010_0513), // li a0, 1
        (0x10018, 0x7e70_006f), // j 0x10ffe
        (0x10ffc, 0x0001), // c.nop
        (0x10ffe, 0x0015_0513), // addi a0, a0, 1
        (0x11002, 0xfe62_9f23), // sh t1, -2(t0)
        (0x11006, 0x0073_4333), // xor t1, t1, t2
        (0x1100a, 0xfff4_0413), // addi s0, s0, -1
        (0x1100e, 0xfe04_18e3), // bnez s0, 0x10ffe
        (0x11012, 0x0020_0893), // li a7, 2
        (0x11016, 0x0000_0073), // ecall
    ],
    report: "process 1 status 22\n",
    ..QUIET
};

#[test]
fn over_two_pages_below(rt: HostRuntime) {
    check_twice(&rt, rt.alloc(), &OVER_TWO_PAGES_BELOW);
}

/// Both halves of it are stored over by code of a third page, which is called: to addi a0, a0, 5 by
/// the upper half, to slli a0, a0, 5 by the lower one, and back to addi a0, a0, 5: from 1 it is 2,
/// 7, 224 and 229.
const OVER_TWO_PAGES_FROM_ELSEWHERE: Guest = Guest {
    code: &[
        (0x10000, 0x0001_12b7), // lui t0, 0x11
        (0x10004, 0x0010_0513), // li a0, 1
        (0x10008, 0x0000_1337), // lui t1, 1
        (0x1000c, 0x5133_0313), // addi t1, t1, 0x513
        (0x10010, 0x5130_0393), // li t2, 0x513
        (0x10014, 0x0550_0e13), // li t3, 0x55
        (0x10018, 0xffe2_80e7), // jalr ra, -2(t0)
        (0x1001c, 0x01c2_9023), // sh t3, 0(t0)
        (0x10020, 0xffe2_80e7), // jalr ra, -2(t0)
        (0x10024, 0xfe62_9f23), // sh t1, -2(t0)
        (0x10028, 0xffe2_80e7), // jalr ra, -2(t0)
        (0x1002c, 0xfe72_9f23), // sh t2, -2(t0)
        (0x10030, 0xffe2_80e7), // jalr ra, -2(t0)
        (0x10034, 0x0020_0893), // li a7, 2
        (0x10038, 0x0000_0073), // ecall
        (0x10ffc, 0x0001), // c.nop
        (0x10ffe, 0x0015_0513), // addi a0, a0, 1
        (0x11002, 0x0000_8067), // ret
    ],
    report: "process 1 status 229\n",
    ..QUIET
};

#[test]
fn over_two_pages_from_elsewhere(rt: HostRuntime) {
    check_twice(&rt, rt.alloc(), &OVER_TWO_PAGES_FROM_ELSEWHERE);
}
