//! Code that one thread runs and another one stores over.
use crate::calls::check_guest;
use crate::guests::{Guest, QUIET};

/// Thread 1 runs a loop until thread 2 has stored li a0, 2 over its first instruction. Thread 2
/// also leaves the number of its round, and thread 1 sees the store in the next one: 16 and 2.
const BY_A_LATER_THREAD: Guest = Guest {
    code: &[
        (0x10000, 0x0030_0893), // li a7, 3
        (0x10004, 0x0001_0537), // lui a0, 0x10
        (0x10008, 0x0445_0513), // addi a0, a0, 0x44
        (0x1000c, 0x0000_0073), // ecall
        (0x10010, 0x0001_02b7), // lui t0, 0x10
        (0x10014, 0x0010_0413), // li s0, 1
        (0x10018, 0x0010_0513), // li a0, 1
        (0x1001c, 0xfe85_0ee3), // beq a0, s0, 0x10018
        (0x10020, 0x0005_0493), // mv s1, a0
        // the rounds between
        (0x10024, 0x0180_0893), // li a7, 24
        (0x10028, 0x0000_0073), // ecall
        (0x1002c, 0x1002_a303), // lw t1, 0x100(t0)
        (0x10030, 0x4065_0533), // sub a0, a0, t1
        (0x10034, 0x0045_1513), // slli a0, a0, 4
        (0x10038, 0x0095_0533), // add a0, a0, s1
        (0x1003c, 0x0020_0893), // li a7, 2
        (0x10040, 0x0000_0073), // ecall
        // thread 2
        (0x10044, 0x0170_0893), // li a7, 23
        (0x10048, 0x0000_0073), // ecall
        (0x1004c, 0x0180_0893), // li a7, 24
        (0x10050, 0x0000_0073), // ecall
        (0x10054, 0x0001_02b7), // lui t0, 0x10
        (0x10058, 0x10a2_a023), // sw a0, 0x100(t0)
        (0x1005c, 0x06c2_a303), // lw t1, 0x6c(t0)
        (0x10060, 0x0062_ac23), // sw t1, 0x18(t0)
        (0x10064, 0x0010_0893), // li a7, 1
        (0x10068, 0x0000_0073), // ecall
        (0x1006c, 0x0020_0513), // li a0, 2
    ],
    report: "process 1 status 18\n",
    ..QUIET
};

#[test]
fn by_a_later_thread(rt: HostRuntime) {
    check_guest(&rt, rt.alloc(), &BY_A_LATER_THREAD);
}

/// The same the other way round: thread 2 runs the loop, and thread 1 stores, while the loop has
/// used up its quantum of that round.
const BY_AN_EARLIER_THREAD: Guest = Guest {
    code: &[
        (0x10000, 0x0030_0893), // li a7, 3
        (0x10004, 0x0001_0537), // lui a0, 0x10
        (0x10008, 0x0405_0513), // addi a0, a0, 0x40
        (0x1000c, 0x0000_0073), // ecall
        (0x10010, 0x0001_02b7), // lui t0, 0x10
        (0x10014, 0x03c2_a303), // lw t1, 0x3c(t0)
        (0x10018, 0x0170_0893), // li a7, 23
        (0x1001c, 0x0000_0073), // ecall
        (0x10020, 0x0000_0073), // ecall
        (0x10024, 0x0180_0893), // li a7, 24
        (0x10028, 0x0000_0073), // ecall
        (0x1002c, 0x10a2_a023), // sw a0, 0x100(t0)
        (0x10030, 0x0462_a423), // sw t1, 0x48(t0)
        (0x10034, 0x0010_0893), // li a7, 1
        (0x10038, 0x0000_0073), // ecall
        (0x1003c, 0x0020_0513), // li a0, 2
        // thread 2
        (0x10040, 0x0001_02b7), // lui t0, 0x10
        (0x10044, 0x0010_0413), // li s0, 1
        (0x10048, 0x0010_0513), // li a0, 1
        (0x1004c, 0xfe85_0ee3), // beq a0, s0, 0x10048
        (0x10050, 0x0005_0493), // mv s1, a0
        // the rounds between
        (0x10054, 0x0180_0893), // li a7, 24
        (0x10058, 0x0000_0073), // ecall
        (0x1005c, 0x1002_a303), // lw t1, 0x100(t0)
        (0x10060, 0x4065_0533), // sub a0, a0, t1
        (0x10064, 0x0045_1513), // slli a0, a0, 4
        (0x10068, 0x0095_0533), // add a0, a0, s1
        (0x1006c, 0x0020_0893), // li a7, 2
        (0x10070, 0x0000_0073), // ecall
    ],
    report: "process 1 status 18\n",
    ..QUIET
};

#[test]
fn by_an_earlier_thread(rt: HostRuntime) {
    check_guest(&rt, rt.alloc(), &BY_AN_EARLIER_THREAD);
}

/// The same where each turn of the loop asks for the round before the instruction: thread 2 then
/// goes on behind thread 1, and sees the store in its round: 0 and 2.
const IN_ITS_ROUND: Guest = Guest {
    code: &[
        (0x10000, 0x0030_0893), // li a7, 3
        (0x10004, 0x0001_0537), // lui a0, 0x10
        (0x10008, 0x0405_0513), // addi a0, a0, 0x40
        (0x1000c, 0x0000_0073), // ecall
        (0x10010, 0x0001_02b7), // lui t0, 0x10
        (0x10014, 0x03c2_a303), // lw t1, 0x3c(t0)
        (0x10018, 0x0170_0893), // li a7, 23
        (0x1001c, 0x0000_0073), // ecall
        (0x10020, 0x0000_0073), // ecall
        (0x10024, 0x0180_0893), // li a7, 24
        (0x10028, 0x0000_0073), // ecall
        (0x1002c, 0x10a2_a023), // sw a0, 0x100(t0)
        (0x10030, 0x0462_aa23), // sw t1, 0x54(t0)
        (0x10034, 0x0010_0893), // li a7, 1
        (0x10038, 0x0000_0073), // ecall
        (0x1003c, 0x0020_0513), // li a0, 2
        // thread 2
        (0x10040, 0x0001_02b7), // lui t0, 0x10
        (0x10044, 0x0010_0413), // li s0, 1
        (0x10048, 0x0180_0893), // li a7, 24
        (0x1004c, 0x0000_0073), // ecall
        (0x10050, 0x0005_0493), // mv s1, a0
        (0x10054, 0x0010_0513), // li a0, 1
        (0x10058, 0xfe85_08e3), // beq a0, s0, 0x10048
        // the rounds between
        (0x1005c, 0x1002_a303), // lw t1, 0x100(t0)
        (0x10060, 0x4064_84b3), // sub s1, s1, t1
        (0x10064, 0x0044_9493), // slli s1, s1, 4
        (0x10068, 0x0095_0533), // add a0, a0, s1
        (0x1006c, 0x0020_0893), // li a7, 2
        (0x10070, 0x0000_0073), // ecall
    ],
    report: "process 1 status 2\n",
    ..QUIET
};

#[test]
fn in_its_round(rt: HostRuntime) {
    check_guest(&rt, rt.alloc(), &IN_ITS_ROUND);
}

/// Two threads call one instruction, which gives a number. Where it is even thread 1 counts it up,
/// and where it is odd thread 2; else they yield. Thread 1 has had 0, 2 and so on to 20, which are
/// 110, and thread 2 has had 1, 3 and so on to 21, which are 121.
const IN_TURNS_BY_TWO_THREADS: Guest = Guest {
    code: &[
        (0x10000, 0x0030_0893), // li a7, 3
        (0x10004, 0x0001_0537), // lui a0, 0x10
        (0x10008, 0x0185_0513), // addi a0, a0, 0x18
        (0x1000c, 0x0010_0613), // li a2, 1
        (0x10010, 0x0000_0073), // ecall
        (0x10014, 0x0000_0513), // li a0, 0
        // both threads: a0 is 0 in thread 1, and 1 in thread 2
        (0x10018, 0x0005_0413), // mv s0, a0
        (0x1001c, 0x0001_02b7), // lui t0, 0x10
        (0x10020, 0x0010_03b7), // lui t2, 0x100
        (0x10024, 0x0140_0913), // li s2, 20
        (0x10028, 0x0170_0893), // li a7, 23
        (0x1002c, 0x0580_00ef), // jal ra, 0x10084
        (0x10030, 0x0015_7e13), // andi t3, a0, 1
        (0x10034, 0x008e_0663), // beq t3, s0, 0x10040
        (0x10038, 0x0000_0073), // ecall
        (0x1003c, 0xff1f_f06f), // j 0x1002c
        (0x10040, 0x00a4_84b3), // add s1, s1, a0
        (0x10044, 0x0125_7a63), // bgeu a0, s2, 0x10058
        (0x10048, 0x0842_a303), // lw t1, 0x84(t0)
        (0x1004c, 0x0073_0333), // add t1, t1, t2
        (0x10050, 0x0862_a223), // sw t1, 0x84(t0)
        (0x10054, 0xfd9f_f06f), // j 0x1002c
        // 20, or 21
        (0x10058, 0x0004_1e63), // bnez s0, 0x10074
        (0x1005c, 0x1092_a023), // sw s1, 0x100(t0)
        (0x10060, 0x0842_a303), // lw t1, 0x84(t0)
        (0x10064, 0x0073_0333), // add t1, t1, t2
        (0x10068, 0x0862_a223), // sw t1, 0x84(t0)
        (0x1006c, 0x0010_0893), // li a7, 1
        (0x10070, 0x0000_0073), // ecall
        (0x10074, 0x1002_a503), // lw a0, 0x100(t0)
        (0x10078, 0x0095_0533), // add a0, a0, s1
        (0x1007c, 0x0020_0893), // li a7, 2
        (0x10080, 0x0000_0073), // ecall
        (0x10084, 0x0000_0513), // li a0, 0
        (0x10088, 0x0000_8067), // ret
    ],
    report: "process 1 status 231\n",
    ..QUIET
};

#[test]
fn in_turns_by_two_threads(rt: HostRuntime) {
    check_guest(&rt, rt.alloc(), &IN_TURNS_BY_TWO_THREADS);
}

/// Thread 2 counts an immediate up once a round: where the page is its own before thread 1 runs it,
/// which makes the page shared, and else behind thread 1. So thread 1 sees 0, then each even number
/// twice, and last 20: 200.
const COUNTED_BY_ANOTHER: Guest = Guest {
    code: &[
        (0x10000, 0x0030_0893), // li a7, 3
        (0x10004, 0x0001_0537), // lui a0, 0x10
        (0x10008, 0x0345_0513), // addi a0, a0, 0x34
        (0x1000c, 0x0000_0073), // ecall
        (0x10010, 0x0140_0413), // li s0, 20
        (0x10014, 0x0170_0893), // li a7, 23
        (0x10018, 0x0000_0073), // ecall
        (0x1001c, 0x0000_0513), // li a0, 0
        (0x10020, 0x00a4_84b3), // add s1, s1, a0
        (0x10024, 0xfe85_18e3), // bne a0, s0, 0x10014
        (0x10028, 0x0004_8513), // mv a0, s1
        (0x1002c, 0x0020_0893), // li a7, 2
        (0x10030, 0x0000_0073), // ecall
        // thread 2
        (0x10034, 0x0001_02b7), // lui t0, 0x10
        (0x10038, 0x0010_03b7), // lui t2, 0x100
        (0x1003c, 0x0170_0893), // li a7, 23
        (0x10040, 0x01c2_a303), // lw t1, 0x1c(t0)
        (0x10044, 0x0073_0333), // add t1, t1, t2
        (0x10048, 0x0062_ae23), // sw t1, 0x1c(t0)
        (0x1004c, 0x0000_0073), // ecall
        (0x10050, 0xff1f_f06f), // j 0x10040
    ],
    report: "process 1 status 200\n",
    ..QUIET
};

#[test]
fn counted_by_another(rt: HostRuntime) {
    check_guest(&rt, rt.alloc(), &COUNTED_BY_ANOTHER);
}

/// Six threads one after another run an instruction, over which thread 1 stores before it makes the
/// next one: 10 and 1 in turn, 33.
const OF_NEW_THREADS: Guest = Guest {
    code: &[
        (0x10000, 0x0001_02b7), // lui t0, 0x10
        (0x10004, 0x0782_a303), // lw t1, 0x78(t0)
        (0x10008, 0x0742_a383), // lw t2, 0x74(t0)
        (0x1000c, 0x0063_c3b3), // xor t2, t2, t1
        (0x10010, 0x0060_0413), // li s0, 6
        (0x10014, 0x0462_ae23), // sw t1, 0x5c(t0)
        (0x10018, 0x1002_a223), // sw zero, 0x104(t0)
        (0x1001c, 0x0001_0537), // lui a0, 0x10
        (0x10020, 0x0545_0513), // addi a0, a0, 0x54
        (0x10024, 0x0030_0893), // li a7, 3
        (0x10028, 0x0000_0073), // ecall
        (0x1002c, 0x0170_0893), // li a7, 23
        (0x10030, 0x0000_0073), // ecall
        (0x10034, 0x1042_ae03), // lw t3, 0x104(t0)
        (0x10038, 0xfe0e_0ce3), // beqz t3, 0x10030
        (0x1003c, 0x0073_4333), // xor t1, t1, t2
        (0x10040, 0xfff4_0413), // addi s0, s0, -1
        (0x10044, 0xfc04_18e3), // bnez s0, 0x10014
        (0x10048, 0x1002_a503), // lw a0, 0x100(t0)
        (0x1004c, 0x0020_0893), // li a7, 2
        (0x10050, 0x0000_0073), // ecall
        // each of the six
        (0x10054, 0x0001_02b7), // lui t0, 0x10
        (0x10058, 0x1002_a503), // lw a0, 0x100(t0)
        (0x1005c, 0x0645_0513), // addi a0, a0, 100
        (0x10060, 0x10a2_a023), // sw a0, 0x100(t0)
        (0x10064, 0x0010_0593), // li a1, 1
        (0x10068, 0x10b2_a223), // sw a1, 0x104(t0)
        (0x1006c, 0x0010_0893), // li a7, 1
        (0x10070, 0x0000_0073), // ecall
        (0x10074, 0x0015_0513), // addi a0, a0, 1
        (0x10078, 0x00a5_0513), // addi a0, a0, 10
    ],
    report: "process 1 status 33\n",
    ..QUIET
};

#[test]
fn of_new_threads(rt: HostRuntime) {
    check_guest(&rt, rt.alloc(), &OF_NEW_THREADS);
}

/// Four threads run a loop until thread 1 has stored li a0, 2 over its first instruction. Each adds
/// what it was given last: 8.
const OF_MANY_THREADS: Guest = Guest {
    code: &[
        (0x10000, 0x0001_02b7), // lui t0, 0x10
        (0x10004, 0x0040_0413), // li s0, 4
        (0x10008, 0x0001_0537), // lui a0, 0x10
        (0x1000c, 0x0505_0513), // addi a0, a0, 0x50
        (0x10010, 0x0030_0893), // li a7, 3
        (0x10014, 0x0000_0073), // ecall
        (0x10018, 0xfff4_0413), // addi s0, s0, -1
        (0x1001c, 0xfe04_16e3), // bnez s0, 0x10008
        (0x10020, 0x04c2_a303), // lw t1, 0x4c(t0)
        (0x10024, 0x0170_0893), // li a7, 23
        (0x10028, 0x0000_0073), // ecall
        (0x1002c, 0x0000_0073), // ecall
        (0x10030, 0x0462_ae23), // sw t1, 0x5c(t0)
        (0x10034, 0x0080_0493), // li s1, 8
        (0x10038, 0x0000_0073), // ecall
        (0x1003c, 0x1002_a503), // lw a0, 0x100(t0)
        (0x10040, 0xfe95_1ce3), // bne a0, s1, 0x10038
        (0x10044, 0x0020_0893), // li a7, 2
        (0x10048, 0x0000_0073), // ecall
        (0x1004c, 0x0020_0513), // li a0, 2
        // each of the four
        (0x10050, 0x0001_02b7), // lui t0, 0x10
        (0x10054, 0x1002_8293), // addi t0, t0, 0x100
        (0x10058, 0x0010_0413), // li s0, 1
        (0x1005c, 0x0010_0513), // li a0, 1
        (0x10060, 0xfe85_0ee3), // beq a0, s0, 0x1005c
        (0x10064, 0x00a2_a02f), // amoadd.w zero, a0, (t0)
        (0x10068, 0x0010_0893), // li a7, 1
        (0x1006c, 0x0000_0073), // ecall
    ],
    report: "process 1 status 8\n",
    ..QUIET
};

#[test]
fn of_many_threads(rt: HostRuntime) {
    check_guest(&rt, rt.alloc(), &OF_MANY_THREADS);
}
