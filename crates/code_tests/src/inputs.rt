//! Code that comes by reads, from outside and from a pipe.
use crate::calls::check_guest;
use crate::guests::{Guest, QUIET};

/// li a0, 20 and ret; li a0, 100 and ret
const TWENTY_AND_A_HUNDRED: [u8; 16] = [
    0x13, 0x05, 0x40, 0x01, 0x67, 0x80, 0, 0, 0x13, 0x05, 0x40, 0x06, 0x67, 0x80, 0, 0,
];

/// addi a0, a0, 30; addi a0, a0, 60
const THIRTY_AND_SIXTY: [u8; 8] = [0x13, 0x05, 0xe5, 0x01, 0x13, 0x05, 0xc5, 0x03];

/// li a0, 2
const TWO: [u8; 4] = [0x13, 0x05, 0x20, 0];

/// A page of code is run, and twice the input is read over it and run: 1, 20 and 100.
const READ_INTO_A_PAGE: Guest = Guest {
    code: &[
        // maps 0x100000, with code
        (0x10000, 0x0010_0537), // lui a0, 0x100
        (0x10004, 0x0010_0593), // li a1, 1
        (0x10008, 0x0070_0613), // li a2, 7
        (0x1000c, 0x00d0_0893), // li a7, 13
        (0x10010, 0x0000_0073), // ecall
        (0x10014, 0x0001_02b7), // lui t0, 0x10
        (0x10018, 0x0010_0e37), // lui t3, 0x100
        (0x1001c, 0x0742_a303), // lw t1, 0x74(t0)
        (0x10020, 0x006e_2023), // sw t1, 0(t3)
        (0x10024, 0x0782_a303), // lw t1, 0x78(t0)
        (0x10028, 0x006e_2223), // sw t1, 4(t3)
        (0x1002c, 0x0030_0413), // li s0, 3
        (0x10030, 0x000e_00e7), // jalr ra, 0(t3)
        (0x10034, 0x00a4_84b3), // add s1, s1, a0
        (0x10038, 0xfff4_0413), // addi s0, s0, -1
        (0x1003c, 0x0204_0663), // beqz s0, 0x10068
        // reads eight bytes, however few come at a time
        (0x10040, 0x000e_0593), // mv a1, t3
        (0x10044, 0x0080_0913), // li s2, 8
        (0x10048, 0x0000_0513), // li a0, 0
        (0x1004c, 0x0009_0613), // mv a2, s2
        (0x10050, 0x0070_0893), // li a7, 7
        (0x10054, 0x0000_0073), // ecall
        (0x10058, 0x00a5_85b3), // add a1, a1, a0
        (0x1005c, 0x40a9_0933), // sub s2, s2, a0
        (0x10060, 0xfe09_14e3), // bnez s2, 0x10048
        (0x10064, 0xfcdf_f06f), // j 0x10030
        (0x10068, 0x0004_8513), // mv a0, s1
        (0x1006c, 0x0020_0893), // li a7, 2
        (0x10070, 0x0000_0073), // ecall
        (0x10074, 0x0010_0513), // li a0, 1
        (0x10078, 0x0000_8067), // ret
    ],
    input: &TWENTY_AND_A_HUNDRED,
    report: "process 1 status 121\n",
    ..QUIET
};

#[test]
fn read_into_a_page(rt: HostRuntime) {
    check_guest(&rt, rt.alloc(), &READ_INTO_A_PAGE);
}

/// Each of two reads puts an instruction behind its own call, where it runs next: 4 bytes and 30,
/// and 4 and 60.
const READ_BEHIND_THE_CALL: Guest = Guest {
    code: &[
        (0x10000, 0x0001_05b7), // lui a1, 0x10
        (0x10004, 0x01c5_8593), // addi a1, a1, 0x1c
        (0x10008, 0x0040_0613), // li a2, 4
        (0x1000c, 0x0070_0893), // li a7, 7
        (0x10010, 0x0020_0413), // li s0, 2
        (0x10014, 0x0000_0513), // li a0, 0
        (0x10018, 0x0000_0073), // ecall
        (0x1001c, 0x0015_0513), // addi a0, a0, 1
        (0x10020, 0x00a4_84b3), // add s1, s1, a0
        (0x10024, 0xfff4_0413), // addi s0, s0, -1
        (0x10028, 0xfe04_16e3), // bnez s0, 0x10014
        (0x1002c, 0x0004_8513), // mv a0, s1
        (0x10030, 0x0020_0893), // li a7, 2
        (0x10034, 0x0000_0073), // ecall
    ],
    input: &THIRTY_AND_SIXTY,
    report: "process 1 status 98\n",
    ..QUIET
};

#[test]
fn read_behind_the_call(rt: HostRuntime) {
    check_guest(&rt, rt.alloc(), &READ_BEHIND_THE_CALL);
}

/// Two words of code go through a pipe and come over one that has run: 1, 20 and 100.
const READ_FROM_A_PIPE: Guest = Guest {
    code: &[
        (0x10000, 0x0060_0893), // li a7, 6
        (0x10004, 0x0000_0073), // ecall
        (0x10008, 0x0005_0913), // mv s2, a0
        (0x1000c, 0x0005_8993), // mv s3, a1
        (0x10010, 0x0030_0413), // li s0, 3
        (0x10014, 0x0001_0a37), // lui s4, 0x10
        (0x10018, 0x068a_0a13), // addi s4, s4, 0x68
        (0x1001c, 0x0010_0513), // li a0, 1
        (0x10020, 0x00a4_84b3), // add s1, s1, a0
        (0x10024, 0xfff4_0413), // addi s0, s0, -1
        (0x10028, 0x0204_0a63), // beqz s0, 0x1005c
        (0x1002c, 0x0009_8513), // mv a0, s3
        (0x10030, 0x000a_0593), // mv a1, s4
        (0x10034, 0x0040_0613), // li a2, 4
        (0x10038, 0x0080_0893), // li a7, 8
        (0x1003c, 0x0000_0073), // ecall
        (0x10040, 0x0009_0513), // mv a0, s2
        (0x10044, 0x0001_05b7), // lui a1, 0x10
        (0x10048, 0x01c5_8593), // addi a1, a1, 0x1c
        (0x1004c, 0x0070_0893), // li a7, 7
        (0x10050, 0x0000_0073), // ecall
        (0x10054, 0x004a_0a13), // addi s4, s4, 4
        (0x10058, 0xfc5f_f06f), // j 0x1001c
        (0x1005c, 0x0004_8513), // mv a0, s1
        (0x10060, 0x0020_0893), // li a7, 2
        (0x10064, 0x0000_0073), // ecall
        (0x10068, 0x0140_0513), // li a0, 20
        (0x1006c, 0x0640_0513), // li a0, 100
    ],
    report: "process 1 status 121\n",
    ..QUIET
};

#[test]
fn read_from_a_pipe(rt: HostRuntime) {
    check_guest(&rt, rt.alloc(), &READ_FROM_A_PIPE);
}

/// Thread 1 runs a loop until thread 2 has read li a0, 2 over its first instruction. Thread 2 also
/// leaves the number of its round, and thread 1 sees it in the next one: 16 and 2.
const READ_BY_ANOTHER_THREAD: Guest = Guest {
    code: &[
        (0x10000, 0x0030_0893), // li a7, 3
        (0x10004, 0x0001_0537), // lui a0, 0x10
        (0x10008, 0x0445_0513), // addi a0, a0, 0x44
        (0x1000c, 0x0000_0073), // ecall
        (0x10010, 0x0001_02b7), // lui t0, 0x10
        (0x10014, 0x0010_0413), // li s0, 1
        (0x10018, 0x0010_0513), // li a0, 1
        (0x1001c, 0xfe85_0ee3), // beq a0, s0, 0x10018
        (0x10020, 0x0005_0493), // mv s1, a0
        // the rounds between
        (0x10024, 0x0180_0893), // li a7, 24
        (0x10028, 0x0000_0073), // ecall
        (0x1002c, 0x1002_a303), // lw t1, 0x100(t0)
        (0x10030, 0x4065_0533), // sub a0, a0, t1
        (0x10034, 0x0045_1513), // slli a0, a0, 4
        (0x10038, 0x0095_0533), // add a0, a0, s1
        (0x1003c, 0x0020_0893), // li a7, 2
        (0x10040, 0x0000_0073), // ecall
        // thread 2
        (0x10044, 0x0001_02b7), // lui t0, 0x10
        (0x10048, 0x0001_05b7), // lui a1, 0x10
        (0x1004c, 0x0185_8593), // addi a1, a1, 0x18
        (0x10050, 0x0040_0613), // li a2, 4
        (0x10054, 0x0170_0893), // li a7, 23
        (0x10058, 0x0000_0073), // ecall
        (0x1005c, 0x0180_0893), // li a7, 24
        (0x10060, 0x0000_0073), // ecall
        (0x10064, 0x10a2_a023), // sw a0, 0x100(t0)
        (0x10068, 0x0000_0513), // li a0, 0
        (0x1006c, 0x0070_0893), // li a7, 7
        (0x10070, 0x0000_0073), // ecall
        (0x10074, 0x0010_0893), // li a7, 1
        (0x10078, 0x0000_0073), // ecall
    ],
    input: &TWO,
    report: "process 1 status 18\n",
    ..QUIET
};

#[test]
fn read_by_another_thread(rt: HostRuntime) {
    check_guest(&rt, rt.alloc(), &READ_BY_ANOTHER_THREAD);
}

/// `READ_INTO_A_PAGE` where three bytes come at a time.
const READ_IN_PIECES: Guest = Guest {
    piece: 3,
    ..READ_INTO_A_PAGE
};

#[test]
fn read_in_pieces(rt: HostRuntime) {
    check_guest(&rt, rt.alloc(), &READ_IN_PIECES);
}
