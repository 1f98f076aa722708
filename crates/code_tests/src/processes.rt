//! Code on a page that two processes share.
use crate::calls::check_guest;
use crate::guests::{Guest, QUIET};

/// A child calls an instruction on a page that it shares with its parent, until that has stored li
/// a0, 2 over it. The parent also leaves the number of its round, and the child sees the store in
/// the next one: 16 and 2. The parent ends with its child's status.
const BY_THE_PARENT: Guest = Guest {
    code: &[
        // maps 0x100000, with code, and shares it
        (0x10000, 0x0010_0537), // lui a0, 0x100
        (0x10004, 0x0010_0593), // li a1, 1
        (0x10008, 0x0070_0613), // li a2, 7
        (0x1000c, 0x00d0_0893), // li a7, 13
        (0x10010, 0x0000_0073), // ecall
        (0x10014, 0x0001_02b7), // lui t0, 0x10
        (0x10018, 0x0010_0e37), // lui t3, 0x100
        (0x1001c, 0x07c2_a303), // lw t1, 0x7c(t0)
        (0x10020, 0x006e_2023), // sw t1, 0(t3)
        (0x10024, 0x0b42_a303), // lw t1, 0xb4(t0)
        (0x10028, 0x006e_2223), // sw t1, 4(t3)
        (0x1002c, 0x0010_0537), // lui a0, 0x100
        (0x10030, 0x00f0_0893), // li a7, 15
        (0x10034, 0x0000_0073), // ecall
        (0x10038, 0x0040_0893), // li a7, 4
        (0x1003c, 0x0000_0073), // ecall
        (0x10040, 0x0405_0263), // beqz a0, 0x10084
        (0x10044, 0x0802_a303), // lw t1, 0x80(t0)
        (0x10048, 0x0170_0893), // li a7, 23
        (0x1004c, 0x0000_0073), // ecall
        (0x10050, 0x0000_0073), // ecall
        (0x10054, 0x0180_0893), // li a7, 24
        (0x10058, 0x0000_0073), // ecall
        (0x1005c, 0x08ae_2023), // sw a0, 0x80(t3)
        (0x10060, 0x006e_2023), // sw t1, 0(t3)
        (0x10064, 0x0000_0513), // li a0, 0
        (0x10068, 0x0050_0893), // li a7, 5
        (0x1006c, 0x0000_0073), // ecall
        (0x10070, 0x0005_8513), // mv a0, a1
        (0x10074, 0x0020_0893), // li a7, 2
        (0x10078, 0x0000_0073), // ecall
        (0x1007c, 0x0010_0513), // li a0, 1
        (0x10080, 0x0020_0513), // li a0, 2
        // the child
        (0x10084, 0x0010_0413), // li s0, 1
        (0x10088, 0x000e_00e7), // jalr ra, 0(t3)
        (0x1008c, 0xfe85_0ee3), // beq a0, s0, 0x10088
        (0x10090, 0x0005_0493), // mv s1, a0
        // the rounds between
        (0x10094, 0x0180_0893), // li a7, 24
        (0x10098, 0x0000_0073), // ecall
        (0x1009c, 0x080e_2303), // lw t1, 0x80(t3)
        (0x100a0, 0x4065_0533), // sub a0, a0, t1
        (0x100a4, 0x0045_1513), // slli a0, a0, 4
        (0x100a8, 0x0095_0533), // add a0, a0, s1
        (0x100ac, 0x0020_0893), // li a7, 2
        (0x100b0, 0x0000_0073), // ecall
        (0x100b4, 0x0000_8067), // ret
    ],
    report: "process 1 status 18\nprocess 2 status 18\n",
    ..QUIET
};

#[test]
fn by_the_parent(rt: HostRuntime) {
    check_guest(&rt, rt.alloc(), &BY_THE_PARENT);
}

/// The same the other way round: the parent runs the loop, and the child stores and ends with 0.
const BY_THE_CHILD: Guest = Guest {
    code: &[
        // maps 0x100000, with code, and shares it
        (0x10000, 0x0010_0537), // lui a0, 0x100
        (0x10004, 0x0010_0593), // li a1, 1
        (0x10008, 0x0070_0613), // li a2, 7
        (0x1000c, 0x00d0_0893), // li a7, 13
        (0x10010, 0x0000_0073), // ecall
        (0x10014, 0x0001_02b7), // lui t0, 0x10
        (0x10018, 0x0010_0e37), // lui t3, 0x100
        (0x1001c, 0x0742_a303), // lw t1, 0x74(t0)
        (0x10020, 0x006e_2023), // sw t1, 0(t3)
        (0x10024, 0x0a82_a303), // lw t1, 0xa8(t0)
        (0x10028, 0x006e_2223), // sw t1, 4(t3)
        (0x1002c, 0x0010_0537), // lui a0, 0x100
        (0x10030, 0x00f0_0893), // li a7, 15
        (0x10034, 0x0000_0073), // ecall
        (0x10038, 0x0040_0893), // li a7, 4
        (0x1003c, 0x0000_0073), // ecall
        (0x10040, 0x0205_0e63), // beqz a0, 0x1007c
        (0x10044, 0x0010_0413), // li s0, 1
        (0x10048, 0x000e_00e7), // jalr ra, 0(t3)
        (0x1004c, 0xfe85_0ee3), // beq a0, s0, 0x10048
        (0x10050, 0x0005_0493), // mv s1, a0
        // the rounds between
        (0x10054, 0x0180_0893), // li a7, 24
        (0x10058, 0x0000_0073), // ecall
        (0x1005c, 0x080e_2303), // lw t1, 0x80(t3)
        (0x10060, 0x4065_0533), // sub a0, a0, t1
        (0x10064, 0x0045_1513), // slli a0, a0, 4
        (0x10068, 0x0095_0533), // add a0, a0, s1
        (0x1006c, 0x0020_0893), // li a7, 2
        (0x10070, 0x0000_0073), // ecall
        (0x10074, 0x0010_0513), // li a0, 1
        (0x10078, 0x0020_0513), // li a0, 2
        // the child
        (0x1007c, 0x0782_a303), // lw t1, 0x78(t0)
        (0x10080, 0x0170_0893), // li a7, 23
        (0x10084, 0x0000_0073), // ecall
        (0x10088, 0x0000_0073), // ecall
        (0x1008c, 0x0180_0893), // li a7, 24
        (0x10090, 0x0000_0073), // ecall
        (0x10094, 0x08ae_2023), // sw a0, 0x80(t3)
        (0x10098, 0x006e_2023), // sw t1, 0(t3)
        (0x1009c, 0x0000_0513), // li a0, 0
        (0x100a0, 0x0020_0893), // li a7, 2
        (0x100a4, 0x0000_0073), // ecall
        (0x100a8, 0x0000_8067), // ret
    ],
    report: "process 1 status 18\nprocess 2 status 0\n",
    ..QUIET
};

#[test]
fn by_the_child(rt: HostRuntime) {
    check_guest(&rt, rt.alloc(), &BY_THE_CHILD);
}

/// Parent and child call one instruction of a shared page, which gives a number. Where it is even
/// the parent counts it up, and where it is odd the child; else they yield. The parent has had 0, 2
/// and so on to 20, which are 110, and the child 1, 3 and so on to 21, which are 121.
const IN_TURNS_BY_TWO_PROCESSES: Guest = Guest {
    code: &[
        // maps 0x100000, with code, and shares it
        (0x10000, 0x0010_0537), // lui a0, 0x100
        (0x10004, 0x0010_0593), // li a1, 1
        (0x10008, 0x0070_0613), // li a2, 7
        (0x1000c, 0x00d0_0893), // li a7, 13
        (0x10010, 0x0000_0073), // ecall
        (0x10014, 0x0001_02b7), // lui t0, 0x10
        (0x10018, 0x0010_0e37), // lui t3, 0x100
        (0x1001c, 0x0b82_a303), // lw t1, 0xb8(t0)
        (0x10020, 0x006e_2023), // sw t1, 0(t3)
        (0x10024, 0x0bc2_a303), // lw t1, 0xbc(t0)
        (0x10028, 0x006e_2223), // sw t1, 4(t3)
        (0x1002c, 0x0010_0537), // lui a0, 0x100
        (0x10030, 0x00f0_0893), // li a7, 15
        (0x10034, 0x0000_0073), // ecall
        (0x10038, 0x0040_0893), // li a7, 4
        (0x1003c, 0x0000_0073), // ecall
        (0x10040, 0x0015_3413), // seqz s0, a0
        (0x10044, 0x0010_03b7), // lui t2, 0x100
        (0x10048, 0x0140_0913), // li s2, 20
        (0x1004c, 0x0170_0893), // li a7, 23
        // both: s0 is 0 in the parent, and 1 in the child
        (0x10050, 0x000e_00e7), // jalr ra, 0(t3)
        (0x10054, 0x0015_7e93), // andi t4, a0, 1
        (0x10058, 0x008e_8663), // beq t4, s0, 0x10064
        (0x1005c, 0x0000_0073), // ecall
        (0x10060, 0xff1f_f06f), // j 0x10050
        (0x10064, 0x00a4_84b3), // add s1, s1, a0
        (0x10068, 0x0125_7a63), // bgeu a0, s2, 0x1007c
        (0x1006c, 0x000e_2303), // lw t1, 0(t3)
        (0x10070, 0x0073_0333), // add t1, t1, t2
        (0x10074, 0x006e_2023), // sw t1, 0(t3)
        (0x10078, 0xfd9f_f06f), // j 0x10050
        // 20, or 21
        (0x1007c, 0x0204_1663), // bnez s0, 0x100a8
        (0x10080, 0x089e_2023), // sw s1, 0x80(t3)
        (0x10084, 0x000e_2303), // lw t1, 0(t3)
        (0x10088, 0x0073_0333), // add t1, t1, t2
        (0x1008c, 0x006e_2023), // sw t1, 0(t3)
        (0x10090, 0x0000_0513), // li a0, 0
        (0x10094, 0x0050_0893), // li a7, 5
        (0x10098, 0x0000_0073), // ecall
        (0x1009c, 0x0005_8513), // mv a0, a1
        (0x100a0, 0x0020_0893), // li a7, 2
        (0x100a4, 0x0000_0073), // ecall
        (0x100a8, 0x080e_2503), // lw a0, 0x80(t3)
        (0x100ac, 0x0095_0533), // add a0, a0, s1
        (0x100b0, 0x0020_0893), // li a7, 2
        (0x100b4, 0x0000_0073), // ecall
        (0x100b8, 0x0000_0513), // li a0, 0
        (0x100bc, 0x0000_8067), // ret
    ],
    report: "process 1 status 231\nprocess 2 status 231\n",
    ..QUIET
};

#[test]
fn in_turns_by_two_processes(rt: HostRuntime) {
    check_guest(&rt, rt.alloc(), &IN_TURNS_BY_TWO_PROCESSES);
}
