//! Pages of code that are copied by a fork, unmapped, and mapped anew.
use crate::calls::check_guest;
use crate::guests::{Guest, QUIET};

/// They add 10 and 1 in turn, and their parent has the sum.
const SIX_CHILDREN: &str = "process 1 status 33\n\
    process 2 status 10\n\
    process 3 status 1\n\
    process 4 status 10\n\
    process 5 status 1\n\
    process 6 status 10\n\
    process 7 status 1\n";

/// An instruction is run, which adds 1; then a child stores over its copy, and ends with 1 and 10.
/// Its parent runs what it was, and ends with 1 and 1 and the child's status.
const A_FORKED_COPY: Guest = Guest {
    code: &[
        (0x10000, 0x0001_02b7), // lui t0, 0x10
        (0x10004, 0x04c0_00ef), // jal ra, 0x10050
        (0x10008, 0x0040_0893), // li a7, 4
        (0x1000c, 0x0005_0413), // mv s0, a0
        (0x10010, 0x0000_0073), // ecall
        (0x10014, 0x0205_0263), // beqz a0, 0x10038
        // waits for the child
        (0x10018, 0x0000_0513), // li a0, 0
        (0x1001c, 0x0050_0893), // li a7, 5
        (0x10020, 0x0000_0073), // ecall
        (0x10024, 0x0004_0513), // mv a0, s0
        (0x10028, 0x0280_00ef), // jal ra, 0x10050
        (0x1002c, 0x00b5_0533), // add a0, a0, a1
        (0x10030, 0x0020_0893), // li a7, 2
        (0x10034, 0x0000_0073), // ecall
        (0x10038, 0x0582_a303), // lw t1, 0x58(t0)
        (0x1003c, 0x0462_a823), // sw t1, 0x50(t0)
        (0x10040, 0x0004_0513), // mv a0, s0
        (0x10044, 0x00c0_00ef), // jal ra, 0x10050
        (0x10048, 0x0020_0893), // li a7, 2
        (0x1004c, 0x0000_0073), // ecall
        (0x10050, 0x0015_0513), // addi a0, a0, 1
        (0x10054, 0x0000_8067), // ret
        (0x10058, 0x00a5_0513), // addi a0, a0, 10
    ],
    report: "process 1 status 13\nprocess 2 status 11\n",
    ..QUIET
};

#[test]
fn a_forked_copy(rt: HostRuntime) {
    check_guest(&rt, rt.alloc(), &A_FORKED_COPY);
}

/// The same where the parent stores over its own while the child yields: the child runs what it
/// was, and ends with 1 and 1, the parent with 1 and 10 and the child's status.
const THE_PARENTS_COPY: Guest = Guest {
    code: &[
        (0x10000, 0x0001_02b7), // lui t0, 0x10
        (0x10004, 0x0580_00ef), // jal ra, 0x1005c
        (0x10008, 0x0040_0893), // li a7, 4
        (0x1000c, 0x0005_0413), // mv s0, a0
        (0x10010, 0x0000_0073), // ecall
        (0x10014, 0x0205_0663), // beqz a0, 0x10040
        (0x10018, 0x0642_a303), // lw t1, 0x64(t0)
        (0x1001c, 0x0462_ae23), // sw t1, 0x5c(t0)
        // waits for the child
        (0x10020, 0x0000_0513), // li a0, 0
        (0x10024, 0x0050_0893), // li a7, 5
        (0x10028, 0x0000_0073), // ecall
        (0x1002c, 0x0004_0513), // mv a0, s0
        (0x10030, 0x02c0_00ef), // jal ra, 0x1005c
        (0x10034, 0x00b5_0533), // add a0, a0, a1
        (0x10038, 0x0020_0893), // li a7, 2
        (0x1003c, 0x0000_0073), // ecall
        (0x10040, 0x0170_0893), // li a7, 23
        (0x10044, 0x0000_0073), // ecall
        (0x10048, 0x0000_0073), // ecall
        (0x1004c, 0x0004_0513), // mv a0, s0
        (0x10050, 0x00c0_00ef), // jal ra, 0x1005c
        (0x10054, 0x0020_0893), // li a7, 2
        (0x10058, 0x0000_0073), // ecall
        (0x1005c, 0x0015_0513), // addi a0, a0, 1
        (0x10060, 0x0000_8067), // ret
        (0x10064, 0x00a5_0513), // addi a0, a0, 10
    ],
    report: "process 1 status 13\nprocess 2 status 2\n",
    ..QUIET
};

#[test]
fn the_parents_copy(rt: HostRuntime) {
    check_guest(&rt, rt.alloc(), &THE_PARENTS_COPY);
}

/// In each of six turns a page is mapped, code is stored there, run, and unmapped again: it adds 10
/// and 1 in turn, 33.
const MAPPED_ANEW: Guest = Guest {
    code: &[
        (0x10000, 0x0001_02b7), // lui t0, 0x10
        (0x10004, 0x0010_0e37), // lui t3, 0x100
        (0x10008, 0x06c2_a303), // lw t1, 0x6c(t0)
        (0x1000c, 0x0682_a383), // lw t2, 0x68(t0)
        (0x10010, 0x0063_c3b3), // xor t2, t2, t1
        (0x10014, 0x0702_ae83), // lw t4, 0x70(t0)
        (0x10018, 0x0060_0413), // li s0, 6
        (0x1001c, 0x000e_0513), // mv a0, t3
        (0x10020, 0x0010_0593), // li a1, 1
        (0x10024, 0x0070_0613), // li a2, 7
        (0x10028, 0x00d0_0893), // li a7, 13
        (0x1002c, 0x0000_0073), // ecall
        (0x10030, 0x006e_2023), // sw t1, 0(t3)
        (0x10034, 0x01de_2223), // sw t4, 4(t3)
        (0x10038, 0x0004_8513), // mv a0, s1
        (0x1003c, 0x000e_00e7), // jalr ra, 0(t3)
        (0x10040, 0x0005_0493), // mv s1, a0
        (0x10044, 0x0073_4333), // xor t1, t1, t2
        (0x10048, 0x000e_0513), // mv a0, t3
        (0x1004c, 0x00e0_0893), // li a7, 14
        (0x10050, 0x0000_0073), // ecall
        (0x10054, 0xfff4_0413), // addi s0, s0, -1
        (0x10058, 0xfc04_12e3), // bnez s0, 0x1001c
        (0x1005c, 0x0004_8513), // mv a0, s1
        (0x10060, 0x0020_0893), // li a7, 2
        (0x10064, 0x0000_0073), // ecall
        (0x10068, 0x0015_0513), // addi a0, a0, 1
        (0x1006c, 0x00a5_0513), // addi a0, a0, 10
        (0x10070, 0x0000_8067), // ret
    ],
    report: "process 1 status 33\n",
    ..QUIET
};

#[test]
fn mapped_anew(rt: HostRuntime) {
    check_guest(&rt, rt.alloc(), &MAPPED_ANEW);
}

/// A page of code is run and unmapped, and called again: 139.
const UNMAPPED: Guest = Guest {
    code: &[
        (0x10000, 0x0010_0537), // lui a0, 0x100
        (0x10004, 0x0010_0593), // li a1, 1
        (0x10008, 0x0070_0613), // li a2, 7
        (0x1000c, 0x00d0_0893), // li a7, 13
        (0x10010, 0x0000_0073), // ecall
        (0x10014, 0x0001_02b7), // lui t0, 0x10
        (0x10018, 0x0010_0e37), // lui t3, 0x100
        (0x1001c, 0x0442_ae83), // lw t4, 0x44(t0)
        (0x10020, 0x01de_2023), // sw t4, 0(t3)
        (0x10024, 0x000e_00e7), // jalr ra, 0(t3)
        (0x10028, 0x0010_0537), // lui a0, 0x100
        (0x1002c, 0x00e0_0893), // li a7, 14
        (0x10030, 0x0000_0073), // ecall
        (0x10034, 0x000e_00e7), // jalr ra, 0(t3)
        (0x10038, 0x0000_0513), // li a0, 0
        (0x1003c, 0x0020_0893), // li a7, 2
        (0x10040, 0x0000_0073), // ecall
        (0x10044, 0x0000_8067), // ret
    ],
    report: "process 1 status 139\n",
    ..QUIET
};

#[test]
fn unmapped(rt: HostRuntime) {
    check_guest(&rt, rt.alloc(), &UNMAPPED);
}

/// The same where it was mapped again, and has zeros, which are no instruction: 132.
const MAPPED_WITH_ZEROS: Guest = Guest {
    code: &[
        (0x10000, 0x0010_0537), // lui a0, 0x100
        (0x10004, 0x0010_0593), // li a1, 1
        (0x10008, 0x0070_0613), // li a2, 7
        (0x1000c, 0x00d0_0893), // li a7, 13
        (0x10010, 0x0000_0073), // ecall
        (0x10014, 0x0001_02b7), // lui t0, 0x10
        (0x10018, 0x0010_0e37), // lui t3, 0x100
        (0x1001c, 0x0502_ae83), // lw t4, 0x50(t0)
        (0x10020, 0x01de_2023), // sw t4, 0(t3)
        (0x10024, 0x000e_00e7), // jalr ra, 0(t3)
        (0x10028, 0x0010_0537), // lui a0, 0x100
        (0x1002c, 0x00e0_0893), // li a7, 14
        (0x10030, 0x0000_0073), // ecall
        (0x10034, 0x0010_0537), // lui a0, 0x100
        (0x10038, 0x00d0_0893), // li a7, 13
        (0x1003c, 0x0000_0073), // ecall
        (0x10040, 0x000e_00e7), // jalr ra, 0(t3)
        (0x10044, 0x0000_0513), // li a0, 0
        (0x10048, 0x0020_0893), // li a7, 2
        (0x1004c, 0x0000_0073), // ecall
        (0x10050, 0x0000_8067), // ret
    ],
    report: "process 1 status 132\n",
    ..QUIET
};

#[test]
fn mapped_with_zeros(rt: HostRuntime) {
    check_guest(&rt, rt.alloc(), &MAPPED_WITH_ZEROS);
}

/// The same where it was mapped again without X, and has the same code: 139.
const MAPPED_WITHOUT_X: Guest = Guest {
    code: &[
        (0x10000, 0x0010_0537), // lui a0, 0x100
        (0x10004, 0x0010_0593), // li a1, 1
        (0x10008, 0x0070_0613), // li a2, 7
        (0x1000c, 0x00d0_0893), // li a7, 13
        (0x10010, 0x0000_0073), // ecall
        (0x10014, 0x0001_02b7), // lui t0, 0x10
        (0x10018, 0x0010_0e37), // lui t3, 0x100
        (0x1001c, 0x0582_ae83), // lw t4, 0x58(t0)
        (0x10020, 0x01de_2023), // sw t4, 0(t3)
        (0x10024, 0x000e_00e7), // jalr ra, 0(t3)
        (0x10028, 0x0010_0537), // lui a0, 0x100
        (0x1002c, 0x00e0_0893), // li a7, 14
        (0x10030, 0x0000_0073), // ecall
        (0x10034, 0x0010_0537), // lui a0, 0x100
        (0x10038, 0x0060_0613), // li a2, 6
        (0x1003c, 0x00d0_0893), // li a7, 13
        (0x10040, 0x0000_0073), // ecall
        (0x10044, 0x01de_2023), // sw t4, 0(t3)
        (0x10048, 0x000e_00e7), // jalr ra, 0(t3)
        (0x1004c, 0x0000_0513), // li a0, 0
        (0x10050, 0x0020_0893), // li a7, 2
        (0x10054, 0x0000_0073), // ecall
        (0x10058, 0x0000_8067), // ret
    ],
    report: "process 1 status 139\n",
    ..QUIET
};

#[test]
fn mapped_without_x(rt: HostRuntime) {
    check_guest(&rt, rt.alloc(), &MAPPED_WITHOUT_X);
}

/// A page's code unmaps the page that it stands on: 139 at the instruction behind the call.
const ITS_OWN_PAGE: Guest = Guest {
    code: &[
        (0x10000, 0x0001_1537), // lui a0, 0x11
        (0x10004, 0x0010_0593), // li a1, 1
        (0x10008, 0x00e0_0893), // li a7, 14
        (0x1000c, 0x0001_1e37), // lui t3, 0x11
        (0x10010, 0x000e_0067), // jalr zero, 0(t3)
        (0x11000, 0x0000_0073), // ecall
        (0x11004, 0x0000_0513), // li a0, 0
        (0x11008, 0x0020_0893), // li a7, 2
        (0x1100c, 0x0000_0073), // ecall
    ],
    report: "process 1 status 139\n",
    ..QUIET
};

#[test]
fn its_own_page(rt: HostRuntime) {
    check_guest(&rt, rt.alloc(), &ITS_OWN_PAGE);
}

/// Thread 2 calls code on a page, until thread 1 has unmapped it: 139.
const UNMAPPED_BY_ANOTHER: Guest = Guest {
    code: &[
        (0x10000, 0x0010_0537), // lui a0, 0x100
        (0x10004, 0x0010_0593), // li a1, 1
        (0x10008, 0x0070_0613), // li a2, 7
        (0x1000c, 0x00d0_0893), // li a7, 13
        (0x10010, 0x0000_0073), // ecall
        (0x10014, 0x0001_02b7), // lui t0, 0x10
        (0x10018, 0x0010_0e37), // lui t3, 0x100
        (0x1001c, 0x0642_ae83), // lw t4, 0x64(t0)
        (0x10020, 0x01de_2023), // sw t4, 0(t3)
        (0x10024, 0x0001_0537), // lui a0, 0x10
        (0x10028, 0x0585_0513), // addi a0, a0, 0x58
        (0x1002c, 0x0030_0893), // li a7, 3
        (0x10030, 0x0000_0073), // ecall
        (0x10034, 0x0170_0893), // li a7, 23
        (0x10038, 0x0000_0073), // ecall
        (0x1003c, 0x0000_0073), // ecall
        (0x10040, 0x0010_0537), // lui a0, 0x100
        (0x10044, 0x0010_0593), // li a1, 1
        (0x10048, 0x00e0_0893), // li a7, 14
        (0x1004c, 0x0000_0073), // ecall
        (0x10050, 0x0010_0893), // li a7, 1
        (0x10054, 0x0000_0073), // ecall
        // thread 2
        (0x10058, 0x0010_0e37), // lui t3, 0x100
        (0x1005c, 0x000e_00e7), // jalr ra, 0(t3)
        (0x10060, 0xffdf_f06f), // j 0x1005c
        (0x10064, 0x0000_8067), // ret
    ],
    report: "process 1 status 139\n",
    ..QUIET
};

#[test]
fn unmapped_by_another(rt: HostRuntime) {
    check_guest(&rt, rt.alloc(), &UNMAPPED_BY_ANOTHER);
}

/// Thread 2 calls code on a page, which gives 1, until thread 1 has in one round unmapped it,
/// mapped it again and stored other code there, which gives 2.
const MAPPED_ANEW_BY_ANOTHER: Guest = Guest {
    code: &[
        (0x10000, 0x0010_0537), // lui a0, 0x100
        (0x10004, 0x0010_0593), // li a1, 1
        (0x10008, 0x0070_0613), // li a2, 7
        (0x1000c, 0x00d0_0893), // li a7, 13
        (0x10010, 0x0000_0073), // ecall
        (0x10014, 0x0001_02b7), // lui t0, 0x10
        (0x10018, 0x0010_0e37), // lui t3, 0x100
        (0x1001c, 0x07c2_a303), // lw t1, 0x7c(t0)
        (0x10020, 0x006e_2023), // sw t1, 0(t3)
        (0x10024, 0x09c2_ae83), // lw t4, 0x9c(t0)
        (0x10028, 0x01de_2223), // sw t4, 4(t3)
        (0x1002c, 0x0001_0537), // lui a0, 0x10
        (0x10030, 0x0845_0513), // addi a0, a0, 0x84
        (0x10034, 0x0030_0893), // li a7, 3
        (0x10038, 0x0000_0073), // ecall
        (0x1003c, 0x0802_a303), // lw t1, 0x80(t0)
        (0x10040, 0x0010_0593), // li a1, 1
        (0x10044, 0x0070_0613), // li a2, 7
        (0x10048, 0x0170_0893), // li a7, 23
        (0x1004c, 0x0000_0073), // ecall
        (0x10050, 0x0000_0073), // ecall
        // within a round
        (0x10054, 0x000e_0513), // mv a0, t3
        (0x10058, 0x00e0_0893), // li a7, 14
        (0x1005c, 0x0000_0073), // ecall
        (0x10060, 0x000e_0513), // mv a0, t3
        (0x10064, 0x00d0_0893), // li a7, 13
        (0x10068, 0x0000_0073), // ecall
        (0x1006c, 0x006e_2023), // sw t1, 0(t3)
        (0x10070, 0x01de_2223), // sw t4, 4(t3)
        (0x10074, 0x0010_0893), // li a7, 1
        (0x10078, 0x0000_0073), // ecall
        (0x1007c, 0x0010_0513), // li a0, 1
        (0x10080, 0x0020_0513), // li a0, 2
        // thread 2
        (0x10084, 0x0010_0e37), // lui t3, 0x100
        (0x10088, 0x0010_0413), // li s0, 1
        (0x1008c, 0x000e_00e7), // jalr ra, 0(t3)
        (0x10090, 0xfe85_0ee3), // beq a0, s0, 0x1008c
        (0x10094, 0x0020_0893), // li a7, 2
        (0x10098, 0x0000_0073), // ecall
        (0x1009c, 0x0000_8067), // ret
    ],
    report: "process 1 status 2\n",
    ..QUIET
};

#[test]
fn mapped_anew_by_another(rt: HostRuntime) {
    check_guest(&rt, rt.alloc(), &MAPPED_ANEW_BY_ANOTHER);
}

/// Six children one after another map a page, which is the same frame each time, and run what they
/// store there: it adds 10 and 1 in turn. The parent ends with the sum of their statuses.
const FRAMES_OF_CHILDREN: Guest = Guest {
    code: &[
        (0x10000, 0x0001_02b7), // lui t0, 0x10
        (0x10004, 0x0010_0e37), // lui t3, 0x100
        (0x10008, 0x0802_a303), // lw t1, 0x80(t0)
        (0x1000c, 0x07c2_a383), // lw t2, 0x7c(t0)
        (0x10010, 0x0063_c3b3), // xor t2, t2, t1
        (0x10014, 0x0842_ae83), // lw t4, 0x84(t0)
        (0x10018, 0x0060_0413), // li s0, 6
        (0x1001c, 0x0040_0893), // li a7, 4
        (0x10020, 0x0000_0073), // ecall
        (0x10024, 0x0205_0663), // beqz a0, 0x10050
        (0x10028, 0x0000_0513), // li a0, 0
        (0x1002c, 0x0050_0893), // li a7, 5
        (0x10030, 0x0000_0073), // ecall
        (0x10034, 0x00b4_84b3), // add s1, s1, a1
        (0x10038, 0x0073_4333), // xor t1, t1, t2
        (0x1003c, 0xfff4_0413), // addi s0, s0, -1
        (0x10040, 0xfc04_1ee3), // bnez s0, 0x1001c
        (0x10044, 0x0004_8513), // mv a0, s1
        (0x10048, 0x0020_0893), // li a7, 2
        (0x1004c, 0x0000_0073), // ecall
        (0x10050, 0x000e_0513), // mv a0, t3
        (0x10054, 0x0010_0593), // li a1, 1
        (0x10058, 0x0070_0613), // li a2, 7
        (0x1005c, 0x00d0_0893), // li a7, 13
        (0x10060, 0x0000_0073), // ecall
        (0x10064, 0x006e_2023), // sw t1, 0(t3)
        (0x10068, 0x01de_2223), // sw t4, 4(t3)
        (0x1006c, 0x0000_0513), // li a0, 0
        (0x10070, 0x000e_00e7), // jalr ra, 0(t3)
        (0x10074, 0x0020_0893), // li a7, 2
        (0x10078, 0x0000_0073), // ecall
        (0x1007c, 0x0015_0513), // addi a0, a0, 1
        (0x10080, 0x00a5_0513), // addi a0, a0, 10
        (0x10084, 0x0000_8067), // ret
    ],
    report: SIX_CHILDREN,
    ..QUIET
};

#[test]
fn frames_of_children(rt: HostRuntime) {
    check_guest(&rt, rt.alloc(), &FRAMES_OF_CHILDREN);
}

/// An instruction over two pages is called. Then the second page is unmapped and mapped again, and
/// has another upper half: 1 and 5.
const A_SECOND_HALF_ANEW: Guest = Guest {
    code: &[
        (0x10000, 0x0001_12b7), // lui t0, 0x11
        // the upper half of addi a0, a0, 5, and c.jr ra
        (0x10004, 0x8082_0337), // lui t1, 0x80820
        (0x10008, 0x0553_0313), // addi t1, t1, 0x55
        (0x1000c, 0xffe2_80e7), // jalr ra, -2(t0)
        (0x10010, 0x0005_0413), // mv s0, a0
        (0x10014, 0x0002_8513), // mv a0, t0
        (0x10018, 0x0010_0593), // li a1, 1
        (0x1001c, 0x00e0_0893), // li a7, 14
        (0x10020, 0x0000_0073), // ecall
        (0x10024, 0x0002_8513), // mv a0, t0
        (0x10028, 0x0070_0613), // li a2, 7
        (0x1002c, 0x00d0_0893), // li a7, 13
        (0x10030, 0x0000_0073), // ecall
        (0x10034, 0x0062_a023), // sw t1, 0(t0)
        (0x10038, 0x0004_0513), // mv a0, s0
        (0x1003c, 0xffe2_80e7), // jalr ra, -2(t0)
        (0x10040, 0x0020_0893), // li a7, 2
        (0x10044, 0x0000_0073), // ecall
        (0x10ffc, 0x0001), // c.nop
        (0x10ffe, 0x0015_0513), // addi a0, a0, 1
        (0x11002, 0x8082), // c.jr ra
    ],
    report: "process 1 status 6\n",
    ..QUIET
};

#[test]
fn a_second_half_anew(rt: HostRuntime) {
    check_guest(&rt, rt.alloc(), &A_SECOND_HALF_ANEW);
}

/// The same where the second page is unmapped alone: 139.
const A_SECOND_HALF_GONE: Guest = Guest {
    code: &[
        (0x10000, 0x0001_12b7), // lui t0, 0x11
        (0x10004, 0xffe2_80e7), // jalr ra, -2(t0)
        (0x10008, 0x0002_8513), // mv a0, t0
        (0x1000c, 0x0010_0593), // li a1, 1
        (0x10010, 0x00e0_0893), // li a7, 14
        (0x10014, 0x0000_0073), // ecall
        (0x10018, 0xffe2_80e7), // jalr ra, -2(t0)
        (0x1001c, 0x0020_0893), // li a7, 2
        (0x10020, 0x0000_0073), // ecall
        (0x10ffc, 0x0001), // c.nop
        (0x10ffe, 0x0015_0513), // addi a0, a0, 1
        (0x11002, 0x8082), // c.jr ra
    ],
    report: "process 1 status 139\n",
    ..QUIET
};

#[test]
fn a_second_half_gone(rt: HostRuntime) {
    check_guest(&rt, rt.alloc(), &A_SECOND_HALF_GONE);
}
