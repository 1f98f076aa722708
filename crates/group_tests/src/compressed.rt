//! Guests of compressed instructions, and of instructions over two pages. The halfwords are those
//! that GNU's assembler makes of the lines beside them.
use crate::calls::{Wanted, leaves, run_twice};
use crate::guests;
use crate::guests::{files_of_halves, files_with};
use dos_io::{Files, MemoryFiles};
use std::alloc::Global;
use std::process::Abort;
use std::thread::Threads;

// Halfwords from 0x10000 on, so many zeros, and more halfwords; what the call leaves in error.
struct Guest {
    first: &'static [u16],
    zeros: usize,
    last: &'static [u16],
    err: &'static str,
}

const SEVEN: &str = "process 1 status 7\nrounds 1 done\n";

const SIX: &str = "process 1 status 6\nrounds 1 done\n";

const NO_PAGE: &str = "process 1 status 139\nrounds 1 done\n";

const SEVEN_IN_ROUND_3: &str = "process 1 status 7\nrounds 3 done\n";

// From 0x10ffe on there stands an instruction over two pages, or its lower half alone.
const GUESTS: [Guest; 9] = [
    // c.li x17, 2; c.li x10, 7; ecall
    Guest {
        first: &[0x4889, 0x451d, 0x0073, 0x0000],
        zeros: 0,
        last: &[],
        err: SEVEN,
    },
    // jal x0, 0x10ffe; there addi x17, x0, 2; c.li x10, 7; ecall
    Guest {
        first: &[0x006f, 0x7ff0],
        zeros: 2045,
        last: &[0x0893, 0x0020, 0x451d, 0x0073, 0x0000],
        err: SEVEN,
    },
    // the same, but nothing is mapped behind the first page
    Guest {
        first: &[0x006f, 0x7ff0],
        zeros: 2045,
        last: &[0x0893],
        err: NO_PAGE,
    },
    // the page behind the first is mapped for loads and stores alone: li a7, 13; lui a0, 0x11;
    // li a1, 1; li a2, 6; ecall; lui t0, 0x11; jr -2(t0)
    Guest {
        first: &[
            0x48b5, 0x6545, 0x4585, 0x4619, 0x0073, 0x0000, 0x62c5, 0x8067, 0xffe2,
        ],
        zeros: 2038,
        last: &[0x0893],
        err: NO_PAGE,
    },
    // Thread 1 makes thread 2 (li a7, 3; lui a0, 0x10; addi a0, a0, 26; ecall) and yields twice
    // (li a7, 23; ecall; ecall). Thread 2 takes the second page and is gone: lui t0, 0x11;
    // sw zero, 64(t0); li a7, 1; ecall. Then thread 1 goes on: lui t0, 0x11; jr -2(t0); there
    // addi a0, zero, 7; li a7, 2; ecall.
    Guest {
        first: &[
            0x488d, 0x6541, 0x0569, 0x0073, 0x0000, 0x48dd, 0x0073, 0x0000, 0x0073, 0x0000, 0x62c5,
            0x8067, 0xffe2, 0x62c5, 0xa023, 0x0402, 0x4885, 0x0073, 0x0000,
        ],
        zeros: 2028,
        last: &[0x0513, 0x0070, 0x4889, 0x0073, 0x0000],
        err: SEVEN_IN_ROUND_3,
    },
    // Thread 1 makes thread 2 (li a7, 3; lui a0, 0x10; addi a0, a0, 24; ecall), prepares (li a7,
    // 23; li a5, 7; lui a4, 0xeffff; lui t0, 0x11; jr -10(t0)) and yields twice (ecall; ecall).
    // Thread 2 takes both pages and one of the stack: lui t0, 0x11; lui t1, 0xeffff;
    // sw zero, 64(t0); sw zero, 0(t1); sw zero, -64(t0); li a7, 23; ecall; j .-4. Then one
    // instruction of thread 1 needs all three: sw a5, 0(a4); lw a0, 0(a4); li a7, 2; ecall.
    Guest {
        first: &[
            0x488d, 0x6541, 0x0561, 0x0073, 0x0000, 0x48dd, 0x479d, 0xf737, 0xefff, 0x62c5, 0x8067,
            0xff62, 0x62c5, 0xf337, 0xefff, 0xa023, 0x0402, 0x2023, 0x0003, 0xa023, 0xfc02, 0x48dd,
            0x0073, 0x0000, 0xbff5,
        ],
        zeros: 2018,
        last: &[
            0x0073, 0x0000, 0x0073, 0x0000, 0x2023, 0x00f7, 0x4308, 0x4889, 0x0073, 0x0000,
        ],
        err: SEVEN_IN_ROUND_3,
    },
    // lui t0, 0x11; jr -2(t0); there addi a0, a0, 1; bnez s0, to li a7, 2; li s0, 1;
    // addi t1, zero, 0x55; sh t1, 0(t0), which makes of it addi a0, a0, 5; jr -2(t0); li a7, 2;
    // ecall
    Guest {
        first: &[0x62c5, 0x8067, 0xffe2],
        zeros: 2044,
        last: &[
            0x0513, 0x0015, 0xe801, 0x4405, 0x0313, 0x0550, 0x9023, 0x0062, 0x8067, 0xffe2, 0x4889,
            0x0073, 0x0000,
        ],
        err: SIX,
    },
    // the same within a page: lui t0, 0x10; nop; addi t0, t0, 8; addi a0, a0, 1; bnez s0, to
    // li a7, 2; li s0, 1; addi t1, zero, 0x55; sh t1, 0(t0); j to addi a0; li a7, 2; ecall
    Guest {
        first: &[
            0x62c1, 0x0001, 0x02a1, 0x0513, 0x0015, 0xe419, 0x4405, 0x0313, 0x0550, 0x9023, 0x0062,
            0xbfc5, 0x4889, 0x0073, 0x0000,
        ],
        zeros: 0,
        last: &[],
        err: SIX,
    },
    // lui a0, 0x451d0, whose upper half is li a0, 7; bnez s0, to li a7, 2; li s0, 1; j to that
    // upper half; li a7, 2; ecall
    Guest {
        first: &[
            0x0537, 0x451d, 0xe019, 0x4405, 0xbfed, 0x4889, 0x0073, 0x0000,
        ],
        zeros: 0,
        last: &[],
        err: SEVEN,
    },
];

fn check_guest<R: Threads + Sync + Abort>(rt: &R, alloc: Global, words: &[&str], guest: &Guest) {
    let Guest { first, last, .. } = *guest;
    let mut files = files_of_halves(rt, alloc, first, guest.zeros, last);
    run_twice(rt, alloc, &mut files, words, (0, "", guest.err));
    drop(files);
}

fn check_guests<R: Threads + Sync + Abort>(rt: &R, alloc: Global, workers: &str) {
    for guest in &GUESTS {
        check_guest(rt, alloc, &["run", "--workers", workers, "a"], guest);
    }
}

#[test]
fn instructions_stand_at_even_addresses(rt: HostRuntime) {
    check_guests(&rt, rt.alloc(), "1");
}

#[test]
fn instructions_stand_at_even_addresses_with_32_workers(rt: HostRuntime) {
    check_guests(&rt, rt.alloc(), "32");
}

// Where the flags of a file stand.
const FLAGS: usize = 36;

// A guest of words alone, in a file with these flags.
fn files_with_flags(rt: &impl Abort, alloc: Global, flags: u8) -> MemoryFiles {
    let mut files = files_with(rt, alloc, &guests::SEVEN, b"", 0);
    let mut file = files.get("a", 1 << 22).expect(rt, "a file");
    if file.len() > FLAGS {
        file[FLAGS] = flags;
    }
    files.add("a", &file).expect(rt, "memory");
    drop(file);
    files
}

fn check_flags<R: Threads + Sync + Abort>(rt: &R, alloc: Global, flags: u8, wanted: Wanted<'_>) {
    let mut files = files_with_flags(rt, alloc, flags);
    let _ = leaves(rt, alloc, &mut files, &["run", "a"], wanted);
    drop(files);
}

// 1 asks for compressed instructions, 2 for floats in registers
#[test]
fn a_file_may_ask_for_compressed_instructions(rt: HostRuntime) {
    check_flags(&rt, rt.alloc(), 1, (0, "", SEVEN));
    check_flags(&rt, rt.alloc(), 3, (3, "", "dos: image 1 refused 8\n"));
}
