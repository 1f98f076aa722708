// One instruction at a time, over one page. The words are assembled by hand, and what they give is
// worked out from the manual.
use crate::checks::{same, same_at};
use dos_world::{Access, Owner, Reason, Regs, Size};
use rv_exec::{Memory, OnePage, Went, one};
use std::alloc::{AllocError, Global};
use std::process::Abort;

/// The page from 0x1000 on, with every right, of thread 1.
fn one_page(alloc: Global) -> Result<OnePage, AllocError> {
    Ok(OnePage {
        thread: 1,
        page: 1,
        write: true,
        exec: true,
        owner: Owner::Of(1),
        bytes: Box::new(alloc, [0; 4096])?,
    })
}

/// The instruction `word`, at 0x1000, with `a` in x5 and `b` in x6.
fn run(memory: &mut OnePage, word: u32, a: u32, b: u32) -> (Went, Regs) {
    let _ = memory.store(0x1000, Size::Word, word);
    let mut regs = Regs::new(0x1000);
    regs.set(5, a);
    regs.set(6, b);
    (one(&mut regs, memory), regs)
}

/// A word, x5 and x6 before it, and what it leaves.
type Row = (u32, u32, u32, u32);

/// Words that put a result into x7.
const RESULTS: [Row; 37] = [
    (0x0062_83b3, 0xffff_ffff, 2, 1), // add x7, x5, x6
    (0x4062_83b3, 1, 2, 0xffff_ffff), // sub
    (0x0062_93b3, 3, 33, 6), // sll
    (0x0062_a3b3, 0xffff_ffff, 0, 1), // slt
    (0x0062_b3b3, 0xffff_ffff, 0, 0), // sltu
    (0x0062_c3b3, 0b1100, 0b1010, 0b0110), // xor
    (0x0062_d3b3, 0x8000_0000, 31, 1), // srl
    (0x4062_d3b3, 0x8000_0000, 63, 0xffff_ffff), // sra
    (0x0062_e3b3, 0b1100, 0b1010, 0b1110), // or
    (0x0062_f3b3, 0b1100, 0b1010, 0b1000), // and
    (0x0262_83b3, 0x1_0000, 0x1_0001, 0x1_0000), // mul
    (0x0262_93b3, 0x8000_0000, 0x8000_0000, 0x4000_0000), // mulh
    (0x0262_93b3, 0xffff_ffff, 0xffff_ffff, 0), // mulh
    (0x0262_a3b3, 0xffff_ffff, 0xffff_ffff, 0xffff_ffff), // mulhsu
    (0x0262_a3b3, 0x8000_0000, 0xffff_ffff, 0x8000_0000), // mulhsu
    (0x0262_b3b3, 0xffff_ffff, 0xffff_ffff, 0xffff_fffe), // mulhu
    (0x0262_c3b3, 0x8000_0000, 0xffff_ffff, 0x8000_0000), // div
    (0x0262_c3b3, 5, 0, 0xffff_ffff), // div
    (0x0262_c3b3, 0xffff_fff9, 2, 0xffff_fffd), // div, -7 by 2
    (0x0262_d3b3, 0xffff_fff9, 2, 0x7fff_fffc), // divu
    (0x0262_d3b3, 5, 0, 0xffff_ffff), // divu
    (0x0262_e3b3, 0x8000_0000, 0xffff_ffff, 0), // rem
    (0x0262_e3b3, 5, 0, 5), // rem
    (0x0262_e3b3, 0xffff_fff9, 2, 0xffff_ffff), // rem, -7 by 2
    (0x0262_f3b3, 0xffff_fff9, 2, 1), // remu
    (0x0262_f3b3, 5, 0, 5), // remu
    (0xfff2_8393, 0, 0, 0xffff_ffff), // addi x7, x5, -1
    (0xfff2_a393, 0, 0, 0), // slti
    (0xfff2_b393, 0, 0, 1), // sltiu
    (0xfff2_c393, 0x0f0f_0f0f, 0, 0xf0f0_f0f0), // xori
    (0xfff2_e393, 0, 0, 0xffff_ffff), // ori
    (0xfff2_f393, 0x1234_5678, 0, 0x1234_5678), // andi
    (0x01f2_9393, 3, 0, 0x8000_0000), // slli x7, x5, 31
    (0x01f2_d393, 0x8000_0000, 0, 1), // srli
    (0x41f2_d393, 0x8000_0000, 0, 0xffff_ffff), // srai
    (0xffff_f3b7, 0, 0, 0xffff_f000), // lui x7, 0xfffff
    (0xffff_f397, 0, 0, 0), // auipc x7, 0xfffff
];

fn check_results(rt: &impl Abort, memory: &mut OnePage, rows: &[Row]) {
    for &(word, a, b, x7) in rows {
        let (went, regs) = run(memory, word, a, b);
        let seen = (went, regs.get(7), regs.pc());
        same_at(rt, seen, (Went::Step, x7, 0x1004), (word, a, b));
    }
}

#[test]
fn operations_at_their_edges(rt: HostRuntime) {
    let mut memory = one_page(rt.alloc()).expect(&rt, "memory");
    check_results(&rt, &mut memory, &RESULTS);
    drop(memory);
}

/// Words that leave pc somewhere.
const TARGETS: [Row; 16] = [
    (0x0062_8463, 7, 7, 0x1008), // beq x5, x6, 8
    (0x0062_8463, 7, 8, 0x1004),
    (0x0062_9463, 7, 8, 0x1008), // bne
    (0x0062_c463, 0xffff_ffff, 0, 0x1008), // blt
    (0x0062_d463, 0xffff_ffff, 0, 0x1004), // bge
    (0x0062_d463, 7, 7, 0x1008),
    (0x0062_e463, 0xffff_ffff, 0, 0x1004), // bltu
    (0x0062_f463, 0xffff_ffff, 0, 0x1008), // bgeu
    (0xfe62_8ee3, 0, 0, 0x0ffc), // beq x5, x6, -4
    (0x0062_9363, 7, 7, 0x1004), // bne x5, x6, 6, not taken
    (0x0080_03ef, 0, 0, 0x1008), // jal x7, 8
    (0xffdf_f3ef, 0, 0, 0x0ffc), // jal x7, -4
    (0x0002_83e7, 0x2005, 0, 0x2004), // jalr x7, 0(x5), with bit 0 cleared
    (0xffc2_83e7, 0, 0, 0xffff_fffc), // jalr x7, -4(x5)
    (0x0ff0_000f, 0, 0, 0x1004), // fence
    (0x0000_100f, 0, 0, 0x1004), // fence.i
];

fn check_targets(rt: &impl Abort, memory: &mut OnePage, rows: &[Row]) {
    for &(word, a, b, pc) in rows {
        let (went, regs) = run(memory, word, a, b);
        same_at(rt, (went, regs.pc()), (Went::Step, pc), (word, a, b));
    }
}

fn check_link(rt: &impl Abort, memory: &mut OnePage) {
    let (_, regs) = run(memory, 0x0080_03ef, 0, 0);
    same(rt, regs.get(7), 0x1004);

    // jalr x5, 0(x5): the target is read before the link is written
    let (_, regs) = run(memory, 0x0002_82e7, 0x2000, 0);
    same(rt, (regs.pc(), regs.get(5)), (0x2000, 0x1004));
}

#[test]
fn branches_and_jumps(rt: HostRuntime) {
    let mut memory = one_page(rt.alloc()).expect(&rt, "memory");
    check_targets(&rt, &mut memory, &TARGETS);
    check_link(&rt, &mut memory);
    drop(memory);
}

/// Words that stop: each with x5 before it, and the reason.
const STOPS: [(u32, u32, Reason); 16] = [
    (0x0000_0000, 0, Reason::Fault(4)),
    (0xffff_ffff, 0, Reason::Fault(4)),
    (0x0000_9067, 0, Reason::Fault(4)), // jalr with funct3 1
    (0x0000_0073, 0, Reason::Service), // ecall
    (0x0010_0073, 0, Reason::Fault(5)), // ebreak
    (0x0000_9002, 0, Reason::Fault(5)), // c.ebreak
    (0x0000_4002, 0, Reason::Fault(4)), // c.lwsp x0, 0
    (0x0000_8002, 0, Reason::Fault(4)), // c.jr x0
    (0x0062_a123, 0x1000, Reason::Fault(7)), // sw x6, 2(x5)
    (0x0002_a123, 0x1000, Reason::Fault(7)), // sw x0, 2(x5)
    (0x0060_2023, 0, Reason::Fault(11)), // sw x6, 0(x0)
    (0x0000_2023, 0, Reason::Fault(11)), // sw x0, 0(x0)
    (0x0002_a283, 0x1fff, Reason::Fault(7)), // lw x5, 0(x5)
    (0x0002_a283, 0x2000, Reason::Fault(11)),
    (0x1002_a2af, 0x1002, Reason::Fault(7)), // lr.w x5, (x5)
    (0x0062_a2af, 0x2000, Reason::Fault(11)), // amoadd.w x5, x6, (x5)
];

fn check_stops(rt: &impl Abort, memory: &mut OnePage, rows: &[(u32, u32, Reason)]) {
    for &(word, a, reason) in rows {
        let (went, regs) = run(memory, word, a, 0);
        same_at(rt, went, Went::Stop(reason), (word, a));
        let left = (regs.pc(), regs.get(1), regs.get(5));
        same_at(rt, left, (0x1000, 0, a), (word, a));
    }
}

#[test]
fn stops_leave_the_registers(rt: HostRuntime) {
    let mut memory = one_page(rt.alloc()).expect(&rt, "memory");
    check_stops(&rt, &mut memory, &STOPS);
    drop(memory);
}

/// Words that load from an address in x5, and what x7 is then.
const LOADS: [(u32, u32, u32); 6] = [
    (0x0002_8383, 0x1100, 0xffff_ff83), // lb x7, 0(x5)
    (0x0002_c383, 0x1103, 0x80), // lbu
    (0x0002_9383, 0x1102, 0xffff_8081), // lh
    (0x0002_d383, 0x1100, 0x8283), // lhu
    (0x0002_a383, 0x1100, 0x8081_8283), // lw
    (0xffc2_a383, 0x1104, 0x8081_8283), // lw x7, -4(x5)
];

/// Words that store 0x11223344 at an address in x5, and the word at 0x1100 then.
const STORES: [(u32, u32, u32); 3] = [
    (0x0062_8023, 0x1101, 0x8081_4483), // sb x6, 0(x5)
    (0x0062_9023, 0x1102, 0x3344_4483), // sh
    (0x0062_a023, 0x1100, 0x1122_3344), // sw
];

fn check_loads(rt: &impl Abort, memory: &mut OnePage, rows: &[(u32, u32, u32)]) {
    for &(word, address, x7) in rows {
        let (_, regs) = run(memory, word, address, 0);
        same_at(rt, regs.get(7), x7, (word, address));
    }
}

fn check_stores(rt: &impl Abort, memory: &mut OnePage, rows: &[(u32, u32, u32)]) {
    for &(word, address, left) in rows {
        let _ = run(memory, word, address, 0x1122_3344);
        let seen = memory.load(0x1100, Size::Word);
        same_at(rt, seen, Ok(left), (word, address));
    }
}

#[test]
fn loads_and_stores(rt: HostRuntime) {
    let mut memory = one_page(rt.alloc()).expect(&rt, "memory");
    let _ = run(&mut memory, 0x0062_a023, 0x1100, 0x8081_8283);
    check_loads(&rt, &mut memory, &LOADS);
    check_stores(&rt, &mut memory, &STORES);
    drop(memory);
}

/// Words on 0x1100: the word there before, x6, and the word there then.
const ATOMICS: [Row; 9] = [
    (0x0862_a3af, 5, 7, 7), // amoswap.w x7, x6, (x5)
    (0x0062_a3af, 0xffff_ffff, 2, 1), // amoadd.w
    (0x2062_a3af, 0b1100, 0b1010, 0b0110), // amoxor.w
    (0x6062_a3af, 0b1100, 0b1010, 0b1000), // amoand.w
    (0x4062_a3af, 0b1100, 0b1010, 0b1110), // amoor.w
    (0x8062_a3af, 0xffff_ffff, 1, 0xffff_ffff), // amomin.w
    (0xa062_a3af, 0xffff_ffff, 1, 1), // amomax.w
    (0xc062_a3af, 0xffff_ffff, 1, 1), // amominu.w
    (0xe062_a3af, 0xffff_ffff, 1, 0xffff_ffff), // amomaxu.w
];

fn check_atomics(rt: &impl Abort, memory: &mut OnePage, rows: &[Row]) {
    for &(word, old, b, left) in rows {
        let _ = memory.store(0x1100, Size::Word, old);
        let (_, regs) = run(memory, word, 0x1100, b);
        let now = memory.load(0x1100, Size::Word);
        same_at(rt, (regs.get(7), now), (old, Ok(left)), word);
    }
}

#[test]
fn atomics(rt: HostRuntime) {
    let mut memory = one_page(rt.alloc()).expect(&rt, "memory");
    check_atomics(&rt, &mut memory, &ATOMICS);
    drop(memory);
}

/// One instruction is done; what x6, x10 and the reservation are then.
fn check_step(
    rt: &impl Abort,
    regs: &mut Regs,
    memory: &mut OnePage,
    want: (u32, u32, Option<u32>),
) {
    let went = one(regs, memory);
    let seen = (regs.get(6), regs.get(10), regs.held());
    same(rt, (went, seen), (Went::Step, want));
}

/// The registers of a thread at this pc, with 0x1100 in x5.
fn registers_at(pc: u32) -> Regs {
    let mut regs = Regs::new(pc);
    regs.set(5, 0x1100);
    regs
}

/// lr.w x6, (x5), then sc.w x10, x6, (x5) two times.
#[test]
fn the_second_store_fails(rt: HostRuntime) {
    let mut memory = one_page(rt.alloc()).expect(&rt, "memory");
    let _ = memory.store(0x1000, Size::Word, 0x1002_a32f);
    let _ = memory.store(0x1004, Size::Word, 0x1862_a52f);
    let _ = memory.store(0x1008, Size::Word, 0x1862_a52f);
    let _ = memory.store(0x1100, Size::Word, 8);
    let mut regs = registers_at(0x1000);
    check_step(&rt, &mut regs, &mut memory, (8, 0, Some(0x1100)));
    regs.set(6, 9);
    check_step(&rt, &mut regs, &mut memory, (9, 0, None));
    same(&rt, memory.load(0x1100, Size::Word), Ok(9));
    regs.set(6, 10);
    check_step(&rt, &mut regs, &mut memory, (10, 1, None));
    same(&rt, memory.load(0x1100, Size::Word), Ok(9));
    drop(memory);
}

/// Whose the page is, pc, and the access that stops and its address.
type OwnerRow = (Owner, u32, Access, u32);

fn check_owners(rt: &impl Abort, memory: &mut OnePage, rows: &[OwnerRow]) {
    for &(owner, pc, access, address) in rows {
        memory.owner = owner;
        let mut regs = registers_at(pc);
        let stop = Went::Stop(Reason::Page { address, access });
        same_at(rt, one(&mut regs, memory), stop, pc);
    }
}

#[test]
fn a_page_of_another(rt: HostRuntime) {
    let mut memory = one_page(rt.alloc()).expect(&rt, "memory");
    let _ = memory.store(0x1000, Size::Word, 0x1862_a3af); // sc.w x7, x6, (x5)
    let _ = memory.store(0x1004, Size::Word, 0x0062_a023); // sw x6, 0(x5)
    let rows = [
        (Owner::Of(2), 0x1000, Access::Fetch, 0x1000),
        (Owner::Shared, 0x1000, Access::Claim, 0x1100),
        (Owner::Shared, 0x1004, Access::Store, 0x1100),
    ];
    check_owners(&rt, &mut memory, &rows);
    drop(memory);
}
