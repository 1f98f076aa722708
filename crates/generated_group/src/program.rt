//! The program, stretch by stretch.

ghost use Rattle.std.specs.Prelude.{◌≡◌, ◌≤◌, ◌∷◌, [], length, false, Some, OnOk, IfOk};
ghost use Rattle.rv_asm.specs.Source.{halfwords_of, empty_at};
ghost use Rattle.generated_group.specs.Generated.{set_up, print};
ghost use Rattle.generated_group.specs.Stretches.{started, told, with_code, with_start, worked};

use crate::code::{add_lower, load_upper, push_all};
use rv_asm::{Builder, Label};
use rv_isa::{BranchOp, ImmOp, Instr, LoadOp, RegOp, ShiftOp, StoreOp};
use std::alloc::{AllocError, Global};

/// Where the code begins.
const CODE: u32 = 0x1_0000;

/// Where the pages of the threads begin, with the shared page first.
const PAGES: u32 = 0x2_0000;

/// The size of a page in bytes.
const PAGE: u32 = 4096;

/// How many turns a thread takes.
const TURNS: i32 = 1000;

/// The multiplier and the increment of the numbers.
const MULTIPLIER: u32 = 1664525;

const INCREMENT: u32 = 1013904223;

// Numbers of services.
const THREAD_EXIT: i32 = 1;

const THREAD_NEW: i32 = 3;

const WRITE: i32 = 8;

// Registers by what they hold. The first four are the calling convention's own names.
const ZERO: u8 = 0;

const A0: u8 = 10;

const A1: u8 = 11;

const A2: u8 = 12;

const SERVICE: u8 = 17;

const PLACE: u8 = 5;

const WORD: u8 = 6;

const SHARED: u8 = 8;

const COUNT: u8 = 9;

const INDEX: u8 = 18;

const OWN: u8 = 19;

const NUMBER: u8 = 20;

const LEFT: u8 = 21;

const FACTOR: u8 = 22;

const STEP: u8 = 23;

/// `addi rd, rs1, imm`.
macro_rules! addi {
    ($rd:expr, $rs1:expr, $imm:expr) => {
        Instr::Imm {
            op: ImmOp::Addi,
            rd: $rd,
            rs1: $rs1,
            imm: $imm,
        }
    };
}

/// `andi rd, rs1, imm`.
macro_rules! andi {
    ($rd:expr, $rs1:expr, $imm:expr) => {
        Instr::Imm {
            op: ImmOp::Andi,
            rd: $rd,
            rs1: $rs1,
            imm: $imm,
        }
    };
}

/// `add rd, rs1, rs2`.
macro_rules! add {
    ($rd:expr, $rs1:expr, $rs2:expr) => {
        Instr::Reg {
            op: RegOp::Add,
            rd: $rd,
            rs1: $rs1,
            rs2: $rs2,
        }
    };
}

/// `lui rd`, with the whole number: its low 12 bits are 0.
macro_rules! lui {
    ($rd:expr, $imm:expr) => {
        Instr::Upper {
            auipc: false,
            rd: $rd,
            imm: $imm,
        }
    };
}

/// `lw rd, 0(rs1)`.
macro_rules! lw {
    ($rd:expr, $rs1:expr) => {
        Instr::Load {
            op: LoadOp::Lw,
            rd: $rd,
            rs1: $rs1,
            offset: 0,
        }
    };
}

/// `sw rs2, 0(rs1)`.
macro_rules! sw {
    ($rs2:expr, $rs1:expr) => {
        Instr::Store {
            op: StoreOp::Sw,
            rs1: $rs1,
            rs2: $rs2,
            offset: 0,
        }
    };
}

// The first thread goes on at `first` once it has made all the others; else it makes one with the
// next index, and goes back to `next`.
fn start_next(
    builder: &mut Builder,
    threads: u32,
    next: Label,
    first: Label,
) -> Result<(), AllocError>
    requires { threads ≤ 32 }
    ensures { OnOk result
        (builder.new ≡ with_start builder.old threads next.number first.number) }
{
    builder.push(&addi!(PLACE, ZERO, threads as i32))?;
    builder.branch(BranchOp::Beq, COUNT, PLACE, first)?;
    push_all(
        builder,
        &[
            addi!(SERVICE, ZERO, THREAD_NEW),
            Instr::Upper {
                auipc: true,
                rd: A0,
                imm: 0,
            },
            addi!(A0, A0, 28),
            addi!(A2, COUNT, 0),
            Instr::Ecall,
            addi!(COUNT, COUNT, 1),
        ],
    )?;
    builder.jump(ZERO, next)?;
    Ok(())
}

// The first thread makes the others, each with its index. They begin behind the instruction that
// gives the first one its own.
fn start_threads(builder: &mut Builder, threads: u32) -> Result<(), AllocError>
    requires empty { builder.old ≡ empty_at 0x10000 false }
    requires few { threads ≤ 32 }
    ensures { OnOk result (builder.new ≡ started threads) }
{
    let next = builder.label()?;
    let first = builder.label()?;
    builder.push(&addi!(COUNT, ZERO, 1))?;
    builder.here(next);
    start_next(builder, threads, next, first)?;
    builder.here(first);
    Ok(())
}

// A thread's registers: its index, the shared page, its own, and its first number.
fn set_up(builder: &mut Builder, number: u32) -> Result<(), AllocError>
    ensures { OnOk result (builder.new ≡ with_code builder.old (set_up number)) }
{
    push_all(
        builder,
        &[
            addi!(A0, ZERO, 0),
            addi!(INDEX, A0, 0),
            lui!(SHARED, PAGES),
            lui!(OWN, PAGES + PAGE),
            Instr::Shift {
                op: ShiftOp::Slli,
                rd: PLACE,
                rs1: INDEX,
                amount: 12,
            },
            add!(OWN, OWN, PLACE),
            load_upper(NUMBER, number),
            add_lower(NUMBER, number),
            add!(NUMBER, NUMBER, INDEX),
            load_upper(FACTOR, MULTIPLIER),
            add_lower(FACTOR, MULTIPLIER),
            load_upper(STEP, INCREMENT),
            add_lower(STEP, INCREMENT),
            addi!(LEFT, ZERO, TURNS),
        ],
    )
}

// The turns: the next number goes to a word of the thread's page, and at times to the shared one.
fn work(builder: &mut Builder) -> Result<(), AllocError>
    requires labels { builder.old.labels ≡ Some 2 ∷ Some 20 ∷ [] }
    requires place { halfwords_of builder.old.items ≡ 48 }
    ensures { OnOk result (builder.new ≡ worked builder.old) }
{
    let body = builder.label()?;
    let skip = builder.label()?;
    builder.here(body);
    push_all(
        builder,
        &[
            Instr::Reg {
                op: RegOp::Mul,
                rd: NUMBER,
                rs1: NUMBER,
                rs2: FACTOR,
            },
            add!(NUMBER, NUMBER, STEP),
            Instr::Shift {
                op: ShiftOp::Srli,
                rd: PLACE,
                rs1: NUMBER,
                amount: 20,
            },
            andi!(PLACE, PLACE, -4),
            add!(PLACE, PLACE, OWN),
            lw!(WORD, PLACE),
            add!(WORD, WORD, NUMBER),
            sw!(WORD, PLACE),
            andi!(WORD, LEFT, 63),
        ],
    )?;
    builder.branch(BranchOp::Bne, WORD, ZERO, skip)?;
    push_all(
        builder,
        &[
            lw!(WORD, SHARED),
            add!(WORD, WORD, NUMBER),
            sw!(WORD, SHARED),
        ],
    )?;
    builder.here(skip);
    builder.push(&addi!(LEFT, LEFT, -1))?;
    builder.branch(BranchOp::Bne, LEFT, ZERO, body)?;
    Ok(())
}

// The thread writes its page and the shared word, and ends.
fn print(builder: &mut Builder) -> Result<(), AllocError>
    ensures { OnOk result (builder.new ≡ with_code builder.old print) }
{
    push_all(
        builder,
        &[
            addi!(SERVICE, ZERO, WRITE),
            addi!(A0, ZERO, 1),
            addi!(A1, OWN, 0),
            lui!(A2, PAGE),
            Instr::Ecall,
            addi!(A0, ZERO, 1),
            addi!(A1, SHARED, 0),
            addi!(A2, ZERO, 4),
            Instr::Ecall,
            addi!(SERVICE, ZERO, THREAD_EXIT),
            Instr::Ecall,
        ],
    )
}

/// The builder of the program and its pages.
#[tactic(auto, unfolding(crate::specs::Stretches::told))]
pub fn program(alloc: Global, number: u32, threads: u32) -> Result<Builder, AllocError>
    requires { threads ≤ 32 }
    ensures { IfOk result (λ builder. builder ≡ told number threads) }
{
    let mut builder = Builder::new(alloc, CODE, false)?;
    start_threads(&mut builder, threads)?;
    set_up(&mut builder, number)?;
    work(&mut builder)?;
    print(&mut builder)?;
    builder.data(PAGES, &[], PAGE * (threads + 1))?;
    Ok(builder)
}
