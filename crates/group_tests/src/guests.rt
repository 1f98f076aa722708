//! Guests, and the files of their images, made by the assembler.
use dos_io::MemoryFiles;
use rv_asm::Builder;
use rv_isa::{AmoOp, BranchOp, ImmOp, Instr, LoadOp, RegOp, StoreOp};
use std::alloc::Global;
use std::process::Abort;

/// Where the code begins.
pub const CODE: u32 = 0x1_0000;

/// Where a guest's text lies: in the page of its code.
pub const TEXT: u32 = 0x1_0100;

/// The address behind nine instructions.
pub const BEHIND_NINE: u32 = 0x1_0024;

/// The offset of the text in its page.
pub const TEXT_OFFSET: i32 = 0x100;

// Registers by the names that the calling convention gives them: zero, sp, t0, t1, s0, s1, a0 to
// a2, a7.
pub const ZERO: u8 = 0;

pub const SP: u8 = 2;

pub const TEMP0: u8 = 5;

pub const TEMP1: u8 = 6;

pub const S0: u8 = 8;

pub const S1: u8 = 9;

pub const A0: u8 = 10;

pub const A1: u8 = 11;

pub const A2: u8 = 12;

pub const A7: u8 = 17;

// Numbers of services.
pub const THREAD_EXIT: i32 = 1;

pub const PROCESS_EXIT: i32 = 2;

pub const THREAD_NEW: i32 = 3;

pub const FORK: i32 = 4;

pub const WAIT: i32 = 5;

pub const READ: i32 = 7;

pub const WRITE: i32 = 8;

pub const FUTEX_WAIT: i32 = 11;

pub const MAP: i32 = 13;

pub const SIG_HANDLER: i32 = 16;

pub const SIG_RETURN: i32 = 18;

pub const CLOCK: i32 = 22;

pub const YIELD: i32 = 23;

/// `addi rd, rs1, imm`.
macro_rules! addi {
    ($rd:expr, $rs1:expr, $imm:expr) => {
        Instr::Imm {
            op: ImmOp::Addi,
            rd: $rd,
            rs1: $rs1,
            imm: $imm,
        }
    };
}

/// `addi rd, zero, imm`.
macro_rules! li {
    ($rd:expr, $imm:expr) => {
        Instr::Imm {
            op: ImmOp::Addi,
            rd: $rd,
            rs1: ZERO,
            imm: $imm,
        }
    };
}

/// `add rd, rs1, rs2`.
macro_rules! add {
    ($rd:expr, $rs1:expr, $rs2:expr) => {
        Instr::Reg {
            op: RegOp::Add,
            rd: $rd,
            rs1: $rs1,
            rs2: $rs2,
        }
    };
}

/// `lui rd`, with the whole number: its low 12 bits are 0.
macro_rules! lui {
    ($rd:expr, $imm:expr) => {
        Instr::Upper {
            auipc: false,
            rd: $rd,
            imm: $imm,
        }
    };
}

/// `sw rs2, offset(rs1)`.
macro_rules! sw {
    ($rs2:expr, $offset:expr, $rs1:expr) => {
        Instr::Store {
            op: StoreOp::Sw,
            rs1: $rs1,
            rs2: $rs2,
            offset: $offset,
        }
    };
}

/// `jal zero, offset`.
macro_rules! j {
    ($offset:expr) => {
        Instr::Jal {
            rd: ZERO,
            offset: $offset,
        }
    };
}

/// `lw rd, 0(rs1)`.
macro_rules! lw {
    ($rd:expr, $rs1:expr) => {
        Instr::Load {
            op: LoadOp::Lw,
            rd: $rd,
            rs1: $rs1,
            offset: 0,
        }
    };
}

/// `auipc rd, 0`: the instruction's own address.
macro_rules! here {
    ($rd:expr) => {
        Instr::Upper {
            auipc: true,
            rd: $rd,
            imm: 0,
        }
    };
}

/// A branch by `offset` where this holds of the register and zero.
macro_rules! branch {
    ($op:ident, $rs1:expr, $offset:expr) => {
        Instr::Branch {
            op: BranchOp::$op,
            rs1: $rs1,
            rs2: ZERO,
            offset: $offset,
        }
    };
}

/// Does nothing.
pub const NOP: Instr = addi!(ZERO, ZERO, 0);

/// Ends with 7.
pub const SEVEN: [Instr; 3] = [li!(A7, PROCESS_EXIT), li!(A0, 7), Instr::Ecall];

/// Writes the first three bytes of its text to output, and ends with 0.
pub const PRINTS: [Instr; 9] = [
    li!(A7, WRITE),
    li!(A0, 1),
    lui!(A1, CODE),
    addi!(A1, A1, TEXT_OFFSET),
    li!(A2, 3),
    Instr::Ecall,
    li!(A7, PROCESS_EXIT),
    li!(A0, 0),
    Instr::Ecall,
];

/// The same with the three bytes that stand right behind its code.
pub const PRINTS_BEHIND: [Instr; 9] = [
    li!(A7, WRITE),
    li!(A0, 1),
    here!(A1),
    addi!(A1, A1, 28),
    li!(A2, 3),
    Instr::Ecall,
    li!(A7, PROCESS_EXIT),
    li!(A0, 0),
    Instr::Ecall,
];

/// The same to error.
pub const PRINTS_TO_ERROR: [Instr; 9] = [
    li!(A7, WRITE),
    li!(A0, 2),
    lui!(A1, CODE),
    addi!(A1, A1, TEXT_OFFSET),
    li!(A2, 3),
    Instr::Ecall,
    li!(A7, PROCESS_EXIT),
    li!(A0, 0),
    Instr::Ecall,
];

/// Writes two bytes of its text to output, two to error, two to output and three to error, and ends
/// with 0.
pub const PRINTS_TO_BOTH: [Instr; 22] = [
    li!(A7, WRITE),
    lui!(S0, CODE),
    addi!(S0, S0, TEXT_OFFSET),
    li!(A0, 1),
    addi!(A1, S0, 0),
    li!(A2, 2),
    Instr::Ecall,
    li!(A0, 2),
    addi!(A1, S0, 2),
    li!(A2, 2),
    Instr::Ecall,
    li!(A0, 1),
    addi!(A1, S0, 4),
    li!(A2, 2),
    Instr::Ecall,
    li!(A0, 2),
    addi!(A1, S0, 6),
    li!(A2, 3),
    Instr::Ecall,
    li!(A7, PROCESS_EXIT),
    li!(A0, 0),
    Instr::Ecall,
];

/// Writes 5000 bytes from its text on, and ends with the low byte of the answer.
pub const LONG_WRITE: [Instr; 9] = [
    li!(A7, WRITE),
    li!(A0, 1),
    lui!(A1, CODE),
    addi!(A1, A1, TEXT_OFFSET),
    lui!(A2, 4096),
    addi!(A2, A2, 904),
    Instr::Ecall,
    li!(A7, PROCESS_EXIT),
    Instr::Ecall,
];

/// Jumps to itself.
pub const ENDLESS: [Instr; 1] = [j!(0)];

/// Stores a word at an address that isn't a multiple of 4.
pub const MISALIGNED_STORE: [Instr; 2] = [lui!(TEMP0, CODE), sw!(ZERO, 2, TEMP0)];

/// Stores a word at 0, where no page is.
pub const STORE_AT_0: [Instr; 1] = [sw!(ZERO, 0, ZERO)];

/// Jumps to a halfword of zeros, which is no instruction.
pub const JUMP_TO_A_HALFWORD: [Instr; 1] = [j!(6)];

/// Goes on into the zeros behind it, which are no instruction.
pub const INTO_ZEROS: [Instr; 1] = [NOP];

/// Stops at once.
pub const BREAKS: [Instr; 1] = [Instr::Ebreak];

/// Jumps below the image, where no page is.
pub const JUMP_BELOW: [Instr; 1] = [j!(-4)];

/// Two threads load the text's word, yield, add 1 to it and store it: one addition is lost. Then
/// the first prints it.
pub const RACE: [Instr; 20] = [
    li!(A7, THREAD_NEW),
    lui!(A0, CODE),
    addi!(A0, A0, 24),
    Instr::Ecall,
    li!(A7, YIELD),
    Instr::Ecall,
    // from here on both
    lui!(S0, CODE),
    Instr::Load {
        op: LoadOp::Lw,
        rd: TEMP0,
        rs1: S0,
        offset: TEXT_OFFSET,
    },
    li!(A7, YIELD),
    Instr::Ecall,
    addi!(TEMP0, TEMP0, 1),
    sw!(TEMP0, TEXT_OFFSET, S0),
    Instr::Ecall,
    li!(A7, WRITE),
    li!(A0, 1),
    addi!(A1, S0, TEXT_OFFSET),
    li!(A2, 1),
    Instr::Ecall,
    li!(A7, THREAD_EXIT),
    Instr::Ecall,
];

/// Makes threads until it is refused, and ends with that answer. The threads do nothing, for ever.
pub const MAKES_THREADS: [Instr; 9] = [
    lui!(S0, CODE),
    addi!(S0, S0, 32),
    li!(A7, THREAD_NEW),
    addi!(A0, S0, 0),
    Instr::Ecall,
    branch!(Bge, A0, -12),
    li!(A7, PROCESS_EXIT),
    Instr::Ecall,
    j!(0),
];

/// Loads the code's first word, and reserves it.
pub const RESERVES: [Instr; 2] = [
    lui!(TEMP0, CODE),
    Instr::Amo {
        op: AmoOp::LrW,
        rd: TEMP1,
        rs1: TEMP0,
        rs2: ZERO,
        aq: false,
        rl: false,
    },
];

/// Stores it where it is still reserved, and ends with 0 where it was, else with 1.
pub const STORES_IF_RESERVED: [Instr; 3] = [
    Instr::Amo {
        op: AmoOp::ScW,
        rd: A0,
        rs1: TEMP0,
        rs2: TEMP1,
        aq: false,
        rl: false,
    },
    li!(A7, PROCESS_EXIT),
    Instr::Ecall,
];

/// Ends with the low byte of what is in a0.
pub const ENDS: [Instr; 2] = [li!(A7, PROCESS_EXIT), Instr::Ecall];

/// Ends with 0.
pub const ENDS_WITH_0: [Instr; 3] = [li!(A7, PROCESS_EXIT), li!(A0, 0), Instr::Ecall];

/// Looks at the clock three times, and prints the low word of each reading.
pub const CLOCKS: [Instr; 14] = [
    li!(S1, 3),
    li!(A7, CLOCK),
    Instr::Ecall,
    addi!(A1, SP, -16),
    sw!(A0, 0, A1),
    li!(A7, WRITE),
    li!(A0, 1),
    li!(A2, 4),
    Instr::Ecall,
    addi!(S1, S1, -1),
    branch!(Bne, S1, -36),
    li!(A7, PROCESS_EXIT),
    li!(A0, 0),
    Instr::Ecall,
];

/// Waits on a word of its own for ever.
pub const WAITS: [Instr; 6] = [
    li!(A7, FUTEX_WAIT),
    here!(A0),
    lw!(A1, A0),
    Instr::Ecall,
    li!(A7, PROCESS_EXIT),
    Instr::Ecall,
];

/// Sets a handler for signal 15, waits, and ends with what the wait answers.
pub const CATCHES: [Instr; 13] = [
    li!(A7, SIG_HANDLER),
    li!(A0, 15),
    here!(A1),
    addi!(A1, A1, 36),
    Instr::Ecall,
    li!(A7, FUTEX_WAIT),
    here!(A0),
    lw!(A1, A0),
    Instr::Ecall,
    li!(A7, PROCESS_EXIT),
    Instr::Ecall,
    // the handler
    li!(A7, SIG_RETURN),
    Instr::Ecall,
];

/// Maps one page, and ends with the answer.
pub const MAPS: [Instr; 7] = [
    li!(A7, MAP),
    lui!(A0, 0x2_0000),
    li!(A1, 1),
    li!(A2, 6),
    Instr::Ecall,
    li!(A7, PROCESS_EXIT),
    Instr::Ecall,
];

/// Forks; the child ends with 5, and its parent with the child's status.
pub const FORKS: [Instr; 12] = [
    li!(A7, FORK),
    Instr::Ecall,
    branch!(Beq, A0, 28),
    li!(A7, WAIT),
    li!(A0, 0),
    Instr::Ecall,
    addi!(A0, A1, 0),
    li!(A7, PROCESS_EXIT),
    Instr::Ecall,
    // the child
    li!(A0, 5),
    li!(A7, PROCESS_EXIT),
    Instr::Ecall,
];

/// Copies its input to output, 64 bytes at a time.
pub const ECHOES: [Instr; 13] = [
    li!(A7, READ),
    li!(A0, 0),
    addi!(A1, SP, -64),
    li!(A2, 64),
    Instr::Ecall,
    branch!(Beq, A0, 24),
    addi!(A2, A0, 0),
    li!(A7, WRITE),
    li!(A0, 1),
    Instr::Ecall,
    j!(-40),
    li!(A7, PROCESS_EXIT),
    Instr::Ecall,
];

/// Reads 4096 bytes again and again.
pub const READS: [Instr; 6] = [
    li!(A7, READ),
    lui!(A1, 0xefff_0000),
    lui!(A2, 4096),
    li!(A0, 0),
    Instr::Ecall,
    j!(-8),
];

/// Two threads run in round 2. Each stores `1` to a word of its own, which is `0` at first, and
/// then loads the other's and prints it.
pub const FLAGS: [Instr; 23] = [
    li!(A7, THREAD_NEW),
    lui!(A0, CODE),
    addi!(A0, A0, 28),
    li!(A2, 4),
    Instr::Ecall,
    li!(A7, YIELD),
    Instr::Ecall,
    // from here on both, with the place of their word in a0: 0 and 4
    lui!(S0, CODE),
    addi!(S0, S0, TEXT_OFFSET),
    add!(TEMP0, S0, A0),
    li!(TEMP1, 0x31),
    sw!(TEMP1, 0, TEMP0),
    Instr::Imm {
        op: ImmOp::Xori,
        rd: A0,
        rs1: A0,
        imm: 4,
    },
    add!(A1, S0, A0),
    lw!(TEMP1, A1),
    addi!(A1, A1, 8),
    sw!(TEMP1, 0, A1),
    li!(A7, WRITE),
    li!(A0, 1),
    li!(A2, 1),
    Instr::Ecall,
    li!(A7, THREAD_EXIT),
    Instr::Ecall,
];

/// The first thread stores to a word in round 2, and is gone. The second loads the word until it
/// isn't 0, and is gone.
pub const WAITS_FOR_A_FLAG: [Instr; 17] = [
    li!(A7, THREAD_NEW),
    lui!(A0, CODE),
    addi!(A0, A0, 44),
    Instr::Ecall,
    lui!(S0, CODE),
    addi!(S0, S0, TEXT_OFFSET),
    li!(A7, YIELD),
    Instr::Ecall,
    sw!(A7, 0, S0),
    li!(A7, THREAD_EXIT),
    Instr::Ecall,
    // the second thread
    lui!(S0, CODE),
    addi!(S0, S0, TEXT_OFFSET),
    lw!(TEMP0, S0),
    branch!(Beq, TEMP0, -4),
    li!(A7, THREAD_EXIT),
    Instr::Ecall,
];

/// Each of eight threads adds 1 to a byte of its own, 20 times, and prints it. The bytes lie in two
/// words.
pub const EIGHT_ADD: [Instr; 26] = [
    li!(S1, 7),
    li!(A7, THREAD_NEW),
    lui!(A0, CODE),
    addi!(A0, A0, 40),
    addi!(A2, S1, 0),
    Instr::Ecall,
    addi!(S1, S1, -1),
    branch!(Bne, S1, -20),
    li!(A7, YIELD),
    Instr::Ecall,
    // from here on all, with the place of their byte in a0
    lui!(S0, CODE),
    addi!(S0, S0, TEXT_OFFSET),
    add!(S0, S0, A0),
    li!(S1, 20),
    Instr::Load {
        op: LoadOp::Lbu,
        rd: TEMP0,
        rs1: S0,
        offset: 0,
    },
    addi!(TEMP0, TEMP0, 1),
    Instr::Store {
        op: StoreOp::Sb,
        rs1: S0,
        rs2: TEMP0,
        offset: 0,
    },
    addi!(S1, S1, -1),
    branch!(Bne, S1, -16),
    li!(A7, WRITE),
    li!(A0, 1),
    addi!(A1, S0, 0),
    li!(A2, 1),
    Instr::Ecall,
    li!(A7, THREAD_EXIT),
    Instr::Ecall,
];

/// Stores to 1500 words one behind the other, and ends with the low byte of the sum of what it then
/// loads of them, up to the last.
pub const MANY_WORDS: [Instr; 16] = [
    lui!(S0, 0x1_1000),
    addi!(S1, S0, 0),
    li!(TEMP0, 1500),
    sw!(TEMP0, 0, S0),
    addi!(S0, S0, 4),
    addi!(TEMP0, TEMP0, -1),
    branch!(Bne, TEMP0, -12),
    li!(TEMP0, 1500),
    lw!(TEMP1, S1),
    add!(A1, A1, TEMP1),
    addi!(S1, S1, 4),
    addi!(TEMP0, TEMP0, -1),
    branch!(Bne, TEMP0, -16),
    addi!(A0, A1, 0),
    li!(A7, PROCESS_EXIT),
    Instr::Ecall,
];

/// Two instructions that put a number into a register.
fn puts(rd: u8, value: u32) -> [Instr; 2] {
    let low = (value << 20).cast_signed() >> 20;
    let upper = value.wrapping_sub(low.cast_unsigned());
    [lui!(rd, upper), addi!(rd, rd, low)]
}

fn add_code(rt: &impl Abort, code: &mut Vec<Instr>, more: &[Instr]) {
    code.extend_from_slice(more).expect(rt, "memory");
}

/// Calls a service with these arguments, and ends with the low byte of its answer.
pub fn calls(rt: &impl Abort, alloc: Global, number: u32, arguments: [u32; 3]) -> Vec<Instr> {
    let [a0, a1, a2] = arguments;
    let mut code = Vec::new(alloc);
    add_code(rt, &mut code, &puts(A7, number));
    add_code(rt, &mut code, &puts(A0, a0));
    add_code(rt, &mut code, &puts(A1, a1));
    add_code(rt, &mut code, &puts(A2, a2));
    add_code(rt, &mut code, &[Instr::Ecall]);
    add_code(rt, &mut code, &ENDS);
    code
}

/// Code, then so many instructions that do nothing, then the rest.
pub fn padded(
    rt: &impl Abort,
    alloc: Global,
    first: &[Instr],
    nothing: usize,
    last: &[Instr],
) -> Vec<Instr> {
    let mut code = Vec::new(alloc);
    add_code(rt, &mut code, first);
    for _ in 0..nothing {
        add_code(rt, &mut code, &[NOP]);
    }
    add_code(rt, &mut code, last);
    code
}

fn put_code(rt: &impl Abort, builder: &mut Builder, code: &[Instr]) {
    for instr in code {
        assert!(rt;
            instr.is_valid(),
            "a field of an instruction is out of its range"
        );
        builder.push(instr).expect(rt, "memory");
    }
}

/// The file of an image with this code and all rights.
pub fn file(rt: &impl Abort, alloc: Global, code: &[Instr]) -> Vec<u8> {
    file_with(rt, alloc, code, b"", 0)
}

/// The file of an image with this code, and behind it this text and so many zeros.
pub fn file_with(
    rt: &impl Abort,
    alloc: Global,
    code: &[Instr],
    text: &[u8],
    zeros: u32,
) -> Vec<u8> {
    file_at(rt, alloc, code, TEXT, text, zeros)
}

/// The same with the text at this address.
pub fn file_at(
    rt: &impl Abort,
    alloc: Global,
    code: &[Instr],
    address: u32,
    text: &[u8],
    zeros: u32,
) -> Vec<u8> {
    let mut builder = Builder::new(alloc, CODE, true).expect(rt, "memory");
    put_code(rt, &mut builder, code);
    builder.data(address, text, zeros).expect(rt, "memory");
    builder.finish().expect(rt, "an image")
}

/// Adds a guest of this name: of this code, and behind it this text and so many zeros.
pub fn add_guest(
    rt: &impl Abort,
    alloc: Global,
    files: &mut MemoryFiles,
    name: &str,
    code: &[Instr],
    text: &[u8],
    zeros: u32,
) {
    let image = file_with(rt, alloc, code, text, zeros);
    files.add(name, &image).expect(rt, "memory");
    drop(image);
}

/// Nothing but a guest named `a`, of this code, and behind it this text and so many zeros.
pub fn files_with(
    rt: &impl Abort,
    alloc: Global,
    code: &[Instr],
    text: &[u8],
    zeros: u32,
) -> MemoryFiles {
    let mut files = MemoryFiles::new(alloc, &[]).expect(rt, "memory");
    add_guest(rt, alloc, &mut files, "a", code, text, zeros);
    files
}

/// Files with one image, which is named `a`, of these halfwords and then so many zeros and more
/// halfwords. It is writable, like the others.
pub fn files_of_halves(
    rt: &impl Abort,
    alloc: Global,
    first: &[u16],
    zeros: usize,
    last: &[u16],
) -> MemoryFiles {
    let mut builder = Builder::new(alloc, CODE, true).expect(rt, "memory");
    for half in first {
        builder.half(*half).expect(rt, "memory");
    }
    for _ in 0..zeros {
        builder.half(0).expect(rt, "memory");
    }
    for half in last {
        builder.half(*half).expect(rt, "memory");
    }
    let image = builder.finish().expect(rt, "an image");
    let mut files = MemoryFiles::new(alloc, &[]).expect(rt, "memory");
    files.add("a", &image).expect(rt, "memory");
    drop(image);
    files
}
