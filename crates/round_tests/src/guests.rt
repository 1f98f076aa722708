//! Files of small guests.
use rv_asm::Builder;
use rv_isa::{AmoOp, BranchOp, ImmOp, Instr, LoadOp, RegOp, ShiftOp, StoreOp};
use std::alloc::Global;
use std::process::Abort;

/// `addi rd, rs1, imm`.
macro_rules! addi {
    ($rd:expr, $rs1:expr, $imm:expr) => {
        Instr::Imm {
            op: ImmOp::Addi,
            rd: $rd,
            rs1: $rs1,
            imm: $imm,
        }
    };
}

/// `add rd, rs1, rs2`.
macro_rules! add {
    ($rd:expr, $rs1:expr, $rs2:expr) => {
        Instr::Reg {
            op: RegOp::Add,
            rd: $rd,
            rs1: $rs1,
            rs2: $rs2,
        }
    };
}

/// `lui rd, ..`, by the whole number, whose low 12 bits are 0.
macro_rules! lui {
    ($rd:expr, $imm:expr) => {
        Instr::Upper {
            auipc: false,
            rd: $rd,
            imm: $imm,
        }
    };
}

/// `lw rd, offset(rs1)`.
macro_rules! lw {
    ($rd:expr, $offset:expr, $rs1:expr) => {
        Instr::Load {
            op: LoadOp::Lw,
            rd: $rd,
            rs1: $rs1,
            offset: $offset,
        }
    };
}

/// `sw rs2, offset(rs1)`.
macro_rules! sw {
    ($rs2:expr, $offset:expr, $rs1:expr) => {
        Instr::Store {
            op: StoreOp::Sw,
            rs1: $rs1,
            rs2: $rs2,
            offset: $offset,
        }
    };
}

/// Ends the process with 7.
pub const ENDS_WITH_7: [Instr; 3] = [addi!(17, 0, 2), addi!(10, 0, 7), Instr::Ecall];

/// Writes the three bytes of `HI` to output and ends with 0.
pub const WRITES_HI: [Instr; 9] = [
    addi!(17, 0, 8),
    addi!(10, 0, 1),
    TEXT_PAGE,
    addi!(11, 11, 0x100),
    addi!(12, 0, 3),
    Instr::Ecall,
    addi!(17, 0, 2),
    addi!(10, 0, 0),
    Instr::Ecall,
];

/// Yields.
pub const YIELDS: [Instr; 2] = [addi!(17, 0, 23), Instr::Ecall];

/// The page of the code, at whose byte 0x100 the text lies.
const TEXT_PAGE: Instr = lui!(11, 0x1_0000);

/// Makes a thread that begins behind this, with 4 in x10, and yields. The first thread has 0 there
/// when it goes on, as the answer.
pub const MAKES_ANOTHER: [Instr; 7] = [
    addi!(17, 0, 3),
    lui!(10, 0x1_0000),
    addi!(10, 10, 28),
    addi!(12, 0, 4),
    Instr::Ecall,
    addi!(17, 0, 23),
    Instr::Ecall,
];

/// Stores 1 into the thread's own flag, which lies at x10 of the page 0x11, loads the other's, and
/// stores it 8 bytes behind its own.
pub const LOOKS_AT_THE_OTHER: [Instr; 8] = [
    lui!(5, 0x1_1000),
    add!(6, 5, 10),
    addi!(7, 0, 1),
    sw!(7, 0, 6),
    Instr::Imm {
        op: ImmOp::Xori,
        rd: 8,
        rs1: 10,
        imm: 4,
    },
    add!(8, 5, 8),
    lw!(9, 0, 8),
    sw!(9, 8, 6),
];

/// Adds x10 and 1 to the word at 8 of the page 0x11, which it loads and stores.
pub const ADDS: [Instr; 5] = [
    lui!(5, 0x1_1000),
    lw!(6, 8, 5),
    addi!(6, 6, 1),
    add!(6, 6, 10),
    sw!(6, 8, 5),
];

/// The same by one instruction, which claims the word.
pub const CLAIMS: [Instr; 4] = [
    lui!(5, 0x1_1000),
    addi!(5, 5, 8),
    addi!(6, 10, 1),
    Instr::Amo {
        op: AmoOp::AmoaddW,
        rd: 0,
        rs1: 5,
        rs2: 6,
        aq: false,
        rl: false,
    },
];

/// Stores x10 and 1 into a byte of the word at 12 of the page 0x11: the first where x10 is 0, the
/// second where it is 4.
pub const STORES_A_BYTE: [Instr; 5] = [
    lui!(5, 0x1_1000),
    Instr::Shift {
        op: ShiftOp::Srli,
        rd: 6,
        rs1: 10,
        amount: 2,
    },
    add!(5, 5, 6),
    addi!(7, 10, 1),
    Instr::Store {
        op: StoreOp::Sb,
        rs1: 5,
        rs2: 7,
        offset: 12,
    },
];

/// The words from the page 0x11 to the first of the page 0x12, which are 1025, become their own
/// addresses.
pub const WRITES_1025: [Instr; 5] = [
    lui!(5, 0x1_1000),
    lui!(6, 0x1_2000),
    sw!(5, 0, 5),
    addi!(5, 5, 4),
    BACK_TO_STORE,
];

/// The words of the page 0x11, which are 1024, become their own addresses, and then the last of
/// them 0.
pub const WRITES_1024: [Instr; 7] = [
    lui!(5, 0x1_1000),
    lui!(6, 0x1_2000),
    addi!(6, 6, -4),
    sw!(5, 0, 5),
    addi!(5, 5, 4),
    BACK_TO_STORE,
    sw!(0, -4, 5),
];

/// `bgeu x6, x5, -8`.
const BACK_TO_STORE: Instr = Instr::Branch {
    op: BranchOp::Bgeu,
    rs1: 6,
    rs2: 5,
    offset: -8,
};

fn put(rt: &impl Abort, builder: &mut Builder, code: &[Instr]) {
    for instr in code {
        assert!(rt;
            instr.is_valid(),
            "a field of an instruction is out of its range"
        );
        builder.push(instr).expect(rt, "memory");
    }
}

/// Bytes at an address, and zeros behind them, which may be written.
#[derive(Clone, Copy)]
pub struct Data {
    pub address: u32,
    pub bytes: &'static [u8],
    pub zeros: u32,
}

/// The text `Hi` and a line feed, in the page of the code.
const TEXT: Data = Data {
    address: 0x1_0100,
    bytes: b"Hi\n",
    zeros: 0,
};

/// The file of an image with the code of these parts at 0x10000, one behind the other, and the text
/// `Hi` and a line feed at 0x10100.
pub fn file(rt: &impl Abort, alloc: Global, parts: &[&[Instr]]) -> Vec<u8> {
    file_with(rt, alloc, parts, &TEXT)
}

/// The same with other data.
pub fn file_with(rt: &impl Abort, alloc: Global, parts: &[&[Instr]], data: &Data) -> Vec<u8> {
    let mut builder = Builder::new(alloc, 0x1_0000, false).expect(rt, "memory");
    for part in parts {
        put(rt, &mut builder, part);
    }
    builder
        .data(data.address, data.bytes, data.zeros)
        .expect(rt, "memory");
    builder.finish().expect(rt, "an image")
}
