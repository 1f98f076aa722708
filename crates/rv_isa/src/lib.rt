//! The instructions of RV32I with the extensions M, A and Zifencei: what a word stands for, and the
//! word of an instruction. Source: the RISC-V unprivileged manual, its instruction listings.
//!
//! `decode` is the table of the manual, row by row (`specs/Meaning.antt`), and `encode` is its way
//! back. An interpreter that wants no enum in memory takes the fields and the operation of one
//! opcode by themselves, as `rd` and `branch_op`.
#![tactic(auto)]

mod decoding;
mod encoding;
mod expanding;
mod fields;
mod groups;
mod valid;

pub use decoding::decode;
pub use encoding::encode;
pub use expanding::{expand, expand_code};
pub use fields::{
    acquires, fence_bits, imm_b, imm_i, imm_j, imm_s, imm_u, opcode, rd, releases, rs1, rs2,
};
pub use groups::{
    amo_op, arithmetic_op, branch_op, fence_op, is_jalr, load_op, reg_op, store_op, system_op,
};

/// The conditional branches, opcode 0x63.
#[derive(Clone, Copy)]
pub enum BranchOp {
    Beq,
    Bne,
    Blt,
    Bge,
    Bltu,
    Bgeu,
}

/// The loads, opcode 0x03.
#[derive(Clone, Copy)]
pub enum LoadOp {
    Lb,
    Lh,
    Lw,
    Lbu,
    Lhu,
}

/// The stores, opcode 0x23.
#[derive(Clone, Copy)]
pub enum StoreOp {
    Sb,
    Sh,
    Sw,
}

/// The operations on a register and a signed immediate, opcode 0x13.
#[derive(Clone, Copy)]
pub enum ImmOp {
    Addi,
    Slti,
    Sltiu,
    Xori,
    Ori,
    Andi,
}

/// The shifts by a constant, opcode 0x13 too.
#[derive(Clone, Copy)]
pub enum ShiftOp {
    Slli,
    Srli,
    Srai,
}

/// What a word with the opcode 0x13 does.
#[derive(Clone, Copy)]
pub enum Arithmetic {
    /// On rs1 and the immediate of the format I.
    Plain(ImmOp),
    /// On rs1, by bits 24:20.
    Shifts(ShiftOp),
}

/// The operations on two registers, opcode 0x33: those of RV32I and then those of M.
#[derive(Clone, Copy)]
pub enum RegOp {
    Add,
    Sub,
    Sll,
    Slt,
    Sltu,
    Xor,
    Srl,
    Sra,
    Or,
    And,
    Mul,
    Mulh,
    Mulhsu,
    Mulhu,
    Div,
    Divu,
    Rem,
    Remu,
}

/// The atomic operations of A on a word, opcode 0x2F.
#[derive(Clone, Copy)]
pub enum AmoOp {
    LrW,
    ScW,
    AmoswapW,
    AmoaddW,
    AmoxorW,
    AmoandW,
    AmoorW,
    AmominW,
    AmomaxW,
    AmominuW,
    AmomaxuW,
}

/// The two calls out of the program, opcode 0x73.
#[derive(Clone, Copy)]
pub enum SystemOp {
    Ecall,
    Ebreak,
}

/// An instruction with its fields. `rd`, `rs1` and `rs2` number registers.
#[derive(Clone, Copy)]
pub enum Instr {
    /// auipc, or lui. `imm` is the number itself, its low 12 bits 0.
    Upper {
        auipc: bool,
        rd: u8,
        imm: u32,
    },
    /// `offset` is in bytes, from this instruction on, even and of 21 bits.
    Jal {
        rd: u8,
        offset: i32,
    },
    /// `offset` is added to rs1, and is of 12 bits.
    Jalr {
        rd: u8,
        rs1: u8,
        offset: i32,
    },
    /// `offset` is in bytes, from this instruction on, even and of 13 bits.
    Branch {
        op: BranchOp,
        rs1: u8,
        rs2: u8,
        offset: i32,
    },
    /// `offset` is added to rs1, and is of 12 bits.
    Load {
        op: LoadOp,
        rd: u8,
        rs1: u8,
        offset: i32,
    },
    /// `offset` is added to rs1, and is of 12 bits; rs2 is what is stored.
    Store {
        op: StoreOp,
        rs1: u8,
        rs2: u8,
        offset: i32,
    },
    /// `imm` is of 12 bits, signed for each operation.
    Imm {
        op: ImmOp,
        rd: u8,
        rs1: u8,
        imm: i32,
    },
    /// `amount` is below 32.
    Shift {
        op: ShiftOp,
        rd: u8,
        rs1: u8,
        amount: u8,
    },
    Reg {
        op: RegOp,
        rd: u8,
        rs1: u8,
        rs2: u8,
    },
    /// rs1 is the address; lr.w has rs2 0. `aq` and `rl` are the order asked for.
    Amo {
        op: AmoOp,
        rd: u8,
        rs1: u8,
        rs2: u8,
        aq: bool,
        rl: bool,
    },
    /// fence.i where `fetch`, else fence. The other fields are kept as they stand: `imm` is bits
    /// 31:20.
    Fence {
        fetch: bool,
        rd: u8,
        rs1: u8,
        imm: u16,
    },
    Ecall,
    Ebreak,
}
