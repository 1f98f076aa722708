// Which instructions have a word.
ghost use Rattle.std.specs.Prelude.{◌≡◌, ◌<◌, ◌%◌, ◌^◌, ◌≤ℤ◌, ◌↔◌, IsTrue};
ghost use Rattle.rv_isa.specs.Valid.{IsValid, IsEven, IsImmediate, IsBranchOffset, IsJumpOffset};
ghost use Rattle.rv_isa.specs.Valid.{IsRegister, IsSecond};

use crate::{AmoOp, Instr};

fn is_even(value: i32) -> bool
    ensures { IsTrue result ↔ IsEven value }
{
    value % 2 == 0
}

fn is_immediate(value: i32) -> bool
    ensures { IsTrue result ↔ IsImmediate value }
{
    -0x800 <= value && value <= 0x7ff
}

fn is_branch_offset(value: i32) -> bool
    ensures { IsTrue result ↔ IsBranchOffset value }
{
    -0x1000 <= value && value <= 0xffe && is_even(value)
}

fn is_jump_offset(value: i32) -> bool
    ensures { IsTrue result ↔ IsJumpOffset value }
{
    -0x10_0000 <= value && value <= 0xf_fffe && is_even(value)
}

fn is_second(op: AmoOp, rs2: u8) -> bool
    ensures { IsTrue result ↔ IsSecond op rs2 }
{
    match op {
        AmoOp::LrW => rs2 == 0,
        _ => rs2 < 32,
    }
}

// ---- the fields of one format

fn fits_upper(rd: u8, imm: u32) -> bool
    ensures { IsTrue result ↔ IsRegister rd × (imm % 2 ^ 12 ≡ 0) × (imm < 2 ^ 32) }
{
    rd < 32 && imm % 0x1000 == 0
}

fn fits_jump(rd: u8, offset: i32) -> bool
    ensures { IsTrue result ↔ IsRegister rd × IsJumpOffset offset }
{
    rd < 32 && is_jump_offset(offset)
}

fn fits_branch(rs1: u8, rs2: u8, offset: i32) -> bool
    ensures { IsTrue result ↔ IsRegister rs1 × IsRegister rs2 × IsBranchOffset offset }
{
    rs1 < 32 && rs2 < 32 && is_branch_offset(offset)
}

// two registers and 12 signed bits: the formats I and S
fn fits_immediate(first: u8, second: u8, imm: i32) -> bool
    ensures { IsTrue result ↔ IsRegister first × IsRegister second × IsImmediate imm }
{
    first < 32 && second < 32 && is_immediate(imm)
}

// three registers, or two and an amount
fn fits_registers(rd: u8, rs1: u8, rs2: u8) -> bool
    ensures { IsTrue result ↔ IsRegister rd × IsRegister rs1 × IsRegister rs2 }
{
    rd < 32 && rs1 < 32 && rs2 < 32
}

fn fits_atomic(op: AmoOp, rd: u8, rs1: u8, rs2: u8) -> bool
    ensures { IsTrue result ↔ IsRegister rd × IsRegister rs1 × IsSecond op rs2 }
{
    rd < 32 && rs1 < 32 && is_second(op, rs2)
}

fn fits_fence(rd: u8, rs1: u8, imm: u16) -> bool
    ensures { IsTrue result ↔ IsRegister rd × IsRegister rs1 × (imm < 2 ^ 12) }
{
    rd < 32 && rs1 < 32 && imm < 0x1000
}

impl Instr {
    /// Whether each field is in its range: registers and amounts below 32, immediates and offsets
    /// in their format's range (and even where the format has no bit 0), the low 12 bits of `Upper`
    /// 0, `Fence`'s bits below 4096, and no second register in lr.w. Exactly the valid instructions
    /// have a word.
    pub fn is_valid(&self) -> bool
        ensures { IsTrue result ↔ IsValid self.now }
    {
        let instr = *self;
        match instr {
            Instr::Upper { rd, imm, .. } => fits_upper(rd, imm),
            Instr::Jal { rd, offset } => fits_jump(rd, offset),
            Instr::Jalr { rd, rs1, offset } => fits_immediate(rd, rs1, offset),
            Instr::Branch {
                rs1,
                rs2,
                offset,
                ..
            } => fits_branch(rs1, rs2, offset),
            Instr::Load {
                rd,
                rs1,
                offset,
                ..
            } => fits_immediate(rd, rs1, offset),
            Instr::Store {
                rs1,
                rs2,
                offset,
                ..
            } => fits_immediate(rs1, rs2, offset),
            Instr::Imm { rd, rs1, imm, .. } => fits_immediate(rd, rs1, imm),
            Instr::Shift {
                rd,
                rs1,
                amount,
                ..
            } => fits_registers(rd, rs1, amount),
            Instr::Reg { rd, rs1, rs2, .. } => fits_registers(rd, rs1, rs2),
            Instr::Amo {
                op,
                rd,
                rs1,
                rs2,
                ..
            } => fits_atomic(op, rd, rs1, rs2),
            Instr::Fence { rd, rs1, imm, .. } => fits_fence(rd, rs1, imm),
            Instr::Ecall | Instr::Ebreak => true,
        }
    }
}
