// From an instruction to its word: the six formats, and the codes of each operation.
ghost use Rattle.std.specs.Prelude.{◌≡◌, ◌<◌, ◌^◌, ◌%◌};
ghost use Rattle.rv_isa.specs.Encoding as words;
ghost use Rattle.rv_isa.specs.declared.Instr.TheVariants.{Upper, Jal, Jalr, Branch, Load, Store};
ghost use Rattle.rv_isa.specs.declared.Instr.TheVariants.{Imm, Shift, Reg, Amo, Fence};
ghost use Rattle.rv_isa.specs.Meaning.{meaning};
ghost use Rattle.rv_isa.specs.Valid.{IsValid, IsImmediate, IsBranchOffset, IsJumpOffset};

use crate::{AmoOp, BranchOp, ImmOp, Instr, LoadOp, RegOp, ShiftOp, StoreOp};

fn r_type(opcode: u32, funct3: u32, funct7: u32, rd: u8, rs1: u8, rs2: u8) -> u32
    requires opcode_fits { opcode < 128 }
    requires funct3_fits { funct3 < 8 }
    requires funct7_fits { funct7 < 128 }
    requires rd_fits { rd < 32 }
    requires rs1_fits { rs1 < 32 }
    requires rs2_fits { rs2 < 32 }
    ensures { result ≡ words.r_type opcode funct3 funct7 rd rs1 rs2 }
{
    (funct7 << 25)
        + (u32::from(rs2) << 20)
        + (u32::from(rs1) << 15)
        + (funct3 << 12)
        + (u32::from(rd) << 7)
        + opcode
}

fn i_type(opcode: u32, funct3: u32, rd: u8, rs1: u8, imm: u32) -> u32
    requires opcode_fits { opcode < 128 }
    requires funct3_fits { funct3 < 8 }
    requires rd_fits { rd < 32 }
    requires rs1_fits { rs1 < 32 }
    requires imm_fits { imm < 2 ^ 12 }
    ensures { result ≡ words.i_type opcode funct3 rd rs1 imm }
{
    (imm << 20) + (u32::from(rs1) << 15) + (funct3 << 12) + (u32::from(rd) << 7) + opcode
}

fn s_type(opcode: u32, funct3: u32, rs1: u8, rs2: u8, imm: u32) -> u32
    requires opcode_fits { opcode < 128 }
    requires funct3_fits { funct3 < 8 }
    requires rs1_fits { rs1 < 32 }
    requires rs2_fits { rs2 < 32 }
    requires imm_fits { imm < 2 ^ 12 }
    ensures { result ≡ words.s_type opcode funct3 rs1 rs2 imm }
{
    r_type(opcode, funct3, imm >> 5, (imm & 31) as u8, rs1, rs2)
}

fn b_type(opcode: u32, funct3: u32, rs1: u8, rs2: u8, imm: u32) -> u32
    requires opcode_fits { opcode < 128 }
    requires funct3_fits { funct3 < 8 }
    requires rs1_fits { rs1 < 32 }
    requires rs2_fits { rs2 < 32 }
    requires imm_fits { imm < 2 ^ 13 }
    ensures { result ≡ words.b_type opcode funct3 rs1 rs2 imm }
{
    let high = (imm >> 12 << 6) + (imm >> 5 & 63);
    let low = ((imm >> 1 & 15) << 1) + (imm >> 11 & 1);
    r_type(opcode, funct3, high, low as u8, rs1, rs2)
}

fn u_type(opcode: u32, rd: u8, imm: u32) -> u32
    requires opcode_fits { opcode < 128 }
    requires rd_fits { rd < 32 }
    requires imm_fits { imm % 2 ^ 12 ≡ 0 }
    ensures { result ≡ words.u_type opcode rd imm }
{
    imm + (u32::from(rd) << 7) + opcode
}

fn j_type(opcode: u32, rd: u8, imm: u32) -> u32
    requires opcode_fits { opcode < 128 }
    requires rd_fits { rd < 32 }
    requires imm_fits { imm < 2 ^ 21 }
    ensures { result ≡ words.j_type opcode rd imm }
{
    (imm >> 20 << 31)
        + ((imm >> 1 & 1023) << 21)
        + ((imm >> 11 & 1) << 20)
        + ((imm >> 12 & 255) << 12)
        + (u32::from(rd) << 7)
        + opcode
}

fn immediate_bits(value: i32) -> u32
    requires { IsImmediate value }
    ensures value { result ≡ words.twos 12 value }
    ensures range { result < 2 ^ 12 }
{
    value.cast_unsigned() & 0xfff
}

fn branch_bits(offset: i32) -> u32
    requires { IsBranchOffset offset }
    ensures value { result ≡ words.twos 13 offset }
    ensures range { result < 2 ^ 13 }
{
    offset.cast_unsigned() & 0x1fff
}

fn jump_bits(offset: i32) -> u32
    requires { IsJumpOffset offset }
    ensures value { result ≡ words.twos 21 offset }
    ensures range { result < 2 ^ 21 }
{
    offset.cast_unsigned() & 0x1f_ffff
}

fn branch_funct3(op: BranchOp) -> u32
    ensures value { result ≡ words.branch_funct3 op }
    ensures range { result < 8 }
{
    match op {
        BranchOp::Beq => 0,
        BranchOp::Bne => 1,
        BranchOp::Blt => 4,
        BranchOp::Bge => 5,
        BranchOp::Bltu => 6,
        BranchOp::Bgeu => 7,
    }
}

fn load_funct3(op: LoadOp) -> u32
    ensures value { result ≡ words.load_funct3 op }
    ensures range { result < 8 }
{
    match op {
        LoadOp::Lb => 0,
        LoadOp::Lh => 1,
        LoadOp::Lw => 2,
        LoadOp::Lbu => 4,
        LoadOp::Lhu => 5,
    }
}

fn store_funct3(op: StoreOp) -> u32
    ensures value { result ≡ words.store_funct3 op }
    ensures range { result < 8 }
{
    match op {
        StoreOp::Sb => 0,
        StoreOp::Sh => 1,
        StoreOp::Sw => 2,
    }
}

fn imm_funct3(op: ImmOp) -> u32
    ensures value { result ≡ words.imm_funct3 op }
    ensures range { result < 8 }
{
    match op {
        ImmOp::Addi => 0,
        ImmOp::Slti => 2,
        ImmOp::Sltiu => 3,
        ImmOp::Xori => 4,
        ImmOp::Ori => 6,
        ImmOp::Andi => 7,
    }
}

fn shift_funct3(op: ShiftOp) -> u32
    ensures value { result ≡ words.shift_funct3 op }
    ensures range { result < 8 }
{
    match op {
        ShiftOp::Slli => 1,
        ShiftOp::Srli | ShiftOp::Srai => 5,
    }
}

fn shift_funct7(op: ShiftOp) -> u32
    ensures value { result ≡ words.shift_funct7 op }
    ensures range { result < 128 }
{
    match op {
        ShiftOp::Slli | ShiftOp::Srli => 0,
        ShiftOp::Srai => 0x20,
    }
}

fn reg_funct3(op: RegOp) -> u32
    ensures value { result ≡ words.reg_funct3 op }
    ensures range { result < 8 }
{
    match op {
        RegOp::Add | RegOp::Sub | RegOp::Mul => 0,
        RegOp::Sll | RegOp::Mulh => 1,
        RegOp::Slt | RegOp::Mulhsu => 2,
        RegOp::Sltu | RegOp::Mulhu => 3,
        RegOp::Xor | RegOp::Div => 4,
        RegOp::Srl | RegOp::Sra | RegOp::Divu => 5,
        RegOp::Or | RegOp::Rem => 6,
        RegOp::And | RegOp::Remu => 7,
    }
}

fn reg_funct7(op: RegOp) -> u32
    ensures value { result ≡ words.reg_funct7 op }
    ensures range { result < 128 }
{
    match op {
        RegOp::Sub | RegOp::Sra => 0x20,
        RegOp::Add | RegOp::Sll | RegOp::Slt | RegOp::Sltu => 0,
        RegOp::Xor | RegOp::Srl | RegOp::Or | RegOp::And => 0,
        RegOp::Mul | RegOp::Mulh | RegOp::Mulhsu | RegOp::Mulhu => 1,
        RegOp::Div | RegOp::Divu | RegOp::Rem | RegOp::Remu => 1,
    }
}

fn amo_funct5(op: AmoOp) -> u32
    ensures value { result ≡ words.amo_funct5 op }
    ensures range { result < 32 }
{
    match op {
        AmoOp::LrW => 0b00010,
        AmoOp::ScW => 0b00011,
        AmoOp::AmoswapW => 0b00001,
        AmoOp::AmoaddW => 0b00000,
        AmoOp::AmoxorW => 0b00100,
        AmoOp::AmoandW => 0b01100,
        AmoOp::AmoorW => 0b01000,
        AmoOp::AmominW => 0b10000,
        AmoOp::AmomaxW => 0b10100,
        AmoOp::AmominuW => 0b11000,
        AmoOp::AmomaxuW => 0b11100,
    }
}

fn amo_funct7(op: AmoOp, aq: bool, rl: bool) -> u32
    ensures value { result ≡ words.amo_funct7 op aq rl }
    ensures range { result < 128 }
{
    (amo_funct5(op) << 2) + (u32::from(aq) << 1) + u32::from(rl)
}

// ---- the word of each kind of instruction

fn upper(auipc: bool, rd: u8, imm: u32) -> u32
    requires { IsValid (Upper auipc rd imm) }
    ensures { result ≡ words.encoding (Upper auipc rd imm) }
{
    let opcode = if auipc { 0x17 } else { 0x37 };
    u_type(opcode, rd, imm)
}

fn jal(rd: u8, offset: i32) -> u32
    requires { IsValid (Jal rd offset) }
    ensures { result ≡ words.encoding (Jal rd offset) }
{
    j_type(0x6f, rd, jump_bits(offset))
}

fn jalr(rd: u8, rs1: u8, offset: i32) -> u32
    requires { IsValid (Jalr rd rs1 offset) }
    ensures { result ≡ words.encoding (Jalr rd rs1 offset) }
{
    i_type(0x67, 0, rd, rs1, immediate_bits(offset))
}

fn branch(op: BranchOp, rs1: u8, rs2: u8, offset: i32) -> u32
    requires { IsValid (Branch op rs1 rs2 offset) }
    ensures { result ≡ words.encoding (Branch op rs1 rs2 offset) }
{
    b_type(0x63, branch_funct3(op), rs1, rs2, branch_bits(offset))
}

fn load(op: LoadOp, rd: u8, rs1: u8, offset: i32) -> u32
    requires { IsValid (Load op rd rs1 offset) }
    ensures { result ≡ words.encoding (Load op rd rs1 offset) }
{
    i_type(0x03, load_funct3(op), rd, rs1, immediate_bits(offset))
}

fn store(op: StoreOp, rs1: u8, rs2: u8, offset: i32) -> u32
    requires { IsValid (Store op rs1 rs2 offset) }
    ensures { result ≡ words.encoding (Store op rs1 rs2 offset) }
{
    s_type(0x23, store_funct3(op), rs1, rs2, immediate_bits(offset))
}

fn arithmetic(op: ImmOp, rd: u8, rs1: u8, imm: i32) -> u32
    requires { IsValid (Imm op rd rs1 imm) }
    ensures { result ≡ words.encoding (Imm op rd rs1 imm) }
{
    i_type(0x13, imm_funct3(op), rd, rs1, immediate_bits(imm))
}

fn shift(op: ShiftOp, rd: u8, rs1: u8, amount: u8) -> u32
    requires { IsValid (Shift op rd rs1 amount) }
    ensures { result ≡ words.encoding (Shift op rd rs1 amount) }
{
    r_type(0x13, shift_funct3(op), shift_funct7(op), rd, rs1, amount)
}

fn register(op: RegOp, rd: u8, rs1: u8, rs2: u8) -> u32
    requires { IsValid (Reg op rd rs1 rs2) }
    ensures { result ≡ words.encoding (Reg op rd rs1 rs2) }
{
    r_type(0x33, reg_funct3(op), reg_funct7(op), rd, rs1, rs2)
}

fn amo(op: AmoOp, rd: u8, rs1: u8, rs2: u8, aq: bool, rl: bool) -> u32
    requires { IsValid (Amo op rd rs1 rs2 aq rl) }
    ensures { result ≡ words.encoding (Amo op rd rs1 rs2 aq rl) }
{
    r_type(0x2f, 2, amo_funct7(op, aq, rl), rd, rs1, rs2)
}

fn fence(fetch: bool, rd: u8, rs1: u8, imm: u16) -> u32
    requires { IsValid (Fence fetch rd rs1 imm) }
    ensures { result ≡ words.encoding (Fence fetch rd rs1 imm) }
{
    i_type(0x0f, u32::from(fetch), rd, rs1, u32::from(imm))
}

fn by_format(instr: &Instr) -> u32
    requires { IsValid instr.now }
    ensures { result ≡ words.encoding instr.now }
{
    let instr = *instr;
    match instr {
        Instr::Upper { auipc, rd, imm } => upper(auipc, rd, imm),
        Instr::Jal { rd, offset } => jal(rd, offset),
        Instr::Jalr { rd, rs1, offset } => jalr(rd, rs1, offset),
        Instr::Branch {
            op,
            rs1,
            rs2,
            offset,
        } => branch(op, rs1, rs2, offset),
        Instr::Load {
            op,
            rd,
            rs1,
            offset,
        } => load(op, rd, rs1, offset),
        Instr::Store {
            op,
            rs1,
            rs2,
            offset,
        } => store(op, rs1, rs2, offset),
        Instr::Imm { op, rd, rs1, imm } => arithmetic(op, rd, rs1, imm),
        Instr::Shift {
            op,
            rd,
            rs1,
            amount,
        } => shift(op, rd, rs1, amount),
        Instr::Reg { op, rd, rs1, rs2 } => register(op, rd, rs1, rs2),
        Instr::Amo {
            op,
            rd,
            rs1,
            rs2,
            aq,
            rl,
        } => amo(op, rd, rs1, rs2, aq, rl),
        Instr::Fence {
            fetch,
            rd,
            rs1,
            imm,
        } => fence(fetch, rd, rs1, imm),
        Instr::Ecall => 0x0000_0073,
        Instr::Ebreak => 0x0010_0073,
    }
}

/// The word of a valid instruction. `decode` gives the instruction again.
#[tactic(auto, using(crate::proofs::Again::encoding_again))]
pub fn encode(instr: &Instr) -> u32
    requires { IsValid instr.now }
    ensures word { result ≡ words.encoding instr.now }
    ensures again { meaning result ≡ Some instr.now }
{
    by_format(instr)
}
