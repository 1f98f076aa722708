// From a word to its form.
#![tactic(auto, using(crate::proofs::Uppers::meanings), unfolding(crate::specs::Forms::instr_of))]

ghost use Rattle.std.specs.Prelude.{◌≡◌, ◌<◌, ◌⊎◌, ℕ, ℤ, Some, None, false, bit_and};
ghost use Rattle.std.specs.Prelude.{option_map};
ghost use Rattle.rv_isa.specs.Fields as fields;
ghost use Rattle.rv_isa.specs.Meaning.{meaning};
ghost use Rattle.rv_isa.specs.declared.Instr.TheVariants.{Branch, Load, Store, Imm, Shift, Reg};
ghost use Rattle.rv_isa.specs.declared.Instr.TheVariants.{Amo};
ghost use Rattle.rv_isa.specs.declared.BranchOp.TheVariants.{Beq, Bne};
ghost use Rattle.rv_isa.specs.declared.ImmOp.TheVariants.{Addi, Andi};
ghost use Rattle.rv_isa.specs.declared.RegOp.TheVariants.{Add, Sub, Xor, Or, And};
ghost use Rattle.rv_isa.specs.Compressed.{IsShort, expansion, sized};
ghost use Rattle.rv_isa.specs.Valid.{IsValid};
ghost use Rattle.rv_form.specs.Forms.{instr_of, instr_of_form, IsFormOf, IsFormOfWord, IsNoOpcode};

use crate::{Form, Op};
use rv_isa::{
    AmoOp, Arithmetic, BranchOp, ImmOp, Instr, LoadOp, RegOp, ShiftOp, StoreOp, SystemOp,
    expand_code,
};

#[inline]
fn op_of_branch(op: BranchOp) -> Op
    ensures { (rd rs1 rs2 : ℕ) (imm : ℤ) → instr_of result rd rs1 rs2 imm
        ≡ Some (Branch op rs1 rs2 imm, 4) }
{
    match op {
        BranchOp::Beq => Op::Beq,
        BranchOp::Bne => Op::Bne,
        BranchOp::Blt => Op::Blt,
        BranchOp::Bge => Op::Bge,
        BranchOp::Bltu => Op::Bltu,
        BranchOp::Bgeu => Op::Bgeu,
    }
}

#[inline]
fn op_of_load(op: LoadOp) -> Op
    ensures { (rd rs1 rs2 : ℕ) (imm : ℤ) → instr_of result rd rs1 rs2 imm
        ≡ Some (Load op rd rs1 imm, 4) }
{
    match op {
        LoadOp::Lb => Op::Lb,
        LoadOp::Lh => Op::Lh,
        LoadOp::Lw => Op::Lw,
        LoadOp::Lbu => Op::Lbu,
        LoadOp::Lhu => Op::Lhu,
    }
}

#[inline]
fn op_of_store(op: StoreOp) -> Op
    ensures { (rd rs1 rs2 : ℕ) (imm : ℤ) → instr_of result rd rs1 rs2 imm
        ≡ Some (Store op rs1 rs2 imm, 4) }
{
    match op {
        StoreOp::Sb => Op::Sb,
        StoreOp::Sh => Op::Sh,
        StoreOp::Sw => Op::Sw,
    }
}

#[inline]
fn op_of_imm(op: ImmOp) -> Op
    ensures { (rd rs1 rs2 : ℕ) (imm : ℤ) → instr_of result rd rs1 rs2 imm
        ≡ Some (Imm op rd rs1 imm, 4) }
{
    match op {
        ImmOp::Addi => Op::Addi,
        ImmOp::Slti => Op::Slti,
        ImmOp::Sltiu => Op::Sltiu,
        ImmOp::Xori => Op::Xori,
        ImmOp::Ori => Op::Ori,
        ImmOp::Andi => Op::Andi,
    }
}

#[inline]
fn op_of_shift(op: ShiftOp) -> Op
    ensures { (rd rs1 rs2 : ℕ) (imm : ℤ) → instr_of result rd rs1 rs2 imm
        ≡ Some (Shift op rd rs1 rs2, 4) }
{
    match op {
        ShiftOp::Slli => Op::Slli,
        ShiftOp::Srli => Op::Srli,
        ShiftOp::Srai => Op::Srai,
    }
}

#[inline]
fn op_of_reg(op: RegOp) -> Op
    ensures { (rd rs1 rs2 : ℕ) (imm : ℤ) → instr_of result rd rs1 rs2 imm
        ≡ Some (Reg op rd rs1 rs2, 4) }
{
    match op {
        RegOp::Add => Op::Add,
        RegOp::Sub => Op::Sub,
        RegOp::Sll => Op::Sll,
        RegOp::Slt => Op::Slt,
        RegOp::Sltu => Op::Sltu,
        RegOp::Xor => Op::Xor,
        RegOp::Srl => Op::Srl,
        RegOp::Sra => Op::Sra,
        RegOp::Or => Op::Or,
        RegOp::And => Op::And,
        RegOp::Mul => Op::Mul,
        RegOp::Mulh => Op::Mulh,
        RegOp::Mulhsu => Op::Mulhsu,
        RegOp::Mulhu => Op::Mulhu,
        RegOp::Div => Op::Div,
        RegOp::Divu => Op::Divu,
        RegOp::Rem => Op::Rem,
        RegOp::Remu => Op::Remu,
    }
}

#[inline]
fn op_of_amo(op: AmoOp) -> Op
    ensures { (rd rs1 rs2 : ℕ) (imm : ℤ) → instr_of result rd rs1 rs2 imm
        ≡ Some (Amo op rd rs1 rs2 false false, 4) }
{
    match op {
        AmoOp::LrW => Op::LrW,
        AmoOp::ScW => Op::ScW,
        AmoOp::AmoswapW => Op::AmoswapW,
        AmoOp::AmoaddW => Op::AmoaddW,
        AmoOp::AmoxorW => Op::AmoxorW,
        AmoOp::AmoandW => Op::AmoandW,
        AmoOp::AmoorW => Op::AmoorW,
        AmoOp::AmominW => Op::AmominW,
        AmoOp::AmomaxW => Op::AmomaxW,
        AmoOp::AmominuW => Op::AmominuW,
        AmoOp::AmomaxuW => Op::AmomaxuW,
    }
}

fn short_form(op: Op, rd: u8, rs1: u8, rs2: u8, imm: i32) -> Form
    requires rd { rd < 32 }
    requires rs1 { rs1 < 32 }
    requires rs2 { rs2 < 32 }
    ensures { instr_of_form result ≡ instr_of op rd rs1 rs2 imm }
{
    Form {
        op,
        rd,
        rs1,
        rs2,
        imm,
    }
}

fn short_branch(op: BranchOp) -> Op
    requires { (op ≡ Beq) ⊎ (op ≡ Bne) }
    ensures { (rd rs1 rs2 : ℕ) (imm : ℤ) → instr_of result rd rs1 rs2 imm
        ≡ Some (Branch op rs1 rs2 imm, 2) }
{
    match op {
        BranchOp::Beq => Op::ShortBeq,
        BranchOp::Bne => Op::ShortBne,
        _ => unreachable!(),
    }
}

fn short_imm(op: ImmOp) -> Op
    requires { (op ≡ Addi) ⊎ (op ≡ Andi) }
    ensures { (rd rs1 rs2 : ℕ) (imm : ℤ) → instr_of result rd rs1 rs2 imm
        ≡ Some (Imm op rd rs1 imm, 2) }
{
    match op {
        ImmOp::Addi => Op::ShortAddi,
        ImmOp::Andi => Op::ShortAndi,
        _ => unreachable!(),
    }
}

fn short_shift(op: ShiftOp) -> Op
    ensures { (rd rs1 rs2 : ℕ) (imm : ℤ) → instr_of result rd rs1 rs2 imm
        ≡ Some (Shift op rd rs1 rs2, 2) }
{
    match op {
        ShiftOp::Slli => Op::ShortSlli,
        ShiftOp::Srli => Op::ShortSrli,
        ShiftOp::Srai => Op::ShortSrai,
    }
}

fn short_reg(op: RegOp) -> Op
    requires { (op ≡ Add) ⊎ (op ≡ Sub) ⊎ (op ≡ Xor) ⊎ (op ≡ Or) ⊎ (op ≡ And) }
    ensures { (rd rs1 rs2 : ℕ) (imm : ℤ) → instr_of result rd rs1 rs2 imm
        ≡ Some (Reg op rd rs1 rs2, 2) }
{
    match op {
        RegOp::Add => Op::ShortAdd,
        RegOp::Sub => Op::ShortSub,
        RegOp::Xor => Op::ShortXor,
        RegOp::Or => Op::ShortOr,
        RegOp::And => Op::ShortAnd,
        _ => unreachable!(),
    }
}

/// No instruction.
#[inline]
fn none(word: u32) -> Form
    requires { meaning word ≡ None }
    ensures { IsFormOfWord word result }
{
    let _ = word;
    Form {
        op: Op::Illegal,
        rd: 0,
        rs1: 0,
        rs2: 0,
        imm: 0,
    }
}

#[inline]
fn with_fields(word: u32, op: Op, imm: i32) -> Form
    ensures op { result.op ≡ op }
    ensures rd { result.rd ≡ fields.rd word }
    ensures rs1 { result.rs1 ≡ fields.rs1 word }
    ensures rs2 { result.rs2 ≡ fields.rs2 word }
    ensures imm { result.imm ≡ imm }
{
    Form {
        op,
        rd: rv_isa::rd(word),
        rs1: rv_isa::rs1(word),
        rs2: rv_isa::rs2(word),
        imm,
    }
}

#[inline]
fn branch(word: u32) -> Form
    requires { bit_and word 127 ≡ 0x63 }
    ensures { IsFormOfWord word result }
{
    match rv_isa::branch_op(word) {
        Some(op) => with_fields(word, op_of_branch(op), rv_isa::imm_b(word)),
        None => none(word),
    }
}

#[inline]
fn load(word: u32) -> Form
    requires { bit_and word 127 ≡ 0x03 }
    ensures { IsFormOfWord word result }
{
    match rv_isa::load_op(word) {
        Some(op) => with_fields(word, op_of_load(op), rv_isa::imm_i(word)),
        None => none(word),
    }
}

#[inline]
fn store(word: u32) -> Form
    requires { bit_and word 127 ≡ 0x23 }
    ensures { IsFormOfWord word result }
{
    match rv_isa::store_op(word) {
        Some(op) => with_fields(word, op_of_store(op), rv_isa::imm_s(word)),
        None => none(word),
    }
}

#[inline]
fn register(word: u32) -> Form
    requires { bit_and word 127 ≡ 0x33 }
    ensures { IsFormOfWord word result }
{
    match rv_isa::reg_op(word) {
        Some(op) => with_fields(word, op_of_reg(op), rv_isa::imm_i(word)),
        None => none(word),
    }
}

#[inline]
fn amo(word: u32) -> Form
    requires { bit_and word 127 ≡ 0x2F }
    ensures { IsFormOfWord word result }
{
    match rv_isa::amo_op(word) {
        Some(op) => with_fields(word, op_of_amo(op), rv_isa::imm_i(word)),
        None => none(word),
    }
}

#[inline]
fn arithmetic(word: u32) -> Form
    requires { bit_and word 127 ≡ 0x13 }
    ensures { IsFormOfWord word result }
{
    match rv_isa::arithmetic_op(word) {
        Some(Arithmetic::Plain(op)) => with_fields(word, op_of_imm(op), rv_isa::imm_i(word)),
        Some(Arithmetic::Shifts(op)) => with_fields(word, op_of_shift(op), rv_isa::imm_i(word)),
        None => none(word),
    }
}

#[inline]
fn fence(word: u32) -> Form
    requires { bit_and word 127 ≡ 0x0F }
    ensures { IsFormOfWord word result }
{
    match rv_isa::fence_op(word) {
        Some(_) => with_fields(word, Op::Fence, 0),
        None => none(word),
    }
}

#[inline]
fn system(word: u32) -> Form
    requires { bit_and word 127 ≡ 0x73 }
    ensures { IsFormOfWord word result }
{
    match rv_isa::system_op(word) {
        Some(SystemOp::Ecall) => with_fields(word, Op::Ecall, 0),
        Some(SystemOp::Ebreak) => with_fields(word, Op::Ebreak, 0),
        None => none(word),
    }
}

#[inline]
fn jalr(word: u32) -> Form
    requires { bit_and word 127 ≡ 0x67 }
    ensures { IsFormOfWord word result }
{
    if rv_isa::is_jalr(word) {
        with_fields(word, Op::Jalr, rv_isa::imm_i(word))
    } else {
        none(word)
    }
}

#[inline]
fn jal(word: u32) -> Form
    requires { bit_and word 127 ≡ 0x6F }
    ensures { IsFormOfWord word result }
{
    with_fields(word, Op::Jal, rv_isa::imm_j(word))
}

#[inline]
fn lui(word: u32) -> Form
    requires { bit_and word 127 ≡ 0x37 }
    ensures { IsFormOfWord word result }
{
    with_fields(word, Op::Lui, rv_isa::imm_u(word).cast_signed())
}

#[inline]
fn auipc(word: u32) -> Form
    requires { bit_and word 127 ≡ 0x17 }
    ensures { IsFormOfWord word result }
{
    with_fields(word, Op::Auipc, rv_isa::imm_u(word).cast_signed())
}

#[inline]
fn other(word: u32) -> Form
    requires { IsNoOpcode (bit_and word 127) }
    ensures { IsFormOfWord word result }
{
    none(word)
}

/// The form of a word.
#[inline]
fn form_of_word(word: u32) -> Form
    ensures { IsFormOfWord word result }
{
    match word & 127 {
        0x13 => arithmetic(word),
        0x33 => register(word),
        0x03 => load(word),
        0x23 => store(word),
        0x63 => branch(word),
        0x6f => jal(word),
        0x67 => jalr(word),
        0x37 => lui(word),
        0x17 => auipc(word),
        0x2f => amo(word),
        0x73 => system(word),
        0x0f => fence(word),
        _ => other(word),
    }
}

/// The form of an instruction that has a short form, as one of two bytes.
fn short(instr: &Instr) -> Form
    requires valid { IsValid instr.now }
    requires short { IsShort instr.now }
    ensures { instr_of_form result ≡ Some (instr.now, 2) }
{
    match *instr {
        Instr::Upper { rd, imm, .. } => short_form(Op::ShortLui, rd, 0, 0, imm.cast_signed()),
        Instr::Jal { rd, offset } => short_form(Op::ShortJal, rd, 0, 0, offset),
        Instr::Jalr { rd, rs1, offset } => short_form(Op::ShortJalr, rd, rs1, 0, offset),
        Instr::Branch {
            op,
            rs1,
            rs2,
            offset,
        } => short_form(short_branch(op), 0, rs1, rs2, offset),
        Instr::Load {
            rd,
            rs1,
            offset,
            ..
        } => short_form(Op::ShortLw, rd, rs1, 0, offset),
        Instr::Store {
            rs1,
            rs2,
            offset,
            ..
        } => short_form(Op::ShortSw, 0, rs1, rs2, offset),
        Instr::Imm { op, rd, rs1, imm } => short_form(short_imm(op), rd, rs1, 0, imm),
        Instr::Shift {
            op,
            rd,
            rs1,
            amount,
        } => short_form(short_shift(op), rd, rs1, amount, 0),
        Instr::Reg { op, rd, rs1, rs2 } => short_form(short_reg(op), rd, rs1, rs2, 0),
        Instr::Ebreak => short_form(Op::ShortEbreak, 0, 0, 0, 0),
        _ => unreachable!(),
    }
}

/// The form of a halfword alone.
fn form_of_half(half: u32) -> Form
    ensures { instr_of_form result ≡ option_map (sized 2) (expansion half) }
{
    match expand_code(half) {
        Some(instr) => short(&instr),
        None => Form::unknown(),
    }
}

/// The form of a code: a word, whose low two bits are 11, or a halfword alone. It does what the
/// code does; a code without a meaning has the form `Op::Illegal`.
#[inline]
pub fn form_of(code: u32) -> Form
    ensures { IsFormOf code result }
{
    if code % 4 == 3 {
        form_of_word(code)
    } else {
        form_of_half(code)
    }
}
