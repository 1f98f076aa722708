// The operation that a word stands for within its opcode. Each looks at the opcode too, so another
// opcode's word has none.
ghost use Rattle.std.specs.Prelude.{◌≡◌, ◌==◌, ◌<◌, Some, bit_and};
ghost use Rattle.rv_isa.specs.Groups.{by_fields, arithmetic_by, register_by};
ghost use Rattle.rv_isa.specs.Meaning.{branch_rows, load_rows, store_rows, branch_in, load_in};
ghost use Rattle.rv_isa.specs.Meaning.{store_in, arithmetic_in, register_in, amo_in, fence_in};
ghost use Rattle.rv_isa.specs.Meaning.{system_in};

use crate::fields::{funct3, funct7, opcode};
use crate::{AmoOp, Arithmetic, BranchOp, ImmOp, LoadOp, RegOp, ShiftOp, StoreOp, SystemOp};

/// The operation of a branch with this funct3.
#[inline]
fn branch_by(funct3: u32) -> Option<BranchOp>
    requires { funct3 < 8 }
    ensures { by_fields branch_rows 0x63 0 funct3 ≡ result }
{
    match funct3 {
        0 => Some(BranchOp::Beq),
        1 => Some(BranchOp::Bne),
        2 => None,
        3 => None,
        4 => Some(BranchOp::Blt),
        5 => Some(BranchOp::Bge),
        6 => Some(BranchOp::Bltu),
        7 => Some(BranchOp::Bgeu),
        _ => unreachable!(),
    }
}

/// The operation of a branch, opcode 0x63; None for any other word.
#[inline]
pub fn branch_op(word: u32) -> Option<BranchOp>
    ensures { result ≡ branch_in word }
{
    if opcode(word) != 0x63 {
        return None;
    }
    branch_by(funct3(word))
}

/// The operation of a load with this funct3.
#[inline]
fn load_by(funct3: u32) -> Option<LoadOp>
    requires { funct3 < 8 }
    ensures { by_fields load_rows 0x03 0 funct3 ≡ result }
{
    match funct3 {
        0 => Some(LoadOp::Lb),
        1 => Some(LoadOp::Lh),
        2 => Some(LoadOp::Lw),
        3 => None,
        4 => Some(LoadOp::Lbu),
        5 => Some(LoadOp::Lhu),
        6 => None,
        7 => None,
        _ => unreachable!(),
    }
}

/// The operation of a load, opcode 0x03; None for any other word.
#[inline]
pub fn load_op(word: u32) -> Option<LoadOp>
    ensures { result ≡ load_in word }
{
    if opcode(word) != 0x03 {
        return None;
    }
    load_by(funct3(word))
}

/// The operation of a store with this funct3.
#[inline]
fn store_by(funct3: u32) -> Option<StoreOp>
    requires { funct3 < 8 }
    ensures { by_fields store_rows 0x23 0 funct3 ≡ result }
{
    match funct3 {
        0 => Some(StoreOp::Sb),
        1 => Some(StoreOp::Sh),
        2 => Some(StoreOp::Sw),
        3 => None,
        4 => None,
        5 => None,
        6 => None,
        7 => None,
        _ => unreachable!(),
    }
}

/// The operation of a store, opcode 0x23; None for any other word.
#[inline]
pub fn store_op(word: u32) -> Option<StoreOp>
    ensures { result ≡ store_in word }
{
    if opcode(word) != 0x23 {
        return None;
    }
    store_by(funct3(word))
}

/// The shift by a constant whose funct3 is 5, by its funct7.
#[inline]
#[tactic(auto, using(crate::proofs::ByFields::no_shift_right))]
fn shift_right(funct7: u32) -> Option<Arithmetic>
    ensures { arithmetic_by funct7 5 ≡ result }
{
    match funct7 {
        0 => Some(Arithmetic::Shifts(ShiftOp::Srli)),
        0x20 => Some(Arithmetic::Shifts(ShiftOp::Srai)),
        _ => None,
    }
}

/// The shift by a constant whose funct3 is 1, by its funct7.
#[inline]
#[tactic(auto, using(crate::proofs::ByFields::no_shift_left))]
fn shift_left(funct7: u32) -> Option<Arithmetic>
    ensures { arithmetic_by funct7 1 ≡ result }
{
    match funct7 {
        0 => Some(Arithmetic::Shifts(ShiftOp::Slli)),
        _ => None,
    }
}

/// The operation on a register and a constant with these fields.
#[inline]
fn arithmetic_by(funct7: u32, funct3: u32) -> Option<Arithmetic>
    requires { funct3 < 8 }
    ensures { arithmetic_by funct7 funct3 ≡ result }
{
    match funct3 {
        0 => Some(Arithmetic::Plain(ImmOp::Addi)),
        1 => shift_left(funct7),
        2 => Some(Arithmetic::Plain(ImmOp::Slti)),
        3 => Some(Arithmetic::Plain(ImmOp::Sltiu)),
        4 => Some(Arithmetic::Plain(ImmOp::Xori)),
        5 => shift_right(funct7),
        6 => Some(Arithmetic::Plain(ImmOp::Ori)),
        7 => Some(Arithmetic::Plain(ImmOp::Andi)),
        _ => unreachable!(),
    }
}

/// The operation on a register and a constant, opcode 0x13; None for any other word.
#[inline]
pub fn arithmetic_op(word: u32) -> Option<Arithmetic>
    ensures { result ≡ arithmetic_in word }
{
    if opcode(word) != 0x13 {
        return None;
    }
    arithmetic_by(funct7(word), funct3(word))
}

/// The operation on two registers with funct7 0.
#[inline]
fn plain_op(funct3: u32) -> RegOp
    requires { funct3 < 8 }
    ensures { register_by 0 funct3 ≡ Some result }
{
    match funct3 {
        0 => RegOp::Add,
        1 => RegOp::Sll,
        2 => RegOp::Slt,
        3 => RegOp::Sltu,
        4 => RegOp::Xor,
        5 => RegOp::Srl,
        6 => RegOp::Or,
        7 => RegOp::And,
        _ => unreachable!(),
    }
}

/// The operation on two registers with funct7 1.
#[inline]
fn multiply_op(funct3: u32) -> RegOp
    requires { funct3 < 8 }
    ensures { register_by 1 funct3 ≡ Some result }
{
    match funct3 {
        0 => RegOp::Mul,
        1 => RegOp::Mulh,
        2 => RegOp::Mulhsu,
        3 => RegOp::Mulhu,
        4 => RegOp::Div,
        5 => RegOp::Divu,
        6 => RegOp::Rem,
        7 => RegOp::Remu,
        _ => unreachable!(),
    }
}

/// The operation on two registers with funct7 0x20.
#[inline]
fn other_op(funct3: u32) -> Option<RegOp>
    requires { funct3 < 8 }
    ensures { register_by 0x20 funct3 ≡ result }
{
    match funct3 {
        0 => Some(RegOp::Sub),
        5 => Some(RegOp::Sra),
        1 => None,
        2 => None,
        3 => None,
        4 => None,
        6 => None,
        7 => None,
        _ => unreachable!(),
    }
}

/// The operation on two registers with these fields.
#[inline]
#[tactic(auto, using(crate::proofs::ByFields::no_register))]
fn register_by(funct7: u32, funct3: u32) -> Option<RegOp>
    requires { funct3 < 8 }
    ensures { register_by funct7 funct3 ≡ result }
{
    match funct7 {
        0 => Some(plain_op(funct3)),
        1 => Some(multiply_op(funct3)),
        0x20 => other_op(funct3),
        _ => None,
    }
}

/// The operation on two registers, opcode 0x33; None for any other word.
#[inline]
pub fn reg_op(word: u32) -> Option<RegOp>
    ensures { result ≡ register_in word }
{
    if opcode(word) != 0x33 {
        return None;
    }
    register_by(funct7(word), funct3(word))
}

/// The atomic operation, opcode 0x2F; None for any other word, and for an lr.w that names a second
/// register.
#[inline]
#[tactic(auto, unfolding(crate::specs::Meaning::amo_in, crate::specs::Meaning::found))]
pub fn amo_op(word: u32) -> Option<AmoOp>
    ensures { result ≡ amo_in word }
{
    if word & 0xf9f0_707f == 0x1000_202f {
        return Some(AmoOp::LrW);
    }
    match word & 0xf800_707f {
        0x1800_202f => Some(AmoOp::ScW),
        0x0800_202f => Some(AmoOp::AmoswapW),
        0x0000_202f => Some(AmoOp::AmoaddW),
        0x2000_202f => Some(AmoOp::AmoxorW),
        0x6000_202f => Some(AmoOp::AmoandW),
        0x4000_202f => Some(AmoOp::AmoorW),
        0x8000_202f => Some(AmoOp::AmominW),
        0xa000_202f => Some(AmoOp::AmomaxW),
        0xc000_202f => Some(AmoOp::AmominuW),
        0xe000_202f => Some(AmoOp::AmomaxuW),
        _ => None,
    }
}

/// Whether a fence is the fetch's, fence.i, opcode 0x0F; None for any other word.
#[inline]
#[tactic(auto, unfolding(crate::specs::Meaning::fence_in, crate::specs::Meaning::found))]
pub fn fence_op(word: u32) -> Option<bool>
    ensures { result ≡ fence_in word }
{
    match word & 0x707f {
        0x000f => Some(false),
        0x100f => Some(true),
        _ => None,
    }
}

/// The call out of the program, opcode 0x73; None for any other word.
#[inline]
#[tactic(auto, unfolding(crate::specs::Meaning::system_in, crate::specs::Meaning::found))]
pub fn system_op(word: u32) -> Option<SystemOp>
    ensures { result ≡ system_in word }
{
    match word {
        0x0000_0073 => Some(SystemOp::Ecall),
        0x0010_0073 => Some(SystemOp::Ebreak),
        _ => None,
    }
}

/// Whether the word is a jalr: opcode 0x67 with funct3 0.
#[inline]
pub fn is_jalr(word: u32) -> bool
    ensures { result ≡ (bit_and word 0x707F == 0x67) }
{
    word & 0x707f == 0x67
}
