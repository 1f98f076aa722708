// The numbers that instructions give. Each is the manual's own formula for its operation.
ghost use Rattle.std.specs.Prelude.{◌≡◌, ◌<◌, ◌^◌, ◌/◌, ◌*◌, ◌*ℤ◌, pos};
ghost use Rattle.std.specs.Int.{int_shr};
ghost use Rattle.flat_machine.specs.Arithmetic as arithmetic;

use dos_world::Size;
use rv_isa::{BranchOp, ImmOp, LoadOp, RegOp, ShiftOp, StoreOp};

#[inline(always)]
pub fn flag(holds: bool) -> u32
    ensures { result ≡ arithmetic.test holds }
{
    if holds { 1 } else { 0 }
}

/// Whether a branch with this comparison is taken.
#[inline(always)]
pub fn is_taken(op: BranchOp, a: u32, b: u32) -> bool
    ensures { result ≡ arithmetic.is_taken op a b }
{
    match op {
        BranchOp::Beq => a == b,
        BranchOp::Bne => a != b,
        BranchOp::Blt => a.cast_signed() < b.cast_signed(),
        BranchOp::Bge => a.cast_signed() >= b.cast_signed(),
        BranchOp::Bltu => a < b,
        BranchOp::Bgeu => a >= b,
    }
}

/// What an operation gives on a register and an immediate.
#[inline(always)]
pub fn immediate_result(op: ImmOp, a: u32, imm: i32) -> u32
    ensures { result ≡ arithmetic.immediate_result op a imm }
{
    match op {
        ImmOp::Addi => a.wrapping_add_signed(imm),
        ImmOp::Slti => flag(a.cast_signed() < imm),
        ImmOp::Sltiu => flag(a < imm.cast_unsigned()),
        ImmOp::Xori => a ^ imm.cast_unsigned(),
        ImmOp::Ori => a | imm.cast_unsigned(),
        ImmOp::Andi => a & imm.cast_unsigned(),
    }
}

/// What a shift by a constant gives.
#[inline(always)]
pub fn shift_result(op: ShiftOp, a: u32, amount: u8) -> u32
    requires { amount < 32 }
    ensures { result ≡ arithmetic.shift_result op a amount }
{
    match op {
        ShiftOp::Slli => a << amount,
        ShiftOp::Srli => a >> amount,
        ShiftOp::Srai => (a.cast_signed() >> amount).cast_unsigned(),
    }
}

/// The upper half of the product of two signed numbers.
#[inline(always)]
fn high_signed(a: u32, b: u32) -> u32
    ensures { result ≡ arithmetic.register_result RegOp.Mulh a b }
{
    let product = i64::from(a.cast_signed()) * i64::from(b.cast_signed());
    ((product >> 32) as i32).cast_unsigned()
}

/// The upper half of the product of a signed number and an unsigned one.
#[inline(always)]
fn high_mixed(a: u32, b: u32) -> u32
    ensures { result ≡ arithmetic.register_result RegOp.Mulhsu a b }
{
    let product = i64::from(a.cast_signed()) * i64::from(b);
    ((product >> 32) as i32).cast_unsigned()
}

/// The upper half of the product of two unsigned numbers.
#[inline(always)]
fn high_unsigned(a: u32, b: u32) -> u32
    ensures { result ≡ arithmetic.register_result RegOp.Mulhu a b }
{
    (u64::from(a) * u64::from(b) >> 32) as u32
}

/// The signed quotient, rounded toward zero; by zero, all ones.
#[inline(always)]
fn quotient(a: u32, b: u32) -> u32
    ensures { result ≡ arithmetic.quotient a b }
{
    if b == 0 {
        return u32::MAX;
    }
    a.cast_signed()
        .wrapping_div(b.cast_signed())
        .cast_unsigned()
}

/// What is left by the signed quotient; by zero, the dividend.
#[inline(always)]
fn remainder(a: u32, b: u32) -> u32
    ensures { result ≡ arithmetic.remainder a b }
{
    if b == 0 {
        return a;
    }
    a.cast_signed()
        .wrapping_rem(b.cast_signed())
        .cast_unsigned()
}

/// What an operation gives on two registers.
#[inline(always)]
pub fn register_result(op: RegOp, a: u32, b: u32) -> u32
    ensures { result ≡ arithmetic.register_result op a b }
{
    match op {
        RegOp::Add => a.wrapping_add(b),
        RegOp::Sub => a.wrapping_sub(b),
        RegOp::Sll => a << (b % 32),
        RegOp::Slt => flag(a.cast_signed() < b.cast_signed()),
        RegOp::Sltu => flag(a < b),
        RegOp::Xor => a ^ b,
        RegOp::Srl => a >> (b % 32),
        RegOp::Sra => (a.cast_signed() >> (b % 32)).cast_unsigned(),
        RegOp::Or => a | b,
        RegOp::And => a & b,
        RegOp::Mul => a.wrapping_mul(b),
        RegOp::Mulh => high_signed(a, b),
        RegOp::Mulhsu => high_mixed(a, b),
        RegOp::Mulhu => high_unsigned(a, b),
        RegOp::Div => quotient(a, b),
        RegOp::Divu => if b == 0 { u32::MAX } else { a / b },
        RegOp::Rem => remainder(a, b),
        RegOp::Remu => if b == 0 { a } else { a % b },
    }
}

/// How much a load reads.
#[inline(always)]
pub fn load_size(op: LoadOp) -> Size
    ensures { result ≡ arithmetic.load_size op }
{
    match op {
        LoadOp::Lb => Size::Byte,
        LoadOp::Lh => Size::Half,
        LoadOp::Lw => Size::Word,
        LoadOp::Lbu => Size::Byte,
        LoadOp::Lhu => Size::Half,
    }
}

/// What a load gives of the number that it read, which is zero-extended.
#[inline(always)]
pub fn load_result(op: LoadOp, number: u32) -> u32
    ensures { result ≡ arithmetic.load_result op number }
{
    match op {
        LoadOp::Lb => ((number << 24).cast_signed() >> 24).cast_unsigned(),
        LoadOp::Lh => ((number << 16).cast_signed() >> 16).cast_unsigned(),
        LoadOp::Lw => number,
        LoadOp::Lbu => number,
        LoadOp::Lhu => number,
    }
}

/// How much a store writes.
#[inline(always)]
pub fn store_size(op: StoreOp) -> Size
    ensures { result ≡ arithmetic.store_size op }
{
    match op {
        StoreOp::Sb => Size::Byte,
        StoreOp::Sh => Size::Half,
        StoreOp::Sw => Size::Word,
    }
}

/// The lesser of two signed numbers.
#[inline(always)]
pub fn lesser(a: u32, b: u32) -> u32
    ensures { result ≡ arithmetic.lesser a b }
{
    if a.cast_signed() < b.cast_signed() {
        a
    } else {
        b
    }
}

/// The greater of two signed numbers.
#[inline(always)]
pub fn greater(a: u32, b: u32) -> u32
    ensures { result ≡ arithmetic.greater a b }
{
    if a.cast_signed() < b.cast_signed() {
        b
    } else {
        a
    }
}
