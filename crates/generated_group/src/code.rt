//! Instructions, and how they go behind one another.

ghost use Rattle.std.specs.Prelude.{◌≡◌, ◌<◌, ◌*◌, ◌^◌, ◌∷◌, [], OnOk};
ghost use Rattle.rv_isa.specs.Valid.{IsValid};
ghost use Rattle.generated_group.specs.Generated.{addi, lower, lui, upper};
ghost use Rattle.generated_group.specs.Stretches.{AreValid, with_code};

use rv_asm::Builder;
use rv_isa::{ImmOp, Instr};
use std::alloc::AllocError;

/// The valid instructions go last.
pub fn push_all(builder: &mut Builder, code: &[Instr]) -> Result<(), AllocError>
    requires { AreValid code.now }
    ensures { OnOk result (builder.new ≡ with_code builder.old code.now) }
{
    for instr in code {
        builder.push(instr)?;
    }
    Ok(())
}

// What lui puts into a register, so that the low 12 bits can be added as a signed number.
fn rounded(number: u32) -> u32
    ensures { result ≡ upper number * 2 ^ 12 }
{
    number.wrapping_add(0x800) >> 12 << 12
}

// The low 12 bits, as a signed number.
fn low_bits(number: u32) -> i32
    ensures { result ≡ lower number }
{
    (number << 20).cast_signed() >> 20
}

/// The first of two instructions that put the number into the register.
pub fn load_upper(rd: u8, number: u32) -> Instr
    requires { rd < 32 }
    ensures code { result ≡ lui rd (upper number) }
    ensures valid { IsValid result }
{
    Instr::Upper {
        auipc: false,
        rd,
        imm: rounded(number),
    }
}

/// The second of them.
pub fn add_lower(rd: u8, number: u32) -> Instr
    requires { rd < 32 }
    ensures code { result ≡ addi rd rd (lower number) }
    ensures valid { IsValid result }
{
    Instr::Imm {
        op: ImmOp::Addi,
        rd,
        rs1: rd,
        imm: low_bits(number),
    }
}
