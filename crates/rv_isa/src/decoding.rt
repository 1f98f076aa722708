// From a word to its instruction.
ghost use Rattle.std.specs.Prelude.{◌≡◌, option_map, if◌then◌else◌, ◌==◌, bit_and, IfSome};
ghost use Rattle.rv_isa.specs.Meaning as table;
ghost use Rattle.rv_isa.specs.Valid.{IsValid};
ghost use Rattle.rv_isa.specs.Encoding.{encoding};

use crate::fields::{
    acquires, fence_bits, imm_b, imm_i, imm_j, imm_s, imm_u, opcode, rd, releases, rs1, rs2,
};
use crate::groups::{
    amo_op, arithmetic_op, branch_op, fence_op, is_jalr, load_op, reg_op, store_op, system_op,
};
use crate::{Arithmetic, Instr, SystemOp};

fn branch(word: u32) -> Option<Instr>
    ensures { result ≡ option_map (λ op. table.branch op word) (table.branch_in word) }
{
    let op = branch_op(word)?;
    Some(Instr::Branch {
        op,
        rs1: rs1(word),
        rs2: rs2(word),
        offset: imm_b(word),
    })
}

fn load(word: u32) -> Option<Instr>
    ensures { result ≡ option_map (λ op. table.load op word) (table.load_in word) }
{
    let op = load_op(word)?;
    Some(Instr::Load {
        op,
        rd: rd(word),
        rs1: rs1(word),
        offset: imm_i(word),
    })
}

fn store(word: u32) -> Option<Instr>
    ensures { result ≡ option_map (λ op. table.store op word) (table.store_in word) }
{
    let op = store_op(word)?;
    Some(Instr::Store {
        op,
        rs1: rs1(word),
        rs2: rs2(word),
        offset: imm_s(word),
    })
}

fn arithmetic(word: u32) -> Option<Instr>
    ensures { result ≡ option_map (λ op. table.arithmetic op word) (table.arithmetic_in word) }
{
    match arithmetic_op(word) {
        Some(Arithmetic::Plain(op)) => Some(Instr::Imm {
            op,
            rd: rd(word),
            rs1: rs1(word),
            imm: imm_i(word),
        }),
        Some(Arithmetic::Shifts(op)) => Some(Instr::Shift {
            op,
            rd: rd(word),
            rs1: rs1(word),
            amount: rs2(word),
        }),
        None => None,
    }
}

fn register(word: u32) -> Option<Instr>
    ensures { result ≡ option_map (λ op. table.register op word) (table.register_in word) }
{
    let op = reg_op(word)?;
    Some(Instr::Reg {
        op,
        rd: rd(word),
        rs1: rs1(word),
        rs2: rs2(word),
    })
}

fn amo(word: u32) -> Option<Instr>
    ensures { result ≡ option_map (λ op. table.amo op word) (table.amo_in word) }
{
    let op = amo_op(word)?;
    Some(Instr::Amo {
        op,
        rd: rd(word),
        rs1: rs1(word),
        rs2: rs2(word),
        aq: acquires(word),
        rl: releases(word),
    })
}

fn fence(word: u32) -> Option<Instr>
    ensures { result ≡ option_map (λ fetch. table.fence fetch word) (table.fence_in word) }
{
    let fetch = fence_op(word)?;
    Some(Instr::Fence {
        fetch,
        rd: rd(word),
        rs1: rs1(word),
        imm: fence_bits(word),
    })
}

fn system(word: u32) -> Option<Instr>
    ensures { result ≡ option_map (λ op. table.system op word) (table.system_in word) }
{
    match system_op(word) {
        Some(SystemOp::Ecall) => Some(Instr::Ecall),
        Some(SystemOp::Ebreak) => Some(Instr::Ebreak),
        None => None,
    }
}

fn jalr(word: u32) -> Option<Instr>
    ensures { result ≡ (if bit_and word 0x707F == 0x67 then Some (table.jalr word) else None) }
{
    if is_jalr(word) {
        Some(Instr::Jalr {
            rd: rd(word),
            rs1: rs1(word),
            offset: imm_i(word),
        })
    } else {
        None
    }
}

#[tactic(auto, using(crate::proofs::ByOpcode::by_opcode_rules))]
fn by_opcode(word: u32) -> Option<Instr>
    ensures { result ≡ table.meaning word }
{
    match opcode(word) {
        0x37 => Some(Instr::Upper {
            auipc: false,
            rd: rd(word),
            imm: imm_u(word),
        }),
        0x17 => Some(Instr::Upper {
            auipc: true,
            rd: rd(word),
            imm: imm_u(word),
        }),
        0x6f => Some(Instr::Jal {
            rd: rd(word),
            offset: imm_j(word),
        }),
        0x67 => jalr(word),
        0x63 => branch(word),
        0x03 => load(word),
        0x23 => store(word),
        0x13 => arithmetic(word),
        0x33 => register(word),
        0x2f => amo(word),
        0x0f => fence(word),
        0x73 => system(word),
        _ => None,
    }
}

/// The instruction that a word stands for; None exactly where the table has no row for it. At most
/// one row fits a word, what it stands for is valid, and `encode` gives the word back.
#[tactic(auto, using(crate::proofs::Back::meaning_rules))]
pub fn decode(word: u32) -> Option<Instr>
    ensures row { result ≡ table.meaning word }
    ensures single { table.IsSingle word }
    ensures valid { IfSome result IsValid }
    ensures encoded { IfSome result (λ instr. encoding instr ≡ word) }
{
    by_opcode(word)
}
