// From a halfword to its instruction.
ghost use Rattle.std.specs.Prelude.{◌≡◌, ◌<◌, ◌^◌, IfSome, pos};
ghost use Rattle.rv_isa.specs.Compressed as table;
ghost use Rattle.rv_isa.specs.Compressed.{IsShort};
ghost use Rattle.rv_isa.specs.Valid.{IsValid};

use crate::{BranchOp, ImmOp, Instr, LoadOp, RegOp, ShiftOp, StoreOp};

// ---- registers

fn rd(half: u32) -> u8
    ensures value { result ≡ table.rd half }
    ensures range { result < 32 }
{
    (half >> 7 & 31) as u8
}

fn rs2(half: u32) -> u8
    ensures value { result ≡ table.rs2 half }
    ensures range { result < 32 }
{
    (half >> 2 & 31) as u8
}

fn high_register(half: u32) -> u8
    ensures value { result ≡ table.high_register half }
    ensures range { result < 32 }
{
    8 + (half >> 7 & 7) as u8
}

fn low_register(half: u32) -> u8
    ensures value { result ≡ table.low_register half }
    ensures range { result < 32 }
{
    8 + (half >> 2 & 7) as u8
}

// ---- immediates

fn imm_wide(half: u32) -> u32
    ensures value { result ≡ table.imm_wide half }
    ensures range { result < 2 ^ 10 }
{
    (half >> 11 & 3) * 16 + (half >> 7 & 15) * 64 + (half >> 6 & 1) * 4 + (half >> 5 & 1) * 8
}

fn imm_word(half: u32) -> u32
    ensures value { result ≡ table.imm_word half }
    ensures range { result < 2 ^ 7 }
{
    (half >> 10 & 7) * 8 + (half >> 6 & 1) * 4 + (half >> 5 & 1) * 64
}

fn imm_load(half: u32) -> u32
    ensures value { result ≡ table.imm_load half }
    ensures range { result < 2 ^ 8 }
{
    (half >> 12 & 1) * 32 + (half >> 4 & 7) * 4 + (half >> 2 & 3) * 64
}

fn imm_store(half: u32) -> u32
    ensures value { result ≡ table.imm_store half }
    ensures range { result < 2 ^ 8 }
{
    (half >> 9 & 15) * 4 + (half >> 7 & 3) * 64
}

fn bits_small(half: u32) -> u32
    ensures value { result ≡ table.bits_small half }
    ensures range { result < 2 ^ 6 }
{
    (half >> 12 & 1) * 32 + (half >> 2 & 31)
}

fn imm_small(half: u32) -> i32
    ensures { result ≡ table.imm_small half }
{
    (bits_small(half) << 26).cast_signed() >> 26
}

fn bits_upper(half: u32) -> u32
    ensures value { result ≡ table.bits_upper half }
    ensures range { result < 2 ^ 18 }
{
    (half >> 12 & 1) * 131072 + (half >> 2 & 31) * 4096
}

fn imm_upper(half: u32) -> u32
    ensures { result ≡ table.imm_upper half }
{
    ((bits_upper(half) << 14).cast_signed() >> 14).cast_unsigned()
}

fn bits_stack(half: u32) -> u32
    ensures value { result ≡ table.bits_stack half }
    ensures range { result < 2 ^ 10 }
{
    (half >> 12 & 1) * 512
        + (half >> 6 & 1) * 16
        + (half >> 5 & 1) * 64
        + (half >> 3 & 3) * 128
        + (half >> 2 & 1) * 32
}

fn imm_stack(half: u32) -> i32
    ensures { result ≡ table.imm_stack half }
{
    (bits_stack(half) << 22).cast_signed() >> 22
}

fn bits_jump(half: u32) -> u32
    ensures value { result ≡ table.bits_jump half }
    ensures range { result < 2 ^ 12 }
{
    (half >> 12 & 1) * 2048
        + (half >> 11 & 1) * 16
        + (half >> 9 & 3) * 256
        + (half >> 8 & 1) * 1024
        + (half >> 7 & 1) * 64
        + (half >> 6 & 1) * 128
        + (half >> 3 & 7) * 2
        + (half >> 2 & 1) * 32
}

fn imm_jump(half: u32) -> i32
    ensures { result ≡ table.imm_jump half }
{
    (bits_jump(half) << 20).cast_signed() >> 20
}

fn bits_branch(half: u32) -> u32
    ensures value { result ≡ table.bits_branch half }
    ensures range { result < 2 ^ 9 }
{
    (half >> 12 & 1) * 256
        + (half >> 10 & 3) * 8
        + (half >> 5 & 3) * 64
        + (half >> 3 & 3) * 2
        + (half >> 2 & 1) * 32
}

fn imm_branch(half: u32) -> i32
    ensures { result ≡ table.imm_branch half }
{
    (bits_branch(half) << 23).cast_signed() >> 23
}

// ---- instructions

fn addi(rd: u8, rs1: u8, imm: i32) -> Instr
    ensures { result ≡ Instr.Imm ImmOp.Addi rd rs1 imm }
{
    Instr::Imm {
        op: ImmOp::Addi,
        rd,
        rs1,
        imm,
    }
}

fn load(rd: u8, rs1: u8, offset: u32) -> Instr
    requires { offset < 2 ^ 10 }
    ensures { result ≡ Instr.Load LoadOp.Lw rd rs1 (pos offset) }
{
    Instr::Load {
        op: LoadOp::Lw,
        rd,
        rs1,
        offset: offset as i32,
    }
}

fn store(rs1: u8, rs2: u8, offset: u32) -> Instr
    requires { offset < 2 ^ 10 }
    ensures { result ≡ Instr.Store StoreOp.Sw rs1 rs2 (pos offset) }
{
    Instr::Store {
        op: StoreOp::Sw,
        rs1,
        rs2,
        offset: offset as i32,
    }
}

fn add_to_stack_pointer(half: u32) -> Option<Instr>
    ensures { result ≡ table.addi4spn half }
{
    let imm = imm_wide(half);
    if imm == 0 {
        None
    } else {
        Some(addi(low_register(half), 2, imm as i32))
    }
}

fn move_stack_pointer(half: u32) -> Option<Instr>
    ensures { result ≡ table.addi16sp half }
{
    if bits_stack(half) == 0 {
        None
    } else {
        Some(addi(2, 2, imm_stack(half)))
    }
}

fn lui(half: u32) -> Option<Instr>
    ensures { result ≡ table.c_lui half }
{
    if bits_upper(half) == 0 {
        None
    } else {
        Some(Instr::Upper {
            auipc: false,
            rd: rd(half),
            imm: imm_upper(half),
        })
    }
}

fn lui_or_addi16sp(half: u32) -> Option<Instr>
    ensures { result ≡ table.lui_or_addi16sp half }
{
    if rd(half) == 2 {
        move_stack_pointer(half)
    } else {
        lui(half)
    }
}

fn shift(op: ShiftOp, half: u32) -> Option<Instr>
    ensures { result ≡ table.shift_right op half }
{
    let register = high_register(half);
    Some(Instr::Shift {
        op,
        rd: register,
        rs1: register,
        amount: rs2(half),
    })
}

fn andi(half: u32) -> Option<Instr>
    ensures { result ≡ table.c_andi half }
{
    let register = high_register(half);
    Some(Instr::Imm {
        op: ImmOp::Andi,
        rd: register,
        rs1: register,
        imm: imm_small(half),
    })
}

fn register(op: RegOp, half: u32) -> Option<Instr>
    ensures { result ≡ table.register op half }
{
    let register = high_register(half);
    Some(Instr::Reg {
        op,
        rd: register,
        rs1: register,
        rs2: low_register(half),
    })
}

#[tactic(auto, unfolding(crate::specs::Meaning::found))]
fn arithmetic(half: u32) -> Option<Instr>
    ensures { result ≡ table.expanded table.arithmetic_rows half }
{
    if half & 0xfc03 == 0x8001 {
        return shift(ShiftOp::Srli, half);
    }
    if half & 0xfc03 == 0x8401 {
        return shift(ShiftOp::Srai, half);
    }
    if half & 0xec03 == 0x8801 {
        return andi(half);
    }
    match half & 0xfc63 {
        0x8c01 => register(RegOp::Sub, half),
        0x8c21 => register(RegOp::Xor, half),
        0x8c41 => register(RegOp::Or, half),
        0x8c61 => register(RegOp::And, half),
        _ => None,
    }
}

fn jal(rd: u8, half: u32) -> Instr
    ensures { result ≡ Instr.Jal rd (table.imm_jump half) }
{
    Instr::Jal {
        rd,
        offset: imm_jump(half),
    }
}

fn branch(op: BranchOp, half: u32) -> Option<Instr>
    ensures { result ≡ table.branch op half }
{
    Some(Instr::Branch {
        op,
        rs1: high_register(half),
        rs2: 0,
        offset: imm_branch(half),
    })
}

#[tactic(auto, unfolding(crate::specs::Meaning::found))]
fn slli(half: u32) -> Option<Instr>
    ensures { result ≡ table.expanded table.shift_rows half }
{
    if half & 0xf003 == 0x0002 {
        Some(Instr::Shift {
            op: ShiftOp::Slli,
            rd: rd(half),
            rs1: rd(half),
            amount: rs2(half),
        })
    } else {
        None
    }
}

fn lwsp(half: u32) -> Option<Instr>
    ensures { result ≡ table.lwsp half }
{
    if rd(half) == 0 {
        None
    } else {
        Some(load(rd(half), 2, imm_load(half)))
    }
}

fn jalr(link: u8, half: u32) -> Instr
    ensures { result ≡ Instr.Jalr link (table.rd half) (pos 0) }
{
    Instr::Jalr {
        rd: link,
        rs1: rd(half),
        offset: 0,
    }
}

fn add(rs1: u8, half: u32) -> Instr
    ensures { result ≡ Instr.Reg RegOp.Add (table.rd half) rs1 (table.rs2 half) }
{
    Instr::Reg {
        op: RegOp::Add,
        rd: rd(half),
        rs1,
        rs2: rs2(half),
    }
}

fn jr_or_mv(half: u32) -> Option<Instr>
    ensures { result ≡ table.jr_or_mv half }
{
    if rs2(half) != 0 {
        return Some(add(0, half));
    }
    if rd(half) == 0 {
        return None;
    }
    Some(jalr(0, half))
}

fn jalr_or_add(half: u32) -> Option<Instr>
    ensures { result ≡ table.jalr_or_add half }
{
    if rs2(half) != 0 {
        return Some(add(rd(half), half));
    }
    if rd(half) == 0 {
        return Some(Instr::Ebreak);
    }
    Some(jalr(1, half))
}

#[tactic(auto, unfolding(crate::specs::Meaning::found))]
fn jump_or_move(half: u32) -> Option<Instr>
    ensures { result ≡ table.expanded table.move_rows half }
{
    match half & 0xf003 {
        0x8002 => jr_or_mv(half),
        0x9002 => jalr_or_add(half),
        _ => None,
    }
}

#[tactic(auto, using(crate::proofs::ByQuadrant::by_quadrant_rules))]
fn by_quadrant(half: u32) -> Option<Instr>
    ensures { result ≡ table.expansion half }
{
    match half & 0xe003 {
        0x0000 => add_to_stack_pointer(half),
        0x4000 => Some(load(low_register(half), high_register(half), imm_word(half))),
        0xc000 => Some(store(high_register(half), low_register(half), imm_word(half))),
        0x0001 => Some(addi(rd(half), rd(half), imm_small(half))),
        0x2001 => Some(jal(1, half)),
        0x4001 => Some(addi(rd(half), 0, imm_small(half))),
        0x6001 => lui_or_addi16sp(half),
        0x8001 => arithmetic(half),
        0xa001 => Some(jal(0, half)),
        0xc001 => branch(BranchOp::Beq, half),
        0xe001 => branch(BranchOp::Bne, half),
        0x0002 => slli(half),
        0x4002 => lwsp(half),
        0x8002 => jump_or_move(half),
        0xc002 => Some(store(2, rs2(half), imm_store(half))),
        _ => None,
    }
}

/// The same of a code, of which only the low halfword is looked at.
#[tactic(auto, using(crate::proofs::Short::expansion_rules))]
pub fn expand_code(code: u32) -> Option<Instr>
    ensures row { result ≡ table.expansion code }
    ensures valid { IfSome result IsValid }
    ensures short { IfSome result IsShort }
{
    by_quadrant(code)
}

/// The instruction of two bytes that a halfword stands for, by the extension C; None exactly where
/// the table has no row for it. At most one row fits a halfword, and what it stands for is valid.
/// A halfword whose low two bits are 11 begins a word, and has no row.
#[tactic(auto, using(crate::proofs::Short::expansion_rules))]
pub fn expand(half: u16) -> Option<Instr>
    ensures row { result ≡ table.expansion half }
    ensures single { table.IsSingle half }
    ensures valid { IfSome result IsValid }
    ensures short { IfSome result IsShort }
{
    by_quadrant(u32::from(half))
}
