// One word for each row of the table, and the edges of each immediate. GNU as and objdump agree on
// each.
use crate::checks::same_at;
use rv_isa::{AmoOp, BranchOp, ImmOp, Instr, LoadOp, RegOp, ShiftOp, StoreOp, decode, encode};
use std::process::Abort;

// What a word is decoded to is seen by its word: no two valid instructions have the same one.
fn both_ways(rt: &impl Abort, word: u32, instr: Instr) {
    assert!(rt; instr.is_valid());
    same_at(rt, encode(&instr), word, "encoding");
    let decoded = decode(word).expect(rt, "a word of the table");
    same_at(rt, encode(&decoded), word, "decoding");
}

#[test]
fn jumps_and_upper_immediates(rt: HostRuntime) {
    for (word, auipc, rd, imm) in [
        (0xabcd_e3b7, false, 7, 0xabcd_e000),
        (0x0000_1f97, true, 31, 0x1000),
        (0xffff_ffb7, false, 31, 0xffff_f000),
        (0x0000_0037, false, 0, 0),
    ] {
        both_ways(&rt, word, Instr::Upper { auipc, rd, imm });
    }
    for (word, rd, offset) in [
        (0xa5da_50ef, 1, -370084),
        (0x2aba_a06f, 0, 699050),
        (0x8000_00ef, 1, -1048576),
        (0x7fff_f0ef, 1, 1048574),
        (0x0010_00ef, 1, 2048),
        (0xffff_f0ef, 1, -2),
    ] {
        both_ways(&rt, word, Instr::Jal { rd, offset });
    }
    for (word, rd, rs1, offset) in [
        (0xffc2_80e7, 1, 5, -4),
        (0x800f_8067, 0, 31, -2048),
        (0x7ff0_0fe7, 31, 0, 2047),
    ] {
        both_ways(&rt, word, Instr::Jalr { rd, rs1, offset });
    }
}

#[test]
fn branches(rt: HostRuntime) {
    for (word, op, offset) in [
        (0x2a62_85e3, BranchOp::Beq, 2730),
        (0xd462_9b63, BranchOp::Bne, -2730),
        (0x2a62_c5e3, BranchOp::Blt, 2730),
        (0xd462_db63, BranchOp::Bge, -2730),
        (0x2a62_e5e3, BranchOp::Bltu, 2730),
        (0xd462_fb63, BranchOp::Bgeu, -2730),
    ] {
        both_ways(
            &rt,
            word,
            Instr::Branch {
                op,
                rs1: 5,
                rs2: 6,
                offset,
            },
        );
    }
    for (word, offset) in [
        (0x8020_8063, -4096),
        (0x7e20_8fe3, 4094),
        (0x0020_80e3, 2048),
        (0xfe20_8fe3, -2),
    ] {
        both_ways(
            &rt,
            word,
            Instr::Branch {
                op: BranchOp::Beq,
                rs1: 1,
                rs2: 2,
                offset,
            },
        );
    }
}

#[test]
fn loads_and_stores(rt: HostRuntime) {
    for (word, op, offset) in [
        (0xfec2_8383, LoadOp::Lb, -20),
        (0xff42_9383, LoadOp::Lh, -12),
        (0xffc2_a383, LoadOp::Lw, -4),
        (0x00c2_c383, LoadOp::Lbu, 12),
        (0x0142_d383, LoadOp::Lhu, 20),
    ] {
        both_ways(
            &rt,
            word,
            Instr::Load {
                op,
                rd: 7,
                rs1: 5,
                offset,
            },
        );
    }
    for (word, op, rs1, rs2, offset) in [
        (0xc062_8c23, StoreOp::Sb, 5, 6, -1000),
        (0xf862_9e23, StoreOp::Sh, 5, 6, -100),
        (0x3262_a023, StoreOp::Sw, 5, 6, 800),
        (0x8032_2023, StoreOp::Sw, 4, 3, -2048),
        (0x7e32_2fa3, StoreOp::Sw, 4, 3, 2047),
        (0x0032_2fa3, StoreOp::Sw, 4, 3, 31),
        (0x0232_2023, StoreOp::Sw, 4, 3, 32),
    ] {
        both_ways(
            &rt,
            word,
            Instr::Store {
                op,
                rs1,
                rs2,
                offset,
            },
        );
    }
}

#[test]
fn immediates_and_shifts(rt: HostRuntime) {
    for (word, op, imm) in [
        (0x8002_8393, ImmOp::Addi, -2048),
        (0x8002_a393, ImmOp::Slti, -2048),
        (0x7ff2_b393, ImmOp::Sltiu, 2047),
        (0x7ff2_c393, ImmOp::Xori, 2047),
        (0x7ff2_e393, ImmOp::Ori, 2047),
        (0x7ff2_f393, ImmOp::Andi, 2047),
    ] {
        both_ways(
            &rt,
            word,
            Instr::Imm {
                op,
                rd: 7,
                rs1: 5,
                imm,
            },
        );
    }
    for (word, op) in [
        (0x01f2_9393, ShiftOp::Slli),
        (0x01f2_d393, ShiftOp::Srli),
        (0x41f2_d393, ShiftOp::Srai),
    ] {
        both_ways(
            &rt,
            word,
            Instr::Shift {
                op,
                rd: 7,
                rs1: 5,
                amount: 31,
            },
        );
    }
}

#[test]
fn operations_on_registers(rt: HostRuntime) {
    for (word, op) in [
        (0x0062_83b3, RegOp::Add),
        (0x4062_83b3, RegOp::Sub),
        (0x0062_93b3, RegOp::Sll),
        (0x0062_a3b3, RegOp::Slt),
        (0x0062_b3b3, RegOp::Sltu),
        (0x0062_c3b3, RegOp::Xor),
        (0x0062_d3b3, RegOp::Srl),
        (0x4062_d3b3, RegOp::Sra),
        (0x0062_e3b3, RegOp::Or),
        (0x0062_f3b3, RegOp::And),
        (0x0262_83b3, RegOp::Mul),
        (0x0262_93b3, RegOp::Mulh),
        (0x0262_a3b3, RegOp::Mulhsu),
        (0x0262_b3b3, RegOp::Mulhu),
        (0x0262_c3b3, RegOp::Div),
        (0x0262_d3b3, RegOp::Divu),
        (0x0262_e3b3, RegOp::Rem),
        (0x0262_f3b3, RegOp::Remu),
    ] {
        both_ways(
            &rt,
            word,
            Instr::Reg {
                op,
                rd: 7,
                rs1: 5,
                rs2: 6,
            },
        );
    }
}

#[test]
fn atomic_operations(rt: HostRuntime) {
    for (word, op, rs2, aq, rl) in [
        (0x1202_a3af, AmoOp::LrW, 0, false, true),
        (0x1c62_a3af, AmoOp::ScW, 6, true, false),
        (0x0c62_a3af, AmoOp::AmoswapW, 6, true, false),
        (0x0262_a3af, AmoOp::AmoaddW, 6, false, true),
        (0x2262_a3af, AmoOp::AmoxorW, 6, false, true),
        (0x6262_a3af, AmoOp::AmoandW, 6, false, true),
        (0x4262_a3af, AmoOp::AmoorW, 6, false, true),
        (0x8262_a3af, AmoOp::AmominW, 6, false, true),
        (0xa262_a3af, AmoOp::AmomaxW, 6, false, true),
        (0xc262_a3af, AmoOp::AmominuW, 6, false, true),
        (0xe262_a3af, AmoOp::AmomaxuW, 6, false, true),
    ] {
        both_ways(
            &rt,
            word,
            Instr::Amo {
                op,
                rd: 7,
                rs1: 5,
                rs2,
                aq,
                rl,
            },
        );
    }
}

#[test]
fn fences_and_calls(rt: HostRuntime) {
    for (word, fetch, rd, rs1, imm) in [
        (0x0ff0_000f, false, 0, 0, 0xff),
        (0x0000_100f, true, 0, 0, 0),
        (0xfff1_008f, false, 1, 2, 0xfff),
        (0x800f_9f8f, true, 31, 31, 0x800),
    ] {
        both_ways(
            &rt,
            word,
            Instr::Fence {
                fetch,
                rd,
                rs1,
                imm,
            },
        );
    }
    both_ways(&rt, 0x0000_0073, Instr::Ecall);
    both_ways(&rt, 0x0010_0073, Instr::Ebreak);
}

#[test]
fn words_without_a_meaning(rt: HostRuntime) {
    // lr.w with a second register; jalr with funct3 1; ecall with rd 1; slli with funct7 0x20; a
    // branch with funct3 2
    for word in [
        0xffff_ffff,
        0x0000_0000,
        0x1012_a32f,
        0xffc2_90e7,
        0x0000_00f3,
        0x41f2_9393,
        0x0062_a063,
    ] {
        same_at(&rt, decode(word).is_none(), true, word);
    }
}
