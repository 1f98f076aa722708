// The fields and the immediates of a word.
ghost use Rattle.std.specs.Prelude.{◌≡◌, ◌<◌, ◌^◌, bit_and};
ghost use Rattle.rv_isa.specs.Fields as parts;

/// Bits 6:0.
#[inline]
pub fn opcode(word: u32) -> u32
    ensures value { result ≡ bit_and word 0x7F }
    ensures range { result < 128 }
{
    word & 0x7f
}

/// The register that is written, bits 11:7.
#[inline]
pub fn rd(word: u32) -> u8
    ensures value { result ≡ parts.rd word }
    ensures range { result < 32 }
{
    (word >> 7 & 31) as u8
}

/// The first register that is read, bits 19:15.
#[inline]
pub fn rs1(word: u32) -> u8
    ensures value { result ≡ parts.rs1 word }
    ensures range { result < 32 }
{
    (word >> 15 & 31) as u8
}

/// The second register that is read, bits 24:20; in the shifts by a constant, the amount.
#[inline]
pub fn rs2(word: u32) -> u8
    ensures value { result ≡ parts.rs2 word }
    ensures range { result < 32 }
{
    (word >> 20 & 31) as u8
}

/// Bits 14:12.
#[inline]
pub fn funct3(word: u32) -> u32
    ensures value { result ≡ parts.field 14 12 word }
    ensures range { result < 8 }
{
    word >> 12 & 7
}

/// Bits 31:25.
#[inline]
pub fn funct7(word: u32) -> u32
    ensures value { result ≡ parts.field 31 25 word }
    ensures range { result < 128 }
{
    word >> 25
}

/// The bit aq of an atomic instruction, 26.
#[inline]
pub fn acquires(word: u32) -> bool
    ensures { result ≡ parts.flag 26 word }
{
    word >> 26 & 1 == 1
}

/// The bit rl of an atomic instruction, 25.
#[inline]
pub fn releases(word: u32) -> bool
    ensures { result ≡ parts.flag 25 word }
{
    word >> 25 & 1 == 1
}

/// What stands in a fence beside its registers, bits 31:20, not signed.
#[inline]
pub fn fence_bits(word: u32) -> u16
    ensures value { result ≡ parts.field 31 20 word }
    ensures range { result < 4096 }
{
    (word >> 20) as u16
}

/// The immediate of the format I, from -2048 to 2047.
#[inline]
pub fn imm_i(word: u32) -> i32
    ensures { result ≡ parts.imm_i word }
{
    word.cast_signed() >> 20
}

#[inline]
fn bits_s(word: u32) -> u32
    ensures value { result ≡ parts.bits_s word }
    ensures range { result < 2 ^ 12 }
{
    (word >> 25) * 32 + (word >> 7 & 31)
}

/// The immediate of the format S, from -2048 to 2047.
#[inline]
pub fn imm_s(word: u32) -> i32
    ensures { result ≡ parts.imm_s word }
{
    (bits_s(word) << 20).cast_signed() >> 20
}

#[inline]
fn bits_b(word: u32) -> u32
    ensures value { result ≡ parts.bits_b word }
    ensures range { result < 2 ^ 13 }
{
    (word >> 31) * 4096 + (word >> 7 & 1) * 2048 + (word >> 25 & 63) * 32 + (word >> 8 & 15) * 2
}

/// The immediate of the format B, even, from -4096 to 4094.
#[inline]
pub fn imm_b(word: u32) -> i32
    ensures { result ≡ parts.imm_b word }
{
    (bits_b(word) << 19).cast_signed() >> 19
}

/// The immediate of the format U: the word with its low 12 bits 0.
#[inline]
pub fn imm_u(word: u32) -> u32
    ensures { result ≡ parts.imm_u word }
{
    word >> 12 << 12
}

#[inline]
fn bits_j(word: u32) -> u32
    ensures value { result ≡ parts.bits_j word }
    ensures range { result < 2 ^ 21 }
{
    (word >> 31) * 1048576
        + (word >> 12 & 255) * 4096
        + (word >> 20 & 1) * 2048
        + (word >> 21 & 1023) * 2
}

/// The immediate of the format J, even, from -1048576 to 1048574.
#[inline]
pub fn imm_j(word: u32) -> i32
    ensures { result ≡ parts.imm_j word }
{
    (bits_j(word) << 11).cast_signed() >> 11
}
