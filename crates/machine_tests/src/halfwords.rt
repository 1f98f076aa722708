//! Every halfword, by the word of the instruction that it stands for.
use crate::checks::same;
use rv_isa::{encode, expand};
use sha2::{Digest, Sha256};

/// The digest of the words, their low byte first, of all halfwords in rising order whose low two
/// bits aren't 11; 0 where one stands for nothing. LLVM's disassembler has read the halfwords and
/// its assembler has made the words: `checks/halfwords` does that.
const DIGEST: [u8; 32] = [
    0x1f, 0x47, 0x4e, 0x9b, 0x2a, 0xf2, 0x71, 0x83, 0x74, 0xe9, 0xb6, 0xe2, 0x24, 0xe2, 0x2b, 0x5c,
    0x40, 0x0f, 0x89, 0x3a, 0x46, 0xbe, 0x9d, 0xd1, 0x19, 0x19, 0xaa, 0x6c, 0x4b, 0xd1, 0x88, 0x34,
];

/// How many of them stand for an instruction.
const COUNT: u32 = 28823;

fn word_of(half: u16) -> u32 {
    match expand(half) {
        Some(instr) => encode(&instr),
        None => 0,
    }
}

#[test]
fn every_halfword_stands_for_what_others_read(rt: HostRuntime) {
    let mut hasher = Sha256::new();
    let mut count = 0u32;
    for half in 0..=u16::MAX {
        if half % 4 != 3 {
            let word = word_of(half);
            hasher.update(&word.to_le_bytes());
            count = count.saturating_add(u32::from(word != 0));
        }
    }
    same(&rt, count, COUNT);
    let digest = hasher.finalize();
    same(&rt, digest, DIGEST);
}
