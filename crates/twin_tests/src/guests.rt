//! Guests, by the words of their code, as they lie in memory.

use dos_io::MemoryFiles;
use rv_asm::Builder;
use std::alloc::Global;
use std::process::Abort;

/// Where the code begins.
const CODE: u32 = 0x1_0000;

/// Where a guest's text lies: in the page of its code.
const TEXT: u32 = 0x1_0100;

/// Reads at most 64 bytes at a time and writes them to output, until none come; then it ends with
/// 0.
pub const COPIES: [u32; 13] = [
    0x0070_0893,
    0x0000_0513,
    0xfc01_0593,
    0x0400_0613,
    0x0000_0073,
    0x0005_0c63,
    0x0005_0613,
    0x0080_0893,
    0x0010_0513,
    0x0000_0073,
    0xfd9f_f06f,
    0x0020_0893,
    0x0000_0073,
];

/// The same, and writes each piece to error too.
pub const COPIES_TO_BOTH: [u32; 15] = [
    0x0070_0893,
    0x0000_0513,
    0xfc01_0593,
    0x0400_0613,
    0x0000_0073,
    0x0205_0063,
    0x0005_0613,
    0x0080_0893,
    0x0010_0513,
    0x0000_0073,
    0x0020_0513,
    0x0000_0073,
    0xfd1f_f06f,
    0x0020_0893,
    0x0000_0073,
];

/// Prompts by its text, reads 8 bytes, and writes what came to error; looks at the clock, and ends
/// with 0.
pub const PROMPTS: [u32; 20] = [
    0x0080_0893,
    0x0010_0513,
    0x0001_05b7,
    0x1005_8593,
    0x0020_0613,
    0x0000_0073,
    0x0070_0893,
    0x0000_0513,
    0xfc01_0593,
    0x0080_0613,
    0x0000_0073,
    0x0005_0613,
    0x0080_0893,
    0x0020_0513,
    0x0000_0073,
    0x0160_0893,
    0x0000_0073,
    0x0020_0893,
    0x0000_0513,
    0x0000_0073,
];

/// Writes two bytes of its text to output, two to error, two to output and two to error, and ends
/// with 0.
pub const WRITES_TO_BOTH: [u32; 22] = [
    0x0080_0893,
    0x0001_0437,
    0x1004_0413,
    0x0010_0513,
    0x0004_0593,
    0x0020_0613,
    0x0000_0073,
    0x0020_0513,
    0x0024_0593,
    0x0020_0613,
    0x0000_0073,
    0x0010_0513,
    0x0044_0593,
    0x0020_0613,
    0x0000_0073,
    0x0020_0513,
    0x0064_0593,
    0x0020_0613,
    0x0000_0073,
    0x0020_0893,
    0x0000_0513,
    0x0000_0073,
];

/// Yields again and again, which is a round each time.
pub const YIELDS: [u32; 3] = [0x0170_0893, 0x0000_0073, 0xffdf_f06f];

/// Stores at address 0, which ends it by a fault.
pub const STORES_AT_ZERO: [u32; 1] = [0x0000_2023];

/// The file of an image with these words, and behind them this text, named `a`.
pub fn files_with(
    rt: &impl Abort,
    alloc: Global,
    words: &[u32],
    text: &[u8],
    failing: &[u32],
) -> MemoryFiles {
    let mut builder = Builder::new(alloc, CODE, true).expect(rt, "memory");
    for word in words {
        builder.word(*word).expect(rt, "memory");
    }
    builder.data(TEXT, text, 0).expect(rt, "memory");
    let image = builder.finish().expect(rt, "an image");
    let mut files = MemoryFiles::new(alloc, failing).expect(rt, "memory");
    files.add("a", &image).expect(rt, "memory");
    drop(image);
    files
}

/// These words, as a call has them.
pub fn words_of(rt: &impl Abort, alloc: Global, texts: &[&str]) -> Vec<String> {
    let mut words = Vec::new(alloc);
    for text in texts {
        let word = String::from_str(alloc, text).expect(rt, "memory");
        words.push(word).expect(rt, "memory");
    }
    words
}
