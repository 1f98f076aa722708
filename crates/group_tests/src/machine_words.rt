//! Guests by the words of their code, as they lie in memory.
use dos_io::MemoryFiles;
use rv_asm::Builder;
use std::alloc::Global;
use std::process::Abort;

/// Where the code begins.
const CODE: u32 = 0x1_0000;

/// Where a guest's text lies: in the page of its code.
const TEXT: u32 = 0x1_0100;

fn put_words(rt: &impl Abort, builder: &mut Builder, words: &[u32]) {
    for word in words {
        builder.word(*word).expect(rt, "memory");
    }
}

// The file of an image of these words, and behind them this text.
fn image(rt: &impl Abort, alloc: Global, words: &[u32], text: &[u8]) -> Vec<u8> {
    let mut builder = Builder::new(alloc, CODE, true).expect(rt, "memory");
    put_words(rt, &mut builder, words);
    builder.data(TEXT, text, 0).expect(rt, "memory");
    builder.finish().expect(rt, "an image")
}

/// Adds a guest named `a`, of these words, and behind them this text.
pub fn add_words(
    rt: &impl Abort,
    alloc: Global,
    files: &mut MemoryFiles,
    words: &[u32],
    text: &[u8],
) {
    let file = image(rt, alloc, words, text);
    files.add("a", &file).expect(rt, "memory");
    drop(file);
}
