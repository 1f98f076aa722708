//! The lines of reports, of `inspect`, of `gen` and of `save`.
use dos_io::{MemorySink, Sink, SinkFault};
use dos_texts::{process_line, put_inspect, put_output, put_saved, rounds_line};
use dos_world::Ending;
use elf_image::{Image, read_image};
use rv_asm::Builder;
use std::alloc::Global;
use std::process::Abort;

// The line of a process says this.
fn process_says(rt: &impl Abort, number: u32, status: Option<u8>, text: &str) {
    assert_eq!(rt; process_line(number, status).as_str(), text);
}

// The line of the rounds says this.
fn rounds_say(rt: &impl Abort, rounds: u32, ending: Ending, text: &str) {
    assert_eq!(rt; rounds_line(rounds, ending).as_str(), text);
}

#[test]
fn reports(rt: HostRuntime) {
    process_says(&rt, 1, Some(7), "process 1 status 7\n");
    process_says(
        &rt,
        4294967295,
        Some(255),
        "process 4294967295 status 255\n",
    );
    process_says(&rt, 2, None, "process 2 live\n");
    rounds_say(&rt, 1, Ending::Done, "rounds 1 done\n");
    rounds_say(&rt, 100000, Ending::Limit, "rounds 100000 limit\n");
    rounds_say(&rt, 0, Ending::Stalled, "rounds 0 stalled\n");
}

/// An image of three words of code, and of two bytes of data with six zeros behind them.
fn image(rt: &impl Abort, alloc: Global, write: bool) -> Image {
    let mut builder = Builder::new(alloc, 0x10000, write).expect(rt, "memory");
    for word in [0x00700513, 0x05d00893, 0x00000073] {
        builder.word(word).expect(rt, "memory");
    }
    builder.data(0xab000, b"Hi", 6).expect(rt, "memory");
    let file = builder.finish().expect(rt, "a file");
    read_image(alloc, &file).expect(rt, "an image")
}

// The answer where the lines of an image are put.
fn inspects(rt: &impl Abort, image: &Image, out: &mut impl Sink, answer: Result<(), SinkFault>) {
    assert_eq!(rt; put_inspect(image, out), answer);
}

/// The sink has these lines.
pub fn has(rt: &impl Abort, out: &MemorySink, lines: &str) {
    assert_eq!(rt; out.bytes(), lines.as_bytes());
}

#[test]
fn parts_of_images(rt: HostRuntime) {
    let alloc = rt.alloc();
    let cases: [(bool, &str); 2] = [
        (
            false,
            "\
                entry 00010000\n\
                load 00010000 file 12 memory 12 rights r-x\n\
                load 000ab000 file 2 memory 8 rights rw-\n",
        ),
        (
            true,
            "\
                entry 00010000\n\
                load 00010000 file 12 memory 12 rights rwx\n\
                load 000ab000 file 2 memory 8 rights rw-\n",
        ),
    ];
    for (write, lines) in cases {
        let image = image(&rt, alloc, write);
        let mut out = MemorySink::new(alloc, 4096, &[]).expect(&rt, "memory");
        inspects(&rt, &image, &mut out, Ok(()));
        has(&rt, &out, lines);
        drop(out);
        drop(image);
    }
    let image = image(&rt, alloc, true);
    let mut out = MemorySink::new(alloc, 4096, &[2]).expect(&rt, "memory");
    inspects(&rt, &image, &mut out, Err(SinkFault));
    has(&rt, &out, "entry 00010000\n");
    drop(out);
    drop(image);
}

// The answer where the lines of an output are put.
fn outputs_put(
    rt: &impl Abort,
    count: u64,
    digest: &[u8; 32],
    out: &mut impl Sink,
    answer: Result<(), SinkFault>,
) {
    assert_eq!(rt; put_output(count, digest, out), answer);
}

#[test]
fn outputs(rt: HostRuntime) {
    let alloc = rt.alloc();
    let mut digest = [0xff; 32];
    digest[0] = 0x0a;
    let mut out = MemorySink::new(alloc, 4096, &[]).expect(&rt, "memory");
    outputs_put(&rt, 18446744073709551615, &digest, &mut out, Ok(()));
    let lines = "\
        output 18446744073709551615 bytes\n\
        sha256 0affffffffffffffffffffffffffffffffffffffffffffffffffffffffffffff\n";
    has(&rt, &out, lines);
    drop(out);
    let mut out = MemorySink::new(alloc, 4096, &[2]).expect(&rt, "memory");
    outputs_put(&rt, 0, &digest, &mut out, Err(SinkFault));
    has(&rt, &out, "output 0 bytes\n");
    drop(out);
}

// The answer where the line of a saved group is put.
fn saved_is_put(rt: &impl Abort, round: u32, err: &mut impl Sink, answer: Result<(), SinkFault>) {
    assert_eq!(rt; put_saved(round, err), answer);
}

// The line is one put.
#[test]
fn saved_groups(rt: HostRuntime) {
    let alloc = rt.alloc();
    for (round, line) in [
        (1, "saved round 1\n"),
        (1000000, "saved round 1000000\n"),
        (4294967295, "saved round 4294967295\n"),
    ] {
        let mut err = MemorySink::new(alloc, 4096, &[2]).expect(&rt, "memory");
        saved_is_put(&rt, round, &mut err, Ok(()));
        has(&rt, &err, line);
        saved_is_put(&rt, round, &mut err, Err(SinkFault));
        has(&rt, &err, line);
        drop(err);
    }
}
