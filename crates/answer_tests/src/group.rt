//! A group of one process that ends with 7, as it is opened.
ghost use Rattle.kernel_calls.specs.StateWorld.{IsSound};

use dos_world::{Config, Scheme};
use elf_image::{Image, read_image};
use group_open::open_state;
use kernel_calls::State;
use std::alloc::Global;
use std::process::Abort;

/// Twelve bytes of code at 0x10000, in a page that may be written and executed.
const FILE: [u8; 96] = [
    0x7F, 0x45, 0x4C, 0x46, 1, 1, 1, 0, 0, 0, 0, 0, 0, 0, 0, 0, // e_ident
    2, 0, 243, 0, 1, 0, 0, 0, 0, 0, 1, 0, 52, 0, 0, 0, // e_type to e_phoff, entered at 0x10000
    0, 0, 0, 0, 0, 0, 0, 0, 52, 0, 32, 0, 1, 0, 0, 0, 0, 0, 0, 0, // e_shoff to e_shstrndx
    1, 0, 0, 0, 84, 0, 0, 0, 0, 0, 1, 0, 0, 0, 1, 0, // 12 bytes at 0x10000
    12, 0, 0, 0, 12, 0, 0, 0, 7, 0, 0, 0, 0, 0x10, 0, 0, //
    0x93, 0x08, 0x20, 0x00, 0x13, 0x05, 0x70, 0x00, // li a7, 2; li a0, 7
    0x73, 0, 0, 0, // ecall
];

const CONFIG: Config = Config {
    quantum: 1000,
    rounds: 100_000,
    frames: 17,
    scheme: Scheme::Ownership,
};

fn image(rt: &impl Abort, alloc: Global) -> Image {
    read_image(alloc, &FILE).expect(rt, "an image")
}

/// The state in which it is opened.
pub fn opened(rt: &impl Abort, alloc: Global) -> State
    ensures { IsSound result }
{
    let images = [image(rt, alloc)];
    let state = open_state(alloc, &images, &CONFIG);
    drop(images);
    state.expect(rt, "a group")
}
