//! An image, and how it is read.

ghost use Rattle.std.specs.Prelude.{◌≡◌};

use crate::part::{Part, Parts};
use std::marker::Model;

/// An executable: where it begins, and what it has in memory.
///
/// Each image has 1 to 64 parts. Each of them takes memory between 0x00001000 and 0xEFFF0000, no
/// two share an address, and the entry is a multiple of 2 in a part that may be executed.
#[derive(Drop)]
pub struct Image {
    /// The address of the first instruction.
    pub entry: u32,
    /// What memory begins with, in the order of the file's table.
    pub parts: Parts,
}

impl Model for Image {
    ghost use Rattle.elf_image.specs.Image.{Image, IsSoundImage};

    ghost Value = { Image };

    ghost view = { λ i. record { entry = i.entry; parts = i.parts } };

    ghost invariant = { λ i. IsSoundImage (record { entry = i.entry; parts = i.parts }) };
}

impl Image {
    ghost use Rattle.elf_image.specs.Image.{IsSoundImage};

    /// The address of the first instruction.
    pub fn entry(&self) -> u32
        ensures entry { result ≡ self.now.entry }
        ensures sound { IsSoundImage self.now }
    {
        self.entry
    }

    /// Its parts, in the order of the file's table.
    pub fn parts(&self) -> &[Part]
        ensures parts { result.now ≡ self.now.parts }
        ensures sound { IsSoundImage self.now }
    {
        self.parts.as_slice()
    }
}
