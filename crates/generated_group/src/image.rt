//! The image of a number.

ghost use Rattle.std.specs.Prelude.{◌≡◌, ◌≤◌, IfOk, Ok};
ghost use Rattle.elf_image.specs.Image.{image};
ghost use Rattle.generated_group.specs.Generated.{generated};

use crate::program::program;
use elf_image::{Image, ImageError, read_image};
use rv_asm::AsmError;
use std::alloc::{AllocError, Global};

// The file of the program and its pages.
fn program_file(alloc: Global, number: u32, threads: u32) -> Result<Vec<u8>, AllocError>
    requires { threads ≤ 32 }
    ensures { IfOk result (λ file. image file.items ≡ Ok (generated number threads)) }
{
    match program(alloc, number, threads)?.finish() {
        Ok(file) => Ok(file),
        Err(error) => match error {
            AsmError::Memory => Err(AllocError),
            _ => unreachable!(),
        },
    }
}

/// The image that is made from a number, for 1 to 32 threads. It fails only for want of memory.
pub fn generated_image(alloc: Global, number: u32, threads: u32) -> Result<Image, AllocError>
    requires some { 1 ≤ threads }
    requires few { threads ≤ 32 }
    ensures { IfOk result (λ image. image ≡ generated number threads) }
{
    let file = program_file(alloc, number, threads)?;
    match read_image(alloc, &file) {
        Ok(image) => Ok(image),
        Err(error) => match error {
            ImageError::Memory => Err(AllocError),
            _ => unreachable!(),
        },
    }
}
