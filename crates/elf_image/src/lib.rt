//! Executable files: static ELF32 files for RISC-V, as a linker makes them.
//!
//! [`read_image`] reads a file whole and answers with its [`Image`], or with the first of fourteen
//! refusals that holds of it ([`ImageError`]). The crate looks at no section, runs nothing, and
//! opens no file.
#![tactic(auto)]

mod check;
mod error;
mod field;
mod header;
mod image;
mod part;
mod read;
mod table;

pub use error::ImageError;
pub use image::Image;
pub use part::{Bytes, Part, Parts};
pub use read::read_image;
