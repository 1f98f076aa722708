//! The file of a builder.

ghost use Rattle.std.specs.Prelude.{◌≡◌, ◌≢◌, ◌++◌, ◌≤◌, ◌<◌, ◌+◌, ◌^◌, length, OnOk, IfOk, IfErr};
ghost use Rattle.std.specs.Prelude.{IsTrue, Ok, Err, IsOkAnd, true, false};
ghost use Rattle.elf_image.specs.Image.{image};
ghost use Rattle.rv_asm.specs.Source.{halfwords_of, data_size, has_data};
ghost use Rattle.rv_asm.specs.Words.{assembled};
ghost use Rattle.rv_asm.specs.File.{code_header, data_header, do_overlap, file_of, finished};
ghost use Rattle.rv_asm.specs.File.{flags_by, headers_by, image_of_source, is_code_placed};
ghost use Rattle.rv_asm.specs.File.{is_data_placed};
ghost use Rattle.rv_asm.specs.File.{is_in_range, is_within_parts, is_short};

use super::Builder;
use crate::error::AsmError;
use crate::file::{FILE_HEADER, PROGRAM_HEADER, Segment, put_file_header, put_program_header};
use crate::words::{code_of, is_half};
use std::alloc::AllocError;

/// The lowest address of a part.
const LOWEST: u32 = 0x1000;

/// Where the stack begins, above all parts.
const STACK: u64 = 0xEFFF_0000;

/// How many halfwords there are below the stack.
const MOST_HALVES: usize = 0x77FF_8000;

/// `p_flags` of a part: read, write and execute.
const READ_EXECUTE: u32 = 5;

const READ_WRITE_EXECUTE: u32 = 7;

const READ_WRITE: u32 = 6;

/// The bit of `e_flags` for compressed instructions.
const EF_RISCV_RVC: u32 = 1;

// The addresses are from the lowest on and below the stack.
fn is_placed(address: u32, size: u64) -> bool
    requires { size < 2 ^ 63 + 2 ^ 32 }
    ensures { result ≡ is_within_parts address size }
{
    LOWEST <= address && u64::from(address) + size <= STACK
}

// Two parts take a common address.
fn do_meet(address: u32, size: u64, other: u32, other_size: u64) -> bool
    requires size { size < 2 ^ 63 + 2 ^ 32 }
    requires other_size { other_size < 2 ^ 63 + 2 ^ 32 }
    ensures { result ≡ do_overlap address size other other_size }
{
    u64::from(address) < u64::from(other) + other_size
        && u64::from(other) < u64::from(address) + size
}

impl Builder {
    fn data_size(&self) -> u64
        ensures value { result ≡ data_size self.now.data_part }
        ensures range { result < 2 ^ 63 + 2 ^ 32 }
    {
        self.bytes.len() as u64 + u64::from(self.zeros)
    }

    fn has_data(&self) -> bool
        ensures { result ≡ has_data self.now }
    {
        self.data_size() > 0
    }

    fn is_code_placed(&self) -> bool
        ensures { result ≡ is_code_placed self.now }
    {
        let count = self.count;
        if count == 0 {
            return false;
        }
        if count > MOST_HALVES {
            return false;
        }
        is_placed(self.base, 2 * count as u64)
    }

    fn is_data_placed(&self) -> bool
        requires { halfwords_of self.now.items < 2 ^ 32 }
        ensures { result ≡ is_data_placed self.now }
    {
        let code = 2 * self.count as u64;
        let size = self.data_size();
        is_placed(self.address, size) && !do_meet(self.base, code, self.address, size)
    }

    // There is code, the parts are where parts may be, and they don't meet.
    fn is_in_range(&self) -> bool
        ensures { result ≡ is_in_range self.now }
    {
        self.is_code_placed() && (!self.has_data() || self.is_data_placed())
    }

    // `e_flags`: whether there are compressed instructions.
    fn flags(&self) -> u32
        ensures { result ≡ flags_by (is_short self.now) }
    {
        if self.is_short() { EF_RISCV_RVC } else { 0 }
    }

    // Whether a halfword was given by itself.
    fn is_short(&self) -> bool
        ensures { result ≡ is_short self.now }
    {
        self.items.iter().any(|item| is_half(item))
    }

    // The header of the code, which begins at this place in the file.
    fn put_code_header(&self, file: &mut Vec<u8>, offset: u32) -> Result<(), AllocError>
        requires { halfwords_of self.now.items ≤ 0x77FF_8000 }
        ensures { OnOk result
            (file.new.items ≡ file.old.items
            ++ code_header self.now offset (halfwords_of self.now.items)) }
    {
        let size = 2 * self.count as u32;
        put_program_header(
            file,
            &Segment {
                offset,
                address: self.base,
                file_size: size,
                memory_size: size,
                flags: if self.write {
                    READ_WRITE_EXECUTE
                } else {
                    READ_EXECUTE
                },
            },
        )
    }

    // The header of the data, whose bytes begin at this place in the file.
    fn put_data_header(&self, file: &mut Vec<u8>, offset: u32) -> Result<(), AllocError>
        requires { data_size self.now.data_part < 2 ^ 32 }
        ensures { OnOk result
            (file.new.items ≡ file.old.items ++ data_header self.now.data_part offset) }
    {
        let memory_size = self.data_size() as u32;
        put_program_header(
            file,
            &Segment {
                offset,
                address: self.address,
                file_size: self.bytes.len() as u32,
                memory_size,
                flags: READ_WRITE,
            },
        )
    }

    // The headers where there is no data part.
    fn put_one(&self, file: &mut Vec<u8>) -> Result<(), AllocError>
        requires { halfwords_of self.now.items ≤ 0x77FF_8000 }
        ensures { OnOk result
            (file.new.items ≡ file.old.items
            ++ headers_by false self.now (halfwords_of self.now.items)) }
    {
        put_file_header(file, self.flags(), self.base, 1)?;
        self.put_code_header(file, FILE_HEADER + PROGRAM_HEADER)?;
        Ok(())
    }

    // The headers where there is one.
    fn put_two(&self, file: &mut Vec<u8>) -> Result<(), AllocError>
        requires few { halfwords_of self.now.items ≤ 0x77FF_8000 }
        requires small { data_size self.now.data_part < 2 ^ 32 }
        ensures { OnOk result
            (file.new.items ≡ file.old.items
            ++ headers_by true self.now (halfwords_of self.now.items)) }
    {
        let code = FILE_HEADER + 2 * PROGRAM_HEADER;
        put_file_header(file, self.flags(), self.base, 2)?;
        self.put_code_header(file, code)?;
        self.put_data_header(file, code + 2 * self.count as u32)?;
        Ok(())
    }

    // All headers.
    fn put_headers(&self, file: &mut Vec<u8>) -> Result<(), AllocError>
        requires few { halfwords_of self.now.items ≤ 0x77FF_8000 }
        requires small { data_size self.now.data_part < 2 ^ 32 }
        ensures { OnOk result
            (file.new.items ≡ file.old.items
            ++ headers_by (has_data self.now) self.now (halfwords_of self.now.items)) }
    {
        if self.has_data() {
            self.put_two(file)
        } else {
            self.put_one(file)
        }
    }

    // The whole file, of the code that the items make.
    #[tactic(auto, unfolding(crate::specs::File::file_of))]
    fn file(&self, code: &[u8]) -> Result<Vec<u8>, AllocError>
        requires few { halfwords_of self.now.items ≤ 0x77FF_8000 }
        requires small { data_size self.now.data_part < 2 ^ 32 }
        ensures { IfOk result (λ file. file.items ≡ file_of self.now code.now) }
    {
        let mut file = Vec::new(self.alloc);
        self.put_headers(&mut file)?;
        file.extend_from_slice(code)?;
        file.extend_from_slice(&self.bytes)?;
        Ok(file)
    }

    /// The file. An `Err` other than `Memory` is the first of these that holds: `Range` where there
    /// is no code, a part is not within 0x1000 to 0xEFFEFFFF, or the parts meet; then item by
    /// item `Unset` with the number of the label that it names, where that is not set, and `Reach`
    /// with its place, where its distance does not fit its format. Read as an image, the file is
    /// entered at the base and has the code, and the data where there is some.
    pub fn finish(self) -> Result<Vec<u8>, AsmError>
        ensures file { IfOk result (λ file. finished self ≡ Ok file.items) }
        ensures refused { IfErr result (λ error. error ≢ AsmError.Memory
            → finished self ≡ Err error) }
        ensures read { IfOk result
            (λ file.
            IsOkAnd (assembled self)
            (λ code. image file.items ≡ Ok (image_of_source self code))) }
    {
        if !self.is_in_range() {
            return Err(AsmError::Range);
        }
        let code = code_of(self.alloc, &self.labels, &self.items)?;
        Ok(self.file(&code)?)
    }
}
