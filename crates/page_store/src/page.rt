// A page of 4096 bytes.
ghost use Rattle.std.specs.Prelude.{◌≡◌, ◌+◌, ◌^◌, ◌<◌, ◌≤◌, length, IfOk};
ghost use Rattle.dos_world.specs.Kernel.{zero_page};
ghost use Rattle.dos_world.specs.Reach.{bytes_of, width, written};
ghost use Rattle.page_store.specs.Store.{number_at, whole};

use dos_world::Size;
use std::alloc::{AllocError, Global};
use std::marker::Model;

/// 4096 bytes on the heap. Contracts see the list of its bytes, and speak of `whole` of it, whose
/// length is always 4096.
#[derive(Drop)]
pub struct Page {
    bytes: Box<[u8; 4096]>,
}

impl Model for Page {
    ghost use Rattle.std.specs.Prelude.{List, ℕ, ◌≡◌, length};

    ghost Value = { List ℕ };

    ghost view = { λ p. p.bytes.value };

    ghost invariant = { λ p. length p.bytes.value ≡ 4096 };
}

impl Page {
    /// A page of zeros, in one allocation.
    pub fn new(alloc: Global) -> Result<Page, AllocError>
        ensures { IfOk result (λ p. p ≡ zero_page) }
    {
        Ok(Page {
            bytes: Box::new(alloc, [0; 4096])?,
        })
    }

    /// The bytes, always 4096.
    pub fn bytes(&self) -> &[u8]
        ensures value { result.now ≡ whole self.now }
        ensures count { length result.now ≡ 4096 }
    {
        &self.bytes[..]
    }

    /// The little-endian number of this size at an offset in bytes, by one machine load.
    pub fn read(&self, offset: u32, size: Size) -> u32
        requires { offset + width size ≤ 4096 }
        ensures value { result ≡ number_at (whole self.now) offset size }
        ensures range { result < 256 ^ width size }
    {
        let at = offset as usize;
        let bytes = &self.bytes;
        match size {
            Size::Byte => u32::from(bytes[at]),
            Size::Half => u32::from(u16::from_le_bytes([bytes[at], bytes[at + 1]])),
            Size::Word => {
                u32::from_le_bytes([bytes[at], bytes[at + 1], bytes[at + 2], bytes[at + 3]])
            }
        }
    }

    /// Writes the low bytes of `value`, little-endian, by one machine store.
    pub fn write(&mut self, offset: u32, size: Size, value: u32)
        requires { offset + width size ≤ 4096 }
        ensures { whole self.new ≡ written (whole self.old) offset (bytes_of (width size) value) }
    {
        match size {
            Size::Byte => self.copy_from(offset, &[(value & 0xff) as u8]),
            Size::Half => self.copy_from(offset, &((value & 0xffff) as u16).to_le_bytes()),
            Size::Word => self.copy_from(offset, &value.to_le_bytes()),
        }
    }

    /// Writes these bytes from an offset on.
    pub fn copy_from(&mut self, offset: u32, bytes: &[u8])
        requires { offset + length bytes.now ≤ 4096 }
        ensures { whole self.new ≡ written (whole self.old) offset bytes.now }
    {
        let at = offset as usize;
        self.bytes[at..at + bytes.len()].copy_from_slice(bytes);
    }

    /// Makes all bytes 0.
    pub fn clear(&mut self)
        ensures { self.new ≡ zero_page }
    {
        *self.bytes = [0; 4096];
    }
}
