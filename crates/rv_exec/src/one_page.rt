// A memory of one page: the least that instructions can run over. It is for tests.
ghost use Rattle.std.specs.Prelude.{◌≡◌, ◌+◌, ◌^◌, ◌<◌, ◌≤◌, ℕ, take, drop, IfOk};
ghost use Rattle.dos_world.specs.World.{World};
ghost use Rattle.dos_world.specs.Reach.{width, number_of, written, bytes_of};
ghost use Rattle.flat_machine.specs.Step.{reached};

use crate::Memory;
use dos_world::{Access, Entry, Owner, Reason, Size};

/// The memory of a thread that has one page, in a world of one frame.
#[derive(Drop)]
pub struct OnePage {
    /// The thread's number.
    pub thread: u32,
    /// The page's number: its address divided by 4096.
    pub page: u32,
    /// It may be written.
    pub write: bool,
    /// It may be executed.
    pub exec: bool,
    /// Who owns the frame.
    pub owner: Owner,
    /// Its bytes.
    pub bytes: Box<[u8; 4096]>,
}

impl OnePage {
    ghost use Rattle.rv_exec.specs.OnePage.{IsOnePage, entry_of};

    /// The page's entry; its frame is the only one.
    fn entry(&self) -> Entry
        ensures { result ≡ entry_of self.now }
    {
        Entry {
            frame: 0,
            write: self.write,
            exec: self.exec,
            shared: false,
        }
    }

    /// The offset of an access in the page.
    fn find(&self, address: u32, size: Size, access: Access) -> Result<u32, Reason>
        ensures place { (t : ℕ) (w : World) → IsOnePage self.now t w
            → result ≡ reached w t address size access }
        ensures within { IfOk result (λ offset. offset + width size ≤ 4096) }
    {
        if !size.is_aligned(address) {
            return Err(Reason::Fault(7));
        }
        if address / 4096 != self.page {
            return Err(Reason::Fault(11));
        }
        if !self.entry().has_right(access) {
            return Err(Reason::Fault(11));
        }
        if self.owner.is_foreign(self.thread, access) {
            return Err(Reason::Page { address, access });
        }
        Ok(address % 4096)
    }

    /// The little-endian number at an offset.
    fn number(&self, offset: u32, size: Size) -> u32
        requires { offset + width size ≤ 4096 }
        ensures value { result ≡ number_of (take (width size) (drop offset self.now.bytes.value)) }
        ensures range { result < 256 ^ width size }
    {
        let o = offset as usize;
        match size {
            Size::Byte => u32::from(self.bytes[o]),
            Size::Half => u32::from(u16::from_le_bytes([self.bytes[o], self.bytes[o + 1]])),
            Size::Word => u32::from_le_bytes([
                self.bytes[o],
                self.bytes[o + 1],
                self.bytes[o + 2],
                self.bytes[o + 3],
            ]),
        }
    }

    /// Writes the low bytes of a number at an offset.
    fn put(&mut self, offset: u32, size: Size, value: u32)
        requires { offset + width size ≤ 4096 }
        ensures { self.new
            ≡ record self.old {
              bytes =
                  record self.old.bytes {
                    value =
                        written self.old.bytes.value offset (bytes_of (width size) value);
                  };
            } }
    {
        let o = offset as usize;
        let [first, second, third, fourth] = value.to_le_bytes();
        self.bytes[o] = first;
        match size {
            Size::Byte => {}
            Size::Half => self.bytes[o + 1] = second,
            Size::Word => {
                self.bytes[o + 1] = second;
                self.bytes[o + 2] = third;
                self.bytes[o + 3] = fourth;
            }
        }
    }
}

impl Memory for OnePage {
    ghost use Rattle.std.specs.Prelude.{ℕ};
    ghost use Rattle.dos_world.specs.World.{World};
    ghost use Rattle.rv_exec.specs.OnePage.{IsOnePage};
    ghost use Rattle.flat_machine.specs.Over.{world_answers};

    // which thread's memory it is
    ghost Fixed = { ℕ };

    ghost State = { World };

    ghost answers = { world_answers };

    ghost shows = { λ m t w. IsOnePage m t w };

    fn fetch_half(&mut self, address: u32) -> Result<u16, Reason> {
        match self.find(address, Size::Half, Access::Fetch) {
            Ok(offset) => Ok(self.number(offset, Size::Half) as u16),
            Err(reason) => Err(reason),
        }
    }

    fn load(&mut self, address: u32, size: Size) -> Result<u32, Reason> {
        match self.find(address, size, Access::Load) {
            Ok(offset) => Ok(self.number(offset, size)),
            Err(reason) => Err(reason),
        }
    }

    fn store(&mut self, address: u32, size: Size, value: u32) -> Result<(), Reason> {
        match self.find(address, size, Access::Store) {
            Ok(offset) => {
                self.put(offset, size, value);
                Ok(())
            }
            Err(reason) => Err(reason),
        }
    }

    fn claim(&mut self, address: u32) -> Result<u32, Reason> {
        match self.find(address, Size::Word, Access::Claim) {
            Ok(offset) => Ok(self.number(offset, Size::Word)),
            Err(reason) => Err(reason),
        }
    }
}
