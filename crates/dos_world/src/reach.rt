// Which accesses are aligned, allowed and foreign.
ghost use Rattle.std.specs.Prelude.{◌≡◌, ◌+◌, ◌%◌, ◌≤◌, IsTrue, ◌↔◌};
ghost use Rattle.dos_world.specs.Reach.{width};
ghost use Rattle.dos_world.specs.Reach as reaching;

use crate::{Access, Entry, Owner, Size};

impl Size {
    /// Whether an address is a multiple of what the access takes. An aligned access lies in one
    /// page.
    #[inline]
    pub fn is_aligned(self, address: u32) -> bool
        ensures value { IsTrue result ↔ (address % width self ≡ 0) }
        ensures within { IsTrue result → address % 4096 + width self ≤ 4096 }
    {
        match self {
            Size::Byte => true,
            Size::Half => address % 2 == 0,
            Size::Word => address % 4 == 0,
        }
    }
}

impl Entry {
    /// Whether the page has the right that an access needs.
    #[inline]
    pub fn has_right(self, access: Access) -> bool
        ensures { result ≡ reaching.has_right access self }
    {
        match access {
            Access::Fetch => self.exec,
            Access::Load => true,
            Access::Store | Access::Claim => self.write,
        }
    }
}

impl Owner {
    /// Whether a frame of this owner is another's for an access of thread `tid`.
    #[inline]
    pub fn is_foreign(self, tid: u32, access: Access) -> bool
        ensures { result ≡ reaching.is_foreign tid access self }
    {
        match self {
            Owner::Of(other) => other != tid,
            Owner::Free | Owner::Shared => match access {
                Access::Fetch | Access::Load => false,
                Access::Store | Access::Claim => true,
            },
        }
    }
}
