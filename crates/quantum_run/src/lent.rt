// A pack's own pages, and the frames that are lent to it.
ghost use Rattle.std.specs.Prelude.{◌≡◌, ◌+◌, ◌≤◌, ℕ, Bool, List, Some, IsSome, is_some, length};
ghost use Rattle.std.specs.Prelude.{map, slice_get};
ghost use Rattle.dos_world.specs.Reach.{bytes_of, width, written};
ghost use Rattle.page_store.specs.Store.{Store, whole};
ghost use Rattle.quantum_run.specs.Pages.{IsPageHere, Writes, overlay};

use crate::pages::Pages;
use code_pages::CodePages;
use dos_world::{Owner, Size};
use page_store::{Frames, Page};

/// Own pages by frame, and the frames that are lent.
#[derive(Drop)]
pub struct Lent<'a> {
    pub own: Vec<Option<Page>>,
    pub lent: &'a [Option<Page>],
    pub frames: &'a Frames,
    ghost level: { length own.items ≡ length frames.now.pages },
    ghost same: { lent.now ≡ frames.now.pages },
}

// a page that is there
#[inline]
fn lent_page(slot: &Option<Page>) -> &Page
    requires { IsSome slot.now }
    ensures { slot.now ≡ Some result.now }
{
    match slot {
        Some(page) => page,
        None => unreachable!(),
    }
}

// writes into a page that is there
#[inline]
fn write_in(slot: &mut Option<Page>, offset: u32, size: Size, value: u32)
    requires there { IsSome slot.old }
    requires within { offset + width size ≤ 4096 }
    ensures { (old : List ℕ) → slot.old ≡ Some old → (new : List ℕ) × (slot.new ≡ Some new)
        × (whole new ≡ written (whole old) offset (bytes_of (width size) value)) }
{
    match slot {
        Some(page) => page.write(offset, size, value),
        None => unreachable!(),
    }
}

impl<'a> Lent<'a> {
    #[inline]
    fn page_of(&self, frame: u32) -> &Page
        requires { IsPageHere (overlay self.now.own.items self.now.frames.now.pages) frame }
        ensures { slice_get (overlay self.now.own.items self.now.frames.now.pages) frame
            ≡ Some (Some result.now) }
    {
        match &self.own[frame as usize] {
            Some(page) => page,
            None => lent_page(&self.lent[frame as usize]),
        }
    }

    #[inline]
    fn put(&mut self, frame: u32, offset: u32, size: Size, value: u32)
        requires own { IsPageHere self.old.own.items frame }
        requires within { offset + width size ≤ 4096 }
        ensures pages { Writes (overlay self.old.own.items self.old.frames.now.pages)
            (overlay self.new.own.items self.new.frames.now.pages) frame offset
            (bytes_of (width size) value) }
        ensures owners { self.new.frames.now.owners ≡ self.old.frames.now.owners }
        ensures fixed { ◌≡◌ {A = Store × List Bool}
            (self.new.frames.now, map is_some self.new.own.items)
            (self.old.frames.now, map is_some self.old.own.items) }
        ensures own { (f : ℕ) → IsPageHere self.old.own.items f → IsPageHere self.new.own.items f }
    {
        write_in(&mut self.own[frame as usize], offset, size, value);
    }
}

impl<'a> Pages for Lent<'a> {
    ghost use Rattle.std.specs.Prelude.{ℕ, Bool, List, map, is_some, refl};
    ghost use Rattle.page_store.specs.Store.{Store, joined};
    ghost use Rattle.quantum_run.specs.Answering.{flat_places};
    ghost use Rattle.quantum_run.specs.Pages.{overlay, is_here};

    ghost Fixed = { Store × List Bool };

    ghost State = { List ℕ };

    ghost fixed = { λ l. (l.frames.now, map is_some l.own.items) };

    ghost state = { λ l. joined (overlay l.own.items l.frames.now.pages) };

    ghost places = { λ fixed. flat_places };

    ghost owners = { λ l. l.frames.now.owners };

    ghost pages = { λ l. overlay l.own.items l.frames.now.pages };

    ghost is_own = { λ l frame. is_here l.own.items frame };

    ghost bytes_are = { λ l. refl };

    #[inline]
    fn owner(&self, frame: u32) -> Owner {
        self.frames.owner(frame)
    }

    #[inline(always)]
    fn claims(&self) -> bool {
        true
    }

    #[inline(always)]
    fn read(&self, frame: u32, offset: u32, size: Size) -> u32 {
        self.page_of(frame).read(offset, size)
    }

    #[inline(always)]
    fn check(&self, frame: u32, code: &mut CodePages, place: usize, block: usize) -> bool {
        code.check(place, block, self.page_of(frame).bytes())
    }

    #[inline(always)]
    fn write(&mut self, frame: u32, offset: u32, size: Size, value: u32) -> bool {
        self.put(frame, offset, size, value);
        true
    }
}
