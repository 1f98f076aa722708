// The pages that one thread reaches, by frame.
ghost use Rattle.std.specs.Prelude.{◌≡◌, ◌+◌, ◌*◌, ◌%◌, ◌^◌, ◌<◌, ◌≤◌, ℕ, Bool, true, false, List};
ghost use Rattle.std.specs.Prelude.{Option, Some, None, is_some, length, map};
ghost use Rattle.std.specs.Prelude.{slice_index_or};
ghost use Rattle.std.specs.Borrow.{GName};
ghost use Rattle.dos_world.specs.Reach.{bytes_of, width};
ghost use Rattle.dos_world.specs.declared.Owner.{Owner as owner_type};
ghost use Rattle.dos_world.specs.declared.Owner.TheVariants.{Free};
ghost use Rattle.page_store.specs.Store.{joined, number_at};
ghost use Rattle.code_pages.specs.Lines.{AreKnownPages};
ghost use Rattle.quantum_run.specs.Answering.{Places};
ghost use Rattle.quantum_run.specs.Knowing.{IsChecked};
ghost use Rattle.quantum_run.specs.Pages.{IsPageHere, Writes};

use code_pages::CodePages;
use dos_world::{Owner, Size};
use page_store::Frames;

/// The pages that one thread reaches, and what becomes of its stores.
pub trait Pages: Drop {
    ghost Fixed: { Type 0 };

    /// What a write changes.
    ghost State: { Type 0 };

    /// What no call changes.
    ghost fixed: { Self → Fixed };

    ghost state: { Self → State };

    /// What is read and written at places, by the flat bytes.
    ghost places: { Fixed → Places State };

    ghost owners: { Self → List owner_type };

    /// What is read, by frame.
    ghost pages: { Self → List (Option (List ℕ)) };

    /// Which frames can be written.
    ghost is_own: { Self → ℕ → Bool };

    ghost bytes_are: { (p : Self) → (places (fixed p)).bytes (state p) ≡ joined (pages p) };

    fn owner(&self, frame: u32) -> Owner
        requires { frame < length (owners self.now) }
        ensures { result ≡ slice_index_or (owners self.now) frame Free };

    /// Whether a word of a frame can be claimed.
    fn claims(&self) -> bool
        ensures { result ≡ (places (fixed self.now)).claims };

    /// The number at an aligned offset of a frame's page.
    fn read(&self, frame: u32, offset: u32, size: Size) -> u32
        requires home { IsPageHere (pages self.now) frame }
        requires within { offset + width size ≤ 4096 }
        requires aligned { offset % width size ≡ 0 }
        ensures value { result ≡ number_at (joined (pages self.now)) (4096 * frame + offset) size }
        ensures range { result < 256 ^ width size };

    /// A block of 256 bytes of the frame's page, and the halfword behind it, are known at a place
    /// of code from now on. False, with nothing changed, where there is no such place, or no
    /// memory.
    fn check(&self, frame: u32, code: &mut CodePages, place: usize, block: usize) -> bool
        requires home { IsPageHere (pages self.now) frame }
        requires block { block < 16 }
        ensures checked { result ≡ true
            → IsChecked (pages self.now) frame code.old place block code.new }
        ensures same { result ≡ false → code.new ≡ code.old }
        ensures known { AreKnownPages code.old };

    /// Writes the low bytes of a number at an aligned offset of a frame's page; false where there
    /// is no room for it, and nothing is changed then.
    fn write(&mut self, frame: u32, offset: u32, size: Size, value: u32) -> bool
        requires own { is_own self.old frame ≡ true }
        requires within { offset + width size ≤ 4096 }
        requires aligned { offset % width size ≡ 0 }
        ensures stored { result ≡ true → (places (fixed self.old)).write (state self.old)
            (4096 * frame + offset) (bytes_of (width size) value) ≡ Some (state self.new) }
        ensures pages { result ≡ true → Writes (pages self.old) (pages self.new) frame offset
            (bytes_of (width size) value) }
        ensures full { result ≡ false → (places (fixed self.old)).write (state self.old)
            (4096 * frame + offset) (bytes_of (width size) value) ≡ None }
        ensures same { result ≡ false → (state self.new ≡ state self.old)
            × (pages self.new ≡ pages self.old) }
        ensures owners { owners self.new ≡ owners self.old }
        ensures fixed { fixed self.new ≡ fixed self.old }
        ensures own { (f : ℕ) → is_own self.old f ≡ true → is_own self.new f ≡ true };
}

/// The frames, in place.
#[derive(Drop)]
pub struct InPlace<'a> {
    pub frames: &'a mut Frames,
}

impl<'a> InPlace<'a> {
    #[inline]
    fn put(&mut self, frame: u32, offset: u32, size: Size, value: u32)
        requires own { IsPageHere self.old.frames.now.pages frame }
        requires within { offset + width size ≤ 4096 }
        ensures pages { Writes self.old.frames.now.pages self.new.frames.now.pages frame offset
            (bytes_of (width size) value) }
        ensures owners { self.new.frames.now.owners ≡ self.old.frames.now.owners }
        ensures fixed { ◌≡◌ {A = GName × List ℕ × List owner_type × List Bool} (
          self.new.frames.ghost_name,
          self.new.frames.now.uses,
          self.new.frames.now.marked,
          map is_some self.new.frames.now.pages,
        ) (
          self.old.frames.ghost_name,
          self.old.frames.now.uses,
          self.old.frames.now.marked,
          map is_some self.old.frames.now.pages,
        ) }
        ensures own { (f : ℕ) → IsPageHere self.old.frames.now.pages f
            → IsPageHere self.new.frames.now.pages f }
    {
        self.frames.lend_mut(frame).write(offset, size, value);
    }
}

impl<'a> Pages for InPlace<'a> {
    ghost use Rattle.std.specs.Prelude.{ℕ, Bool, List, map, is_some, refl};
    ghost use Rattle.std.specs.Borrow.{GName};
    ghost use Rattle.dos_world.specs.declared.Owner.{Owner};
    ghost use Rattle.page_store.specs.Store.{joined};
    ghost use Rattle.quantum_run.specs.Answering.{flat_places};
    ghost use Rattle.quantum_run.specs.Pages.{is_here};

    ghost Fixed = { GName × List ℕ × List Owner × List Bool };

    ghost State = { List ℕ };

    ghost fixed = { λ p. (
      p.frames.ghost_name,
      p.frames.now.uses,
      p.frames.now.marked,
      map is_some p.frames.now.pages,
    ) };

    ghost state = { λ p. joined p.frames.now.pages };

    ghost places = { λ fixed. flat_places };

    ghost owners = { λ p. p.frames.now.owners };

    ghost pages = { λ p. p.frames.now.pages };

    ghost is_own = { λ p frame. is_here p.frames.now.pages frame };

    ghost bytes_are = { λ p. refl };

    #[inline]
    fn owner(&self, frame: u32) -> Owner {
        self.frames.owner(frame)
    }

    #[inline(always)]
    fn claims(&self) -> bool {
        true
    }

    #[inline(always)]
    fn read(&self, frame: u32, offset: u32, size: Size) -> u32 {
        self.frames.lend(frame).read(offset, size)
    }

    #[inline(always)]
    fn check(&self, frame: u32, code: &mut CodePages, place: usize, block: usize) -> bool {
        code.check(place, block, self.frames.lend(frame).bytes())
    }

    #[inline(always)]
    fn write(&mut self, frame: u32, offset: u32, size: Size, value: u32) -> bool {
        self.put(frame, offset, size, value);
        true
    }
}
