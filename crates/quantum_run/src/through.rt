// The frames in place, and the words that a thread writes into them.

use crate::buffered::store;
use crate::pages::{InPlace, Pages};
use code_pages::CodePages;
use dos_world::{Owner, Size};
use written_words::WrittenWords;

/// The frames, in place, and the words that thread `tid` has written, each of which is put in
/// memory as it is written. Each frame in use is the thread's own; no word can be claimed.
#[derive(Drop)]
pub struct Through<'a> {
    pub place: InPlace<'a>,
    pub words: &'a mut WrittenWords,
    pub tid: u32,
}

impl<'a> Pages for Through<'a> {
    ghost use Rattle.std.specs.Prelude.{ℕ, Bool, List, map, is_some, refl};
    ghost use Rattle.std.specs.Borrow.{GName};
    ghost use Rattle.dos_world.specs.declared.Owner.{Owner};
    ghost use Rattle.page_store.specs.Store.{joined};
    ghost use Rattle.flat_machine.specs.Buffered.{owner_for};
    ghost use Rattle.written_words.specs.declared.Written.{Written};
    ghost use Rattle.quantum_run.specs.Buffering.{through_places};
    ghost use Rattle.quantum_run.specs.Pages.{is_here};

    ghost Fixed = { GName × GName × List ℕ × List Owner × List Owner × List Bool };

    ghost State = { List ℕ × List Written };

    ghost fixed = { λ p. (
      p.place.frames.ghost_name,
      p.words.ghost_name,
      p.place.frames.now.uses,
      p.place.frames.now.marked,
      p.place.frames.now.owners,
      map is_some p.place.frames.now.pages,
    ) };

    ghost state = { λ p. (joined p.place.frames.now.pages, p.words.now) };

    ghost places = { λ fixed. through_places };

    ghost owners = { λ p. map (owner_for p.tid) p.place.frames.now.owners };

    ghost pages = { λ p. p.place.frames.now.pages };

    ghost is_own = { λ p frame. is_here p.place.frames.now.pages frame };

    ghost bytes_are = { λ p. refl };

    // each frame in use is the thread's own
    #[inline]
    fn owner(&self, frame: u32) -> Owner {
        match self.place.owner(frame) {
            Owner::Free => Owner::Free,
            _ => Owner::Of(self.tid),
        }
    }

    #[inline(always)]
    fn claims(&self) -> bool {
        false
    }

    #[inline(always)]
    fn read(&self, frame: u32, offset: u32, size: Size) -> u32 {
        self.place.read(frame, offset, size)
    }

    #[inline(always)]
    fn check(&self, frame: u32, code: &mut CodePages, place: usize, block: usize) -> bool {
        self.place.check(frame, code, place, block)
    }

    // into the thread's words and memory
    #[inline(always)]
    fn write(&mut self, frame: u32, offset: u32, size: Size, value: u32) -> bool {
        if !store(self.words, frame, offset, size, value) {
            return false;
        }
        self.place.write(frame, offset, size, value)
    }
}
