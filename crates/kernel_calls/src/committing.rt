// A thread's part, put into the state.
ghost use Rattle.std.specs.Prelude.{◌≡◌, ◌<◌, ◌%◌, ℕ, List, All};
ghost use Rattle.dos_world.specs.Bytes.{bytes_of};
ghost use Rattle.written_words.specs.Words.{word_put, words_put, written_by};
ghost use Rattle.dos_laws.specs.Taken.{IsPartIn, IsWordOf};
ghost use Rattle.page_store.specs.Store.{joined, whole};
ghost use Rattle.proc_table.specs.Tables.{IsLiveThread};
ghost use Rattle.kernel_mem.specs.MemoryWorld.{HasAllHome};
ghost use Rattle.flat_machine.specs.Buffered.{part, with_part};
ghost use Rattle.kernel_calls.specs.StateWorld.{IsSound, StaysInRound, sent, world_of};
ghost use Rattle.kernel_calls.specs.Committing.{StandsButBytes};

use crate::state::State;
use dos_world::Regs;
use page_store::{Frames, Page};
use written_words::{Written, bytes_over};

/// Sets the thread's registers and budget, and writes into memory, word by word in order, the bytes
/// of each value that its mask names. All else stays.
pub fn commit(state: &mut State, tid: u32, regs: Regs, budget: u32, words: &[Written])
    requires sound { IsSound state.old }
    requires live { IsLiveThread state.old.table.threads tid }
    requires part { IsPartIn state.old.frames.owners (part regs budget words.now) }
    ensures commits { (q : ℕ) (o e : List ℕ)
        → with_part (sent o e (world_of q state.old)) tid (part regs budget words.now)
        ≡ sent o e (world_of q state.new) }
    ensures sound { IsSound state.new }
    ensures round { StaysInRound state.old state.new }
{
    state.table.set_run(tid, regs, budget);
    put_words(&mut state.frames, words);
}

// These words are put in memory, one after another.
fn put_words(frames: &mut Frames, words: &[Written])
    requires home { HasAllHome frames.old }
    requires words { All (IsWordOf frames.old.owners) words.now }
    ensures puts { joined frames.new.pages ≡ words_put (joined frames.old.pages) words.now }
    ensures stays { StandsButBytes frames.old frames.new }
{
    for place in 0..words.len() {
        put_word(frames, words[place]);
    }
}

fn put_word(frames: &mut Frames, word: Written)
    requires home { HasAllHome frames.old }
    requires word { IsWordOf frames.old.owners word }
    ensures puts { joined frames.new.pages ≡ word_put (joined frames.old.pages) word }
    ensures stays { StandsButBytes frames.old frames.new }
{
    write_word(frames.lend_mut(word.frame), word);
}

// The bytes of a word that its mask names are written to the page of its frame.
fn write_word(page: &mut Page, word: Written)
    requires aligned { word.offset % 4 ≡ 0 }
    requires within { word.offset < 4096 }
    ensures { whole page.new
        ≡ written_by word.mask (whole page.old) word.offset (bytes_of 4 word.value) }
{
    let at = word.offset as usize;
    let bytes = page.bytes();
    let old = [bytes[at], bytes[at + 1], bytes[at + 2], bytes[at + 3]];
    page.copy_from(word.offset, &bytes_over(old, word));
}
