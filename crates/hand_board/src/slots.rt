// Packs on their way into the slots of a table, and back.
ghost use Rattle.std.specs.Prelude.{◌≡◌, ◌≢◌, ◌<◌, ◌≤◌, ◌+◌, ℕ, true, false, map, Some};
ghost use Rattle.std.specs.Prelude.{length, slice_index_or, slice_set, vec_len, vec_capacity};
ghost use Rattle.std.specs.Mem.Slots.{slots_items, slots_filled, slots_len, IsFull};
ghost use mathlib.Core.Option.{some};
ghost use lib.ListN.{get_elem?};
ghost use Rattle.hand_board.specs.Placed.{IsUnderWay};
ghost use Rattle.hand_board.specs.Seating.{AllFinished, Rests, values};

use crate::board::Board;
use crate::rule::Part;
use atomic_table::Closed;
use std::alloc::Global;
use std::snapshot::Snapshot;

/// Each pack goes into a slot, in order.
pub(crate) fn fill<T>(packs: &mut Vec<T>, slots: &mut Vec<Option<T>>)
    requires { (vec_len slots.old ≡ 0) × (vec_len packs.old ≤ vec_capacity slots.old) }
    ensures items { slots.new.items ≡ map Some packs.old.items }
    ensures empty { vec_len packs.new ≡ 0 }
    ensures capacity { vec_capacity packs.new ≡ vec_capacity packs.old }
{
    packs.reverse();
    while let Some(pack) = packs.pop() {
        slots.push_reserved(Some(pack));
    }
}

/// The packs of slots that no table was made of come back, in order.
pub(crate) fn empty<T>(mut slots: Vec<Option<T>>, room: &mut Vec<T>)
    requires { (vec_len room.old ≡ 0) × (vec_len slots ≤ vec_capacity room.old) }
    ensures items { room.new.items ≡ values slots.items }
    ensures capacity { vec_capacity room.new ≡ vec_capacity room.old }
{
    slots.reverse();
    while let Some(slot) = slots.pop() {
        match slot {
            Some(pack) => room.push_reserved(pack),
            None => {}
        }
    }
    slots.destroy_empty();
}

// a pack under way is worked on until its end, and a finished one stays as it is
fn finished<T: Part>(mut pack: T, word: u64) -> T
    requires { word ≡ 3 → T.ready pack }
    ensures under_way { word ≡ 3 → T.ends pack result }
    ensures finished { word ≢ 3 → result ≡ pack }
{
    if word == 3 {
        pack.finish();
    }
    pack
}

// the pack of slot i comes out, finished
fn take<T: Part>(closed: &mut Closed<Option<T>, Global>, opened: &Snapshot<Board<T>>, i: usize) -> T
    requires slot { (i < slots_len closed.old.slots)
        × (slice_index_or (slots_filled closed.old.slots) i false ≡ true) }
    requires number { i < length opened.now.value.opened }
    requires word { IsFull closed.old.words × (i + 1 < slots_len closed.old.words) }
    requires rests { Rests T.finished (IsUnderWay T.ready T.ends T.finished)
        opened.now.value.opened (slots_items closed.old.words) (slots_items closed.old.slots) i }
    ensures finished { (x : T) → get_elem? opened.now.value.opened i ≡ some x
        → T.finished x result }
    ensures closed { (slots_items closed.new.slots ≡ slots_items closed.old.slots)
        × (slots_filled closed.new.slots ≡ slice_set (slots_filled closed.old.slots) i false)
        × (slots_len closed.new.slots ≡ slots_len closed.old.slots)
        × (closed.new.words ≡ closed.old.words) }
{
    let word = closed.word(i + 1);
    match closed.take(i) {
        Some(pack) => finished(pack, word),
        None => unreachable!(),
    }
}

/// The packs of a closed table come back, in order, each finished from its opening.
pub(crate) fn take_all<T: Part>(
    closed: &mut Closed<Option<T>, Global>,
    opened: &Snapshot<Board<T>>,
    room: &mut Vec<T>,
)
    requires full { IsFull closed.old.slots × IsFull closed.old.words }
    requires words { slots_len closed.old.words ≡ slots_len closed.old.slots + 1 }
    requires room { (vec_len room.old ≡ 0) × (slots_len closed.old.slots ≤ vec_capacity room.old) }
    requires opened { length opened.now.value.opened ≡ slots_len closed.old.slots }
    requires rest { (i : ℕ) → Rests T.finished (IsUnderWay T.ready T.ends T.finished)
        opened.now.value.opened (slots_items closed.old.words) (slots_items closed.old.slots) i }
    ensures finished { AllFinished T.finished opened.now.value.opened room.new.items }
    ensures free { (k : ℕ) → k < slots_len closed.new.slots
        → slice_index_or (slots_filled closed.new.slots) k false ≡ false }
    ensures capacity { vec_capacity room.new ≡ vec_capacity room.old }
{
    let mut i = 0;
    while i < closed.slot_count() {
        room.push_reserved(take(closed, opened, i));
        i += 1;
    }
}
