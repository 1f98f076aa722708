// The board, and what a seat does at it.
ghost use Rattle.std.specs.Prelude.{◌≡◌, ◌<◌, ◌≤◌, ◌+◌, ◌-◌, ◌/◌, ◌^◌, ◌∷◌, ◌++◌, ◌||◌, [], ℕ};
ghost use Rattle.std.specs.Prelude.{true, false, length, max, replicate, vec_len, vec_capacity};
ghost use Rattle.std.specs.Prelude.{IfSome, IfNone, IfOk, IfErr, Some, None, map};
ghost use mathlib.Core.Option.{some};
ghost use lib.ListN.{get_elem?};
ghost use Rattle.atomic_table.specs.Table.{rest};
ghost use Rattle.hand_board.specs.Placed.{IsUnderWay, first_view, times, without, whole_share};
ghost use Rattle.hand_board.specs.Seating.{Has, AllFinished};

use crate::rule::{Bring, Claim, Give, Halve, Knows, Merge, Once, Part, Resume, Weigh};
use crate::seat::{BoardSeat, Job};
use crate::slots::{empty, fill, take_all};
use atomic_table::{Refused, Seat, Shared, Table};
use std::alloc::Global;
use std::marker::Model;
use std::snapshot::Snapshot;

/// The share of a seat that is the only one.
const WHOLE: u64 = 1 << 32;

/// A board's table: what a seat knows, the packs as they opened, and the rule.
pub(crate) type PackTable<T> = Table<Option<T>, Knows<T>, Snapshot<Vec<T>>, Once<T>, Global>;

/// What all seats share of it: the words and the slots.
type PackWords<T> = Shared<Option<T>, Knows<T>, Snapshot<Vec<T>>, Once<T>>;

/// A seat at it.
type PackSeat<T> = Seat<Option<T>, Knows<T>>;

/// Packs that threads take, each once, and give back. Contracts see which board it is, the packs as
/// it opened, and the room of the vector that they came in.
#[derive(Drop)]
pub struct Board<T: Part> {
    // Word 0 isn't used; word i + 1 and slot i are those of number i.
    pub(crate) table: PackTable<T>,
    count: u32,
    // The vector that the packs came in, now without them: they come home into it.
    room: Vec<T>,
}

impl<T: Part> Model for Board<T> {
    ghost use Rattle.std.specs.Prelude.{vec_len, vec_capacity};
    ghost use Rattle.hand_board.specs.Seating.{Standing, IsBoard, standing};

    ghost Value = { Standing T };

    ghost view = { λ b. standing b.table.shared.table_id b.table.shared.key.value.items
        (vec_capacity b.room) };

    ghost invariant = { λ b. IsBoard b.table.shared.table_id b.table.shared.key.value.items b.count
        (vec_len b.room) (vec_capacity b.room) };
}

fn later(a: u32, b: u32) -> u32
    ensures { result ≡ max a b }
{
    if a < b { b } else { a }
}

// a value, since `a || b` among the fields of a struct would be two ways through the function
fn one_of(a: bool, b: bool) -> bool
    ensures { result ≡ (a || b) }
{
    a || b
}

// the words of so many packs, each 0, and room for their slots, or None where memory ends
#[inline]
fn room_for<T>(alloc: Global, count: usize) -> Option<(Vec<u64>, Vec<Option<T>>)>
    requires { count < 2 ^ 32 }
    ensures words { IfSome result (λ r. r.0.items ≡ replicate (count + 1) 0) }
    ensures slots { IfSome result (λ r. (vec_len r.1 ≡ 0) × (count ≤ vec_capacity r.1)) }
{
    let Ok(words) = (vec![in alloc; 0; count + 1]) else {
        return None;
    };
    let Ok(slots) = Vec::with_capacity(alloc, count) else {
        return None;
    };
    Some((words, slots))
}

// a new table of these words and slots, and its first seat; where memory ends the packs come back
// out of the slots
fn table_in<T: Part>(
    alloc: Global,
    words: &[u64],
    slots: Vec<Option<T>>,
    opened: &Snapshot<Vec<T>>,
    packs: &mut Vec<T>,
) -> Option<(PackTable<T>, PackSeat<T>)>
    requires words { words.now ≡ replicate (length opened.now.value.items + 1) 0 }
    requires slots { slots.items ≡ map Some opened.now.value.items }
    requires packs { (vec_len packs.old ≡ 0)
        × (length opened.now.value.items ≤ vec_capacity packs.old) }
    ensures some { IfSome result
        (λ r. (r.0.shared.table_id.words ≡ length opened.now.value.items + 1)
        × (r.0.shared.table_id.slots ≡ length opened.now.value.items)
        × (r.0.shared.key.value.items ≡ opened.now.value.items)
        × (r.1.table_id ≡ r.0.shared.table_id)
        × (r.1.me ≡ (first_view opened.now.value.items, []))
        × (vec_len packs.new ≡ 0)) }
    ensures none { IfNone result (packs.new.items ≡ opened.now.value.items) }
    ensures capacity { vec_capacity packs.new ≡ vec_capacity packs.old }
{
    match Table::new(alloc, words, slots, opened) {
        Ok(made) => Some(made),
        Err(Refused { slots }) => {
            empty(slots, packs);
            None
        }
    }
}

// a new table with the packs in its slots, and its first seat; where memory ends the packs are in
// their vector again
fn table_of<T: Part>(alloc: Global, packs: &mut Vec<T>) -> Option<(PackTable<T>, PackSeat<T>)>
    requires { vec_len packs.old < 2 ^ 32 }
    ensures some { IfSome result
        (λ r. (r.0.shared.table_id.words ≡ length packs.old.items + 1)
        × (r.0.shared.table_id.slots ≡ length packs.old.items)
        × (r.0.shared.key.value.items ≡ packs.old.items)
        × (r.1.table_id ≡ r.0.shared.table_id)
        × (r.1.me ≡ (first_view packs.old.items, []))
        × (vec_len packs.new ≡ 0)) }
    ensures none { IfNone result (packs.new.items ≡ packs.old.items) }
    ensures capacity { vec_capacity packs.new ≡ vec_capacity packs.old }
{
    let Some((words, mut slots)) = room_for(alloc, packs.len()) else {
        return None;
    };
    let opened = Snapshot::of(&*packs);
    fill(packs, &mut slots);
    table_in(alloc, words.as_slice(), slots, &opened, packs)
}

// the board of a new table, with the room that its packs came in, and its first seat
#[inline]
fn board_of<T: Part>(
    table: PackTable<T>,
    seat: PackSeat<T>,
    count: u32,
    room: Vec<T>,
) -> (Board<T>, BoardSeat<T>)
    requires sized { (table.shared.table_id.words ≡ count + 1)
        × (table.shared.table_id.slots ≡ count) }
    requires all { length table.shared.key.value.items ≡ count }
    requires roomy { (vec_len room ≡ 0) × (count ≤ vec_capacity room) }
    requires seat { (seat.table_id ≡ table.shared.table_id)
        × (seat.me ≡ (first_view table.shared.key.value.items, [])) }
    ensures board { (result.0.id ≡ table.shared.table_id)
        × (result.0.opened ≡ table.shared.key.value.items) × (result.0.room ≡ vec_capacity room) }
    ensures seat { result.1
        ≡ record {
          board = table.shared.table_id;
          opened = table.shared.key.value.items;
          share = whole_share;
          found = [];
          hand = [];
          next = 0;
          ended = false;
        } }
{
    (
        Board { table, count, room },
        BoardSeat {
            seat,
            share: WHOLE,
            next: 0,
            ended: false,
        },
    )
}

// the pack in the slot that the seat took last leaves it
fn lift<T: Part>(shared: &PackWords<T>, seat: &mut PackSeat<T>, number: u32) -> Job<T>
    requires table { seat.old.table_id ≡ shared.now.table_id }
    requires full { (x : T) × (seat.old.me.1 ≡ (number, Some x) ∷ rest seat.old.me.1) }
    ensures table { seat.new.table_id ≡ seat.old.table_id }
    ensures number { result.number ≡ number }
    ensures pack { seat.old.me.1 ≡ (number, Some result.pack) ∷ rest seat.old.me.1 }
    ensures seat { seat.new.me ≡ (seat.old.me.0, (number, None) ∷ rest seat.old.me.1) }
{
    match shared.exchange(seat, number as usize, None) {
        Some(pack) => Job { number, pack },
        None => unreachable!(),
    }
}

// a pack goes into the slot that the seat took last, which is empty
#[inline]
fn put<T: Part>(shared: &PackWords<T>, seat: &mut PackSeat<T>, slot: usize, pack: T)
    requires table { seat.old.table_id ≡ shared.now.table_id }
    requires empty { seat.old.me.1 ≡ (slot, None) ∷ rest seat.old.me.1 }
    ensures table { seat.new.table_id ≡ seat.old.table_id }
    ensures seat { seat.new.me ≡ (seat.old.me.0, (slot, Some pack) ∷ rest seat.old.me.1) }
{
    match shared.exchange(seat, slot, Some(pack)) {
        None => {}
        Some(_) => unreachable!(),
    }
}

impl<T: Part> Board<T> {
    /// A board of fewer than 2^32 packs, and its first seat, which has the whole share, 2^32,
    /// nothing in hand and nothing found. Err is want of memory, and hands all packs back. No other
    /// call of a board takes memory.
    pub fn new(alloc: Global, mut packs: Vec<T>) -> Result<(Board<T>, BoardSeat<T>), Vec<T>>
        requires { vec_len packs < 2 ^ 32 }
        ensures seat { IfOk result
            (λ r. r.1
            ≡ record {
              board = r.0.id;
              opened = packs.items;
              share = whole_share;
              found = [];
              hand = [];
              next = 0;
              ended = false;
            }) }
        ensures board { IfOk result
            (λ r. (r.0.opened ≡ packs.items) × (r.0.room ≡ vec_capacity packs)) }
        ensures err { IfErr result
            (λ v. (v.items ≡ packs.items) × (vec_capacity v ≡ vec_capacity packs)) }
    {
        let count = packs.len() as u32;
        match table_of(alloc, &mut packs) {
            Some((table, seat)) => Ok(board_of(table, seat, count, packs)),
            None => Err(packs),
        }
    }

    /// How many packs the board was made of.
    pub fn count(&self) -> u32
        ensures { result ≡ length self.now.opened }
    {
        self.count
    }

    /// The pack of this number, as the board opened, where its word was 0 at this call's one
    /// exchange: no other hand has it. Else None: the pack is or was in a hand. Either way the
    /// number is found afterwards.
    pub fn claim(&self, seat: &mut BoardSeat<T>, number: u32) -> Option<Job<T>>
        requires board { seat.old.board ≡ self.now.id }
        requires number { number < length self.now.opened }
        ensures some { IfSome result
            (λ j. (j.number ≡ number) × (get_elem? seat.old.opened number ≡ some j.pack)
            × (times number seat.old.found ≡ 0)
            × (seat.new
            ≡ record seat.old {
              found = number ∷ seat.old.found;
              hand = number ∷ seat.old.hand;
            })) }
        ensures none { IfNone result
            (seat.new ≡ record seat.old { found = number ∷ seat.old.found }) }
    {
        let shared = &self.table.shared;
        let index = number as usize;
        let found = shared.compare_exchange::<Claim>(&mut seat.seat, index + 1, 0, 1);
        if found != 0 {
            return None;
        }
        Some(lift(shared, &mut seat.seat, number))
    }

    /// The pack of this number, which was put back under way, where its word was 3 at this call's
    /// one exchange: no other hand has it. Else None, and the seat is as it was.
    pub fn resume(&self, seat: &mut BoardSeat<T>, number: u32) -> Option<Job<T>>
        requires board { seat.old.board ≡ self.now.id }
        requires number { number < length self.now.opened }
        ensures some { IfSome result
            (λ j. (j.number ≡ number)
            × ((x : T) × (get_elem? seat.old.opened number ≡ some x)
            × IsUnderWay T.ready T.ends T.finished x j.pack)
            × (seat.new ≡ record seat.old { hand = number ∷ seat.old.hand })) }
        ensures none { IfNone result (seat.new ≡ seat.old) }
    {
        let shared = &self.table.shared;
        let index = number as usize;
        // a look takes no exchange: a word that isn't 3 is left alone
        if shared.peek(index + 1) != 3 {
            return None;
        }
        let found = shared.compare_exchange::<Resume<T>>(&mut seat.seat, index + 1, 3, 1);
        if found != 3 {
            return None;
        }
        Some(lift(shared, &mut seat.seat, number))
    }

    /// Whether the pack of this number was in a hand when this call looked. Nothing follows from it
    /// for what comes after the look, so it only tells who waits whether to look again.
    pub fn was_in_hand(&self, number: u32) -> bool
        requires { number < length self.now.opened }
    {
        self.table.shared.peek(number as usize + 1) == 1
    }

    /// A pack that this seat didn't know to be begun, as the board opened; no other hand has it.
    /// None exactly where each number was found begun, by this call or before: the seat has then
    /// ended, and its draws answer None without a step. Numbers are tried in rising order, from
    /// after the last one that was drawn.
    pub fn draw(&self, seat: &mut BoardSeat<T>) -> Option<Job<T>>
        requires board { seat.old.board ≡ self.now.id }
        ensures seat { (seat.new.board ≡ seat.old.board) × (seat.new.opened ≡ seat.old.opened)
            × (seat.new.share ≡ seat.old.share) }
        ensures some { IfSome result
            (λ j. (seat.old.ended ≡ false)
            × (get_elem? seat.old.opened j.number ≡ some j.pack)
            × (times j.number seat.old.found ≡ 0) × Has j.number seat.new.found
            × (seat.new.hand ≡ j.number ∷ seat.old.hand) × (seat.new.ended ≡ false)) }
        ensures next { IfSome result
            (λ j. (seat.old.next ≤ j.number) × (seat.new.next ≡ j.number + 1)
            × (j.number < length self.now.opened)) }
        ensures none { IfNone result ((seat.new.ended ≡ true) × (seat.new.hand ≡ seat.old.hand)
            × ((k : ℕ) → k < length self.now.opened → Has k seat.new.found)) }
        ensures found { (k : ℕ) → Has k seat.old.found → Has k seat.new.found }
    {
        let count = self.count;
        if seat.ended {
            return None;
        }
        let mut number = seat.next;
        while number < count {
            match self.claim(seat, number) {
                Some(job) => {
                    seat.next = number + 1;
                    return Some(job);
                }
                None => number += 1,
            }
        }
        seat.ended = true;
        None
    }

    /// A pack goes home, finished. Its number is in this seat's hand, which may have others, and
    /// leaves it.
    pub fn give(&self, seat: &mut BoardSeat<T>, job: Job<T>)
        requires board { seat.old.board ≡ self.now.id }
        requires hand { 0 < times job.number seat.old.hand }
        requires finished { (x : T) → get_elem? seat.old.opened job.number ≡ some x
            → T.finished x job.pack }
        ensures { seat.new ≡ record seat.old { hand = without job.number seat.old.hand } }
    {
        self.lay(seat, job, 2);
    }

    /// A pack goes home under way, for whoever resumes it. Its number is in this seat's hand, which
    /// may have others, and leaves it.
    pub fn put_back(&self, seat: &mut BoardSeat<T>, job: Job<T>)
        requires board { seat.old.board ≡ self.now.id }
        requires hand { 0 < times job.number seat.old.hand }
        requires under_way { (x : T) → get_elem? seat.old.opened job.number ≡ some x
            → IsUnderWay T.ready T.ends T.finished x job.pack }
        ensures { seat.new ≡ record seat.old { hand = without job.number seat.old.hand } }
    {
        self.lay(seat, job, 3);
    }

    // a pack goes home, and its word becomes 2 where it is finished, or 3 where it is under way
    fn lay(&self, seat: &mut BoardSeat<T>, job: Job<T>, word: u64)
        requires board { seat.old.board ≡ self.now.id }
        requires hand { 0 < times job.number seat.old.hand }
        requires word { (2 ≤ word) × (word ≤ 3) }
        requires pack { (x : T) → get_elem? seat.old.opened job.number ≡ some x
            → (word ≡ 2 → T.finished x job.pack)
            × (word ≡ 3 → IsUnderWay T.ready T.ends T.finished x job.pack) }
        ensures { seat.new ≡ record seat.old { hand = without job.number seat.old.hand } }
    {
        let Job { number, pack } = job;
        let shared = &self.table.shared;
        let index = number as usize;
        shared.load::<Bring>(&mut seat.seat, index + 1);
        put(shared, &mut seat.seat, index, pack);
        shared.store::<Give>(&mut seat.seat, index + 1, word);
    }

    /// Two seats of one with a share of at least 2. The first keeps the hand and half of the share,
    /// rounded down; the second has nothing in hand, and the rest. Both have found what the seat
    /// had, and both have ended where it had.
    pub fn split(&self, seat: BoardSeat<T>) -> (BoardSeat<T>, BoardSeat<T>)
        requires board { seat.board ≡ self.now.id }
        requires share { 2 ≤ seat.share }
        ensures first { result.0 ≡ record seat { share = seat.share / 2 } }
        ensures second { result.1 ≡ record seat { share = seat.share - seat.share / 2; hand = [] } }
    {
        let BoardSeat {
            mut seat,
            share,
            next,
            ended,
        } = seat;
        let other = self.table.shared.split_seat::<Halve>(&mut seat);
        let half = share / 2;
        (
            BoardSeat {
                seat,
                share: half,
                next,
                ended,
            },
            BoardSeat {
                seat: other,
                share: share - half,
                next,
                ended,
            },
        )
    }

    /// One seat of two that have nothing in hand. It has both shares, has found what either had,
    /// and has ended where either had.
    pub fn join(&self, left: BoardSeat<T>, right: BoardSeat<T>) -> BoardSeat<T>
        requires left { left.board ≡ self.now.id }
        requires right { right.board ≡ self.now.id }
        requires hands { (left.hand ≡ []) × (right.hand ≡ []) }
        ensures { result ≡ record left {
          share = left.share + right.share;
          found = left.found ++ right.found;
          next = max left.next right.next;
          ended = left.ended || right.ended;
        } }
    {
        let BoardSeat {
            mut seat,
            share,
            next,
            ended,
        } = left;
        let BoardSeat {
            seat: other,
            share: more,
            next: other_next,
            ended: other_ended,
        } = right;
        let shared = &self.table.shared;
        shared.join_seat::<Merge>(&mut seat, other);
        // that the sum is a share too, since no share is above the whole
        shared.load::<Weigh>(&mut seat, 0);
        BoardSeat {
            seat,
            share: share + more,
            next: later(next, other_next),
            ended: one_of(ended, other_ended),
        }
    }

    /// All packs, in order, each finished from its opening, in the vector that they came in: one
    /// that was put back and not resumed is finished here. The seat has the whole share, has ended,
    /// and has nothing in hand.
    pub fn close(self, seat: BoardSeat<T>) -> Vec<T>
        requires board { seat.board ≡ self.id }
        requires whole { (seat.share ≡ whole_share) × (seat.ended ≡ true) × (seat.hand ≡ []) }
        ensures finished { AllFinished T.finished self.opened result.items }
        ensures capacity { vec_capacity result ≡ self.room }
    {
        let opened = Snapshot::of(&self);
        let BoardSeat {
            seat,
            share: _,
            next: _,
            ended: _,
        } = seat;
        let Board {
            table,
            count: _,
            mut room,
        } = self;
        let mut closed = table.close_with(seat);
        take_all(&mut closed, &opened, &mut room);
        closed.free();
        room
    }
}
