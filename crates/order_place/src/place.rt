// The place, and what the two seats do at it.
ghost use Rattle.std.specs.Prelude.{◌≡◌, ◌≢◌, ◌∷◌, [], ◌≤◌, ◌<◌, Some, None, IfSome, IfNone};
ghost use Rattle.atomic_table.specs.Table.{rest};
ghost use Rattle.order_place.specs.Rule.{busy, free, idle, lent};

use crate::rule::{
    Divide, Errand, Fetch, Knows, Lay, OneOrder, Open, PutBack, Settle, Take, Unite,
};
use atomic_table::{Seat, Shared, Table};
use std::alloc::Global;
use std::sync::atomic::{AtomicU64, Ordering};

/// An end of a place: the caller's or the worker's.
pub type PlaceSeat<T> = Seat<Option<T>, Knows<T>>;

type PlaceTable<T> = Table<Option<T>, Knows<T>, u64, OneOrder<T>, Global>;

type PlaceWords<T> = Shared<Option<T>, Knows<T>, u64, OneOrder<T>>;

// what the flag says: the worker is to stay; it is to leave; it has left
const STAYS: u64 = 0;

const TOLD: u64 = 1;

const LEFT: u64 = 2;

/// A place for one order, and a flag that tells the worker to leave.
#[derive(Drop)]
pub struct Place<T: Errand> {
    pub table: PlaceTable<T>,
    flag: AtomicU64,
    ghost sized: { (table.shared.table_id.words ≡ 1) × (table.shared.table_id.slots ≡ 1) },
}

// an order goes into the slot that the seat holds, which is empty
fn put<T: Errand>(shared: &PlaceWords<T>, seat: &mut PlaceSeat<T>, order: T)
    requires table { seat.old.table_id ≡ shared.now.table_id }
    requires empty { seat.old.me.1 ≡ (0, None) ∷ rest seat.old.me.1 }
    ensures table { seat.new.table_id ≡ seat.old.table_id }
    ensures seat { seat.new.me ≡ (seat.old.me.0, (0, Some order) ∷ rest seat.old.me.1) }
{
    match shared.exchange(seat, 0, Some(order)) {
        None => {}
        Some(_) => unreachable!(),
    }
}

// the order in the slot that the seat holds
fn lift<T: Errand>(shared: &PlaceWords<T>, seat: &mut PlaceSeat<T>) -> T
    requires table { seat.old.table_id ≡ shared.now.table_id }
    requires full { (x : T) × (seat.old.me.1 ≡ (0, Some x) ∷ rest seat.old.me.1) }
    ensures table { seat.new.table_id ≡ seat.old.table_id }
    ensures order { seat.old.me.1 ≡ (0, Some result) ∷ rest seat.old.me.1 }
    ensures seat { seat.new.me ≡ (seat.old.me.0, (0, None) ∷ rest seat.old.me.1) }
{
    match shared.exchange(seat, 0, None) {
        Some(order) => order,
        None => unreachable!(),
    }
}

impl<T: Errand> Place<T> {
    /// A place with no order, the caller's seat and the worker's. None is want of memory; no other
    /// call takes memory.
    pub fn new(alloc: Global) -> Option<(Place<T>, PlaceSeat<T>, PlaceSeat<T>)>
        ensures place { IfSome result (λ r. (r.1.table_id ≡ r.0.table.shared.table_id)
            × (r.2.table_id ≡ r.0.table.shared.table_id)) }
        ensures seats { IfSome result (λ r. (r.1.me ≡ free) × (r.2.me ≡ idle)) }
    {
        let Ok((table, mut seat)) = PlaceTable::<T>::vacant(alloc, &[0], 1, &0) else {
            return None;
        };
        table.shared.load::<Open>(&mut seat, 0);
        let other = table.shared.split_seat::<Divide>(&mut seat);
        let place = Place {
            table,
            flag: AtomicU64::new(STAYS),
        };
        Some((place, seat, other))
    }

    /// The caller lays an order.
    pub fn lay(&self, seat: &mut PlaceSeat<T>, order: T)
        requires place { seat.old.table_id ≡ self.now.table.shared.table_id }
        requires free { seat.old.me ≡ free }
        requires same { T.same order order }
        ensures place { seat.new.table_id ≡ seat.old.table_id }
        ensures lent { seat.new.me ≡ lent order }
    {
        let shared = &self.table.shared;
        put(shared, seat, order);
        shared.store::<Lay>(seat, 0, 1);
    }

    /// The worker takes the order that lies there, where one does.
    pub fn take(&self, seat: &mut PlaceSeat<T>) -> Option<T>
        requires place { seat.old.table_id ≡ self.now.table.shared.table_id }
        requires idle { seat.old.me ≡ idle }
        ensures place { seat.new.table_id ≡ seat.old.table_id }
        ensures some { IfSome result (λ y. seat.new.me ≡ busy y) }
        ensures none { IfNone result (seat.new.me ≡ idle) }
    {
        let shared = &self.table.shared;
        if shared.peek(0) != 1 {
            return None;
        }
        let found = shared.compare_exchange::<Take>(seat, 0, 1, 2);
        if found != 1 {
            return None;
        }
        Some(lift(shared, seat))
    }

    /// The worker puts the order back.
    pub fn put_back(&self, seat: &mut PlaceSeat<T>, order: T)
        requires place { seat.old.table_id ≡ self.now.table.shared.table_id }
        requires busy { (y : T) × (seat.old.me ≡ busy y)
            × ((x : T) → T.same x y → T.same x order) }
        ensures place { seat.new.table_id ≡ seat.old.table_id }
        ensures idle { seat.new.me ≡ idle }
    {
        let shared = &self.table.shared;
        put(shared, seat, order);
        shared.store::<PutBack>(seat, 0, 3);
    }

    // the caller's order, where the word is this one
    fn fetch_at(&self, seat: &mut PlaceSeat<T>, word: u64) -> Option<T>
        requires place { seat.old.table_id ≡ self.now.table.shared.table_id }
        requires lent { (x : T) × (seat.old.me ≡ lent x) }
        requires word { (word ≢ 0) × (word ≢ 2) }
        ensures place { seat.new.table_id ≡ seat.old.table_id }
        ensures some { IfSome result (λ z. (x : T) × (seat.old.me ≡ lent x) × T.same x z
            × (seat.new.me ≡ free)) }
        ensures none { IfNone result (seat.new.me ≡ seat.old.me) }
    {
        let shared = &self.table.shared;
        if shared.peek(0) != word {
            return None;
        }
        let found = shared.compare_exchange::<Fetch<T>>(seat, 0, word, 0);
        if found != word {
            return None;
        }
        Some(lift(shared, seat))
    }

    /// The caller's order, where it was carried out.
    pub fn fetch(&self, seat: &mut PlaceSeat<T>) -> Option<T>
        requires place { seat.old.table_id ≡ self.now.table.shared.table_id }
        requires lent { (x : T) × (seat.old.me ≡ lent x) }
        ensures place { seat.new.table_id ≡ seat.old.table_id }
        ensures some { IfSome result (λ z. (x : T) × (seat.old.me ≡ lent x) × T.same x z
            × (seat.new.me ≡ free)) }
        ensures none { IfNone result (seat.new.me ≡ seat.old.me) }
    {
        self.fetch_at(seat, 3)
    }

    /// The caller's order, where no worker has taken it.
    pub fn recall(&self, seat: &mut PlaceSeat<T>) -> Option<T>
        requires place { seat.old.table_id ≡ self.now.table.shared.table_id }
        requires lent { (x : T) × (seat.old.me ≡ lent x) }
        ensures place { seat.new.table_id ≡ seat.old.table_id }
        ensures some { IfSome result (λ z. (x : T) × (seat.old.me ≡ lent x) × T.same x z
            × (seat.new.me ≡ free)) }
        ensures none { IfNone result (seat.new.me ≡ seat.old.me) }
    {
        self.fetch_at(seat, 1)
    }

    /// The caller's order, with both seats: the worker has ended.
    pub fn settle(&self, mut seat: PlaceSeat<T>, other: PlaceSeat<T>) -> T
        requires place { seat.table_id ≡ self.now.table.shared.table_id }
        requires other { other.table_id ≡ self.now.table.shared.table_id }
        requires lent { (x : T) × (seat.me ≡ lent x) }
        requires idle { other.me ≡ idle }
        ensures { (x : T) × (seat.me ≡ lent x) × T.same x result }
    {
        let shared = &self.table.shared;
        shared.join_seat::<Unite>(&mut seat, other);
        shared.swap::<Settle<T>>(&mut seat, 0, 0);
        lift(shared, &mut seat)
    }

    /// The worker is told to leave, once it has put its order back.
    pub fn send_home(&self) {
        self.flag.store(TOLD, Ordering::SeqCst);
    }

    /// Whether the worker is told to leave.
    pub fn is_told(&self) -> bool {
        self.flag.load(Ordering::SeqCst) == TOLD
    }

    /// The worker notes that it leaves.
    pub fn note_left(&self) {
        self.flag.store(LEFT, Ordering::SeqCst);
    }

    /// Whether the worker has noted that it leaves.
    pub fn has_left(&self) -> bool {
        self.flag.load(Ordering::SeqCst) == LEFT
    }
}
