// A worker that stays: its thread, and how its order comes back.
ghost use Rattle.std.specs.Prelude.{◌≡◌, IfSome, IfNone, IfOk, IfErr};
ghost use Rattle.order_place.specs.Rule.{free, idle, lent};

use crate::place::{Place, PlaceSeat};
use crate::rule::Errand;
use std::alloc::Global;
use std::hint::spin_loop;
use std::snapshot::Snapshot;
use std::sync::Arc;
use std::thread;
use std::thread::{Promise, PromisedHandle, Threads};

/// How often a worker looks for an order before it ends: for about 100 microseconds.
const LOOKS: u32 = 16_000;

/// How often a caller looks for an order to come back before it sends the worker home.
const CALLS: u32 = 16_000;

/// Work that a worker can do.
pub trait Order: Errand {
    /// Does it.
    fn carry_out(self) -> Self
        ensures { (x : Self) → Self.same x self → Self.same x result };
}

/// The promise of a worker's thread: its seat comes back, with nothing in hand.
#[derive(Drop)]
pub struct GoesHome<T>(Snapshot<PlaceSeat<T>>);

impl<T> Promise<PlaceSeat<T>> for GoesHome<T> {
    ghost use Rattle.std.specs.Prelude.{◌≡◌};
    ghost use Rattle.order_place.specs.Rule.{idle};

    ghost kept_by = { λ p s. (s.table_id ≡ p.0.value.table_id) × (s.me ≡ idle) };
}

// an order is carried out, where one lies there
fn serve_one<T: Order>(place: &Place<T>, seat: &mut PlaceSeat<T>) -> bool
    requires place { seat.old.table_id ≡ place.now.table.shared.table_id }
    requires idle { seat.old.me ≡ idle }
    ensures place { seat.new.table_id ≡ seat.old.table_id }
    ensures idle { seat.new.me ≡ idle }
{
    match place.take(seat) {
        Some(order) => {
            place.put_back(seat, order.carry_out());
            true
        }
        None => false,
    }
}

// orders are carried out until none comes for a while, or the worker is told to leave
fn serve<T: Order>(place: &Place<T>, mut seat: PlaceSeat<T>) -> PlaceSeat<T>
    requires place { seat.table_id ≡ place.now.table.shared.table_id }
    requires idle { seat.me ≡ idle }
    ensures place { result.table_id ≡ seat.table_id }
    ensures idle { result.me ≡ idle }
{
    let mut looks = 0;
    for _ in 0..u32::MAX {
        if looks >= LOOKS || place.is_told() {
            break;
        }
        if serve_one(place, &mut seat) {
            looks = 0;
        } else {
            looks += 1;
            spin_loop();
        }
    }
    place.note_left();
    seat
}

// the caller's order, where it comes back within so many looks
fn look_for<T: Order>(place: &Place<T>, seat: &mut PlaceSeat<T>) -> Option<T>
    requires place { seat.old.table_id ≡ place.now.table.shared.table_id }
    requires lent { (x : T) × (seat.old.me ≡ lent x) }
    ensures place { seat.new.table_id ≡ seat.old.table_id }
    ensures some { IfSome result (λ z. (x : T) × (seat.old.me ≡ lent x) × T.same x z
        × (seat.new.me ≡ free)) }
    ensures none { IfNone result (seat.new.me ≡ seat.old.me) }
{
    if let Some(order) = place.recall(seat) {
        return Some(order);
    }
    for _ in 0..CALLS {
        if let Some(order) = place.fetch(seat) {
            return Some(order);
        }
        spin_loop();
    }
    None
}

/// A worker, as its caller sees it: the place where it gets its orders, the caller's seat there,
/// and its thread. One that is dropped ends by itself.
#[derive(Drop)]
pub struct Worker<T: Order> {
    place: Arc<Place<T>>,
    pub seat: PlaceSeat<T>,
    handle: PromisedHandle<PlaceSeat<T>, GoesHome<T>>,
    ghost tied: { (seat.table_id ≡ place.value.table.shared.table_id)
        × (handle.promise.0.value.table_id ≡ place.value.table.shared.table_id) },
}

// the worker's thread, at a place that it owns by count
fn work<T: Order + Drop>(place: Arc<Place<T>>, seat: PlaceSeat<T>) -> PlaceSeat<T>
    requires place { seat.table_id ≡ place.value.table.shared.table_id }
    requires idle { seat.me ≡ idle }
    ensures place { result.table_id ≡ seat.table_id }
    ensures idle { result.me ≡ idle }
{
    let at: &Place<T> = &place;
    serve(at, seat)
}

impl<T: Order + Drop + Send + 'static> Worker<T> {
    /// Starts a worker whose first order lies in its place before its thread begins. Err is want of
    /// memory, or of a thread, and hands the order back.
    pub fn start<R: Threads>(rt: &R, alloc: Global, order: T) -> Result<Worker<T>, T>
        requires same { T.same order order }
        ensures ok { IfOk result (λ w. w.seat.me ≡ lent order) }
        ensures err { IfErr result (λ x. T.same order x) }
    {
        let Some((place, mut seat, other)) = Place::<T>::new(alloc) else {
            return Err(order);
        };
        let Ok(place) = Arc::new(alloc, place) else {
            return Err(order);
        };
        let Ok(theirs) = Arc::try_clone(&place) else {
            return Err(order);
        };
        let at: &Place<T> = &place;
        at.lay(&mut seat, order);
        let promise = GoesHome(Snapshot::of(&other));
        match thread::spawn_with(rt, promise, move || work(theirs, other)) {
            Ok(handle) => Ok(Worker {
                place,
                seat,
                handle,
            }),
            Err(refused) => {
                // the thread's work is done here: it gives its seat back at once
                at.send_home();
                let other = (refused.value)();
                Err(at.settle(seat, other))
            }
        }
    }
}

impl<T: Order + Drop> Worker<T> {
    /// Hands the worker an order.
    pub fn give(&mut self, order: T)
        requires free { self.old.seat.me ≡ free }
        requires same { T.same order order }
        ensures { self.new.seat.me ≡ lent order }
    {
        let at: &Place<T> = &self.place;
        at.lay(&mut self.seat, order);
    }

    /// The order comes back: where no worker has taken it, or it is carried out within so many
    /// looks, at once, and the worker stays; else the worker is sent home, and has ended when this
    /// returns.
    pub fn bring_back<R: Threads>(self, rt: &R) -> (T, Option<Worker<T>>)
        requires { (x : T) × (self.seat.me ≡ lent x) }
        ensures order { (x : T) × (self.seat.me ≡ lent x) × T.same x result.0 }
        ensures worker { IfSome result.1 (λ w. w.seat.me ≡ free) }
    {
        let Worker {
            place,
            mut seat,
            handle,
        } = self;
        let at: &Place<T> = &place;
        match look_for(at, &mut seat) {
            Some(order) => (
                order,
                Some(Worker {
                    place,
                    seat,
                    handle,
                }),
            ),
            None => {
                at.send_home();
                let other = handle.join(rt);
                (at.settle(seat, other), None)
            }
        }
    }

    /// Whether the worker has noted that it leaves: it takes no more orders.
    pub fn has_left(&self) -> bool {
        self.place.has_left()
    }

    /// The worker, which has no order, is sent home, and has ended when this returns.
    pub fn dismiss<R: Threads>(self, rt: &R) {
        let Worker {
            place,
            seat: _,
            handle,
        } = self;
        place.send_home();
        handle.join(rt);
    }
}
