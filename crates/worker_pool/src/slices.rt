// Threads that take parts from a board in slices, so that one on a slow processor keeps no part to
// itself.
ghost use Rattle.std.specs.Prelude.{◌≡◌, ◌<◌, ◌≤◌, ◌∷◌, [], ℕ, true, false, length};
ghost use mathlib.Core.Option.{some};
ghost use lib.ListN.{get_elem?};
ghost use Rattle.hand_board.specs.Placed.{IsUnderWay};
ghost use Rattle.worker_pool.specs.Parts.{AreReady, IsSameSeat, IsOnItsWay};

use crate::crew::Task;
use crate::gate::Gate;
use hand_board::{Board, BoardSeat, Job};
use std::hint::spin_loop;

/// How many instructions a slice has at most, some 38 microseconds.
pub const SLICE: u32 = 16_384;

// how often a thread looks at a board whose parts are all in other hands before it leaves it
const LOOKS: u32 = 20_000;

// runs the only part in the seat's hand some way on: it goes home at its end, or under way
fn go_on<T: Task>(board: &Board<T>, seat: &mut BoardSeat<T>, mut job: Job<T>)
    requires board { seat.old.board ≡ board.now.id }
    requires hand { seat.old.hand ≡ job.number ∷ [] }
    requires under_way { IsOnItsWay T.ready T.ends T.finished seat.old.opened job.number job.pack }
    ensures { seat.new ≡ record seat.old { hand = [] } }
{
    if job.pack_mut().go_on() {
        board.give(seat, job);
    } else {
        board.put_back(seat, job);
    }
}

// the first slice of the only part in the seat's hand, as the board opened
fn begin<T: Task, G: Gate>(board: &Board<T>, seat: &mut BoardSeat<T>, gate: &G, mut job: Job<T>)
    requires board { seat.old.board ≡ board.now.id }
    requires hand { seat.old.hand ≡ job.number ∷ [] }
    requires opened { get_elem? seat.old.opened job.number ≡ some job.pack }
    requires ready { AreReady T.ready seat.old.opened }
    ensures { seat.new ≡ record seat.old { hand = [] } }
{
    gate.pass(job.number());
    job.pack_mut().begin();
    go_on(board, seat, job);
}

// the first slice of a part that is drawn, or false where none is left
fn begin_drawn<T: Task, G: Gate>(board: &Board<T>, seat: &mut BoardSeat<T>, gate: &G) -> bool
    requires board { seat.old.board ≡ board.now.id }
    requires free { seat.old.hand ≡ [] }
    requires ready { AreReady T.ready seat.old.opened }
    ensures same { IsSameSeat seat.old seat.new }
    ensures free { seat.new.hand ≡ [] }
    ensures more { result ≡ true → (seat.old.next < seat.new.next)
        × (seat.new.next ≤ length board.now.opened) }
    ensures over { result ≡ false → seat.new.ended ≡ true }
{
    match board.draw(seat) {
        Some(job) => {
            begin(board, seat, gate, job);
            true
        }
        None => false,
    }
}

// the first slice of each of these numbers that nobody has begun
fn begin_between<T: Task, G: Gate>(
    board: &Board<T>,
    mut seat: BoardSeat<T>,
    gate: &G,
    from: u32,
    to: u32,
) -> BoardSeat<T>
    requires board { seat.board ≡ board.now.id }
    requires free { seat.hand ≡ [] }
    requires ready { AreReady T.ready seat.opened }
    requires numbers { to ≤ length board.now.opened }
    ensures same { IsSameSeat seat result }
    ensures free { result.hand ≡ [] }
{
    for number in from..to {
        if let Some(job) = board.claim(&mut seat, number) {
            begin(board, &mut seat, gate, job);
        }
    }
    seat
}

// one slice more of this number, where it lies at home under way, or false
fn resume<T: Task>(board: &Board<T>, seat: &mut BoardSeat<T>, number: u32) -> bool
    requires board { seat.old.board ≡ board.now.id }
    requires free { seat.old.hand ≡ [] }
    requires number { number < length board.now.opened }
    ensures same { IsSameSeat seat.old seat.new }
    ensures rest { (seat.new.hand ≡ []) × (seat.new.ended ≡ seat.old.ended) }
{
    match board.resume(seat, number) {
        Some(job) => {
            go_on(board, seat, job);
            true
        }
        None => false,
    }
}

// one slice more of each of these numbers that lies at home under way: whether there was one
fn resume_between<T: Task>(board: &Board<T>, seat: &mut BoardSeat<T>, from: u32, to: u32) -> bool
    requires board { seat.old.board ≡ board.now.id }
    requires free { seat.old.hand ≡ [] }
    requires numbers { to ≤ length board.now.opened }
    ensures same { IsSameSeat seat.old seat.new }
    ensures rest { (seat.new.hand ≡ []) × (seat.new.ended ≡ seat.old.ended) }
{
    let mut more = false;
    for number in from..to {
        more |= resume(board, seat, number);
    }
    more
}

// whether a part was in a hand at a look at all numbers
fn is_any_in_hand<T: Task>(board: &Board<T>) -> bool {
    for number in 0..board.count() {
        if board.was_in_hand(number) {
            return true;
        }
    }
    false
}

// slices of what lies at home under way, from this number on and then those before it. A thread
// that has run one looks on while parts are in other hands, since they come home after a slice.
fn resume_all<T: Task>(board: &Board<T>, mut seat: BoardSeat<T>, first: u32) -> BoardSeat<T>
    requires board { seat.board ≡ board.now.id }
    requires free { seat.hand ≡ [] }
    requires first { first ≤ length board.now.opened }
    ensures same { IsSameSeat seat result }
    ensures rest { (result.hand ≡ []) × (result.ended ≡ seat.ended) }
{
    let mut looks = 0;
    for _ in 0..u32::MAX {
        let later = resume_between(board, &mut seat, first, board.count());
        let earlier = resume_between(board, &mut seat, 0, first);
        if later || earlier {
            looks = LOOKS;
        } else if looks == 0 || !is_any_in_hand(board) {
            break;
        } else {
            looks -= 1;
            spin_loop();
        }
    }
    seat
}

/// Runs parts beside other threads until no part is left that nobody has begun, and none lies at
/// home under way. Each part goes home after every slice, so that whoever is free goes on with it.
pub fn share<T: Task, G: Gate>(board: &Board<T>, mut seat: BoardSeat<T>, gate: &G) -> BoardSeat<T>
    requires board { seat.board ≡ board.now.id }
    requires free { seat.hand ≡ [] }
    requires ready { AreReady T.ready seat.opened }
    ensures same { IsSameSeat seat result }
    ensures over { (result.ended ≡ true) × (result.hand ≡ []) }
{
    while begin_drawn(board, &mut seat, gate) {}
    resume_all(board, seat, 0)
}

/// The same, from this number on and then those before it. Whoever begins at the same number in
/// each call finds most often the parts that it ran before, which its processor still has at hand.
pub fn share_from<T: Task, G: Gate>(
    board: &Board<T>,
    seat: BoardSeat<T>,
    gate: &G,
    first: u32,
) -> BoardSeat<T>
    requires board { seat.board ≡ board.now.id }
    requires free { seat.hand ≡ [] }
    requires ready { AreReady T.ready seat.opened }
    ensures same { IsSameSeat seat result }
    ensures free { result.hand ≡ [] }
{
    let count = board.count();
    let first = first.min(count);
    let seat = begin_between(board, seat, gate, first, count);
    let seat = begin_between(board, seat, gate, 0, first);
    resume_all(board, seat, first)
}
