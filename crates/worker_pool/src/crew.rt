// Threads that take parts from a board until none is left.
ghost use Rattle.std.specs.Prelude.{◌≡◌, ◌<◌, ◌≤◌, ◌+◌, ◌*◌, ◌/◌, ◌-◌, ◌^◌, [], ◌∷◌, ℕ, All};
ghost use Rattle.std.specs.Prelude.{true, false, length, IfOk, IfErr, vec_len, vec_capacity};
ghost use mathlib.Core.Option.{some};
ghost use lib.ListN.{get_elem?};
ghost use Rattle.hand_board.specs.Placed.{IsUnderWay};
ghost use Rattle.hand_board.specs.Seating.{AllFinished};
ghost use Rattle.worker_pool.specs.Parts.{AreFifo, AreReady, IsSameSeat};
ghost use Rattle.worker_pool.specs.Crews.{CanWork, shares};

use crate::deques::{Bound, Owner, Thief, deques, search};
use crate::gate::Gate;
use hand_board::{Board, BoardSeat, Job, Part};
use std::alloc::Global;
use std::marker::Brand;
use std::thread;
use std::thread::Threads;

/// A part that can be run, whole or in slices.
pub trait Task: Part + Drop {
    /// Its run begins.
    fn begin(&mut self)
        requires { Self.ready self.old }
        ensures { IsUnderWay Self.ready Self.ends Self.finished self.old self.new };

    /// Runs it some way on: whether it is at its end.
    fn go_on(&mut self) -> bool
        requires { Self.ready self.old }
        ensures ends { result ≡ true → Self.ends self.old self.new }
        ensures more { result ≡ false
            → IsUnderWay Self.ready Self.ends Self.ends self.old self.new };
}

// runs the only part in the seat's hand, as the board opened, and gives it back
#[inline(always)]
fn finish<T: Task, G: Gate>(board: &Board<T>, seat: &mut BoardSeat<T>, gate: &G, mut job: Job<T>)
    requires board { seat.old.board ≡ board.now.id }
    requires hand { seat.old.hand ≡ job.number ∷ [] }
    requires opened { get_elem? seat.old.opened job.number ≡ some job.pack }
    requires ready { AreReady T.ready seat.old.opened }
    ensures { seat.new ≡ record seat.old { hand = [] } }
{
    gate.pass(job.number());
    job.pack_mut().begin();
    job.pack_mut().finish();
    board.give(seat, job);
}

// draws a part, runs it and gives it back, or false where none is left
#[inline(always)]
fn run_drawn<T: Task, G: Gate>(board: &Board<T>, seat: &mut BoardSeat<T>, gate: &G) -> bool
    requires board { seat.old.board ≡ board.now.id }
    requires free { seat.old.hand ≡ [] }
    requires ready { AreReady T.ready seat.old.opened }
    ensures same { IsSameSeat seat.old seat.new }
    ensures free { seat.new.hand ≡ [] }
    ensures more { result ≡ true → (seat.old.next < seat.new.next)
        × (seat.new.next ≤ length board.now.opened) }
    ensures over { result ≡ false → seat.new.ended ≡ true }
{
    match board.draw(seat) {
        Some(job) => {
            finish(board, seat, gate, job);
            true
        }
        None => false,
    }
}

// draws, runs and gives back until no part is left
fn draw_all<T: Task, G: Gate>(board: &Board<T>, seat: &mut BoardSeat<T>, gate: &G)
    requires board { seat.old.board ≡ board.now.id }
    requires free { seat.old.hand ≡ [] }
    requires ready { AreReady T.ready seat.old.opened }
    ensures same { IsSameSeat seat.old seat.new }
    ensures over { (seat.new.ended ≡ true) × (seat.new.hand ≡ []) }
{
    while run_drawn(board, seat, gate) {}
}

/// Draws, runs and gives back until no part is left.
pub fn sweep<T: Task, G: Gate>(board: &Board<T>, mut seat: BoardSeat<T>, gate: &G) -> BoardSeat<T>
    requires board { seat.board ≡ board.now.id }
    requires free { seat.hand ≡ [] }
    requires ready { AreReady T.ready seat.opened }
    ensures same { IsSameSeat seat result }
    ensures over { (result.ended ≡ true) × (result.hand ≡ []) }
{
    draw_all(board, &mut seat, gate);
    seat
}

// runs the part of one number that came from a deque, where nobody has begun it
fn run_one<T: Task, G: Gate>(board: &Board<T>, seat: &mut BoardSeat<T>, gate: &G, number: u32)
    requires board { seat.old.board ≡ board.now.id }
    requires free { seat.old.hand ≡ [] }
    requires ready { AreReady T.ready seat.old.opened }
    requires number { number < length board.now.opened }
    ensures same { IsSameSeat seat.old seat.new }
    ensures free { seat.new.hand ≡ [] }
{
    if let Some(job) = board.claim(seat, number) {
        finish(board, seat, gate, job);
    }
}

// what all workers of a call are lent
#[derive(Drop)]
struct Workshop<'a, B: Bound, T: Task, G> {
    board: &'a Board<T>,
    gate: &'a G,
    thieves: &'a [Thief<B>],
}

// a worker: its number, its seat at the board, and its own deque, where it has one
#[derive(Drop)]
struct Worker<B: Bound, T: Task> {
    number: u32,
    seat: BoardSeat<T>,
    own: Option<Owner<B>>,
}

// turns until one finds no number, and at most one more than there are parts
fn seek<B: Bound, T: Task, G: Gate>(shop: &Workshop<'_, B, T, G>, worker: &mut Worker<B, T>)
    requires { CanWork T.ready B.bound shop.now.board.now worker.old }
    ensures can { CanWork T.ready B.bound shop.now.board.now worker.new }
    ensures share { worker.new.seat.share ≡ worker.old.seat.share }
{
    for _ in 0..u64::from(shop.board.count()) + 1 {
        match search(&mut worker.own, shop.thieves, worker.number) {
            Some(number) => run_one(shop.board, &mut worker.seat, shop.gate, number),
            None => break,
        }
    }
}

// goes by the deques, or draws from the board where there are none
fn work<B: Bound, T: Task, G: Gate>(shop: &Workshop<'_, B, T, G>, worker: &mut Worker<B, T>)
    requires { CanWork T.ready B.bound shop.now.board.now worker.old }
    ensures can { CanWork T.ready B.bound shop.now.board.now worker.new }
    ensures share { worker.new.seat.share ≡ worker.old.seat.share }
{
    if shop.thieves.is_empty() {
        draw_all(shop.board, &mut worker.seat, shop.gate);
    } else {
        seek(shop, worker);
    }
}

// the seat that is left, and so many workers with a seat and the next deque each; where memory for
// them is wanting, nobody
fn hire<B: Bound, T: Task>(
    alloc: Global,
    board: &Board<T>,
    mut seat: BoardSeat<T>,
    owners: Vec<Owner<B>>,
    workers: u32,
) -> (BoardSeat<T>, Vec<Worker<B, T>>)
    requires board { seat.board ≡ board.now.id }
    requires free { seat.hand ≡ [] }
    requires ready { AreReady T.ready seat.opened }
    requires share { 2 ^ workers ≤ seat.share }
    requires bound { B.bound ≤ length board.now.opened }
    requires owners { AreFifo owners.items }
    ensures left { (result.0.board ≡ seat.board) × (result.0.opened ≡ seat.opened)
        × (result.0.hand ≡ []) }
    ensures can { All (CanWork T.ready B.bound board.now) result.1.items }
    ensures share { result.0.share + shares result.1.items ≡ seat.share }
{
    let Ok(mut crew) = Vec::with_capacity(alloc, workers as usize) else {
        return (seat, Vec::new(alloc));
    };
    let mut owners = owners.into_iter();
    for number in 0..workers {
        let (left, other) = board.split(seat);
        seat = left;
        crew.push_reserved(Worker {
            number,
            seat: other,
            own: owners.next(),
        });
    }
    (seat, crew)
}

// each worker of a crew works, in a thread of its own
fn work_each<B: Bound + Send + Sync, T: Task + Send + Sync, R: Threads + Sync, G: Gate + Sync>(
    rt: &R,
    shop: &Workshop<'_, B, T, G>,
    crew: &mut [Worker<B, T>],
)
    requires can { All (CanWork T.ready B.bound shop.now.board.now) crew.old }
    ensures can { All (CanWork T.ready B.bound shop.now.board.now) crew.new }
    ensures shares { shares crew.new ≡ shares crew.old }
{
    let threads = crew.len().max(1);
    let run = |_: usize, worker: &mut Worker<B, T>|
        requires { CanWork T.ready B.bound shop.now.board.now worker.now }
        ensures { CanWork T.ready B.bound shop.entry.now.board.now worker.exit.now
            × (worker.exit.now.seat.share ≡ worker.entry.now.seat.share) }
    { work(shop, worker) };
    thread::for_each_mut(rt, crew, threads, &run);
}

// the seat of a worker that goes
fn seat_of<B: Bound, T: Task>(worker: Worker<B, T>) -> BoardSeat<T>
    ensures { result ≡ worker.seat }
{
    worker.seat
}

// the one seat of all, when each worker's is joined with the one that was left
fn dismiss<B: Bound, T: Task>(
    board: &Board<T>,
    mut seat: BoardSeat<T>,
    mut crew: Vec<Worker<B, T>>,
) -> BoardSeat<T>
    requires board { seat.board ≡ board.now.id }
    requires free { seat.hand ≡ [] }
    requires can { All (CanWork T.ready B.bound board.now) crew.items }
    ensures same { (result.board ≡ seat.board) × (result.opened ≡ seat.opened) }
    ensures share { result.share ≡ seat.share + shares crew.items }
    ensures free { result.hand ≡ [] }
{
    while let Some(worker) = crew.pop() {
        seat = board.join(seat, seat_of(worker));
    }
    seat
}

// all workers, with so many deques, into which the numbers are dealt
fn work_all<B: Bound + Send + Sync, T: Task + Send + Sync, R: Threads + Sync, G: Gate + Sync>(
    rt: &R,
    alloc: Global,
    board: &Board<T>,
    seat: BoardSeat<T>,
    gate: &G,
    workers: u32,
    lanes: u32,
) -> BoardSeat<T>
    requires bound { B.bound ≡ length board.now.opened }
    requires board { seat.board ≡ board.now.id }
    requires free { seat.hand ≡ [] }
    requires ready { AreReady T.ready seat.opened }
    requires share { 2 ^ workers ≤ seat.share }
    ensures same { IsSameSeat seat result }
    ensures free { result.hand ≡ [] }
{
    let (owners, thieves) = deques::<B>(alloc, board.count(), lanes);
    let (left, mut crew) = hire(alloc, board, seat, owners, workers);
    let shop = Workshop {
        board,
        gate,
        thieves: thieves.as_slice(),
    };
    work_each(rt, &shop, crew.as_mut_slice());
    dismiss(board, left, crew)
}

/// Runs each part over a board, by `workers` threads, from 1 to 32, the caller's among them. Where
/// `lanes` is 0 they draw by search; else that many deques have the numbers, and they steal from
/// one another. In the end the caller draws what nobody has begun. Err is want of memory for the
/// board, and hands the parts back as they were.
pub(crate) fn run_each<T: Task + Send + Sync, R: Threads + Sync, G: Gate + Sync>(
    rt: &R,
    alloc: Global,
    parts: Vec<T>,
    gate: &G,
    workers: u32,
    lanes: u32,
) -> Result<Vec<T>, Vec<T>>
    requires count { vec_len parts < 2 ^ 32 }
    requires workers { (0 < workers) × (workers ≤ 32) }
    requires ready { AreReady T.ready parts.items }
    ensures ok { IfOk result (λ v. AllFinished T.finished parts.items v.items
        × (vec_capacity v ≡ vec_capacity parts)) }
    ensures err { IfErr result
        (λ v. (v.items ≡ parts.items) × (vec_capacity v ≡ vec_capacity parts)) }
{
    let (board, seat) = Board::new(alloc, parts)?;
    let seat = work_all::<Brand, T, R, G>(rt, alloc, &board, seat, gate, workers, lanes);
    let seat = sweep(&board, seat, gate);
    Ok(board.close(seat))
}
