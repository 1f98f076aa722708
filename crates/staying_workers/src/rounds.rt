// One call's packs, over a board at which workers are lent a seat.
ghost use Rattle.std.specs.Prelude.{◌≡◌, ◌+◌, ◌<◌, ◌≤◌, ◌^◌, [], true, All, sum_by, IfOk, IfErr};
ghost use Rattle.std.specs.Prelude.{IfSome, IfNone};
ghost use Rattle.std.specs.Prelude.{vec_len, vec_capacity};
ghost use Rattle.hand_board.specs.Placed.{whole_share};
ghost use Rattle.hand_board.specs.Seating.{AllFinished};
ghost use Rattle.order_place.specs.Rule.{free, lent};
ghost use Rattle.worker_pool.specs.Parts.{AreReady, IsSameSeat};
ghost use Rattle.staying_workers.specs.Lending.{IsHeldFinished, MayRunHeld};
ghost use Rattle.staying_workers.specs.Busy.{IsWorkerAt, share_out};

use crate::held::Held;
use crate::orders::PackOrder;
use counted_loans::{Lender, Loan};
use hand_board::{Board, BoardSeat};
use order_place::Worker;
use std::alloc::Global;
use std::sync::Arc;
use std::thread::Threads;
use worker_pool::{Gate, share, sweep};

/// No more threads run packs than this, the caller's among them.
pub(crate) const MOST: usize = 32;

/// A worker with no order.
#[derive(Drop)]
pub(crate) struct Idle<G: Gate> {
    pub(crate) worker: Worker<PackOrder<G>>,
    ghost free: { worker.seat.me ≡ free },
}

// a worker that stays has this order now
fn given<G: Gate + Drop>(idle: Idle<G>, order: PackOrder<G>) -> Worker<PackOrder<G>>
    ensures { result.seat.me ≡ lent order }
{
    let Idle { mut worker } = idle;
    worker.give(order);
    worker
}

// how many numbers apart the caller and so many workers begin
fn apart(packs: u32, workers: usize) -> u32 {
    packs / (workers.min(MOST) as u32 + 1)
}

// an order with half of the seat
fn halved<G: Gate>(
    at: &Board<Held>,
    board: Loan<Board<Held>>,
    seat: BoardSeat<Held>,
    gate: Arc<G, Global>,
    first: u32,
) -> (BoardSeat<Held>, PackOrder<G>)
    requires board { seat.board ≡ at.now.id }
    requires same { board.value ≡ at.now }
    requires fresh { seat.hand ≡ [] }
    requires ready { AreReady MayRunHeld seat.opened }
    requires share { 2 ≤ seat.share }
    ensures seat { (result.0.board ≡ seat.board) × (result.0.opened ≡ seat.opened)
        × (result.0.hand ≡ []) }
    ensures order { (result.1.seat.board ≡ seat.board) × (result.1.seat.opened ≡ seat.opened)
        × (result.1.board ≡ board) }
    ensures share { result.0.share + result.1.seat.share ≡ seat.share }
{
    let (ours, other) = at.split(seat);
    let order = PackOrder {
        board,
        seat: other,
        gate,
        first,
    };
    (ours, order)
}

// The next worker that stays has this order, or one that is started with it; one that has left is
// joined. Err is want of memory, or of a thread.
fn sent<R: Threads, G: Gate + Send + Sync + Drop + 'static>(
    rt: &R,
    alloc: Global,
    idle: &mut Vec<Idle<G>>,
    order: PackOrder<G>,
) -> Result<Worker<PackOrder<G>>, PackOrder<G>>
    ensures ok { IfOk result (λ w. w.seat.me ≡ lent order) }
    ensures err { IfErr result (λ x. IsSameSeat order.seat x.seat × (x.board ≡ order.board)) }
{
    let Some(next) = idle.pop() else {
        return Worker::start(rt, alloc, order);
    };
    if !next.worker.has_left() {
        return Ok(given(next, order));
    }
    let Idle { worker } = next;
    worker.dismiss(rt);
    Worker::start(rt, alloc, order)
}

/// These have ended when this returns.
pub(crate) fn dismiss_all<R: Threads, G: Gate + Drop>(rt: &R, mut idle: Vec<Idle<G>>) {
    while let Some(next) = idle.pop() {
        let Idle { worker } = next;
        worker.dismiss(rt);
    }
}

// half of the seat is sent as an order, where there is a worker for it; else all comes back
fn send_one<R: Threads, G: Gate + Send + Sync + Drop + 'static>(
    rt: &R,
    alloc: Global,
    at: &Board<Held>,
    lender: Lender<Board<Held>, Global>,
    seat: BoardSeat<Held>,
    gate: Arc<G, Global>,
    idle: &mut Vec<Idle<G>>,
    first: u32,
) -> (
    Lender<Board<Held>, Global>,
    BoardSeat<Held>,
    Option<Worker<PackOrder<G>>>,
)
    requires lender { (lender.value ≡ at.now) × (lender.out < 2 ^ 62) }
    requires board { seat.board ≡ at.now.id }
    requires fresh { seat.hand ≡ [] }
    requires ready { AreReady MayRunHeld seat.opened }
    requires share { 2 ≤ seat.share }
    ensures lender { (result.0.value ≡ lender.value) × (result.0.term ≡ lender.term) }
    ensures seat { (result.1.board ≡ seat.board) × (result.1.opened ≡ seat.opened)
        × (result.1.hand ≡ []) }
    ensures some { IfSome result.2 (λ w. IsWorkerAt lender.term seat.board seat.opened w
        × (result.1.share + share_out w ≡ seat.share) × (result.0.out ≡ lender.out + 1)) }
    ensures none { IfNone result.2
        ((result.1.share ≡ seat.share) × (result.0.out ≡ lender.out)) }
{
    let (lender, board) = lender.lend();
    let (ours, order) = halved(at, board, seat, gate, first);
    match sent(rt, alloc, idle, order) {
        Ok(worker) => (lender, ours, Some(worker)),
        Err(order) => {
            let (lender, other) = taken_apart(lender, order);
            (lender, at.join(ours, other), None)
        }
    }
}

// an order for each of so many workers
fn send_all<R: Threads, G: Gate + Send + Sync + Drop + 'static>(
    rt: &R,
    alloc: Global,
    at: &Board<Held>,
    mut lender: Lender<Board<Held>, Global>,
    mut seat: BoardSeat<Held>,
    gate: &Arc<G, Global>,
    idle: &mut Vec<Idle<G>>,
    others: usize,
    busy: &mut Vec<Worker<PackOrder<G>>>,
) -> (Lender<Board<Held>, Global>, BoardSeat<Held>)
    requires lender { (lender.value ≡ at.now) × (lender.out ≡ 1) }
    requires board { seat.board ≡ at.now.id }
    requires fresh { seat.hand ≡ [] }
    requires ready { AreReady MayRunHeld seat.opened }
    requires room { (vec_len busy.old ≡ 0) × (others ≤ vec_capacity busy.old) }
    requires few { others < 2 ^ 32 }
    ensures lender { (result.0.value ≡ lender.value) × (result.0.term ≡ lender.term)
        × (result.0.out ≡ vec_len busy.new + 1) }
    ensures few { vec_len busy.new < 2 ^ 32 }
    ensures seat { (result.1.board ≡ seat.board) × (result.1.opened ≡ seat.opened)
        × (result.1.hand ≡ []) }
    ensures busy { All (IsWorkerAt lender.term seat.board seat.opened) busy.new.items }
    ensures shares { result.1.share + sum_by share_out busy.new.items ≡ seat.share }
{
    let step = apart(at.count(), others);
    let mut first = 0u32;
    for _sent in 0..others {
        let Ok(door) = Arc::try_clone(gate) else {
            break;
        };
        if seat.share() < 2 {
            break;
        }
        first = first.saturating_add(step);
        let (left, ours, worker) = send_one(rt, alloc, at, lender, seat, door, idle, first);
        lender = left;
        seat = ours;
        let Some(worker) = worker else {
            break;
        };
        busy.push_reserved(worker);
    }
    (lender, seat)
}

// the seat of an order, and its loan
fn taken_apart<G: Gate + Drop>(
    lender: Lender<Board<Held>, Global>,
    order: PackOrder<G>,
) -> (Lender<Board<Held>, Global>, BoardSeat<Held>)
    requires term { order.board.term ≡ lender.term }
    requires out { (0 < lender.out) × (lender.out < 2 ^ 63) }
    ensures lender { (result.0.value ≡ lender.value) × (result.0.term ≡ lender.term)
        × (result.0.out + 1 ≡ lender.out) }
    ensures seat { result.1 ≡ order.seat }
{
    let PackOrder {
        board,
        seat,
        gate: _,
        first: _,
    } = order;
    (lender.take_back(board), seat)
}

// the seat of a worker's order, and its loan; the worker, where it stays, is idle again
fn bring_back<R: Threads, G: Gate + Drop>(
    rt: &R,
    worker: Worker<PackOrder<G>>,
    at: &Board<Held>,
    lender: Lender<Board<Held>, Global>,
    opened: &BoardSeat<Held>,
    idle: &mut Vec<Idle<G>>,
) -> (Lender<Board<Held>, Global>, BoardSeat<Held>)
    requires at { IsWorkerAt lender.term at.now.id opened.now.opened worker }
    requires out { (0 < lender.out) × (lender.out < 2 ^ 63) }
    ensures lender { (result.0.value ≡ lender.value) × (result.0.term ≡ lender.term)
        × (result.0.out + 1 ≡ lender.out) }
    ensures seat { (result.1.board ≡ at.now.id) × (result.1.hand ≡ []) }
    ensures share { result.1.share ≡ share_out worker }
{
    let (order, back) = worker.bring_back(rt);
    if let Some(worker) = back {
        let _ = idle.push(Idle { worker });
    }
    taken_apart(lender, order)
}

// All seats come back, and all loans but the caller's.
fn gather<R: Threads, G: Gate + Drop>(
    rt: &R,
    at: &Board<Held>,
    mut lender: Lender<Board<Held>, Global>,
    mut seat: BoardSeat<Held>,
    mut busy: Vec<Worker<PackOrder<G>>>,
    idle: &mut Vec<Idle<G>>,
) -> (Lender<Board<Held>, Global>, BoardSeat<Held>)
    requires board { seat.board ≡ at.now.id }
    requires seat { (seat.hand ≡ []) × (seat.ended ≡ true) }
    requires busy { All (IsWorkerAt lender.term seat.board seat.opened) busy.items }
    requires out { (lender.out ≡ vec_len busy + 1) × (vec_len busy < 2 ^ 32) }
    ensures lender { (result.0.value ≡ lender.value) × (result.0.term ≡ lender.term)
        × (result.0.out ≡ 1) }
    ensures seat { (result.1.board ≡ seat.board) × (result.1.hand ≡ [])
        × (result.1.ended ≡ true) }
    ensures share { result.1.share ≡ seat.share + sum_by share_out busy.items }
{
    while let Some(worker) = busy.pop() {
        let (rest, other) = bring_back(rt, worker, at, lender, &seat, idle);
        lender = rest;
        seat = at.join(seat, other);
    }
    (lender, seat)
}

// by the caller and the workers
fn run_board<R: Threads, G: Gate + Send + Sync + Drop + 'static>(
    rt: &R,
    alloc: Global,
    lender: Lender<Board<Held>, Global>,
    seat: BoardSeat<Held>,
    gate: &Arc<G, Global>,
    idle: &mut Vec<Idle<G>>,
    others: usize,
    mut busy: Vec<Worker<PackOrder<G>>>,
) -> Vec<Held>
    requires lender { lender.out ≡ 0 }
    requires board { seat.board ≡ lender.value.id }
    requires fresh { seat.hand ≡ [] }
    requires whole { seat.share ≡ whole_share }
    requires opened { seat.opened ≡ lender.value.opened }
    requires ready { AreReady MayRunHeld seat.opened }
    requires room { (vec_len busy ≡ 0) × (others ≤ vec_capacity busy) }
    requires few { others < 2 ^ 32 }
    ensures finished { AllFinished IsHeldFinished lender.value.opened result.items }
    ensures capacity { vec_capacity result ≡ lender.value.room }
{
    let (lender, mine) = lender.lend();
    let at = mine.get();
    let (lender, seat) = send_all(rt, alloc, at, lender, seat, gate, idle, others, &mut busy);
    let door: &G = gate;
    let seat = share(at, seat, door);
    let (lender, seat) = gather(rt, at, lender, seat, busy, idle);
    let lender = lender.take_back(mine);
    let board = Box::into_inner(lender.into_box());
    board.close(seat)
}

// by the caller alone
fn run_swept<G: Gate>(board: Board<Held>, seat: BoardSeat<Held>, gate: &G) -> Vec<Held>
    requires board { seat.board ≡ board.id }
    requires fresh { seat.hand ≡ [] }
    requires whole { seat.share ≡ whole_share }
    requires opened { seat.opened ≡ board.opened }
    requires ready { AreReady MayRunHeld seat.opened }
    ensures finished { AllFinished IsHeldFinished board.opened result.items }
    ensures capacity { vec_capacity result ≡ board.room }
{
    let seat = sweep(&board, seat, gate);
    board.close(seat)
}

/// Runs each part over a board, by the caller and by so many workers. Err is want of memory for the
/// board, and hands the parts back as they were.
pub(crate) fn run_each<R: Threads, G: Gate + Send + Sync + Drop + 'static>(
    rt: &R,
    alloc: Global,
    parts: Vec<Held>,
    gate: &Arc<G, Global>,
    idle: &mut Vec<Idle<G>>,
    others: usize,
) -> Result<Vec<Held>, Vec<Held>>
    requires count { vec_len parts < 2 ^ 32 }
    requires ready { AreReady MayRunHeld parts.items }
    requires few { others < 2 ^ 32 }
    ensures ok { IfOk result (λ v. AllFinished IsHeldFinished parts.items v.items
        × (vec_capacity v ≡ vec_capacity parts)) }
    ensures err { IfErr result
        (λ v. (v.items ≡ parts.items) × (vec_capacity v ≡ vec_capacity parts)) }
{
    let Ok(busy) = Vec::with_capacity(alloc, others) else {
        return Err(parts);
    };
    let (board, seat) = Board::new(alloc, parts)?;
    match Box::new(alloc, board) {
        Ok(board) => {
            let lender = Lender::new(board);
            Ok(run_board(rt, alloc, lender, seat, gate, idle, others, busy))
        }
        Err(failed) => {
            let door: &G = gate;
            Ok(run_swept(failed.value, seat, door))
        }
    }
}
