// The board by hand, with one seat or two in one thread.
ghost use Rattle.std.specs.Prelude.{◌≡◌, ◌<◌, ◌^◌, ◌∷◌, [], false, length, vec_len, IfOk};
ghost use Rattle.std.specs.Prelude.{true};
ghost use mathlib.Core.Option.{some};
ghost use lib.ListN.{get_elem?};
ghost use Rattle.hand_board.specs.Placed.{times, without, whole_share};
ghost use Rattle.pool_tests.specs.Hands.{IsAt};

use hand_board::{Board, BoardSeat, Job, Part};
use std::alloc::{AllocError, Global};
use std::process::Abort;

#[derive(Drop)]
struct Number {
    value: u32,
}

impl Part for Number {
    ghost use Rattle.std.specs.Prelude.{ℕ, ◌≤◌};

    ghost ready = { λ _. Unit {0} };

    ghost ends = { λ x y. x.value ≤ y.value };

    ghost finished = { λ x y. x.value ≤ y.value };

    // ten more, so that a test sees which numbers were worked on
    fn finish(&mut self) {
        self.value = self.value.saturating_add(10);
    }
}

// 1, 2 and 3
fn numbers(alloc: Global) -> Result<Vec<Number>, AllocError>
    ensures { IfOk result (λ v. vec_len v ≡ 3) }
{
    let mut numbers = Vec::new(alloc);
    numbers.push(Number { value: 1 })?;
    numbers.push(Number { value: 2 })?;
    numbers.push(Number { value: 3 })?;
    Ok(numbers)
}

// A board of these, and its first seat.
fn opened(rt: &impl Abort, alloc: Global, packs: Vec<Number>) -> (Board<Number>, BoardSeat<Number>)
    requires { vec_len packs < 2 ^ 32 }
    ensures seat { result.1
        ≡ record {
          board = result.0.id;
          opened = packs.items;
          share = whole_share;
          found = [];
          hand = [];
          next = 0;
          ended = false;
        } }
    ensures board { result.0.opened ≡ packs.items }
{
    match Board::new(alloc, packs) {
        Ok(pair) => pair,
        Err(_) => rt.panic("memory"),
    }
}

// A board of three, and two seats with nothing in hand.
fn two_seats(
    rt: &impl Abort,
    alloc: Global,
) -> (Board<Number>, (BoardSeat<Number>, BoardSeat<Number>))
    ensures count { length result.0.opened ≡ 3 }
    ensures left { IsAt result.0 result.1.0 [] }
    ensures right { IsAt result.0 result.1.1 [] }
{
    let packs = numbers(alloc).expect(rt, "memory");
    let (board, seat) = opened(rt, alloc, packs);
    let seats = board.split(seat);
    (board, seats)
}

// The pack of this number is drawn.
fn draw(
    rt: &impl Abort,
    board: &Board<Number>,
    seat: &mut BoardSeat<Number>,
    number: u32,
) -> Job<Number>
    requires at { IsAt board.now seat.old seat.old.hand }
    ensures at { IsAt board.now seat.new (number ∷ seat.old.hand) }
    ensures number { result.number ≡ number }
    ensures pack { get_elem? board.now.opened number ≡ some result.pack }
{
    let job = board.draw(seat).expect(rt, "a pack that is drawn");
    assert_eq!(rt; job.number(), number);
    job
}

// There is no pack to draw.
fn draw_none(rt: &impl Abort, board: &Board<Number>, seat: &mut BoardSeat<Number>)
    requires at { IsAt board.now seat.old seat.old.hand }
    ensures at { IsAt board.now seat.new seat.old.hand }
    ensures share { seat.new.share ≡ seat.old.share }
    ensures ended { seat.new.ended ≡ true }
{
    assert!(rt; board.draw(seat).is_none());
}

// A pack goes home as it was drawn.
fn give(board: &Board<Number>, seat: &mut BoardSeat<Number>, job: Job<Number>)
    requires at { IsAt board.now seat.old seat.old.hand }
    requires hand { 0 < times job.number seat.old.hand }
    requires pack { get_elem? board.now.opened job.number ≡ some job.pack }
    ensures { IsAt board.now seat.new (without job.number seat.old.hand) }
{
    board.give(seat, job);
}

// Or it goes home under way.
fn put_back(board: &Board<Number>, seat: &mut BoardSeat<Number>, job: Job<Number>)
    requires at { IsAt board.now seat.old seat.old.hand }
    requires hand { 0 < times job.number seat.old.hand }
    requires pack { get_elem? board.now.opened job.number ≡ some job.pack }
    ensures { IsAt board.now seat.new (without job.number seat.old.hand) }
{
    board.put_back(seat, job);
}

// Whether the seat claims the pack of this number, which is lost then.
fn check_claimed(
    rt: &impl Abort,
    board: &Board<Number>,
    seat: &mut BoardSeat<Number>,
    number: u32,
    wanted: bool,
)
    requires board { seat.old.board ≡ board.now.id }
    requires number { number < length board.now.opened }
    ensures { seat.new.board ≡ seat.old.board }
{
    assert_eq!(rt; board.claim(seat, number).is_some(), wanted);
}

// The pack of this number isn't under way.
fn resume_none(rt: &impl Abort, board: &Board<Number>, seat: &mut BoardSeat<Number>, number: u32)
    requires at { IsAt board.now seat.old seat.old.hand }
    requires number { number < length board.now.opened }
    ensures { IsAt board.now seat.new seat.old.hand }
{
    assert!(rt; board.resume(seat, number).is_none());
}

// The first pack is resumed, finished and given.
fn finish_first(rt: &impl Abort, board: &Board<Number>, seat: &mut BoardSeat<Number>)
    requires at { IsAt board.now seat.old [] }
    requires some { 0 < length board.now.opened }
    ensures { IsAt board.now seat.new [] }
{
    let mut job = board.resume(seat, 0).expect(rt, "a pack that is resumed");
    job.pack_mut().finish();
    board.give(seat, job);
}

// Whether the first pack and the last are in a hand.
fn check_in_hand(rt: &impl Abort, board: &Board<Number>, wanted: bool)
    requires { length board.now.opened ≡ 3 }
{
    assert_eq!(rt;
        (board.was_in_hand(0), board.was_in_hand(2)),
        (wanted, wanted)
    );
}

fn check_value(rt: &impl Abort, value: u32, wanted: u32) {
    assert_eq!(rt; value, wanted);
}

fn check_values(rt: &impl Abort, packs: &[Number], wanted: &[u32]) {
    assert_eq!(rt; packs.len(), wanted.len());
    for (pack, want) in packs.iter().zip(wanted) {
        check_value(rt, pack.value, *want);
    }
}

// The seats are joined, and the board is closed.
fn check_closed(
    rt: &impl Abort,
    board: Board<Number>,
    left: BoardSeat<Number>,
    right: BoardSeat<Number>,
    wanted: [u32; 3],
)
    requires left { IsAt board left [] }
    requires right { IsAt board right [] }
{
    let seat = board.join(left, right);
    assert!(rt; seat.is_ended());
    assert_eq!(rt; seat.share(), 1 << 32);
    let packs = board.close(seat);
    check_values(rt, &packs, &wanted);
}

#[test]
fn two_seats_draw_three_packs(rt: HostRuntime) {
    let (board, (mut left, mut right)) = two_seats(&rt, rt.alloc());
    let zero = draw(&rt, &board, &mut left, 0);
    let one = draw(&rt, &board, &mut right, 1);
    let two = draw(&rt, &board, &mut left, 2);
    draw_none(&rt, &board, &mut right);
    // two in one hand go home in another order
    give(&board, &mut left, two);
    give(&board, &mut right, one);
    give(&board, &mut left, zero);
    check_closed(&rt, board, left, right, [1, 2, 3]);
}

#[test]
fn a_number_in_hand_is_not_claimed(rt: HostRuntime) {
    let (board, (mut left, mut right)) = two_seats(&rt, rt.alloc());
    check_claimed(&rt, &board, &mut left, 1, true);
    check_claimed(&rt, &board, &mut right, 1, false);
    check_claimed(&rt, &board, &mut left, 1, false);
    drop(board);
    drop(left);
    drop(right);
}

#[test]
fn a_pack_put_back_is_resumed_or_finished_at_the_close(rt: HostRuntime) {
    let (board, (mut left, mut right)) = two_seats(&rt, rt.alloc());
    resume_none(&rt, &board, &mut right, 0);
    let zero = draw(&rt, &board, &mut left, 0);
    let one = draw(&rt, &board, &mut left, 1);
    let two = draw(&rt, &board, &mut left, 2);
    draw_none(&rt, &board, &mut left);
    resume_none(&rt, &board, &mut right, 0);
    check_in_hand(&rt, &board, true);
    put_back(&board, &mut left, zero);
    put_back(&board, &mut left, one);
    give(&board, &mut left, two);
    check_in_hand(&rt, &board, false);
    resume_none(&rt, &board, &mut right, 2);
    finish_first(&rt, &board, &mut right);
    // the first was worked on here, the second by the close, the third not at all
    check_closed(&rt, board, left, right, [11, 12, 3]);
}

#[test]
fn a_board_of_no_packs(rt: HostRuntime) {
    let none: Vec<Number> = Vec::new(rt.alloc());
    let (board, mut seat) = opened(&rt, rt.alloc(), none);
    draw_none(&rt, &board, &mut seat);
    check_values(&rt, &board.close(seat), &[]);
}
