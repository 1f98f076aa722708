//! A program that takes parts from boards by one seat, as often as it is told, so that it can be
//! timed from outside. It reads no clock, and prints the same at each run.
//!
//! Its words come in threes: the work, of how many parts a board is, and how many boards. `open`
//! opens boards, `claim` draws all their parts too, and `give` gives each part back after that. For
//! each three it prints how many parts were drawn.
#![tactic(auto)]

ghost use Rattle.std.specs.Prelude.{◌≡◌, ◌<◌, ◌^◌, [], IfOk, vec_len};

use hand_board::{Board, BoardSeat, Part};
use std::alloc::{AllocError, Global};
use std::io::ErrorKind;
use std::{env, io};

/// What is done with a board.
#[derive(Clone, Copy)]
enum Work {
    Open,
    Claim,
    Give,
}

/// A part that is finished as it is made.
#[derive(Drop)]
struct Blank;

impl Part for Blank {
    ghost use Rattle.std.specs.Prelude.{◌≡◌};

    ghost ready = { λ _. Unit {0} };

    ghost ends = { λ x y. x ≡ y };

    ghost finished = { λ x y. x ≡ y };

    fn finish(&mut self) {}
}

fn parts(alloc: Global, count: u32) -> Result<Vec<Blank>, AllocError>
    ensures { IfOk result (λ v. vec_len v ≡ count) }
{
    let mut parts = Vec::with_capacity(alloc, count as usize)?;
    for _made in 0..count {
        parts.push(Blank)?;
    }
    Ok(parts)
}

// every part, and how many there were
fn claim_all(board: &Board<Blank>, mut seat: BoardSeat<Blank>) -> u64
    requires { seat.board ≡ board.now.id }
{
    let mut drawn = 0u64;
    while let Some(_job) = board.draw(&mut seat) {
        drawn = drawn.wrapping_add(1);
    }
    drawn
}

// the same, and each goes back at once
fn give_all(board: &Board<Blank>, mut seat: BoardSeat<Blank>) -> u64
    requires board { seat.board ≡ board.now.id }
    requires hand { seat.hand ≡ [] }
{
    let mut drawn = 0u64;
    while let Some(job) = board.draw(&mut seat) {
        board.give(&mut seat, job);
        drawn = drawn.wrapping_add(1);
    }
    drawn
}

fn once(alloc: Global, work: Work, count: u32) -> Result<u64, AllocError> {
    let Ok((board, seat)) = Board::new(alloc, parts(alloc, count)?) else {
        return Err(AllocError);
    };
    Ok(match work {
        Work::Open => 0,
        Work::Claim => claim_all(&board, seat),
        Work::Give => give_all(&board, seat),
    })
}

fn repeat(alloc: Global, work: Work, count: u32, boards: u32) -> Result<u64, AllocError> {
    let mut drawn = 0u64;
    for _ in 0..boards {
        drawn = drawn.wrapping_add(once(alloc, work, count)?);
    }
    Ok(drawn)
}

fn number(word: &str) -> io::Result<u32> {
    match word.parse() {
        Ok(number) => Ok(number),
        Err(_) => Err(ErrorKind::InvalidInput.into()),
    }
}

fn work_named(word: &str) -> io::Result<Work> {
    match word {
        "open" => Ok(Work::Open),
        "claim" => Ok(Work::Claim),
        "give" => Ok(Work::Give),
        _ => Err(ErrorKind::InvalidInput.into()),
    }
}

/// The words behind the program's name.
fn words(rt: &HostRuntime) -> io::Result<Vec<String>> {
    let mut words = Vec::new(rt.alloc());
    for word in env::args(rt)?.skip(1) {
        words.push(word)?;
    }
    Ok(words)
}

fn drawn_by(alloc: Global, work: &str, count: &str, boards: &str) -> io::Result<u64> {
    Ok(repeat(alloc, work_named(work)?, number(count)?, number(boards)?)?)
}

/// Does what three words say, and prints how many parts were drawn.
fn run_three(rt: &HostRuntime, three: &[String]) -> io::Result<()> {
    let [work, count, boards] = three else {
        return Err(ErrorKind::InvalidInput.into());
    };
    let drawn = drawn_by(rt.alloc(), work, count, boards)?;
    println!(rt; "{work} {count} {boards}: {drawn}")
}

fn run_all(rt: &HostRuntime, words: &[String]) -> io::Result<()> {
    for three in words.chunks(3) {
        run_three(rt, three)?;
    }
    Ok(())
}

fn main(rt: HostRuntime) -> io::Result<()> {
    let words = words(&rt)?;
    let ran = run_all(&rt, &words);
    drop(words);
    ran
}
