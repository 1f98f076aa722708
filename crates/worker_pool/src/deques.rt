// Deques of numbers: each worker takes from its own, and steals from the others'.
ghost use Rattle.std.specs.Prelude.{◌≡◌, ◌<◌, ◌≤◌, ◌+◌, ℕ, IfSome};
ghost use Rattle.crossbeam_deque.specs.Handles.{worker_flavor};
ghost use Rattle.worker_pool.specs.Parts.{AreFifo, IsFifo};

use crossbeam_deque::protocol::{Outcome, Protocol};
use crossbeam_deque::{Steal, Stealer, Worker};
use std::alloc::Global;
use std::marker::{Brand, PhantomData};

/// What all numbers in some deques are below. The call that makes the deques picks it.
pub trait Bound {
    ghost bound: { ℕ };
}

impl Bound for Brand {
    ghost bound = { 0 };
}

/// The rule of such a deque. So a number that comes out of it is a number of the board, and no test
/// at run time is needed; that each number is run once is the board's own rule.
pub struct Below<B> {
    of: PhantomData<B>,
}

impl<B: Bound> Protocol<u32, ()> for Below<B> {
    ghost use Rattle.std.specs.Prelude.{All, ◌<◌};

    ghost holds = { λ items _. All (λ x. x < B.bound) items };

    ghost first = { tt };

    ghost guest = { tt };
}

impl<B: Bound> Outcome<u32, ()> for Below<B> {
    ghost use Rattle.std.specs.Prelude.{All, ◌<◌};

    ghost then = { λ _ xs _. All (λ x. x < B.bound) xs };
}

/// The end of a deque at which its own worker stands.
pub type Owner<B> = Worker<u32, Global, (), Below<B>>;

/// The end at which all others take from it.
pub type Thief<B> = Stealer<u32, Global, (), Below<B>>;

/// How often a steal that another one crossed is tried again.
const RETRIES: u32 = 1000;

// one number more, which is left out where the push is refused
#[inline(always)]
fn push_one<B: Bound>(owner: &mut Owner<B>, number: u32)
    requires flavor { worker_flavor owner.old ≡ 0 }
    requires bound { number < B.bound }
    ensures { worker_flavor owner.new ≡ 0 }
{
    let _ = owner.push_as::<Below<B>>(number);
}

// the deque with the numbers from `first` in steps of `step`; one whose push is refused is left out
fn dealt<B: Bound>(mut owner: Owner<B>, first: u32, step: u32, count: u32) -> Owner<B>
    requires flavor { worker_flavor owner ≡ 0 }
    requires step { 0 < step }
    requires bound { count ≤ B.bound }
    ensures { worker_flavor result ≡ 0 }
{
    let step = u64::from(step);
    let count = u64::from(count);
    let mut number = u64::from(first);
    while number < count {
        push_one(&mut owner, number as u32);
        number += step;
    }
    owner
}

// a worker's deque with its numbers, and the end for the others
fn lane_of<B: Bound>(
    alloc: Global,
    count: u32,
    lanes: u32,
    lane: u32,
) -> Option<(Owner<B>, Thief<B>)>
    requires lane { lane < lanes }
    requires bound { count ≤ B.bound }
    ensures { IfSome result (λ ends. worker_flavor ends.0 ≡ 0) }
{
    let Ok(owner) = Owner::<B>::fifo_as(alloc, (count / lanes) as usize + 1) else {
        return None;
    };
    match owner.stealer() {
        Ok(thief) => Some((dealt(owner, lane, lanes, count), thief)),
        Err(_) => None,
    }
}

// both ends of one deque more are kept, or false where memory ends
fn keep<B: Bound>(
    owners: &mut Vec<Owner<B>>,
    thieves: &mut Vec<Thief<B>>,
    owner: Owner<B>,
    thief: Thief<B>,
) -> bool
    requires owners { AreFifo owners.old.items }
    requires owner { worker_flavor owner ≡ 0 }
    ensures { AreFifo owners.new.items }
{
    thieves.push(thief).is_ok() && owners.push(owner).is_ok()
}

/// So many deques, first in first out, into which the numbers below `count` are dealt in turn.
/// Where memory ends, that deque and those after it are missing, with their numbers.
pub(crate) fn deques<B: Bound>(
    alloc: Global,
    count: u32,
    lanes: u32,
) -> (Vec<Owner<B>>, Vec<Thief<B>>)
    requires { count ≤ B.bound }
    ensures { AreFifo result.0.items }
{
    let mut owners = Vec::new(alloc);
    let mut thieves = Vec::new(alloc);
    for lane in 0..lanes {
        let Some((owner, thief)) = lane_of(alloc, count, lanes, lane) else {
            break;
        };
        if !keep(&mut owners, &mut thieves, owner, thief) {
            break;
        }
    }
    (owners, thieves)
}

// the next number of the worker's own deque
fn pop_own<B: Bound>(own: &mut Option<Owner<B>>) -> Option<u32>
    requires { IsFifo own.old }
    ensures own { IsFifo own.new }
    ensures below { IfSome result (λ n. n < B.bound) }
{
    match own.as_mut() {
        Some(owner) => owner.pop_as::<Below<B>>(),
        None => None,
    }
}

// the next number of another's deque
fn steal_one<B: Bound>(thief: &Thief<B>) -> Option<u32>
    ensures { IfSome result (λ n. n < B.bound) }
{
    let mut pass = thief.pass();
    for _ in 0..RETRIES {
        match thief.steal_as::<Below<B>>(&mut pass) {
            Steal::Success(number) => return Some(number),
            Steal::Empty => return None,
            Steal::Retry => {}
        }
    }
    None
}

/// One turn of worker `me`: its own deque first, then the others, in rising order from its own.
pub(crate) fn search<B: Bound>(
    own: &mut Option<Owner<B>>,
    thieves: &[Thief<B>],
    me: u32,
) -> Option<u32>
    requires { IsFifo own.old }
    ensures own { IsFifo own.new }
    ensures below { IfSome result (λ n. n < B.bound) }
{
    if let Some(number) = pop_own(own) {
        return Some(number);
    }
    let count = thieves.len();
    let others = count.saturating_sub(usize::from(own.is_some()));
    let first = me as usize;
    for step in 0..others {
        if let Some(number) = steal_one(&thieves[(first + 1 + step) % count]) {
            return Some(number);
        }
    }
    None
}
