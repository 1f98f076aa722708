//! A place for one order at a time, from a caller to a worker that stays, and back.
//!
//! Nothing here waits. The caller lays an order, and the worker takes it, carries it out and puts
//! it back; the caller fetches it, or recalls one that no worker has taken. Each end is a seat, and
//! the rule of the place (`specs/Rule.antt`) says that what comes back is the order that went out.
//! A worker that ends gives its seat back as its thread's result: with both seats the caller has
//! the order, whatever the worker did before.
//!
//! | Call | Its step on the word |
//! |---|---|
//! | `Place::lay` | 0 to 1: an order lies there |
//! | `Place::take` | 1 to 2, where it is 1: the worker has it |
//! | `Place::put_back` | 2 to 3: it lies there, carried out |
//! | `Place::fetch` | 3 to 0, where it is 3 |
//! | `Place::recall` | 1 to 0, where it is 1 |
//! | `Place::settle` | to 0, from 1 or 3, with both seats |
#![tactic(auto)]

mod place;
mod rule;
mod worker;

pub use place::{Place, PlaceSeat};
pub use rule::{Errand, Knows};
pub use worker::{GoesHome, Order, Worker};
