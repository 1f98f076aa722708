//! A board of packs. Threads take packs from it in whatever order, each pack once, and without a
//! lock; when all are done the packs come home finished, in their own order. A thread may also put
//! a pack back that is under way, and any thread may resume it.
//!
//! A pack is known by its number, its place in the list that the board was made of. Each number has
//! a word, which says where its pack is, and a slot, where the pack lies while no thread has it. A
//! thread works with a *seat*. A seat knows the packs as they were when the board opened, the
//! numbers in its hand, the numbers that it has found begun, and its share of the board. The rule
//! of the board (`specs/Rule.antt`), which every step keeps, has five parts:
//!
//! 1. The word of a number is 0 and its pack lies at home, not begun; or it is 1 and the pack is in
//!    just one seat's hand; or it is 2 and the pack lies at home, finished; or it is 3 and the pack
//!    lies at home, put back under way: it can be worked on, and is finished where that ends.
//! 2. A number that a seat has found begun has a word other than 0.
//! 3. The shares of all seats add up to 2^32.
//! 4. A seat that was joined to another has no share, nothing in hand and nothing found.
//! 5. A seat with a share knows the packs as the board opened.
//!
//! So a seat that has every share, has found every number begun and has nothing in hand knows, by 3
//! and 4, that nobody else has anything in hand: every word is 2 or 3. `Board::close` works on what
//! is under way until its end, and gives finished packs alone.
//!
//! | Call | Its steps on the table |
//! |---|---|
//! | `Board::claim` | word 0 to 1, in one exchange where it is 0; then the pack leaves its slot |
//! | `Board::draw` | claims, in rising order, until one succeeds |
//! | `Board::give` | the slot comes to the front of the seat's; the pack goes in; word 1 to 2 |
//! | `Board::put_back` | the same, and word 1 to 3 |
//! | `Board::resume` | a look; word 3 to 1, in one exchange; then the pack leaves its slot |
//! | `Board::split`, `Board::join` | one load each: shares are divided and added |
#![tactic(auto)]

mod board;
mod laws;
mod rule;
mod seat;
mod slots;

pub use board::Board;
pub use laws::{each_pack_is_in_one_place, hands_are_apart};
pub use rule::Part;
pub use seat::{BoardSeat, Job};
