//! What was put into a sink, for clauses alone.

ghost use Rattle.std.specs.Prelude.{◌≡◌, ℕ, List, [], ◌++◌};
ghost use Rattle.std.specs.Borrow.{ftrue};

use std::marker::Model;

/// The bytes that were put so far. It takes no memory: only clauses read it. What it has says
/// something of a program only as far as a struct round it ties it to its own fields.
#[derive(Drop)]
pub struct Trail {
    pub ghost bytes: { List ℕ },
}

impl Model for Trail {
    ghost also_owns = { λ _. ftrue };
}

impl Trail {
    /// No bytes.
    pub fn new() -> Trail
        ensures { result.bytes ≡ [] }
    {
        Trail {}
    }

    /// The bytes of the trail, and then a piece.
    pub fn then(_before: &Trail, _piece: &[u8]) -> Trail
        ensures { result.bytes ≡ _before.now.bytes ++ _piece.now }
    {
        Trail {}
    }
}
