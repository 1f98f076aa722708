// The header of a log: the numbers and the images that its run is of.
ghost use Rattle.std.specs.Prelude.{◌≡◌, ◌≤◌, ◌<◌, ◌++◌, ◌∷◌, [], length, slice_get, Some};

use std::marker::Model;

/// The SHA-256 digests of at most 8 images. It takes no memory; contracts see the list.
#[derive(Drop)]
pub struct Digests {
    digests: [[u8; 32]; 8],
    len: usize,
}

impl Model for Digests {
    ghost use Rattle.std.specs.Prelude.{List, ℕ, take, length, ◌≡◌, ◌≤◌};

    ghost Value = { List (List ℕ) };

    ghost view = { λ s. take s.len s.digests };

    ghost invariant = { λ s. (s.len ≤ 8) × (length s.digests ≡ 8) };
}

/// What a run is of: the quantum, the limit of rounds, the frames of its store, and its images.
#[derive(Drop)]
pub struct LogHeader {
    /// What a thread may run in a round, in instructions: 16 to 65536.
    pub quantum: u32,
    /// The limit of rounds: 1 to 1000000.
    pub rounds: u32,
    /// The frames of the store, of 4096 bytes each: 16 to 16384.
    pub frames: u32,
    /// A digest for each image: 1 to 8.
    pub digests: Digests,
}

impl Digests {
    /// The empty list.
    pub fn new() -> Digests
        ensures { result ≡ [] }
    {
        Digests {
            digests: [[0; 32]; 8],
            len: 0,
        }
    }

    /// Adds a digest as the last one.
    pub fn push(&mut self, digest: [u8; 32])
        requires { length self.old < 8 }
        ensures { self.new ≡ self.old ++ digest ∷ [] }
    {
        self.digests[self.len] = digest;
        self.len += 1;
    }

    /// How many there are, 0 to 8.
    pub fn len(&self) -> usize
        ensures value { result ≡ length self.now }
        ensures few { result ≤ 8 }
    {
        self.len
    }

    /// The digest at an index, counted from 0.
    pub fn at(&self, index: usize) -> [u8; 32]
        requires { index < length self.now }
        ensures { slice_get self.now index ≡ Some result }
    {
        let _len = self.len();
        self.digests[index]
    }
}
