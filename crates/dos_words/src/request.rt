// What the words ask for.
ghost use Rattle.std.specs.Prelude.{◌≡◌, ◌<◌, [], length, map, slice_get, Some, IfOk};
ghost use Rattle.std.specs.Prelude.{string_bytes};

use dos_world::{Post, Scheme};
use std::alloc::{AllocError, Global};
use std::marker::Model;

/// An owned text. Contracts see its bytes.
#[derive(Drop)]
pub struct Text {
    text: String,
}

impl Model for Text {
    ghost use Rattle.std.specs.Prelude.{List, ℕ, string_bytes};

    ghost Value = { List ℕ };

    ghost view = { λ s. string_bytes s.text };
}

impl Text {
    /// An owned copy.
    pub(crate) fn copy_of(alloc: Global, text: &str) -> Result<Text, AllocError>
        ensures { IfOk result (λ t. t ≡ text.now) }
    {
        let text = String::from_str(alloc, text)?;
        Ok(Text { text })
    }

    /// The text.
    pub fn as_str(&self) -> &str
        ensures { result.now ≡ self.now }
    {
        &self.text
    }
}

/// An owned list of texts. Contracts see the list of their bytes.
#[derive(Drop)]
pub struct Names {
    names: Vec<String>,
}

impl Model for Names {
    ghost use Rattle.std.specs.Prelude.{List, ℕ, string_bytes, map};

    ghost Value = { List (List ℕ) };

    ghost view = { λ s. map string_bytes s.names.items };
}

impl Names {
    /// An owned copy.
    pub(crate) fn copy_of(alloc: Global, texts: &[&str]) -> Result<Names, AllocError>
        ensures { IfOk result (λ t. t ≡ map (λ s. s.now) texts.now) }
    {
        let mut names = Vec::new(alloc);
        for text in texts {
            names.push(String::from_str(alloc, text)?)?;
        }
        Ok(Names { names })
    }

    /// An owned copy of these words.
    pub(crate) fn of_words(alloc: Global, words: &[String]) -> Result<Names, AllocError>
        ensures { IfOk result (λ t. t ≡ map string_bytes words.now) }
    {
        let mut names = Vec::new(alloc);
        for word in words {
            names.push(String::from_str(alloc, word.as_str())?)?;
        }
        Ok(Names { names })
    }

    /// How many there are.
    pub fn len(&self) -> usize
        ensures { result ≡ length self.now }
    {
        self.names.len()
    }

    /// The text at an index, counted from 0.
    pub fn at(&self, index: usize) -> &str
        requires { index < length self.now }
        ensures { slice_get self.now index ≡ Some result.now }
    {
        &self.names[index]
    }
}

/// An owned list of posts, each with the round in which it is made. Contracts see the list.
#[derive(Drop)]
pub struct Posts {
    posts: Vec<(u32, Post)>,
}

impl Model for Posts {
    ghost use Rattle.std.specs.Prelude.{List, ℕ};
    ghost use Rattle.dos_world.specs.declared.Post.{Post};

    ghost Value = { List (ℕ × Post) };

    ghost view = { λ s. s.posts.items };
}

impl Posts {
    /// No posts.
    pub(crate) fn none(alloc: Global) -> Posts
        ensures { result ≡ [] }
    {
        Posts {
            posts: Vec::new(alloc),
        }
    }

    /// These posts.
    pub(crate) fn of(posts: Vec<(u32, Post)>) -> Posts
        ensures { result ≡ posts.items }
    {
        Posts { posts }
    }

    /// The posts, in the order of the words.
    pub fn as_slice(&self) -> &[(u32, Post)]
        ensures { result.now ≡ self.now }
    {
        &self.posts
    }
}

/// What the words ask for.
#[derive(Drop)]
pub enum Request {
    /// A run that is recorded.
    Run {
        /// What a thread may run in a round, in instructions: 16 to 65536.
        quantum: u32,
        /// The limit of rounds: 1 to 1000000.
        rounds: u32,
        /// The frames of the store: 16 to 16384.
        frames: u32,
        /// How many threads of the host run the rounds: 1 to 32.
        workers: u32,
        /// How the threads of a round see memory.
        scheme: Scheme,
        /// At most 32 signals, in the order of the words.
        posts: Posts,
        /// The first reading of a counted clock; without it the host's clock is read.
        clock_from: Option<u64>,
        /// What a counted clock goes on by at each reading.
        clock_step: u64,
        /// The file of the log.
        log: Text,
        /// The files of the images, 1 to 8.
        names: Names,
    },
    /// A run by the answers of a log.
    Replay {
        /// How many threads of the host run the rounds: 1 to 32.
        workers: u32,
        /// How the threads of a round see memory.
        scheme: Scheme,
        /// The file of the log.
        log: Text,
        /// The files of the images, 1 to 8.
        names: Names,
    },
    /// The parts of an image.
    Inspect {
        /// The file of the image.
        name: Text,
    },
    /// A run of the generated image.
    Gen {
        /// What its threads begin to count with.
        number: u32,
        /// How many threads it has: 1 to 32.
        threads: u32,
        /// How many threads of the host run the rounds: 1 to 32.
        workers: u32,
    },
    /// The version 2 text of a log.
    Migrate {
        /// The file of the log.
        log: Text,
        /// The file of the new text, which may be the same.
        to: Text,
    },
    /// A run by the answers of a log, whose group is saved after a round.
    Save {
        /// How many threads of the host run the rounds: 1 to 32.
        workers: u32,
        /// The file of the log.
        log: Text,
        /// After how many rounds: 1 to 1000000.
        round: u32,
        /// The file of the saved group.
        to: Text,
        /// The files of the images, 1 to 8.
        names: Names,
    },
    /// A saved group's run, gone on with by the answers of its log.
    Resume {
        /// How many threads of the host run the rounds: 1 to 32.
        workers: u32,
        /// The file of the log.
        log: Text,
        /// The file of the saved group.
        from: Text,
    },
    /// A run by the answers of a log, as a debugger looks at it.
    Debug {
        /// How many threads of the host run the rounds: 1 to 32.
        workers: u32,
        /// The file of the log.
        log: Text,
        /// The files of the images, 1 to 8.
        names: Names,
    },
    /// A run by the answers of a log, of which it is printed which frames change their owners.
    Trace {
        /// How many threads of the host run the rounds: 1 to 32.
        workers: u32,
        /// The file of the log.
        log: Text,
        /// The files of the images, 1 to 8.
        names: Names,
    },
}
