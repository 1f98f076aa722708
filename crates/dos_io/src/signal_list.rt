// The signals of a round.
ghost use Rattle.std.specs.Prelude.{◌≡◌, ◌≤◌, ◌<◌, ◌++◌, ◌∷◌, [], length, slice_get, Some};

use dos_world::Post;
use std::marker::Model;

/// At most 32 posts, each with a signal from 1 to 31. It takes no memory; contracts see the list.
#[derive(Drop)]
pub struct SignalList {
    posts: [Post; 32],
    len: usize,
}

impl Model for SignalList {
    ghost use Rattle.std.specs.Prelude.{List, take, length, ◌≡◌, ◌≤◌};
    ghost use Rattle.dos_world.specs.declared.Post.{Post};
    ghost use Rattle.dos_io.specs.Posts.{ArePosts};

    ghost Value = { List Post };

    ghost view = { λ s. take s.len s.posts };

    ghost invariant = { λ s. (s.len ≤ 32) × (length s.posts ≡ 32) × ArePosts (take s.len s.posts) };
}

impl SignalList {
    ghost use Rattle.dos_io.specs.Posts.{ArePosts};

    /// The empty list.
    pub fn new() -> SignalList
        ensures { result ≡ [] }
    {
        SignalList {
            posts: [Post { pid: 0, signal: 1 }; 32],
            len: 0,
        }
    }

    /// Makes it the empty list.
    pub fn clear(&mut self)
        ensures { self.new ≡ [] }
    {
        self.len = 0;
    }

    /// Adds a post as the last one.
    pub fn push(&mut self, post: Post)
        requires room { length self.old < 32 }
        requires low { 1 ≤ post.signal }
        requires high { post.signal ≤ 31 }
        ensures { self.new ≡ self.old ++ post ∷ [] }
    {
        self.posts[self.len] = post;
        self.len += 1;
    }

    /// How many there are, at most 32.
    pub fn len(&self) -> usize
        ensures value { result ≡ length self.now }
        ensures few { result ≤ 32 }
        ensures posts { ArePosts self.now }
    {
        self.len
    }

    /// The post at an index, counted from 0.
    pub fn at(&self, index: usize) -> Post
        requires { index < length self.now }
        ensures { slice_get self.now index ≡ Some result }
    {
        let _len = self.len();
        self.posts[index]
    }
}
