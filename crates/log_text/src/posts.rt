// The posts of an entry, as its text spells them.
ghost use Rattle.std.specs.Prelude.{◌≡◌, ◌≤◌, ◌+◌, length, ◌∷◌};
ghost use Rattle.dos_io.specs.Posts.{ArePosts};
ghost use Rattle.log_text.specs.Views.{posts_in_text};

use byteorder::{ByteOrder, LittleEndian};
use dos_io::SignalList;
use dos_world::Post;

// The first of the posts that these bytes spell, and the bytes of the others.
fn first_post(posts: &[u8]) -> (Post, &[u8])
    requires { 5 ≤ length posts.now }
    ensures value { posts_in_text posts.now ≡ result.0 ∷ posts_in_text result.1.now }
    ensures len { length posts.now ≡ 5 + length result.1.now }
{
    let (front, rest) = posts.split_at(5);
    let pid = LittleEndian::read_u32(front);
    let post = Post {
        pid,
        signal: front[4],
    };
    (post, rest)
}

/// The posts that these bytes spell, into `list`.
pub fn fill(list: &mut SignalList, posts: &[u8])
    requires few { length (posts_in_text posts.now) ≤ 32 }
    requires fits { ArePosts (posts_in_text posts.now) }
    ensures { list.new ≡ posts_in_text posts.now }
{
    list.clear();
    let mut rest = posts;
    for _ in 0..posts.len() / 5 {
        let (post, after) = first_post(rest);
        list.push(post);
        rest = after;
    }
}
