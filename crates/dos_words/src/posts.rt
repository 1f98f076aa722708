//! Posts in words.
ghost use Rattle.std.specs.Prelude.{◌≡◌, ◌<◌, ◌∷◌, []};
ghost use Rattle.std.specs.Option.{option_map_or};
ghost use Rattle.dos_words.specs.Numbers.{parts_by, post_in, posts_from, colon};
ghost use Rattle.dos_words.specs.Reads.{Reads};

use crate::error::WordsError;
use crate::number::small_within;
use crate::request::Posts;
use dos_world::Post;
use std::alloc::Global;

/// The part before the first separator, and what is behind it.
fn first_part(text: &str, separator: char) -> (&str, Option<&str>)
    requires { separator < 128 }
    ensures { parts_by separator text.now
        ≡ result.0.now ∷ option_map_or (λ rest. parts_by separator rest.now) result.1 [] }
{
    match text.split_once(separator) {
        None => (text, None),
        Some((part, rest)) => (part, Some(rest)),
    }
}

/// The round, the process and the signal of an item, each in its range.
fn post_of(round: &str, pid: &str, signal: &str) -> Option<(u32, Post)>
    ensures { result ≡ post_in (round.now ∷ pid.now ∷ signal.now ∷ []) }
{
    let Some(round) = small_within(1, 1000000, round) else {
        return None;
    };
    let Some(pid) = small_within(1, 65535, pid) else {
        return None;
    };
    let Some(signal) = small_within(1, 31, signal) else {
        return None;
    };
    Some((
        round,
        Post {
            pid,
            signal: signal as u8,
        },
    ))
}

/// What an item asks for: `ROUND:PID:SIGNAL`.
fn read_post(item: &str) -> Option<(u32, Post)>
    ensures { result ≡ post_in (parts_by colon item.now) }
{
    let (round, rest) = first_part(item, ':');
    let Some(rest) = rest else {
        return None;
    };
    let (pid, rest) = first_part(rest, ':');
    let Some(rest) = rest else {
        return None;
    };
    let (signal, rest) = first_part(rest, ':');
    if rest.is_some() {
        return None;
    }
    post_of(round, pid, signal)
}

/// The posts of the items, at most 32.
pub fn read_posts(alloc: Global, text: &str) -> Result<Posts, WordsError>
    ensures { Reads result (posts_from text.now) }
{
    let mut posts = Vec::new(alloc);
    let mut rest = Some(text);
    while let Some(items) = rest {
        if posts.len() == 32 {
            return Err(WordsError::Refused);
        }
        let (item, others) = first_part(items, ',');
        let Some(post) = read_post(item) else {
            return Err(WordsError::Refused);
        };
        if posts.push(post).is_err() {
            return Err(WordsError::Memory);
        }
        rest = others;
    }
    Ok(Posts::of(posts))
}
