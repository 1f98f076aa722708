//! Signals that words post.
use crate::checks::same_at;
use crate::requests::{asked, check_refused};
use dos_words::Request;
use dos_world::Post;
use std::alloc::{AllocError, Global};
use std::process::Abort;

/// Whether a run with this value of `--signals` makes these posts.
fn posts(alloc: Global, value: &str, wanted: &[(u32, Post)]) -> bool {
    match asked(alloc, &["run", "--signals", value, "--log", "l", "a"]) {
        Ok(Request::Run { posts, .. }) => posts.as_slice() == wanted,
        _ => false,
    }
}

fn post(pid: u32, signal: u8) -> Post {
    Post { pid, signal }
}

fn check_posts(rt: &impl Abort, alloc: Global, value: &str, wanted: &[(u32, Post)]) {
    same_at(rt, posts(alloc, value, wanted), true, value);
}

#[test]
fn posts_are_read_in_their_order(rt: HostRuntime) {
    let alloc = rt.alloc();
    check_posts(&rt, alloc, "1:1:1", &[(1, post(1, 1))]);
    let last = [(1000000, post(65535, 31))];
    check_posts(&rt, alloc, "1000000:65535:31", &last);
    let two = [(2, post(1, 15)), (1, post(3, 9))];
    check_posts(&rt, alloc, "2:1:15,1:3:9", &two);
}

/// Values that are refused.
static REFUSED: [&str; 19] = [
    "0:1:1",
    "1000001:1:1",
    "1:0:1",
    "1:65536:1",
    "1:1:0",
    "1:1:32",
    "01:1:1",
    "1:01:1",
    "1:1:01",
    "1:1",
    "1",
    "1:1:1:1",
    "1:1:",
    ":1:1",
    "1::1",
    ",",
    "1:1:1,",
    ",1:1:1",
    "1:1:1 ,1:1:1",
];

#[test]
fn other_posts_are_refused(rt: HostRuntime) {
    for &value in &REFUSED {
        let words = ["run", "--signals", value, "--log", "l", "a"];
        check_refused(&rt, rt.alloc(), &words);
    }
}

/// So many posts, all the same.
fn joined(alloc: Global, count: usize) -> Result<String, AllocError> {
    let mut value = String::from_str(alloc, "1:1:1")?;
    for _ in 1..count {
        value.push_str(",1:1:1")?;
    }
    Ok(value)
}

#[test]
fn at_most_32_are_read(rt: HostRuntime) {
    let alloc = rt.alloc();
    let most = joined(alloc, 32).expect(&rt, "memory");
    check_posts(&rt, alloc, &most, &[(1, post(1, 1)); 32]);
    drop(most);
    let more = joined(alloc, 33).expect(&rt, "memory");
    check_refused(&rt, alloc, &["run", "--signals", &more, "--log", "l", "a"]);
    drop(more);
}
