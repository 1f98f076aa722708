// The threads with what they are about, a text of XML.
ghost use Rattle.std.specs.Prelude.{◌≡◌, ◌++◌, ℕ, OnOk, codes, flat_map};
ghost use Rattle.kernel_calls.specs.StateWorld.{world_of};
ghost use Rattle.debug_session.specs.Stops.{pair_text};
ghost use Rattle.debug_session.specs.Lists.{thread_element, threads_text};

use crate::texts::{put_pair, put_text};
use crate::waits::put_what;
use kernel_calls::State;
use std::alloc::AllocError;

// what stands before the words
fn put_opening(out: &mut Vec<u8>, pair: (u32, u32)) -> Result<(), AllocError>
    ensures { OnOk result (out.new.items
        ≡ out.old.items ++ (codes "<thread id=\"" ++ pair_text pair ++ codes "\">")) }
{
    put_text(out, "<thread id=\"")?;
    put_pair(out, pair)?;
    put_text(out, "\">")
}

// one of them
fn put_element(out: &mut Vec<u8>, state: &State, pair: (u32, u32)) -> Result<(), AllocError>
    ensures { (q : ℕ) → OnOk result (out.new.items
        ≡ out.old.items ++ thread_element (world_of q state.now) pair) }
{
    put_opening(out, pair)?;
    put_what(out, state, pair.0, pair.1)?;
    put_text(out, "</thread>")
}

// each of them
fn put_elements(out: &mut Vec<u8>, state: &State, pairs: &[(u32, u32)]) -> Result<(), AllocError>
    ensures { (q : ℕ) → OnOk result (out.new.items
        ≡ out.old.items ++ flat_map (thread_element (world_of q state.now)) pairs.now) }
{
    for i in 0..pairs.len() {
        put_element(out, state, pairs[i])?;
    }
    Ok(())
}

/// The threads that are listed, each with its process and what it is about: the text of which
/// `qXfer:threads:read` asks a part.
pub fn put_thread_list(
    out: &mut Vec<u8>,
    state: &State,
    pairs: &[(u32, u32)],
) -> Result<(), AllocError>
    ensures { (q : ℕ) → OnOk result (out.new.items
        ≡ out.old.items ++ threads_text (world_of q state.now) pairs.now) }
{
    put_text(out, "<threads>")?;
    put_elements(out, state, pairs)?;
    put_text(out, "</threads>")
}
