// Memory as it is told.
ghost use Rattle.std.specs.Prelude.{◌≡◌, ◌++◌, ◌+◌, ◌%◌, ◌<◌, ◌≤◌, ◌^◌, ℕ, [], length, OnOk};
ghost use Rattle.std.specs.Prelude.{MatchOption, IfSome};
ghost use Rattle.kernel_calls.specs.StateWorld.{world_of, IsSound};
ghost use Rattle.debug_session.specs.Told.{bytes_told, memory_told};

use crate::texts::{put_bytes_digits, put_text};
use kernel_calls::State;
use std::alloc::AllocError;

// So many bytes of a process from an address on, which lie in one page; None where it isn't mapped.
fn bytes_in_page(state: &State, process: u32, address: u64, count: u32) -> Option<&[u8]>
    requires sound { IsSound state.now }
    requires address { address < 2 ^ 33 }
    requires within { address % 4096 + count ≤ 4096 }
    ensures told { (q : ℕ) → MatchOption result
        (bytes_told (world_of q state.now) process count address ≡ [])
        (λ part. part.now ≡ bytes_told (world_of q state.now) process count address) }
    ensures count { IfSome result (λ part. length part.now ≡ count) }
{
    if !state.table.is_live(process) {
        return None;
    }
    match state.table.space(process).look((address / 4096) as u32) {
        None => None,
        Some(entry) => {
            let offset = (address % 4096) as usize;
            let page = state.frames.lend(entry.frame).bytes();
            Some(&page[offset..offset + count as usize])
        }
    }
}

/// The bytes of a process from an address on, at most so many and at most 4096, to the first that
/// isn't mapped, as `m` asks. Any numbers.
pub fn put_memory(
    out: &mut Vec<u8>,
    state: &State,
    process: u32,
    from: u32,
    length: u32,
) -> Result<(), AllocError>
    requires { IsSound state.now }
    ensures { (q : ℕ) → OnOk result (out.new.items
        ≡ out.old.items ++ memory_told (world_of q state.now) process length from) }
{
    let count = length.min(4096);
    if count == 0 {
        return Ok(());
    }
    let first = (4096 - from % 4096).min(count);
    let start = u64::from(from);
    let Some(front) = bytes_in_page(state, process, start, first) else {
        return put_text(out, "E0e");
    };
    put_bytes_digits(out, front)?;
    match bytes_in_page(state, process, start + u64::from(first), count - first) {
        None => Ok(()),
        Some(back) => put_bytes_digits(out, back),
    }
}
