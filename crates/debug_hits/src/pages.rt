// The bytes of a process within a page.
ghost use Rattle.std.specs.Prelude.{◌≡◌, ◌+◌, ◌%◌, ◌<◌, ◌≤◌, ◌^◌, ℕ, IfSome, List};
ghost use Rattle.kernel_calls.specs.StateWorld.{IsSound, sent, world_of};
ghost use Rattle.debug_session.specs.Told.{bytes_told, place_of_address};

use kernel_calls::State;

/// So many bytes of a process from an address on, which lie in one page; none where that isn't
/// mapped.
pub(crate) fn bytes_in_page(state: &State, process: u32, address: u64, count: u32) -> &[u8]
    requires sound { IsSound state.now }
    requires address { address < 2 ^ 33 }
    requires within { address % 4096 + count ≤ 4096 }
    ensures { (q : ℕ) (o e : List ℕ)
        → result.now ≡ bytes_told (sent o e (world_of q state.now)) process count address }
{
    if count == 0 {
        return &[];
    }
    if !state.table.is_live(process) {
        return &[];
    }
    match state.table.space(process).look((address / 4096) as u32) {
        None => &[],
        Some(entry) => {
            let offset = (address % 4096) as usize;
            let page = state.frames.lend(entry.frame).bytes();
            &page[offset..offset + count as usize]
        }
    }
}

/// The place of an address of a process in the bytes of all frames; None where it isn't mapped.
pub(crate) fn place_of(state: &State, process: u32, address: u64) -> Option<u64>
    requires { address < 2 ^ 33 }
    ensures place { (q : ℕ) (o e : List ℕ)
        → place_of_address (sent o e (world_of q state.now)) process address ≡ result }
    ensures range { IfSome result (λ place. place < 2 ^ 45) }
{
    if !state.table.is_live(process) {
        return None;
    }
    match state.table.space(process).look((address / 4096) as u32) {
        None => None,
        Some(entry) => Some(4096 * u64::from(entry.frame) + address % 4096),
    }
}
