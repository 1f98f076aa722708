// By which of 1,024 chains a word is found.
ghost use Rattle.std.specs.Prelude.{◌≡◌, ◌<◌};
ghost use Rattle.written_words.specs.Index.{chain_of};

/// The chain of a frame and an offset. No two words of one page have the same.
#[inline(always)]
pub(crate) fn chain(frame: u32, offset: u32) -> usize
    ensures chain { result ≡ chain_of frame offset }
    ensures small { result < 1024 }
{
    ((frame % 1024 * 389 + offset / 4) % 1024) as usize
}
