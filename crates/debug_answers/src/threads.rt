// Lists of threads as they are told.
ghost use Rattle.std.specs.Prelude.{◌≡◌, ◌++◌, OnOk, codes, map};
ghost use Rattle.debug_session.specs.Stops.{pair_text};
ghost use Rattle.debug_session.specs.Sessions.{is_among};
ghost use Rattle.debug_session.specs.Lists.{commas, pairs_told};

use crate::texts::{put_pair, put_text};
use std::alloc::AllocError;

// each behind a comma
fn put_commas(out: &mut Vec<u8>, pairs: &[(u32, u32)]) -> Result<(), AllocError>
    ensures { OnOk result (out.new.items ≡ out.old.items ++ commas pairs.now) }
{
    for i in 0..pairs.len() {
        put_text(out, ",")?;
        put_pair(out, pairs[i])?;
    }
    Ok(())
}

/// The threads that are listed, each with its process, as `qfThreadInfo` asks.
pub fn put_threads(out: &mut Vec<u8>, pairs: &[(u32, u32)]) -> Result<(), AllocError>
    ensures { OnOk result (out.new.items ≡ out.old.items ++ pairs_told pairs.now) }
{
    match pairs {
        [] => put_text(out, "l"),
        [first, others @ ..] => {
            put_text(out, "m")?;
            put_pair(out, *first)?;
            put_commas(out, others)
        }
    }
}

/// The current thread of the current process, as `qC` asks.
pub fn put_current(out: &mut Vec<u8>, pair: (u32, u32)) -> Result<(), AllocError>
    ensures { OnOk result (out.new.items ≡ out.old.items ++ codes "QC" ++ pair_text pair) }
{
    put_text(out, "QC")?;
    put_pair(out, pair)
}

/// Whether a thread is one of those that are listed, as `T` asks.
pub fn is_listed(pairs: &[(u32, u32)], thread: u32) -> bool
    ensures { result ≡ is_among thread (map (λ pair. pair.1) pairs.now) }
{
    for pair in pairs {
        if pair.1 == thread {
            return true;
        }
    }
    false
}
