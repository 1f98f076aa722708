// A page in words.
ghost use Rattle.std.specs.Prelude.{◌≡◌, ◌<◌, ◌^◌, ◌++◌, ℕ, length, IfOk, OnOk, codes};
ghost use Rattle.kernel_calls.specs.StateWorld.{world_of};
ghost use Rattle.debug_session.specs.Where.{console_line};
ghost use Rattle.debug_session.specs.Pages.{owner_word, entry_rights, kind_word, entry_words};
ghost use Rattle.debug_session.specs.Pages.{page_words, mapped_line};

use crate::texts::{put_text, put_word_digits, put_words};
use dos_world::{Entry, Owner};
use kernel_calls::State;
use std::alloc::{AllocError, Global};

fn put_owner(out: &mut Vec<u8>, owner: Owner) -> Result<(), AllocError>
    ensures { OnOk result (out.new.items ≡ out.old.items ++ owner_word owner) }
{
    match owner {
        Owner::Free => put_text(out, "free"),
        Owner::Shared => put_text(out, "shared"),
        Owner::Of(thread) => put_words(out, "thread ", thread),
    }
}

fn entry_rights(entry: Entry) -> &'static str
    ensures { result.now ≡ entry_rights entry }
{
    match (entry.write, entry.exec) {
        (true, true) => "rwx",
        (true, false) => "rw-",
        (false, true) => "r-x",
        (false, false) => "r--",
    }
}

fn kind_word(is_shared: bool) -> &'static str
    ensures { result.now ≡ kind_word is_shared }
{
    if is_shared { "shared" } else { "private" }
}

/// Whose the frame of an entry is, its rights, and whether a fork shares it.
pub(crate) fn put_entry(out: &mut Vec<u8>, state: &State, entry: Entry) -> Result<(), AllocError>
    requires { entry.frame < length state.now.frames.owners }
    ensures { (q : ℕ) → OnOk result (out.new.items
        ≡ out.old.items ++ entry_words (world_of q state.now) entry) }
{
    put_text(out, "owner ")?;
    put_owner(out, state.frames.owner(entry.frame))?;
    put_text(out, ", rights ")?;
    put_text(out, entry_rights(entry))?;
    put_text(out, ", ")?;
    put_text(out, kind_word(entry.shared))
}

/// A page of a process, by its first address.
pub(crate) fn put_page(out: &mut Vec<u8>, process: u32, page: u32) -> Result<(), AllocError>
    requires { page < 2 ^ 20 }
    ensures { OnOk result (out.new.items ≡ out.old.items ++ page_words process page) }
{
    put_text(out, "page ")?;
    put_word_digits(out, 4096 * page)?;
    put_words(out, " of process ", process)
}

/// A page that is mapped.
pub(crate) fn mapped_line(
    alloc: Global,
    state: &State,
    process: u32,
    page: u32,
    entry: Entry,
) -> Result<Vec<u8>, AllocError>
    requires page { page < 2 ^ 20 }
    requires frame { entry.frame < length state.now.frames.owners }
    ensures { IfOk result (λ line. (q : ℕ)
        → line.items ≡ mapped_line (world_of q state.now) process page entry) }
{
    let mut line = Vec::new(alloc);
    put_page(&mut line, process, page)?;
    put_words(&mut line, ": frame ", entry.frame)?;
    put_text(&mut line, ", ")?;
    put_entry(&mut line, state, entry)?;
    line.push(b'\n')?;
    Ok(line)
}

/// A page that isn't mapped.
pub(crate) fn unmapped_line(alloc: Global, process: u32, page: u32) -> Result<Vec<u8>, AllocError>
    requires { page < 2 ^ 20 }
    ensures { IfOk result
        (λ line. line.items ≡ console_line (page_words process page ++ codes " isn't mapped")) }
{
    let mut line = Vec::new(alloc);
    put_page(&mut line, process, page)?;
    put_text(&mut line, " isn't mapped\n")?;
    Ok(line)
}
