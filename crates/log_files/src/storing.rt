// A log, written to its file.
ghost use Rattle.std.specs.Prelude.{◌≡◌, ◌≢◌, ◌≤◌, ℕ, List, IsTrue, IfSome, IsErrOf, OnOk, Some};
ghost use Rattle.std.specs.Prelude.{Err, IfOk, ◌⊎◌, [], ◌∷◌, ◌++◌};
ghost use Rattle.dos_io.specs.FileCalls.{setting};
ghost use Rattle.dos_io.specs.Outside.{Rose};
ghost use Rattle.sha2.specs.Sha256.{sha256};
ghost use Rattle.log_text.specs.LogText.{logtext};

use crate::agreeing::digest_of;
use dos_io::{FileError, Files};
use log_text::{Log, write_log};
use std::alloc::{AllocError, Global};

// The text of the log in its version.
fn text_of(alloc: Global, log: &Log) -> Result<Vec<u8>, AllocError>
    ensures { IfOk result (λ text. text.items ≡ logtext log.now) }
{
    write_log(alloc, log, log.version())
}

/// The SHA-256 digest of the file that a log is written to, or was read from.
pub fn digest_of_log(alloc: Global, log: &Log) -> Result<[u8; 32], AllocError>
    ensures { IfOk result (λ digest. digest ≡ sha256 (logtext log.now)) }
{
    let text = text_of(alloc, log)?;
    Ok(digest_of(&text))
}

/// Gives the file of this name the text of the log as its content. All other names stay. After a
/// fault, which comes only where the count of `files` rose, the name may hold anything; for want
/// of memory it holds what it held.
pub fn store_log<F: Files>(
    alloc: Global,
    files: &mut F,
    name: &str,
    log: &Log,
) -> Result<(), FileError>
    ensures content { OnOk result (IfSome (F.content files.old name.now)
        (λ _. F.content files.new name.now ≡ Some (logtext log.now))) }
    ensures holds { OnOk result (IsTrue (F.tells files.old)
        → F.content files.new name.now ≡ Some (logtext log.now)) }
    ensures memory { IsErrOf result FileError.Memory
        → F.content files.new name.now ≡ F.content files.old name.now }
    ensures never { result ≢ Err FileError.TooLong }
    ensures fault { IsErrOf result FileError.Fault
        → Rose (F.faults files.old) (F.faults files.new) }
    // once, or never where memory ran out before
    ensures asked { (F.asked files.new ≡ F.asked files.old ++ setting name.now ∷ [])
        ⊎ ((result ≡ Err FileError.Memory) × (F.asked files.new ≡ F.asked files.old)) }
    ensures others { (n : List ℕ) → n ≢ name.now → F.content files.new n ≡ F.content files.old n }
    ensures tells { F.tells files.new ≡ F.tells files.old }
    ensures later { F.faults files.old ≤ F.faults files.new }
{
    match text_of(alloc, log) {
        Ok(text) => files.set(name, &text),
        Err(_) => Err(FileError::Memory),
    }
}
