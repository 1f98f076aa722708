// A log, read from its file.
ghost use Rattle.std.specs.Prelude.{◌≡◌, ◌≤◌, ℕ, List, length, IfOk, IfErr, IfSome, IsErrOf, Ok};
ghost use Rattle.std.specs.Prelude.{Err, [], ◌∷◌, ◌++◌};
ghost use Rattle.dos_io.specs.FileCalls.{getting};
ghost use Rattle.dos_io.specs.Outside.{Rose};
ghost use Rattle.log_text.specs.LogText.{logtext};
ghost use Rattle.log_text.specs.Ranges.{FitsLog};
ghost use Rattle.log_files.specs.Judging.{log_verdict, IsForFile, IsLogRefusal};

use crate::refusal::{LoadError, LogRefusal};
use dos_io::{FileError, Files};
use log_text::{Log, LogError, ReadError, read_log};
use std::alloc::Global;

/// The longest file of a log, in bytes.
const LIMIT: u64 = 67108864;

// A file that has been read, as a log.
fn read_file(alloc: Global, bytes: &[u8]) -> Result<Log, LoadError>
    requires { length bytes.now ≤ 67108864 }
    ensures accepted { IfOk result (λ log. log_verdict bytes.now ≡ Ok log) }
    ensures found { IfOk result (λ log. (bytes.now ≡ logtext log) × FitsLog log) }
    ensures refused { IfErr result (IsLogRefusal (log_verdict bytes.now)) }
    ensures of_file { IfErr result IsForFile }
    ensures fault { ¬ IsErrOf result LoadError.Fault }
{
    match read_log(alloc, bytes) {
        Ok(log) => Ok(log),
        Err(ReadError::Refused(error)) => Err(LoadError::Log(LogRefusal::Refused(error))),
        Err(ReadError::Memory) => Err(LoadError::Memory),
    }
}

/// The log that the file of this name holds. It is refused where the file is longer than 64 MiB or
/// spells no log; it is a fault only where the count of `files` rose. They are asked once.
pub fn load_log<F: Files>(alloc: Global, files: &mut F, name: &str) -> Result<Log, LoadError>
    ensures accepted { IfOk result (λ log. IfSome (F.content files.old name.now)
        (λ file. log_verdict file ≡ Ok log)) }
    ensures found { IfOk result (λ log. IfSome (F.content files.old name.now)
        (λ file. (file ≡ logtext log) × FitsLog log)) }
    ensures refused { IfErr result (λ why. IfSome (F.content files.old name.now)
        (λ file. IsLogRefusal (log_verdict file) why)) }
    ensures of_file { IfErr result IsForFile }
    ensures asked { F.asked files.new ≡ F.asked files.old ++ getting name.now ∷ [] }
    ensures fault { IsErrOf result LoadError.Fault
        → Rose (F.faults files.old) (F.faults files.new) }
    ensures later { F.faults files.old ≤ F.faults files.new }
    ensures stays { (n : List ℕ) → F.content files.new n ≡ F.content files.old n }
    ensures tells { F.tells files.new ≡ F.tells files.old }
{
    match files.get(name, LIMIT) {
        Ok(bytes) => read_file(alloc, &bytes),
        Err(FileError::TooLong) => Err(LoadError::Log(LogRefusal::TooLong)),
        Err(FileError::Fault) => Err(LoadError::Fault),
        Err(FileError::Memory) => Err(LoadError::Memory),
    }
}
