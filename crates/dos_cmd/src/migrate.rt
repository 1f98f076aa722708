// The command `migrate`. It is lent no host, and nothing for errors.
ghost use Rattle.std.specs.Prelude.{◌≡◌, ◌≢◌, ◌≤◌, ◌<◌, ◌⊎◌, ℕ, List, Option, [], length};
ghost use Rattle.std.specs.Prelude.{Err, IfOk, IfErr, IfSome, IsErrOf, IsTrue, OnOk, Some, ◌∷◌};
ghost use Rattle.dos_io.specs.Hosts.{Told};
ghost use Rattle.logged_runs.specs.Recording.{HostSeen};
ghost use Rattle.dos_io.specs.Outside.{Rose};
ghost use Rattle.log_text.specs.Ranges.{most_bytes};
ghost use Rattle.dos_texts.specs.Exit.{ending_status};
ghost use Rattle.dos_words.specs.declared.request.Request.TheVariants as requests;
ghost use Rattle.dos_cmd.specs.Asking.{Asks, files_named, named_by};
ghost use Rattle.dos_cmd.specs.Migrating.{migrated_text, DoesMigrate, LeavesMigration};
ghost use Rattle.dos_cmd.specs.Outside.{outside, faults};
ghost use Rattle.dos_cmd.specs.Results.{Begun, Did, Leaves};

use crate::replay::read;
use dos_io::{FileError, Files, Sink};
use dos_texts::{Refusal, put_migrated};
use dos_words::Text;
use dos_world::Ending;
use log_text::{Log, LogVersion, write_log};
use std::alloc::Global;

/// The longest text that a log may have: 64 MiB.
const LIMIT: usize = 67108864;

/// The log's text of version 2, where it is no longer than a log may be.
#[tactic(auto, unfolding(crate::specs::Migrating::migrated_text))]
fn text_of(alloc: Global, log: &Log) -> Result<Vec<u8>, Refusal>
    ensures text { IfOk result (λ text. text.items ≡ migrated_text log.now) }
    ensures fits { OnOk result (length (migrated_text log.now) ≤ most_bytes) }
    ensures refused { IfErr result (λ why. (why ≡ Refusal.Memory)
        ⊎ ((why ≡ Refusal.LogFull) × (most_bytes < length (migrated_text log.now)))) }
{
    match write_log(alloc, log, LogVersion::Two) {
        Ok(text) => {
            if LIMIT < text.len() {
                return Err(Refusal::LogFull);
            }
            Ok(text)
        }
        Err(_) => Err(Refusal::Memory),
    }
}

/// Writes a text to a file. For want of memory it holds what it held.
pub(crate) fn store<F: Files>(files: &mut F, name: &Text, text: &[u8]) -> Result<(), Refusal>
    ensures content { OnOk result (IfSome (F.content files.old name.now)
        (λ _. F.content files.new name.now ≡ Some text.now)) }
    ensures holds { OnOk result (IsTrue (F.tells files.old)
        → F.content files.new name.now ≡ Some text.now) }
    ensures fault { IfErr result (λ why. (why ≡ Refusal.Files)
        ⊎ ((why ≡ Refusal.Memory)
        × (F.content files.new name.now ≡ F.content files.old name.now))) }
    ensures cause { IsErrOf result Refusal.Files → Rose (F.faults files.old) (F.faults files.new) }
    ensures asked { Asks (files_named [] [] (name.now ∷ [])) result (F.asked files.old)
        (F.asked files.new) }
    ensures others { (n : List ℕ) → n ≢ name.now → F.content files.new n ≡ F.content files.old n }
    ensures tells { F.tells files.new ≡ F.tells files.old }
    ensures later { F.faults files.old ≤ F.faults files.new }
{
    match files.set(name.as_str(), text) {
        Ok(()) => Ok(()),
        Err(FileError::Memory) => Err(Refusal::Memory),
        Err(FileError::Fault) => Err(Refusal::Files),
        Err(FileError::TooLong) => unreachable!(),
    }
}

/// Writes a log's text of version 2, and prints both texts' versions and lengths.
fn migrate_read<F: Files, O: Sink>(
    alloc: Global,
    log: &Log,
    to: &Text,
    files: &mut F,
    out: &mut O,
) -> Result<Ending, Refusal>
    ensures ends { IfOk result (λ ending. ending ≡ Ending.Done) }
    ensures migrated { OnOk result (DoesMigrate log.now to.now (F.tells files.old)
        (F.content files.old) (F.content files.new) (O.told out.old) (O.told out.new)) }
    ensures leaves { IfErr result (λ why. LeavesMigration log.now to.now why (F.tells files.old)
        (F.content files.old) (F.content files.new) (O.told out.old) (O.told out.new)
        (F.faults files.old) (F.faults files.new) (O.faults out.old) (O.faults out.new)) }
    ensures asked { Asks (files_named [] [] (to.now ∷ [])) result (F.asked files.old)
        (F.asked files.new) }
    ensures files_later { F.faults files.old ≤ F.faults files.new }
    ensures out_later { O.faults out.old ≤ O.faults out.new }
    ensures out_steady { result ≢ Err Refusal.Sink → O.faults out.new ≡ O.faults out.old }
{
    let text = text_of(alloc, log)?;
    store(files, to, &text)?;
    match put_migrated(log.version(), log.bytes() as u64, text.len() as u64, out) {
        Ok(()) => Ok(Ending::Done),
        Err(_) => Err(Refusal::Sink),
    }
}

/// Does what `migrate` is asked for.
pub(crate) fn migrate<F: Files, O: Sink>(
    alloc: Global,
    log: &Text,
    to: &Text,
    files: &mut F,
    out: &mut O,
) -> Result<Ending, Refusal>
    // whatever a host and error tell, and however often they failed
    ensures did { (h : HostSeen) (e : Option (List ℕ)) (t : ℕ) → IfOk result (λ ending.
        Begun (requests.Migrate log.now to.now)
        (outside (F.tells files.old) (F.content files.old) (F.content files.new) h h
        (O.told out.old) (O.told out.new) e e t t)
        (λ taken. Did (requests.Migrate log.now to.now) taken (ending_status ending)
        (outside (F.tells files.old) (F.content files.old) (F.content files.new) h h
        (O.told out.old) (O.told out.new) e e t t))) }
    ensures leaves { (h : HostSeen) (e : Option (List ℕ)) (t m n : ℕ) → IfErr result (λ why.
        Leaves (requests.Migrate log.now to.now)
        (outside (F.tells files.old) (F.content files.old) (F.content files.new) h h
        (O.told out.old) (O.told out.new) e e t t)
        (faults (F.faults files.old) (F.faults files.new) m m
        (O.faults out.old) (O.faults out.new) n n) why []) }
    ensures asked { Asks (named_by (requests.Migrate log.now to.now)) result (F.asked files.old)
        (F.asked files.new) }
    ensures files_later { F.faults files.old ≤ F.faults files.new }
    ensures out_later { O.faults out.old ≤ O.faults out.new }
    ensures out_steady { result ≢ Err Refusal.Sink → O.faults out.new ≡ O.faults out.old }
{
    let old = read(alloc, files, log)?;
    migrate_read(alloc, &old, to, files, out)
}
