// The command `save`. It is lent no host.
ghost use Rattle.std.specs.Prelude.{◌≡◌, ◌≢◌, ◌≤◌, ℕ, List, Option, [], ◌∷◌, length, IfOk, IfErr};
ghost use Rattle.std.specs.Prelude.{OnErr, OnOk, Err, false};
ghost use Rattle.dos_io.specs.Outside.{GrewByFront, grown};
ghost use Rattle.dos_world.specs.declared.Scheme.TheVariants.{Ownership};
ghost use Rattle.group_text.specs.GroupText.{grouptext};
ghost use Rattle.group_text.specs.Groups.{group_of};
ghost use Rattle.logged_runs.specs.Recording.{HostSeen};
ghost use Rattle.flat_machine.specs.Opening.{needed};
ghost use Rattle.group_rounds.specs.Kernels.{Held, IsBetweenRounds, kernel_world};
ghost use Rattle.dos_texts.specs.Exit.{ending_status};
ghost use Rattle.dos_texts.specs.Saved.{saved_line};
ghost use Rattle.dos_words.specs.declared.request.Request.TheVariants as requests;
ghost use Rattle.dos_cmd.specs.Asking.{Asks, files_named, named_by, named_to_save};
ghost use Rattle.dos_cmd.specs.Outside.{outside, faults};
ghost use Rattle.dos_cmd.specs.Results.{Begun, Did, Leaves};
ghost use Rattle.dos_cmd.specs.SaveLeaves.{ComesBack, DidSave, LeavesSave, LeavesSaving, WasSaved};
ghost use Rattle.dos_cmd.specs.SaveLeaves.{log_digest};

use crate::migrate::store;
use crate::replay::{config_of, take};
use crate::run::{open, report};
use crate::stops::refusal_by;
use dos_io::{Files, Sink};
use dos_texts::{Refusal, put_saved};
use dos_words::{Names, Text};
use dos_world::{Ending, Scheme};
use elf_image::Image;
use group_rounds::Kernel;
use group_save::record_group;
use group_writer::write_group;
use log_files::digest_of_log;
use log_text::Log;
use logged_runs::{Arrived, replay_to};
use std::alloc::Global;
use worker_pool::Workers;

/// What tells the log's file from others.
fn digest(alloc: Global, log: &Log) -> Result<[u8; 32], Refusal>
    ensures digest { IfOk result (λ digest. digest ≡ log_digest log.now) }
    ensures memory { IfErr result (λ why. why ≡ Refusal.Memory) }
{
    match digest_of_log(alloc, log) {
        Ok(digest) => Ok(digest),
        Err(_) => Err(Refusal::Memory),
    }
}

/// The text of a kernel's group, which is taken apart. A file that holds it is taken for the group.
fn text_of(alloc: Global, kernel: Kernel, used: u32, digest: [u8; 32]) -> Result<Vec<u8>, Refusal>
    requires running { kernel.failed ≡ false }
    requires scheme { kernel.config.scheme ≡ Ownership }
    ensures text { IfOk result (λ text. text.items
        ≡ grouptext (group_of digest used kernel.config (kernel_world kernel))) }
    ensures back { IfOk result (λ _. ComesBack
        (group_of digest used kernel.config (kernel_world kernel)) (kernel_world kernel)) }
    ensures memory { IfErr result (λ why. why ≡ Refusal.Memory) }
{
    let config = kernel.config();
    match record_group(alloc, kernel.into_state(), config, used, digest) {
        Ok(group) => match write_group(alloc, &group) {
            Ok(text) => Ok(text),
            Err(_) => Err(Refusal::Memory),
        },
        Err(_) => Err(Refusal::Memory),
    }
}

/// Writes a group's text to its file, and says so.
fn save_text<F: Files, E: Sink>(
    text: &[u8],
    round: u32,
    to: &Text,
    files: &mut F,
    err: &mut E,
) -> Result<Ending, Refusal>
    ensures saved { IfOk result (λ ending. WasSaved text.now round to.now ending
        (F.tells files.old) (F.content files.old) (F.content files.new) (E.told err.old)
        (E.told err.new)) }
    ensures leaves { IfErr result (λ why. LeavesSaving text.now round to.now why
        (F.tells files.old) (F.content files.old) (F.content files.new) (E.told err.old)
        (E.told err.new) (F.faults files.old) (F.faults files.new) (E.faults err.old)
        (E.faults err.new)) }
    ensures asked { Asks (files_named [] [] (to.now ∷ [])) result (F.asked files.old)
        (F.asked files.new) }
    ensures files_later { F.faults files.old ≤ F.faults files.new }
    ensures err_later { E.faults err.old ≤ E.faults err.new }
    ensures err_steady { result ≢ Err Refusal.Sink → E.faults err.new ≡ E.faults err.old }
{
    store(files, to, text)?;
    match put_saved(round, err) {
        Ok(()) => Ok(Ending::Done),
        Err(_) => Err(Refusal::Sink),
    }
}

/// Saves a kernel's group behind so many exchanges of a log, and says so.
fn save_group<F: Files, E: Sink>(
    alloc: Global,
    kernel: Kernel,
    used: u32,
    digest: [u8; 32],
    round: u32,
    to: &Text,
    files: &mut F,
    err: &mut E,
) -> Result<Ending, Refusal>
    requires running { kernel.failed ≡ false }
    requires scheme { kernel.config.scheme ≡ Ownership }
    ensures saved { IfOk result (λ ending. WasSaved
        (grouptext (group_of digest used kernel.config (kernel_world kernel))) round to.now ending
        (F.tells files.old) (F.content files.old) (F.content files.new) (E.told err.old)
        (E.told err.new)) }
    ensures back { IfOk result (λ _. ComesBack
        (group_of digest used kernel.config (kernel_world kernel)) (kernel_world kernel)) }
    ensures leaves { IfErr result (λ why. LeavesSaving
        (grouptext (group_of digest used kernel.config (kernel_world kernel))) round to.now why
        (F.tells files.old) (F.content files.old) (F.content files.new) (E.told err.old)
        (E.told err.new) (F.faults files.old) (F.faults files.new) (E.faults err.old)
        (E.faults err.new)) }
    ensures asked { Asks (files_named [] [] (to.now ∷ [])) result (F.asked files.old)
        (F.asked files.new) }
    ensures files_later { F.faults files.old ≤ F.faults files.new }
    ensures err_later { E.faults err.old ≤ E.faults err.new }
    ensures err_steady { result ≢ Err Refusal.Sink → E.faults err.new ≡ E.faults err.old }
{
    let text = text_of(alloc, kernel, used, digest)?;
    save_text(&text, round, to, files, err)
}

/// Replays a log with these images as far as a round and saves the group; or to its end, where that
/// comes before, and puts the report.
fn save_taken<F: Files, O: Sink, E: Sink, W: Workers>(
    alloc: Global,
    log: Log,
    images: &[Image],
    round: u32,
    to: &Text,
    files: &mut F,
    out: &mut O,
    err: &mut E,
    workers: &mut W,
) -> Result<Ending, Refusal>
    requires some { 1 ≤ length images.now }
    requires few { length images.now ≤ 8 }
    // whatever a host tells, and however the files came to what they tell
    ensures did { IfOk result (λ ending. (f : List ℕ → Option (List ℕ)) (h : HostSeen)
        → ((n : List ℕ) → F.content files.old n ≡ f n)
        → DidSave log images.now round to.now (ending_status ending)
        (outside (F.tells files.old) f (F.content files.new) h h
        (O.told out.old) (O.told out.new) (E.told err.old) (E.told err.new)
        (W.tally workers.old) (W.tally workers.new))) }
    ensures room { OnOk result (needed images.now ≤ log.header.frames) }
    ensures leaves { IfErr result (λ why. (f : List ℕ → Option (List ℕ)) (h : HostSeen)
        (k m : ℕ) → ((n : List ℕ) → F.content files.old n ≡ f n) → k ≤ F.faults files.old
        → LeavesSave log images.now round to.now
        (outside (F.tells files.old) f (F.content files.new) h h
        (O.told out.old) (O.told out.new) (E.told err.old) (E.told err.new)
        (W.tally workers.old) (W.tally workers.new))
        (faults k (F.faults files.new) m m (O.faults out.old) (O.faults out.new)
        (E.faults err.old) (E.faults err.new)) why) }
    ensures asked { Asks (named_to_save [] [] to.now) result (F.asked files.old)
        (F.asked files.new) }
    ensures files_later { F.faults files.old ≤ F.faults files.new }
    ensures out_later { O.faults out.old ≤ O.faults out.new }
    ensures err_later { E.faults err.old ≤ E.faults err.new }
    ensures out_steady { result ≢ Err Refusal.Sink → O.faults out.new ≡ O.faults out.old }
    ensures err_steady { result ≢ Err Refusal.Sink → E.faults err.new ≡ E.faults err.old }
    ensures fixed { W.fixed workers.new ≡ W.fixed workers.old }
{
    let mut kernel = open(alloc, images, config_of(Scheme::Ownership, &log))?;
    let digest = match digest(alloc, &log) {
        Ok(digest) => digest,
        Err(why) => {
            drop(kernel);
            return Err(why);
        }
    };
    match replay_to(&mut kernel, log, round, out, err, workers) {
        Ok(Arrived::AtRound { used }) => {
            save_group(alloc, kernel, used, digest, round, to, files, err)
        }
        Ok(Arrived::AtItsEnd(ending)) => {
            let ended = report(&kernel, ending, err);
            drop(kernel);
            ended
        }
        Err(stop) => {
            drop(kernel);
            Err(refusal_by(stop))
        }
    }
}

/// Does what `save` is asked for.
pub(crate) fn save<F: Files, O: Sink, E: Sink, W: Workers>(
    alloc: Global,
    log: &Text,
    round: u32,
    to: &Text,
    names: &Names,
    files: &mut F,
    out: &mut O,
    err: &mut E,
    workers: &mut W,
) -> Result<Ending, Refusal>
    requires few { length names.now ≤ 8 }
    // whatever a host tells, and however often it failed
    ensures did { (n : ℕ) (h : HostSeen) → IfOk result (λ ending.
        Begun (requests.Save n log.now round to.now names.now)
        (outside (F.tells files.old) (F.content files.old) (F.content files.new) h h
        (O.told out.old) (O.told out.new) (E.told err.old) (E.told err.new)
        (W.tally workers.old) (W.tally workers.new))
        (λ taken. Did (requests.Save n log.now round to.now names.now) taken (ending_status ending)
        (outside (F.tells files.old) (F.content files.old) (F.content files.new) h h
        (O.told out.old) (O.told out.new) (E.told err.old) (E.told err.new)
        (W.tally workers.old) (W.tally workers.new)))) }
    ensures leaves { (n : ℕ) (h : HostSeen) (m : ℕ) → IfErr result (λ why.
        Leaves (requests.Save n log.now round to.now names.now)
        (outside (F.tells files.old) (F.content files.old) (F.content files.new) h h
        (O.told out.old) (O.told out.new) (E.told err.old) (E.told err.new)
        (W.tally workers.old) (W.tally workers.new))
        (faults (F.faults files.old) (F.faults files.new) m m (O.faults out.old) (O.faults out.new)
        (E.faults err.old) (E.faults err.new)) why []) }
    ensures asked { (n : ℕ) → Asks (named_by (requests.Save n log.now round to.now names.now))
        result (F.asked files.old) (F.asked files.new) }
    ensures files_later { F.faults files.old ≤ F.faults files.new }
    ensures out_later { O.faults out.old ≤ O.faults out.new }
    ensures err_later { E.faults err.old ≤ E.faults err.new }
    ensures out_steady { result ≢ Err Refusal.Sink → O.faults out.new ≡ O.faults out.old }
    ensures err_steady { result ≢ Err Refusal.Sink → E.faults err.new ≡ E.faults err.old }
    ensures fixed { W.fixed workers.new ≡ W.fixed workers.old }
{
    let (log, images, contents) = take(alloc, files, log, names)?;
    drop(contents);
    save_taken(alloc, log, &images, round, to, files, out, err, workers)
}
