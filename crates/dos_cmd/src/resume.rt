// The command `resume`. It is lent no host.
ghost use Rattle.std.specs.Prelude.{◌≡◌, ◌≢◌, ◌≤◌, ◌<◌, ◌⊎◌, true, ℕ, Bool, List, Option, []};
ghost use Rattle.std.specs.Prelude.{length, IfOk};
ghost use Rattle.std.specs.Prelude.{IfErr, IfSome, IsErrOf, Ok, Err, false, ◌∷◌, ◌++◌};
ghost use Rattle.dos_io.specs.FileCalls.{getting};
ghost use Rattle.dos_io.specs.Outside.{Rose};
ghost use Rattle.dos_world.specs.Lawful.{Lawful};
ghost use Rattle.group_text.specs.GroupText.{group_row};
ghost use Rattle.group_text.specs.Groups.{world_in};
ghost use Rattle.group_text.specs.Records.{group_of_record};
ghost use Rattle.group_files.specs.Judging.{group_verdict, is_of_log};
ghost use Rattle.dos_cmd.specs.SaveLeaves.{log_digest};
ghost use Rattle.group_rounds.specs.Kernels.{kernel_world};
ghost use Rattle.logged_runs.specs.Recording.{HostSeen};
ghost use Rattle.log_text.specs.LogText.{exchanges};
ghost use Rattle.dos_texts.specs.Exit.{ending_status};
ghost use Rattle.dos_words.specs.declared.request.Request.TheVariants as requests;
ghost use Rattle.dos_cmd.specs.Asking.{Asks, files_named, named_by};
ghost use Rattle.dos_cmd.specs.Judging.{resume_judgement, taken_group};
ghost use Rattle.dos_cmd.specs.Outside.{outside, faults};
ghost use Rattle.dos_cmd.specs.ResumeLeaves.{DidResume, IsOfSavedFile, LeavesResume, OfGroupFile};
ghost use Rattle.dos_cmd.specs.ResumeLeaves.{OfTakingGroup};
ghost use Rattle.dos_cmd.specs.Results.{Begun, Did, Leaves};

use crate::replay::read;
use crate::run::report;
use crate::stops::refusal_by;
use dos_io::{Files, Sink};
use dos_texts::Refusal;
use dos_words::Text;
use dos_world::Ending;
use group_files::{GroupFileError, SavedRefusal, is_of_log, load_group};
use group_rounds::Kernel;
use group_save::restore_group;
use group_text::GroupRecord;
use log_files::digest_of_log;
use log_text::Log;
use logged_runs::resume_group;
use std::alloc::Global;
use worker_pool::Workers;

/// Reads the saved group.
fn read_saved<F: Files>(alloc: Global, files: &mut F, name: &Text) -> Result<GroupRecord, Refusal>
    ensures accepted { IfOk result (λ g. IfSome (F.content files.old name.now)
        (λ file. group_verdict file ≡ Ok (group_of_record g))) }
    ensures fits { IfOk result (λ g. group_row.Fits (group_of_record g)) }
    ensures lawful { IfOk result (λ g. Lawful (world_in (group_of_record g))) }
    ensures refused { IfErr result (λ why. OfGroupFile why (λ found. IfSome
        (F.content files.old name.now) (λ file. group_verdict file ≡ Err found))) }
    ensures of_file { IfErr result (λ why. OfGroupFile why IsOfSavedFile) }
    ensures fault { IsErrOf result Refusal.Files → Rose (F.faults files.old) (F.faults files.new) }
    ensures asked { F.asked files.new ≡ F.asked files.old ++ getting name.now ∷ [] }
    ensures later { F.faults files.old ≤ F.faults files.new }
    ensures stays { (n : List ℕ) → F.content files.new n ≡ F.content files.old n }
{
    match load_group(alloc, files, name.as_str()) {
        Ok(group) => Ok(group),
        Err(GroupFileError::Group(why)) => Err(Refusal::Group(why)),
        Err(GroupFileError::Fault) => Err(Refusal::Files),
        Err(GroupFileError::Memory) => Err(Refusal::Memory),
    }
}

/// Whether a group is of a log, of which some is left. The error is want of memory.
fn belongs(alloc: Global, group: &GroupRecord, log: &Log) -> Result<bool, Refusal>
    ensures is { IfOk result (λ b. b
        ≡ is_of_log (group_of_record group.now) (log_digest log.now)
        (length (exchanges log.now))) }
    ensures memory { IfErr result (λ why. why ≡ Refusal.Memory) }
{
    match digest_of_log(alloc, log) {
        Ok(digest) => Ok(is_of_log(group, &digest, log.len())),
        Err(_) => Err(Refusal::Memory),
    }
}

/// Holds a group against its log.
fn hold(alloc: Global, group: GroupRecord, log: Log) -> Result<(GroupRecord, Log), Refusal>
    ensures same { IfOk result (λ x. x ≡ (group, log)) }
    ensures of_log { IfOk result (λ x. is_of_log (group_of_record group) (log_digest log)
        (length (exchanges log)) ≡ true) }
    ensures refused { IfErr result (λ why. (why ≡ Refusal.Memory)
        ⊎ ((why ≡ Refusal.Group SavedRefusal.OtherLog)
        × (is_of_log (group_of_record group) (log_digest log) (length (exchanges log)) ≡ false))) }
{
    match belongs(alloc, &group, &log) {
        Ok(true) => Ok((group, log)),
        Ok(false) => {
            drop(group);
            drop(log);
            Err(Refusal::Group(SavedRefusal::OtherLog))
        }
        Err(why) => {
            drop(group);
            drop(log);
            Err(why)
        }
    }
}

/// Reads a saved group and its log, and holds the one against the other.
fn take_saved<F: Files>(
    alloc: Global,
    files: &mut F,
    log: &Text,
    from: &Text,
) -> Result<(GroupRecord, Log), Refusal>
    ensures taken { IfOk result (λ x. IfSome (resume_judgement (F.content files.old from.now)
        (F.content files.old log.now)) (λ j. j ≡ Ok (taken_group (group_of_record x.0) x.1))) }
    ensures fits { IfOk result (λ x. group_row.Fits (group_of_record x.0)) }
    ensures lawful { IfOk result (λ x. Lawful (world_in (group_of_record x.0))) }
    ensures left { IfOk result (λ x. x.0.used < length (exchanges x.1)) }
    ensures refused { IfErr result (λ why. OfTakingGroup why (λ why. IfSome
        (resume_judgement (F.content files.old from.now) (F.content files.old log.now))
        (λ j. j ≡ Err why))) }
    ensures fault { IsErrOf result Refusal.Files → Rose (F.faults files.old) (F.faults files.new) }
    ensures asked { Asks (files_named (from.now ∷ log.now ∷ []) [] []) result (F.asked files.old)
        (F.asked files.new) }
    ensures later { F.faults files.old ≤ F.faults files.new }
    ensures stays { (n : List ℕ) → F.content files.new n ≡ F.content files.old n }
{
    let group = read_saved(alloc, files, from)?;
    match read(alloc, files, log) {
        Ok(log) => hold(alloc, group, log),
        Err(why) => {
            drop(group);
            Err(why)
        }
    }
}

/// The kernel of a saved group, between the rounds that were run and the next.
fn open_saved(alloc: Global, group: GroupRecord) -> Result<Kernel, Refusal>
    requires fits { group_row.Fits (group_of_record group) }
    requires lawful { Lawful (world_in (group_of_record group)) }
    ensures world { IfOk result
        (λ kernel. kernel_world kernel ≡ world_in (group_of_record group)) }
    ensures config { IfOk result (λ kernel. kernel.config ≡ group.config) }
    ensures running { IfOk result (λ kernel. kernel.failed ≡ false) }
    ensures memory { IfErr result (λ why. why ≡ Refusal.Memory) }
{
    let config = group.config;
    match restore_group(alloc, group) {
        Ok(state) => match Kernel::new(alloc, state, config) {
            Ok(kernel) => Ok(kernel),
            Err(_) => Err(Refusal::Memory),
        },
        Err(_) => Err(Refusal::Memory),
    }
}

/// Goes on with a saved group by its log, and puts the report.
fn resume_taken<O: Sink, E: Sink, W: Workers>(
    alloc: Global,
    group: GroupRecord,
    log: Log,
    out: &mut O,
    err: &mut E,
    workers: &mut W,
) -> Result<Ending, Refusal>
    requires fits { group_row.Fits (group_of_record group) }
    requires lawful { Lawful (world_in (group_of_record group)) }
    requires left { group.used < length (exchanges log) }
    // whatever files and a host tell, where they stay
    ensures did { IfOk result (λ ending. (tells : Bool) (f f' : List ℕ → Option (List ℕ))
        (h : HostSeen) → ((n : List ℕ) → f' n ≡ f n)
        → DidResume (group_of_record group) log (ending_status ending)
        (outside tells f f' h h (O.told out.old) (O.told out.new) (E.told err.old) (E.told err.new)
        (W.tally workers.old) (W.tally workers.new))) }
    ensures leaves { IfErr result (λ why. (tells : Bool) (f f' : List ℕ → Option (List ℕ))
        (h : HostSeen) (k k' m : ℕ) → ((n : List ℕ) → f' n ≡ f n)
        → LeavesResume (group_of_record group) log
        (outside tells f f' h h (O.told out.old) (O.told out.new) (E.told err.old) (E.told err.new)
        (W.tally workers.old) (W.tally workers.new))
        (faults k k' m m (O.faults out.old) (O.faults out.new) (E.faults err.old)
        (E.faults err.new)) why) }
    ensures out_later { O.faults out.old ≤ O.faults out.new }
    ensures err_later { E.faults err.old ≤ E.faults err.new }
    ensures out_steady { result ≢ Err Refusal.Sink → O.faults out.new ≡ O.faults out.old }
    ensures err_steady { result ≢ Err Refusal.Sink → E.faults err.new ≡ E.faults err.old }
    ensures fixed { W.fixed workers.new ≡ W.fixed workers.old }
{
    let used = group.used;
    let mut kernel = match open_saved(alloc, group) {
        Ok(kernel) => kernel,
        Err(why) => {
            drop(log);
            return Err(why);
        }
    };
    match resume_group(&mut kernel, log, used, out, err, workers) {
        Ok(ending) => {
            let ended = report(&kernel, ending, err);
            drop(kernel);
            ended
        }
        Err(stop) => {
            drop(kernel);
            Err(refusal_by(stop))
        }
    }
}

/// Does what `resume` is asked for.
pub(crate) fn resume<F: Files, O: Sink, E: Sink, W: Workers>(
    alloc: Global,
    log: &Text,
    from: &Text,
    files: &mut F,
    out: &mut O,
    err: &mut E,
    workers: &mut W,
) -> Result<Ending, Refusal>
    // whatever a host tells, and however often it failed
    ensures did { (n : ℕ) (h : HostSeen) → IfOk result (λ ending.
        Begun (requests.Resume n log.now from.now)
        (outside (F.tells files.old) (F.content files.old) (F.content files.new) h h
        (O.told out.old) (O.told out.new) (E.told err.old) (E.told err.new)
        (W.tally workers.old) (W.tally workers.new))
        (λ taken. Did (requests.Resume n log.now from.now) taken (ending_status ending)
        (outside (F.tells files.old) (F.content files.old) (F.content files.new) h h
        (O.told out.old) (O.told out.new) (E.told err.old) (E.told err.new)
        (W.tally workers.old) (W.tally workers.new)))) }
    ensures leaves { (n : ℕ) (h : HostSeen) (m : ℕ) → IfErr result (λ why.
        Leaves (requests.Resume n log.now from.now)
        (outside (F.tells files.old) (F.content files.old) (F.content files.new) h h
        (O.told out.old) (O.told out.new) (E.told err.old) (E.told err.new)
        (W.tally workers.old) (W.tally workers.new))
        (faults (F.faults files.old) (F.faults files.new) m m (O.faults out.old) (O.faults out.new)
        (E.faults err.old) (E.faults err.new)) why []) }
    ensures asked { (n : ℕ) → Asks (named_by (requests.Resume n log.now from.now)) result
        (F.asked files.old) (F.asked files.new) }
    ensures files_later { F.faults files.old ≤ F.faults files.new }
    ensures out_later { O.faults out.old ≤ O.faults out.new }
    ensures err_later { E.faults err.old ≤ E.faults err.new }
    ensures out_steady { result ≢ Err Refusal.Sink → O.faults out.new ≡ O.faults out.old }
    ensures err_steady { result ≢ Err Refusal.Sink → E.faults err.new ≡ E.faults err.old }
    ensures fixed { W.fixed workers.new ≡ W.fixed workers.old }
{
    let (group, log) = take_saved(alloc, files, log, from)?;
    resume_taken(alloc, group, log, out, err, workers)
}
