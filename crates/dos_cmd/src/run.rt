// The command `run`.
ghost use Rattle.std.specs.Prelude.{◌≡◌, ◌≢◌, ◌≤◌, ◌⊎◌, ℕ, List, [], length, map, IfOk, IfErr};
ghost use Rattle.std.specs.Prelude.{IfSome, IsErrOf, IsTrue, OnOk, OnErr, Some, Err, false, ◌∷◌};
ghost use Rattle.dos_world.specs.Lawful.{IsConfig};
ghost use Rattle.dos_io.specs.Outside.{GrewByFront, HasCause, Rose, grown};
ghost use Rattle.dpg_run.specs.Report.{report_in};
ghost use Rattle.group_rounds.specs.Kernels.{kernel_world};
ghost use Rattle.log_text.specs.Bytes.{AreDigests};
ghost use Rattle.log_text.specs.LogText.{logtext};
ghost use Rattle.elf_image.specs.Image.{Image as Parsed};
ghost use Rattle.flat_machine.specs.Opening.{needed};
ghost use Rattle.logged_runs.specs.Opened.{IsOpenedWith};
ghost use Rattle.logged_runs.specs.Recording.{host_seen};
ghost use Rattle.shim_log.specs.Ledger.{ArePlanned, empty_ledger};
ghost use Rattle.dos_texts.specs.Exit.{ending_status};
ghost use Rattle.dos_cmd.specs.Asking.{Asks, files_named, named_by};
ghost use Rattle.dos_cmd.specs.Judging.{digests_of};
ghost use Rattle.dos_cmd.specs.Outside.{outside, faults};
ghost use Rattle.dos_cmd.specs.RunLeaves.{DidRun, IsPrepared, RunAsked, clock_rule, header_of};
ghost use Rattle.dos_cmd.specs.Results.{Begun, Did, Leaves};
ghost use Rattle.dos_cmd.specs.Requests.{AreOpened, IsNotBegun, IsReadyToRun, run_request};
ghost use Rattle.dos_cmd.specs.Stops.{IsNotOpened, IsUnreported, IsUnwritten, IsWritten, LeavesRun};

use crate::images::load_all;
use crate::stops::refusal_by;
use dos_io::{ClockRule, FileError, Files, Host, Sink};
use dos_texts::Refusal;
use dos_words::{Names, Posts, Text};
use dos_world::{Config, Ending};
use dpg_run::{open_group, put_report};
use elf_image::Image;
use group_open::OpenError;
use group_rounds::Kernel;
use log_files::store_log;
use log_text::{Digests, Log, LogHeader};
use logged_runs::record_group;
use shim_log::Ledger;
use std::alloc::Global;
use worker_pool::Workers;

/// What `run` is asked for, but for its workers.
#[derive(Drop)]
pub(crate) struct RunRequest<'a> {
    pub(crate) config: Config,
    pub(crate) posts: &'a Posts,
    pub(crate) clock_from: Option<u64>,
    pub(crate) clock_step: u64,
    pub(crate) log: &'a Text,
    pub(crate) names: &'a Names,
}

impl RunRequest<'_> {
    /// A counted clock where its first reading is given, else the host's.
    fn clock(&self) -> ClockRule
        ensures { result ≡ clock_rule self.now.clock_from self.now.clock_step }
    {
        match self.clock_from {
            Some(from) => ClockRule::Counted {
                from,
                step: self.clock_step,
            },
            None => ClockRule::FromHost,
        }
    }

    /// The header of the log.
    fn header(&self, digests: Digests) -> LogHeader
        ensures { result ≡ header_of self.now.config digests }
    {
        LogHeader {
            quantum: self.config.quantum,
            rounds: self.config.rounds,
            frames: self.config.frames,
            digests,
        }
    }

    /// A ledger of nothing yet, for images of files with these digests. The error is want of
    /// memory.
    fn ledger(&self, alloc: Global, digests: Digests) -> Result<Ledger, Refusal>
        requires range { IsConfig self.now.config }
        requires some { 1 ≤ length self.now.names.now }
        requires few { length self.now.names.now ≤ 8 }
        requires few_posts { length self.now.posts.now ≤ 32 }
        requires planned { ArePlanned self.now.posts.now }
        requires digest_count { length digests ≡ length self.now.names.now }
        requires are_digests { AreDigests digests }
        ensures empty { IfOk result (λ ledger. ledger ≡ empty_ledger self.now.posts.now
            (clock_rule self.now.clock_from self.now.clock_step)
            (header_of self.now.config digests) ledger.room) }
        ensures memory { IfErr result (λ why. why ≡ Refusal.Memory) }
    {
        let posts = self.posts.as_slice();
        match Ledger::new(alloc, posts, self.clock(), self.header(digests)) {
            Ok(ledger) => Ok(ledger),
            Err(_) => Err(Refusal::Memory),
        }
    }
}

/// Opens the group of these images.
pub fn open(alloc: Global, images: &[Image], config: Config) -> Result<Kernel, Refusal>
    requires some { 1 ≤ length images.now }
    requires few { length images.now ≤ 8 }
    requires config { IsConfig config }
    ensures opened { IfOk result (λ kernel. IsOpenedWith kernel images.now config) }
    ensures running { IfOk result (λ kernel. kernel.failed ≡ false) }
    ensures fresh { IfOk result (λ kernel. kernel.state.round ≡ 1) }
    ensures room { IfOk result (λ kernel. needed images.now ≤ config.frames) }
    // for want of room, with both numbers, or for want of memory
    ensures refused { IfErr result (IsNotOpened images.now config) }
{
    match open_group(alloc, images, config) {
        Ok(kernel) => Ok(kernel),
        Err(OpenError::NoRoom { needed, frames }) => Err(Refusal::NoRoom(needed, frames)),
        Err(OpenError::Memory) => Err(Refusal::Memory),
    }
}

/// Writes the log of a run to its file.
fn store<F: Files>(alloc: Global, files: &mut F, name: &Text, log: &Log) -> Result<(), Refusal>
    ensures content { OnOk result (IfSome (F.content files.old name.now)
        (λ _. F.content files.new name.now ≡ Some (logtext log.now))) }
    ensures holds { OnOk result (IsTrue (F.tells files.old)
        → F.content files.new name.now ≡ Some (logtext log.now)) }
    ensures fault { IfErr result (λ why. (why ≡ Refusal.Files)
        ⊎ ((why ≡ Refusal.Memory)
        × (F.content files.new name.now ≡ F.content files.old name.now))) }
    ensures cause { IsErrOf result Refusal.Files → Rose (F.faults files.old) (F.faults files.new) }
    ensures asked { Asks (files_named [] [] (name.now ∷ [])) result (F.asked files.old)
        (F.asked files.new) }
    ensures others { (n : List ℕ) → n ≢ name.now → F.content files.new n ≡ F.content files.old n }
    ensures tells { F.tells files.new ≡ F.tells files.old }
    ensures later { F.faults files.old ≤ F.faults files.new }
{
    match store_log(alloc, files, name.as_str(), log) {
        Ok(()) => Ok(()),
        Err(FileError::Memory) => Err(Refusal::Memory),
        Err(FileError::Fault) => Err(Refusal::Files),
        Err(FileError::TooLong) => unreachable!(),
    }
}

/// Puts the report of a run that ended so.
pub fn report<E: Sink>(kernel: &Kernel, ending: Ending, err: &mut E) -> Result<Ending, Refusal>
    ensures same { IfOk result (λ ended. ended ≡ ending) }
    ensures told { OnOk result (E.told err.new
        ≡ grown (E.told err.old) (report_in (kernel_world kernel.now) ending)) }
    ensures front { OnErr result (GrewByFront (E.told err.old) (E.told err.new)
        (report_in (kernel_world kernel.now) ending)) }
    ensures sink { IfErr result (λ why. why ≡ Refusal.Sink) }
    ensures cause { HasCause (E.faults err.old) (E.faults err.new) result }
    ensures steady { OnOk result (E.faults err.new ≡ E.faults err.old) }
{
    match put_report(kernel, ending, err) {
        Ok(()) => Ok(ending),
        Err(_) => Err(Refusal::Sink),
    }
}

// Writes the log of a run that has ended so, and puts its report. After a fault of the files, or
// for want of memory, nothing was put.
fn conclude<F: Files, E: Sink>(
    alloc: Global,
    kernel: &Kernel,
    ending: Ending,
    log: &Log,
    name: &Text,
    files: &mut F,
    err: &mut E,
) -> Result<Ending, Refusal>
    ensures same { IfOk result (λ ended. ended ≡ ending) }
    ensures written { OnOk result (IsWritten log.now (F.tells files.old) (F.content files.old)
        (F.content files.new) name.now) }
    ensures told { OnOk result (E.told err.new
        ≡ grown (E.told err.old) (report_in (kernel_world kernel.now) ending)) }
    ensures leaves { IfErr result (λ why. IsUnwritten why (F.content files.old)
        (F.content files.new) name.now (F.faults files.old) (F.faults files.new) (E.told err.old)
        (E.told err.new) ⊎ IsUnreported why log.now (F.tells files.old) (F.content files.old)
        (F.content files.new) name.now (E.faults err.old) (E.faults err.new) (E.told err.old)
        (E.told err.new) (report_in (kernel_world kernel.now) ending)) }
    ensures others { (n : List ℕ) → n ≢ name.now → F.content files.new n ≡ F.content files.old n }
    ensures asked { Asks (files_named [] [] (name.now ∷ [])) result (F.asked files.old)
        (F.asked files.new) }
    ensures files_later { F.faults files.old ≤ F.faults files.new }
    ensures err_later { E.faults err.old ≤ E.faults err.new }
    ensures err_steady { result ≢ Err Refusal.Sink → E.faults err.new ≡ E.faults err.old }
{
    store(alloc, files, name, log)?;
    report(kernel, ending, err)
}

/// Runs a group that was opened, writes its log and puts its report.
fn run_opened<F: Files, H: Host, O: Sink, E: Sink, W: Workers>(
    alloc: Global,
    kernel: &mut Kernel,
    ledger: Ledger,
    name: &Text,
    files: &mut F,
    host: &mut H,
    out: &mut O,
    err: &mut E,
    workers: &mut W,
) -> Result<Ending, Refusal>
    requires running { kernel.old.failed ≡ false }
    requires fresh { kernel.old.state.round ≡ 1 }
    requires begins { ledger
        ≡ empty_ledger ledger.posts ledger.clock ledger.header ledger.room }
    ensures did { IfOk result (λ ending. (asked : RunAsked) (images : List Parsed)
        → IsPrepared asked images kernel.old ledger name.now
        (outside (F.tells files.old) (F.content files.old) (F.content files.new)
        (host_seen (H.told host.old) (H.asked host.old))
        (host_seen (H.told host.new) (H.asked host.new)) (O.told out.old) (O.told out.new)
        (E.told err.old) (E.told err.new)
        (W.tally workers.old) (W.tally workers.new))
        → DidRun asked images (ending_status ending)
        (outside (F.tells files.old) (F.content files.old) (F.content files.new)
        (host_seen (H.told host.old) (H.asked host.old))
        (host_seen (H.told host.new) (H.asked host.new)) (O.told out.old) (O.told out.new)
        (E.told err.old) (E.told err.new)
        (W.tally workers.old) (W.tally workers.new))) }
    ensures leaves { IfErr result (λ why. (asked : RunAsked) (images : List Parsed)
        → IsPrepared asked images kernel.old ledger name.now
        (outside (F.tells files.old) (F.content files.old) (F.content files.new)
        (host_seen (H.told host.old) (H.asked host.old))
        (host_seen (H.told host.new) (H.asked host.new)) (O.told out.old) (O.told out.new)
        (E.told err.old) (E.told err.new)
        (W.tally workers.old) (W.tally workers.new))
        → LeavesRun asked images
        (outside (F.tells files.old) (F.content files.old) (F.content files.new)
        (host_seen (H.told host.old) (H.asked host.old))
        (host_seen (H.told host.new) (H.asked host.new)) (O.told out.old) (O.told out.new)
        (E.told err.old) (E.told err.new)
        (W.tally workers.old) (W.tally workers.new))
        (faults (F.faults files.old) (F.faults files.new) (H.faults host.old) (H.faults host.new)
        (O.faults out.old) (O.faults out.new) (E.faults err.old) (E.faults err.new)) why) }
    ensures asked { Asks (files_named [] [] (name.now ∷ [])) result (F.asked files.old)
        (F.asked files.new) }
    ensures files_later { F.faults files.old ≤ F.faults files.new }
    ensures host_later { H.faults host.old ≤ H.faults host.new }
    ensures host_steady { result ≢ Err Refusal.Host → H.faults host.new ≡ H.faults host.old }
    ensures out_later { O.faults out.old ≤ O.faults out.new }
    ensures err_later { E.faults err.old ≤ E.faults err.new }
    ensures out_steady { result ≢ Err Refusal.Sink → O.faults out.new ≡ O.faults out.old }
    ensures err_steady { result ≢ Err Refusal.Sink → E.faults err.new ≡ E.faults err.old }
    ensures fixed { W.fixed workers.new ≡ W.fixed workers.old }
{
    match record_group(kernel, host, ledger, out, err, workers) {
        Ok((ending, log)) => conclude(alloc, kernel, ending, &log, name, files, err),
        Err(stop) => Err(refusal_by(stop)),
    }
}

// Reads the images of a run and opens their group; beside it the digests of their files.
fn open_named<F: Files>(
    alloc: Global,
    request: &RunRequest<'_>,
    files: &mut F,
) -> Result<(Kernel, Digests), Refusal>
    requires range { IsConfig request.now.config }
    requires some { 1 ≤ length request.now.names.now }
    requires few { length request.now.names.now ≤ 8 }
    ensures opened { IfOk result (λ x. AreOpened request.now (F.content files.old) x.0) }
    ensures running { IfOk result (λ x. x.0.failed ≡ false) }
    ensures fresh { IfOk result (λ x. x.0.state.round ≡ 1) }
    ensures digests { IfOk result (λ x. IfSome
        (digests_of (map (F.content files.old) request.now.names.now)) (λ all. x.1 ≡ all)) }
    ensures digest_count { IfOk result (λ x. length x.1 ≡ length request.now.names.now) }
    ensures are_digests { IfOk result (λ x. AreDigests x.1) }
    ensures leaves { IfErr result (IsNotBegun request.now (F.tells files.old)
        (F.content files.old) (F.content files.new) (F.faults files.old) (F.faults files.new)) }
    ensures asked { Asks (files_named [] request.now.names.now []) result (F.asked files.old)
        (F.asked files.new) }
    ensures later { F.faults files.old ≤ F.faults files.new }
    ensures stays { (n : List ℕ) → F.content files.new n ≡ F.content files.old n }
    ensures tells { F.tells files.new ≡ F.tells files.old }
{
    let (images, digests, contents) = load_all(alloc, files, request.names)?;
    drop(contents);
    let opened = open(alloc, &images, request.config);
    drop(images);
    Ok((opened?, digests))
}

// Makes all ready for a run: its group, opened, and a ledger of nothing yet.
fn prepare<F: Files>(
    alloc: Global,
    request: &RunRequest<'_>,
    files: &mut F,
) -> Result<(Kernel, Ledger), Refusal>
    requires range { IsConfig request.now.config }
    requires some { 1 ≤ length request.now.names.now }
    requires few { length request.now.names.now ≤ 8 }
    requires few_posts { length request.now.posts.now ≤ 32 }
    requires planned { ArePlanned request.now.posts.now }
    ensures ready { IfOk result (λ x. IsReadyToRun request.now (F.content files.old) x.0 x.1) }
    ensures running { IfOk result (λ x. x.0.failed ≡ false) }
    ensures fresh { IfOk result (λ x. x.0.state.round ≡ 1) }
    ensures begins { IfOk result (λ x. x.1 ≡ empty_ledger x.1.posts x.1.clock x.1.header x.1.room) }
    ensures leaves { IfErr result (IsNotBegun request.now (F.tells files.old)
        (F.content files.old) (F.content files.new) (F.faults files.old) (F.faults files.new)) }
    ensures asked { Asks (files_named [] request.now.names.now []) result (F.asked files.old)
        (F.asked files.new) }
    ensures later { F.faults files.old ≤ F.faults files.new }
    ensures stays { (n : List ℕ) → F.content files.new n ≡ F.content files.old n }
    ensures tells { F.tells files.new ≡ F.tells files.old }
{
    let (kernel, digests) = open_named(alloc, request, files)?;
    match request.ledger(alloc, digests) {
        Ok(ledger) => Ok((kernel, ledger)),
        Err(why) => {
            drop(kernel);
            Err(why)
        }
    }
}

/// Does what `run` is asked for.
pub(crate) fn run<F: Files, H: Host, O: Sink, E: Sink, W: Workers>(
    alloc: Global,
    request: &RunRequest<'_>,
    files: &mut F,
    host: &mut H,
    out: &mut O,
    err: &mut E,
    workers: &mut W,
) -> Result<Ending, Refusal>
    requires range { IsConfig request.now.config }
    requires some { 1 ≤ length request.now.names.now }
    requires few { length request.now.names.now ≤ 8 }
    requires few_posts { length request.now.posts.now ≤ 32 }
    requires planned { ArePlanned request.now.posts.now }
    ensures did { (n : ℕ) → IfOk result (λ ending.
        Begun (run_request request.now n)
        (outside (F.tells files.old) (F.content files.old) (F.content files.new)
        (host_seen (H.told host.old) (H.asked host.old))
        (host_seen (H.told host.new) (H.asked host.new)) (O.told out.old) (O.told out.new)
        (E.told err.old) (E.told err.new)
        (W.tally workers.old) (W.tally workers.new))
        (λ taken. Did (run_request request.now n) taken (ending_status ending)
        (outside (F.tells files.old) (F.content files.old) (F.content files.new)
        (host_seen (H.told host.old) (H.asked host.old))
        (host_seen (H.told host.new) (H.asked host.new)) (O.told out.old) (O.told out.new)
        (E.told err.old) (E.told err.new)
        (W.tally workers.old) (W.tally workers.new)))) }
    ensures leaves { (n : ℕ) → IfErr result (λ why.
        Leaves (run_request request.now n)
        (outside (F.tells files.old) (F.content files.old) (F.content files.new)
        (host_seen (H.told host.old) (H.asked host.old))
        (host_seen (H.told host.new) (H.asked host.new)) (O.told out.old) (O.told out.new)
        (E.told err.old) (E.told err.new)
        (W.tally workers.old) (W.tally workers.new))
        (faults (F.faults files.old) (F.faults files.new) (H.faults host.old) (H.faults host.new)
        (O.faults out.old) (O.faults out.new) (E.faults err.old) (E.faults err.new)) why []) }
    ensures asked { (n : ℕ) → Asks (named_by (run_request request.now n)) result
        (F.asked files.old) (F.asked files.new) }
    ensures files_later { F.faults files.old ≤ F.faults files.new }
    ensures host_later { H.faults host.old ≤ H.faults host.new }
    ensures host_steady { result ≢ Err Refusal.Host → H.faults host.new ≡ H.faults host.old }
    ensures out_later { O.faults out.old ≤ O.faults out.new }
    ensures err_later { E.faults err.old ≤ E.faults err.new }
    ensures out_steady { result ≢ Err Refusal.Sink → O.faults out.new ≡ O.faults out.old }
    ensures err_steady { result ≢ Err Refusal.Sink → E.faults err.new ≡ E.faults err.old }
    ensures fixed { W.fixed workers.new ≡ W.fixed workers.old }
{
    let (mut kernel, ledger) = prepare(alloc, request, files)?;
    let ended = run_opened(
        alloc,
        &mut kernel,
        ledger,
        request.log,
        files,
        host,
        out,
        err,
        workers,
    );
    drop(kernel);
    ended
}
