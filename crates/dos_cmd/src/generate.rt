// The command `gen`.
ghost use Rattle.std.specs.Prelude.{◌≡◌, ◌≢◌, ◌≤◌, ◌-◌, ◌++◌, ℕ, Bool, List, Option, [], map};
ghost use Rattle.std.specs.Prelude.{false, Err, IfOk, IfErr, OnOk, OnErr};
ghost use Rattle.dos_world.specs.declared.Config.{Config};
ghost use Rattle.logged_runs.specs.Recording.{HostSeen};
ghost use Rattle.dos_io.specs.Outside.{grown, GrewByFront, HasCause};
ghost use Rattle.elf_image.specs.Image.{Image};
ghost use Rattle.flat_machine.specs.Machine.{status_in};
ghost use Rattle.logged_runs.specs.Opened.{IsOpenedWith};
ghost use Rattle.dos_texts.specs.Exit.{ending_status};
ghost use Rattle.dos_texts.specs.Printed.{summary_of};
ghost use Rattle.dos_texts.specs.Report.{process_lines, rounds_line};
ghost use Rattle.dos_words.specs.declared.request.Request.TheVariants as requests;
ghost use Rattle.dos_cmd.specs.Outside.{outside, faults};
ghost use Rattle.dos_cmd.specs.Printing.{HaltedQuietly, RanQuietly};
ghost use Rattle.dos_cmd.specs.Results.{Begun, Did, Leaves};

use crate::run::open;
use crate::stops::refusal_by;
use dos_io::{Quiet, Sink, SinkFault};
use dos_texts::{Refusal, put_output, rounds_line};
use dos_world::{Config, Ending, Scheme};
use dpg_run::{put_processes, run_group};
use generated_group::{DigestSink, DropSink, generated_image};
use group_rounds::Kernel;
use std::alloc::Global;
use std::slice;
use worker_pool::Workers;

/// What the generated image runs with.
const CONFIG: Config = Config {
    quantum: 1000,
    rounds: 100000,
    frames: 4096,
    scheme: Scheme::Ownership,
};

/// How a run over sinks of its own ended, how many bytes it printed, and their digest.
#[derive(Drop)]
struct Ran {
    ending: Ending,
    count: u64,
    digest: [u8; 32],
}

/// Runs a group that was opened; its output is counted and hashed, its error output is dropped. It
/// stops for want of memory alone, since its shim does, and its sinks never fail.
fn run_quietly<W: Workers>(
    alloc: Global,
    kernel: &mut Kernel,
    workers: &mut W,
) -> Result<Ran, Refusal>
    requires running { kernel.old.failed ≡ false }
    requires fresh { kernel.old.state.round ≡ 1 }
    ensures ran { IfOk result (λ ran. (images : List Image) (config : Config)
        → IsOpenedWith kernel.old images config
        → RanQuietly images config kernel.new ran.ending ran.count ran.digest
        (W.tally workers.old) (W.tally workers.new)) }
    ensures refused { IfErr result (λ why. why ≡ Refusal.Memory) }
    ensures halted { OnErr result ((images : List Image) (config : Config)
        → IsOpenedWith kernel.old images config
        → HaltedQuietly images config (W.tally workers.old) (W.tally workers.new)) }
    ensures fixed { W.fixed workers.new ≡ W.fixed workers.old }
{
    let mut shim = Quiet::new(alloc);
    let mut output = DigestSink::new();
    let mut error = DropSink;
    match run_group(kernel, &mut shim, &mut output, &mut error, workers) {
        Ok(ending) => {
            let (count, digest) = output.finish();
            Ok(Ran {
                ending,
                count,
                digest,
            })
        }
        Err(stop) => Err(refusal_by(stop)),
    }
}

/// Puts how a run has ended, and a line for each process. After a fault a front of that was put.
fn put_ending<O: Sink>(kernel: &Kernel, ending: Ending, out: &mut O) -> Result<(), SinkFault>
    ensures told { OnOk result (O.told out.new ≡ grown (O.told out.old)
        (rounds_line (kernel.now.state.round - 1) ending
        ++ process_lines 1 (map status_in kernel.now.state.table.processes))) }
    ensures front { OnErr result (GrewByFront (O.told out.old) (O.told out.new)
        (rounds_line (kernel.now.state.round - 1) ending
        ++ process_lines 1 (map status_in kernel.now.state.table.processes))) }
    ensures cause { HasCause (O.faults out.old) (O.faults out.new) result }
    ensures steady { OnOk result (O.faults out.new ≡ O.faults out.old) }
{
    out.put(rounds_line(kernel.rounds(), ending).as_str().as_bytes())?;
    put_processes(&kernel.state().table, out)
}

/// Puts the summary of a run. After a fault a front of it was put.
fn put_summary<O: Sink>(kernel: &Kernel, ran: &Ran, out: &mut O) -> Result<(), SinkFault>
    ensures told { OnOk result (O.told out.new ≡ grown (O.told out.old)
        (summary_of (map status_in kernel.now.state.table.processes) (kernel.now.state.round - 1)
        ran.now.ending ran.now.count ran.now.digest)) }
    ensures front { OnErr result (GrewByFront (O.told out.old) (O.told out.new)
        (summary_of (map status_in kernel.now.state.table.processes) (kernel.now.state.round - 1)
        ran.now.ending ran.now.count ran.now.digest)) }
    ensures cause { HasCause (O.faults out.old) (O.faults out.new) result }
    ensures steady { OnOk result (O.faults out.new ≡ O.faults out.old) }
{
    put_ending(kernel, ran.ending, out)?;
    put_output(ran.count, &ran.digest, out)
}

/// Does what `gen` is asked for.
pub(crate) fn generate<O: Sink, W: Workers>(
    alloc: Global,
    number: u32,
    threads: u32,
    out: &mut O,
    workers: &mut W,
) -> Result<Ending, Refusal>
    requires some { 1 ≤ threads }
    requires few { threads ≤ 32 }
    // whatever files, a host and error tell, and however often they failed
    ensures did { (n : ℕ) (tells : Bool) (f : List ℕ → Option (List ℕ)) (h : HostSeen)
        (e : Option (List ℕ)) → IfOk result (λ ending. Begun (requests.Gen number threads n)
        (outside tells f f h h (O.told out.old) (O.told out.new) e e
        (W.tally workers.old) (W.tally workers.new))
        (λ taken. Did (requests.Gen number threads n) taken (ending_status ending)
        (outside tells f f h h (O.told out.old) (O.told out.new) e e
        (W.tally workers.old) (W.tally workers.new)))) }
    ensures leaves { (n : ℕ) (tells : Bool) (f : List ℕ → Option (List ℕ)) (h : HostSeen)
        (e : Option (List ℕ)) (k l m : ℕ) → IfErr result (λ why.
        Leaves (requests.Gen number threads n)
        (outside tells f f h h (O.told out.old) (O.told out.new) e e
        (W.tally workers.old) (W.tally workers.new))
        (faults k k l l (O.faults out.old) (O.faults out.new) m m) why []) }
    ensures out_later { O.faults out.old ≤ O.faults out.new }
    ensures out_steady { result ≢ Err Refusal.Sink → O.faults out.new ≡ O.faults out.old }
    ensures fixed { W.fixed workers.new ≡ W.fixed workers.old }
{
    let Ok(image) = generated_image(alloc, number, threads) else {
        return Err(Refusal::Memory);
    };
    let opened = open(alloc, slice::from_ref(&image), CONFIG);
    drop(image);
    let mut kernel = opened?;
    let ran = match run_quietly(alloc, &mut kernel, workers) {
        Ok(ran) => ran,
        Err(why) => {
            drop(kernel);
            return Err(why);
        }
    };
    let put = put_summary(&kernel, &ran, out);
    drop(kernel);
    match put {
        Ok(()) => Ok(ran.ending),
        Err(_) => Err(Refusal::Sink),
    }
}
