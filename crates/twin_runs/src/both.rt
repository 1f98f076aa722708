// Both runs, side by side.
ghost use Rattle.std.specs.Prelude.{◌≡◌, ◌≢◌, ◌≤◌, ℕ, List, [], Some, Err, true, false, IfErr};
ghost use Rattle.std.specs.Prelude.{IfOk, IsErrOf, OnErr};
ghost use Rattle.crossbeam_queue.specs.Passes.{view, IsPassOf};
ghost use Rattle.twin_shims.specs.Order.{hand};
ghost use Rattle.dos_world.specs.declared.Config.{Config};
ghost use Rattle.dos_io.specs.Given.{Given};
ghost use Rattle.dos_io.specs.Outside.{Rose};
ghost use Rattle.dos_io.specs.declared.exchange.ClockRule.TheVariants.{FromHost};
ghost use Rattle.elf_image.specs.Image.{Image};
ghost use Rattle.kernel_calls.specs.StateWorld.{HasSinkCause};
ghost use Rattle.logged_runs.specs.Opened.{IsOpenedWith};
ghost use Rattle.twin_shims.specs.Follower.{new_reader};
ghost use Rattle.twin_shims.specs.Leader.{new_teller};
ghost use Rattle.twin_shims.specs.Line.{line_id};
ghost use Rattle.twin_shims.specs.Notes.{exchanges_in, IsClosed};
ghost use Rattle.twin_runs.specs.Both.{RanBoth};
ghost use Rattle.twin_runs.specs.Twins.{Followed, Led};

use crate::follower::follow_group;
use crate::leader::lead_group;
use dos_io::{Host, Sink};
use dos_world::Ending;
use group_rounds::Kernel;
use kernel_calls::RunStop;
use std::alloc::{AllocError, Global};
use std::sync::Wait;
use std::thread::{Threads, join_mut};
use twin_shims::{Line, Pass, Reader, Sent, Taken, Teller};
use worker_pool::{OpenGate, Stealing, Tally, Workers};

/// How many threads of a follower run its packs.
const WORKERS: u32 = 2;

/// What came of both runs.
#[derive(Drop)]
pub struct Both {
    /// The leader's kernel, as its run left it.
    pub kernel: Kernel,
    /// What the leader's run came to.
    pub leader: Result<Ending, RunStop>,
    /// What the follower's run came to.
    pub follower: Result<Ending, RunStop>,
}

// The leader's run, with the teller that lies here.
fn lead_by<'a, R: Wait, H: Host, O: Sink, E: Sink, W: Workers>(
    rt: &'a R,
    alloc: Global,
    line: &Line,
    teller: &mut Option<Teller<'a>>,
    kernel: &mut Kernel,
    host: &mut H,
    out: &mut O,
    err: &mut E,
    workers: &mut W,
) -> (Result<Ending, RunStop>, Sent<'a>)
    requires running { kernel.old.failed ≡ false }
    requires fresh { kernel.old.state.round ≡ 1 }
    requires begins { teller.old ≡ Some (new_teller (line_id line.now)) }
    ensures line { result.1.line ≡ line_id line.now }
    ensures closed { IsClosed result.1.notes }
    ensures given { Given [] FromHost 0 (H.told host.old) (H.told host.new)
        (exchanges_in result.1.notes) }
    ensures led { Led kernel.old kernel.new result.0 result.1.notes
        (O.told out.old) (E.told err.old) (O.told out.new) (E.told err.new)
        (W.tally workers.old) (W.tally workers.new) }
    ensures host_cause { IsErrOf result.0 RunStop.HostFault
        → Rose (H.faults host.old) (H.faults host.new) }
    ensures sinks { IfErr result.0 (λ stop. HasSinkCause stop
        (O.faults out.old) (O.faults out.new)
        (E.faults err.old) (E.faults err.new)) }
    ensures out_steady { result.0 ≢ Err RunStop.OutFault
        → O.faults out.new ≡ O.faults out.old }
    ensures err_steady { result.0 ≢ Err RunStop.ErrFault
        → E.faults err.new ≡ E.faults err.old }
    ensures host_later { H.faults host.old ≤ H.faults host.new }
    ensures out_later { O.faults out.old ≤ O.faults out.new }
    ensures err_later { E.faults err.old ≤ E.faults err.new }
    ensures fixed { W.fixed workers.new ≡ W.fixed workers.old }
{
    let Some(teller) = teller.take() else {
        unreachable!()
    };
    lead_group(rt, alloc, kernel, teller, host, out, err, workers)
}

// The follower's run, with the reader that lies here, by two workers of its own. A pool that is a
// type parameter can't be sent to another thread, so it is made in that thread.
fn follow_by<'a, R: Threads + Wait + Sync, O: Sink, E: Sink>(
    rt: &'a R,
    alloc: Global,
    line: &Line,
    reader: &mut Option<Reader<'a>>,
    kernel: &mut Kernel,
    out: &mut O,
    err: &mut E,
) -> (Result<Ending, RunStop>, Taken<'a>)
    requires running { kernel.old.failed ≡ false }
    requires fresh { kernel.old.state.round ≡ 1 }
    requires begins { reader.old ≡ Some (new_reader (line_id line.now)) }
    ensures line { result.1.line ≡ line_id line.now }
    ensures closed { IsClosed result.1.notes }
    ensures followed { (before after : ℕ) × Followed kernel.old kernel.new
        result.0 result.1.notes (O.told out.old) (E.told err.old)
        (O.told out.new) (E.told err.new) before after }
    ensures sinks { IfErr result.0 (λ stop. HasSinkCause stop
        (O.faults out.old) (O.faults out.new)
        (E.faults err.old) (E.faults err.new)) }
    ensures out_steady { result.0 ≢ Err RunStop.OutFault
        → O.faults out.new ≡ O.faults out.old }
    ensures err_steady { result.0 ≢ Err RunStop.ErrFault
        → E.faults err.new ≡ E.faults err.old }
    ensures out_later { O.faults out.old ≤ O.faults out.new }
    ensures err_later { E.faults err.old ≤ E.faults err.new }
{
    let Some(reader) = reader.take() else {
        unreachable!()
    };
    let gate = OpenGate::new();
    let mut tally = Tally::new();
    let mut workers = Stealing::new(rt, alloc, WORKERS, &gate, &mut tally);
    follow_group(rt, kernel, reader, out, err, &mut workers)
}

// The two runs over this line, which no note has gone over.
fn run_over<
    'a,
    R: Threads + Wait + Sync,
    H: Host,
    O: Sink,
    E: Sink,
    P: Sink + Send,
    Q: Sink + Send,
    W: Workers,
>(
    rt: &'a R,
    alloc: Global,
    line: &'a Line,
    writer: Pass,
    popper: Pass,
    mut first: Kernel,
    mut second: Kernel,
    host: &mut H,
    out: &mut O,
    err: &mut E,
    second_out: &mut P,
    second_err: &mut Q,
    workers: &mut W,
) -> Both
    requires writer { IsPassOf line.now.queue writer }
    requires popper { IsPassOf line.now.queue popper }
    requires fresh_writer { view writer ≡ hand true false [] [] }
    requires fresh_popper { view popper ≡ hand false true [] [] }
    requires running { first.failed ≡ false }
    requires fresh { first.state.round ≡ 1 }
    requires second_running { second.failed ≡ false }
    requires second_fresh { second.state.round ≡ 1 }
    ensures ran { (images : List Image) (config : Config)
        → IsOpenedWith first images config → IsOpenedWith second images config
        → RanBoth result.leader result.follower images config (H.told host.old) (H.told host.new)
        result.kernel (O.told out.old) (E.told err.old) (O.told out.new) (E.told err.new)
        (P.told second_out.old) (Q.told second_err.old) (P.told second_out.new)
        (Q.told second_err.new) (W.tally workers.old) (W.tally workers.new) }
    ensures host_cause { IsErrOf result.leader RunStop.HostFault
        → Rose (H.faults host.old) (H.faults host.new) }
    ensures sinks { IfErr result.leader (λ stop. HasSinkCause stop
        (O.faults out.old) (O.faults out.new) (E.faults err.old) (E.faults err.new)) }
    ensures second_sinks { IfErr result.follower (λ stop. HasSinkCause stop
        (P.faults second_out.old) (P.faults second_out.new) (Q.faults second_err.old)
        (Q.faults second_err.new)) }
    ensures out_steady { result.leader ≢ Err RunStop.OutFault
        → O.faults out.new ≡ O.faults out.old }
    ensures err_steady { result.leader ≢ Err RunStop.ErrFault
        → E.faults err.new ≡ E.faults err.old }
    ensures second_out_steady { result.follower ≢ Err RunStop.OutFault
        → P.faults second_out.new ≡ P.faults second_out.old }
    ensures second_err_steady { result.follower ≢ Err RunStop.ErrFault
        → Q.faults second_err.new ≡ Q.faults second_err.old }
    ensures host_later { H.faults host.old ≤ H.faults host.new }
    ensures out_later { O.faults out.old ≤ O.faults out.new }
    ensures err_later { E.faults err.old ≤ E.faults err.new }
    ensures second_out_later { P.faults second_out.old ≤ P.faults second_out.new }
    ensures second_err_later { Q.faults second_err.old ≤ Q.faults second_err.new }
    ensures fixed { W.fixed workers.new ≡ W.fixed workers.old }
{
    let mut teller = Some(Teller::of(line, writer));
    let mut reader = Some(Reader::of(line, popper));
    let mut follow = ||
        requires running { second.failed ≡ false }
        requires fresh { second.state.round ≡ 1 }
        requires begins { reader ≡ Some (new_reader (line_id line.now)) }
    {
        follow_by(
            rt,
            alloc,
            line,
            &mut reader,
            &mut second,
            second_out,
            second_err,
        )
    };
    let mut lead = ||
        requires running { first.failed ≡ false }
        requires fresh { first.state.round ≡ 1 }
        requires begins { teller ≡ Some (new_teller (line_id line.now)) }
    {
        lead_by(
            rt,
            alloc,
            line,
            &mut teller,
            &mut first,
            host,
            out,
            err,
            workers,
        )
    };
    let ((follower, taken), (leader, sent)) = join_mut(rt, &mut follow, &mut lead);
    sent.compare(taken);
    drop(second);
    Both {
        kernel: first,
        leader,
        follower,
    }
}

/// Runs a group over this host, and another, which was opened with the same images, by what the
/// first is told, in a thread beside it. Each side looks so often for a note, or for a place,
/// before it sleeps. The error is want of memory for the queue; then nothing was run.
pub fn run_both<
    R: Threads + Wait + Sync,
    H: Host,
    O: Sink,
    E: Sink,
    P: Sink + Send,
    Q: Sink + Send,
    W: Workers,
>(
    rt: &R,
    alloc: Global,
    looks: u32,
    first: Kernel,
    second: Kernel,
    host: &mut H,
    out: &mut O,
    err: &mut E,
    second_out: &mut P,
    second_err: &mut Q,
    workers: &mut W,
) -> Result<Both, AllocError>
    requires running { first.failed ≡ false }
    requires fresh { first.state.round ≡ 1 }
    requires second_running { second.failed ≡ false }
    requires second_fresh { second.state.round ≡ 1 }
    ensures ran { IfOk result (λ both. (images : List Image) (config : Config)
        → IsOpenedWith first images config → IsOpenedWith second images config
        → RanBoth both.leader both.follower images config (H.told host.old) (H.told host.new)
        both.kernel (O.told out.old) (E.told err.old) (O.told out.new) (E.told err.new)
        (P.told second_out.old) (Q.told second_err.old) (P.told second_out.new)
        (Q.told second_err.new) (W.tally workers.old) (W.tally workers.new)) }
    ensures host_stays { OnErr result (H.told host.new ≡ H.told host.old) }
    ensures out_stays { OnErr result (O.told out.new ≡ O.told out.old) }
    ensures err_stays { OnErr result (E.told err.new ≡ E.told err.old) }
    ensures second_out_stays { OnErr result (P.told second_out.new ≡ P.told second_out.old) }
    ensures second_err_stays { OnErr result (Q.told second_err.new ≡ Q.told second_err.old) }
    ensures tally_stays { OnErr result (W.tally workers.new ≡ W.tally workers.old) }
    ensures host_cause { IfOk result (λ both. IsErrOf both.leader RunStop.HostFault
        → Rose (H.faults host.old) (H.faults host.new)) }
    ensures sinks { IfOk result (λ both. IfErr both.leader (λ stop. HasSinkCause stop
        (O.faults out.old) (O.faults out.new) (E.faults err.old) (E.faults err.new))) }
    ensures second_sinks { IfOk result (λ both. IfErr both.follower (λ stop. HasSinkCause stop
        (P.faults second_out.old) (P.faults second_out.new) (Q.faults second_err.old)
        (Q.faults second_err.new))) }
    ensures out_steady { IfOk result (λ both. both.leader ≢ Err RunStop.OutFault
        → O.faults out.new ≡ O.faults out.old) }
    ensures err_steady { IfOk result (λ both. both.leader ≢ Err RunStop.ErrFault
        → E.faults err.new ≡ E.faults err.old) }
    ensures second_out_steady { IfOk result (λ both. both.follower ≢ Err RunStop.OutFault
        → P.faults second_out.new ≡ P.faults second_out.old) }
    ensures second_err_steady { IfOk result (λ both. both.follower ≢ Err RunStop.ErrFault
        → Q.faults second_err.new ≡ Q.faults second_err.old) }
    ensures steady { OnErr result ((O.faults out.new ≡ O.faults out.old)
        × (E.faults err.new ≡ E.faults err.old)
        × (P.faults second_out.new ≡ P.faults second_out.old)
        × (Q.faults second_err.new ≡ Q.faults second_err.old)) }
    ensures host_later { H.faults host.old ≤ H.faults host.new }
    ensures out_later { O.faults out.old ≤ O.faults out.new }
    ensures err_later { E.faults err.old ≤ E.faults err.new }
    ensures second_out_later { P.faults second_out.old ≤ P.faults second_out.new }
    ensures second_err_later { Q.faults second_err.old ≤ Q.faults second_err.new }
    ensures fixed { W.fixed workers.new ≡ W.fixed workers.old }
{
    let Ok((line, writer, popper)) = Line::open(alloc, looks) else {
        drop(first);
        drop(second);
        return Err(AllocError);
    };
    Ok(run_over(
        rt, alloc, &line, writer, popper, first, second, host, out, err, second_out, second_err,
        workers,
    ))
}
