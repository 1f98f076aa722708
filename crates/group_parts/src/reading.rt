// A table's processes and threads, read out.
ghost use Rattle.std.specs.Prelude.{◌≡◌, ◌<◌, ◌^◌, All, IfOk, IfSome, IsSome, Some, map};
ghost use Rattle.dos_world.specs.Numbered.{numbered};
ghost use Rattle.group_text.specs.Records.{process_of_record, thread_of_record};
ghost use Rattle.proc_table.specs.Spread.{living_from};
ghost use Rattle.proc_table.specs.Tables.{IsProcess, last_status};
ghost use Rattle.group_parts.specs.Reading.{HasWordBudget};

use dos_world::{Entry, Regs};
use group_text::{ProcessRecord, ThreadRecord};
use proc_table::{SignalState, Table, Thread};
use space_map::Space;
use std::alloc::{AllocError, Global};

// the pages of a space, in rising order
fn record_space(alloc: Global, space: &Space) -> Result<Vec<(u32, Entry)>, AllocError>
    ensures { IfOk result (λ v. v.items ≡ space.now.entries) }
{
    let mut pages = Vec::with_capacity(alloc, space.len() as usize)?;
    for place in 0..space.len() {
        pages.push(space.at(place))?;
    }
    Ok(pages)
}

// a process that lives
fn record_living(alloc: Global, table: &Table, pid: u32) -> Result<ProcessRecord, AllocError>
    requires { IsProcess table.now.processes pid }
    ensures { IfOk result (λ r. numbered table.now.processes pid ≡ Some (process_of_record r)) }
{
    let actions = Vec::from_slice(alloc, table.actions(pid))?;
    let ends = Vec::from_slice(alloc, table.descriptors(pid))?;
    let pages = record_space(alloc, table.space(pid))?;
    Ok(ProcessRecord {
        parent: table.parent(pid),
        status: None,
        collected: false,
        actions,
        ends,
        pages,
    })
}

// a process that has ended with this status
fn record_ended(alloc: Global, table: &Table, pid: u32, status: u8) -> ProcessRecord
    requires given { IsSome (numbered table.now.processes pid) }
    requires ended { IfSome (numbered table.now.processes pid)
        (λ process. last_status process ≡ Some status) }
    ensures { numbered table.now.processes pid ≡ Some (process_of_record result) }
{
    ProcessRecord {
        parent: table.parent(pid),
        status: Some(status),
        collected: table.was_collected(pid),
        actions: Vec::new(alloc),
        ends: Vec::new(alloc),
        pages: Vec::new(alloc),
    }
}

fn record_process(alloc: Global, table: &Table, pid: u32) -> Result<ProcessRecord, AllocError>
    requires { IsSome (numbered table.now.processes pid) }
    ensures { IfOk result (λ r. numbered table.now.processes pid ≡ Some (process_of_record r)) }
{
    match table.status(pid) {
        Some(status) => Ok(record_ended(alloc, table, pid, status)),
        None => record_living(alloc, table, pid),
    }
}

/// Each process, by number.
pub fn record_processes(alloc: Global, table: &Table) -> Result<Vec<ProcessRecord>, AllocError>
    ensures { IfOk result (λ v. map process_of_record v.items ≡ table.now.processes) }
{
    let count = table.processes();
    let mut records = Vec::with_capacity(alloc, count as usize)?;
    for place in 0..count {
        records.push(record_process(alloc, table, place + 1)?)?;
    }
    Ok(records)
}

// what handlers have saved, the last saved first
fn record_saved(alloc: Global, signals: &SignalState) -> Result<Vec<(Regs, u32)>, AllocError>
    ensures { IfOk result (λ v. v.items ≡ signals.now.saved) }
{
    let depth = signals.depth();
    let mut saved = Vec::with_capacity(alloc, depth as usize)?;
    for place in 0..depth {
        saved.push(signals.saved(place))?;
    }
    Ok(saved)
}

// a number of 32 bits, as it is
fn word(number: u32) -> u32
    ensures is { result ≡ number }
    ensures range { result < 2 ^ 32 }
{
    number
}

fn record_thread(alloc: Global, tid: u32, thread: &Thread) -> Result<ThreadRecord, AllocError>
    ensures thread { IfOk result (λ r. thread_of_record r ≡ (tid, thread.now)) }
    ensures budget { IfOk result HasWordBudget }
{
    let saved = record_saved(alloc, &thread.signals)?;
    Ok(ThreadRecord {
        tid,
        pid: thread.process,
        regs: thread.regs,
        budget: word(thread.budget),
        state: thread.state,
        pending: thread.signals.pending(),
        mask: thread.signals.mask(),
        saved,
    })
}

/// Each live thread, in rising number.
pub fn record_threads(alloc: Global, table: &Table) -> Result<Vec<ThreadRecord>, AllocError>
    ensures threads { IfOk result
        (λ v. map thread_of_record v.items ≡ living_from 1 table.now.threads) }
    ensures budgets { IfOk result (λ v. All HasWordBudget v.items) }
{
    let count = table.live_threads();
    let mut records = Vec::with_capacity(alloc, count as usize)?;
    for place in 0..count {
        let (tid, thread) = table.live_thread(place);
        records.push(record_thread(alloc, tid, thread)?)?;
    }
    Ok(records)
}
