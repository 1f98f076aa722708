// The table of a saved group's processes and threads.
ghost use Rattle.std.specs.Prelude.{◌≡◌, ◌+◌, ◌≤◌, ◌<◌, All, IfOk, None, [], length, map, OnOk};
ghost use Rattle.dos_world.specs.World.{all_holdings};
ghost use Rattle.group_text.specs.Records.{process_of_record, thread_of_record};
ghost use Rattle.space_map.specs.Mapping.{IsRising};
ghost use Rattle.proc_table.specs.Tables.{process_restored};
ghost use Rattle.proc_table.specs.Spread.{AreRising, spread};
ghost use Rattle.std.specs.Vec.{vec_capacity};
ghost use Rattle.group_parts.specs.Restoring.{AreRestorable, IsRestorable, all_restored};

use dos_world::Entry;
use group_text::{ProcessRecord, ThreadRecord};
use proc_table::{SignalState, Table, Thread};
use space_map::Space;
use std::alloc::{AllocError, Global};

// a space of these pages, with room for so many
fn restore_space(alloc: Global, room: u32, pages: &[(u32, Entry)]) -> Result<Space, AllocError>
    requires rising { IsRising pages.now }
    requires room { length pages.now ≤ room }
    ensures { IfOk result (λ s. s ≡ record { entries = pages.now; room = room }) }
{
    let mut space = Space::reserve(alloc, room)?;
    for i in 0..pages.len() {
        let (page, entry) = pages[i];
        space.put(page, entry);
    }
    Ok(space)
}

// one process more, with room for so many pages
fn restore_process(
    alloc: Global,
    table: &mut Table,
    room: u32,
    process: &ProcessRecord,
) -> Result<(), AllocError>
    requires room { table.old.room ≡ room }
    requires process { IsRestorable table.old process.now }
    ensures { OnOk result (table.new ≡ process_restored table.old (process_of_record process.now)) }
{
    match process.status {
        Some(status) => table.restore_ended(process.parent, status, process.collected),
        None => {
            let space = restore_space(alloc, room, &process.pages)?;
            table.restore_living(process.parent, &process.actions, &process.ends, space);
        }
    }
    Ok(())
}

fn restore_processes(
    alloc: Global,
    table: &mut Table,
    room: u32,
    processes: &[ProcessRecord],
) -> Result<(), AllocError>
    requires room { table.old.room ≡ room }
    requires processes { AreRestorable table.old processes.now }
    ensures { OnOk result (table.new ≡ all_restored table.old processes.now) }
{
    for i in 0..processes.len() {
        restore_process(alloc, table, room, &processes[i])?;
    }
    Ok(())
}

fn restore_thread(thread: &ThreadRecord) -> (u32, Thread)
    requires { length thread.now.saved.items ≤ 4 }
    ensures { result ≡ thread_of_record thread.now }
{
    let restored = Thread {
        process: thread.pid,
        regs: thread.regs,
        budget: thread.budget,
        state: thread.state,
        signals: SignalState::from_parts(thread.pending, thread.mask, &thread.saved),
    };
    (thread.tid, restored)
}

fn restore_threads(
    alloc: Global,
    records: &[ThreadRecord],
) -> Result<Vec<(u32, Thread)>, AllocError>
    requires { All (λ r. length r.saved.items ≤ 4) records.now }
    ensures threads { IfOk result (λ v. v.items ≡ map thread_of_record records.now) }
    ensures taken { IfOk result (λ v. 64 ≤ vec_capacity v) }
{
    let mut threads = Vec::with_capacity(alloc, 64)?;
    for i in 0..records.len() {
        threads.push(restore_thread(&records[i]))?;
    }
    Ok(threads)
}

/// A table of these threads and processes, with room for so many pages in each space, where so many
/// numbers of threads were given.
pub fn restore_table(
    alloc: Global,
    room: u32,
    given: u16,
    threads: &[ThreadRecord],
    processes: &[ProcessRecord],
) -> Result<Table, AllocError>
    requires saved { All (λ r. length r.saved.items ≤ 4) threads.now }
    requires rising { AreRising 1 (given + 1) (map thread_of_record threads.now) }
    requires few { length threads.now ≤ 64 }
    requires processes { AreRestorable (record {
      processes = [];
      threads = spread (map thread_of_record threads.now) given;
      room =
          room;
    }) processes.now }
    ensures { IfOk result (λ t. t ≡ record {
      processes = map process_of_record processes.now;
      threads = spread (map thread_of_record threads.now) given;
      room =
          room;
    }) }
{
    let live = restore_threads(alloc, threads)?;
    let mut table = Table::with_threads(alloc, room, live, u32::from(given))?;
    restore_processes(alloc, &mut table, room, processes)?;
    Ok(table)
}
