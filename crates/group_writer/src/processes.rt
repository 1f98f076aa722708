// The processes.
ghost use Rattle.std.specs.Prelude.{◌≡◌, ◌<◌, ◌^◌, ◌++◌, ◌∷◌, [], ℕ, length, map, All, OnOk};
ghost use Rattle.dos_world.specs.SignalCalls.{is_action};
ghost use Rattle.text_fields.specs.Formats.{many, u32_in};
ghost use Rattle.group_text.specs.GroupText.{descriptor_row, end_code, end_pipe, life_row};
ghost use Rattle.group_text.specs.GroupText.{page_row, process_row, rights_of, space_row};
ghost use Rattle.group_text.specs.Records.{process_of_record, recorded_life};
ghost use Rattle.group_writer.specs.Lengths.{HasFewPages};

use crate::fields::{put_byte, put_u32};
use dos_world::{End, Entry};
use group_text::ProcessRecord;
use std::alloc::AllocError;

fn rights_of(entry: Entry) -> u8
    ensures { result ≡ rights_of entry }
{
    u8::from(entry.exec) + 2 * u8::from(entry.write)
}

// a page, its frame, its rights, and whether it is shared
fn put_page(out: &mut Vec<u8>, page: u32, entry: Entry) -> Result<(), AllocError>
    ensures { OnOk result (out.new.items ≡ out.old.items ++ (page_row 0 0).text (page, entry)) }
{
    put_u32(out, page)?;
    put_u32(out, entry.frame)?;
    put_byte(out, rights_of(entry))?;
    put_byte(out, u8::from(entry.shared))
}

// each of these
fn put_pages(out: &mut Vec<u8>, pages: &[(u32, Entry)]) -> Result<(), AllocError>
    ensures { OnOk result (out.new.items
        ≡ out.old.items ++ (many 0 (page_row 0 0)).text pages.now) }
{
    for i in 0..pages.len() {
        put_page(out, pages[i].0, pages[i].1)?;
    }
    Ok(())
}

// how many pages a space has, and these
fn put_space(out: &mut Vec<u8>, pages: &[(u32, Entry)]) -> Result<(), AllocError>
    requires { length pages.now < 2 ^ 32 }
    ensures { OnOk result (out.new.items ≡ out.old.items ++ (space_row 0).text pages.now) }
{
    put_u32(out, pages.len() as u32)?;
    put_pages(out, pages)?;
    Ok(())
}

fn code_of(end: Option<End>) -> u8
    ensures { result ≡ end_code end }
{
    match end {
        None => 0,
        Some(End::Input) => 1,
        Some(End::Output) => 2,
        Some(End::Error) => 3,
        Some(End::PipeRead(_)) => 4,
        Some(End::PipeWrite(_)) => 5,
    }
}

fn pipe_of(end: Option<End>) -> u8
    ensures { result ≡ end_pipe end }
{
    match end {
        Some(End::PipeRead(pipe)) => pipe,
        Some(End::PipeWrite(pipe)) => pipe,
        _ => 0,
    }
}

// what a descriptor names, and its pipe
fn put_descriptor(out: &mut Vec<u8>, end: Option<End>) -> Result<(), AllocError>
    ensures { OnOk result (out.new.items ≡ out.old.items ++ descriptor_row.text end) }
{
    put_byte(out, code_of(end))?;
    put_byte(out, pipe_of(end))
}

fn put_descriptors(out: &mut Vec<u8>, ends: &[Option<End>]) -> Result<(), AllocError>
    ensures { OnOk result (out.new.items
        ≡ out.old.items ++ (many 32 descriptor_row).text ends.now) }
{
    for i in 0..ends.len() {
        put_descriptor(out, ends[i])?;
    }
    Ok(())
}

fn put_actions(out: &mut Vec<u8>, actions: &[u32]) -> Result<(), AllocError>
    ensures { OnOk result (out.new.items
        ≡ out.old.items ++ (many 31 (u32_in is_action)).text actions.now) }
{
    for i in 0..actions.len() {
        put_u32(out, actions[i])?;
    }
    Ok(())
}

// how it is with a process, its status, and what it has where it lives
fn put_life(out: &mut Vec<u8>, process: &ProcessRecord) -> Result<(), AllocError>
    requires { HasFewPages process.now }
    ensures { OnOk result (out.new.items
        ≡ out.old.items ++ (life_row 0).text (recorded_life process.now)) }
{
    match process.status {
        None => {
            put_byte(out, 0)?;
            put_byte(out, 0)?;
            put_actions(out, &process.actions)?;
            put_descriptors(out, &process.ends)?;
            put_space(out, &process.pages)
        }
        Some(status) => {
            put_byte(out, if process.collected { 2 } else { 1 })?;
            put_byte(out, status)
        }
    }
}

fn put_process(out: &mut Vec<u8>, process: &ProcessRecord) -> Result<(), AllocError>
    requires { HasFewPages process.now }
    ensures { OnOk result (out.new.items
        ≡ out.old.items ++ (process_row 0 0).text (process_of_record process.now)) }
{
    put_u32(out, process.parent)?;
    put_life(out, process)
}

/// Each of these processes.
pub(crate) fn put_processes(
    out: &mut Vec<u8>,
    processes: &[ProcessRecord],
) -> Result<(), AllocError>
    requires { All HasFewPages processes.now }
    ensures { OnOk result (out.new.items
        ≡ out.old.items ++ (many 0 (process_row 0 0)).text (map process_of_record processes.now)) }
{
    for i in 0..processes.len() {
        put_process(out, &processes[i])?;
    }
    Ok(())
}
