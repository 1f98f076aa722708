//! The report of a run, line by line, without memory of its own.

ghost use Rattle.std.specs.Prelude.{◌≡◌, map, OnOk, OnErr};
ghost use Rattle.dos_io.specs.Outside.{grown, GrewByFront, HasCause};
ghost use Rattle.group_rounds.specs.Kernels.{kernel_world};
ghost use Rattle.flat_machine.specs.Machine.{status_in};
ghost use Rattle.dpg_run.specs.Report.{report_in};
ghost use Rattle.dos_texts.specs.Report.{process_lines, report_of};

use dos_io::{Sink, SinkFault};
use dos_texts::{process_line, rounds_line};
use dos_world::Ending;
use group_rounds::Kernel;
use proc_table::Table;

/// Puts a line for each of these processes, one put for each line. After a fault a front of the
/// lines was put.
pub fn put_processes<S: Sink>(table: &Table, sink: &mut S) -> Result<(), SinkFault>
    ensures told { OnOk result
        (S.told sink.new
        ≡ grown (S.told sink.old) (process_lines 1 (map status_in table.now.processes))) }
    ensures front { OnErr result
        (GrewByFront (S.told sink.old) (S.told sink.new)
        (process_lines 1 (map status_in table.now.processes))) }
    ensures cause { HasCause (S.faults sink.old) (S.faults sink.new) result }
    ensures steady { OnOk result (S.faults sink.new ≡ S.faults sink.old) }
{
    for place in 0..table.processes() {
        let pid = place + 1;
        sink.put(process_line(pid, table.status(pid)).as_str().as_bytes())?;
    }
    Ok(())
}

/// Puts the report of these processes after so many rounds, one put for each line. After a fault a
/// front of the report was put.
fn put_lines<S: Sink>(
    table: &Table,
    rounds: u32,
    ending: Ending,
    sink: &mut S,
) -> Result<(), SinkFault>
    ensures told { OnOk result
        (S.told sink.new
        ≡ grown (S.told sink.old)
        (report_of (map status_in table.now.processes) rounds ending)) }
    ensures front { OnErr result
        (GrewByFront (S.told sink.old) (S.told sink.new)
        (report_of (map status_in table.now.processes) rounds ending)) }
    ensures cause { HasCause (S.faults sink.old) (S.faults sink.new) result }
    ensures steady { OnOk result (S.faults sink.new ≡ S.faults sink.old) }
{
    put_processes(table, sink)?;
    sink.put(rounds_line(rounds, ending).as_str().as_bytes())
}

/// Puts the report of a run that has ended so, one put for each line. After a fault a front of the
/// report was put.
pub fn put_report<S: Sink>(kernel: &Kernel, ending: Ending, sink: &mut S) -> Result<(), SinkFault>
    ensures told { OnOk result
        (S.told sink.new
        ≡ grown (S.told sink.old) (report_in (kernel_world kernel.now) ending)) }
    ensures front { OnErr result
        (GrewByFront (S.told sink.old) (S.told sink.new)
        (report_in (kernel_world kernel.now) ending)) }
    ensures cause { HasCause (S.faults sink.old) (S.faults sink.new) result }
    ensures steady { OnOk result (S.faults sink.new ≡ S.faults sink.old) }
{
    put_lines(&kernel.state().table, kernel.rounds(), ending, sink)
}
