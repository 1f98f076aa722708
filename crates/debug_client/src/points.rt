// Breakpoints and watchpoints as they are set.
ghost use Rattle.std.specs.Prelude.{◌≡◌, IfOk};
ghost use Rattle.debug_session.specs.Points.{is_breakpoint, without_breakpoint, with_breakpoint};
ghost use Rattle.debug_session.specs.Points.{is_same_kind, is_same_watchpoint};
ghost use Rattle.debug_session.specs.Points.{without_watchpoint, with_watchpoint};

use debug_session::{Breakpoint, WatchKind, Watchpoint};
use std::alloc::{AllocError, Global};

fn is_breakpoint(point: &Breakpoint, process: u32, address: u32) -> bool
    ensures { result ≡ is_breakpoint process address point.now }
{
    point.process == process && point.address == address
}

/// All but that at this address of a process.
pub(crate) fn remove_breakpoint(points: &mut Vec<Breakpoint>, process: u32, address: u32)
    ensures { points.new.items ≡ without_breakpoint points.old.items process address }
{
    points.retain(|point| !is_breakpoint(point, process, address));
}

/// With one at this address of a process, once.
pub(crate) fn with_breakpoint(
    alloc: Global,
    points: &[Breakpoint],
    process: u32,
    address: u32,
) -> Result<Vec<Breakpoint>, AllocError>
    ensures { IfOk result (λ all. all.items ≡ with_breakpoint points.now process address) }
{
    let mut all = Vec::new(alloc);
    all.push(Breakpoint { process, address })?;
    for point in points {
        if !is_breakpoint(point, process, address) {
            all.push(*point)?;
        }
    }
    Ok(all)
}

fn is_same_kind(kind: WatchKind, other: WatchKind) -> bool
    ensures { result ≡ is_same_kind kind other }
{
    match kind {
        WatchKind::Changes => match other {
            WatchKind::Changes => true,
            WatchKind::Reads => false,
            WatchKind::Accesses => false,
        },
        WatchKind::Reads => match other {
            WatchKind::Changes => false,
            WatchKind::Reads => true,
            WatchKind::Accesses => false,
        },
        WatchKind::Accesses => match other {
            WatchKind::Changes => false,
            WatchKind::Reads => false,
            WatchKind::Accesses => true,
        },
    }
}

fn is_same_watchpoint(point: Watchpoint, other: &Watchpoint) -> bool
    ensures { result ≡ is_same_watchpoint point other.now }
{
    if point.process != other.process {
        return false;
    }
    if point.address != other.address {
        return false;
    }
    if point.length != other.length {
        return false;
    }
    is_same_kind(point.kind, other.kind)
}

/// All but this one.
pub(crate) fn remove_watchpoint(points: &mut Vec<Watchpoint>, point: Watchpoint)
    ensures { points.new.items ≡ without_watchpoint points.old.items point }
{
    points.retain(|other| !is_same_watchpoint(point, other));
}

/// With this one at the end of the order, once.
pub(crate) fn with_watchpoint(
    alloc: Global,
    points: &[Watchpoint],
    point: Watchpoint,
) -> Result<Vec<Watchpoint>, AllocError>
    ensures { IfOk result (λ all. all.items ≡ with_watchpoint points.now point) }
{
    let mut all = Vec::new(alloc);
    for other in points {
        if !is_same_watchpoint(point, other) {
            all.push(*other)?;
        }
    }
    all.push(point)?;
    Ok(all)
}
