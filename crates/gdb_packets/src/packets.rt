//! What packets ask.
ghost use Rattle.std.specs.Prelude.{◌≡◌, ◌≤◌, length, Some, None, option_map};
ghost use Rattle.gdb_packets.specs.Around.{between_marks};
ghost use Rattle.gdb_packets.specs.Packets.{stretch_from, number_behind, number_or_none, has_forks};
ghost use Rattle.gdb_packets.specs.Packets.{point_kind, point_kind_from, point_of, point_from};
ghost use Rattle.gdb_packets.specs.Packets.{point_packet, exec_file_from, open_file_from};
ghost use Rattle.gdb_packets.specs.Packets.{read_file_from, resume_from};
ghost use Rattle.gdb_packets.specs.Packets.{monitor_from, packet_behind, packet_opened};
ghost use Rattle.gdb_packets.specs.Packets.{packet_alone, packet_from, has_item};
ghost use Rattle.gdb_packets.specs.Openings.{opening_among};

use crate::around::{around, first_part};
use crate::commands::{Command, read_command};
use crate::hexadecimal::{read_bytes, read_number};
use crate::ids::{ThreadId, read_id};
use crate::openings::{Opening, Plain, opening_among, opening_text, plain_opening, plain_text};
use crate::resumptions::are_resumptions;
use arrayvec::ArrayVec;

/// Texts in a packet have at most so many bytes.
const MOST: usize = 8192;

/// A start and a length.
#[derive(Clone, Copy, Debug, PartialEq, Eq)]
pub struct Stretch {
    pub from: u32,
    pub length: u32,
}

/// What a point in a process is hit by.
#[derive(Clone, Copy, Debug, PartialEq, Eq)]
pub enum PointKind {
    SoftwareBreakpoint,
    HardwareBreakpoint,
    WriteWatchpoint,
    ReadWatchpoint,
    AccessWatchpoint,
}

/// A breakpoint or a watchpoint.
#[derive(Clone, Copy, Debug, PartialEq, Eq)]
pub struct Point {
    pub kind: PointKind,
    pub at: Stretch,
}

/// What a packet asks.
#[derive(Clone, Copy, Debug, PartialEq, Eq)]
pub enum Packet {
    Alone(Plain),
    /// whether the client is told of forks
    Supported(bool),
    Attached(Option<u32>),
    Alive(ThreadId),
    GeneralThread(ThreadId),
    ResumedThread(ThreadId),
    Register(u32),
    Memory(Stretch),
    /// registers or memory are to be changed
    Write,
    Insert(Point),
    Remove(Point),
    /// `vCont?`
    ResumeForms,
    /// `vCont`, whose resumptions stand behind it
    Resume,
    Detach(Option<u32>),
    KillProcess(u32),
    Description(Stretch),
    ExecFile { process: Option<u32>, part: Stretch },
    Threads(Stretch),
    SetFileSystem(u32),
    CloseFile(u32),
    /// `vFile:open`, whose name stands behind it
    OpenFile,
    FileStatus(u32),
    ReadFile { file: u32, part: Stretch },
    Monitor(Command),
    /// begins as a known packet and doesn't go on as it says
    Malformed,
    Unknown,
}

/// `A,N`.
fn read_stretch(text: &[u8]) -> Option<Stretch>
    ensures { result ≡ stretch_from text.now }
{
    let Some((from, length)) = around(text, b',') else {
        return None;
    };
    let Some(from) = read_number(from) else {
        return None;
    };
    let Some(length) = read_number(length) else {
        return None;
    };
    Some(Stretch { from, length })
}

/// Nothing, or a mark and a number.
fn number_behind(mark: u8, text: &[u8]) -> Option<Option<u32>>
    ensures { result ≡ number_behind mark text.now }
{
    let [first, rest @ ..] = text else {
        return Some(None);
    };
    if *first != mark {
        return None;
    }
    match read_number(rest) {
        None => None,
        Some(number) => Some(Some(number)),
    }
}

/// A number that may be left out.
fn number_or_none(text: &[u8]) -> Option<Option<u32>>
    ensures { result ≡ number_or_none text.now }
{
    if text.is_empty() {
        return Some(None);
    }
    match read_number(text) {
        None => None,
        Some(number) => Some(Some(number)),
    }
}

/// Whether one of the items is that of forks.
fn has_item(text: &[u8]) -> bool
    ensures { result ≡ has_item (between_marks 59 text.now) }
{
    let mut rest = Some(text);
    while let Some(items) = rest {
        let (item, others) = first_part(items, b';');
        if item == "fork-events+".as_bytes() {
            return true;
        }
        rest = others;
    }
    false
}

fn has_forks(text: &[u8]) -> bool
    ensures { result ≡ has_forks text.now }
{
    match text {
        [] => false,
        [_, items @ ..] => has_item(items),
    }
}

fn point_kind(number: u32) -> Option<PointKind>
    ensures { result ≡ point_kind number }
{
    match number {
        0 => Some(PointKind::SoftwareBreakpoint),
        1 => Some(PointKind::HardwareBreakpoint),
        2 => Some(PointKind::WriteWatchpoint),
        3 => Some(PointKind::ReadWatchpoint),
        4 => Some(PointKind::AccessWatchpoint),
        _ => None,
    }
}

/// `K`, by its text.
fn read_kind(text: &[u8]) -> Option<PointKind>
    ensures { result ≡ point_kind_from text.now }
{
    match read_number(text) {
        None => None,
        Some(number) => point_kind(number),
    }
}

/// The packet at a point.
fn point_packet(is_insert: bool, point: Point) -> Packet
    ensures { result ≡ point_packet is_insert point }
{
    if is_insert {
        Packet::Insert(point)
    } else {
        Packet::Remove(point)
    }
}

fn read_point_of(is_insert: bool, kind: &[u8], at: &[u8]) -> Option<Packet>
    ensures { result ≡ point_of (point_packet is_insert) (point_kind_from kind.now) at.now }
{
    let Some(kind) = read_kind(kind) else {
        return Some(Packet::Unknown);
    };
    match read_stretch(at) {
        None => None,
        Some(at) => Some(point_packet(is_insert, Point { kind, at })),
    }
}

/// `K,A,N`; what has another K is unknown.
fn read_point(is_insert: bool, text: &[u8]) -> Option<Packet>
    ensures { result ≡ point_from (point_packet is_insert) text.now }
{
    let Some((kind, at)) = around(text, b',') else {
        return match read_kind(text) {
            None => Some(Packet::Unknown),
            Some(_) => None,
        };
    };
    read_point_of(is_insert, kind, at)
}

/// `P:O,N`.
fn read_exec_file(text: &[u8]) -> Option<Packet>
    ensures { result ≡ exec_file_from text.now }
{
    let Some((process, part)) = around(text, b':') else {
        return None;
    };
    let Some(process) = number_or_none(process) else {
        return None;
    };
    let Some(part) = read_stretch(part) else {
        return None;
    };
    Some(Packet::ExecFile { process, part })
}

/// `H,..`.
fn read_open_file(text: &[u8]) -> Option<Packet>
    requires { length text.now ≤ 16384 }
    ensures { result ≡ open_file_from text.now }
{
    let Some((name, _)) = around(text, b',') else {
        return None;
    };
    let name: Option<ArrayVec<u8, MOST>> = read_bytes(name);
    match name {
        None => None,
        Some(_) => Some(Packet::OpenFile),
    }
}

/// `k,N,O`.
fn read_read_file(text: &[u8]) -> Option<Packet>
    ensures { result ≡ read_file_from text.now }
{
    let Some((file, part)) = around(text, b',') else {
        return None;
    };
    let Some(file) = read_number(file) else {
        return None;
    };
    let Some(part) = read_stretch(part) else {
        return None;
    };
    Some(Packet::ReadFile {
        file,
        part: Stretch {
            from: part.length,
            length: part.from,
        },
    })
}

fn read_resume(text: &[u8]) -> Option<Packet>
    ensures { result ≡ resume_from text.now }
{
    if text == "?".as_bytes() {
        return Some(Packet::ResumeForms);
    }
    if are_resumptions(text) {
        Some(Packet::Resume)
    } else {
        None
    }
}

fn read_monitor(text: &[u8]) -> Option<Packet>
    requires { length text.now ≤ 16384 }
    ensures { result ≡ monitor_from text.now }
{
    let bytes: Option<ArrayVec<u8, MOST>> = read_bytes(text);
    match bytes {
        None => None,
        Some(bytes) => Some(Packet::Monitor(read_command(bytes.as_slice()))),
    }
}

/// What stands behind an opening.
fn packet_behind(opening: Opening, text: &[u8]) -> Option<Packet>
    requires { length text.now ≤ 16384 }
    ensures { result ≡ packet_behind opening text.now }
{
    match opening {
        Opening::Supported => Some(Packet::Supported(has_forks(text))),
        Opening::Attached => number_behind(b':', text).map(Packet::Attached),
        Opening::Alive => read_id(text).map(Packet::Alive),
        Opening::GeneralThread => read_id(text).map(Packet::GeneralThread),
        Opening::ResumedThread => read_id(text).map(Packet::ResumedThread),
        Opening::Register => read_number(text).map(Packet::Register),
        Opening::Memory => read_stretch(text).map(Packet::Memory),
        Opening::WriteRegisters => Some(Packet::Write),
        Opening::WriteRegister => Some(Packet::Write),
        Opening::WriteMemory => Some(Packet::Write),
        Opening::Insert => read_point(true, text),
        Opening::Remove => read_point(false, text),
        Opening::Resume => read_resume(text),
        Opening::Detach => number_behind(b';', text).map(Packet::Detach),
        Opening::KillProcess => read_number(text).map(Packet::KillProcess),
        Opening::Description => read_stretch(text).map(Packet::Description),
        Opening::ExecFile => read_exec_file(text),
        Opening::Threads => read_stretch(text).map(Packet::Threads),
        Opening::SetFileSystem => read_number(text).map(Packet::SetFileSystem),
        Opening::CloseFile => read_number(text).map(Packet::CloseFile),
        Opening::OpenFile => read_open_file(text),
        Opening::FileStatus => read_number(text).map(Packet::FileStatus),
        Opening::ReadFile => read_read_file(text),
        Opening::Command => read_monitor(text),
    }
}

/// A packet that isn't its name alone.
fn packet_opened(text: &[u8]) -> Packet
    requires { length text.now ≤ 16384 }
    ensures { result ≡ packet_opened (opening_among text.now) text.now }
{
    let Some(opening) = opening_among(text) else {
        return Packet::Unknown;
    };
    let (_, rest) = text.split_at(opening_text(opening).len());
    match packet_behind(opening, rest) {
        None => Packet::Malformed,
        Some(packet) => packet,
    }
}

/// A packet that is its name alone, where nothing stands behind it.
fn packet_alone(plain: Plain, rest: &[u8]) -> Packet
    ensures { result ≡ packet_alone plain rest.now }
{
    if rest.is_empty() {
        Packet::Alone(plain)
    } else {
        Packet::Malformed
    }
}

/// What a packet asks, by the bytes between `$` and `#`.
pub fn read_packet(text: &[u8]) -> Packet
    requires { length text.now ≤ 16384 }
    ensures { result ≡ packet_from text.now }
{
    let Some(plain) = plain_opening(text) else {
        return packet_opened(text);
    };
    let (_, rest) = text.split_at(plain_text(plain).len());
    packet_alone(plain, rest)
}
