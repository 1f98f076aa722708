//! How packets begin.
ghost use Rattle.std.specs.Prelude.{◌≡◌, ◌≤◌, length, IfSome, IsTrue};
ghost use Rattle.gdb_packets.specs.Openings.{plain_text, opening_text, begins_as, ends_name};
ghost use Rattle.gdb_packets.specs.Openings.{plain_is_name, opening_is_name};
ghost use Rattle.gdb_packets.specs.Openings.{plain_in, plain_opening, opening_in, opening_among};

/// The packets that are their name alone.
#[derive(Clone, Copy, Debug, PartialEq, Eq)]
pub enum Plain {
    NoAcknowledgement,
    StopReason,
    CurrentThread,
    FirstThreads,
    NextThreads,
    Registers,
    Continue,
    Step,
    BackContinue,
    BackStep,
    Kill,
}

/// The openings of packets that go on behind them.
#[derive(Clone, Copy, Debug, PartialEq, Eq)]
pub enum Opening {
    Supported,
    Attached,
    Alive,
    GeneralThread,
    ResumedThread,
    Register,
    Memory,
    WriteRegisters,
    WriteRegister,
    WriteMemory,
    Insert,
    Remove,
    Resume,
    Detach,
    KillProcess,
    Description,
    ExecFile,
    Threads,
    SetFileSystem,
    CloseFile,
    OpenFile,
    FileStatus,
    ReadFile,
    Command,
}

const PLAINS: [Plain; 11] = [
    Plain::NoAcknowledgement,
    Plain::StopReason,
    Plain::CurrentThread,
    Plain::FirstThreads,
    Plain::NextThreads,
    Plain::Registers,
    Plain::Continue,
    Plain::Step,
    Plain::BackContinue,
    Plain::BackStep,
    Plain::Kill,
];

const OPENINGS: [Opening; 24] = [
    Opening::Supported,
    Opening::Attached,
    Opening::Alive,
    Opening::GeneralThread,
    Opening::ResumedThread,
    Opening::Register,
    Opening::Memory,
    Opening::WriteRegisters,
    Opening::WriteRegister,
    Opening::WriteMemory,
    Opening::Insert,
    Opening::Remove,
    Opening::Resume,
    Opening::Detach,
    Opening::KillProcess,
    Opening::Description,
    Opening::ExecFile,
    Opening::Threads,
    Opening::SetFileSystem,
    Opening::CloseFile,
    Opening::OpenFile,
    Opening::FileStatus,
    Opening::ReadFile,
    Opening::Command,
];

/// The name of the packet.
pub(crate) fn plain_text(plain: Plain) -> &'static str
    ensures { result.now ≡ plain_text plain }
{
    match plain {
        Plain::NoAcknowledgement => "QStartNoAckMode",
        Plain::StopReason => "?",
        Plain::CurrentThread => "qC",
        Plain::FirstThreads => "qfThreadInfo",
        Plain::NextThreads => "qsThreadInfo",
        Plain::Registers => "g",
        Plain::Continue => "c",
        Plain::Step => "s",
        Plain::BackContinue => "bc",
        Plain::BackStep => "bs",
        Plain::Kill => "k",
    }
}

/// The opening's bytes.
pub(crate) fn opening_text(opening: Opening) -> &'static str
    ensures { result.now ≡ opening_text opening }
{
    match opening {
        Opening::Supported => "qSupported",
        Opening::Attached => "qAttached",
        Opening::Alive => "T",
        Opening::GeneralThread => "Hg",
        Opening::ResumedThread => "Hc",
        Opening::Register => "p",
        Opening::Memory => "m",
        Opening::WriteRegisters => "G",
        Opening::WriteRegister => "P",
        Opening::WriteMemory => "M",
        Opening::Insert => "Z",
        Opening::Remove => "z",
        Opening::Resume => "vCont",
        Opening::Detach => "D",
        Opening::KillProcess => "vKill;",
        Opening::Description => "qXfer:features:read:target.xml:",
        Opening::ExecFile => "qXfer:exec-file:read:",
        Opening::Threads => "qXfer:threads:read::",
        Opening::SetFileSystem => "vFile:setfs:",
        Opening::CloseFile => "vFile:close:",
        Opening::OpenFile => "vFile:open:",
        Opening::FileStatus => "vFile:fstat:",
        Opening::ReadFile => "vFile:pread:",
        Opening::Command => "qRcmd,",
    }
}

/// Whether a name ends here.
fn ends_name(rest: &[u8]) -> bool
    ensures { result ≡ ends_name rest.now }
{
    match rest {
        [] => true,
        [c, ..] => matches!(*c, b':' | b',' | b';' | b'?'),
    }
}

fn begins_as(text: &[u8], opening: &str, is_name: bool) -> bool
    ensures value { result ≡ begins_as text.now opening.now is_name }
    ensures bound { IsTrue result → length opening.now ≤ length text.now }
{
    if !text.starts_with(opening.as_bytes()) {
        return false;
    }
    if !is_name {
        return true;
    }
    let (_, rest) = text.split_at(opening.len());
    ends_name(rest)
}

fn plain_is_name(plain: Plain) -> bool
    ensures { result ≡ plain_is_name plain }
{
    matches!(
        plain,
        Plain::NoAcknowledgement | Plain::CurrentThread | Plain::FirstThreads | Plain::NextThreads
    )
}

fn opening_is_name(opening: Opening) -> bool
    ensures { result ≡ opening_is_name opening }
{
    matches!(
        opening,
        Opening::Supported | Opening::Attached | Opening::Resume
    )
}

/// The first of the table that a packet begins with.
fn plain_in(table: &[Plain], text: &[u8]) -> Option<Plain>
    ensures value { result ≡ plain_in table.now text.now }
    ensures bound { IfSome result (λ plain. length (plain_text plain) ≤ length text.now) }
{
    for plain in table {
        if begins_as(text, plain_text(*plain), plain_is_name(*plain)) {
            return Some(*plain);
        }
    }
    None
}

/// The name that a packet begins with.
pub(crate) fn plain_opening(text: &[u8]) -> Option<Plain>
    ensures value { result ≡ plain_opening text.now }
    ensures bound { IfSome result (λ plain. length (plain_text plain) ≤ length text.now) }
{
    plain_in(&PLAINS, text)
}

/// The first of the table that a packet begins with.
fn opening_in(table: &[Opening], text: &[u8]) -> Option<Opening>
    ensures value { result ≡ opening_in table.now text.now }
    ensures bound { IfSome result (λ opening. length (opening_text opening) ≤ length text.now) }
{
    for opening in table {
        if begins_as(text, opening_text(*opening), opening_is_name(*opening)) {
            return Some(*opening);
        }
    }
    None
}

/// The opening that a packet begins with.
pub(crate) fn opening_among(text: &[u8]) -> Option<Opening>
    ensures value { result ≡ opening_among text.now }
    ensures bound { IfSome result (λ opening. length (opening_text opening) ≤ length text.now) }
{
    opening_in(&OPENINGS, text)
}
