// The outside over std. It tells nothing that all sinks and files tell; what its writers and
// readers did stands in its own clauses.
ghost use Rattle.std.specs.Prelude.{◌≡◌, ◌≢◌, None, false, ◌<◌, ◌≤◌, ◌+◌, ℕ, List, length, IfOk};
ghost use Rattle.std.specs.Prelude.{OnOk, OnErr, IfErr, IfSome, IsErrOf, take, [], ◌∷◌, ◌++◌};
ghost use Rattle.std.specs.Io.KnownBytes.{Appends, Consumes, IsAtEnd, Keeps};
ghost use Rattle.dos_io.specs.FileCalls.{getting, setting};
ghost use Rattle.dos_io.specs.Outside.{HasCause, counted_to_limit};
ghost use Rattle.dos_io.specs.System.{writer_bytes, Gave, GaveMore, Took};

use crate::asked_files::AskedFiles;
use crate::{FileError, Files, Sink, SinkFault};
use std::alloc::Global;
use std::fs;
use std::io::{Read, Write};

/// A standard stream of the process, over a writer to it. What a guest writes need not be text, and
/// of a writer a clause can say that it took the bytes; std's own traits for the streams say
/// nothing.
#[derive(Drop)]
pub struct StdStream<W: Write> {
    writer: W,
    faults: u64,
}

/// Standard output, over `rt.stdout()`.
pub type StdOut<W> = StdStream<W>;

/// Standard error, over `rt.stderr()`.
pub type StdErr<W> = StdStream<W>;

impl<W: Write> StdStream<W> {
    /// A stream over a writer, with no fault so far.
    pub fn new(writer: W) -> StdStream<W>
        ensures writer { writer_bytes W.contents result ≡ W.contents writer }
        ensures faults { ⟦<StdStream<W> as Sink>⟧.faults result ≡ 0 }
    {
        StdStream { writer, faults: 0 }
    }
}

impl<W: Write> Sink for StdStream<W> {
    // A writer of which nothing is known may come to be known at any call, so it is no sink that
    // tells.
    ghost told = { λ _. None };

    ghost faults = { λ s. s.faults };

    /// Where it is known what the writer holds, that grew by the piece. The count of faults rises
    /// by one at a fault, and at no other call.
    fn put(&mut self, piece: &[u8]) -> Result<(), SinkFault>
        ensures written { OnOk result (Appends (writer_bytes W.contents self.old)
            (writer_bytes W.contents self.new)
            piece.now) }
        ensures steady { OnOk result (⟦<StdStream<W> as Sink>⟧.faults self.new
            ≡ ⟦<StdStream<W> as Sink>⟧.faults self.old) }
        ensures counted { OnErr result (⟦<StdStream<W> as Sink>⟧.faults self.new
            ≡ counted_to_limit (⟦<StdStream<W> as Sink>⟧.faults self.old)) }

        // As of every sink.
        ensures cause { HasCause (⟦<StdStream<W> as Sink>⟧.faults self.old)
            (⟦<StdStream<W> as Sink>⟧.faults self.new) result }
    {
        match self.writer.write_all(piece) {
            Ok(()) => Ok(()),
            Err(_) => {
                self.faults = self.faults.saturating_add(1);
                Err(SinkFault)
            }
        }
    }
}

/// The files of the system, where a name is a path.
#[derive(Drop)]
pub struct StdFiles<'a, R: fs::Files> {
    rt: &'a R,
    alloc: Global,
    faults: u64,
    asked: AskedFiles,
}

impl<'a, R: fs::Files> StdFiles<'a, R> {
    /// The runtime's files, with no fault so far, and asked nothing yet. What is read goes into
    /// memory of `alloc`.
    pub fn new(rt: &'a R, alloc: Global) -> StdFiles<'a, R>
        ensures faults { ⟦<StdFiles<'a, R> as Files>⟧.faults result ≡ 0 }
        ensures asked { ⟦<StdFiles<'a, R> as Files>⟧.asked result ≡ [] }
    {
        StdFiles {
            rt,
            alloc,
            faults: 0,
            asked: AskedFiles::new(),
        }
    }

    // Counts a fault and answers it.
    fn fault<T>(&mut self) -> Result<T, FileError>
        ensures answer { result ≡ Err FileError.Fault }
        ensures count { self.new ≡ record self.old { faults = counted_to_limit self.old.faults } }
        ensures later { self.old.faults ≤ self.new.faults }
    {
        self.faults = self.faults.saturating_add(1);
        Err(FileError::Fault)
    }
}

const PIECE: usize = 4096;

// One read into the front of a piece, of at most one byte more than `left`.
fn read_piece<I: Read>(input: &mut I, piece: &mut [u8], left: u64) -> Result<usize, FileError>
    requires { length piece.old ≡ 4096 }
    ensures gave { IfOk result (λ k. Consumes (I.remaining input.old) (I.remaining input.new)
        (take k piece.new)) }
    ensures end { IfOk result (λ k. k ≡ 0 → IsAtEnd (I.remaining input.new)) }
    ensures kept { OnErr result (Keeps (I.remaining input.old) (I.remaining input.new)) }
    ensures most { IfOk result (λ k. k ≤ left + 1) }
    ensures within { IfOk result (λ k. k ≤ 4096) }
    ensures room { length piece.new ≡ 4096 }
    ensures fault { IfErr result (λ e. e ≡ FileError.Fault) }
{
    let wanted = left.min(PIECE as u64 - 1) as usize + 1;
    match input.read(&mut piece[..wanted]) {
        Ok(count) => Ok(count),
        Err(_) => Err(FileError::Fault),
    }
}

// All that a reader has left, where that is at most the limit. It takes at most one byte more.
fn read_whole<I: Read>(alloc: Global, input: &mut I, limit: u64) -> Result<Vec<u8>, FileError>
    ensures bytes { IfOk result (λ v. Consumes (I.remaining input.old)
        (I.remaining input.new) v.items) }
    ensures end { OnOk result (IsAtEnd (I.remaining input.new)) }
    ensures within { IfOk result (λ v. length v.items ≤ limit) }
    ensures too_long { IsErrOf result FileError.TooLong → IfSome (I.remaining input.old)
        (λ had. limit < length had) }
    ensures taken { (bs : List ℕ) × Consumes (I.remaining input.old) (I.remaining input.new) bs
        × (length bs ≤ limit + 1) }
{
    let mut bytes = Vec::new(alloc);
    let mut piece = [0; PIECE];
    while bytes.len() as u64 <= limit {
        let count = read_piece(input, &mut piece, limit - bytes.len() as u64)?;
        if count == 0 {
            return Ok(bytes);
        }
        bytes.extend_from_slice(&piece[..count])?;
    }
    Err(FileError::TooLong)
}

impl<'a, R: fs::Files> Files for StdFiles<'a, R> {
    ghost content = { λ _ _. None };

    ghost tells = { λ _. false };

    ghost faults = { λ s. s.faults };

    ghost asked = { λ s. s.asked.calls };

    /// What a file gave, to its end, of which it takes at most one byte more than the limit. The
    /// count of faults rises by one at a fault, and at no other answer.
    fn get(&mut self, name: &str, limit: u64) -> Result<Vec<u8>, FileError>
        ensures gave { IfOk result (λ v. Gave R.File.remaining v.items) }
        ensures within { IfOk result (λ v. length v.items ≤ limit) }
        ensures asked { ⟦<StdFiles<'a, R> as Files>⟧.asked self.new
            ≡ ⟦<StdFiles<'a, R> as Files>⟧.asked self.old ++ getting name.now ∷ [] }
        ensures longer { IsErrOf result FileError.TooLong → GaveMore R.File.remaining limit }
        ensures counted { IsErrOf result FileError.Fault
            → ⟦<StdFiles<'a, R> as Files>⟧.faults self.new
            ≡ counted_to_limit (⟦<StdFiles<'a, R> as Files>⟧.faults self.old) }
        ensures steady { result ≢ Err FileError.Fault → ⟦<StdFiles<'a, R> as Files>⟧.faults self.new
            ≡ ⟦<StdFiles<'a, R> as Files>⟧.faults self.old }
        ensures later { ⟦<StdFiles<'a, R> as Files>⟧.faults self.old
            ≤ ⟦<StdFiles<'a, R> as Files>⟧.faults
            self.new }
    {
        self.asked.get(name.as_bytes());
        let Ok(mut file) = fs::open(self.rt, name) else {
            return self.fault();
        };
        match read_whole(self.alloc, &mut file, limit) {
            Err(FileError::Fault) => self.fault(),
            read => read,
        }
    }

    /// A file took the bytes, or it is a fault. The count of faults rises by one at a fault, and at
    /// no other answer.
    fn set(&mut self, name: &str, bytes: &[u8]) -> Result<(), FileError>
        ensures took { OnOk result (Took R.File.contents bytes.now) }
        ensures asked { ⟦<StdFiles<'a, R> as Files>⟧.asked self.new
            ≡ ⟦<StdFiles<'a, R> as Files>⟧.asked self.old ++ setting name.now ∷ [] }
        ensures steady { OnOk result (⟦<StdFiles<'a, R> as Files>⟧.faults self.new
            ≡ ⟦<StdFiles<'a, R> as Files>⟧.faults self.old) }
        ensures fault { IfErr result (λ e. e ≡ FileError.Fault) }
        ensures counted { OnErr result (⟦<StdFiles<'a, R> as Files>⟧.faults self.new
            ≡ counted_to_limit (⟦<StdFiles<'a, R> as Files>⟧.faults self.old)) }
        ensures later { ⟦<StdFiles<'a, R> as Files>⟧.faults self.old
            ≤ ⟦<StdFiles<'a, R> as Files>⟧.faults
            self.new }
    {
        self.asked.set(name.as_bytes());
        let Ok(mut file) = fs::create(self.rt, name) else {
            return self.fault();
        };
        match file.write_all(bytes) {
            Ok(()) => Ok(()),
            Err(_) => self.fault(),
        }
    }
}
