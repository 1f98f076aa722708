// A sink and files in memory, which fail at the calls that they are told to.
ghost use Rattle.std.specs.Prelude.{◌≡◌, ◌≢◌, ◌↔◌, ◌<◌, ◌≤◌, ℕ, List, [], Some, None, not, true};
ghost use Rattle.std.specs.Prelude.{is_ok, length, string_bytes, IsTrue, OnOk, OnErr, IfOk};
ghost use Rattle.std.specs.Prelude.{IfSome, IsErrOf, ◌∷◌, ◌++◌};
ghost use Rattle.dos_io.specs.Outside.{grown, GrewByFront, HasCause, Rose};
ghost use Rattle.dos_io.specs.Calls.{no_calls, after_call, put_succeeds, after_put};
ghost use Rattle.dos_io.specs.FileCalls.{getting, setting};
ghost use Rattle.dos_io.specs.Memory.{asked_of, held, calls_of, get_succeeds, set_succeeds};

use crate::asked_files::AskedFiles;
use crate::calls::Calls;
use crate::{FileError, Files, Sink, SinkFault};
use std::alloc::{AllocError, Global};
use std::collections::BTreeMap;
use std::marker::Model;

/// A sink in memory. It fails at the calls whose numbers it is given, and where a piece is longer
/// than the room that is left, and at no other call.
#[derive(Drop)]
pub struct MemorySink {
    bytes: Vec<u8>,
    room: usize,
    calls: Calls,
}

impl Model for MemorySink {
    ghost use Rattle.std.specs.Prelude.{◌≤◌, vec_len, vec_capacity};
    ghost use Rattle.dos_io.specs.Calls.{SinkState};

    ghost Value = { SinkState };

    ghost view = { λ s. record { bytes = s.bytes.items; room = s.room; calls = s.calls } };

    ghost invariant = { λ s. (vec_len s.bytes ≤ s.room) × (s.room ≤ vec_capacity s.bytes) };
}

impl MemorySink {
    /// An empty sink with room for `room` bytes in all. `failing` has the numbers of the puts that
    /// are to fail, counted from 1.
    pub fn new(alloc: Global, room: u32, failing: &[u32]) -> Result<MemorySink, AllocError>
        ensures { IfOk result (λ sink. sink ≡ record {
          bytes = [];
          room = room;
          calls = no_calls failing.now;
        }) }
    {
        let room = room as usize;
        Ok(MemorySink {
            bytes: Vec::with_capacity(alloc, room)?,
            room,
            calls: Calls::new(alloc, failing)?,
        })
    }

    /// The bytes put so far.
    pub fn bytes(&self) -> &[u8]
        ensures bytes { result.now ≡ self.now.bytes }
        ensures told { ⟦<MemorySink as Sink>⟧.told self.now ≡ Some result.now }
    {
        &self.bytes
    }
}

impl Sink for MemorySink {
    ghost told = { λ s. Some s.bytes };

    ghost faults = { λ s. s.calls.faults };

    /// Takes no memory. A put that fails leaves the bytes as they were.
    fn put(&mut self, piece: &[u8]) -> Result<(), SinkFault>
        ensures answer { is_ok result ≡ put_succeeds self.old piece.now }
        ensures state { self.new ≡ after_put self.old piece.now }

        // As of every sink.
        ensures ok { OnOk result (Some self.new.bytes ≡ grown (Some self.old.bytes) piece.now) }
        ensures err { OnErr result (GrewByFront (Some self.old.bytes) (Some self.new.bytes)
            piece.now) }
        ensures cause { HasCause self.old.calls.faults self.new.calls.faults result }
        ensures steady { OnOk result (self.new.calls.faults ≡ self.old.calls.faults) }
    {
        let fits = piece.len() <= self.room - self.bytes.len();
        if !self.calls.count(fits) {
            return Err(SinkFault);
        }
        self.bytes.extend_from_slice(piece).unwrap();
        Ok(())
    }
}

/// Files in memory. A call fails by a fault where it is told to, and a get also where the name
/// isn't held.
#[derive(Drop)]
pub struct MemoryFiles {
    alloc: Global,
    contents: BTreeMap<String, Vec<u8>>,
    calls: Calls,
    asked: AskedFiles,
}

impl MemoryFiles {
    /// Files that hold nothing. `failing` has the numbers of the gets and sets that are to fail,
    /// counted together from 1.
    pub fn new(alloc: Global, failing: &[u32]) -> Result<MemoryFiles, AllocError>
        ensures empty { IfOk result (λ files. (n : List ℕ) → held files n ≡ None) }
        ensures calls { IfOk result (λ files. calls_of files ≡ no_calls failing.now) }
        ensures asked { IfOk result (λ files. asked_of files ≡ []) }
    {
        Ok(MemoryFiles {
            alloc,
            contents: BTreeMap::new(alloc),
            calls: Calls::new(alloc, failing)?,
            asked: AskedFiles::new(),
        })
    }

    /// Gives a name its content. It counts as no call.
    pub fn add(&mut self, name: &str, bytes: &[u8]) -> Result<(), AllocError>
        ensures content { OnOk result (held self.new name.now ≡ Some bytes.now) }
        ensures others { (n : List ℕ) → n ≢ name.now → held self.new n ≡ held self.old n }
        ensures err { OnErr result (held self.new name.now ≡ held self.old name.now) }
        ensures calls { calls_of self.new ≡ calls_of self.old }
        ensures asked { asked_of self.new ≡ asked_of self.old }
    {
        let (key, content) = owned(self.alloc, name, bytes)?;
        self.contents.insert(key, content)?;
        Ok(())
    }

    // A copy of what is held under a name, which is a fault where nothing is.
    fn copy(&self, name: &str, limit: u64) -> Result<Vec<u8>, FileError>
        ensures bytes { IfOk result (λ v. held self.now name.now ≡ Some v.items) }
        ensures within { IfOk result (λ v. length v.items ≤ limit) }
        ensures too_long { IsErrOf result FileError.TooLong → IfSome (held self.now name.now)
            (λ t. limit < length t) }
        ensures fault { IsErrOf result FileError.Fault → held self.now name.now ≡ None }
    {
        match self.contents.get(name) {
            Some(bytes) if bytes.len() as u64 <= limit => Ok(Vec::from_slice(self.alloc, bytes)?),
            Some(_) => Err(FileError::TooLong),
            None => Err(FileError::Fault),
        }
    }
}

// A name and its content, in memory of their own.
fn owned(alloc: Global, name: &str, bytes: &[u8]) -> Result<(String, Vec<u8>), AllocError>
    ensures name { IfOk result (λ entry. string_bytes entry.0 ≡ name.now) }
    ensures content { IfOk result (λ entry. entry.1.items ≡ bytes.now) }
{
    Ok((
        String::from_str(alloc, name)?,
        Vec::from_slice(alloc, bytes)?,
    ))
}

impl Files for MemoryFiles {
    ghost content = { held };

    ghost tells = { λ _. true };

    ghost faults = { λ s. (calls_of s).faults };

    ghost asked = { asked_of };

    fn get(&mut self, name: &str, limit: u64) -> Result<Vec<u8>, FileError>
        ensures answer { IsErrOf result FileError.Fault
            ↔ IsTrue (not (get_succeeds self.old name.now)) }
        ensures calls { calls_of self.new ≡ after_call (calls_of self.old)
            (get_succeeds self.old name.now) }
        ensures bytes { IfOk result (λ v. held self.old name.now ≡ Some v.items) }

        // As of all files.
        ensures within { IfOk result (λ v. length v.items ≤ limit) }
        ensures too_long { IsErrOf result FileError.TooLong → IfSome (held self.old name.now)
            (λ t. limit < length t) }
        ensures fault { IsErrOf result FileError.Fault → Rose (calls_of self.old).faults
            (calls_of self.new).faults }
        ensures asked { asked_of self.new ≡ asked_of self.old ++ getting name.now ∷ [] }
        ensures stays { (n : List ℕ) → held self.new n ≡ held self.old n }
        ensures later { (calls_of self.old).faults ≤ (calls_of self.new).faults }
    {
        self.asked.get(name.as_bytes());
        if !self.calls.count(self.contents.contains_key(name)) {
            return Err(FileError::Fault);
        }
        self.copy(name, limit)
    }

    fn set(&mut self, name: &str, bytes: &[u8]) -> Result<(), FileError>
        ensures answer { IsErrOf result FileError.Fault ↔ IsTrue (not (set_succeeds self.old)) }
        ensures calls { calls_of self.new ≡ after_call (calls_of self.old) (set_succeeds self.old) }
        ensures content { OnOk result (held self.new name.now ≡ Some bytes.now) }
        ensures err { OnErr result (held self.new name.now ≡ held self.old name.now) }

        // As of all files.
        ensures never { result ≢ Err FileError.TooLong }
        ensures fault { IsErrOf result FileError.Fault → Rose (calls_of self.old).faults
            (calls_of self.new).faults }
        ensures asked { asked_of self.new ≡ asked_of self.old ++ setting name.now ∷ [] }
        ensures others { (n : List ℕ) → n ≢ name.now → held self.new n ≡ held self.old n }
        ensures later { (calls_of self.old).faults ≤ (calls_of self.new).faults }
    {
        self.asked.set(name.as_bytes());
        if !self.calls.count(true) {
            return Err(FileError::Fault);
        }
        self.add(name, bytes)?;
        Ok(())
    }
}
