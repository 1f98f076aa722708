// A shim that answers by what a leader was told.
ghost use Rattle.std.specs.Prelude.{◌≡◌, ◌≤◌, ◌++◌, List, length, drop};
ghost use Rattle.std.specs.Prelude.{◌∷◌, [], IfSome};
ghost use Rattle.twin_shims.specs.declared.note.Note.{Note};
ghost use Rattle.twin_shims.specs.Follower.{IsFollowerStop, StopsReader, front};
ghost use Rattle.twin_shims.specs.Notes.{IsClosed};

use crate::pushed::Taken;
use crate::reader::Reader;
use dos_io::{Exchange, Shim, ShimStop, SignalList};
use dos_world::{Ending, Question};
use std::sync::Wait;

/// Answers each question by the next note of its leader, and stops where that is of another
/// question or says that the leader has stopped. It takes no memory.
#[derive(Drop)]
pub struct Following<'a, R> {
    rt: &'a R,
    reader: Reader<'a>,
}

// what a note has for its question, into a buffer
fn put_bytes(buf: &mut [u8], bytes: &[u8])
    requires { length bytes.now ≤ length buf.old }
    ensures { buf.new ≡ bytes.now ++ drop (length bytes.now) buf.old }
{
    buf[..bytes.len()].copy_from_slice(bytes);
}

impl<'a, R: Wait> Shim for Following<'a, R> {
    ghost use Rattle.twin_shims.specs.Follower.{follower_state, FollowsReader};
    ghost use Rattle.twin_shims.specs.FollowerLaws.{reads_itself, reads_on};

    ghost state = { λ s. follower_state s.reader };

    ghost follows = { λ s t. FollowsReader s.reader t.reader };

    fn signals(&mut self, round: u32, list: &mut SignalList) -> Result<(), ShimStop> {
        match self.reader.fit(self.rt, Question::Signals { round })? {
            Exchange::Signals { list: kept, .. } => {
                *list = kept;
                Ok(())
            }
            _ => unreachable!(),
        }
    }

    fn input(&mut self, round: u32, tid: u32, buf: &mut [u8]) -> Result<usize, ShimStop> {
        let max = buf.len() as u32;
        match self
            .reader
            .fit(self.rt, Question::Input { round, tid, max })?
        {
            Exchange::Input { bytes, .. } => {
                let bytes = bytes.bytes();
                put_bytes(buf, bytes);
                Ok(bytes.len())
            }
            _ => unreachable!(),
        }
    }

    fn clock(&mut self, round: u32, tid: u32) -> Result<u64, ShimStop> {
        match self.reader.fit(self.rt, Question::Clock { round, tid })? {
            Exchange::Clock { reading, .. } => Ok(reading),
            _ => unreachable!(),
        }
    }

    fn end(&mut self, ending: Ending, rounds: u32) -> Result<(), ShimStop> {
        let _end = self.reader.fit(self.rt, Question::End { ending, rounds })?;
        Ok(())
    }

    ghost reflexive = { λ s. reads_itself s.reader };

    ghost transitive = { λ s t u p q. reads_on s.reader t.reader u.reader p q };
}

impl<'a, R: Wait> Following<'a, R> {
    /// A follower that goes on with this reader.
    pub fn of(rt: &'a R, reader: Reader<'a>) -> Following<'a, R>
        ensures { result.reader ≡ reader.entry }
    {
        Following { rt, reader }
    }

    /// What it kept all along: where its last call stopped, it stopped by its next note, which is
    /// the last that it took.
    pub fn look(&self)
        ensures next { IfSome self.now.reader.next
            (λ note. self.now.reader.taken ≡ front self.now.reader.taken ++ note ∷ []) }
        ensures stop { IfSome self.now.reader.asked
            (λ q. IfSome self.now.reader.last (StopsReader self.now.reader q)) }
        ensures never { IfSome self.now.reader.last IsFollowerStop }
    {
        self.reader.look();
    }

    /// All that was taken, up to the note that closes, which is waited for.
    pub fn finish(self) -> Taken<'a>
        ensures line { result.line ≡ self.entry.reader.line }
        ensures more { (more : List Note) × (result.notes ≡ self.entry.reader.taken ++ more) }
        ensures closed { IsClosed result.notes }
    {
        let Following { rt, reader } = self;
        reader.finish(rt)
    }
}
