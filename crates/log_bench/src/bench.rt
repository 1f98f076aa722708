//! The work that is timed.
use crate::kind::Kind;
use crate::recording::{host, read, record, replay};
use log_text::{Log, write_log};
use std::alloc::Global;
use std::io;

/// What is done again and again.
#[derive(Clone, Copy)]
pub enum Work {
    /// The host is made that the questions are asked of.
    Prepare,
    /// The host is made, and a recorder over it is asked.
    Record,
    /// The log is written.
    Write,
    /// The text is read.
    Read,
    /// The text is read, and a replayer of it is asked.
    Replay,
}

/// Questions of one kind, the log that they make, and its text.
#[derive(Drop)]
pub struct Bench {
    alloc: Global,
    kind: Kind,
    count: u32,
    log: Log,
    text: Vec<u8>,
}

impl Bench {
    /// A bench of so many questions.
    pub fn new(alloc: Global, kind: Kind, count: u32) -> io::Result<Bench> {
        let (log, _) = record(alloc, kind, count)?;
        let text = write_log(alloc, &log, log.version())?;
        Ok(Bench {
            alloc,
            kind,
            count,
            log,
            text,
        })
    }

    // What the work comes to, done once: questions answered, bytes written, or exchanges read.
    fn once(&self, work: Work) -> io::Result<u64> {
        match work {
            Work::Prepare => {
                host(self.alloc, self.kind, self.count)?;
                Ok(0)
            }
            Work::Record => Ok(u64::from(record(self.alloc, self.kind, self.count)?.1)),
            Work::Write => Ok(write_log(self.alloc, &self.log, self.log.version())?.len() as u64),
            Work::Read => Ok(u64::from(read(self.alloc, &self.text)?.len())),
            Work::Replay => Ok(u64::from(replay(self.alloc, &self.text, self.kind, self.count)?)),
        }
    }

    /// What the work comes to, done so many times.
    pub fn run(&self, work: Work, times: u32) -> io::Result<u64> {
        let mut done = 0u64;
        for _ in 0..times {
            done = done.saturating_add(self.once(work)?);
        }
        Ok(done)
    }
}
