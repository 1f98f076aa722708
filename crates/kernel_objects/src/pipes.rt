// Pipes: the bytes that each holds, and how many ends it has.
ghost use Rattle.std.specs.Prelude.{◌≡◌, ◌-◌, ◌+◌, ◌<◌, ◌≤◌, min, [], ◌++◌, length, map, take};
ghost use Rattle.std.specs.Prelude.{drop, replicate, None, Some, true, false, IfOk, IfSome, All};
ghost use Rattle.std.specs.Prelude.{if◌then◌else◌};
ghost use Rattle.circular_buffer.specs.Buffer.{buffer};
ghost use Rattle.kernel_objects.specs.Pipework.{AreClosedEmpty, FitsPipe, filled, held_bytes};
ghost use Rattle.kernel_objects.specs.Pipework.{vector_bytes};
ghost use Rattle.kernel_objects.specs.Pipework.{bytes_at, ends_at, is_open_at, lowest_closed};
ghost use Rattle.kernel_objects.specs.Pipework.{none_open, with_bytes, with_dropped, with_ends};
ghost use Rattle.kernel_objects.specs.Pipework.{with_opened};

use circular_buffer::HeapCircularBuffer;
use std::alloc::{AllocError, Global};
use std::marker::Model;

// how many pipes there are, and how many bytes each holds
const PIPES: usize = 64;

const ROOM: usize = 4096;

/// 64 pipes of 4096 bytes, numbered from 0. Contracts see three lists, by pipe: bytes, readers and
/// writers.
#[derive(Drop)]
pub struct Pipes {
    buffers: Vec<HeapCircularBuffer<u8>>,
    readers: [u32; 64],
    writers: [u32; 64],
}

impl Model for Pipes {
    ghost use Rattle.kernel_objects.specs.Pipework.{AreKept, Pipework, held_bytes};

    ghost Value = { Pipework };

    ghost view = { λ p. record {
      bytes = held_bytes p.buffers.items;
      readers = p.readers;
      writers =
          p.writers;
    } };

    ghost invariant = { λ p. AreKept p.buffers.items p.readers p.writers };
}

impl Pipes {
    /// No pipe is open. All memory of the pipes is taken here.
    pub fn reserve(alloc: Global) -> Result<Pipes, AllocError>
        ensures { IfOk result (λ p. p ≡ none_open) }
    {
        Ok(Pipes {
            buffers: empty_buffers(alloc)?,
            readers: [0; 64],
            writers: [0; 64],
        })
    }

    /// The 64 pipes with these bytes and so many readers and writers each. All memory of the pipes
    /// is taken here.
    pub fn restore(
        alloc: Global,
        bytes: &[Vec<u8>],
        readers: [u32; 64],
        writers: [u32; 64],
    ) -> Result<Pipes, AllocError>
        requires count { length bytes.now ≡ 64 }
        requires fits { All FitsPipe bytes.now }
        requires closed { AreClosedEmpty (vector_bytes bytes.now) readers writers }
        ensures { IfOk result (λ p. p
            ≡ record { bytes = vector_bytes bytes.now; readers = readers; writers = writers }) }
    {
        Ok(Pipes {
            buffers: filled_buffers(alloc, bytes)?,
            readers,
            writers,
        })
    }

    /// The bytes of each pipe, by number.
    pub fn copy_bytes(&self, alloc: Global) -> Result<Vec<Vec<u8>>, AllocError>
        ensures { IfOk result (λ v. vector_bytes v.items ≡ self.now.bytes) }
    {
        copy_all(alloc, &self.buffers)
    }

    /// Opens the lowest pipe that isn't open, with one reader and one writer; it is empty. None
    /// exactly where all 64 are open; nothing changes then.
    pub fn open(&mut self) -> Option<u8>
        ensures lowest { result ≡ lowest_closed self.old }
        ensures none { result ≡ None → self.new ≡ self.old }
        ensures opens { IfSome result (λ pipe. self.new ≡ with_opened self.old pipe) }
        ensures empty { IfSome result (λ pipe. bytes_at self.old pipe ≡ []) }
    {
        let pipe = first_closed(&self.readers, &self.writers)?;
        self.readers[pipe as usize] = 1;
        self.writers[pipe as usize] = 1;
        Some(pipe)
    }

    /// How many ends of one kind the pipe has.
    pub fn ends(&self, pipe: u8, writer: bool) -> u32
        requires { pipe < 64 }
        ensures { result ≡ ends_at self.now pipe writer }
    {
        if writer {
            self.writers[pipe as usize]
        } else {
            self.readers[pipe as usize]
        }
    }

    /// One end more. Nothing else changes.
    pub fn add_end(&mut self, pipe: u8, writer: bool)
        requires pipe { pipe < 64 }
        requires open { is_open_at self.old pipe ≡ true }
        requires few { ends_at self.old pipe writer < 1024 }
        ensures { self.new ≡ with_ends self.old pipe writer (ends_at self.old pipe writer + 1) }
    {
        if writer {
            self.writers[pipe as usize] += 1;
        } else {
            self.readers[pipe as usize] += 1;
        }
    }

    /// One end less. Where none is left the pipe is closed, and empty.
    pub fn drop_end(&mut self, pipe: u8, writer: bool)
        requires pipe { pipe < 64 }
        requires there { 0 < ends_at self.old pipe writer }
        ensures { self.new ≡ with_dropped self.old pipe writer }
    {
        let place = pipe as usize;
        if writer {
            self.writers[place] -= 1;
        } else {
            self.readers[place] -= 1;
        }
        if self.readers[place] == 0 && self.writers[place] == 0 {
            self.buffers[place].clear();
        }
    }

    /// How many bytes the pipe holds.
    pub fn len(&self, pipe: u8) -> u32
        requires { pipe < 64 }
        ensures { result ≡ length (bytes_at self.now pipe) }
    {
        self.buffers[pipe as usize].len() as u32
    }

    /// Moves the first bytes out, as many as fit into `buffer`; how many. The rest of `buffer`
    /// stays.
    pub fn take(&mut self, pipe: u8, buffer: &mut [u8]) -> usize
        requires { pipe < 64 }
        ensures count { result ≡ min (length buffer.old) (length (bytes_at self.old pipe)) }
        ensures moved { buffer.new ≡ take result (bytes_at self.old pipe)
            ++ drop result buffer.old }
        ensures left { self.new ≡ with_bytes self.old pipe (drop result (bytes_at self.old pipe)) }
    {
        self.buffers[pipe as usize].read_into(buffer)
    }

    /// Puts the first of these bytes behind those that the pipe holds, as many as fit; how many.
    pub fn give(&mut self, pipe: u8, bytes: &[u8]) -> usize
        requires pipe { pipe < 64 }
        requires open { is_open_at self.old pipe ≡ true }
        ensures count { result ≡ min (length bytes.now) (4096 - length (bytes_at self.old pipe)) }
        ensures put { self.new
            ≡ with_bytes self.old pipe (bytes_at self.old pipe ++ take result bytes.now) }
    {
        self.buffers[pipe as usize].fill_from_slice(bytes)
    }
}

fn empty_buffers(alloc: Global) -> Result<Vec<HeapCircularBuffer<u8>>, AllocError>
    ensures { IfOk result (λ buffers. buffers.items ≡ replicate 64 (buffer [] 4096)) }
{
    let mut buffers = Vec::with_capacity(alloc, PIPES)?;
    for _place in 0..64_u32 {
        buffers.push(HeapCircularBuffer::with_capacity(alloc, ROOM)?)?;
    }
    Ok(buffers)
}

// a buffer of a pipe that holds these bytes
fn filled_buffer(alloc: Global, bytes: &[u8]) -> Result<HeapCircularBuffer<u8>, AllocError>
    requires { length bytes.now ≤ 4096 }
    ensures { IfOk result (λ b. b ≡ buffer bytes.now 4096) }
{
    let mut filled = HeapCircularBuffer::with_capacity(alloc, ROOM)?;
    filled.fill_from_slice(bytes);
    Ok(filled)
}

fn filled_buffers(
    alloc: Global,
    bytes: &[Vec<u8>],
) -> Result<Vec<HeapCircularBuffer<u8>>, AllocError>
    requires { All FitsPipe bytes.now }
    ensures { IfOk result (λ buffers. buffers.items ≡ map filled bytes.now) }
{
    let mut buffers = Vec::with_capacity(alloc, PIPES)?;
    for held in bytes {
        buffers.push(filled_buffer(alloc, held.as_slice())?)?;
    }
    Ok(buffers)
}

fn copy_all(alloc: Global, buffers: &[HeapCircularBuffer<u8>]) -> Result<Vec<Vec<u8>>, AllocError>
    ensures { IfOk result (λ v. vector_bytes v.items ≡ held_bytes buffers.now) }
{
    let mut copies = Vec::with_capacity(alloc, PIPES)?;
    for buffer in buffers {
        copies.push(buffer.to_vec(alloc)?)?;
    }
    Ok(copies)
}

fn first_closed(readers: &[u32; 64], writers: &[u32; 64]) -> Option<u8>
    ensures found { result
        ≡ lowest_closed (record { bytes = []; readers = readers.now; writers = writers.now }) }
    ensures within { IfSome result (λ pipe. pipe < 64) }
{
    for pipe in 0..64_u8 {
        if readers[pipe as usize] == 0 && writers[pipe as usize] == 0 {
            return Some(pipe);
        }
    }
    None
}
