// Bytes that come in at the back and go out at the front, in one block of memory.
// What is added may move the bytes to a new block, but so seldom that a byte is moved a bounded number of times.
ghost use Rattle.std.specs.Prelude.{◌≡◌, ◌≤◌, [], ◌++◌, length, take, drop, OnOk, OnErr, IfOk};

use rt_base::NoMemory;
use rt_bufs::{IoBuf, IoBufs};
use std::alloc::Global;
use std::marker::Model;

/// A queue of bytes.
#[derive(Debug, Drop)]
pub struct ByteQueue {
    bytes: Vec<u8>,
    start: usize,
}

impl Model for ByteQueue {
    ghost use Rattle.std.specs.Prelude.{List, ℕ, ◌≤◌, drop, length};

    ghost Value = { List ℕ };

    ghost view = { λ q. drop q.start q.bytes.items };

    ghost invariant = { λ q. q.start ≤ length q.bytes.items };
}

impl ByteQueue {
    /// Makes an empty queue.
    pub fn new(alloc: Global) -> ByteQueue
        ensures { result ≡ [] }
    {
        ByteQueue {
            bytes: Vec::new(alloc),
            start: 0,
        }
    }

    /// Returns the number of bytes held.
    pub fn len(&self) -> usize
        ensures { result ≡ length self.now }
    {
        self.bytes.len() - self.start
    }

    /// Returns all bytes held, the oldest first.
    pub fn as_slice(&self) -> &[u8]
        ensures { result.now ≡ self.now }
    {
        &self.bytes.as_slice()[self.start..]
    }

    /// Returns a copy of the first `len` bytes.
    pub fn first(&self, len: usize) -> Result<IoBuf, NoMemory>
        requires { len ≤ length self.now }
        ensures { IfOk result (λ b. b ≡ take len self.now) }
    {
        let mut first = Vec::with_capacity(self.alloc(), len)?;
        first.extend_from_slice(&self.as_slice()[..len])?;
        IoBuf::from_vec(first)
    }

    /// Returns a copy of the first `len` bytes as buffers of one chunk.
    pub fn first_chunk(&self, len: usize) -> Result<IoBufs, NoMemory>
        requires { len ≤ length self.now }
        ensures { IfOk result (λ b. b.bytes ≡ take len self.now) }
    {
        IoBufs::from_buf(self.alloc(), self.first(len)?)
    }

    /// Returns the allocator of the queue.
    pub fn alloc(&self) -> Global {
        *self.bytes.allocator()
    }

    /// Adds `bytes` at the back. Where memory is refused nothing changes.
    pub fn extend(&mut self, bytes: &[u8]) -> Result<(), NoMemory>
        ensures added { OnOk result (self.new ≡ self.old ++ bytes.now) }
        ensures refused { OnErr result (self.new ≡ self.old) }
    {
        if self.start > 0 && self.bytes.capacity() - self.bytes.len() < bytes.len() {
            self.move_to_new_block(bytes.len())?;
        }
        self.bytes.extend_from_slice(bytes)?;
        Ok(())
    }

    /// Adds the bytes of all chunks at the back. Where memory is refused nothing changes.
    pub fn append(&mut self, bufs: &IoBufs) -> Result<(), NoMemory>
        ensures added { OnOk result (self.new ≡ self.old ++ bufs.now.bytes) }
        ensures refused { OnErr result (self.new ≡ self.old) }
    {
        let kept = self.len();
        for index in 0..bufs.chunk_count() {
            if self.extend(bufs.chunk_at(index)).is_err() {
                self.truncate(kept);
                return Err(NoMemory);
            }
        }
        Ok(())
    }

    /// Takes the bytes from `len` on away.
    pub fn truncate(&mut self, len: usize)
        requires { len ≤ length self.old }
        ensures { self.new ≡ take len self.old }
    {
        self.bytes.truncate(self.start + len);
    }

    /// Takes the first `count` bytes away.
    pub fn advance(&mut self, count: usize)
        requires { count ≤ length self.old }
        ensures { self.new ≡ drop count self.old }
    {
        self.start += count;
        if self.start == self.bytes.len() {
            self.bytes.clear();
            self.start = 0;
        }
    }

    // A block with room for the bytes held twice over and `additional` more, so that the next move is far away.
    fn move_to_new_block(&mut self, additional: usize) -> Result<(), NoMemory>
        ensures { self.new ≡ self.old }
    {
        let held = self.len();
        let capacity = held.saturating_add(held).saturating_add(additional);
        let alloc = self.alloc();
        let mut block = Vec::with_capacity(alloc, capacity)?;
        block.extend_from_slice(self.as_slice())?;
        self.bytes = block;
        self.start = 0;
        Ok(())
    }
}
