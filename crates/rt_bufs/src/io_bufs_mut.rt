// Bytes that were written and may be in several buffers.
ghost use Rattle.std.specs.Prelude.{◌≡◌, ◌<◌, ◌≤◌, length, slice_get, IfOk, Some};
ghost use Rattle.std.specs.List.{concat};
ghost use Rattle.rt_bufs.specs.Chunked.{NoneEmpty};

use crate::{IoBufMut, IoBufs};
use rt_base::NoMemory;
use std::alloc::Global;
use std::marker::Model;

/// Buffers in a row that one owner writes. Every call that makes one makes it of one buffer, so this keeps no list.
#[derive(Drop)]
pub struct IoBufsMut {
    buf: IoBufMut,
    alloc: Global,
}

impl Model for IoBufsMut {
    ghost use Rattle.rt_bufs.specs.Chunked.{chunks_of};
    ghost use Rattle.rt_bufs.specs.WritableChunks.{WritableChunks};

    ghost Value = { WritableChunks };

    ghost view = { λ b. record { bytes = b.buf.bytes; chunks = chunks_of b.buf.bytes; capacity = b.buf.capacity } };
}

impl IoBufsMut {
    /// Makes buffers of one buffer, with its bytes and its capacity.
    pub fn from_mut(alloc: Global, buf: IoBufMut) -> Result<IoBufsMut, NoMemory>
        ensures bytes { IfOk result (λ b. b.bytes ≡ buf.bytes) }
        ensures capacity { IfOk result (λ b. b.capacity ≡ buf.capacity) }
    {
        Ok(IoBufsMut { buf, alloc })
    }

    /// Returns how many bytes there are.
    pub fn len(&self) -> usize
        ensures value { result ≡ length self.now.bytes }
        ensures bound { result ≤ self.now.capacity }
    {
        self.buf.len()
    }

    /// Returns how many bytes the buffers can hold without more memory, those that are there with them.
    pub fn capacity(&self) -> usize
        ensures value { result ≡ self.now.capacity }
        ensures bound { length self.now.bytes ≤ result }
    {
        self.buf.capacity()
    }

    /// Returns how many chunks there are. The chunks in order are the bytes, and none is empty.
    pub fn chunk_count(&self) -> usize
        ensures count { result ≡ length self.now.chunks }
        ensures joined { concat self.now.chunks ≡ self.now.bytes }
        ensures filled { NoneEmpty self.now.chunks }
    {
        if self.buf.len() == 0 { 0 } else { 1 }
    }

    /// Returns the chunk with this number, which counts from 0.
    pub fn chunk_at(&self, index: usize) -> &[u8]
        requires { index < length self.now.chunks }
        ensures { slice_get self.now.chunks index ≡ Some result.now }
    {
        self.buf.as_slice()
    }

    /// Returns the same bytes as shared buffers, which no one writes any more. A refusal gives them up.
    pub fn freeze(self) -> Result<IoBufs, NoMemory>
        ensures { IfOk result (λ b. b.bytes ≡ self.bytes) }
    {
        let IoBufsMut { buf, alloc } = self;
        IoBufs::from_buf(alloc, buf.freeze()?)
    }

    /// Returns all bytes in one buffer, with at least the capacity that was there.
    pub fn coalesce(self) -> Result<IoBufMut, NoMemory>
        ensures bytes { IfOk result (λ b. b.bytes ≡ self.bytes) }
        ensures capacity { IfOk result (λ b. self.capacity ≤ b.capacity) }
    {
        Ok(self.buf)
    }
}
