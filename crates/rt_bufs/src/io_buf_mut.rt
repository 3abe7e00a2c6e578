// Bytes that one owner writes.
ghost use Rattle.std.specs.Prelude.{◌≡◌, ◌+◌, ◌<◌, ◌≤◌, [], ◌++◌, length, take, drop, replicate, IsOk, IfOk};

use crate::IoBuf;
use bytes::BytesMut;
use rt_base::NoMemory;
use std::alloc::Global;
use std::marker::Model;

/// Bytes that are written, with room for more.
#[derive(Drop)]
pub struct IoBufMut {
    bytes: BytesMut,
}

impl Model for IoBufMut {
    ghost use Rattle.std.specs.Prelude.{◌+◌, length};
    ghost use Rattle.rt_bufs.specs.Writable.{Writable};

    ghost Value = { Writable };

    ghost view = { λ b. record { bytes = b.bytes.items; capacity = length b.bytes.items + b.bytes.spare } };
}

impl IoBufMut {
    pub(crate) fn of(bytes: BytesMut) -> IoBufMut
        ensures bytes { result.bytes ≡ bytes.items }
        ensures capacity { result.capacity ≡ length bytes.items + bytes.spare }
    {
        IoBufMut { bytes }
    }

    /// Makes a buffer without bytes that has room for at least `n` bytes.
    pub fn with_capacity(alloc: Global, n: usize) -> Result<IoBufMut, NoMemory>
        ensures bytes { IfOk result (λ b. b.bytes ≡ []) }
        ensures capacity { IfOk result (λ b. n ≤ b.capacity) }
    {
        let bytes = BytesMut::with_capacity(alloc, n)?;
        Ok(IoBufMut { bytes })
    }

    /// Returns how many bytes there are.
    pub fn len(&self) -> usize
        ensures value { result ≡ length self.now.bytes }
        ensures bound { result ≤ self.now.capacity }
    {
        self.bytes.len()
    }

    /// Returns how many bytes the buffer can hold without more memory, those that are there with them.
    pub fn capacity(&self) -> usize
        ensures value { result ≡ self.now.capacity }
        ensures bound { length self.now.bytes ≤ result }
    {
        self.bytes.capacity()
    }

    /// Returns all bytes, borrowed.
    pub fn as_slice(&self) -> &[u8]
        ensures { result.now ≡ self.now.bytes }
    {
        self.bytes.as_slice()
    }

    /// Adds `bytes` at the end, within the capacity. It takes no memory.
    pub fn put_slice(&mut self, bytes: &[u8])
        requires { length self.old.bytes + length bytes.now ≤ self.old.capacity }
        ensures bytes { self.new.bytes ≡ self.old.bytes ++ bytes.now }
        ensures capacity { self.new.capacity ≡ self.old.capacity }
    {
        self.bytes.extend_reserved(bytes);
    }

    /// Adds `n` zero bytes at the end, within the capacity. It takes no memory.
    pub fn put_zeros(&mut self, n: usize)
        requires { length self.old.bytes + n ≤ self.old.capacity }
        ensures bytes { self.new.bytes ≡ self.old.bytes ++ replicate n 0 }
        ensures capacity { self.new.capacity ≡ self.old.capacity }
    {
        let len = self.bytes.len();
        self.bytes.advance_mut(n);
        self.bytes.as_mut_slice()[len..].fill(0);
    }

    /// Writes `bytes` over those from the place `at` on, all of which must be there.
    pub fn overwrite(&mut self, at: usize, bytes: &[u8])
        requires { at + length bytes.now ≤ length self.old.bytes }
        ensures bytes { self.new.bytes
            ≡ take at self.old.bytes ++ bytes.now ++ drop (at + length bytes.now) self.old.bytes }
        ensures capacity { self.new.capacity ≡ self.old.capacity }
    {
        write_over(self.bytes.as_mut_slice(), at, bytes);
    }

    /// Drops the bytes from the place `len` on, where there are such. The capacity stays.
    pub fn truncate(&mut self, len: usize)
        ensures bytes { self.new.bytes ≡ take len self.old.bytes }
        ensures capacity { self.new.capacity ≡ self.old.capacity }
    {
        self.bytes.truncate(len);
    }

    /// Drops all bytes. The capacity stays.
    pub fn clear(&mut self)
        ensures bytes { self.new.bytes ≡ [] }
        ensures capacity { self.new.capacity ≡ self.old.capacity }
    {
        self.bytes.truncate(0);
    }

    /// Returns the same bytes as a shared buffer, which no one writes any more. A refusal gives them up.
    pub fn freeze(self) -> Result<IoBuf, NoMemory>
        ensures bytes { IfOk result (λ b. b ≡ self.bytes) }
        ensures empty { self.bytes ≡ [] → IsOk result }
    {
        let alloc = *self.bytes.allocator();
        let bytes = self.bytes.freeze()?;
        Ok(IoBuf::of(alloc, bytes))
    }
}

// Writes `bytes` over those of `place` from `at` on.
fn write_over(place: &mut [u8], at: usize, bytes: &[u8])
    requires { at + length bytes.now ≤ length place.old }
    ensures { place.new ≡ take at place.old ++ bytes.now ++ drop (at + length bytes.now) place.old }
{
    place[at..at + bytes.len()].copy_from_slice(bytes);
}
