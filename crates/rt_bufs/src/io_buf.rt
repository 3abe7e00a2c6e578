// Bytes that no one writes any more, with any number of owners.
ghost use Rattle.std.specs.Prelude.{◌≡◌, ◌^◌, ◌<◌, ◌≤◌, ◌↔◌, [], length, take, drop, slice_range, IsTrue, IsOk, IfOk, OnOk, OnErr};

use crate::IoBufMut;
use bytes::{Bytes, BytesMut};
use rt_base::NoMemory;
use std::alloc::Global;
use std::marker::Model;

/// Bytes that are shared and never changed. A cut or a slice is another owner of the same bytes,
/// and copies none of them.
#[derive(Drop)]
pub struct IoBuf {
    bytes: Bytes,
    alloc: Global,
}

impl Model for IoBuf {
    ghost use Rattle.std.specs.Prelude.{ℕ, List};

    ghost Value = { List ℕ };

    ghost view = { λ b. b.bytes };
}

impl IoBuf {
    /// Makes a buffer of the bytes of a `Vec`, which are not copied. Of no bytes it takes no memory.
    pub fn from_vec(bytes: Vec<u8>) -> Result<IoBuf, NoMemory>
        ensures bytes { IfOk result (λ b. b ≡ bytes.items) }
        ensures empty { bytes.items ≡ [] → IsOk result }
    {
        let alloc = *bytes.allocator();
        let bytes = Bytes::from_vec(bytes)?;
        Ok(IoBuf { bytes, alloc })
    }

    pub(crate) fn of(alloc: Global, bytes: Bytes) -> IoBuf
        ensures { result ≡ bytes }
    {
        IoBuf { bytes, alloc }
    }

    // No bytes.
    pub(crate) fn empty(alloc: Global) -> IoBuf
        ensures { result ≡ [] }
    {
        IoBuf {
            bytes: Bytes::new(),
            alloc,
        }
    }

    /// Returns how many bytes there are.
    pub fn len(&self) -> usize
        ensures value { result ≡ length self.now }
        ensures bound { result < 2 ^ 63 }
    {
        self.bytes.len()
    }

    /// Returns whether there are no bytes.
    pub fn is_empty(&self) -> bool
        ensures { IsTrue result ↔ (self.now ≡ []) }
    {
        self.bytes.is_empty()
    }

    /// Returns all bytes, borrowed.
    pub fn as_slice(&self) -> &[u8]
        ensures { result.now ≡ self.now }
    {
        self.bytes.as_slice()
    }

    /// Returns another owner of the bytes from the place `from` up to, not including, the place `to`.
    pub fn slice(&self, from: usize, to: usize) -> Result<IoBuf, NoMemory>
        requires ordered { from ≤ to }
        requires in_range { to ≤ length self.now }
        ensures bytes { IfOk result (λ b. b ≡ slice_range self.now from to) }
        ensures empty { from ≡ to → IsOk result }
    {
        let bytes = self.bytes.slice(from..to)?;
        Ok(IoBuf {
            bytes,
            alloc: self.alloc,
        })
    }

    /// Cuts the first `at` bytes off and returns them, with no copy. A cut at either end takes no memory.
    pub fn split_to(&mut self, at: usize) -> Result<IoBuf, NoMemory>
        requires { at ≤ length self.old }
        ensures front { IfOk result (λ b. b ≡ take at self.old) }
        ensures rest { OnOk result (self.new ≡ drop at self.old) }
        ensures refused { OnErr result (self.new ≡ self.old) }
        ensures none { at ≡ 0 → IsOk result }
        ensures whole { at ≡ length self.old → IsOk result }
    {
        let bytes = self.bytes.split_to(at)?;
        Ok(IoBuf {
            bytes,
            alloc: self.alloc,
        })
    }

    /// Drops the first `n` bytes. It takes no memory.
    pub fn advance(&mut self, n: usize)
        requires { n ≤ length self.old }
        ensures { self.new ≡ drop n self.old }
    {
        self.bytes.advance(n);
    }

    /// Drops the bytes from the place `len` on, where there are such. It takes no memory.
    pub fn truncate(&mut self, len: usize)
        ensures { self.new ≡ take len self.old }
    {
        self.bytes.truncate(len);
    }

    /// Returns the same bytes, to be written: those in place where this is their only owner, and else a copy of them. A
    /// refusal gives them up.
    pub fn into_mut(self) -> Result<IoBufMut, NoMemory>
        ensures { IfOk result (λ b. b.bytes ≡ self) }
    {
        let IoBuf { bytes, alloc } = self;
        match bytes.try_into_mut() {
            Ok(bytes) => Ok(IoBufMut::of(bytes)),
            Err(bytes) => {
                let copy = BytesMut::copy_from_slice(alloc, bytes.as_slice())?;
                Ok(IoBufMut::of(copy))
            }
        }
    }
}
