// The last bytes of a blob, held back from it.
ghost use Rattle.std.specs.Prelude.{◌≡◌, ◌+◌, ◌-◌, ◌^◌, ◌<◌, ◌≤◌, ◌↔◌, [], ◌++◌, IsTrue, Some, None, if◌then◌else◌, length, take, drop, replicate, slice_range, true, IfOk, OnOk, OnErr};
ghost use Rattle.rt_buffer.specs.Pieces.{merged_chunks};
ghost use Rattle.rt_buffer.specs.Tip.{empty_tip, end_of, is_within, merged, bytes_to_write, drained, resized_tip, bytes_before, raised};
ghost use Rattle.rt_buffer.specs.Writing.{is_in_the_way};
ghost use Rattle.rt_store.specs.Content.{written};

use crate::pieces::Pieces;
use rt_base::NoMemory;
use rt_bufs::{IoBuf, IoBufMut};
use std::alloc::Global;
use std::marker::Model;

/// The last bytes of a blob, which are not written to it yet. They begin at an offset, and new ones go in as long as
/// they end within the capacity, which is the only limit: that of the store is met when they are written.
///
/// Its room grows with its bytes, and stays once they are taken.
#[derive(Drop)]
pub struct Buffer {
    bytes: Vec<u8>,
    offset: u64,
    capacity: usize,
}

impl Model for Buffer {
    ghost use Rattle.std.specs.Prelude.{◌+◌, ◌^◌, ◌<◌, length};
    ghost use Rattle.rt_buffer.specs.Tip.{Tip};

    ghost Value = { Tip };

    ghost view = { λ b. record { offset = b.offset; bytes = b.bytes.items; capacity = b.capacity } };

    ghost invariant = { λ b. b.offset + length b.bytes.items < 2 ^ 64 };
}

impl Buffer {
    /// Makes a tip without bytes that begins at `offset`.
    pub fn new(alloc: Global, offset: u64, capacity: usize) -> Buffer
        ensures { result ≡ empty_tip offset capacity }
    {
        Buffer {
            bytes: Vec::new(alloc),
            offset,
            capacity,
        }
    }

    /// Returns the offset in the blob at which its bytes begin.
    pub fn offset(&self) -> u64
        ensures offset { result ≡ self.now.offset }
        ensures fits { end_of self.now < 2 ^ 64 }
    {
        self.offset
    }

    /// Returns the offset in the blob at which its bytes end.
    pub fn size(&self) -> u64
        ensures end { result ≡ end_of self.now }
        ensures fits { end_of self.now < 2 ^ 64 }
    {
        self.offset + self.bytes.len() as u64
    }

    /// Returns whether the tip has no bytes.
    pub fn is_empty(&self) -> bool
        ensures { IsTrue result ↔ (self.now.bytes ≡ []) }
    {
        self.bytes.is_empty()
    }

    /// Returns all bytes of the tip.
    pub fn as_slice(&self) -> &[u8]
        ensures { result.now ≡ self.now.bytes }
    {
        self.bytes.as_slice()
    }

    /// Returns a copy of the bytes from the place `from` up to, not including, `to`.
    pub fn slice(&self, from: usize, to: usize) -> Result<IoBuf, NoMemory>
        requires ordered { from ≤ to }
        requires in_range { to ≤ length self.now.bytes }
        ensures { IfOk result (λ b. b ≡ slice_range self.now.bytes from to) }
    {
        copy_of(*self.bytes.allocator(), &self.bytes[from..to])
    }

    /// Takes the bytes and their offset out, where there are any. The tip is then empty, and begins at their end.
    /// After `NoMemory` nothing has changed.
    ///
    /// They are copied, so that a refusal loses none.
    pub fn take(&mut self) -> Result<Option<(IoBuf, u64)>, NoMemory>
        ensures taken { IfOk result (λ t. t ≡ bytes_to_write self.old) }
        ensures emptied { OnOk result (self.new ≡ drained self.old) }
        ensures refused { OnErr result (self.new ≡ self.old) }
    {
        if self.bytes.is_empty() {
            return Ok(None);
        }
        let bytes = copy_of(*self.bytes.allocator(), self.bytes.as_slice())?;
        let offset = self.offset;
        self.offset += self.bytes.len() as u64;
        self.bytes.clear();
        Ok(Some((bytes, offset)))
    }

    /// Follows a change of the blob's length, and returns what has to be written before it: the bytes and their
    /// offset, where there are any and none is cut. After `NoMemory` nothing has changed.
    pub fn resize(&mut self, len: u64) -> Result<Option<(IoBuf, u64)>, NoMemory>
        ensures taken { IfOk result (λ t. t ≡ bytes_before self.old len) }
        ensures resized { OnOk result (self.new ≡ resized_tip self.old len) }
        ensures refused { OnErr result (self.new ≡ self.old) }
    {
        if self.size() <= len {
            let taken = self.take()?;
            self.offset = len;
            return Ok(taken);
        }
        match len.checked_sub(self.offset) {
            Some(left) => self.bytes.truncate(left as usize),
            None => self.move_to(len),
        }
        Ok(None)
    }

    // Gives all bytes up, and begins elsewhere.
    fn move_to(&mut self, offset: u64)
        ensures { self.new ≡ empty_tip offset self.old.capacity }
    {
        self.offset = offset;
        self.bytes.clear();
    }

    /// Puts `bytes` in at `offset` of the blob, and returns whether they lie within its reach: not before its offset,
    /// and ending within its capacity. A gap is filled with zeros. Else, and after `NoMemory`, nothing has changed.
    pub fn merge(&mut self, bytes: &[u8], offset: u64) -> Result<bool, NoMemory>
        ensures within { IfOk result (λ yes. yes ≡ is_within self.old offset (length bytes.now)) }
        ensures merged { OnOk result (self.new ≡ (if is_within self.old offset (length bytes.now) then merged self.old bytes.now offset else self.old)) }
        ensures refused { OnErr result (self.new ≡ self.old) }
        ensures reaches { OnErr result (is_within self.old offset (length bytes.now) ≡ true) }
    {
        match self.place_for(offset, bytes.len()) {
            Some(at) => {
                put(&mut self.bytes, at, bytes)?;
                Ok(true)
            }
            None => Ok(false),
        }
    }

    /// Puts chunks in one after the other, up to the first that doesn't lie within its reach, and leaves the others. After
    /// `NoMemory` some are in.
    pub(crate) fn merge_chunks(&mut self, left: &mut Pieces) -> Result<(), NoMemory>
        ensures tip { OnOk result (self.new ≡ (merged_chunks self.old left.old.at left.old.chunks).tip) }
        ensures left { OnOk result (left.new ≡ (merged_chunks self.old left.old.at left.old.chunks).left) }
    {
        while !left.is_empty() {
            if !self.merge(left.first(), left.at())? {
                return Ok(());
            }
            let _ = left.next();
        }
        Ok(())
    }

    /// Whether it has bytes, and they begin before this place.
    pub(crate) fn is_in_the_way(&self, end: u64) -> bool
        ensures { result ≡ is_in_the_way self.now end }
    {
        !self.bytes.is_empty() && self.offset < end
    }

    /// Follows a write to the blob that ends here: where no bytes are held, the tip begins no earlier.
    pub(crate) fn raise(&mut self, end: u64)
        ensures { self.new ≡ raised self.old end }
    {
        if self.bytes.is_empty() {
            self.offset = self.offset.max(end);
        }
    }

    // The place in the tip of so many bytes at this offset of the blob, where they lie within its reach.
    fn place_for(&self, offset: u64, len: usize) -> Option<usize>
        ensures place { result ≡ (if is_within self.now offset len then Some (offset - self.now.offset) else None) }
    {
        let at = offset.checked_sub(self.offset)?;
        let _end = offset.checked_add(len as u64)?;
        let end = at.checked_add(len as u64)?;
        if end <= self.capacity as u64 {
            Some(at as usize)
        } else {
            None
        }
    }
}

// A copy of bytes.
fn copy_of(alloc: Global, bytes: &[u8]) -> Result<IoBuf, NoMemory>
    ensures { IfOk result (λ b. b ≡ bytes.now) }
{
    let mut copy = IoBufMut::with_capacity(alloc, bytes.len())?;
    copy.put_slice(bytes);
    copy.freeze()
}

// Puts `bytes` at a place, with zeros before them where it is past the end.
#[tactic(auto, using(crate::proofs::Written::put_over))]
fn put(place: &mut Vec<u8>, at: usize, bytes: &[u8]) -> Result<(), NoMemory>
    requires { at + length bytes.now < 2 ^ 64 }
    ensures put { OnOk result (place.new.items ≡ written at bytes.now place.old.items) }
    ensures refused { OnErr result (place.new.items ≡ place.old.items) }
{
    lengthen(place, at + bytes.len())?;
    write_over(place, at, bytes);
    Ok(())
}

// Adds zeros up to this length.
fn lengthen(place: &mut Vec<u8>, len: usize) -> Result<(), NoMemory>
    ensures zeros { OnOk result (place.new.items ≡ place.old.items ++ replicate (len - length place.old.items) 0) }
    ensures refused { OnErr result (place.new.items ≡ place.old.items) }
{
    if place.len() < len {
        place.resize(len, 0)?;
    }
    Ok(())
}

// Writes `bytes` over those from `at` on.
fn write_over(place: &mut Vec<u8>, at: usize, bytes: &[u8])
    requires { at + length bytes.now ≤ length place.old.items }
    ensures { place.new.items ≡ take at place.old.items ++ (bytes.now ++ drop (at + length bytes.now) place.old.items) }
{
    place.as_mut_slice()[at..at + bytes.len()].copy_from_slice(bytes);
}
