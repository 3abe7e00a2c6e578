// Bytes that a reader fetched and didn't hand out yet.
ghost use Rattle.std.specs.Prelude.{◌≡◌, ◌+◌, ◌-◌, ◌<◌, ◌≤◌, ◌↔◌, [], Err, IfOk, OnOk, OnErr, length};
ghost use Rattle.rt_base.specs.declared.error.Error.{Error};
ghost use Rattle.rt_buffer.specs.Reading.{TakesHeld, end_of, remaining, placed_at, sought, fetch_len, filled};

use rt_base::{Error, NoMemory};
use rt_bufs::{IoBuf, IoBufs};
use std::alloc::Global;
use std::marker::Model;
use std::mem;

/// The place of the next byte in a blob, and the bytes from there on that are in memory.
#[derive(Drop)]
pub struct Ahead {
    position: u64,
    held: IoBuf,
    size: u64,
    buffer: usize,
    alloc: Global,
}

impl Model for Ahead {
    ghost use Rattle.std.specs.Prelude.{◌+◌, ◌<◌, ◌≤◌, length};
    ghost use Rattle.rt_buffer.specs.Reading as reading;

    ghost Value = { reading.Ahead };

    ghost view = { λ a. record { position = a.position; held = a.held; size = a.size; buffer = a.buffer } };

    ghost invariant = { λ a. (a.position + length a.held ≤ a.size) × (0 < a.buffer) × (length a.held ≤ a.buffer) };
}

// No bytes.
fn nothing(alloc: Global) -> IoBuf
    ensures { result ≡ [] }
{
    match IoBuf::from_vec(Vec::new(alloc)) {
        Ok(buf) => buf,
        Err(_) => unreachable!(),
    }
}

impl Ahead {
    /// Makes the start of a blob of this size in bytes, of which nothing is held.
    pub fn new(alloc: Global, size: u64, buffer: usize) -> Ahead
        requires { 0 < buffer }
        ensures position { result.position ≡ 0 }
        ensures held { result.held ≡ [] }
        ensures size { result.size ≡ size }
        ensures buffer { result.buffer ≡ buffer }
    {
        Ahead {
            position: 0,
            held: nothing(alloc),
            size,
            buffer,
            alloc,
        }
    }

    /// Returns the place of the next byte.
    pub fn position(&self) -> u64
        ensures { result ≡ self.now.position }
    {
        self.position
    }

    /// Returns the size of the blob in bytes.
    pub fn size(&self) -> u64
        ensures { result ≡ self.now.size }
    {
        self.size
    }

    /// Returns how many bytes are held, which is no more than a buffer, and none past the size.
    pub fn held_len(&self) -> usize
        ensures held { result ≡ length self.now.held }
        ensures fits { result ≤ self.now.buffer }
        ensures within { self.now.position + result ≤ self.now.size }
    {
        self.held.len()
    }

    /// Returns how many bytes are left in the blob.
    pub fn remaining(&self) -> u64
        ensures left { result ≡ remaining self.now }
        ensures held { length self.now.held ≤ result }
    {
        self.size - self.position
    }

    /// Returns bytes that are held, which are held no more. After `NoMemory` nothing has changed.
    pub fn take(&mut self, len: usize) -> Result<IoBufs, Error>
        requires { len ≤ length self.old.held }
        ensures { TakesHeld self.old len result self.new }
    {
        let first = self.held.slice(0, len)?;
        let bufs = IoBufs::from_buf(self.alloc, first)?;
        self.held.advance(len);
        self.position += len as u64;
        Ok(bufs)
    }

    /// Returns all that is held. The place is then after it.
    pub fn take_all(&mut self) -> IoBuf
        ensures bytes { result ≡ self.old.held }
        ensures placed { self.new ≡ placed_at self.old (end_of self.old) }
    {
        self.position += self.held.len() as u64;
        mem::replace(&mut self.held, nothing(self.alloc))
    }

    /// Returns how many bytes to fetch where so many are wanted beyond those held.
    pub fn fetch_len(&self, lacking: usize) -> usize
        requires { lacking ≤ self.now.size - end_of self.now }
        ensures len { result ≡ fetch_len self.now lacking }
        ensures enough { lacking ≤ result }
        ensures few { result - lacking ≤ self.now.buffer }
        ensures within { end_of self.now + result ≤ self.now.size }
    {
        let left = self.size - (self.position + self.held.len() as u64);
        let whole = self.buffer.saturating_mul(lacking.div_ceil(self.buffer));
        whole.min(left as usize)
    }

    /// Keeps fetched bytes, of which the first `lacking` are handed out.
    pub fn fill(&mut self, bytes: IoBuf, lacking: usize)
        requires nothing { self.old.held ≡ [] }
        requires enough { lacking ≤ length bytes }
        requires few { length bytes - lacking ≤ self.old.buffer }
        requires within { self.old.position + length bytes ≤ self.old.size }
        ensures { self.new ≡ filled self.old lacking bytes }
    {
        let mut bytes = bytes;
        bytes.advance(lacking);
        self.position += lacking as u64;
        self.held = bytes;
    }

    /// Goes to another place. One within the held bytes keeps those from there on.
    pub fn seek(&mut self, position: u64) -> Result<(), Error>
        ensures sought { OnOk result (self.new ≡ sought self.old position) }
        ensures past { (result ≡ Err Error.BlobInsufficientLength) ↔ (self.old.size < position) }
        ensures refused { OnErr result ((result ≡ Err Error.BlobInsufficientLength) × (self.new ≡ self.old)) }
    {
        if self.size < position {
            return Err(Error::BlobInsufficientLength);
        }
        match position.checked_sub(self.position) {
            Some(gone) if gone < self.held.len() as u64 => self.held.advance(gone as usize),
            _ => self.held = nothing(self.alloc),
        }
        self.position = position;
        Ok(())
    }
}
