// Bytes that are still to be written.
ghost use Rattle.std.specs.Prelude.{◌≡◌, ◌+◌, ◌<◌, ◌≤◌, ◌^◌, ◌↔◌, ℕ, List, IfOk, OnErr, Err, IsTrue, Some, [], length, map, slice_get, unwrap_or};
ghost use Rattle.std.specs.List.{concat};
ghost use Rattle.rt_base.specs.declared.error.Error.{Error};
ghost use Rattle.rt_bufs.specs.Chunked.{NoneEmpty};
ghost use Rattle.rt_buffer.specs.Pieces.{cut, passed, pieces};

use rt_base::{Error, NoMemory};
use rt_bufs::{IoBuf, IoBufs};
use std::alloc::Global;
use std::collections::VecDeque;
use std::marker::Model;

/// Chunks that go to a blob one after the other, and the place of the first. A write takes memory for as many buffers as
/// it has chunks, before anything goes into the tip. They end within numbers.
#[derive(Drop)]
pub struct Pieces {
    at: u64,
    chunks: VecDeque<IoBuf>,
}

impl Model for Pieces {
    ghost use Rattle.std.specs.Prelude.{◌+◌, ◌<◌, ◌^◌, length};
    ghost use Rattle.std.specs.List.{concat};
    ghost use Rattle.rt_buffer.specs.Pieces as pieces;

    ghost Value = { pieces.Pieces };

    ghost view = { λ p. record { at = p.at; chunks = p.chunks.items } };

    ghost invariant = { λ p. p.at + length (concat p.chunks.items) < 2 ^ 64 };
}

impl Pieces {
    /// Takes buffers apart into their chunks, which go to a blob from a place on, with no copy of their bytes.
    ///
    /// Errors: `OffsetOverflow` where they end past a `u64`, `NoMemory`.
    #[tactic(auto, using(crate::proofs::Cut::cut_joined))]
    pub fn new(alloc: Global, at: u64, bufs: IoBufs) -> Result<Pieces, Error>
        ensures overflow { 2 ^ 64 ≤ at + length bufs.bytes → result ≡ Err Error.OffsetOverflow }
        ensures made { IfOk result (λ p. p ≡ pieces at bufs.chunks) }
        ensures joined { concat bufs.chunks ≡ bufs.bytes }
        ensures filled { NoneEmpty bufs.chunks }
        ensures refused { at + length bufs.bytes < 2 ^ 64 → OnErr result (result ≡ Err Error.NoMemory) }
    {
        let Some(_end) = at.checked_add(bufs.len() as u64) else {
            return Err(Error::OffsetOverflow);
        };
        let lengths = lengths(alloc, &bufs)?;
        let chunks = taken_apart(alloc, bufs, lengths.as_slice())?;
        Ok(Pieces { at, chunks })
    }

    /// Returns the place of the first chunk.
    pub fn at(&self) -> u64
        ensures { result ≡ self.now.at }
    {
        self.at
    }

    /// Returns whether no chunk is left.
    pub fn is_empty(&self) -> bool
        ensures { IsTrue result ↔ (self.now.chunks ≡ []) }
    {
        self.chunks.is_empty()
    }

    /// Returns the bytes of the first chunk, or none where no chunk is left.
    pub fn first(&self) -> &[u8]
        ensures { result.now ≡ unwrap_or (slice_get self.now.chunks 0) [] }
    {
        match self.chunks.front() {
            Some(first) => first.as_slice(),
            None => &[],
        }
    }

    /// Takes the first chunk out. It takes no memory.
    pub fn next(&mut self) -> Option<IoBuf>
        ensures chunk { result ≡ slice_get self.old.chunks 0 }
        ensures rest { self.new ≡ passed self.old.at self.old.chunks }
        ensures fits { (c : List ℕ) → result ≡ Some c → self.old.at + length c < 2 ^ 64 }
    {
        let chunk = self.chunks.pop_front()?;
        self.at += chunk.len() as u64;
        Some(chunk)
    }
}

// How long each chunk is.
#[tactic(auto, using(crate::proofs::Cut::one_length))]
fn lengths(alloc: Global, bufs: &IoBufs) -> Result<Vec<usize>, NoMemory>
    ensures lengths { IfOk result (λ v. v.items ≡ map length bufs.now.chunks) }
    ensures joined { concat bufs.now.chunks ≡ bufs.now.bytes }
    ensures filled { NoneEmpty bufs.now.chunks }
{
    let count = bufs.chunk_count();
    let mut lengths = Vec::with_capacity(alloc, count)?;
    for index in 0..count {
        lengths.push(bufs.chunk_at(index).len())?;
    }
    Ok(lengths)
}

// The bytes as buffers of these lengths, with no copy.
fn taken_apart(
    alloc: Global,
    mut bufs: IoBufs,
    lengths: &[usize],
) -> Result<VecDeque<IoBuf>, NoMemory>
    requires { map length (cut lengths.now bufs.bytes) ≡ lengths.now }
    ensures { IfOk result (λ q. q.items ≡ cut lengths.now bufs.bytes) }
{
    let mut chunks = VecDeque::with_capacity(alloc, lengths.len())?;
    let mut rest = lengths;
    while let Some((length, tail)) = rest.split_first() {
        chunks.push_back(bufs.split_to(*length)?.coalesce()?)?;
        rest = tail;
    }
    Ok(chunks)
}
