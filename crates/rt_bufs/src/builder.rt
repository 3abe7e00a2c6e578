// Buffers in a row, put together piece by piece.
ghost use Rattle.std.specs.Prelude.{◌≡◌, [], ◌++◌, IfOk, OnOk, OnErr};

use crate::{IoBuf, IoBufs};
use bytes::BytesMut;
use rt_base::NoMemory;
use std::alloc::Global;
use std::marker::Model;

/// Bytes that are put together in order: small pieces are copied into one buffer, and shared ones are taken as they
/// are.
#[derive(Drop)]
pub struct Builder {
    done: IoBufs,
    tail: BytesMut,
}

impl Model for Builder {
    ghost use Rattle.std.specs.Prelude.{ℕ, List, ◌++◌};

    ghost Value = { List ℕ };

    ghost view = { λ b. b.done.bytes ++ b.tail.items };
}

impl Builder {
    /// Makes a builder without bytes.
    pub fn new(alloc: Global) -> Self
        ensures { result ≡ [] }
    {
        Builder {
            done: IoBufs::new(alloc),
            tail: BytesMut::new(alloc),
        }
    }

    /// Adds a copy of `bytes` at the end.
    pub fn put_slice(&mut self, bytes: &[u8]) -> Result<(), NoMemory>
        ensures ok { OnOk result (self.new ≡ self.old ++ bytes.now) }
        ensures refused { OnErr result (self.new ≡ self.old) }
    {
        self.tail.extend_from_slice(bytes)?;
        Ok(())
    }

    /// Adds the bytes of `buf` at the end, with no copy.
    pub fn push(&mut self, buf: IoBuf) -> Result<(), NoMemory>
        ensures ok { OnOk result (self.new ≡ self.old ++ buf) }
        ensures refused { OnErr result (self.new ≡ self.old) }
    {
        self.done.take_in(&mut self.tail)?;
        self.done.append(buf)
    }

    /// Returns all bytes that were put and pushed, in order. A refusal gives them up.
    pub fn finish(self) -> Result<IoBufs, NoMemory>
        ensures { IfOk result (λ b. b.bytes ≡ self) }
    {
        let Builder { mut done, mut tail } = self;
        done.take_in(&mut tail)?;
        Ok(done)
    }
}
