// A change of the bytes of a blob.

ghost use Rattle.std.specs.Prelude.{◌≡◌, ◌-◌, ◌^◌, min, nat_lt};
ghost use Rattle.rt_store.specs.Changes.{end_of};
ghost use Rattle.rt_store.specs.File.{is_durable};

use rt_bufs::IoBuf;

/// A write, or a change of length. A crash keeps a write that was to be durable.
#[derive(Drop)]
pub enum Mutation {
    Write {
        at: usize,
        bytes: IoBuf,
        durable: bool,
    },
    Resize {
        len: usize,
    },
}

impl Mutation {
    /// Returns where the bytes that it writes end, or `usize::MAX` where they end past it.
    pub fn end(&self) -> usize
        ensures { result ≡ min (end_of self.now) (2 ^ 64 - 1) }
    {
        match self {
            Mutation::Write {
                at,
                bytes,
                durable: _,
            } => at.saturating_add(bytes.len()),
            Mutation::Resize { len } => *len,
        }
    }

    /// Returns whether it ends past `usize::MAX`.
    pub fn overflows(&self) -> bool
        ensures { result ≡ nat_lt (2 ^ 64 - 1) (end_of self.now) }
    {
        match self {
            Mutation::Write {
                at,
                bytes,
                durable: _,
            } => at.checked_add(bytes.len()).is_none(),
            Mutation::Resize { len } => *len > usize::MAX,
        }
    }

    /// Returns whether a crash keeps it.
    pub fn is_durable(&self) -> bool
        ensures { result ≡ is_durable self.now }
    {
        match self {
            Mutation::Write {
                at: _,
                bytes: _,
                durable,
            } => *durable,
            Mutation::Resize { len: _ } => false,
        }
    }
}
