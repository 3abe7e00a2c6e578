// A store of one blob without bytes, which counts its tickets.

ghost use Rattle.std.specs.Prelude.{◌≡◌, ⊤, [], Some, true};

use crate::free::Free;
use rt_base::{BlobVersion, Env, Error, NoMemory, Poll, ReadOptions, WriteOptions};
use rt_bufs::{IoBufs, IoBufsMut};
use rt_store::{Done, Storage, Ticket, copy_of};
use std::alloc::Global;

/// How a sync is answered: at once, in its ticket, or behind a number, at the first poll of that or at none.
#[derive(Clone, Copy)]
pub enum How {
    Now,
    Ready,
    Numbered,
    Held,
}

/// A store of one blob that has no bytes, which it gives out once. Of its tickets with a number it counts those that it gave, and
/// those that ended: that were answered, or given up.
#[derive(Drop)]
pub struct Counting {
    pub how: How,
    pub is_out: bool,
    pub given: u64,
    pub ended: u64,
}

impl Counting {
    fn end(&mut self)
        ensures { self.new.is_out ≡ self.old.is_out }
    {
        self.ended = self.ended.saturating_add(1);
    }
}

impl Storage for Counting {
    type Blob = u64;

    ghost refusals = { λ s. 0 };

    ghost bytes = { λ s b. [] };

    ghost left = { λ s b. Some [] };

    ghost promised = { λ s t b. Some [] };

    ghost apart = { λ s a b. ⊥ };

    ghost opened = { λ s b. s.is_out ≡ true };

    ghost both_ways = { λ s a b near. near };

    ghost most = { 0 };

    ghost per_range = { 0 };

    ghost opens_versioned = { λ s p n versions r t x. ⊤ };

    ghost opens = { λ s p n r t x. ⊤ };

    ghost removes = { λ s p n r t x. ⊤ };

    ghost scans = { λ s p r t x. ⊤ };

    ghost reads = { λ s b offset len options r t x. ⊤ };

    ghost reads_into = { λ s b offset len bufs options r t x. ⊤ };

    ghost reads_many = { λ s b ranges options r t x. ⊤ };

    ghost reads_in_order = { λ s b ranges options r t x. ⊤ };

    ghost writes = { λ s b offset bufs options r t x. ⊤ };

    ghost resizes = { λ s b len r t x. ⊤ };

    ghost syncs = { λ s b r t x. ⊤ };

    ghost starts_sync = { λ s b r t x. ⊤ };

    ghost polls_sync = { λ s ticket task p t u x. ⊤ };

    ghost gives_sync_up = { λ s ticket t. ⊤ };

    ghost closes = { λ s b t. ⊤ };

    fn take_room<E: Env>(
        env: &mut E,
        calls: usize,
        ranges: usize,
        more: usize,
    ) -> Result<(), NoMemory> {
        let _ = calls;
        let _ = ranges;
        env.reserve(more)
    }

    #[tactic(auto, using(crate::proofs::NoBytes::gives_out, crate::proofs::NoBytes::gives_none))]
    fn open_versioned<E: Env>(
        &mut self,
        env: &mut E,
        partition: &str,
        name: &[u8],
        versions: (BlobVersion, BlobVersion),
    ) -> Result<(u64, u64, BlobVersion), Error> {
        let _ = env;
        let _ = partition;
        let _ = name;
        if self.is_out {
            return Err(Error::NoMemory);
        }
        self.is_out = true;
        Ok((0, 0, versions.1))
    }

    #[tactic(auto, using(crate::proofs::NoBytes::gives_out, crate::proofs::NoBytes::gives_none))]
    fn open<E: Env>(
        &mut self,
        env: &mut E,
        partition: &str,
        name: &[u8],
    ) -> Result<(u64, u64), Error> {
        let _ = env;
        let _ = partition;
        let _ = name;
        if self.is_out {
            return Err(Error::NoMemory);
        }
        self.is_out = true;
        Ok((0, 0))
    }

    fn remove<E: Env>(
        &mut self,
        env: &mut E,
        partition: &str,
        name: Option<&[u8]>,
    ) -> Result<(), Error> {
        let _ = &self.given;
        let _ = env;
        let _ = partition;
        let _ = name;
        Err(Error::NoMemory)
    }

    fn scan<E: Env>(&mut self, env: &mut E, partition: &str) -> Result<Vec<Vec<u8>>, Error> {
        let _ = &self.given;
        let _ = env;
        let _ = partition;
        Err(Error::NoMemory)
    }

    #[tactic(auto, using(crate::proofs::NoBytes::leaves_all))]
    fn read_at<E: Env>(
        &mut self,
        env: &mut E,
        blob: &u64,
        offset: u64,
        len: usize,
        options: ReadOptions,
    ) -> Result<IoBufsMut, Error> {
        let _ = &self.given;
        let _ = env;
        let _ = blob;
        let _ = offset;
        let _ = len;
        let _ = options;
        Err(Error::NoMemory)
    }

    fn read_at_buf<E: Env>(
        &mut self,
        env: &mut E,
        blob: &u64,
        offset: u64,
        len: usize,
        bufs: IoBufsMut,
        options: ReadOptions,
    ) -> Result<IoBufsMut, Error> {
        let _ = &self.given;
        let _ = env;
        let _ = blob;
        let _ = offset;
        let _ = len;
        let _ = options;
        let _ = bufs;
        Err(Error::NoMemory)
    }

    fn read_many<E: Env>(
        &mut self,
        env: &mut E,
        blob: &u64,
        ranges: &[(u64, usize)],
        options: ReadOptions,
    ) -> Result<Vec<(usize, IoBufsMut)>, Error> {
        let _ = &self.given;
        let _ = env;
        let _ = blob;
        let _ = ranges;
        let _ = options;
        Err(Error::NoMemory)
    }

    fn start_read_many<E: Env>(
        &mut self,
        env: &mut E,
        blob: &u64,
        ranges: &[(u64, usize)],
        options: ReadOptions,
    ) -> Result<Vec<IoBufsMut>, Error> {
        let _ = &self.given;
        let _ = env;
        let _ = blob;
        let _ = ranges;
        let _ = options;
        Err(Error::NoMemory)
    }

    #[tactic(auto, using(crate::proofs::NoBytes::leaves, crate::proofs::NoBytes::lets_go))]
    fn write_at<E: Env>(
        &mut self,
        env: &mut E,
        blob: &u64,
        offset: u64,
        bufs: IoBufs,
        options: WriteOptions,
    ) -> Result<Done, Error> {
        let _ = &self.given;
        let _ = env;
        let _ = blob;
        let _ = offset;
        let _ = options;
        let _ = bufs;
        Err(Error::NoMemory)
    }

    #[tactic(auto, using(crate::proofs::NoBytes::leaves))]
    fn resize<E: Env>(&mut self, env: &mut E, blob: &u64, len: u64) -> Result<(), Error> {
        let _ = &self.given;
        let _ = env;
        let _ = blob;
        let _ = len;
        Err(Error::NoMemory)
    }

    #[tactic(auto, using(crate::proofs::NoBytes::leaves))]
    fn sync<E: Env>(&mut self, env: &mut E, blob: &u64) -> Result<Done, Error> {
        let _ = env;
        let _ = blob;
        match self.how {
            How::Now => Ok(Done::Now),
            How::Ready => Ok(Done::Gated(Ticket::Ready(Ok(())))),
            How::Numbered | How::Held => {
                self.given = self.given.saturating_add(1);
                Ok(Done::Gated(Ticket::Numbered(self.given)))
            }
        }
    }

    #[tactic(auto, using(crate::proofs::NoBytes::leaves))]
    fn start_sync<E: Env>(&mut self, env: &mut E, blob: &u64) -> Result<Ticket, Error> {
        let _ = &self.given;
        let _ = env;
        let _ = blob;
        Err(Error::NoMemory)
    }

    #[tactic(auto, using(crate::proofs::NoBytes::polls, crate::proofs::NoBytes::of_one, crate::proofs::NoBytes::leaves))]
    fn poll_sync<E: Env>(
        &mut self,
        env: &mut E,
        ticket: &mut Ticket,
        task: u64,
    ) -> Poll<Result<(), Error>> {
        let _ = env;
        let _ = task;
        match ticket {
            Ticket::Ready(held) => Poll::Ready(copy_of(held)),
            Ticket::Numbered(_) => match self.how {
                How::Held => Poll::Pending,
                How::Now | How::Ready | How::Numbered => {
                    self.end();
                    ticket.settle(Ok(()));
                    Poll::Ready(Ok(()))
                }
            },
        }
    }

    #[tactic(auto, using(crate::proofs::NoBytes::of_one, crate::proofs::NoBytes::leaves))]
    fn give_up_sync(&mut self, ticket: Ticket) {
        match ticket {
            Ticket::Ready(held) => drop(held),
            Ticket::Numbered(_) => self.end(),
        }
    }

    #[tactic(auto, using(crate::proofs::NoBytes::leaves))]
    fn close(&mut self, blob: u64) {
        let _ = &self.given;
        let _ = blob;
    }
}

impl Free for Counting {
    ghost always = { λ s. tt };
}
