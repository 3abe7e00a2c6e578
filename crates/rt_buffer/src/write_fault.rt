// A store whose writes a test lets fail.
ghost use Rattle.std.specs.Prelude.{◌≡◌, ◌<◌, ◌^◌, false, true};
ghost use Rattle.rt_buffer.specs.Mocks.{counted_write, no_faults, refused_write};

use rt_base::{BlobVersion, Env, Error, IoKind, NoMemory, Poll, ReadOptions, WriteOptions};
use rt_bufs::{IoBufs, IoBufsMut};
use rt_store::{BlobOf, Done, Storage, Ticket};

/// The settings and counts of a store whose writes a test lets fail: whether writes fail, how many succeeded, and how
/// many it refused. A count stays at its type's end.
#[derive(Debug, Drop, Default)]
pub struct WriteFaults {
    is_armed: bool,
    writes: u64,
    refusals: u64,
}

impl WriteFaults {
    /// Lets writes fail from now on.
    pub fn arm(&mut self)
        ensures { self.new ≡ record self.old { is_armed = true } }
    {
        self.is_armed = true;
    }

    /// Lets no write fail from now on.
    pub fn disarm(&mut self)
        ensures { self.new ≡ record self.old { is_armed = false } }
    {
        self.is_armed = false;
    }

    /// Returns how many writes succeeded.
    pub fn writes(&self) -> u64
        ensures { result ≡ self.now.writes }
    {
        self.writes
    }

    // Counts a write that is refused.
    fn refuse(&mut self)
        ensures counted { self.new ≡ refused_write self.old }
        ensures fits { self.old.refusals < 2 ^ 64 }
    {
        self.refusals = self.refusals.saturating_add(1);
    }

    // Counts a write that succeeded.
    fn count<V>(&mut self, answer: &Result<V, Error>)
        ensures { self.new ≡ counted_write self.old answer.now }
    {
        if let Ok(_) = answer {
            self.writes = self.writes.saturating_add(1);
        }
    }
}

/// A store whose writes fail while that is armed: they are refused with `Io(InjectedWriteFailure)`, with no call of
/// the inner store. All other calls are passed on. A refusal of the inner store is counted there alone.
#[derive(Drop)]
pub struct WriteFaultContext<S: Storage> {
    pub inner: S,
    pub faults: WriteFaults,
}

/// A token of an open blob of a store whose writes a test lets fail. It must be spent by `Storage::close`.
pub struct WriteFaultBlob<S: Storage> {
    inner: BlobOf<S>,
}

impl<S: Storage> WriteFaultContext<S> {
    /// Makes a store over the inner one in which no write fails yet, and none was counted.
    pub fn new(inner: S) -> WriteFaultContext<S>
        ensures inner { result.inner ≡ inner }
        ensures faults { result.faults ≡ no_faults }
    {
        WriteFaultContext {
            inner,
            faults: WriteFaults::default(),
        }
    }
}

impl<S: Storage> Storage for WriteFaultContext<S> {
    type Blob = WriteFaultBlob<S>;

    ghost use Rattle.std.specs.Prelude.{◌≡◌, ◌+◌, false};
    ghost use Rattle.rt_buffer.specs.Mocks.{FaultyWrites, inside};
    ghost use Rattle.rt_store.specs.Answered.{PollsTicket, is_numbered};

    ghost callable = { λ s. S.callable s.inner };

    ghost refusals = { λ s. S.refusals s.inner + s.faults.refusals };

    ghost bytes = { λ s k. S.bytes s.inner k.inner };

    ghost left = { λ s k. S.left s.inner k.inner };

    ghost promised = { λ s t k. S.promised s.inner t k.inner };

    ghost apart = { λ s k j. S.apart s.inner k.inner j.inner };

    ghost opened = { λ s k. S.opened s.inner k.inner };

    ghost both_ways = { λ s k j near. S.both_ways s.inner k.inner j.inner near };

    ghost most = { S.most };

    ghost per_range = { S.per_range };

    ghost opens_versioned = { λ s p n versions r t x. S.opens_versioned s.inner p n versions (inside (λ a. (a.0.inner, a.1, a.2)) r) t.inner x × (t.faults ≡ s.faults) };

    ghost opens = { λ s p n r t x. S.opens s.inner p n (inside (λ a. (a.0.inner, a.1)) r) t.inner x × (t.faults ≡ s.faults) };

    ghost removes = { λ s p n r t x. S.removes s.inner p n r t.inner x × (t.faults ≡ s.faults) };

    ghost scans = { λ s p r t x. S.scans s.inner p r t.inner x × (t.faults ≡ s.faults) };

    ghost reads = { λ s k offset len options r t x. S.reads s.inner k.inner offset len options r t.inner x × (t.faults ≡ s.faults) };

    ghost reads_into = { λ s k offset len bufs options r t x. S.reads_into s.inner k.inner offset len bufs options r t.inner x × (t.faults ≡ s.faults) };

    ghost reads_many = { λ s k ranges options r t x. S.reads_many s.inner k.inner ranges options r t.inner x × (t.faults ≡ s.faults) };

    ghost reads_in_order = { λ s k ranges options r t x. S.reads_in_order s.inner k.inner ranges options r t.inner x × (t.faults ≡ s.faults) };

    ghost writes = { λ s k offset bufs options r t x. FaultyWrites (S.writes s.inner k.inner offset bufs options) s.faults.is_armed s.inner s.faults r t.inner t.faults x };

    ghost resizes = { λ s k len r t x. S.resizes s.inner k.inner len r t.inner x × (t.faults ≡ s.faults) };

    ghost syncs = { λ s k r t x. S.syncs s.inner k.inner r t.inner x × (t.faults ≡ s.faults) };

    ghost starts_sync = { λ s k r t x. S.starts_sync s.inner k.inner r t.inner x × (t.faults ≡ s.faults) };

    ghost polls_sync = { λ s ticket task p t u x. S.polls_sync s.inner ticket task p t.inner u x × PollsTicket ticket p u × (is_numbered ticket ≡ false → t ≡ s) × (t.faults ≡ s.faults) };

    ghost gives_sync_up = { λ s ticket t. S.gives_sync_up s.inner ticket t.inner × (is_numbered ticket ≡ false → t ≡ s) × (t.faults ≡ s.faults) };

    ghost closes = { λ s k t. S.closes s.inner k.inner t.inner × (t.faults ≡ s.faults) };

    fn take_room<E: Env>(
        env: &mut E,
        calls: usize,
        ranges: usize,
        more: usize,
    ) -> Result<(), NoMemory> {
        S::take_room(env, calls, ranges, more)
    }

    #[tactic(auto, using(crate::proofs::Mocks::counts_more))]
    fn open_versioned<E: Env>(
        &mut self,
        env: &mut E,
        partition: &str,
        name: &[u8],
        versions: (BlobVersion, BlobVersion),
    ) -> Result<(WriteFaultBlob<S>, u64, BlobVersion), Error> {
        let (inner, len, version) = self.inner.open_versioned(env, partition, name, versions)?;
        Ok((WriteFaultBlob { inner }, len, version))
    }

    #[tactic(auto, using(crate::proofs::Mocks::counts_more))]
    fn open<E: Env>(
        &mut self,
        env: &mut E,
        partition: &str,
        name: &[u8],
    ) -> Result<(WriteFaultBlob<S>, u64), Error> {
        let (inner, len) = self.inner.open(env, partition, name)?;
        Ok((WriteFaultBlob { inner }, len))
    }

    #[tactic(auto, using(crate::proofs::Mocks::counts_more))]
    fn remove<E: Env>(
        &mut self,
        env: &mut E,
        partition: &str,
        name: Option<&[u8]>,
    ) -> Result<(), Error> {
        self.inner.remove(env, partition, name)
    }

    #[tactic(auto, using(crate::proofs::Mocks::counts_more))]
    fn scan<E: Env>(&mut self, env: &mut E, partition: &str) -> Result<Vec<Vec<u8>>, Error> {
        self.inner.scan(env, partition)
    }

    #[tactic(auto, using(crate::proofs::Mocks::counts_more))]
    fn read_at<E: Env>(
        &mut self,
        env: &mut E,
        blob: &WriteFaultBlob<S>,
        offset: u64,
        len: usize,
        options: ReadOptions,
    ) -> Result<IoBufsMut, Error> {
        self.inner.read_at(env, &blob.inner, offset, len, options)
    }

    #[tactic(auto, using(crate::proofs::Mocks::counts_more))]
    fn read_at_buf<E: Env>(
        &mut self,
        env: &mut E,
        blob: &WriteFaultBlob<S>,
        offset: u64,
        len: usize,
        bufs: IoBufsMut,
        options: ReadOptions,
    ) -> Result<IoBufsMut, Error> {
        self.inner
            .read_at_buf(env, &blob.inner, offset, len, bufs, options)
    }

    #[tactic(auto, using(crate::proofs::Mocks::counts_more))]
    fn read_many<E: Env>(
        &mut self,
        env: &mut E,
        blob: &WriteFaultBlob<S>,
        ranges: &[(u64, usize)],
        options: ReadOptions,
    ) -> Result<Vec<(usize, IoBufsMut)>, Error> {
        self.inner.read_many(env, &blob.inner, ranges, options)
    }

    #[tactic(auto, using(crate::proofs::Mocks::counts_more))]
    fn start_read_many<E: Env>(
        &mut self,
        env: &mut E,
        blob: &WriteFaultBlob<S>,
        ranges: &[(u64, usize)],
        options: ReadOptions,
    ) -> Result<Vec<IoBufsMut>, Error> {
        self.inner
            .start_read_many(env, &blob.inner, ranges, options)
    }

    #[tactic(auto, using(crate::proofs::Mocks::counts_done_more))]
    fn write_at<E: Env>(
        &mut self,
        env: &mut E,
        blob: &WriteFaultBlob<S>,
        offset: u64,
        bufs: IoBufs,
        options: WriteOptions,
    ) -> Result<Done, Error> {
        if self.faults.is_armed {
            self.faults.refuse();
            return Err(Error::Io(IoKind::InjectedWriteFailure));
        }
        let answer = self.inner.write_at(env, &blob.inner, offset, bufs, options);
        self.faults.count(&answer);
        answer
    }

    #[tactic(auto, using(crate::proofs::Mocks::counts_more))]
    fn resize<E: Env>(
        &mut self,
        env: &mut E,
        blob: &WriteFaultBlob<S>,
        len: u64,
    ) -> Result<(), Error> {
        self.inner.resize(env, &blob.inner, len)
    }

    #[tactic(auto, using(crate::proofs::Mocks::counts_done_more))]
    fn sync<E: Env>(&mut self, env: &mut E, blob: &WriteFaultBlob<S>) -> Result<Done, Error> {
        self.inner.sync(env, &blob.inner)
    }

    #[tactic(auto, using(crate::proofs::Mocks::counts_start_more))]
    fn start_sync<E: Env>(
        &mut self,
        env: &mut E,
        blob: &WriteFaultBlob<S>,
    ) -> Result<Ticket, Error> {
        self.inner.start_sync(env, &blob.inner)
    }

    #[tactic(auto, using(crate::proofs::Mocks::counts_poll_more))]
    fn poll_sync<E: Env>(
        &mut self,
        env: &mut E,
        ticket: &mut Ticket,
        task: u64,
    ) -> Poll<Result<(), Error>> {
        self.inner.poll_sync(env, ticket, task)
    }

    fn give_up_sync(&mut self, ticket: Ticket) {
        self.inner.give_up_sync(ticket);
    }

    fn close(&mut self, blob: WriteFaultBlob<S>) {
        let WriteFaultBlob { inner } = blob;
        self.inner.close(inner);
    }
}
