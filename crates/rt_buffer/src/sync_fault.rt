// A store whose syncs fail in one partition.
ghost use Rattle.std.specs.Prelude.{◌≡◌, ◌<◌, ◌^◌, ◌↔◌, IsTrue, string_bytes};
ghost use Rattle.rt_base.specs.declared.error.Error.{Error};
ghost use Rattle.rt_base.specs.declared.io_kind.IoKind.{IoKind};
ghost use Rattle.rt_buffer.specs.Mocks.{one_more};

use rt_base::{BlobVersion, Env, Error, IoKind, NoMemory, Poll, ReadOptions, WriteOptions};
use rt_bufs::{IoBufs, IoBufsMut};
use rt_store::{BlobOf, Done, Storage, Ticket};

/// A store where each sync of a blob that was opened in this partition fails: it is refused with
/// `Io(InjectedPartitionSyncFault)`, or a started one returns a ticket that holds that, with no call of the inner
/// store. All other calls are passed on. It counts the syncs that it refused, up to the type's end.
#[derive(Drop)]
pub struct SyncFaultContext<S: Storage> {
    pub inner: S,
    pub fail_partition: String,
    pub refusals: u64,
}

/// A token of an open blob of a store whose syncs fail in one partition. It must be spent by `Storage::close`.
pub struct SyncFaultBlob<S: Storage> {
    inner: BlobOf<S>,
    is_faulty: bool,
}

impl<S: Storage> SyncFaultContext<S> {
    /// Makes a store over the inner one that refused no sync yet.
    pub fn new(inner: S, fail_partition: String) -> SyncFaultContext<S>
        ensures inner { result.inner ≡ inner }
        ensures partition { result.fail_partition ≡ fail_partition }
        ensures refusals { result.refusals ≡ 0 }
    {
        SyncFaultContext {
            inner,
            fail_partition,
            refusals: 0,
        }
    }

    // Whether syncs of blobs of this partition fail.
    fn is_faulty(&self, partition: &str) -> bool
        ensures { IsTrue result ↔ (partition.now ≡ string_bytes self.now.fail_partition) }
    {
        partition.as_bytes() == self.fail_partition.as_bytes()
    }

    // Counts a sync that is refused.
    fn refuse(&mut self) -> Error
        ensures error { result ≡ Error.Io IoKind.InjectedPartitionSyncFault }
        ensures counted { self.new.refusals ≡ one_more self.old.refusals }
        ensures fits { self.old.refusals < 2 ^ 64 }
        ensures partition { self.new.fail_partition ≡ self.old.fail_partition }
        ensures inner { self.new.inner ≡ self.old.inner }
    {
        self.refusals = self.refusals.saturating_add(1);
        Error::Io(IoKind::InjectedPartitionSyncFault)
    }
}

impl<S: Storage> Storage for SyncFaultContext<S> {
    type Blob = SyncFaultBlob<S>;

    ghost use Rattle.std.specs.Prelude.{◌≡◌, ◌+◌, ◌↔◌, IsTrue, IfOk, false, string_bytes};
    ghost use Rattle.rt_buffer.specs.Mocks.{FaultyCall, failed_sync, failed_start, inside};
    ghost use Rattle.rt_store.specs.Answered.{PollsTicket, is_numbered};

    ghost callable = { λ s. S.callable s.inner };

    ghost refusals = { λ s. S.refusals s.inner + s.refusals };

    ghost bytes = { λ s k. S.bytes s.inner k.inner };

    ghost left = { λ s k. S.left s.inner k.inner };

    ghost promised = { λ s t k. S.promised s.inner t k.inner };

    ghost apart = { λ s k j. S.apart s.inner k.inner j.inner };

    ghost opened = { λ s k. S.opened s.inner k.inner };

    ghost both_ways = { λ s k j near. S.both_ways s.inner k.inner j.inner near };

    ghost most = { S.most };

    ghost per_range = { S.per_range };

    ghost opens_versioned = { λ s p n versions r t x. S.opens_versioned s.inner p n versions (inside (λ a. (a.0.inner, a.1, a.2)) r) t.inner x × IfOk r (λ a. IsTrue a.0.is_faulty ↔ (p ≡ string_bytes s.fail_partition)) × (t.fail_partition ≡ s.fail_partition) × (t.refusals ≡ s.refusals) };

    ghost opens = { λ s p n r t x. S.opens s.inner p n (inside (λ a. (a.0.inner, a.1)) r) t.inner x × IfOk r (λ a. IsTrue a.0.is_faulty ↔ (p ≡ string_bytes s.fail_partition)) × (t.fail_partition ≡ s.fail_partition) × (t.refusals ≡ s.refusals) };

    ghost removes = { λ s p n r t x. S.removes s.inner p n r t.inner x × (t.fail_partition ≡ s.fail_partition) × (t.refusals ≡ s.refusals) };

    ghost scans = { λ s p r t x. S.scans s.inner p r t.inner x × (t.fail_partition ≡ s.fail_partition) × (t.refusals ≡ s.refusals) };

    ghost reads = { λ s k offset len options r t x. S.reads s.inner k.inner offset len options r t.inner x × (t.fail_partition ≡ s.fail_partition) × (t.refusals ≡ s.refusals) };

    ghost reads_into = { λ s k offset len bufs options r t x. S.reads_into s.inner k.inner offset len bufs options r t.inner x × (t.fail_partition ≡ s.fail_partition) × (t.refusals ≡ s.refusals) };

    ghost reads_many = { λ s k ranges options r t x. S.reads_many s.inner k.inner ranges options r t.inner x × (t.fail_partition ≡ s.fail_partition) × (t.refusals ≡ s.refusals) };

    ghost reads_in_order = { λ s k ranges options r t x. S.reads_in_order s.inner k.inner ranges options r t.inner x × (t.fail_partition ≡ s.fail_partition) × (t.refusals ≡ s.refusals) };

    ghost writes = { λ s k offset bufs options r t x. S.writes s.inner k.inner offset bufs options r t.inner x × (t.fail_partition ≡ s.fail_partition) × (t.refusals ≡ s.refusals) };

    ghost resizes = { λ s k len r t x. S.resizes s.inner k.inner len r t.inner x × (t.fail_partition ≡ s.fail_partition) × (t.refusals ≡ s.refusals) };

    ghost syncs = { λ s k r t x. FaultyCall failed_sync (S.syncs s.inner k.inner) k.is_faulty s.inner s.refusals r t.inner t.refusals x × (t.fail_partition ≡ s.fail_partition) };

    ghost starts_sync = { λ s k r t x. FaultyCall failed_start (S.starts_sync s.inner k.inner) k.is_faulty s.inner s.refusals r t.inner t.refusals x × (t.fail_partition ≡ s.fail_partition) };

    ghost polls_sync = { λ s ticket task p t u x. S.polls_sync s.inner ticket task p t.inner u x × PollsTicket ticket p u × (is_numbered ticket ≡ false → t ≡ s) × (t.fail_partition ≡ s.fail_partition) × (t.refusals ≡ s.refusals) };

    ghost gives_sync_up = { λ s ticket t. S.gives_sync_up s.inner ticket t.inner × (is_numbered ticket ≡ false → t ≡ s) × (t.fail_partition ≡ s.fail_partition) × (t.refusals ≡ s.refusals) };

    ghost closes = { λ s k t. S.closes s.inner k.inner t.inner × (t.fail_partition ≡ s.fail_partition) × (t.refusals ≡ s.refusals) };

    fn take_room<E: Env>(
        env: &mut E,
        calls: usize,
        ranges: usize,
        more: usize,
    ) -> Result<(), NoMemory> {
        S::take_room(env, calls, ranges, more)
    }

    #[tactic(auto, using(crate::proofs::Mocks::counts_more))]
    fn open_versioned<E: Env>(
        &mut self,
        env: &mut E,
        partition: &str,
        name: &[u8],
        versions: (BlobVersion, BlobVersion),
    ) -> Result<(SyncFaultBlob<S>, u64, BlobVersion), Error> {
        let is_faulty = self.is_faulty(partition);
        let (inner, len, version) = self.inner.open_versioned(env, partition, name, versions)?;
        Ok((SyncFaultBlob { inner, is_faulty }, len, version))
    }

    #[tactic(auto, using(crate::proofs::Mocks::counts_more))]
    fn open<E: Env>(
        &mut self,
        env: &mut E,
        partition: &str,
        name: &[u8],
    ) -> Result<(SyncFaultBlob<S>, u64), Error> {
        let is_faulty = self.is_faulty(partition);
        let (inner, len) = self.inner.open(env, partition, name)?;
        Ok((SyncFaultBlob { inner, is_faulty }, len))
    }

    #[tactic(auto, using(crate::proofs::Mocks::counts_more))]
    fn remove<E: Env>(
        &mut self,
        env: &mut E,
        partition: &str,
        name: Option<&[u8]>,
    ) -> Result<(), Error> {
        self.inner.remove(env, partition, name)
    }

    #[tactic(auto, using(crate::proofs::Mocks::counts_more))]
    fn scan<E: Env>(&mut self, env: &mut E, partition: &str) -> Result<Vec<Vec<u8>>, Error> {
        self.inner.scan(env, partition)
    }

    #[tactic(auto, using(crate::proofs::Mocks::counts_more))]
    fn read_at<E: Env>(
        &mut self,
        env: &mut E,
        blob: &SyncFaultBlob<S>,
        offset: u64,
        len: usize,
        options: ReadOptions,
    ) -> Result<IoBufsMut, Error> {
        self.inner.read_at(env, &blob.inner, offset, len, options)
    }

    #[tactic(auto, using(crate::proofs::Mocks::counts_more))]
    fn read_at_buf<E: Env>(
        &mut self,
        env: &mut E,
        blob: &SyncFaultBlob<S>,
        offset: u64,
        len: usize,
        bufs: IoBufsMut,
        options: ReadOptions,
    ) -> Result<IoBufsMut, Error> {
        self.inner
            .read_at_buf(env, &blob.inner, offset, len, bufs, options)
    }

    #[tactic(auto, using(crate::proofs::Mocks::counts_more))]
    fn read_many<E: Env>(
        &mut self,
        env: &mut E,
        blob: &SyncFaultBlob<S>,
        ranges: &[(u64, usize)],
        options: ReadOptions,
    ) -> Result<Vec<(usize, IoBufsMut)>, Error> {
        self.inner.read_many(env, &blob.inner, ranges, options)
    }

    #[tactic(auto, using(crate::proofs::Mocks::counts_more))]
    fn start_read_many<E: Env>(
        &mut self,
        env: &mut E,
        blob: &SyncFaultBlob<S>,
        ranges: &[(u64, usize)],
        options: ReadOptions,
    ) -> Result<Vec<IoBufsMut>, Error> {
        self.inner
            .start_read_many(env, &blob.inner, ranges, options)
    }

    #[tactic(auto, using(crate::proofs::Mocks::counts_done_more))]
    fn write_at<E: Env>(
        &mut self,
        env: &mut E,
        blob: &SyncFaultBlob<S>,
        offset: u64,
        bufs: IoBufs,
        options: WriteOptions,
    ) -> Result<Done, Error> {
        self.inner.write_at(env, &blob.inner, offset, bufs, options)
    }

    #[tactic(auto, using(crate::proofs::Mocks::counts_more))]
    fn resize<E: Env>(
        &mut self,
        env: &mut E,
        blob: &SyncFaultBlob<S>,
        len: u64,
    ) -> Result<(), Error> {
        self.inner.resize(env, &blob.inner, len)
    }

    #[tactic(auto, using(crate::proofs::Mocks::counts_done_more))]
    fn sync<E: Env>(&mut self, env: &mut E, blob: &SyncFaultBlob<S>) -> Result<Done, Error> {
        if blob.is_faulty {
            return Err(self.refuse());
        }
        self.inner.sync(env, &blob.inner)
    }

    #[tactic(auto, using(crate::proofs::Mocks::counts_start_more))]
    fn start_sync<E: Env>(
        &mut self,
        env: &mut E,
        blob: &SyncFaultBlob<S>,
    ) -> Result<Ticket, Error> {
        if blob.is_faulty {
            return Ok(Ticket::Ready(Err(self.refuse())));
        }
        self.inner.start_sync(env, &blob.inner)
    }

    #[tactic(auto, using(crate::proofs::Mocks::counts_poll_more))]
    fn poll_sync<E: Env>(
        &mut self,
        env: &mut E,
        ticket: &mut Ticket,
        task: u64,
    ) -> Poll<Result<(), Error>> {
        self.inner.poll_sync(env, ticket, task)
    }

    fn give_up_sync(&mut self, ticket: Ticket) {
        self.inner.give_up_sync(ticket);
    }

    fn close(&mut self, blob: SyncFaultBlob<S>) {
        let SyncFaultBlob {
            inner,
            is_faulty: _,
        } = blob;
        self.inner.close(inner);
    }
}
