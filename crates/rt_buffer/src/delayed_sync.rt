// A store whose started syncs a test holds back.
ghost use Rattle.std.specs.Prelude.{◌≡◌, ◌+◌, ◌<◌, ◌≤◌, ◌^◌, ℕ, [], None, Some, IfSome, true, is_some, slice_get, vec_len, vec_capacity};
ghost use Rattle.rt_base.specs.Counted.{Notes};
ghost use Rattle.rt_base.specs.declared.error.Error.{Error};
ghost use Rattle.rt_base.specs.declared.poll.Poll.{Poll};
ghost use Rattle.rt_buffer.specs.Delayed.{AnswersInner, ClosesAll, CountsAnswer, Finishes, GivesUpAll, GivesUpStage, LetsGo, PollsInner, PollsStage, Settles, SyncsAt, SyncsReleased, Writes, blob_at, delayed, gate_has_place, refused, without_ticket};
ghost use Rattle.rt_buffer.specs.Mocks.{one_more};
ghost use Rattle.rt_buffer.specs.Pending.{gate_of, none_pending};
ghost use Rattle.rt_store.specs.Answered.{CountsDone, PollsTicket, is_numbered};

use crate::pending_syncs::PendingSyncs;
use crate::shared_blob::{SharedBlob, add_blob, has_place, hold, inner_of, let_go};
use crate::stage::{Hold, Passed, Stage, add_ticket, pass_on, set_stage, stage_at};
use rt_base::{BlobVersion, Env, Error, NoMemory, Poll, ReadOptions, WriteOptions};
use rt_bufs::{IoBufs, IoBufsMut};
use rt_store::{BlobOf, Done, Storage, Ticket, copy_of};
use std::alloc::Global;

/// A store that holds each started sync back until a test releases it, and once that is armed also the next sync of
/// any kind. All other calls are passed on to the inner store. It counts the calls that it refused itself, up to the
/// type's end.
///
/// The poll of a ticket is pending while its sync is held, and while a gated ticket of the inner store is. A sync
/// that is released with an error ends with that, with no call of the inner store; any other is then one `sync` of
/// the inner store. A ticket that was answered or given up is out: a further poll of its number is refused with
/// `UnknownToken`. A ticket keeps its blob open: the last of the token and its tickets closes it.
///
/// It must be spent by [`into_inner`](Self::into_inner), since a ticket keeps its blob open.
pub struct DelayedSyncContext<S: Storage> {
    inner: S,
    pending: PendingSyncs,
    blobs: Vec<Option<SharedBlob<BlobOf<S>>>>,
    tickets: Vec<Stage>,
    refusals: u64,
}

/// A token of an open blob of a store that holds syncs back. It must be spent by `Storage::close`.
#[derive(Debug)]
pub struct DelayedSyncBlob {
    number: u64,
}

// Counts a call that is refused.
fn refuse(refusals: &mut u64)
    ensures counted { refusals.new ≡ one_more refusals.old }
    ensures fits { refusals.old < 2 ^ 64 }
{
    *refusals = refusals.saturating_add(1);
}

// A call on a token of no open blob is refused.
fn unknown(refusals: &mut u64) -> Error
    ensures error { result ≡ Error.UnknownToken }
    ensures counted { refusals.new ≡ one_more refusals.old }
    ensures fits { refusals.old < 2 ^ 64 }
{
    refuse(refusals);
    Error::UnknownToken
}

impl<S: Storage> DelayedSyncContext<S> {
    ghost use Rattle.std.specs.Borrow.{sem};
    ghost use Rattle.rt_buffer.specs.Lent.{lends_inner, lends_pending};

    /// Makes a store over the inner one that holds nothing back yet.
    pub fn new(alloc: Global, inner: S) -> DelayedSyncContext<S>
        ensures inner { result.inner ≡ inner }
        ensures pending { result.pending ≡ none_pending }
        ensures blobs { result.blobs.items ≡ [] }
        ensures tickets { result.tickets.items ≡ [] }
        ensures refusals { result.refusals ≡ 0 }
    {
        DelayedSyncContext {
            inner,
            pending: PendingSyncs::new(alloc),
            blobs: Vec::new(alloc),
            tickets: Vec::new(alloc),
            refusals: 0,
        }
    }

    /// Returns what is held back.
    pub fn pending(&self) -> &PendingSyncs
        ensures { result.now ≡ self.now.pending }
    {
        &self.pending
    }

    /// Returns what is held back, to release it.
    pub fn pending_mut(&mut self) -> &mut PendingSyncs
        ensures* writes_back { sem 𝓛 (lends_pending S.row S.Blob.row self.entry result) }
        ensures value { result.now ≡ self.old.pending }
    {
        &mut self.pending
    }

    /// Returns the inner store.
    pub fn inner(&self) -> &S
        ensures { result.now ≡ self.now.inner }
    {
        &self.inner
    }

    /// Returns the inner store, to change its settings.
    pub fn inner_mut(&mut self) -> &mut S
        ensures* writes_back { sem 𝓛 (lends_inner S.row S.Blob.row self.entry result) }
        ensures value { result.now ≡ self.old.inner }
    {
        &mut self.inner
    }

    /// Returns how many calls the store refused itself.
    pub fn refusals(&self) -> u64
        ensures { result ≡ self.now.refusals }
    {
        self.refusals
    }

    /// Returns the inner store alone: what is still held is given up, and what is still open closed, the last first.
    pub fn into_inner(self) -> S
        requires { S.callable self.inner }
        ensures callable { S.callable result }
        ensures inner { (given_up : S) × GivesUpAll ⟦<S as Storage>⟧ self.tickets.items self.inner given_up × ClosesAll ⟦<S as Storage>⟧ self.blobs.items given_up result }
    {
        let DelayedSyncContext {
            mut inner,
            pending: _,
            blobs,
            tickets,
            refusals: _,
        } = self;
        give_up_all(&mut inner, tickets);
        close_all(&mut inner, blobs);
        inner
    }
}

// Gives up what is left of the inner store's tickets, the last one first.
fn give_up_all<S: Storage>(inner: &mut S, mut tickets: Vec<Stage>)
    requires callable { S.callable inner.old }
    ensures given_up { GivesUpAll ⟦<S as Storage>⟧ tickets.items inner.old inner.new }
    ensures callable { S.callable inner.new }
{
    while let Some(stage) = tickets.pop() {
        match stage {
            Stage::Passed(passed) => inner.give_up_sync(Ticket::Numbered(passed.number)),
            Stage::Held(_) | Stage::Out => {}
        }
    }
}

// Closes what is left of the inner blobs, the last one first.
fn close_all<S: Storage>(inner: &mut S, mut blobs: Vec<Option<SharedBlob<BlobOf<S>>>>)
    requires callable { S.callable inner.old }
    ensures closed { ClosesAll ⟦<S as Storage>⟧ blobs.items inner.old inner.new }
    ensures callable { S.callable inner.new }
{
    while let Some(place) = blobs.pop() {
        if let Some(
            SharedBlob {
                inner: blob,
                others: _,
            },
        ) = place
        {
            inner.close(blob);
        }
    }
    blobs.destroy_empty();
}

// Syncs, and their polls.
impl<S: Storage> DelayedSyncContext<S> {
    // Whether one more can hold the blob, where a gate is there for the next durability call.
    fn gate_has_place(&self, number: u64) -> bool
        ensures { result ≡ gate_has_place self.now.blobs.items number (gate_of self.now.pending) }
    {
        self.pending.gate().is_none() || has_place(self.blobs.as_slice(), number)
    }

    // A sync of a blob that is open, with the room for it: it takes the gate, or is passed on.
    fn sync_open<E: Env>(&mut self, env: &mut E, number: u64) -> Result<Done, Error>
        requires callable { S.callable self.old.inner }
        requires opened { is_some (blob_at self.old.blobs.items number) ≡ true }
        requires room { vec_len self.old.tickets < vec_capacity self.old.tickets }
        requires place { gate_has_place self.old.blobs.items number (gate_of self.old.pending) ≡ true }
        ensures lasts { (start : E) → E.lasts start env.old → E.lasts start env.new }
        ensures syncs { Notes (E.noted env.old) (λ x. IfSome (blob_at self.old.blobs.items number) (λ b. SyncsAt ⟦<S as Storage>⟧ number b (gate_of self.old.pending) (delayed self.old.inner self.old.pending self.old.blobs.items self.old.tickets.items self.old.refusals) result (delayed self.new.inner self.new.pending self.new.blobs.items self.new.tickets.items self.new.refusals) x)) (E.noted env.new) }
        ensures spent { E.spare env.old ≤ E.spare env.new + S.most }
        ensures counts { CountsDone (S.refusals self.old.inner + self.old.refusals) (S.refusals self.new.inner + self.new.refusals) result }
        ensures callable { S.callable self.new.inner }
    {
        if let Some(gate) = self.pending.call() {
            hold(&mut self.blobs, number);
            let held = Hold {
                blob: number,
                hold: Some(gate),
                counts: false,
            };
            return Ok(Done::Gated(add_ticket(&mut self.tickets, Stage::Held(held))));
        }
        let Some(inner) = inner_of(self.blobs.as_slice(), number) else {
            unreachable!()
        };
        let answer = self.inner.sync(env, inner);
        pass_on(&mut self.tickets, answer)
    }

    // A durable write that is counted, with the room for it: one that isn't durable, and then a sync.
    fn write_then_sync<E: Env>(
        &mut self,
        env: &mut E,
        number: u64,
        offset: u64,
        bufs: IoBufs,
        options: WriteOptions,
    ) -> Result<Done, Error>
        requires callable { S.callable self.old.inner }
        requires opened { is_some (blob_at self.old.blobs.items number) ≡ true }
        requires room { vec_len self.old.tickets < vec_capacity self.old.tickets }
        requires place { gate_has_place self.old.blobs.items number (gate_of self.old.pending) ≡ true }
        ensures lasts { (start : E) → E.lasts start env.old → E.lasts start env.new }
        ensures writes { Notes (E.noted env.old) (λ x. Writes ⟦<S as Storage>⟧ number (blob_at self.old.blobs.items number) true offset bufs options (delayed self.old.inner self.old.pending self.old.blobs.items self.old.tickets.items self.old.refusals) result (delayed self.new.inner self.new.pending self.new.blobs.items self.new.tickets.items self.new.refusals) x) (E.noted env.new) }
        ensures spent { E.spare env.old ≤ E.spare env.new + (S.most + S.most) }
        ensures counts { CountsDone (S.refusals self.old.inner + self.old.refusals) (S.refusals self.new.inner + self.new.refusals) result }
        ensures callable { S.callable self.new.inner }
    {
        let Some(inner) = inner_of(self.blobs.as_slice(), number) else {
            unreachable!()
        };
        let plain = options.without(WriteOptions::SYNC);
        match self.inner.write_at(env, inner, offset, bufs, plain) {
            Ok(Done::Now) => self.sync_open(env, number),
            Ok(Done::Gated(ticket)) => {
                self.inner.give_up_sync(ticket);
                self.sync_open(env, number)
            }
            Err(error) => Err(error),
        }
    }

    // One holds the blob no more, and the last one closes it.
    fn let_go(&mut self, blob: Option<u64>)
        requires callable { S.callable self.old.inner }
        ensures lets_go { LetsGo ⟦<S as Storage>⟧ blob (delayed self.old.inner self.old.pending self.old.blobs.items self.old.tickets.items self.old.refusals) (delayed self.new.inner self.new.pending self.new.blobs.items self.new.tickets.items self.new.refusals) }
        ensures counts { S.refusals self.old.inner ≤ S.refusals self.new.inner }
        ensures own { self.new.refusals ≡ self.old.refusals }
        ensures callable { S.callable self.new.inner }
    {
        let Some(number) = blob else {
            return;
        };
        if let Some(inner) = let_go(&mut self.blobs, number) {
            self.inner.close(inner);
        }
    }

    // A ticket is out, and holds the blob no more.
    fn leave(&mut self, number: u64, blob: Option<u64>)
        requires callable { S.callable self.old.inner }
        ensures leaves { LetsGo ⟦<S as Storage>⟧ blob (without_ticket number (delayed self.old.inner self.old.pending self.old.blobs.items self.old.tickets.items self.old.refusals)) (delayed self.new.inner self.new.pending self.new.blobs.items self.new.tickets.items self.new.refusals) }
        ensures counts { S.refusals self.old.inner ≤ S.refusals self.new.inner }
        ensures own { self.new.refusals ≡ self.old.refusals }
        ensures callable { S.callable self.new.inner }
    {
        set_stage(&mut self.tickets, number, Stage::Out);
        self.let_go(blob);
    }

    // Ends a ticket that was answered, which leaves.
    fn finish(&mut self, number: u64, blob: Option<u64>, counts: bool, answer: &Result<(), Error>)
        requires callable { S.callable self.old.inner }
        ensures finishes { Finishes ⟦<S as Storage>⟧ number blob counts answer.now (delayed self.old.inner self.old.pending self.old.blobs.items self.old.tickets.items self.old.refusals) (delayed self.new.inner self.new.pending self.new.blobs.items self.new.tickets.items self.new.refusals) }
        ensures counts { S.refusals self.old.inner ≤ S.refusals self.new.inner }
        ensures own { self.new.refusals ≡ self.old.refusals }
        ensures callable { S.callable self.new.inner }
    {
        if counts && answer.is_ok() {
            self.pending.complete();
        }
        self.leave(number, blob);
    }

    // Ends a ticket with the answer of an inner one. Once that is ready it is none of the inner store's any more.
    fn answer(
        &mut self,
        number: u64,
        blob: Option<u64>,
        counts: bool,
        answer: Result<(), Error>,
    ) -> Poll<Result<(), Error>>
        requires callable { S.callable self.old.inner }
        ensures answers { AnswersInner ⟦<S as Storage>⟧ number blob counts answer (delayed self.old.inner self.old.pending self.old.blobs.items self.old.tickets.items self.old.refusals) result (delayed self.new.inner self.new.pending self.new.blobs.items self.new.tickets.items self.new.refusals) }
        ensures counts { S.refusals self.old.inner ≤ S.refusals self.new.inner }
        ensures own { self.new.refusals ≡ self.old.refusals }
        ensures callable { S.callable self.new.inner }
    {
        self.finish(number, blob, counts, &answer);
        Poll::Ready(answer)
    }
}

// Polls of tickets with a number.
impl<S: Storage> DelayedSyncContext<S> {
    // A poll of an inner ticket. Once that is ready its answer is taken out: the poll's own may be a copy that ran out of memory,
    // and would then be in the outer ticket for good.
    fn poll_inner<E: Env>(
        &mut self,
        env: &mut E,
        number: u64,
        passed: Passed,
        task: u64,
    ) -> Poll<Result<(), Error>>
        requires callable { S.callable self.old.inner }
        ensures lasts { (start : E) → E.lasts start env.old → E.lasts start env.new }
        ensures polls { Notes (E.noted env.old) (λ x. PollsInner ⟦<S as Storage>⟧ number task passed (delayed self.old.inner self.old.pending self.old.blobs.items self.old.tickets.items self.old.refusals) result (delayed self.new.inner self.new.pending self.new.blobs.items self.new.tickets.items self.new.refusals) x) (E.noted env.new) }
        ensures spent { E.spare env.old ≤ E.spare env.new + S.most }
        ensures counts { CountsAnswer (S.refusals self.old.inner + self.old.refusals) (S.refusals self.new.inner + self.new.refusals) result }
        ensures callable { S.callable self.new.inner }
    {
        let mut ticket = Ticket::Numbered(passed.number);
        let _ = self.inner.poll_sync(env, &mut ticket, task);
        match ticket {
            Ticket::Numbered(_) => Poll::Pending,
            Ticket::Ready(held) => self.answer(number, passed.blob, passed.counts, held),
        }
    }

    // A sync that goes on is one of the inner store.
    fn sync_released<E: Env>(
        &mut self,
        env: &mut E,
        number: u64,
        held: Hold,
        task: u64,
    ) -> Poll<Result<(), Error>>
        requires callable { S.callable self.old.inner }
        ensures lasts { (start : E) → E.lasts start env.old → E.lasts start env.new }
        ensures polls { Notes (E.noted env.old) (λ x. SyncsReleased ⟦<S as Storage>⟧ number task held (blob_at self.old.blobs.items held.blob) (delayed self.old.inner self.old.pending self.old.blobs.items self.old.tickets.items self.old.refusals) result (delayed self.new.inner self.new.pending self.new.blobs.items self.new.tickets.items self.new.refusals) x) (E.noted env.new) }
        ensures spent { E.spare env.old ≤ E.spare env.new + (S.most + S.most) }
        ensures counts { CountsAnswer (S.refusals self.old.inner + self.old.refusals) (S.refusals self.new.inner + self.new.refusals) result }
        ensures callable { S.callable self.new.inner }
    {
        let Some(inner) = inner_of(self.blobs.as_slice(), held.blob) else {
            return Poll::Ready(Err(self.lose(number)));
        };
        match self.inner.sync(env, inner) {
            Ok(Done::Now) => {
                self.finish(number, Some(held.blob), held.counts, &Ok(()));
                Poll::Ready(Ok(()))
            }
            Ok(Done::Gated(Ticket::Ready(answer))) => {
                self.answer(number, Some(held.blob), held.counts, answer)
            }
            Ok(Done::Gated(Ticket::Numbered(gated))) => {
                let passed = Passed {
                    number: gated,
                    blob: Some(held.blob),
                    counts: held.counts,
                };
                set_stage(&mut self.tickets, number, Stage::Passed(passed));
                self.poll_inner(env, number, passed, task)
            }
            Err(error) => {
                let answer = Err(error);
                self.finish(number, Some(held.blob), held.counts, &answer);
                Poll::Ready(answer)
            }
        }
    }

    // The blob of a ticket isn't there: the ticket is out.
    fn lose(&mut self, number: u64) -> Error
        requires callable { S.callable self.old.inner }
        ensures error { result ≡ Error.UnknownToken }
        ensures lost { (delayed self.new.inner self.new.pending self.new.blobs.items self.new.tickets.items self.new.refusals) ≡ refused (without_ticket number (delayed self.old.inner self.old.pending self.old.blobs.items self.old.tickets.items self.old.refusals)) }
        ensures fits { self.old.refusals < 2 ^ 64 }
        ensures callable { S.callable self.new.inner }
    {
        self.leave(number, None);
        unknown(&mut self.refusals)
    }

    // A ticket with a number is given up.
    fn give_up_numbered(&mut self, number: u64)
        requires callable { S.callable self.old.inner }
        ensures gives_up { GivesUpStage ⟦<S as Storage>⟧ number (slice_get self.old.tickets.items number) (delayed self.old.inner self.old.pending self.old.blobs.items self.old.tickets.items self.old.refusals) (delayed self.new.inner self.new.pending self.new.blobs.items self.new.tickets.items self.new.refusals) }
        ensures counts { S.refusals self.old.inner + self.old.refusals ≤ S.refusals self.new.inner + self.new.refusals }
        ensures callable { S.callable self.new.inner }
    {
        match stage_at(self.tickets.as_slice(), number) {
            Stage::Held(held) => self.leave(number, Some(held.blob)),
            Stage::Passed(passed) => {
                self.inner.give_up_sync(Ticket::Numbered(passed.number));
                self.leave(number, passed.blob);
            }
            Stage::Out => {}
        }
    }

    // A poll of a ticket with a number.
    fn poll_numbered<E: Env>(
        &mut self,
        env: &mut E,
        number: u64,
        task: u64,
    ) -> Poll<Result<(), Error>>
        requires callable { S.callable self.old.inner }
        ensures lasts { (start : E) → E.lasts start env.old → E.lasts start env.new }
        ensures polls { Notes (E.noted env.old) (λ x. PollsStage ⟦<S as Storage>⟧ number task (slice_get self.old.tickets.items number) (delayed self.old.inner self.old.pending self.old.blobs.items self.old.tickets.items self.old.refusals) result (delayed self.new.inner self.new.pending self.new.blobs.items self.new.tickets.items self.new.refusals) x) (E.noted env.new) }
        ensures spent { E.spare env.old ≤ E.spare env.new + (S.most + S.most) }
        ensures counts { CountsAnswer (S.refusals self.old.inner + self.old.refusals) (S.refusals self.new.inner + self.new.refusals) result }
        ensures callable { S.callable self.new.inner }
    {
        match stage_at(self.tickets.as_slice(), number) {
            Stage::Held(held) => match self.pending.poll(held.hold, task) {
                Poll::Pending => Poll::Pending,
                Poll::Ready(Ok(())) => self.sync_released(env, number, held, task),
                Poll::Ready(Err(error)) => {
                    refuse(&mut self.refusals);
                    let answer = Err(error);
                    self.finish(number, Some(held.blob), held.counts, &answer);
                    Poll::Ready(answer)
                }
            },
            Stage::Passed(passed) => self.poll_inner(env, number, passed, task),
            Stage::Out => Poll::Ready(Err(unknown(&mut self.refusals))),
        }
    }
}

// Makes the ticket ready with the answer, of which it returns a copy.
#[tactic(auto, using(crate::proofs::Holding::settled_ticket))]
fn settle(ticket: &mut Ticket, polled: Poll<Result<(), Error>>) -> Poll<Result<(), Error>>
    requires { is_numbered ticket.old ≡ true }
    ensures settles { Settles ticket.old polled result ticket.new }
    ensures ticket { PollsTicket ticket.old result ticket.new }
    ensures counts { (old new : ℕ) → CountsAnswer old new polled → CountsAnswer old new result }
{
    let Poll::Ready(answer) = polled else {
        return Poll::Pending;
    };
    let copy = copy_of(&answer);
    ticket.settle(answer);
    Poll::Ready(copy)
}

// The calls on a blob and on a ticket, by what each does to the parts of the store.
impl<S: Storage> DelayedSyncContext<S> {
    ghost use Rattle.std.specs.Prelude.{◌&&◌, IfOk, length, false};
    ghost use Rattle.rt_base.specs.Counted.{Counts};
    ghost use Rattle.rt_buffer.specs.Calls.{IsOpen, IsOpenVersioned, IsRead, IsResize};
    ghost use Rattle.rt_buffer.specs.Delayed.{GivesUp, OnBlob, Opens, Polls, Starts, Syncs};
    ghost use Rattle.rt_buffer.specs.DelayedBytes.{delayed_of};
    ghost use Rattle.rt_store.specs.Answered.{CountsPoll, CountsStart, StartsOrLacks};

    fn open_with<E: Env>(
        &mut self,
        env: &mut E,
        partition: &str,
        name: &[u8],
        versions: (BlobVersion, BlobVersion),
    ) -> Result<(DelayedSyncBlob, u64, BlobVersion), Error>
        requires callable { S.callable self.old.inner }
        requires range { versions.0.version ≤ versions.1.version }
        ensures lasts { (start : E) → E.lasts start env.old → E.lasts start env.new }
        ensures gives { Notes (E.noted env.old) (λ x. Opens (λ low. IsOpenVersioned ⟦<S as Storage>⟧ self.old.inner partition.now name.now versions low) (λ b a. (b, a.1, a.2)) (λ a. a.0.number) (delayed_of self.old) result (delayed_of self.new) x) (E.noted env.new) }
        ensures spent { E.spare env.old ≤ E.spare env.new + (S.most + S.most) }
        ensures callable { S.callable self.new.inner }
        ensures counts { Counts (S.refusals self.old.inner + self.old.refusals) (S.refusals self.new.inner + self.new.refusals) result }
    {
        self.blobs.reserve(1)?;
        let (inner, len, version) = self.inner.open_versioned(env, partition, name, versions)?;
        let number = add_blob(&mut self.blobs, inner);
        Ok((DelayedSyncBlob { number }, len, version))
    }

    fn open_blob<E: Env>(
        &mut self,
        env: &mut E,
        partition: &str,
        name: &[u8],
    ) -> Result<(DelayedSyncBlob, u64), Error>
        requires callable { S.callable self.old.inner }
        ensures lasts { (start : E) → E.lasts start env.old → E.lasts start env.new }
        ensures gives { Notes (E.noted env.old) (λ x. Opens (λ low. IsOpen ⟦<S as Storage>⟧ self.old.inner partition.now name.now low) (λ b a. (b, a.1)) (λ a. a.0.number) (delayed_of self.old) result (delayed_of self.new) x) (E.noted env.new) }
        ensures spent { E.spare env.old ≤ E.spare env.new + (S.most + S.most) }
        ensures callable { S.callable self.new.inner }
        ensures counts { Counts (S.refusals self.old.inner + self.old.refusals) (S.refusals self.new.inner + self.new.refusals) result }
    {
        self.blobs.reserve(1)?;
        let (inner, len) = self.inner.open(env, partition, name)?;
        let number = add_blob(&mut self.blobs, inner);
        Ok((DelayedSyncBlob { number }, len))
    }

    fn read_blob<E: Env>(
        &mut self,
        env: &mut E,
        blob: &DelayedSyncBlob,
        offset: u64,
        len: usize,
        options: ReadOptions,
    ) -> Result<IoBufsMut, Error>
        requires callable { S.callable self.old.inner }
        ensures lasts { (start : E) → E.lasts start env.old → E.lasts start env.new }
        ensures gives { Notes (E.noted env.old) (λ x. OnBlob (λ b. IsRead ⟦<S as Storage>⟧ self.old.inner b offset len options) (blob_at self.old.blobs.items blob.now.number) (delayed_of self.old) result (delayed_of self.new) x) (E.noted env.new) }
        ensures len { IfOk result (λ b. length b.bytes ≡ len) }
        ensures spent { E.spare env.old ≤ E.spare env.new + (S.most + S.most) }
        ensures callable { S.callable self.new.inner }
        ensures counts { Counts (S.refusals self.old.inner + self.old.refusals) (S.refusals self.new.inner + self.new.refusals) result }
    {
        match inner_of(self.blobs.as_slice(), blob.number) {
            Some(inner) => self.inner.read_at(env, inner, offset, len, options),
            None => Err(unknown(&mut self.refusals)),
        }
    }

    fn write_blob<E: Env>(
        &mut self,
        env: &mut E,
        blob: &DelayedSyncBlob,
        offset: u64,
        bufs: IoBufs,
        options: WriteOptions,
    ) -> Result<Done, Error>
        requires callable { S.callable self.old.inner }
        ensures lasts { (start : E) → E.lasts start env.old → E.lasts start env.new }
        ensures gives { Notes (E.noted env.old) (λ x. Writes ⟦<S as Storage>⟧ blob.now.number (blob_at self.old.blobs.items blob.now.number) (options.sync && self.old.pending.is_armed) offset bufs options (delayed_of self.old) result (delayed_of self.new) x) (E.noted env.new) }
        ensures spent { E.spare env.old ≤ E.spare env.new + (S.most + S.most) }
        ensures callable { S.callable self.new.inner }
        ensures counts { CountsDone (S.refusals self.old.inner + self.old.refusals) (S.refusals self.new.inner + self.new.refusals) result }
    {
        if inner_of(self.blobs.as_slice(), blob.number).is_none() {
            return Err(unknown(&mut self.refusals));
        }
        self.tickets.reserve(1)?;
        if options.contains(WriteOptions::SYNC) && self.pending.is_armed() {
            if !self.gate_has_place(blob.number) {
                return Err(Error::NoMemory);
            }
            return self.write_then_sync(env, blob.number, offset, bufs, options);
        }
        let Some(inner) = inner_of(self.blobs.as_slice(), blob.number) else {
            unreachable!()
        };
        let answer = self.inner.write_at(env, inner, offset, bufs, options);
        pass_on(&mut self.tickets, answer)
    }

    fn resize_blob<E: Env>(
        &mut self,
        env: &mut E,
        blob: &DelayedSyncBlob,
        len: u64,
    ) -> Result<(), Error>
        requires callable { S.callable self.old.inner }
        ensures lasts { (start : E) → E.lasts start env.old → E.lasts start env.new }
        ensures gives { Notes (E.noted env.old) (λ x. OnBlob (λ b. IsResize ⟦<S as Storage>⟧ self.old.inner b len) (blob_at self.old.blobs.items blob.now.number) (delayed_of self.old) result (delayed_of self.new) x) (E.noted env.new) }
        ensures spent { E.spare env.old ≤ E.spare env.new + (S.most + S.most) }
        ensures callable { S.callable self.new.inner }
        ensures counts { Counts (S.refusals self.old.inner + self.old.refusals) (S.refusals self.new.inner + self.new.refusals) result }
    {
        match inner_of(self.blobs.as_slice(), blob.number) {
            Some(inner) => self.inner.resize(env, inner, len),
            None => Err(unknown(&mut self.refusals)),
        }
    }

    fn sync_blob<E: Env>(&mut self, env: &mut E, blob: &DelayedSyncBlob) -> Result<Done, Error>
        requires callable { S.callable self.old.inner }
        ensures lasts { (start : E) → E.lasts start env.old → E.lasts start env.new }
        ensures gives { Notes (E.noted env.old) (λ x. Syncs ⟦<S as Storage>⟧ blob.now.number (blob_at self.old.blobs.items blob.now.number) (delayed_of self.old) result (delayed_of self.new) x) (E.noted env.new) }
        ensures spent { E.spare env.old ≤ E.spare env.new + (S.most + S.most) }
        ensures callable { S.callable self.new.inner }
        ensures counts { CountsDone (S.refusals self.old.inner + self.old.refusals) (S.refusals self.new.inner + self.new.refusals) result }
    {
        if inner_of(self.blobs.as_slice(), blob.number).is_none() {
            return Err(unknown(&mut self.refusals));
        }
        self.tickets.reserve(1)?;
        if !self.gate_has_place(blob.number) {
            return Err(Error::NoMemory);
        }
        self.sync_open(env, blob.number)
    }

    fn start_blob<E: Env>(&mut self, env: &mut E, blob: &DelayedSyncBlob) -> Result<Ticket, Error>
        requires callable { S.callable self.old.inner }
        ensures lasts { (start : E) → E.lasts start env.old → E.lasts start env.new }
        ensures gives { Notes (E.noted env.old) (λ x. Starts blob.now.number (blob_at self.old.blobs.items blob.now.number) (delayed_of self.old) result (delayed_of self.new) x) (E.noted env.new) }
        ensures refused { StartsOrLacks result }
        ensures spent { E.spare env.old ≤ E.spare env.new + (S.most + S.most) }
        ensures callable { S.callable self.new.inner }
        ensures counts { CountsStart (S.refusals self.old.inner + self.old.refusals) (S.refusals self.new.inner + self.new.refusals) result }
    {
        let _ = env;
        if inner_of(self.blobs.as_slice(), blob.number).is_none() {
            return Err(unknown(&mut self.refusals));
        }
        self.tickets.reserve(1)?;
        if !has_place(self.blobs.as_slice(), blob.number) {
            return Err(Error::NoMemory);
        }
        let held_by = self.pending.start()?;
        hold(&mut self.blobs, blob.number);
        let held = Hold {
            blob: blob.number,
            hold: held_by,
            counts: true,
        };
        Ok(add_ticket(&mut self.tickets, Stage::Held(held)))
    }

    fn poll_ticket<E: Env>(
        &mut self,
        env: &mut E,
        ticket: &mut Ticket,
        task: u64,
    ) -> Poll<Result<(), Error>>
        requires callable { S.callable self.old.inner }
        ensures lasts { (start : E) → E.lasts start env.old → E.lasts start env.new }
        ensures gives { Notes (E.noted env.old) (λ x. Polls ⟦<S as Storage>⟧ task ticket.old (delayed_of self.old) result (delayed_of self.new) ticket.new x) (E.noted env.new) }
        ensures ticket { PollsTicket ticket.old result ticket.new }
        ensures ready { is_numbered ticket.old ≡ false → self.new ≡ self.old }
        ensures spent { E.spare env.old ≤ E.spare env.new + (S.most + S.most) }
        ensures callable { S.callable self.new.inner }
        ensures counts { CountsPoll (S.refusals self.old.inner + self.old.refusals) (S.refusals self.new.inner + self.new.refusals) ticket.old ticket.new }
    {
        let number = match ticket {
            Ticket::Ready(held) => return Poll::Ready(copy_of(held)),
            Ticket::Numbered(number) => *number,
        };
        let polled = self.poll_numbered(env, number, task);
        settle(ticket, polled)
    }

    fn end_ticket(&mut self, ticket: Ticket)
        requires callable { S.callable self.old.inner }
        ensures gives { GivesUp ⟦<S as Storage>⟧ ticket (delayed_of self.old) (delayed_of self.new) }
        ensures ready { is_numbered ticket ≡ false → self.new ≡ self.old }
        ensures callable { S.callable self.new.inner }
        ensures counts { S.refusals self.old.inner + self.old.refusals ≤ S.refusals self.new.inner + self.new.refusals }
    {
        match ticket {
            Ticket::Ready(_) => {}
            Ticket::Numbered(number) => self.give_up_numbered(number),
        }
    }
}

impl<S: Storage> Storage for DelayedSyncContext<S> {
    type Blob = DelayedSyncBlob;

    ghost use Rattle.std.specs.Prelude.{◌≡◌, ◌+◌, ◌&&◌, Some, false};
    ghost use Rattle.std.proofs.Common.{sym};
    ghost use Rattle.rt_buffer.specs.Calls.{IsOpen, IsOpenVersioned, IsRead, IsResize};
    ghost use Rattle.rt_buffer.specs.Delayed.{GivesUp, LetsGo, OnBlob, Opens, Polls, Starts, Syncs, Writes, blob_at, moved};
    ghost use Rattle.rt_buffer.specs.DelayedBytes.{delayed_apart, delayed_bytes, delayed_left, delayed_of, delayed_opened, delayed_promised};
    ghost use Rattle.rt_store.specs.Answered.{is_numbered};

    ghost callable = { λ s. S.callable s.inner };

    ghost refusals = { λ s. S.refusals s.inner + s.refusals };

    ghost bytes = { λ s k. delayed_bytes ⟦<S as Storage>⟧ (delayed_of s) k.number };

    ghost left = { λ s k. delayed_left ⟦<S as Storage>⟧ (delayed_of s) k.number };

    ghost promised = { λ s t k. delayed_promised ⟦<S as Storage>⟧ (delayed_of s) t k.number };

    ghost apart = { λ s k j. delayed_apart ⟦<S as Storage>⟧ (delayed_of s) k.number j.number };

    ghost opened = { λ s k. delayed_opened ⟦<S as Storage>⟧ (delayed_of s) k.number };

    ghost both_ways = { λ s k j far. (λ same. far.0 (sym same), λ a b at_j at_k. S.both_ways s.inner b a (far.1 b a at_k at_j)) };

    ghost most = { S.most + S.most };

    ghost per_range = { S.per_range };

    ghost opens_versioned = { λ s p n versions r t x. Opens (λ low. IsOpenVersioned ⟦<S as Storage>⟧ s.inner p n versions low) (λ b a. (b, a.1, a.2)) (λ a. a.0.number) (delayed_of s) r (delayed_of t) x };

    ghost opens = { λ s p n r t x. Opens (λ low. IsOpen ⟦<S as Storage>⟧ s.inner p n low) (λ b a. (b, a.1)) (λ a. a.0.number) (delayed_of s) r (delayed_of t) x };

    ghost removes = { λ s p n r t x. S.removes s.inner p n r t.inner x × ((delayed_of t) ≡ moved (delayed_of s) t.inner) };

    ghost scans = { λ s p r t x. S.scans s.inner p r t.inner x × ((delayed_of t) ≡ moved (delayed_of s) t.inner) };

    ghost reads = { λ s k offset len options r t x. OnBlob (λ b. IsRead ⟦<S as Storage>⟧ s.inner b offset len options) (blob_at s.blobs.items k.number) (delayed_of s) r (delayed_of t) x };

    ghost reads_into = { λ s k offset len bufs options r t x. OnBlob (λ b. S.reads_into s.inner b offset len bufs options) (blob_at s.blobs.items k.number) (delayed_of s) r (delayed_of t) x };

    ghost reads_many = { λ s k ranges options r t x. OnBlob (λ b. S.reads_many s.inner b ranges options) (blob_at s.blobs.items k.number) (delayed_of s) r (delayed_of t) x };

    ghost reads_in_order = { λ s k ranges options r t x. OnBlob (λ b. S.reads_in_order s.inner b ranges options) (blob_at s.blobs.items k.number) (delayed_of s) r (delayed_of t) x };

    ghost writes = { λ s k offset bufs options r t x. Writes ⟦<S as Storage>⟧ k.number (blob_at s.blobs.items k.number) (options.sync && s.pending.is_armed) offset bufs options (delayed_of s) r (delayed_of t) x };

    ghost resizes = { λ s k len r t x. OnBlob (λ b. IsResize ⟦<S as Storage>⟧ s.inner b len) (blob_at s.blobs.items k.number) (delayed_of s) r (delayed_of t) x };

    ghost syncs = { λ s k r t x. Syncs ⟦<S as Storage>⟧ k.number (blob_at s.blobs.items k.number) (delayed_of s) r (delayed_of t) x };

    ghost starts_sync = { λ s k r t x. Starts k.number (blob_at s.blobs.items k.number) (delayed_of s) r (delayed_of t) x };

    ghost polls_sync = { λ s ticket task p t u x. Polls ⟦<S as Storage>⟧ task ticket (delayed_of s) p (delayed_of t) u x × (is_numbered ticket ≡ false → t ≡ s) };

    ghost gives_sync_up = { λ s ticket t. GivesUp ⟦<S as Storage>⟧ ticket (delayed_of s) (delayed_of t) × (is_numbered ticket ≡ false → t ≡ s) };

    ghost closes = { λ s k t. LetsGo ⟦<S as Storage>⟧ (Some k.number) (delayed_of s) (delayed_of t) };

    #[tactic(auto, using(crate::proofs::Holding::twice_room))]
    fn take_room<E: Env>(
        env: &mut E,
        calls: usize,
        ranges: usize,
        more: usize,
    ) -> Result<(), NoMemory> {
        let Some(twice) = calls.checked_mul(2) else {
            return Err(NoMemory);
        };
        S::take_room(env, twice, ranges, more)?;
        Ok(())
    }

    fn open_versioned<E: Env>(
        &mut self,
        env: &mut E,
        partition: &str,
        name: &[u8],
        versions: (BlobVersion, BlobVersion),
    ) -> Result<(DelayedSyncBlob, u64, BlobVersion), Error> {
        self.open_with(env, partition, name, versions)
    }

    fn open<E: Env>(
        &mut self,
        env: &mut E,
        partition: &str,
        name: &[u8],
    ) -> Result<(DelayedSyncBlob, u64), Error> {
        self.open_blob(env, partition, name)
    }

    fn remove<E: Env>(
        &mut self,
        env: &mut E,
        partition: &str,
        name: Option<&[u8]>,
    ) -> Result<(), Error> {
        self.inner.remove(env, partition, name)
    }

    fn scan<E: Env>(&mut self, env: &mut E, partition: &str) -> Result<Vec<Vec<u8>>, Error> {
        self.inner.scan(env, partition)
    }

    fn read_at<E: Env>(
        &mut self,
        env: &mut E,
        blob: &DelayedSyncBlob,
        offset: u64,
        len: usize,
        options: ReadOptions,
    ) -> Result<IoBufsMut, Error> {
        self.read_blob(env, blob, offset, len, options)
    }

    fn read_at_buf<E: Env>(
        &mut self,
        env: &mut E,
        blob: &DelayedSyncBlob,
        offset: u64,
        len: usize,
        bufs: IoBufsMut,
        options: ReadOptions,
    ) -> Result<IoBufsMut, Error> {
        match inner_of(self.blobs.as_slice(), blob.number) {
            Some(inner) => self
                .inner
                .read_at_buf(env, inner, offset, len, bufs, options),
            None => Err(unknown(&mut self.refusals)),
        }
    }

    fn read_many<E: Env>(
        &mut self,
        env: &mut E,
        blob: &DelayedSyncBlob,
        ranges: &[(u64, usize)],
        options: ReadOptions,
    ) -> Result<Vec<(usize, IoBufsMut)>, Error> {
        match inner_of(self.blobs.as_slice(), blob.number) {
            Some(inner) => self.inner.read_many(env, inner, ranges, options),
            None => Err(unknown(&mut self.refusals)),
        }
    }

    fn start_read_many<E: Env>(
        &mut self,
        env: &mut E,
        blob: &DelayedSyncBlob,
        ranges: &[(u64, usize)],
        options: ReadOptions,
    ) -> Result<Vec<IoBufsMut>, Error> {
        match inner_of(self.blobs.as_slice(), blob.number) {
            Some(inner) => self.inner.start_read_many(env, inner, ranges, options),
            None => Err(unknown(&mut self.refusals)),
        }
    }

    fn write_at<E: Env>(
        &mut self,
        env: &mut E,
        blob: &DelayedSyncBlob,
        offset: u64,
        bufs: IoBufs,
        options: WriteOptions,
    ) -> Result<Done, Error> {
        self.write_blob(env, blob, offset, bufs, options)
    }

    fn resize<E: Env>(
        &mut self,
        env: &mut E,
        blob: &DelayedSyncBlob,
        len: u64,
    ) -> Result<(), Error> {
        self.resize_blob(env, blob, len)
    }

    fn sync<E: Env>(&mut self, env: &mut E, blob: &DelayedSyncBlob) -> Result<Done, Error> {
        self.sync_blob(env, blob)
    }

    fn start_sync<E: Env>(&mut self, env: &mut E, blob: &DelayedSyncBlob) -> Result<Ticket, Error> {
        self.start_blob(env, blob)
    }

    fn poll_sync<E: Env>(
        &mut self,
        env: &mut E,
        ticket: &mut Ticket,
        task: u64,
    ) -> Poll<Result<(), Error>> {
        self.poll_ticket(env, ticket, task)
    }

    fn give_up_sync(&mut self, ticket: Ticket) {
        self.end_ticket(ticket);
    }

    fn close(&mut self, blob: DelayedSyncBlob) {
        let DelayedSyncBlob { number } = blob;
        self.let_go(Some(number));
    }
}
