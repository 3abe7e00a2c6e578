//! A network over any other. It notes an event where a `bind`, `dial`, `accept`, `send` or `recv` starts and where it ends,
//! though none where it was out of memory, counts bytes, and has tokens of its own, which know the other end's address. The
//! event of a receive has the bytes that came. All room is taken before the inner call. It is proved from the trait alone.

ghost use Rattle.std.specs.Prelude.{◌≡◌, ◌+◌, ◌*◌, ◌≤◌, ◌<◌, IfOk, OnOk, OnErr, ◌∷◌, ◌++◌, [], length, vec_capacity};
ghost use Rattle.rt_base.specs.Noted.{Adds, Happened};
ghost use Rattle.rt_net.specs.Asked.{HasLength};
ghost use Rattle.rt_fixtures.specs.Noting.{named, refusal, ending, closing_event, receipt, count_if_ok, bytes_in, with_taken, KnowDialer};

use rt_base::{Addr, Env, Error, Event, Items, NoMemory, Poll, Text};
use rt_bufs::{IoBuf, IoBufs};
use rt_net::{Accepting, Network, Receiving, Reply, Sending};
use std::alloc::Global;

pub struct Noting<N> {
    pub inner: N,
    pub alloc: Global,
    pub sent: u64,
    pub received: u64,
}

pub struct NotingSink<S> {
    pub inner: S,
    pub remote: Addr,
}

pub struct NotingStream<S> {
    pub inner: S,
    pub remote: Addr,
}

pub struct NotingListener<L> {
    pub inner: L,
    pub local: Addr,
}

impl<S: Sending> Sending for NotingSink<S> {
    ghost sending = { λ k. S.sending k.inner };

    fn is_sending(&self) -> bool {
        self.inner.is_sending()
    }
}

impl<S: Receiving> Receiving for NotingStream<S> {
    ghost receiving = { λ k. S.receiving k.inner };

    ghost place = { λ k. S.place k.inner };

    fn is_receiving(&self) -> bool {
        self.inner.is_receiving()
    }
}

impl<L: Accepting> Accepting for NotingListener<L> {
    ghost accepting = { λ k. L.accepting k.inner };

    fn is_accepting(&self) -> bool {
        self.inner.is_accepting()
    }
}

/// The events that a call may note at its end.
#[derive(Drop)]
struct Endings {
    success: Event,
    failure: Event,
}

/// The room for the bytes that an event will have.
#[derive(Drop)]
struct Room {
    bytes: Vec<u8>,
    fields: Vec<Items<u8>>,
}

/// An event without fields.
fn event_of(alloc: Global, label: &str) -> Result<Event, NoMemory>
    ensures { IfOk result (λ e. e ≡ named label.now) }
{
    Ok(Event {
        label: Text::of(String::from_str(alloc, label)?),
        fields: Items::of(Vec::new(alloc)),
    })
}

/// The events of an end.
fn endings_of(alloc: Global, success: &str, failure: &str) -> Result<Endings, NoMemory>
    ensures { IfOk result (λ e. (e.success ≡ named success.now) × (e.failure ≡ named failure.now)) }
{
    Ok(Endings {
        success: event_of(alloc, success)?,
        failure: event_of(alloc, failure)?,
    })
}

/// Notes how the call ended, where it did.
fn note_end<E: Env>(env: &mut E, endings: Endings, ended: Option<bool>)
    requires { 0 < E.spare env.old }
    ensures lasts { (start : E) → E.lasts start env.old → E.lasts start env.new }
    ensures noted { Adds (E.noted env.old) (closing_event endings.success endings.failure ended) (E.noted env.new) }
    ensures spent { E.spare env.old ≤ E.spare env.new + 1 }
{
    match ended {
        Some(true) => env.event(endings.success),
        Some(false) => env.event(endings.failure),
        None => {}
    }
}

/// Room for so many bytes.
fn room_for(alloc: Global, len: usize) -> Result<Room, NoMemory>
    ensures empty { IfOk result (λ r. (r.bytes.items ≡ []) × (r.fields.items ≡ [])) }
    ensures room { IfOk result (λ r. (vec_capacity r.bytes ≡ len) × (vec_capacity r.fields ≡ 1)) }
{
    Ok(Room {
        bytes: Vec::with_capacity(alloc, len)?,
        fields: Vec::with_capacity(alloc, 1)?,
    })
}

/// Adds the bytes of all chunks, in the room that was taken.
fn fill(bytes: &mut Vec<u8>, bufs: &IoBufs)
    requires { length bytes.old.items + length bufs.now.bytes ≤ vec_capacity bytes.old }
    ensures { bytes.new.items ≡ bytes.old.items ++ bufs.now.bytes }
{
    for index in 0..bufs.chunk_count() {
        match bytes.extend_from_slice(bufs.chunk_at(index)) {
            Ok(()) => {}
            Err(_) => unreachable!(),
        }
    }
}

/// Notes the bytes that came, where they did, in the room that was taken.
fn note_bytes<E: Env>(env: &mut E, success: Event, room: Room, answer: &Poll<IoBufs>)
    requires spare { 0 < E.spare env.old }
    requires empty { (room.bytes.items ≡ []) × (room.fields.items ≡ []) }
    requires room { HasLength (vec_capacity room.bytes) answer.now × (vec_capacity room.fields ≡ 1) }
    ensures lasts { (start : E) → E.lasts start env.old → E.lasts start env.new }
    ensures noted { Adds (E.noted env.old) (receipt success answer.now) (E.noted env.new) }
    ensures spent { E.spare env.old ≤ E.spare env.new + 1 }
{
    if let Poll::Ready(bufs) = answer {
        let Room {
            mut bytes,
            mut fields,
        } = room;
        fill(&mut bytes, bufs);
        fields.push_reserved(Items::of(bytes));
        env.event(Event {
            label: success.label,
            fields: Items::of(fields),
        });
    }
}

/// A call that was refused has failed, save where it was out of memory.
fn refusal(error: &Error) -> Option<bool>
    ensures { result ≡ refusal error.now }
{
    match error {
        Error::NoMemory => None,
        _ => Some(false),
    }
}

/// Whether the call succeeded, and nothing where it waits or was out of memory.
fn ending<V>(answer: &Result<Poll<V>, Error>) -> Option<bool>
    ensures { result ≡ ending answer.now }
{
    match answer {
        Ok(Poll::Ready(_)) => Some(true),
        Ok(Poll::Pending) => None,
        Err(error) => refusal(error),
    }
}

/// The count of a call that was not refused.
fn count_if_ok<V>(answer: &Result<V, Error>, count: u64) -> u64
    ensures { result ≡ count_if_ok answer.now count }
{
    match answer {
        Ok(_) => count,
        Err(_) => 0,
    }
}

/// How many bytes an answer has.
fn count_of(answer: &Poll<IoBufs>) -> u64
    ensures { result ≡ bytes_in answer.now }
{
    match answer {
        Poll::Ready(bufs) => bufs.len() as u64,
        Poll::Pending => 0,
    }
}

impl<N: Network> Noting<N> {
    /// A wrapper that counted nothing yet.
    pub fn new(alloc: Global, inner: N) -> Noting<N>
        ensures { result.inner ≡ inner }
    {
        Noting {
            inner,
            alloc,
            sent: 0,
            received: 0,
        }
    }

    /// What it wraps, and how many bytes were sent and received.
    pub fn into_parts(self) -> (N, u64, u64)
        ensures { result.0 ≡ self.inner }
    {
        let Noting {
            inner,
            alloc: _,
            sent,
            received,
        } = self;
        (inner, sent, received)
    }

    /// Takes the room of a call, makes its events and notes the first.
    fn begin<E: Env>(
        &self,
        env: &mut E,
        attempt: &str,
        success: &str,
        failure: &str,
    ) -> Result<Endings, NoMemory>
        ensures lasts { (start : E) → E.lasts start env.old → E.lasts start env.new }
        ensures room { OnOk result (N.most + 1 ≤ E.spare env.new) }
        ensures spent { E.spare env.old ≤ E.spare env.new + 1 }
        ensures events { IfOk result (λ e. (e.success ≡ named success.now) × (e.failure ≡ named failure.now)) }
        ensures noted { OnOk result (Adds (E.noted env.old) (Happened (named attempt.now) ∷ []) (E.noted env.new)) }
        ensures refused { OnErr result (E.noted env.new ≡ E.noted env.old) }
    {
        let first = event_of(self.alloc, attempt)?;
        let endings = endings_of(self.alloc, success, failure)?;
        N::take_room(env, 2)?;
        env.event(first);
        Ok(endings)
    }

    /// Takes the room of a poll, and makes its events.
    fn go_on<E: Env>(&self, env: &mut E, success: &str, failure: &str) -> Result<Endings, NoMemory>
        ensures lasts { (start : E) → E.lasts start env.old → E.lasts start env.new }
        ensures room { OnOk result (N.most + 1 ≤ E.spare env.new) }
        ensures kept { E.spare env.old ≤ E.spare env.new }
        ensures events { IfOk result (λ e. (e.success ≡ named success.now) × (e.failure ≡ named failure.now)) }
        ensures noted { E.noted env.new ≡ E.noted env.old }
    {
        let endings = endings_of(self.alloc, success, failure)?;
        N::take_room(env, 1)?;
        Ok(endings)
    }
}

/// Takes the room of so many calls, as a network over another needs that tries again.
pub fn take_room_of_calls<N: Network, E: Env>(env: &mut E, calls: usize) -> Result<(), NoMemory>
    ensures lasts { (start : E) → E.lasts start env.old → E.lasts start env.new }
    ensures room { OnOk result (calls * N.most ≤ E.spare env.new) }
    ensures noted { E.noted env.new ≡ E.noted env.old }
{
    let Some(entries) = N::most_entries() else {
        return Err(NoMemory);
    };
    let Some(all) = calls.checked_mul(entries) else {
        return Err(NoMemory);
    };
    env.reserve(all)
}

impl<N: Network> Network for Noting<N> {
    type Listener = NotingListener<N::Listener>;

    type Sink = NotingSink<N::Sink>;

    type Stream = NotingStream<N::Stream>;

    ghost use Rattle.std.specs.Prelude.{◌≡◌, ◌+◌, ◌⊎◌, codes, List, [], ◌∷◌, ◌++◌, Err, None, IfOk, length};
    ghost use Rattle.rt_base.specs.declared.error.Error.TheVariants.{NoMemory};
    ghost use Rattle.rt_base.specs.Noted.{Noted, Happened};
    ghost use Rattle.rt_fixtures.specs.Noting.{around, followed, ending, outcome, counted_bytes, count_if_ok, receipt_of, receipt_of_reply, count_with, count_with_reply, with_listener, with_halves, with_taken, KnowDialer};

    ghost callable = { λ s. N.callable s.inner };

    ghost refusals = { λ s. N.refusals s.inner };

    ghost most = { N.most + 2 };

    ghost asked = { λ s k. N.asked s.inner k.inner };

    ghost unread = { λ s k. N.unread s.inner k.inner };

    ghost woken = { λ s. N.woken s.inner };

    ghost sends = { λ s k b t r u l x.
        ((y : List Noted) × N.sends s.inner k.inner b t r u.inner l.inner y × (x ≡ around (codes "send_attempt") (codes "send_success") (codes "send_failure") (ending r.value) y) × (l.remote ≡ k.remote) × (u ≡ record s { inner = u.inner; sent = counted_bytes s.sent (count_if_ok r.value (length b.bytes)) }))
        ⊎ ((r.value ≡ Err NoMemory) × (r.wake ≡ None) × (r.link ≡ None) × (u ≡ s) × (l ≡ k) × (x ≡ [])) };

    ghost polls_send = { λ s k t r u l x.
        ((y : List Noted) × N.polls_send s.inner k.inner t r u.inner l.inner y × (x ≡ followed (codes "send_success") (codes "send_failure") (ending r) y) × (l.remote ≡ k.remote) × (u ≡ record s { inner = u.inner }))
        ⊎ ((r ≡ Err NoMemory) × (u ≡ s) × (l ≡ k) × (x ≡ [])) };

    ghost receives = { λ s k n t r u l x.
        ((y : List Noted) × N.receives s.inner k.inner n t r u.inner l.inner y × (x ≡ Happened (named (codes "recv_attempt")) ∷ (y ++ receipt_of_reply r)) × (l.remote ≡ k.remote) × (u ≡ record s { inner = u.inner; received = count_with_reply s.received r }))
        ⊎ ((r ≡ Err NoMemory) × (u ≡ s) × (l ≡ k) × (x ≡ [])) };

    ghost polls_recv = { λ s k t r u l x.
        ((y : List Noted) × N.polls_recv s.inner k.inner t r u.inner l.inner y × (x ≡ y ++ receipt_of r) × (l.remote ≡ k.remote) × (u ≡ record s { inner = u.inner; received = count_with s.received r }))
        ⊎ ((r ≡ Err NoMemory) × (u ≡ s) × (l ≡ k) × (x ≡ [])) };

    ghost peeks = { λ s k n r u x. N.peeks s.inner k.inner n r u.inner x × (u ≡ record s { inner = u.inner }) };

    ghost gives_send_up = { λ s k u l. N.gives_send_up s.inner k.inner u.inner l.inner × (l.remote ≡ k.remote) × (u ≡ record s { inner = u.inner }) };

    ghost gives_recv_up = { λ s k u l. N.gives_recv_up s.inner k.inner u.inner l.inner × (l.remote ≡ k.remote) × (u ≡ record s { inner = u.inner }) };

    ghost closes_sink = { λ s k r u. N.closes_sink s.inner k.inner r u.inner × (u ≡ record s { inner = u.inner }) };

    ghost closes_stream = { λ s k r u. N.closes_stream s.inner k.inner r u.inner × (u ≡ record s { inner = u.inner }) };

    ghost binds = { λ s a r u x.
        ((y : List Noted) × N.binds s.inner a (with_listener r (λ k. k.inner)) u.inner y × (x ≡ around (codes "bind_attempt") (codes "bind_success") (codes "bind_failure") (outcome r) y) × IfOk r (λ k. k.local ≡ a) × (u ≡ record s { inner = u.inner }))
        ⊎ ((r ≡ Err NoMemory) × (u ≡ s) × (x ≡ [])) };

    ghost dials = { λ s a r u x.
        ((y : List Noted) × N.dials s.inner a (with_halves r (λ k. k.inner) (λ k. k.inner)) u.inner y × (x ≡ around (codes "dial_attempt") (codes "dial_success") (codes "dial_failure") (outcome r) y) × IfOk r (λ q. (q.value.0.remote ≡ a) × (q.value.1.remote ≡ a)) × (u ≡ record s { inner = u.inner }))
        ⊎ ((r ≡ Err NoMemory) × (u ≡ s) × (x ≡ [])) };

    ghost accepts = { λ s k t r u l x.
        ((y : List Noted) × N.accepts s.inner k.inner t (with_taken r (λ k. k.inner) (λ k. k.inner)) u.inner l.inner y × (x ≡ around (codes "accept_attempt") (codes "accept_success") (codes "accept_failure") (ending r) y) × KnowDialer r (λ k. k.remote) (λ k. k.remote) × (l.local ≡ k.local) × (u ≡ record s { inner = u.inner }))
        ⊎ ((r ≡ Err NoMemory) × (u ≡ s) × (l ≡ k) × (x ≡ [])) };

    ghost polls_accept = { λ s k t r u l x.
        ((y : List Noted) × N.polls_accept s.inner k.inner t (with_taken r (λ k. k.inner) (λ k. k.inner)) u.inner l.inner y × (x ≡ followed (codes "accept_success") (codes "accept_failure") (ending r) y) × KnowDialer r (λ k. k.remote) (λ k. k.remote) × (l.local ≡ k.local) × (u ≡ record s { inner = u.inner }))
        ⊎ ((r ≡ Err NoMemory) × (u ≡ s) × (l ≡ k) × (x ≡ [])) };

    ghost has_address = { λ s k a. a ≡ k.local };

    ghost gives_accept_up = { λ s k u l. N.gives_accept_up s.inner k.inner u.inner l.inner × (l.local ≡ k.local) × (u ≡ record s { inner = u.inner }) };

    ghost closes_listener = { λ s k u. N.closes_listener s.inner k.inner u.inner × (u ≡ record s { inner = u.inner }) };

    ghost tells_next = { λ s u. N.tells_next s.inner u.inner × (u ≡ record s { inner = u.inner }) };

    fn most_entries() -> Option<usize> {
        N::most_entries()?.checked_add(2)
    }

    fn take_room<E: Env>(env: &mut E, more: usize) -> Result<(), NoMemory> {
        match more.checked_add(2) {
            Some(all) => N::take_room(env, all),
            None => Err(NoMemory),
        }
    }

    fn send<E: Env>(
        &mut self,
        env: &mut E,
        sink: &mut NotingSink<N::Sink>,
        bufs: IoBufs,
        task: u64,
    ) -> Reply<Result<Poll<()>, Error>> {
        let Ok(endings) = self.begin(env, "send_attempt", "send_success", "send_failure") else {
            return Reply {
                value: Err(Error::NoMemory),
                wake: None,
                link: None,
            };
        };
        let count = bufs.len() as u64;
        let reply = self.inner.send(env, &mut sink.inner, bufs, task);
        self.sent = self.sent.wrapping_add(count_if_ok(&reply.value, count));
        note_end(env, endings, ending(&reply.value));
        reply
    }

    fn poll_send<E: Env>(
        &mut self,
        env: &mut E,
        sink: &mut NotingSink<N::Sink>,
        task: u64,
    ) -> Result<Poll<()>, Error> {
        let endings = self.go_on(env, "send_success", "send_failure")?;
        let answer = self.inner.poll_send(env, &mut sink.inner, task);
        note_end(env, endings, ending(&answer));
        answer
    }

    fn recv<E: Env>(
        &mut self,
        env: &mut E,
        stream: &mut NotingStream<N::Stream>,
        len: usize,
        task: u64,
    ) -> Result<Reply<Poll<IoBufs>>, Error> {
        let room = room_for(self.alloc, len)?;
        let endings = self.begin(env, "recv_attempt", "recv_success", "recv_failure")?;
        match self.inner.recv(env, &mut stream.inner, len, task) {
            Ok(reply) => {
                self.received = self.received.wrapping_add(count_of(&reply.value));
                note_bytes(env, endings.success, room, &reply.value);
                Ok(reply)
            }
            Err(error) => {
                note_end(env, endings, refusal(&error));
                Err(error)
            }
        }
    }

    fn poll_recv<E: Env>(
        &mut self,
        env: &mut E,
        stream: &mut NotingStream<N::Stream>,
        task: u64,
    ) -> Result<Poll<IoBufs>, Error> {
        let room = room_for(self.alloc, self.inner.asked_len(&stream.inner))?;
        let endings = self.go_on(env, "recv_success", "recv_failure")?;
        match self.inner.poll_recv(env, &mut stream.inner, task) {
            Ok(answer) => {
                self.received = self.received.wrapping_add(count_of(&answer));
                note_bytes(env, endings.success, room, &answer);
                Ok(answer)
            }
            Err(error) => {
                note_end(env, endings, refusal(&error));
                Err(error)
            }
        }
    }

    fn asked_len(&self, stream: &NotingStream<N::Stream>) -> usize {
        self.inner.asked_len(&stream.inner)
    }

    fn unread_len(&self, stream: &NotingStream<N::Stream>) -> usize {
        self.inner.unread_len(&stream.inner)
    }

    fn peek<E: Env>(
        &mut self,
        env: &mut E,
        stream: &NotingStream<N::Stream>,
        max_len: usize,
    ) -> Result<IoBuf, Error> {
        self.inner.peek(env, &stream.inner, max_len)
    }

    fn give_up_send(&mut self, sink: &mut NotingSink<N::Sink>) {
        self.inner.give_up_send(&mut sink.inner)
    }

    fn give_up_recv(&mut self, stream: &mut NotingStream<N::Stream>) {
        self.inner.give_up_recv(&mut stream.inner)
    }

    fn close_sink(&mut self, sink: NotingSink<N::Sink>) -> Option<u64> {
        let NotingSink { inner, remote: _ } = sink;
        self.inner.close_sink(inner)
    }

    fn close_stream(&mut self, stream: NotingStream<N::Stream>) -> Option<u64> {
        let NotingStream { inner, remote: _ } = stream;
        self.inner.close_stream(inner)
    }

    fn bind<E: Env>(
        &mut self,
        env: &mut E,
        socket: Addr,
    ) -> Result<NotingListener<N::Listener>, Error> {
        let endings = self.begin(env, "bind_attempt", "bind_success", "bind_failure")?;
        match self.inner.bind(env, socket) {
            Ok(inner) => {
                note_end(env, endings, Some(true));
                Ok(NotingListener {
                    inner,
                    local: socket,
                })
            }
            Err(error) => {
                note_end(env, endings, refusal(&error));
                Err(error)
            }
        }
    }

    fn dial<E: Env>(
        &mut self,
        env: &mut E,
        socket: Addr,
    ) -> Result<Reply<(NotingSink<N::Sink>, NotingStream<N::Stream>)>, Error> {
        let endings = self.begin(env, "dial_attempt", "dial_success", "dial_failure")?;
        match self.inner.dial(env, socket) {
            Ok(reply) => {
                note_end(env, endings, Some(true));
                Ok(with_remote(reply, socket))
            }
            Err(error) => {
                note_end(env, endings, refusal(&error));
                Err(error)
            }
        }
    }

    fn accept<E: Env>(
        &mut self,
        env: &mut E,
        listener: &mut NotingListener<N::Listener>,
        task: u64,
    ) -> Result<Poll<(Addr, NotingSink<N::Sink>, NotingStream<N::Stream>)>, Error> {
        let endings = self.begin(env, "accept_attempt", "accept_success", "accept_failure")?;
        let answer = taken(self.inner.accept(env, &mut listener.inner, task));
        note_end(env, endings, ending(&answer));
        answer
    }

    fn poll_accept<E: Env>(
        &mut self,
        env: &mut E,
        listener: &mut NotingListener<N::Listener>,
        task: u64,
    ) -> Result<Poll<(Addr, NotingSink<N::Sink>, NotingStream<N::Stream>)>, Error> {
        let endings = self.go_on(env, "accept_success", "accept_failure")?;
        let answer = taken(self.inner.poll_accept(env, &mut listener.inner, task));
        note_end(env, endings, ending(&answer));
        answer
    }

    fn local_addr(&self, listener: &NotingListener<N::Listener>) -> Addr {
        let _ = &self.alloc;
        listener.local
    }

    fn give_up_accept(&mut self, listener: &mut NotingListener<N::Listener>) {
        self.inner.give_up_accept(&mut listener.inner)
    }

    fn close_listener(&mut self, listener: NotingListener<N::Listener>) {
        let NotingListener { inner, local: _ } = listener;
        self.inner.close_listener(inner)
    }

    fn next_woken(&mut self) -> Option<u64> {
        self.inner.next_woken()
    }
}

/// The halves of a new connection, which know the address that was dialed.
fn with_remote<S, T>(reply: Reply<(S, T)>, remote: Addr) -> Reply<(NotingSink<S>, NotingStream<T>)>
    ensures { result ≡ record { value = (record { inner = reply.value.0; remote = remote }, record { inner = reply.value.1; remote = remote }); wake = reply.wake; link = reply.link } }
{
    let Reply { value, wake, link } = reply;
    let (sink, stream) = value;
    Reply {
        value: (
            NotingSink {
                inner: sink,
                remote,
            },
            NotingStream {
                inner: stream,
                remote,
            },
        ),
        wake,
        link,
    }
}

/// A connection that was taken, whose halves know the dialer's address.
fn taken<S, T>(
    answer: Result<Poll<(Addr, S, T)>, Error>,
) -> Result<Poll<(Addr, NotingSink<S>, NotingStream<T>)>, Error>
    ensures inner { with_taken result (λ k. k.inner) (λ k. k.inner) ≡ answer }
    ensures dialer { KnowDialer result (λ k. k.remote) (λ k. k.remote) }
{
    match answer {
        Ok(Poll::Ready((dialer, sink, stream))) => {
            let sink = NotingSink {
                inner: sink,
                remote: dialer,
            };
            let stream = NotingStream {
                inner: stream,
                remote: dialer,
            };
            Ok(Poll::Ready((dialer, sink, stream)))
        }
        Ok(Poll::Pending) => Ok(Poll::Pending),
        Err(error) => Err(error),
    }
}
