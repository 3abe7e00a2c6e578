// The network, by what each call may return, leave and note.
//
// Code over any `N: Network` is proved from this trait alone. There is one relation for each call, over the network
// and the token before it, the arguments, the answer, the network and the token after it, and what the call noted in
// the environment. So a wrapper states its own relations by those of what it wraps.
ghost use Rattle.std.specs.Prelude.{◌≡◌, ◌≢◌, ◌<◌, ◌≤◌, ◌+◌, ◌^◌, ℕ, true, false, List, Option, Result, OnOk, IfOk, IfSome, IfNone, slice_get, drop, ⊤};
ghost use Rattle.rt_base.specs.declared.addr.Addr.{Addr};
ghost use Rattle.rt_base.specs.declared.error.Error.{Error};
ghost use Rattle.rt_base.specs.declared.poll.Poll.{Poll};
ghost use Rattle.rt_base.specs.Noted.{Noted};
ghost use Rattle.rt_bufs.specs.Chunked.{Chunked};
ghost use Rattle.rt_net.specs.declared.reply.Reply.{Reply};
ghost use Rattle.rt_net.specs.Asked.{HasLength, AreThere};
ghost use Rattle.rt_base.specs.Counted.{Counts, Notes};
ghost use Rattle.rt_net.specs.Waiting.{is_pending, still_waits, waits, waits_on, AreIdle, TakesIdle};

use crate::{Accepting, Receiving, Reply, Sending};
use rt_base::{Addr, Env, Error, NoMemory, Poll};
use rt_bufs::{IoBuf, IoBufs};

/// The type of a network's sinks, from which bytes are sent.
pub type SinkOf<N> = <N as Network>::Sink;

/// The type of a network's streams, at which bytes are received.
pub type StreamOf<N> = <N as Network>::Stream;

/// The type of a network's listeners.
pub type ListenerOf<N> = <N as Network>::Listener;

/// A network: listeners, and channels whose two halves are tokens that must be spent. `task` is the number of the task
/// that calls, which waits where the answer is pending. Calls are made where the network is `callable`, and leave it so.
///
/// Errors are given as the network in memory (`Net`) has them. Beside these, a call is refused with `UnknownToken` where
/// no live object here has the token's number, and with `NoMemory` where it is out of memory; neither changes a channel or
/// a listener.
pub trait Network {
    type Listener: Accepting;

    type Sink: Sending;

    type Stream: Receiving;

    // Whether calls may be made at all: always, where an `impl` doesn't say. Each call asks it and leaves it so. A network
    // that is a part of something larger says by it in which states of the whole calls may be made, and a wrapper passes on
    // that of what it wraps.
    ghost callable: { Self → Type 0 } = { λ _. ⊤ };

    // How many calls were refused for another cause than being out of memory. A network that notes its calls needn't
    // keep the number, since it can be told from these.
    ghost refusals: { Self → ℕ };

    // How many entries of its environment a call uses at most.
    ghost most: { ℕ };

    // How many bytes the `recv` that waits at a stream asked for, so that room for its answer can be taken before a poll.
    // Calls that aren't made at the stream leave it so, save that the closing of a listener may end the wait.
    ghost asked: { Self → Self.Stream → ℕ };

    // How many bytes are there to be received at a stream. A `recv` that isn't refused is pending exactly where it asks for
    // more, so room for an answer needs never be taken for more than these.
    ghost unread: { Self → Self.Stream → ℕ };

    // The tasks that the last closing of a listener woke and that were not returned yet. Each `next_woken` takes the first
    // of them, so that a loop over them ends, and no other call but a closing changes them.
    ghost woken: { Self → List ℕ };

    ghost sends: { Self → Self.Sink → Chunked → ℕ → Reply (Result (Poll Unit) Error) → Self → Self.Sink → List Noted → Type 0 };

    ghost polls_send: { Self → Self.Sink → ℕ → Result (Poll Unit) Error → Self → Self.Sink → List Noted → Type 0 };

    ghost receives: { Self → Self.Stream → ℕ → ℕ → Result (Reply (Poll Chunked)) Error → Self → Self.Stream → List Noted → Type 0 };

    ghost polls_recv: { Self → Self.Stream → ℕ → Result (Poll Chunked) Error → Self → Self.Stream → List Noted → Type 0 };

    ghost peeks: { Self → Self.Stream → ℕ → Result (List ℕ) Error → Self → List Noted → Type 0 };

    ghost gives_send_up: { Self → Self.Sink → Self → Self.Sink → Type 0 };

    ghost gives_recv_up: { Self → Self.Stream → Self → Self.Stream → Type 0 };

    ghost closes_sink: { Self → Self.Sink → Option ℕ → Self → Type 0 };

    ghost closes_stream: { Self → Self.Stream → Option ℕ → Self → Type 0 };

    ghost binds: { Self → Addr → Result Self.Listener Error → Self → List Noted → Type 0 };

    ghost dials: { Self → Addr → Result (Reply (Self.Sink × Self.Stream)) Error → Self → List Noted → Type 0 };

    ghost accepts: { Self → Self.Listener → ℕ → Result (Poll (Addr × Self.Sink × Self.Stream)) Error → Self → Self.Listener → List Noted → Type 0 };

    ghost polls_accept: { Self → Self.Listener → ℕ → Result (Poll (Addr × Self.Sink × Self.Stream)) Error → Self → Self.Listener → List Noted → Type 0 };

    ghost has_address: { Self → Self.Listener → Addr → Type 0 };

    ghost gives_accept_up: { Self → Self.Listener → Self → Self.Listener → Type 0 };

    ghost closes_listener: { Self → Self.Listener → Self → Type 0 };

    ghost tells_next: { Self → Self → Type 0 };

    /// Returns how many entries of its environment a call uses at most, or `None` where a `usize` can't say it.
    fn most_entries() -> Option<usize>
        ensures some { IfSome result (λ entries. entries ≡ most) }
        ensures none { IfNone result (2 ^ 64 ≤ most) };

    /// Takes the room in an environment for the entries of one call, and for `more` beside them.
    fn take_room<E: Env>(env: &mut E, more: usize) -> Result<(), NoMemory>
        ensures lasts { (start : E) → E.lasts start env.old → E.lasts start env.new }
        ensures room { OnOk result (most + more ≤ E.spare env.new) }
        ensures kept { E.spare env.old ≤ E.spare env.new }
        ensures noted { E.noted env.new ≡ E.noted env.old };

    /// Sends the bytes, and is pending while more than the buffer size is left in the channel.
    ///
    /// Errors: `Closed` where the sink has failed or a `send` of it was given up, and `SendFailed` where the stream
    /// was closed. After either the sink has failed.
    fn send<E: Env>(
        &mut self,
        env: &mut E,
        sink: &mut Self::Sink,
        bufs: IoBufs,
        task: u64,
    ) -> Reply<Result<Poll<()>, Error>>
        requires callable { callable self.old }
        requires half { Self.Sink.sending sink.old ≡ false }
        ensures lasts { (start : E) → E.lasts start env.old → E.lasts start env.new }
        ensures gives { Notes (E.noted env.old) (λ x. sends self.old sink.old bufs task result self.new sink.new x) (E.noted env.new) }
        ensures spent { E.spare env.old ≤ E.spare env.new + most }
        ensures half { Self.Sink.sending sink.new ≡ is_pending result.value }
        ensures counts { Counts (refusals self.old) (refusals self.new) result.value }
        ensures callable { callable self.new }
        ensures woken { woken self.new ≡ woken self.old }
        ensures waiting { (k : Self.Stream) → asked self.new k ≡ asked self.old k };

    /// Polls a `send` that was pending. A poll that is refused with `NoMemory` or `UnknownToken` leaves it waiting.
    ///
    /// Errors: `SendFailed` where too many bytes are left and the stream was closed. The sink has failed then.
    fn poll_send<E: Env>(
        &mut self,
        env: &mut E,
        sink: &mut Self::Sink,
        task: u64,
    ) -> Result<Poll<()>, Error>
        requires callable { callable self.old }
        requires half { Self.Sink.sending sink.old ≡ true }
        ensures lasts { (start : E) → E.lasts start env.old → E.lasts start env.new }
        ensures gives { Notes (E.noted env.old) (λ x. polls_send self.old sink.old task result self.new sink.new x) (E.noted env.new) }
        ensures spent { E.spare env.old ≤ E.spare env.new + most }
        ensures half { Self.Sink.sending sink.new ≡ still_waits result }
        ensures counts { Counts (refusals self.old) (refusals self.new) result }
        ensures callable { callable self.new }
        ensures woken { woken self.new ≡ woken self.old }
        ensures waiting { (k : Self.Stream) → asked self.new k ≡ asked self.old k };

    /// Receives `len` bytes, neither more nor fewer, and is pending where they aren't there.
    ///
    /// Errors: `Closed` where the stream has failed or a `recv` of it was given up, and `RecvFailed` where bytes are
    /// missing and the sink has failed or was closed. After `RecvFailed` the stream has failed.
    fn recv<E: Env>(
        &mut self,
        env: &mut E,
        stream: &mut Self::Stream,
        len: usize,
        task: u64,
    ) -> Result<Reply<Poll<IoBufs>>, Error>
        requires callable { callable self.old }
        requires half { Self.Stream.receiving stream.old ≡ false }
        ensures lasts { (start : E) → E.lasts start env.old → E.lasts start env.new }
        ensures gives { Notes (E.noted env.old) (λ x. receives self.old stream.old len task result self.new stream.new x) (E.noted env.new) }
        ensures spent { E.spare env.old ≤ E.spare env.new + most }
        ensures half { Self.Stream.receiving stream.new ≡ waits result }
        ensures length { IfOk result (λ r. HasLength len r.value) }
        ensures there { IfOk result (λ r. AreThere len (unread self.old stream.old) r.value) }
        ensures asked { waits result ≡ true → asked self.new stream.new ≡ len }
        ensures counts { Counts (refusals self.old) (refusals self.new) result }
        ensures callable { callable self.new }
        ensures woken { woken self.new ≡ woken self.old }
        ensures waiting { (k : Self.Stream) → Self.Stream.place k ≢ Self.Stream.place stream.old → asked self.new k ≡ asked self.old k };

    /// Polls a `recv` that was pending, which receives as many bytes as it asked for. A poll that is refused with
    /// `NoMemory` or `UnknownToken` leaves it waiting.
    ///
    /// Errors: `RecvFailed` where bytes are missing and the sink has failed or was closed. The stream has failed
    /// then.
    fn poll_recv<E: Env>(
        &mut self,
        env: &mut E,
        stream: &mut Self::Stream,
        task: u64,
    ) -> Result<Poll<IoBufs>, Error>
        requires callable { callable self.old }
        requires half { Self.Stream.receiving stream.old ≡ true }
        ensures lasts { (start : E) → E.lasts start env.old → E.lasts start env.new }
        ensures gives { Notes (E.noted env.old) (λ x. polls_recv self.old stream.old task result self.new stream.new x) (E.noted env.new) }
        ensures spent { E.spare env.old ≤ E.spare env.new + most }
        ensures half { Self.Stream.receiving stream.new ≡ still_waits result }
        ensures length { IfOk result (HasLength (asked self.old stream.old)) }
        ensures there { IfOk result (AreThere (asked self.old stream.old) (unread self.old stream.old)) }
        ensures asked { still_waits result ≡ true → asked self.new stream.new ≡ asked self.old stream.old }
        ensures counts { Counts (refusals self.old) (refusals self.new) result }
        ensures callable { callable self.new }
        ensures woken { woken self.new ≡ woken self.old }
        ensures waiting { (k : Self.Stream) → Self.Stream.place k ≢ Self.Stream.place stream.old → asked self.new k ≡ asked self.old k };

    /// Returns how many bytes the `recv` that waits at the stream asked for. It takes no memory.
    fn asked_len(&self, stream: &Self::Stream) -> usize
        ensures { result ≡ asked self.now stream.now };

    /// Returns how many bytes are there to be received at the stream, and 0 where no live stream has the token's number. It
    /// takes no memory.
    fn unread_len(&self, stream: &Self::Stream) -> usize
        ensures { result ≡ unread self.now stream.now };

    /// Returns a copy of the first bytes that the stream holds, at most `max_len`, and leaves them there.
    fn peek<E: Env>(
        &mut self,
        env: &mut E,
        stream: &Self::Stream,
        max_len: usize,
    ) -> Result<IoBuf, Error>
        requires { callable self.old }
        ensures lasts { (start : E) → E.lasts start env.old → E.lasts start env.new }
        ensures gives { Notes (E.noted env.old) (λ x. peeks self.old stream.now max_len result self.new x) (E.noted env.new) }
        ensures spent { E.spare env.old ≤ E.spare env.new + most }
        ensures counts { Counts (refusals self.old) (refusals self.new) result }
        ensures callable { callable self.new }
        ensures woken { woken self.new ≡ woken self.old }
        ensures waiting { (k : Self.Stream) → asked self.new k ≡ asked self.old k };

    /// Gives up the `send` that waits at the sink, if any; the next `send` is refused with `Closed` then. It takes no
    /// memory.
    fn give_up_send(&mut self, sink: &mut Self::Sink)
        requires { callable self.old }
        ensures gives { gives_send_up self.old sink.old self.new sink.new }
        ensures half { Self.Sink.sending sink.new ≡ false }
        ensures counts { refusals self.old ≤ refusals self.new }
        ensures callable { callable self.new }
        ensures woken { woken self.new ≡ woken self.old }
        ensures waiting { (k : Self.Stream) → asked self.new k ≡ asked self.old k };

    /// Gives up the `recv` that waits at the stream, if any; the next `recv` is refused with `Closed` then. It takes
    /// no memory.
    fn give_up_recv(&mut self, stream: &mut Self::Stream)
        requires { callable self.old }
        ensures gives { gives_recv_up self.old stream.old self.new stream.new }
        ensures half { Self.Stream.receiving stream.new ≡ false }
        ensures counts { refusals self.old ≤ refusals self.new }
        ensures callable { callable self.new }
        ensures woken { woken self.new ≡ woken self.old }
        ensures waiting { (k : Self.Stream) → Self.Stream.place k ≢ Self.Stream.place stream.old → asked self.new k ≡ asked self.old k };

    /// Closes the sink, and returns the task that this wakes, if any. It takes no memory.
    fn close_sink(&mut self, sink: Self::Sink) -> Option<u64>
        requires { callable self.old }
        ensures gives { closes_sink self.old sink result self.new }
        ensures counts { refusals self.old ≤ refusals self.new }
        ensures callable { callable self.new }
        ensures woken { woken self.new ≡ woken self.old }
        ensures waiting { (k : Self.Stream) → asked self.new k ≡ asked self.old k };

    /// Closes the stream, and returns the task that this wakes, if any. It takes no memory.
    fn close_stream(&mut self, stream: Self::Stream) -> Option<u64>
        requires { callable self.old }
        ensures gives { closes_stream self.old stream result self.new }
        ensures counts { refusals self.old ≤ refusals self.new }
        ensures callable { callable self.new }
        ensures woken { woken self.new ≡ woken self.old }
        ensures waiting { (k : Self.Stream) → Self.Stream.place k ≢ Self.Stream.place stream → asked self.new k ≡ asked self.old k };

    /// Makes a listener at an address.
    ///
    /// Errors: `BindFailed` where the address is one that dialers have, or was bound before, even if that listener
    /// was closed.
    fn bind<E: Env>(&mut self, env: &mut E, socket: Addr) -> Result<Self::Listener, Error>
        requires { callable self.old }
        ensures lasts { (start : E) → E.lasts start env.old → E.lasts start env.new }
        ensures gives { Notes (E.noted env.old) (λ x. binds self.old socket result self.new x) (E.noted env.new) }
        ensures spent { E.spare env.old ≤ E.spare env.new + most }
        ensures half { IfOk result (λ l. Self.Listener.accepting l ≡ false) }
        ensures counts { Counts (refusals self.old) (refusals self.new) result }
        ensures callable { callable self.new }
        ensures woken { woken self.new ≡ woken self.old }
        ensures waiting { (k : Self.Stream) → asked self.new k ≡ asked self.old k };

    /// Connects to the listener at an address, and returns the dialer's halves of the two new channels.
    ///
    /// Errors: `PortsExhausted` where every port of a dialer is used up, and `ConnectionFailed` where no listener is
    /// alive at the address. The latter uses up a port too.
    fn dial<E: Env>(
        &mut self,
        env: &mut E,
        socket: Addr,
    ) -> Result<Reply<(Self::Sink, Self::Stream)>, Error>
        requires { callable self.old }
        ensures lasts { (start : E) → E.lasts start env.old → E.lasts start env.new }
        ensures gives { Notes (E.noted env.old) (λ x. dials self.old socket result self.new x) (E.noted env.new) }
        ensures spent { E.spare env.old ≤ E.spare env.new + most }
        ensures half { AreIdle Self.Sink.sending Self.Stream.receiving result }
        ensures counts { Counts (refusals self.old) (refusals self.new) result }
        ensures callable { callable self.new }
        ensures woken { woken self.new ≡ woken self.old }
        ensures waiting { (k : Self.Stream) → asked self.new k ≡ asked self.old k };

    /// Takes the next connection of a listener, with the address that it was dialed from, and is pending where none
    /// waits. It may be made while one is started.
    fn accept<E: Env>(
        &mut self,
        env: &mut E,
        listener: &mut Self::Listener,
        task: u64,
    ) -> Result<Poll<(Addr, Self::Sink, Self::Stream)>, Error>
        requires { callable self.old }
        ensures lasts { (start : E) → E.lasts start env.old → E.lasts start env.new }
        ensures gives { Notes (E.noted env.old) (λ x. accepts self.old listener.old task result self.new listener.new x) (E.noted env.new) }
        ensures spent { E.spare env.old ≤ E.spare env.new + most }
        ensures half { Self.Listener.accepting listener.new ≡ waits_on (Self.Listener.accepting listener.old) result }
        ensures halves { TakesIdle Self.Sink.sending Self.Stream.receiving result }
        ensures counts { Counts (refusals self.old) (refusals self.new) result }
        ensures callable { callable self.new }
        ensures woken { woken self.new ≡ woken self.old }
        ensures waiting { (k : Self.Stream) → asked self.new k ≡ asked self.old k };

    /// Polls an `accept` that was pending.
    fn poll_accept<E: Env>(
        &mut self,
        env: &mut E,
        listener: &mut Self::Listener,
        task: u64,
    ) -> Result<Poll<(Addr, Self::Sink, Self::Stream)>, Error>
        requires { callable self.old }
        ensures lasts { (start : E) → E.lasts start env.old → E.lasts start env.new }
        ensures gives { Notes (E.noted env.old) (λ x. polls_accept self.old listener.old task result self.new listener.new x) (E.noted env.new) }
        ensures spent { E.spare env.old ≤ E.spare env.new + most }
        ensures half { Self.Listener.accepting listener.new ≡ waits_on (Self.Listener.accepting listener.old) result }
        ensures halves { TakesIdle Self.Sink.sending Self.Stream.receiving result }
        ensures counts { Counts (refusals self.old) (refusals self.new) result }
        ensures callable { callable self.new }
        ensures woken { woken self.new ≡ woken self.old }
        ensures waiting { (k : Self.Stream) → asked self.new k ≡ asked self.old k };

    /// Returns the address that the listener was bound at. It takes no memory.
    fn local_addr(&self, listener: &Self::Listener) -> Addr
        ensures { has_address self.now listener.now result };

    /// Gives up the `accept` that is started at the listener, if any. A connection that came for it stays. It takes no
    /// memory.
    fn give_up_accept(&mut self, listener: &mut Self::Listener)
        requires { callable self.old }
        ensures gives { gives_accept_up self.old listener.old self.new listener.new }
        ensures half { Self.Listener.accepting listener.new ≡ false }
        ensures counts { refusals self.old ≤ refusals self.new }
        ensures callable { callable self.new }
        ensures woken { woken self.new ≡ woken self.old }
        ensures waiting { (k : Self.Stream) → asked self.new k ≡ asked self.old k };

    /// Closes the listener and the connections that wait at it. `next_woken` then returns the tasks that this wakes,
    /// in place of those of an earlier closing. It takes no memory.
    fn close_listener(&mut self, listener: Self::Listener)
        requires { callable self.old }
        ensures gives { closes_listener self.old listener self.new }
        ensures counts { refusals self.old ≤ refusals self.new }
        ensures callable { callable self.new }
        ensures waiting { (k : Self.Stream) → 0 < asked self.new k → asked self.new k ≡ asked self.old k };

    /// Returns the next task that the last closing of a listener woke, each of them once. It takes no memory.
    fn next_woken(&mut self) -> Option<u64>
        requires { callable self.old }
        ensures gives { tells_next self.old self.new }
        ensures first { result ≡ slice_get (woken self.old) 0 }
        ensures rest { woken self.new ≡ drop 1 (woken self.old) }
        ensures counts { refusals self.old ≤ refusals self.new }
        ensures callable { callable self.new }
        ensures waiting { (k : Self.Stream) → asked self.new k ≡ asked self.old k };
}
