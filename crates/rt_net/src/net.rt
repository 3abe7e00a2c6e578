// The network in memory.
ghost use Rattle.std.specs.Prelude.{◌≡◌, ◌↔◌, ℕ, length, IsTrue, IfOk, IfSome, OnErr, OnOk, Ok, Some, true, false, is_some, slice_get, All, ◌||◌};
ghost use Rattle.std.specs.List.{list_any};
ghost use Rattle.rt_net.specs.Asked.{asked_of};
ghost use Rattle.rt_net.specs.Channel.{ChannelState, AreCounted, IsQuiet};
ghost use Rattle.rt_net.specs.Network.{ListenerState, IsQuietListener, is_waited_at, has_acceptor, waiting_halves, waiting_task, number_at, listener_at, live_listener};
ghost use Rattle.rt_net.specs.Calls.{IsDialerAddress, NetBinds, NetDials, NetAccepts, net_after_bind, net_after_dial, net_after_accept, opened, idle_sink, idle_stream};
ghost use Rattle.rt_net.specs.Kept.{empty_net, moved_to};
ghost use Rattle.rt_base.specs.Counted.{counted, Counts};

use crate::acceptor::Acceptor;
use crate::channels::{close_sink, close_stream, has_sink, has_stream};
use crate::pipe::Pipe;
use crate::reply::{is_pending, waits, waits_on};
use crate::waited::anyone_waits_at;
use crate::{Connection, Listener, Network, Reply, Sink, Stream};
use indexmap::IndexSet;
use rt_base::{Addr, Env, Error, Ip, NoMemory, Poll};
use rt_bufs::{IoBuf, IoBufs};
use std::alloc::Global;
use std::collections::VecDeque;
use std::marker::Model;

/// The address that dialers have.
const LOCALHOST: Ip = Ip::V4([127, 0, 0, 1]);

/// The first port of a dialer.
const FIRST_PORT: u16 = 32768;

/// The port after a dialer's last.
const PORTS_END: u16 = 61000;

/// The buffer size of a channel, in bytes.
pub const DEFAULT_BUFFER_SIZE: usize = 65536;

/// Channels, listeners and connections in memory.
///
/// Contracts see the whole network, with the bytes that were received, though these take no memory, and the count of
/// refusals. A closing of a listener wakes the receiver and then the sender of each connection that waits there, in the
/// order of their dials.
///
/// Errors, each with its cause:
/// - `bind`: `BindFailed` for an address of 127.0.0.1 with a port from 32,768 up to 60,999, and for one that was bound
///   before, even if that listener was closed.
/// - `dial`: `PortsExhausted` after 28,232 dials that were taken or refused with `ConnectionFailed`, and else
///   `ConnectionFailed` where no listener is alive at the address.
/// - `send`: `Closed` where the sink has failed or a `send` of it was given up, and else `SendFailed` where the stream was
///   closed. A poll of it: `SendFailed` where the stream was closed and more than the buffer size is left.
/// - `recv`: `Closed` where the stream has failed or a `recv` of it was given up, and else `RecvFailed` where fewer bytes
///   than asked for are there and the sink has failed or was closed. A poll of it: `RecvFailed` as before.
/// - `UnknownToken` for a half or a listener that isn't alive in this network.
/// - `NoMemory` from `bind`, `dial`, `send`, `recv` and `peek`, where the network is out of memory.
#[derive(Drop)]
pub struct Net {
    channels: Vec<Pipe>,
    listeners: Vec<Acceptor>,
    // In the order of the binds, so that the place of an address is the number of its listener, and each is kept once.
    addresses: IndexSet<Addr>,
    port: u16,
    woken: VecDeque<u64>,
    // It stays at the end of its type; a caller takes it as risen there.
    refusals: u64,
}

impl Model for Net {
    ghost use Rattle.std.specs.Prelude.{◌≡◌, ◌≤◌, length};
    ghost use Rattle.rt_net.specs.Kept.{Kept};

    ghost Value = { Kept };

    ghost view = { λ n. record { state = record { port = n.port; addresses = n.addresses.keys; listeners = n.listeners.items; channels = n.channels.items; woken = n.woken.items }; refusals = n.refusals } };

    ghost invariant = { λ n. (n.port ≤ 61000) × (length n.addresses.keys ≡ length n.listeners.items) };
}

impl Net {
    /// Makes a network without channels and listeners, whose first dialer gets port 32,768. It is never refused.
    pub fn new(alloc: Global) -> Result<Net, NoMemory>
        ensures { result ≡ Ok empty_net }
    {
        Ok(Net {
            channels: Vec::new(alloc),
            listeners: Vec::new(alloc),
            addresses: IndexSet::new(alloc),
            port: FIRST_PORT,
            woken: VecDeque::new(alloc),
            refusals: 0,
        })
    }

    /// Returns the task that waits to receive and the one that waits to send on the channel of this number. Neither
    /// waits for what is there already (`quiet`). Where there is no such channel both are `None`.
    pub fn waiting_halves(&self, number: u64) -> (Option<u64>, Option<u64>)
        ensures tasks { result ≡ waiting_halves (slice_get self.now.state.channels number) }
        ensures quiet { (c : ChannelState) → slice_get self.now.state.channels number ≡ Some c → IsQuiet c }
        ensures counted { (c : ChannelState) → slice_get self.now.state.channels number ≡ Some c → AreCounted c }
    {
        match self.channels.get(number as usize) {
            Some(pipe) => pipe.waiting(),
            None => (None, None),
        }
    }

    /// Returns the task that waits for a connection at the listener of this number, if any. None waits while a
    /// connection is there.
    pub fn waiting_acceptor(&self, number: u64) -> Option<u64>
        ensures task { result ≡ waiting_task (slice_get self.now.state.listeners number) }
        ensures quiet { (l : ListenerState) → slice_get self.now.state.listeners number ≡ Some l → IsQuietListener l }
    {
        match self.listeners.get(number as usize) {
            Some(listener) => listener.waiting(),
            None => None,
        }
    }

    /// Returns whether a task waits at any channel or listener. No task waits for what is there already.
    pub fn anyone_waits(&self) -> bool
        ensures answer { result ≡ (list_any is_waited_at self.now.state.channels || list_any has_acceptor self.now.state.listeners) }
        ensures channels { All IsQuiet self.now.state.channels }
        ensures listeners { All IsQuietListener self.now.state.listeners }
    {
        // Not `||`: what is said of the listeners is known from the walk over them.
        anyone_waits_at(&self.channels) | anyone_waits_at(&self.listeners)
    }

    // The answer of a call, which is counted where it is a refusal.
    fn counted<V>(&mut self, answer: Result<V, Error>) -> Result<V, Error>
        ensures answer { result ≡ answer }
        ensures after { self.new ≡ record self.old { refusals = counted self.old.refusals answer } }
        ensures counts { Counts self.old.refusals self.new.refusals answer }
    {
        match &answer {
            Ok(_) | Err(Error::NoMemory) => {}
            Err(_) => self.refusals = self.refusals.saturating_add(1),
        }
        answer
    }

    // Makes a channel.
    pub(crate) fn open(&mut self, buffer_size: usize) -> Result<(Sink, Stream), NoMemory>
        ensures halves { IfOk result (λ r. r ≡ (idle_sink (length self.old.state.channels), idle_stream (length self.old.state.channels))) }
        ensures made { OnOk result (self.new ≡ moved_to self.old (opened self.old.state buffer_size)) }
        ensures refused { OnErr result (self.new ≡ self.old) }
    {
        self.channels.reserve(1)?;
        let number = self.channels.len() as u64;
        let alloc = *self.channels.allocator();
        self.channels.push_reserved(Pipe::new(alloc, buffer_size));
        Ok((Sink::idle(number), Stream::idle(number)))
    }

    // The number of the listener that was bound at this address, where there is one.
    fn number_of(&self, address: Addr) -> Option<usize>
        ensures { result ≡ number_at self.now.state.addresses address }
    {
        self.addresses.get_index_of(&address)
    }

    // The number of the live listener at this address, where there is one.
    fn live_at(&self, address: Addr) -> Option<usize>
        ensures number { result ≡ listener_at self.now.state address }
        ensures live { IfSome result (λ n. is_some (live_listener self.now.state.listeners n) ≡ true) }
    {
        self.number_of(address)
            .filter(|number| self.has_listener(*number as u64))
    }

    // Whether a live listener has the number.
    fn has_listener(&self, number: u64) -> bool
        ensures { result ≡ is_some (live_listener self.now.state.listeners number) }
    {
        self.listeners
            .get(number as usize)
            .is_some_and(|listener| listener.is_alive())
    }

    // Binds a listener.
    fn listen(&mut self, socket: Addr) -> Result<Listener, Error>
        ensures binds { NetBinds self.old.state socket result }
        ensures after { self.new ≡ moved_to self.old (net_after_bind self.old.state socket result) }
        ensures kept { (self.new.state.channels ≡ self.old.state.channels) × (self.new.state.woken ≡ self.old.state.woken) }
    {
        if is_dialer_address(socket) || self.number_of(socket).is_some() {
            return Err(Error::BindFailed);
        }
        let number = self.listeners.len() as u64;
        self.listeners.reserve(1)?;
        self.addresses.insert(socket)?;
        let alloc = *self.listeners.allocator();
        self.listeners.push_reserved(Acceptor::new(alloc));
        Ok(Listener {
            number,
            address: socket,
            accepting: false,
        })
    }

    // Connects to a listener.
    fn connect(&mut self, socket: Addr) -> Result<Reply<(Sink, Stream)>, Error>
        ensures dials { NetDials self.old.state socket result }
        ensures after { self.new ≡ moved_to self.old (net_after_dial self.old.state socket result) }
        ensures woken { self.new.state.woken ≡ self.old.state.woken }
        ensures waiting { (n : ℕ) → asked_of (slice_get self.new.state.channels n) ≡ asked_of (slice_get self.old.state.channels n) }
    {
        if self.port == PORTS_END {
            return Err(Error::PortsExhausted);
        }
        let Some(listener) = self.live_at(socket) else {
            self.port += 1;
            return Err(Error::ConnectionFailed);
        };
        self.channels.reserve(2)?;
        let to_dialer = self.channels.len() as u64;
        let from_dialer = to_dialer + 1;
        let dialer = Addr {
            ip: LOCALHOST,
            port: self.port,
        };
        let connection = Connection {
            dialer,
            sink: to_dialer,
            stream: from_dialer,
        };
        let wake = self.listeners[listener].push(connection)?;
        let alloc = *self.channels.allocator();
        self.channels
            .push_reserved(Pipe::new(alloc, DEFAULT_BUFFER_SIZE));
        self.channels
            .push_reserved(Pipe::new(alloc, DEFAULT_BUFFER_SIZE));
        self.port += 1;
        let halves = (Sink::idle(from_dialer), Stream::idle(to_dialer));
        Ok(Reply::of(halves, wake))
    }

    // Takes a connection.
    fn take(&mut self, number: u64, task: u64) -> Result<Poll<(Addr, Sink, Stream)>, Error>
        ensures accepts { NetAccepts self.old.state number result }
        ensures after { self.new ≡ moved_to self.old (net_after_accept self.old.state number task result) }
    {
        if !self.has_listener(number) {
            return Err(Error::UnknownToken);
        }
        match self.listeners[number as usize].accept(task) {
            Poll::Pending => Ok(Poll::Pending),
            Poll::Ready(connection) => Ok(Poll::Ready((
                connection.dialer,
                Sink::idle(connection.sink),
                Stream::idle(connection.stream),
            ))),
        }
    }
}

// Whether the address is one that dialers have.
fn is_dialer_address(address: Addr) -> bool
    ensures { IsTrue result ↔ IsDialerAddress address }
{
    address.ip == LOCALHOST && FIRST_PORT <= address.port && address.port < PORTS_END
}

impl Network for Net {
    type Listener = Listener;

    type Sink = Sink;

    type Stream = Stream;

    ghost use Rattle.std.specs.Prelude.{◌≡◌, [], slice_get};
    ghost use Rattle.rt_net.specs.Kept.{answered, moved_to};
    ghost use Rattle.rt_net.specs.Asked.{asked_of, unread_of};
    ghost use Rattle.rt_net.specs.Waiting.{is_pending, still_waits, waits, waits_on};
    ghost use Rattle.rt_net.specs.Network.{sink_wakes, stream_wakes, with_given_up_send, with_given_up_recv, with_closed_sink, with_closed_stream, with_given_up_accept, live_stream};
    ghost use Rattle.rt_net.specs.Calls.{NetSends, NetPollsSend, NetReceives, NetPollsReceive, NetPeeks, NetBinds, NetDials, NetAccepts, net_after_send, net_after_poll_send, net_after_recv, net_after_poll_recv, net_after_bind, net_after_dial, net_after_accept, net_after_close, with_channels, with_listeners, told};

    ghost refusals = { λ v. v.refusals };

    ghost most = { 0 };

    ghost asked = { λ v k. asked_of (slice_get v.state.channels k.number) };

    ghost unread = { λ v k. unread_of (live_stream v.state.channels k.number) };

    ghost woken = { λ v. v.state.woken };

    ghost sends = { λ v k b t r w l x. NetSends v.state k.number b.bytes r × (w ≡ answered v (net_after_send v.state k.number b.bytes t r.value) r.value) × (l ≡ record k { sending = is_pending r.value }) × (x ≡ []) };

    ghost polls_send = { λ v k t r w l x. NetPollsSend v.state k.number r × (w ≡ answered v (net_after_poll_send v.state k.number t r) r) × (l ≡ record k { sending = still_waits r }) × (x ≡ []) };

    ghost receives = { λ v k n t r w l x. NetReceives v.state k.number n r × (w ≡ answered v (net_after_recv v.state k.number n t r) r) × (l ≡ record k { receiving = waits r }) × (x ≡ []) };

    ghost polls_recv = { λ v k t r w l x. NetPollsReceive v.state k.number r × (w ≡ answered v (net_after_poll_recv v.state k.number t r) r) × (l ≡ record k { receiving = still_waits r }) × (x ≡ []) };

    ghost peeks = { λ v k n r w x. NetPeeks v.state k.number n r × (w ≡ answered v v.state r) × (x ≡ []) };

    ghost gives_send_up = { λ v k w l. (w ≡ moved_to v (with_channels v.state (with_given_up_send v.state.channels k.number))) × (l ≡ record k { sending = false }) };

    ghost gives_recv_up = { λ v k w l. (w ≡ moved_to v (with_channels v.state (with_given_up_recv v.state.channels k.number))) × (l ≡ record k { receiving = false }) };

    ghost closes_sink = { λ v k r w. (r ≡ sink_wakes v.state.channels k.number) × (w ≡ moved_to v (with_channels v.state (with_closed_sink v.state.channels k.number))) };

    ghost closes_stream = { λ v k r w. (r ≡ stream_wakes v.state.channels k.number) × (w ≡ moved_to v (with_channels v.state (with_closed_stream v.state.channels k.number))) };

    ghost binds = { λ v a r w x. NetBinds v.state a r × (w ≡ answered v (net_after_bind v.state a r) r) × (x ≡ []) };

    ghost dials = { λ v a r w x. NetDials v.state a r × (w ≡ answered v (net_after_dial v.state a r) r) × (x ≡ []) };

    ghost accepts = { λ v k t r w l x. NetAccepts v.state k.number r × (w ≡ answered v (net_after_accept v.state k.number t r) r) × (l ≡ record k { accepting = waits_on k.accepting r }) × (x ≡ []) };

    ghost polls_accept = { λ v k t r w l x. NetAccepts v.state k.number r × (w ≡ answered v (net_after_accept v.state k.number t r) r) × (l ≡ record k { accepting = waits_on k.accepting r }) × (x ≡ []) };

    ghost has_address = { λ v k a. a ≡ k.address };

    ghost gives_accept_up = { λ v k w l. (w ≡ moved_to v (with_listeners v.state (with_given_up_accept v.state.listeners k.number))) × (l ≡ record k { accepting = false }) };

    ghost closes_listener = { λ v k w. w ≡ moved_to v (net_after_close v.state k.number) };

    ghost tells_next = { λ v w. w ≡ moved_to v (told v.state) };

    fn most_entries() -> Option<usize> {
        Some(0)
    }

    fn take_room<E: Env>(env: &mut E, more: usize) -> Result<(), NoMemory> {
        env.reserve(more)
    }

    fn send<E: Env>(
        &mut self,
        _env: &mut E,
        sink: &mut Sink,
        bufs: IoBufs,
        task: u64,
    ) -> Reply<Result<Poll<()>, Error>> {
        if !has_sink(&self.channels, sink.number) {
            return Reply::of(self.counted(Err(Error::UnknownToken)), None);
        }
        let reply = self.channels[sink.number as usize].send(bufs, task);
        sink.sending = is_pending(&reply.value);
        Reply::of(self.counted(reply.value), reply.wake)
    }

    fn poll_send<E: Env>(
        &mut self,
        _env: &mut E,
        sink: &mut Sink,
        task: u64,
    ) -> Result<Poll<()>, Error> {
        if !has_sink(&self.channels, sink.number) {
            return self.counted(Err(Error::UnknownToken));
        }
        let answer = self.channels[sink.number as usize].poll_send(task);
        sink.sending = is_pending(&answer);
        self.counted(answer)
    }

    fn recv<E: Env>(
        &mut self,
        _env: &mut E,
        stream: &mut Stream,
        len: usize,
        task: u64,
    ) -> Result<Reply<Poll<IoBufs>>, Error> {
        if !has_stream(&self.channels, stream.number) {
            return self.counted(Err(Error::UnknownToken));
        }
        let answer = self.channels[stream.number as usize].recv(len, task);
        stream.receiving = waits(&answer);
        self.counted(answer)
    }

    fn poll_recv<E: Env>(
        &mut self,
        _env: &mut E,
        stream: &mut Stream,
        task: u64,
    ) -> Result<Poll<IoBufs>, Error> {
        if !has_stream(&self.channels, stream.number) {
            return self.counted(Err(Error::UnknownToken));
        }
        let answer = self.channels[stream.number as usize].poll_recv(task);
        stream.receiving = is_pending(&answer);
        self.counted(answer)
    }

    fn asked_len(&self, stream: &Stream) -> usize {
        self.channels
            .get(stream.number as usize)
            .map_or(0, |pipe| pipe.asked_len())
    }

    fn unread_len(&self, stream: &Stream) -> usize {
        if !has_stream(&self.channels, stream.number) {
            return 0;
        }
        self.channels[stream.number as usize].unread_len()
    }

    fn peek<E: Env>(
        &mut self,
        _env: &mut E,
        stream: &Stream,
        max_len: usize,
    ) -> Result<IoBuf, Error> {
        if !has_stream(&self.channels, stream.number) {
            return self.counted(Err(Error::UnknownToken));
        }
        let answer = self.channels[stream.number as usize].peek(max_len);
        self.counted(answer)
    }

    fn give_up_send(&mut self, sink: &mut Sink) {
        if has_sink(&self.channels, sink.number) {
            self.channels[sink.number as usize].give_up_send();
        }
        sink.sending = false;
    }

    fn give_up_recv(&mut self, stream: &mut Stream) {
        if has_stream(&self.channels, stream.number) {
            self.channels[stream.number as usize].give_up_recv();
        }
        stream.receiving = false;
    }

    fn close_sink(&mut self, sink: Sink) -> Option<u64> {
        let Sink { number, sending: _ } = sink;
        close_sink(&mut self.channels, number)
    }

    fn close_stream(&mut self, stream: Stream) -> Option<u64> {
        let Stream {
            number,
            receiving: _,
        } = stream;
        close_stream(&mut self.channels, number)
    }

    fn bind<E: Env>(&mut self, _env: &mut E, socket: Addr) -> Result<Listener, Error> {
        let answer = self.listen(socket);
        self.counted(answer)
    }

    fn dial<E: Env>(&mut self, _env: &mut E, socket: Addr) -> Result<Reply<(Sink, Stream)>, Error> {
        let answer = self.connect(socket);
        self.counted(answer)
    }

    fn accept<E: Env>(
        &mut self,
        _env: &mut E,
        listener: &mut Listener,
        task: u64,
    ) -> Result<Poll<(Addr, Sink, Stream)>, Error> {
        let answer = self.take(listener.number, task);
        listener.accepting = waits_on(listener.accepting, &answer);
        self.counted(answer)
    }

    fn poll_accept<E: Env>(
        &mut self,
        env: &mut E,
        listener: &mut Listener,
        task: u64,
    ) -> Result<Poll<(Addr, Sink, Stream)>, Error> {
        self.accept(env, listener, task)
    }

    fn local_addr(&self, listener: &Listener) -> Addr {
        let _ = self;
        listener.address
    }

    fn give_up_accept(&mut self, listener: &mut Listener) {
        if self.has_listener(listener.number) {
            self.listeners[listener.number as usize].give_up();
        }
        listener.accepting = false;
    }

    fn close_listener(&mut self, listener: Listener) {
        let Listener {
            number,
            address: _,
            accepting: _,
        } = listener;
        if self.has_listener(number) {
            self.woken = self.listeners[number as usize].close(&mut self.channels);
        }
    }

    fn next_woken(&mut self) -> Option<u64> {
        self.woken.pop_front()
    }
}
