// One channel: the bytes that were not received yet, and who waits at its two ends.
ghost use Rattle.std.specs.Prelude.{◌≡◌, ◌-◌, ◌<◌, ◌≤◌, OnOk, OnErr, IfOk, IfErr, None, true, false, length};
ghost use Rattle.rt_base.specs.declared.error.Error.TheVariants.{RecvFailed};
ghost use Rattle.rt_base.specs.declared.poll.Poll.TheVariants.{Pending};
ghost use Rattle.rt_net.specs.Asked.{AreThere};
ghost use Rattle.rt_net.specs.Channel.{fresh, is_open, receiver_task, failed_send, Sends, PollsSend, after_send, after_poll_send, closed_sink, closed_stream, given_up_send, given_up_recv, sent, appended, handed_task, is_drained, Settles, settled, answered, pulled, drained_task, moved, failed_recv, parked, Receives, PollsReceive, after_recv, after_poll_recv, started_length, Peeks, held, left, unread, with_ended_sink, AreCounted, IsQuiet};

use crate::byte_queue::ByteQueue;
use crate::forgotten::Forgotten;
use crate::waited::Waited;
use crate::{Half, Parked, Reply};
use rt_base::{Error, NoMemory, Poll};
use rt_bufs::{IoBuf, IoBufs};
use std::alloc::Global;
use std::marker::Model;

/// A channel, which keeps the bytes that were not received yet. Contracts see it whole, with all bytes that were ever
/// sent.
#[derive(Drop)]
pub struct Pipe {
    forgotten: Forgotten,
    bytes: ByteQueue,
    held: usize,
    // The bytes of a waiting `recv`, made by the `send` that completes it, so that polling takes no memory.
    ready: Option<IoBufs>,
    buffer_size: usize,
    receiver: Option<Parked>,
    sender: Option<u64>,
    sink: Half,
    stream: Half,
    receiving: Option<usize>,
    sending: bool,
}

impl Model for Pipe {
    ghost use Rattle.rt_net.specs.Channel.{ChannelState};

    ghost Value = { ChannelState };

    ghost use Rattle.rt_net.specs.Pipe.{channel_of, IsKept};

    ghost view = { channel_of };

    ghost invariant = { IsKept };
}

impl Pipe {
    /// Makes a channel without bytes.
    pub fn new(alloc: Global, buffer_size: usize) -> Pipe
        ensures { result ≡ fresh buffer_size }
    {
        Pipe {
            forgotten: Forgotten::new(),
            bytes: ByteQueue::new(alloc),
            held: 0,
            ready: None,
            buffer_size,
            receiver: None,
            sender: None,
            sink: Half::new(),
            stream: Half::new(),
            receiving: None,
            sending: false,
        }
    }

    /// Returns the tasks that wait to receive and to send. Neither waits for what is there already.
    pub fn waiting(&self) -> (Option<u64>, Option<u64>)
        ensures tasks { result ≡ (receiver_task self.now.receiver, self.now.sender) }
        ensures quiet { IsQuiet self.now }
        ensures counted { AreCounted self.now }
    {
        (self.waiting_receiver(), self.sender)
    }

    /// Returns whether the sink wasn't closed.
    pub fn has_sink(&self) -> bool
        ensures { result ≡ self.now.sink.alive }
    {
        self.sink.alive
    }

    /// Returns whether the stream wasn't closed.
    pub fn has_stream(&self) -> bool
        ensures { result ≡ self.now.stream.alive }
    {
        self.stream.alive
    }

    /// Sends the bytes for `task`.
    pub fn send(&mut self, bufs: IoBufs, task: u64) -> Reply<Result<Poll<()>, Error>>
        requires { self.old.sink.alive ≡ true }
        ensures sends { Sends self.old bufs.bytes result.value result.wake }
        ensures after { self.new ≡ after_send self.old bufs.bytes task result.value }
        ensures link { result.link ≡ None }
    {
        if self.sink.is_spent() {
            return Reply::of(Err(Error::Closed), self.fail_sink());
        }
        if !self.stream.alive {
            return Reply::of(Err(Error::SendFailed), self.fail_sink());
        }
        match self.accept(&bufs) {
            Ok(wake) => Reply::of(Ok(self.settle(task)), wake),
            Err(_) => Reply::of(Err(Error::NoMemory), None),
        }
    }

    /// Polls a `send`. Where none is started it is ready: nobody would wake it.
    pub fn poll_send(&mut self, task: u64) -> Result<Poll<()>, Error>
        requires { self.old.sink.alive ≡ true }
        ensures polls { PollsSend self.old result }
        ensures after { self.new ≡ after_poll_send self.old task result }
    {
        if !self.stream.alive && !self.is_drained() {
            let _ = self.fail_sink();
            return Err(Error::SendFailed);
        }
        if !self.sending {
            self.sender = None;
            return Ok(Poll::Ready(()));
        }
        Ok(self.settle(task))
    }

    /// Receives `len` bytes for `task`.
    pub fn recv(&mut self, len: usize, task: u64) -> Result<Reply<Poll<IoBufs>>, Error>
        requires { self.old.stream.alive ≡ true }
        ensures receives { Receives self.old len result }
        ensures there { IfOk result (λ r. AreThere len (length (unread self.old)) r.value) }
        ensures after { self.new ≡ after_recv self.old len task result }
    {
        if self.stream.is_spent() {
            return Err(Error::Closed);
        }
        if self.held_after(len) < len {
            let wake = self.pull(len);
            let answer = self.wait_or_fail(len, task)?;
            return Ok(Reply::of(answer, wake));
        }
        let bytes = self.bytes.first_chunk(len)?;
        let wake = self.pull(len);
        self.answer(len);
        Ok(Reply::of(Poll::Ready(bytes), wake))
    }

    /// Polls a `recv`. Where none is started it receives no bytes.
    pub fn poll_recv(&mut self, task: u64) -> Result<Poll<IoBufs>, Error>
        requires { self.old.stream.alive ≡ true }
        ensures polls { PollsReceive self.old result }
        ensures there { IfOk result (AreThere (started_length self.old) (length (unread self.old))) }
        ensures after { self.new ≡ after_poll_recv self.old task result }
    {
        let Some(len) = self.receiving else {
            self.answer(0);
            return Ok(Poll::Ready(IoBufs::new(self.bytes.alloc())));
        };
        if self.held < len {
            return self.wait_or_fail(len, task);
        }
        let Some(bytes) = self.ready.take() else {
            unreachable!()
        };
        self.receiver = None;
        self.receiving = None;
        self.answer(len);
        Ok(Poll::Ready(bytes))
    }

    /// Returns how many bytes the started `recv` asked for, and 0 where none is started.
    pub fn asked_len(&self) -> usize
        ensures { result ≡ started_length self.now }
    {
        self.receiving.unwrap_or(0)
    }

    /// Returns how many bytes are here that no `recv` returned yet.
    pub fn unread_len(&self) -> usize
        requires { self.now.stream.alive ≡ true }
        ensures { result ≡ length (unread self.now) }
    {
        self.bytes.len()
    }

    /// Returns a copy of the first bytes held, at most `max_len`.
    pub fn peek(&self, max_len: usize) -> Result<IoBuf, Error>
        requires { self.now.stream.alive ≡ true }
        ensures { Peeks self.now max_len result }
    {
        Ok(self.bytes.first(max_len.min(self.held))?)
    }

    /// Gives a started `send` up.
    pub fn give_up_send(&mut self)
        ensures { self.new ≡ given_up_send self.old }
    {
        if self.sending {
            self.sender = None;
            self.sending = false;
            self.sink.given_up = true;
        }
    }

    /// Gives a started `recv` up.
    pub fn give_up_recv(&mut self)
        ensures { self.new ≡ given_up_recv self.old self.old.receiving }
    {
        if let Some(_) = self.receiving {
            self.ready = None;
            self.receiver = None;
            self.receiving = None;
            self.stream.given_up = true;
        }
    }

    /// Closes the sink, and returns the receiver that this wakes.
    pub fn close_sink(&mut self) -> Option<u64>
        ensures woken { result ≡ receiver_task self.old.receiver }
        ensures closed { self.new ≡ closed_sink self.old }
    {
        let wake = self.end_sink(Half {
            alive: false,
            ..self.sink
        });
        self.free();
        wake
    }

    /// Closes the stream, and returns the sender that this wakes.
    pub fn close_stream(&mut self) -> Option<u64>
        ensures woken { result ≡ self.old.sender }
        ensures closed { self.new ≡ closed_stream self.old }
    {
        let wake = self.sender;
        self.stream.alive = false;
        self.ready = None;
        self.receiver = None;
        self.receiving = None;
        self.sender = None;
        self.free();
        wake
    }

    // Takes bytes in and hands them to a parked `recv` that they complete, whose task it returns.
    fn accept(&mut self, bufs: &IoBufs) -> Result<Option<u64>, NoMemory>
        requires { self.old.sink.alive ≡ true }
        ensures woken { IfOk result (λ wake. wake ≡ handed_task (appended self.old bufs.now.bytes) self.old.receiver) }
        ensures taken { OnOk result (self.new ≡ record (sent self.old bufs.now.bytes) { sender = None; sending = false }) }
        ensures refused { OnErr result (self.new ≡ self.old) }
    {
        let kept = self.bytes.len();
        self.bytes.append(bufs)?;
        let left = self.bytes.len() - self.held;
        let mut wake = None;
        if let (Some(parked), Some(len)) = (self.receiver, self.receiving) {
            if parked.need <= left {
                let Ok(bytes) = self.bytes.first_chunk(len) else {
                    self.bytes.truncate(kept);
                    return Err(NoMemory);
                };
                self.held += left.min(parked.need.max(self.buffer_size));
                self.ready = Some(bytes);
                self.receiver = None;
                wake = Some(parked.task);
            }
        }
        self.sender = None;
        self.sending = false;
        Ok(wake)
    }

    // The sender goes on, or parks.
    fn settle(&mut self, task: u64) -> Poll<()>
        requires sink { is_open self.old.sink ≡ true }
        requires stream { is_drained self.old ≡ false → self.old.stream.alive ≡ true }
        ensures answer { Settles self.old result }
        ensures after { self.new ≡ settled self.old task result }
    {
        if self.is_drained() {
            self.sender = None;
            self.sending = false;
            return Poll::Ready(());
        }
        self.sender = Some(task);
        self.sending = true;
        Poll::Pending
    }

    // Whether at most the buffer size is left in the channel.
    fn is_drained(&self) -> bool
        requires { self.now.sink.alive ≡ true }
        ensures { result ≡ is_drained self.now }
    {
        self.bytes.len() - self.held <= self.buffer_size
    }

    // How many bytes the stream holds once a `recv` of `len` bytes has moved what it may.
    fn held_after(&self, len: usize) -> usize
        requires { self.now.stream.alive ≡ true }
        ensures { result ≡ held (moved self.now len) }
    {
        let left = self.bytes.len() - self.held;
        self.held + left.min(len.max(self.buffer_size).saturating_sub(self.held))
    }

    // Moves the bytes that a `recv` of `len` bytes may move, and returns the sender that this wakes.
    // What was started before is over.
    fn pull(&mut self, len: usize) -> Option<u64>
        requires { self.old.stream.alive ≡ true }
        ensures woken { result ≡ drained_task (moved self.old len) }
        ensures pulled { self.new ≡ record (pulled self.old len) { receiver = None; receiving = None } }
    {
        self.held = self.held_after(len);
        self.receiver = None;
        self.receiving = None;
        if self.bytes.len() - self.held > self.buffer_size {
            return None;
        }
        self.sender.take()
    }

    // A `recv` of `len` bytes, of which some are missing, waits, or fails for good where no more come.
    fn wait_or_fail(&mut self, len: usize, task: u64) -> Result<Poll<IoBufs>, Error>
        requires lacks { held self.old < len }
        requires empty { is_open self.old.sink ≡ true → left self.old < len - held self.old }
        requires stream { is_open self.old.sink ≡ true → is_open self.old.stream ≡ true }
        ensures waits { IfOk result (λ answer. (answer ≡ Pending) × (is_open self.old.sink ≡ true)) }
        ensures fails { IfErr result (λ error. (error ≡ RecvFailed) × (is_open self.old.sink ≡ false)) }
        ensures parked { OnOk result (self.new ≡ parked self.old len task) }
        ensures failed { OnErr result (self.new ≡ failed_recv self.old) }
    {
        if !self.sink.is_open() {
            self.stream.failed = true;
            self.receiver = None;
            self.receiving = None;
            return Err(Error::RecvFailed);
        }
        self.receiver = Some(Parked {
            need: len - self.held,
            task,
        });
        self.receiving = Some(len);
        Ok(Poll::Pending)
    }

    // Takes the first `len` bytes out, which were received.
    fn answer(&mut self, len: usize)
        requires alive { self.old.stream.alive ≡ true }
        requires held { len ≤ held self.old }
        ensures { self.new ≡ answered self.old len }
    {
        self.forgotten.answer(&self.bytes, len);
        self.receiver = None;
        self.receiving = None;
        self.bytes.advance(len);
        self.held -= len;
    }

    // The sink fails for good.
    fn fail_sink(&mut self) -> Option<u64>
        ensures woken { result ≡ receiver_task self.old.receiver }
        ensures ended { self.new ≡ failed_send self.old }
    {
        self.end_sink(Half {
            failed: true,
            ..self.sink
        })
    }

    // Leaves the sink in this state, which isn't open, and returns the receiver that this wakes.
    fn end_sink(&mut self, sink: Half) -> Option<u64>
        requires alive { sink.alive ≡ true → self.old.sink.alive ≡ true }
        requires over { is_open sink ≡ false }
        ensures woken { result ≡ receiver_task self.old.receiver }
        ensures ended { self.new ≡ with_ended_sink self.old sink }
    {
        let wake = self.waiting_receiver();
        self.sink = sink;
        self.sender = None;
        self.sending = false;
        self.receiver = None;
        wake
    }

    // Gives the memory of the bytes back, where no half is alive.
    fn free(&mut self)
        ensures { self.new ≡ self.old }
    {
        if !self.sink.alive && !self.stream.alive {
            self.forgotten.lose(&self.bytes, self.held);
            self.bytes = ByteQueue::new(self.bytes.alloc());
            self.held = 0;
        }
    }

    // The task of the parked `recv`.
    fn waiting_receiver(&self) -> Option<u64>
        ensures { result ≡ receiver_task self.now.receiver }
    {
        self.receiver.map(|parked| parked.task)
    }
}

impl Waited for Pipe {
    ghost use Rattle.rt_net.specs.Channel.{IsQuiet};
    ghost use Rattle.rt_net.specs.Network.{is_waited_at};

    ghost waited = { is_waited_at };

    ghost quiet = { IsQuiet };

    fn anyone_waits(&self) -> bool {
        let (receiver, sender) = self.waiting();
        receiver.is_some() || sender.is_some()
    }
}
