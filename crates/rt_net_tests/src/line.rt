// A channel that tests send numbered bytes through, by the steps of a text.
//
// A step is a call and how it ends, `send 20 -> waits`, and may wake a task: `recv 20 -> got 20 wakes 1`. Byte number n of all
// that are sent is n % 251. Groups of steps are parted by `; `, and `N times STEP, STEP` takes the steps of a group N times.

use rt_base::{Env, Error, Poll};
use rt_bufs::{IoBuf, IoBufs};
use rt_fixtures::{Ending, Noting, seen, seen_error};
use rt_net::{Net, Network, Receiving, Sending};
use std::alloc::Global;
use std::process::Abort;

// A network whose calls may be made at any time.
pub trait Free: Network {
    ghost free: { (x : Self) → Self.callable x };
}

impl Free for Net {
    ghost free = { λ _. tt };
}

impl<N: Free> Free for Noting<N> {
    ghost free = { λ x. N.free x.inner };
}

// The word of a call, and its number.
type Call<'a> = (&'a str, usize);

// How a call ends, and the task that it wakes.
pub type Taken = (Ending, Option<u64>);

// A step as it is written, its call, and how it ends.
type Step<'a> = (&'a str, Call<'a>, Taken);

// These bytes in one chunk.
fn one_chunk(rt: &impl Abort, alloc: Global, bytes: Vec<u8>) -> IoBufs {
    let chunk = IoBuf::from_vec(bytes).expect(rt, "room");
    IoBufs::from_buf(alloc, chunk).expect(rt, "room")
}

// The bytes of these numbers, in one chunk.
pub fn numbered(rt: &impl Abort, alloc: Global, from: usize, count: usize) -> IoBufs {
    let mut list = Vec::new(alloc);
    for index in 0..count {
        list.push((from.wrapping_add(index) % 251) as u8)
            .expect(rt, "room");
    }
    one_chunk(rt, alloc, list)
}

// The bytes of these numbers, in two chunks where there are two.
fn halved(rt: &impl Abort, alloc: Global, from: usize, count: usize) -> IoBufs {
    let half = count / 2;
    let mut all = numbered(rt, alloc, from, half);
    let rest = numbered(rt, alloc, from.wrapping_add(half), count - half);
    all.append_all(rest).expect(rt, "room");
    all
}

// The bytes from this number on, in chunks of one size.
fn in_pieces(rt: &impl Abort, alloc: Global, from: usize, count: usize, size: usize) -> IoBufs {
    let mut all = IoBufs::new(alloc);
    let mut next = from;
    for _ in 0..count {
        all.append_all(numbered(rt, alloc, next, size))
            .expect(rt, "room");
        next = next.wrapping_add(size);
    }
    all
}

// How many bytes there are, where they are those from this number on.
fn read_from(bytes: &[u8], from: usize) -> Ending {
    let mut number = from;
    for byte in bytes {
        if (number % 251) as u8 != *byte {
            return Ending::Other;
        }
        number = number.wrapping_add(1);
    }
    Ending::Got(bytes.len())
}

// How many bytes there are, where they are those that come next.
fn read_next(bufs: IoBufs, received: &mut usize) -> Ending {
    match bufs.coalesce().ok() {
        Some(all) => {
            let read = read_from(all.as_slice(), *received);
            *received = received.wrapping_add(all.len());
            drop(all);
            read
        }
        None => Ending::Other,
    }
}

// What was answered to a `recv`, where it is the bytes that come next.
fn came(answer: Result<Poll<IoBufs>, Error>, received: &mut usize) -> Ending {
    match answer {
        Ok(Poll::Ready(bufs)) => read_next(bufs, received),
        Ok(Poll::Pending) => Ending::Waits,
        Err(error) => seen_error(error),
    }
}

// Receives the bytes that come next for task 2, and polls a `recv` that waits.
pub fn receive_next<N: Free, E: Env>(
    net: &mut N,
    env: &mut E,
    stream: &mut N::Stream,
    len: usize,
    received: &mut usize,
) -> Taken {
    if stream.is_receiving() {
        return (came(net.poll_recv(env, stream, 2), received), None);
    }
    match net.recv(env, stream, len, 2) {
        Ok(reply) => (came(Ok(reply.value), received), reply.wake),
        Err(error) => (seen_error(error), None),
    }
}

// How a call ends.
fn ending_in(word: &str) -> Option<Ending> {
    Some(match word {
        "done" => Ending::Done,
        "waits" => Ending::Waits,
        "closed" => Ending::Closed,
        "fails" => Ending::RecvFailed,
        "unknown" => Ending::UnknownToken,
        got => Ending::Got(got.strip_prefix("got ")?.parse::<usize>().ok()?),
    })
}

// The word of a call, and its number, or 0 where it takes none.
fn call_in(call: &str) -> Option<Call<'_>> {
    let (word, count) = match call.split_once(' ') {
        Some((word, count)) => (word, Some(count.parse::<usize>().ok()?)),
        None => (call, None),
    };
    match (word, count) {
        ("send" | "recv" | "peek", Some(count)) => Some((word, count)),
        ("send-256s" | "send-30000s", Some(count)) => Some((word, count)),
        ("poll-send" | "give-up-send" | "poll-recv" | "give-up-recv", None) => Some((word, 0)),
        ("unread", None) => Some((word, 0)),
        _ => None,
    }
}

// How a call ends, and the task that it wakes.
pub fn wanted_in(ends: &str) -> Option<Taken> {
    match ends.split_once(" wakes ") {
        Some((ending, task)) => Some((ending_in(ending)?, Some(task.parse::<u64>().ok()?))),
        None => Some((ending_in(ends)?, None)),
    }
}

// A step's call, and how it ends.
pub fn step_in(step: &str) -> Option<(Call<'_>, Taken)> {
    let (call, ends) = step.split_once(" -> ")?;
    Some((call_in(call)?, wanted_in(ends)?))
}

// The steps of a group, which is read once, however often they are taken.
fn steps_in<'a>(rt: &impl Abort, alloc: Global, text: &'a str) -> Vec<Step<'a>> {
    let mut steps = Vec::new(alloc);
    for step in text.split(", ") {
        let (call, wanted) = step_in(step).expect(rt, text);
        steps.push((step, call, wanted)).expect(rt, "room");
    }
    steps
}

// How often the steps of a group are taken, which is at least once, and the steps.
fn times_in(group: &str) -> Option<(u64, &str)> {
    let (times, steps) = match group.split_once(" times ") {
        Some((times, steps)) => (times.parse::<u64>().ok()?, steps),
        None => (1, group),
    };
    if times == 0 {
        return None;
    }
    Some((times, steps))
}

// Polls a `send` that waits.
pub fn poll_put<N: Free, E: Env>(
    net: &mut N,
    env: &mut E,
    sink: &mut N::Sink,
    task: u64,
) -> Ending {
    if !sink.is_sending() {
        return Ending::Other;
    }
    seen(net.poll_send(env, sink, task))
}

// What a call sends from this number on: so many bytes, or so many pieces of as many bytes.
fn sent_by(rt: &impl Abort, alloc: Global, call: Call<'_>, from: usize) -> IoBufs {
    match call {
        ("send", count) => halved(rt, alloc, from, count),
        ("send-256s", count) => in_pieces(rt, alloc, from, count, 256),
        ("send-30000s", count) => in_pieces(rt, alloc, from, count, 30000),
        (word, _) => panic!(rt; "{word}"),
    }
}

// Closes both halves, and returns the tasks that this wakes.
pub fn close<N: Free>(net: &mut N, sink: N::Sink, stream: N::Stream) -> (Option<u64>, Option<u64>) {
    (net.close_sink(sink), net.close_stream(stream))
}

// The two halves of a channel, and how many bytes were sent and received.
pub struct Line<N: Network> {
    pub alloc: Global,
    pub sink: N::Sink,
    pub stream: N::Stream,
    sent: usize,
    received: usize,
}

impl<N: Free> Line<N> {
    pub fn new(alloc: Global, sink: N::Sink, stream: N::Stream) -> Line<N> {
        Line {
            alloc,
            sink,
            stream,
            sent: 0,
            received: 0,
        }
    }

    // The halves, and how many bytes were received.
    pub fn into_halves(self) -> (N::Sink, N::Stream, usize) {
        let Line {
            alloc: _,
            sink,
            stream,
            sent: _,
            received,
        } = self;
        (sink, stream, received)
    }

    // The bytes of a channel have the numbers from this one on.
    pub fn begin_at(&mut self, number: usize) {
        self.sent = number;
        self.received = number;
    }

    fn send<E: Env>(&mut self, net: &mut N, env: &mut E, bufs: IoBufs) -> Taken {
        if self.sink.is_sending() {
            drop(bufs);
            return (Ending::Other, None);
        }
        self.sent = self.sent.wrapping_add(bufs.len());
        let reply = net.send(env, &mut self.sink, bufs, 1);
        (seen(reply.value), reply.wake)
    }

    fn receive<E: Env>(&mut self, net: &mut N, env: &mut E, len: usize) -> Taken {
        if self.stream.is_receiving() {
            return (Ending::Other, None);
        }
        receive_next(net, env, &mut self.stream, len, &mut self.received)
    }

    fn poll<E: Env>(&mut self, net: &mut N, env: &mut E) -> Ending {
        if !self.stream.is_receiving() {
            return Ending::Other;
        }
        let answer = net.poll_recv(env, &mut self.stream, 2);
        came(answer, &mut self.received)
    }

    fn peek<E: Env>(&self, net: &mut N, env: &mut E, most: usize) -> Ending {
        match net.peek(env, &self.stream, most) {
            Ok(first) => {
                let read = read_from(first.as_slice(), self.received);
                drop(first);
                read
            }
            Err(error) => seen_error(error),
        }
    }

    // Task 1 sends and task 2 receives: how the call ended, and the task that it woke.
    fn take<E: Env>(&mut self, rt: &impl Abort, net: &mut N, env: &mut E, call: Call<'_>) -> Taken {
        match call {
            ("poll-send", _) => (poll_put(net, env, &mut self.sink, 1), None),
            ("give-up-send", _) => {
                net.give_up_send(&mut self.sink);
                (Ending::Done, None)
            }
            ("recv", len) => self.receive(net, env, len),
            ("poll-recv", _) => (self.poll(net, env), None),
            ("give-up-recv", _) => {
                net.give_up_recv(&mut self.stream);
                (Ending::Done, None)
            }
            ("peek", most) => (self.peek(net, env, most), None),
            ("unread", _) => (Ending::Got(net.unread_len(&self.stream)), None),
            call => {
                let bufs = sent_by(rt, self.alloc, call, self.sent);
                self.send(net, env, bufs)
            }
        }
    }

    // Takes the steps of a group once.
    fn take_each<E: Env>(&mut self, rt: &impl Abort, net: &mut N, env: &mut E, steps: &[Step<'_>]) {
        for &(step, call, wanted) in steps {
            let seen = self.take(rt, net, env, call);
            assert!(rt; seen == wanted, "{step}");
        }
    }

    // Takes the steps of a group as often as it says.
    fn take_times<E: Env>(&mut self, rt: &impl Abort, net: &mut N, env: &mut E, group: &str) {
        let (times, text) = times_in(group).expect(rt, group);
        let steps = steps_in(rt, self.alloc, text);
        for _ in 0..times {
            self.take_each(rt, net, env, steps.as_slice());
        }
    }

    // Takes the steps of a text.
    pub fn takes<E: Env>(&mut self, rt: &impl Abort, net: &mut N, env: &mut E, text: &str) {
        for group in text.split("; ") {
            self.take_times(rt, net, env, group);
        }
    }

    // Closes both halves, which wakes these tasks.
    pub fn hangs_up(self, rt: &impl Abort, net: &mut N, woken: (Option<u64>, Option<u64>)) {
        let (sink, stream, _) = self.into_halves();
        assert!(rt; close(net, sink, stream) == woken);
    }

    // Takes the steps of a text on a channel that is closed then, which wakes no task.
    pub fn takes_all<E: Env>(mut self, rt: &impl Abort, net: &mut N, env: &mut E, text: &str) {
        self.takes(rt, net, env, text);
        self.hangs_up(rt, net, (None, None));
    }
}
