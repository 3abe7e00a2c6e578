// Worked examples on the network in memory. Each body is over any network, so it is proved from the trait alone.

use crate::calls::{accept, bind, dial, dials, here, memory, put, v6};
use crate::line::{Free, Line, close, poll_put, receive_next, step_in};
use rt_base::{Addr, Env, Ip, NoEnv, Poll};
use rt_bufs::IoBufs;
use rt_fixtures::{
    Ending, Notebook, Noting, NotingSink, NotingStream, seen_error, take_room_of_calls,
};
use rt_net::{Accepting, Channel, Net, Network, Reply};
use std::alloc::Global;
use std::process::Abort;

// A channel with this buffer size.
fn line_of(rt: &impl Abort, alloc: Global, net: &mut Net, size: usize) -> Line<Net> {
    let opened = Channel::init_with_buffer_size(net, size);
    let (sink, stream) = opened.expect(rt, "room");
    Line::new(alloc, sink, stream)
}

// A channel with the buffer size of this word.
fn line_in(rt: &impl Abort, alloc: Global, net: &mut Net, size: &str) -> Line<Net> {
    if size == "default" {
        let (sink, stream) = Channel::init(net).expect(rt, "room");
        return Line::new(alloc, sink, stream);
    }
    line_of(rt, alloc, net, size.parse::<usize>().expect(rt, size))
}

// A `recv` and a `send` that block each other.
const BLOCK: &str = "recv 100 -> waits; send 50 -> waits";

#[test]
fn long_halves_block(rt: HostRuntime) {
    let mut net = memory(&rt, rt.alloc());
    let mut line = line_of(&rt, rt.alloc(), &mut net, 10);
    line.takes(&rt, &mut net, &mut NoEnv, BLOCK);
    assert!(rt; net.waiting_halves(0) == (Some(2), Some(1)));
    line.hangs_up(&rt, &mut net, (Some(2), None));
    drop(net);
}

// What a channel shows, the buffer sizes of channels that follow one another on one network, and the steps on each. Where
// receives follow, they come once the sink has closed, and `-` is no step.
const STORIES: &str = "\
calls after a given up receive, whose sink goes on, and whose stream is spent | 10 | recv 1 -> waits; give-up-recv -> done; send 5 -> done; recv 1 -> closed
bytes left over | 100 | send 2 -> done; recv 9 -> waits; peek 9 -> got 2; send 3 -> done; send 10 -> done wakes 2; send 1 -> done; poll-recv -> got 9; peek 9 -> got 6
bytes that are there without waiting | 3 | unread -> got 0; send 2 -> done; unread -> got 2; send 9 -> waits; unread -> got 11; recv 4 -> got 4; unread -> got 7; recv 7 -> got 7 wakes 1; poll-send -> done; recv 2 -> waits; send 1 -> done; unread -> got 1; poll-recv -> waits; unread -> got 1; send 5 -> done wakes 2; unread -> got 6; poll-recv -> got 2; unread -> got 4; recv 5 -> waits; give-up-recv -> done; unread -> got 4
bytes left by a closed sink: all, then too few, then nothing more | 10 | send 5 -> done | recv 3 -> got 3; recv 3 -> fails; recv 1 -> closed
small buffers | 3 0 | send 4 -> waits; poll-send -> waits; recv 4 -> got 4 wakes 1; poll-send -> done; recv 2 -> waits; send 2 -> done wakes 2; poll-recv -> got 2
a mebibyte in pieces | default | send-256s 4096 -> waits; 14 times recv 65536 -> got 65536; recv 65536 -> got 65536 wakes 1; recv 65536 -> got 65536; poll-send -> done
many pieces in one receive | default | recv 90000 -> waits; send-30000s 3 -> done wakes 2; poll-recv -> got 90000
a mebibyte in one receive | 1048576 | recv 1048576 -> waits; 15 times send 65536 -> done; send 65536 -> done wakes 2; poll-recv -> got 1048576";

// Takes the steps of a row on a network of its own.
fn takes_row(rt: &impl Abort, alloc: Global, row: &str) {
    let (_, rest) = row.split_once(" | ").expect(rt, row);
    let (sizes, steps) = rest.split_once(" | ").expect(rt, row);
    let mut net = memory(rt, alloc);
    for size in sizes.split(' ') {
        let line = line_in(rt, alloc, &mut net, size);
        match steps.split_once(" | ") {
            Some((steps, receives)) => {
                outlives(rt, &mut net, &mut NoEnv, line, steps, None, receives)
            }
            None => line.takes_all(rt, &mut net, &mut NoEnv, steps),
        }
    }
    drop(net);
}

#[test]
fn empty_receive(rt: HostRuntime) {
    let row = "an empty receive | 10 | recv 0 -> got 0";
    takes_row(&rt, rt.alloc(), row);
}

const SENDS_AFTER: &str = "\
a send after a given up one, whose bytes stay, and whose sink is spent | 10 | send 20 -> waits; give-up-send -> done; \
recv 20 -> got 20; send 1 -> closed; send 1 -> closed";

#[test]
fn send_after_a_given_up_send(rt: HostRuntime) {
    takes_row(&rt, rt.alloc(), SENDS_AFTER);
}

#[test]
fn receive_after_the_sink_closed(rt: HostRuntime) {
    let row = "a receive after the sink closed | 10 | - | recv 1 -> fails; recv 1 -> closed";
    takes_row(&rt, rt.alloc(), row);
}

const SMALL_SENDS: &str = "\
small sends behind a mebibyte, all of which is peeked at | 2097152 | send 1048576 -> done; \
65536 times recv 16 -> got 16, send 16 -> done; peek 1048576 -> got 1048560; recv 1048576 -> got 1048576";

#[test]
fn small_sends_behind_a_mebibyte(rt: HostRuntime) {
    takes_row(&rt, rt.alloc(), SMALL_SENDS);
}

#[test]
fn stories_of_channels(rt: HostRuntime) {
    for row in STORIES.split('\n') {
        takes_row(&rt, rt.alloc(), row);
    }
}

// Calls with a token whose number no live object has.
const REFUSED: &str = "\
poll-send -> unknown; poll-recv -> unknown; give-up-recv -> done; recv 1 -> unknown; peek 1 -> unknown; unread -> got 0";

const GIVEN_UP_SEND: &str =
    "recv 20 -> got 20 wakes 3; poll-send -> done; send 20 -> waits; give-up-send -> done";

// The halves of a channel that wait in their own network are refused in the other one.
fn refuses<N: Free>(rt: &impl Abort, there: &mut N, net: &mut N, other: &mut Line<N>) {
    other.takes(rt, there, &mut NoEnv, BLOCK);
    other.takes(rt, net, &mut NoEnv, REFUSED);
}

// The other network's `send` waits in the place of the channel's own, and for nothing where that was given up.
fn polls_in_its_place<N: Free>(
    rt: &impl Abort,
    net: &mut N,
    line: &mut Line<N>,
    other: &mut Line<N>,
) {
    line.takes(rt, net, &mut NoEnv, "send 20 -> waits");
    let started = poll_put(net, &mut NoEnv, &mut other.sink, 3);
    line.takes(rt, net, &mut NoEnv, GIVEN_UP_SEND);
    let given_up = poll_put(net, &mut NoEnv, &mut other.sink, 3);
    assert!(rt; (started, given_up) == (Ending::Waits, Ending::Done));
}

// Closes the channel, after which the other network's token is refused, and then that one's channel.
fn hangs_up_both<N: Free>(
    rt: &impl Abort,
    there: &mut N,
    net: &mut N,
    line: Line<N>,
    mut other: Line<N>,
) {
    let empty = IoBufs::new(line.alloc);
    line.hangs_up(rt, net, (None, None));
    let closed = put(net, &mut NoEnv, &mut other.sink, empty, 1);
    assert!(rt; closed == Ending::UnknownToken);
    other.hangs_up(rt, there, (Some(2), None));
}

// Another network's token, whose halves wait there, is refused where no channel has its number, and its channel goes on
// waiting. Where one has, its `send` waits in the place of one that waits here, and for nothing where that was given up.
#[test]
fn calls_by_the_tokens_of_another_network(rt: HostRuntime) {
    let alloc = rt.alloc();
    let mut there = memory(&rt, alloc);
    let mut net = memory(&rt, alloc);
    let mut other = line_of(&rt, alloc, &mut there, 10);
    refuses(&rt, &mut there, &mut net, &mut other);
    assert!(rt; there.waiting_halves(0) == (Some(2), Some(1)));
    let mut line = line_of(&rt, alloc, &mut net, 10);
    polls_in_its_place(&rt, &mut net, &mut line, &mut other);
    assert!(rt; !net.anyone_waits());
    hangs_up_both(&rt, &mut there, &mut net, line, other);
    drop(net);
    drop(there);
}

// Takes the steps, where `-` is none. Then the sink closes, which wakes this task, and these receives follow.
fn outlives<N: Free, E: Env>(
    rt: &impl Abort,
    net: &mut N,
    env: &mut E,
    mut line: Line<N>,
    steps: &str,
    woken: Option<u64>,
    receives: &str,
) {
    if steps != "-" {
        line.takes(rt, net, env, steps);
    }
    let (sink, mut stream, mut received) = line.into_halves();
    assert!(rt; net.close_sink(sink) == woken);
    for step in receives.split("; ") {
        let ((word, len), wanted) = step_in(step).expect(rt, receives);
        let seen = receive_next(net, env, &mut stream, len, &mut received);
        let are_same = word == "recv" && seen == wanted;
        assert!(rt; are_same, "{step} of {receives}");
    }
    let _ = net.close_stream(stream);
}

// Sends, receives, peeks, waits and gives up.
const EACH_STEP: &str = "\
send 9 -> waits; recv 5 -> got 5 wakes 1; poll-send -> done; peek 1 -> got 1; unread -> got 4; \
recv 90 -> waits; poll-recv -> waits; give-up-send -> done; give-up-recv -> done";

// The port of a listener, what it accepts before and after a dial, and how the dial ended.
type Heard = (u16, Result<u16, Ending>, Ending, Result<u16, Ending>);

// Binds, accepts before and after a dial, and closes.
fn listens<N: Free>(net: &mut N, socket: Addr) -> Heard {
    match net.bind(&mut NoEnv, socket) {
        Ok(mut listener) => {
            let address = net.local_addr(&listener);
            let first = accept(net, &mut NoEnv, &mut listener, true);
            net.give_up_accept(&mut listener);
            let dialed = dial(net, &mut NoEnv, socket);
            let second = accept(net, &mut NoEnv, &mut listener, false);
            net.close_listener(listener);
            (address.port, first, dialed, second)
        }
        Err(error) => (0, Ok(0), seen_error(error), Ok(0)),
    }
}

// Takes each step on a channel of 7 bytes of buffer, and then listens.
fn exercise<N: Free>(rt: &impl Abort, net: &mut N, line: Line<N>) {
    line.takes_all(rt, net, &mut NoEnv, EACH_STEP);
    let heard = listens(net, here(4000));
    assert!(rt; heard == (4000, Ok(0), Ending::Done, Ok(32768)));
}

// A listener is unknown to another network. At home a task waits at it.
fn hears_at_home(rt: &impl Abort, home: &mut Net, away: &mut Net) {
    let mut listener = home
        .bind(&mut NoEnv, here(5000))
        .expect(rt, "the address is free");
    let refused = accept(away, &mut NoEnv, &mut listener, true);
    assert!(rt; !listener.is_accepting());
    let waits = accept(home, &mut NoEnv, &mut listener, true);
    let polled = accept(away, &mut NoEnv, &mut listener, false);
    assert!(rt; listener.is_accepting());
    let unknown = Err(Ending::UnknownToken);
    assert!(rt; (refused, waits, polled) == (unknown, Ok(0), unknown));
    assert!(rt; (home.waiting_acceptor(1), home.anyone_waits()) == (Some(5), true));
    home.close_listener(listener);
}

#[test]
fn surface(rt: HostRuntime) {
    let mut net = memory(&rt, rt.alloc());
    let mut away = memory(&rt, rt.alloc());
    let line = line_of(&rt, rt.alloc(), &mut net, 7);
    exercise(&rt, &mut net, line);
    assert!(rt; net.waiting_halves(0) == (None, None));
    hears_at_home(&rt, &mut net, &mut away);
    drop(away);
    assert!(rt; (net.waiting_acceptor(0), net.waiting_acceptor(1)) == (None, None));
    assert!(rt; !net.anyone_waits());
    let (sink, stream) = Channel::init(&mut net).expect(&rt, "room");
    assert!(rt; close(&mut net, sink, stream) == (None, None));
    assert!(rt; net.next_woken().is_none());
    drop(net);
}

// The halves of a channel of what the wrapper passes calls on to.
fn noted<N: Free>(line: Line<N>, remote: Addr) -> Line<Noting<N>> {
    let alloc = line.alloc;
    let (sink, stream, _) = line.into_halves();
    let sink = NotingSink {
        inner: sink,
        remote,
    };
    let stream = NotingStream {
        inner: stream,
        remote,
    };
    Line::new(alloc, sink, stream)
}

// The same through a wrapper, which counts the bytes.
fn passes_on<N: Free>(rt: &impl Abort, alloc: Global, inner: N, line: Line<N>) -> N {
    let mut net = Noting::new(alloc, inner);
    exercise(rt, &mut net, noted(line, here(4000)));
    let (inner, sent, received) = net.into_parts();
    assert!(rt; (sent, received) == (9, 5));
    inner
}

#[test]
fn surface_of_what_passes_on(rt: HostRuntime) {
    let mut inner = memory(&rt, rt.alloc());
    let line = line_of(&rt, rt.alloc(), &mut inner, 7);
    drop(passes_on(&rt, rt.alloc(), inner, line));
}

// How many entries a call of a network uses at most, and whether this many calls get their room.
fn room_of<N: Network>(alloc: Global, calls: usize) -> (Option<usize>, bool) {
    let mut book = Notebook::new(alloc);
    let taken = take_room_of_calls::<N, Notebook>(&mut book, calls);
    (N::most_entries(), taken.is_ok())
}

// The room of calls of a network that uses no entry, and of wrappers over it.
fn gets_room<N: Network, A: Abort>(rt: &A, alloc: Global) {
    assert!(rt; room_of::<N>(alloc, usize::MAX) == (Some(0), true));
    assert!(rt; room_of::<Noting<N>>(alloc, 1_000) == (Some(2), true));
    assert!(rt; room_of::<Noting<Noting<N>>>(alloc, 1_000) == (Some(4), true));
    assert!(rt; room_of::<Noting<N>>(alloc, usize::MAX) == (Some(2), false));
}

#[test]
fn room_of_several_calls(rt: HostRuntime) {
    gets_room::<Net, HostRuntime>(&rt, rt.alloc());
}

// A dial wakes the task that waits at the listener, which takes the connection: the channel that leads to the
// listener, the one that leads to the dialer, and the dialer's port.
fn connects<N: Free, E: Env>(
    rt: &impl Abort,
    alloc: Global,
    net: &mut N,
    env: &mut E,
    listener: &mut N::Listener,
    socket: Addr,
) -> (Line<N>, Line<N>, u16) {
    assert!(rt; accept(net, env, listener, true) == Ok(0));
    let reply = net.dial(env, socket).expect(rt, "a listener is there");
    let Reply {
        value,
        wake,
        link: _,
    } = reply;
    let (sink, stream) = value;
    assert!(rt; wake == Some(5));
    let taken = net
        .poll_accept(env, listener, 5)
        .expect(rt, "a connection waits");
    match taken {
        Poll::Ready((dialer, back, there)) => {
            (
                Line::new(alloc, sink, there),
                Line::new(alloc, back, stream),
                dialer.port,
            )
        }
        Poll::Pending => panic!(rt; "a connection waits"),
    }
}

// What the dialer says to the listener.
const SPOKEN_THERE: &str = "\
peek 9 -> got 0; recv 5 -> waits; send 0 -> done; send 3 -> done; send 4 -> done wakes 2; poll-recv -> got 5; peek 0 -> got 0; \
peek 9 -> got 2; send 1 -> done; send 0 -> done; recv 0 -> got 0; recv 2 -> got 2; recv 1 -> got 1; recv 0 -> got 0";

// What the listener says to the dialer.
const SPOKEN_BACK: &str =
    "send 2 -> done; peek 1 -> got 0; recv 1 -> got 1; recv 2 -> waits; send 1 -> done wakes 2; poll-recv -> got 2";

// One listener and one dialer after the other, and what they say to each other.
fn serves<N: Free, E: Env>(
    rt: &impl Abort,
    alloc: Global,
    net: &mut N,
    env: &mut E,
    listener: &mut N::Listener,
    socket: Addr,
) -> u16 {
    let (there, back, port) = connects(rt, alloc, net, env, listener, socket);
    there.takes_all(rt, net, env, SPOKEN_THERE);
    back.takes_all(rt, net, env, SPOKEN_BACK);
    port
}

// Two dialers wait at the listener, and are taken in the order of their dials.
fn takes_two<N: Free, E: Env>(
    rt: &impl Abort,
    net: &mut N,
    env: &mut E,
    listener: &mut N::Listener,
    socket: Addr,
    port: u16,
) {
    assert!(rt; dials(net, env, socket, 2, Ending::Done) == 2);
    let next = accept(net, env, listener, true);
    assert!(rt; next == Ok(port.wrapping_add(1)));
    let last = accept(net, env, listener, true);
    assert!(rt; last == Ok(port.wrapping_add(2)));
}

// Two listeners, of which the second serves two dialers, keeps two waiting, and serves one more.
fn server_and_client<N: Free, E: Env>(
    rt: &impl Abort,
    alloc: Global,
    net: &mut N,
    env: &mut E,
    near: Addr,
    far: Addr,
) {
    let mut server = net.bind(env, near).expect(rt, "the address is free");
    let mut other = net.bind(env, far).expect(rt, "the address is free");
    let _ = serves(rt, alloc, net, env, &mut server, near);
    let _ = serves(rt, alloc, net, env, &mut other, far);
    let port = serves(rt, alloc, net, env, &mut other, far);
    takes_two(rt, net, env, &mut other, far, port);
    let _ = serves(rt, alloc, net, env, &mut other, far);
    net.close_listener(server);
    net.close_listener(other);
    assert!(rt; net.next_woken().is_none());
}

#[test]
fn server_and_client_over_memory(rt: HostRuntime) {
    let alloc = rt.alloc();
    let mut net = memory(&rt, alloc);
    server_and_client(&rt, alloc, &mut net, &mut NoEnv, here(4000), v6(4000));
    server_and_client(&rt, alloc, &mut net, &mut NoEnv, v6(5000), here(5000));
    drop(net);
}

// Both wrappers count the bytes.
fn wraps_twice<N: Free>(rt: &impl Abort, alloc: Global, inner: N) -> N {
    let mut net = Noting::new(alloc, Noting::new(alloc, inner));
    server_and_client(rt, alloc, &mut net, &mut NoEnv, here(7000), v6(7000));
    let (inner, sent, received) = net.into_parts();
    assert!(rt; (sent, received) == (44, 44));
    let (inner, sent, received) = inner.into_parts();
    assert!(rt; (sent, received) == (44, 44));
    inner
}

#[test]
fn server_and_client_over_two_wrappers(rt: HostRuntime) {
    let net = memory(&rt, rt.alloc());
    drop(wraps_twice(&rt, rt.alloc(), net));
}

const WAITS: &str = "send 2 -> done; recv 3 -> waits; send 1 -> done wakes 2; poll-recv -> got 3";

// Takes the steps on each of two channels, which stay.
fn takes_on_both<N: Free>(rt: &impl Abort, net: &mut N, first: &mut Line<N>, second: &mut Line<N>) {
    first.takes(rt, net, &mut NoEnv, WAITS);
    second.takes(rt, net, &mut NoEnv, WAITS);
}

#[test]
fn channels_side_by_side(rt: HostRuntime) {
    let alloc = rt.alloc();
    let mut net = memory(&rt, alloc);
    let mut first = line_of(&rt, alloc, &mut net, 65536);
    let mut second = line_of(&rt, alloc, &mut net, 65536);
    takes_on_both(&rt, &mut net, &mut first, &mut second);
    let third = line_of(&rt, alloc, &mut net, usize::MAX);
    third.takes_all(&rt, &mut net, &mut NoEnv, WAITS);
    first.hangs_up(&rt, &mut net, (None, None));
    second.hangs_up(&rt, &mut net, (None, None));
    drop(net);
}

// The stream closes first, and then a `send` fails.
fn fails_to_send<N: Free, E: Env>(rt: &impl Abort, net: &mut N, env: &mut E, line: Line<N>) {
    let alloc = line.alloc;
    let (mut sink, stream, _) = line.into_halves();
    let _ = net.close_stream(stream);
    let refused = put(net, env, &mut sink, IoBufs::new(alloc), 1);
    assert!(rt; refused == Ending::SendFailed);
    let _ = net.close_sink(sink);
}

const LOSES_BYTES: &str = "\
recv 2 -> waits; send 3 -> done wakes 2; poll-recv -> got 2; send 65537 -> waits; recv 2 -> got 2 wakes 1; poll-send -> done; \
recv 70000 -> waits";

// Calls that succeed, wait and fail.
fn ends_each_way<N: Free, E: Env>(
    rt: &impl Abort,
    alloc: Global,
    net: &mut N,
    env: &mut E,
    socket: Addr,
) {
    let mut listener = net.bind(env, socket).expect(rt, "the address is free");
    assert!(rt; bind(net, env, socket) == Ending::BindFailed);
    assert!(rt; dial(net, env, v6(1)) == Ending::ConnectionFailed);
    let (there, back, _) = connects(rt, alloc, net, env, &mut listener, socket);
    outlives(rt, net, env, there, LOSES_BYTES, Some(2), "recv 1 -> fails");
    fails_to_send(rt, net, env, back);
    net.close_listener(listener);
}

// What a wrapper notes of them.
fn notes_endings<N: Free>(rt: &impl Abort, alloc: Global, inner: N) -> N {
    let mut net = Noting::new(alloc, inner);
    let mut env = Notebook::new(alloc);
    ends_each_way(rt, alloc, &mut net, &mut env, here(4000));
    let text = env.text(alloc).expect(rt, "room");
    drop(env);
    assert!(rt;
        text.as_str()
            == "bind_attempt bind_success bind_attempt bind_failure \
        dial_attempt dial_failure accept_attempt dial_attempt dial_success accept_success \
        recv_attempt send_attempt send_success recv_success 2 send_attempt recv_attempt recv_success 2 \
        send_success recv_attempt recv_failure send_attempt send_failure "
    );
    drop(text);
    net.into_parts().0
}

#[test]
fn notes_of_each_ending(rt: HostRuntime) {
    let net = memory(&rt, rt.alloc());
    drop(notes_endings(&rt, rt.alloc(), net));
}

// An address of another host.
fn anywhere(last: u8) -> Addr {
    Addr {
        ip: Ip::V4([10, 0, 0, last]),
        port: 40000,
    }
}

// Binds at as many addresses at once, and dials the last bound.
fn binds_many<N: Free>(net: &mut N, left: u8) -> Ending {
    match net.bind(&mut NoEnv, anywhere(left)) {
        Ok(listener) => {
            let seen = if left == 0 {
                dial(net, &mut NoEnv, anywhere(0))
            } else {
                binds_many(net, left - 1)
            };
            net.close_listener(listener);
            seen
        }
        Err(error) => seen_error(error),
    }
}

// Opens as many channels at once. Each is sent its own bytes before the next one is opened, and gives them when that one
// is closed.
fn opens_many(rt: &impl Abort, alloc: Global, net: &mut Net, left: u16) {
    let mut line = line_of(rt, alloc, net, 3);
    line.begin_at(left as usize);
    line.takes(rt, net, &mut NoEnv, "send 2 -> done");
    if left > 0 {
        opens_many(rt, alloc, net, left - 1);
    }
    line.takes_all(rt, net, &mut NoEnv, "recv 2 -> got 2");
}

// As many connections at once through one listener. A byte of its own is sent on each way of each, and received once the
// later connections are closed.
fn connects_many<N: Free>(
    rt: &impl Abort,
    alloc: Global,
    net: &mut N,
    listener: &mut N::Listener,
    left: u16,
) {
    if left == 0 {
        return;
    }
    let (mut there, mut back, _) = connects(rt, alloc, net, &mut NoEnv, listener, here(4000));
    there.begin_at(left as usize);
    back.begin_at(left as usize);
    there.takes(rt, net, &mut NoEnv, "send 1 -> done");
    back.takes(rt, net, &mut NoEnv, "send 1 -> done");
    connects_many(rt, alloc, net, listener, left - 1);
    there.takes_all(rt, net, &mut NoEnv, "recv 1 -> got 1");
    back.takes_all(rt, net, &mut NoEnv, "recv 1 -> got 1");
}

#[test]
fn a_thousand_connections(rt: HostRuntime) {
    let alloc = rt.alloc();
    let mut net = memory(&rt, alloc);
    let mut listener = net
        .bind(&mut NoEnv, here(4000))
        .expect(&rt, "the address is free");
    connects_many(&rt, alloc, &mut net, &mut listener, 1000);
    net.close_listener(listener);
    drop(net);
}

#[test]
fn many_live_at_once(rt: HostRuntime) {
    let mut net = memory(&rt, rt.alloc());
    assert!(rt; binds_many(&mut net, 200) == Ending::Done);
    opens_many(&rt, rt.alloc(), &mut net, 1000);
    drop(net);
}
