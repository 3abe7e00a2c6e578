// A network in memory, and single calls on any network, with how each ends.

use crate::line::{Free, Taken, close};
use rt_base::{Addr, Env, Ip, Poll};
use rt_bufs::IoBufs;
use rt_fixtures::{Ending, got, seen, seen_error};
use rt_net::{Net, Receiving, Sending};
use std::alloc::Global;
use std::process::Abort;

// A network in memory.
pub fn memory(rt: &impl Abort, alloc: Global) -> Net {
    Net::new(alloc).expect(rt, "room")
}

pub fn here(port: u16) -> Addr {
    Addr {
        ip: Ip::V4([127, 0, 0, 1]),
        port,
    }
}

pub fn v6(port: u16) -> Addr {
    Addr {
        ip: Ip::V6([0, 0, 0, 0, 0, 0, 0, 1]),
        port,
    }
}

// Sends where no `send` waits.
pub fn put<N: Free, E: Env>(
    net: &mut N,
    env: &mut E,
    sink: &mut N::Sink,
    bufs: IoBufs,
    task: u64,
) -> Ending {
    if sink.is_sending() {
        drop(bufs);
        return Ending::Other;
    }
    seen(net.send(env, sink, bufs, task).value)
}

// Receives where no `recv` waits, and else polls it.
pub fn get<N: Free, E: Env>(
    net: &mut N,
    env: &mut E,
    stream: &mut N::Stream,
    len: usize,
    task: u64,
) -> Ending {
    if stream.is_receiving() {
        return got(net.poll_recv(env, stream, task));
    }
    match net.recv(env, stream, len, task) {
        Ok(reply) => got(Ok(reply.value)),
        Err(error) => seen_error(error),
    }
}

// Dials, closes what was dialed, and says how that was refused, or whom it woke.
pub fn dial_wakes<N: Free, E: Env>(net: &mut N, env: &mut E, socket: Addr) -> Taken {
    match net.dial(env, socket) {
        Ok(reply) => {
            let (sink, stream) = reply.value;
            let _ = close(net, sink, stream);
            (Ending::Done, reply.wake)
        }
        Err(error) => (seen_error(error), None),
    }
}

// The same without whom it woke.
pub fn dial<N: Free, E: Env>(net: &mut N, env: &mut E, socket: Addr) -> Ending {
    dial_wakes(net, env, socket).0
}

// Binds, closes what was bound, and says how that was refused.
pub fn bind<N: Free, E: Env>(net: &mut N, env: &mut E, socket: Addr) -> Ending {
    match net.bind(env, socket) {
        Ok(listener) => {
            net.close_listener(listener);
            Ending::Done
        }
        Err(error) => seen_error(error),
    }
}

// How many of so many dials end so.
pub fn dials<N: Free, E: Env>(
    net: &mut N,
    env: &mut E,
    socket: Addr,
    count: usize,
    end: Ending,
) -> usize {
    let mut ended = 0usize;
    for _ in 0..count {
        if dial(net, env, socket) == end {
            ended = ended.saturating_add(1);
        }
    }
    ended
}

// Accepts a connection, closes it, and returns its dialer's port, or 0 where none waits, or how that was refused.
pub fn accept<N: Free, E: Env>(
    net: &mut N,
    env: &mut E,
    listener: &mut N::Listener,
    first: bool,
) -> Result<u16, Ending> {
    let taken = if first {
        net.accept(env, listener, 5)
    } else {
        net.poll_accept(env, listener, 5)
    };
    match taken {
        Ok(Poll::Ready((dialer, sink, stream))) => {
            let _ = close(net, sink, stream);
            Ok(dialer.port)
        }
        Ok(Poll::Pending) => Ok(0),
        Err(error) => Err(seen_error(error)),
    }
}
