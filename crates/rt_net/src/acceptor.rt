// One listener, and the connections that wait at it.
ghost use Rattle.std.specs.Prelude.{◌≡◌, [], ◌∷◌, ◌++◌, true, None, OnErr, IfOk, OnOk};
ghost use Rattle.rt_net.specs.Network.{Accepts, after_accept, fresh_listener, closed_listener, given_up_accept, IsQuietListener, after_closing, woken_by_closing};

use crate::channels::{close_sink, close_stream};
use crate::pipe::Pipe;
use crate::waited::Waited;
use rt_base::{Addr, NoMemory, Poll};
use std::alloc::Global;
use std::collections::VecDeque;
use std::marker::Model;
use std::mem;

/// A connection that waits to be accepted, with the numbers of the halves that the listener's side gets.
#[derive(Clone, Copy, Debug, Drop)]
pub struct Connection {
    /// The address that was dialed from.
    pub dialer: Addr,
    /// The number of the sink.
    pub sink: u64,
    /// The number of the stream.
    pub stream: u64,
}

/// A listener: the connections that wait in the order of their dials, the task that waits for one, and whether an `accept`
/// is started.
/// Closing a connection wakes at most two tasks. The room for them is taken at each dial, so closing takes no memory.
#[derive(Debug, Drop)]
pub struct Acceptor {
    alive: bool,
    waiting: VecDeque<Connection>,
    woken: VecDeque<u64>,
    task: Option<u64>,
    accepting: bool,
}

impl Model for Acceptor {
    ghost use Rattle.std.specs.Prelude.{◌≡◌, ◌*◌, ◌≤◌, [], ℕ, Some, length, true};
    ghost use Rattle.std.specs.VecDeque.{deque_capacity};
    ghost use Rattle.rt_net.specs.Network.{ListenerState, IsQuietListener};

    ghost Value = { ListenerState };

    ghost view = { λ a. record { alive = a.alive; waiting = a.waiting.items; task = a.task; accepting = a.accepting } };

    ghost invariant = { λ a. IsQuietListener (record { alive = a.alive; waiting = a.waiting.items; task = a.task; accepting = a.accepting }) × (a.woken.items ≡ []) × (2 * length a.waiting.items ≤ deque_capacity a.woken) };
}

impl Acceptor {
    /// Makes a listener where nothing waits.
    pub fn new(alloc: Global) -> Acceptor
        ensures { result ≡ fresh_listener }
    {
        Acceptor {
            alive: true,
            waiting: VecDeque::new(alloc),
            woken: VecDeque::new(alloc),
            task: None,
            accepting: false,
        }
    }

    /// Returns the task that waits for a connection, if any. None waits while one is there.
    pub fn waiting(&self) -> Option<u64>
        ensures task { result ≡ self.now.task }
        ensures quiet { IsQuietListener self.now }
    {
        self.task
    }

    /// Returns whether the listener wasn't closed.
    pub fn is_alive(&self) -> bool
        ensures { result ≡ self.now.alive }
    {
        self.alive
    }

    /// Adds a connection, and returns the task that this wakes. Where memory is refused nothing changes.
    pub fn push(&mut self, connection: Connection) -> Result<Option<u64>, NoMemory>
        ensures woken { IfOk result (λ wake. wake ≡ self.old.task) }
        ensures added { OnOk result (self.new ≡ record self.old { waiting = self.old.waiting ++ connection ∷ []; task = None }) }
        ensures refused { OnErr result (self.new ≡ self.old) }
    {
        let connections = self.waiting.len().checked_add(1).ok_or(NoMemory)?;
        let tasks = connections.checked_mul(2).ok_or(NoMemory)?;
        self.woken.reserve(tasks)?;
        self.waiting.push_back(connection)?;
        Ok(self.task.take())
    }

    /// Takes the first connection, or lets the task wait for one.
    pub fn accept(&mut self, task: u64) -> Poll<Connection>
        requires { self.old.alive ≡ true }
        ensures first { Accepts self.old result }
        ensures after { self.new ≡ after_accept self.old task result }
    {
        match self.waiting.pop_front() {
            Some(connection) => {
                self.task = None;
                self.accepting = false;
                Poll::Ready(connection)
            }
            None => {
                self.task = Some(task);
                self.accepting = true;
                Poll::Pending
            }
        }
    }

    /// Gives a started `accept` up.
    pub fn give_up(&mut self)
        ensures { self.new ≡ given_up_accept self.old }
    {
        self.task = None;
        self.accepting = false;
    }

    /// Closes it and both halves of each connection that waits, and returns the tasks that this wakes. It takes no
    /// memory.
    pub fn close(&mut self, channels: &mut Vec<Pipe>) -> VecDeque<u64>
        ensures listener { self.new ≡ closed_listener self.old }
        ensures channels { channels.new.items ≡ after_closing channels.old.items self.old.waiting }
        ensures woken { result.items ≡ woken_by_closing channels.old.items self.old.waiting }
    {
        self.alive = false;
        self.task = None;
        self.accepting = false;
        let empty = VecDeque::new(*self.woken.allocator());
        let mut woken = mem::replace(&mut self.woken, empty);
        let none = VecDeque::new(*self.waiting.allocator());
        let mut waiting = mem::replace(&mut self.waiting, none);
        while let Some(connection) = waiting.pop_front() {
            if let Some(task) = close_sink(channels, connection.sink) {
                woken.push_back_reserved(task);
            }
            if let Some(task) = close_stream(channels, connection.stream) {
                woken.push_back_reserved(task);
            }
        }
        woken
    }
}

impl Waited for Acceptor {
    ghost use Rattle.rt_net.specs.Network.{has_acceptor, IsQuietListener};

    ghost waited = { has_acceptor };

    ghost quiet = { IsQuietListener };

    fn anyone_waits(&self) -> bool {
        self.waiting().is_some()
    }
}
