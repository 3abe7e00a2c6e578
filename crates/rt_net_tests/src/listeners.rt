// Worked examples of listeners: their addresses, the ports of their dialers, started accepts, and whom a closing wakes. Each
// body is over any network, so it is proved from the trait alone.

use crate::calls::{accept, bind, dial, dial_wakes, dials, get, here, memory, put};
use crate::line::{Free, Taken, close, numbered, wanted_in};
use rt_base::{Addr, NoEnv};
use rt_bufs::IoBufs;
use rt_fixtures::{Ending, Noting};
use rt_net::Accepting;
use std::alloc::Global;
use std::fmt::Write;
use std::process::Abort;

// Dials with a listener at the address, which is closed then.
fn dials_listener<N: Free>(net: &mut N, socket: Addr, count: usize, end: Ending) -> usize {
    match net.bind(&mut NoEnv, socket).ok() {
        Some(listener) => {
            let ended = dials(net, &mut NoEnv, socket, count, end);
            net.close_listener(listener);
            ended
        }
        None => 0,
    }
}

// So many dials are taken and the others refused, and then no port is left.
fn uses_ports_up<N: Free>(rt: &impl Abort, net: &mut N, taken: usize) {
    let refused = 28232usize.saturating_sub(taken);
    let reached = dials_listener(net, here(4000), taken, Ending::Done);
    let failed = dials(
        net,
        &mut NoEnv,
        here(4000),
        refused,
        Ending::ConnectionFailed,
    );
    assert!(rt; (reached, failed) == (taken, refused));
    let last = dial(net, &mut NoEnv, here(4000));
    assert!(rt; last == Ending::PortsExhausted);
    let heard = dials_listener(net, here(5000), 1, Ending::PortsExhausted);
    assert!(rt; heard == 1);
}

#[test]
fn ports_run_out(rt: HostRuntime) {
    for taken in [28232, 14116, 0] {
        let mut net = memory(&rt, rt.alloc());
        uses_ports_up(&rt, &mut net, taken);
        drop(net);
    }
}

// Binds twice while the listener lives, and once after it.
fn binds_again<N: Free>(net: &mut N, socket: Addr) -> (Ending, Ending) {
    match net.bind(&mut NoEnv, socket).ok() {
        Some(listener) => {
            let again = bind(net, &mut NoEnv, socket);
            net.close_listener(listener);
            (again, bind(net, &mut NoEnv, socket))
        }
        None => (Ending::Other, Ending::Other),
    }
}

// How many of so many ports can be bound at.
fn binds<N: Free>(net: &mut N, count: u16) -> usize {
    let mut bound = 0usize;
    for port in 0..count {
        if bind(net, &mut NoEnv, here(port)) == Ending::Done {
            bound = bound.saturating_add(1);
        }
    }
    bound
}

// A dialer's address and one that was bound before can't be bound at, and many others can.
fn binds_addresses<N: Free>(rt: &impl Abort, net: &mut N) {
    assert!(rt; bind(net, &mut NoEnv, here(32768)) == Ending::BindFailed);
    assert!(rt; binds_again(net, here(61000)) == (Ending::BindFailed, Ending::BindFailed));
    assert!(rt; binds(net, 10000) == 10000);
}

#[test]
fn bound_addresses(rt: HostRuntime) {
    let mut net = memory(&rt, rt.alloc());
    binds_addresses(&rt, &mut net);
    drop(net);
}

// How an accept ends.
fn accept_ending(accepted: Result<u16, Ending>) -> Ending {
    match accepted {
        Ok(0) => Ending::Waits,
        Ok(_) => Ending::Done,
        Err(ending) => ending,
    }
}

// How a call at a listener ends, and the task that it wakes.
fn take_at<N: Free>(
    rt: &impl Abort,
    net: &mut N,
    listener: &mut N::Listener,
    socket: Addr,
    call: &str,
) -> Taken {
    match call {
        "accept" => (accept_ending(accept(net, &mut NoEnv, listener, true)), None),
        "poll-accept" => (
            accept_ending(accept(net, &mut NoEnv, listener, false)),
            None,
        ),
        "give-up-accept" => {
            net.give_up_accept(listener);
            (Ending::Done, None)
        }
        "dial" => dial_wakes(net, &mut NoEnv, socket),
        call => panic!(rt; "{call}"),
    }
}

// What a listener shows, and the calls at it, with how each ends, and whether an `accept` is started then.
const HEARD: &str = "\
an accept whose connection comes, which is started behind its wake too | accept -> waits, started; dial -> done wakes 5, started; poll-accept -> done
an accept that is given up where it waits | accept -> waits, started; give-up-accept -> done; dial -> done; accept -> done
an accept that is given up behind its wake, whose connection stays | accept -> waits, started; dial -> done wakes 5, started; give-up-accept -> done; poll-accept -> done
two accepts and polls in one wait | poll-accept -> waits, started; accept -> waits, started; poll-accept -> waits, started; dial -> done wakes 5, started; dial -> done, started; accept -> done; poll-accept -> done; poll-accept -> waits, started
accepts that need not wait | dial -> done; dial -> done; accept -> done; accept -> done; give-up-accept -> done; accept -> waits, started";

// Takes a step at a listener.
fn take_step_at<N: Free>(
    rt: &impl Abort,
    net: &mut N,
    listener: &mut N::Listener,
    socket: Addr,
    step: &str,
) {
    let (call, ends) = step.split_once(" -> ").expect(rt, step);
    let (ending, started) = match ends.strip_suffix(", started") {
        Some(ending) => (ending, true),
        None => (ends, false),
    };
    let wanted = wanted_in(ending).expect(rt, step);
    assert!(rt;
        take_at(rt, net, listener, socket, call) == wanted,
        "{step}"
    );
    assert!(rt; listener.is_accepting() == started, "{step}");
}

// Takes the steps of a row at a listener of its own.
fn hears<N: Free>(rt: &impl Abort, net: &mut N, socket: Addr, row: &str) {
    let (_, steps) = row.split_once(" | ").expect(rt, row);
    let mut listener = net
        .bind(&mut NoEnv, socket)
        .expect(rt, "the address is free");
    for step in steps.split("; ") {
        take_step_at(rt, net, &mut listener, socket, step);
    }
    net.close_listener(listener);
}

// Through a wrapper, and then by what it wrapped.
#[test]
fn started_accepts(rt: HostRuntime) {
    for row in HEARD.split('\n') {
        let mut net = Noting::new(rt.alloc(), memory(&rt, rt.alloc()));
        hears(&rt, &mut net, here(4000), row);
        let (mut inner, _, _) = net.into_parts();
        hears(&rt, &mut inner, here(5000), row);
        assert!(rt; !inner.anyone_waits());
        drop(inner);
    }
}

// Dials, receives so many bytes for one task and sends these for another, which ends so.
fn dials_and_waits<N: Free>(
    rt: &impl Abort,
    net: &mut N,
    socket: Addr,
    len: usize,
    bufs: IoBufs,
    tasks: (u64, u64),
    endings: (Ending, Ending),
) -> (N::Sink, N::Stream) {
    let reply = net
        .dial(&mut NoEnv, socket)
        .expect(rt, "a listener is there");
    let (mut sink, mut stream) = reply.value;
    let received = get(net, &mut NoEnv, &mut stream, len, tasks.0);
    let sent = put(net, &mut NoEnv, &mut sink, bufs, tasks.1);
    assert!(rt; (received, sent) == endings);
    (sink, stream)
}

// A dialer whose `recv` and `send` wait for these tasks, where `-` is none.
fn dials_for<N: Free>(
    rt: &impl Abort,
    alloc: Global,
    net: &mut N,
    socket: Addr,
    tasks: &str,
) -> (N::Sink, N::Stream) {
    let (receiver, sender) = tasks.split_once(' ').expect(rt, tasks);
    let (len, received, by) = match receiver.parse::<u64>() {
        Ok(task) => (1, Ending::Waits, task),
        Err(_) => (0, Ending::Got(0), 0),
    };
    let (count, sent, from) = match sender.parse::<u64>() {
        Ok(task) => (65537, Ending::Waits, task),
        Err(_) => (1, Ending::Done, 0),
    };
    let bufs = numbered(rt, alloc, 0, count);
    dials_and_waits(rt, net, socket, len, bufs, (by, from), (received, sent))
}

// The tasks that the last closing of a listener woke, each with a space before it.
fn tasks_woken<N: Free>(rt: &impl Abort, alloc: Global, net: &mut N) -> String {
    let mut text = String::new(alloc);
    while let Some(task) = net.next_woken() {
        write!(text, " {task}").expect(rt, "room");
    }
    text
}

// The tasks of three dialers whose `recv` and `send` wait, and those that the closing of their listener wakes: in the
// order of the dials, each one's receiver before its sender.
const WOKEN: &str = "\
7 1, 8 -, - 2 | 7 1 8 2
- -, 3 -, - - | 3
- 9, 9 -, 9 9 | 9 9 9 9
- -, - -, - - |";

// Closes the listener of three dialers, which wakes their tasks. Other calls leave these to be told.
fn wakes_dialers<N: Free>(rt: &impl Abort, alloc: Global, net: &mut N, socket: Addr, row: &str) {
    let (dialers, woken) = row.split_once(" |").expect(rt, row);
    let (first, others) = dialers.split_once(", ").expect(rt, row);
    let (second, third) = others.split_once(", ").expect(rt, row);
    let listener = net
        .bind(&mut NoEnv, socket)
        .expect(rt, "the address is free");
    let (first_sink, first_stream) = dials_for(rt, alloc, net, socket, first);
    let (second_sink, second_stream) = dials_for(rt, alloc, net, socket, second);
    let (third_sink, third_stream) = dials_for(rt, alloc, net, socket, third);
    net.close_listener(listener);
    let _ = close(net, first_sink, first_stream);
    let text = tasks_woken(rt, alloc, net);
    assert!(rt; text.as_str() == woken, "{row}");
    drop(text);
    let _ = close(net, second_sink, second_stream);
    let _ = close(net, third_sink, third_stream);
}

// Through a wrapper, and then by what it wrapped.
#[test]
fn closed_listener_wakes_its_dialers(rt: HostRuntime) {
    let alloc = rt.alloc();
    for row in WOKEN.split('\n') {
        let mut net = Noting::new(alloc, memory(&rt, alloc));
        wakes_dialers(&rt, alloc, &mut net, here(4000), row);
        let (mut inner, _, _) = net.into_parts();
        wakes_dialers(&rt, alloc, &mut inner, here(5000), row);
        drop(inner);
    }
}
