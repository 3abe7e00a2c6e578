// Calls on signals and on a shutdown with what each returns, and many of each.

use crate::told::holds;
use rt_base::{Error, Poll};
use rt_super::{NOBODY, Signals, Stopped, Stopper};
use std::alloc::Global;
use std::process::Abort;

/// What a call comes to: a word and a number, which is 0 where there is none.
type Came<'a> = (&'a str, i128);

/// Signals, and a shutdown that is the first among them.
#[derive(Drop)]
struct Shutdown {
    signals: Signals,
    stopper: Stopper,
}

impl Shutdown {
    fn new(rt: &impl Abort, alloc: Global) -> Shutdown {
        let mut signals = Signals::new(alloc);
        let stopper = Stopper::new(&mut signals).expect(rt, "room");
        Shutdown { signals, stopper }
    }
}

/// Makes a call, which has a word and up to two numbers.
fn make(rt: &impl Abort, shutdown: &mut Shutdown, call: (&str, &str, &str)) -> Came<'static> {
    let signals = &mut shutdown.signals;
    match call {
        ("add", "", "") => made(signals.add().ok()),
        ("clone", first, "") => cloned(signals.clone_signal(place(rt, first))),
        ("poll", first, second) => shown(signals.poll_signal(place(rt, first), place(rt, second))),
        ("poll-completion", first, second) => {
            completes(signals.poll_completion(place(rt, first), place(rt, second)))
        }
        ("signal", first, second) => {
            signals.signal(place(rt, first), value(rt, second));
            DONE
        }
        ("stop", first, "") => made(shutdown.stopper.stop(signals, value(rt, first)).ok()),
        ("stopped", "", "") => met(shutdown.stopper.stopped(signals).ok()),
        ("woken", "", "") => number(signals.next_woken()),
        call => close(rt, signals, call),
    }
}

const DONE: Came<'static> = ("done", 0);

/// Gives a signal, a signaler or a completion up.
fn close(rt: &impl Abort, signals: &mut Signals, call: (&str, &str, &str)) -> Came<'static> {
    match call {
        ("close", first, "") => signals.close_signal(place(rt, first)),
        ("close-signaler", first, "") => signals.close_signaler(place(rt, first)),
        ("close-completion", first, "") => signals.close_completion(place(rt, first)),
        (word, first, second) => panic!(rt; "{word} {first} {second}"),
    }
    DONE
}

/// The number that a word writes.
fn place(rt: &impl Abort, word: &str) -> u64 {
    if word == "nobody" {
        return NOBODY;
    }
    word.parse::<u64>().expect(rt, word)
}

fn value(rt: &impl Abort, word: &str) -> i32 {
    word.parse::<i32>().expect(rt, word)
}

fn number(answer: Option<u64>) -> Came<'static> {
    match answer {
        Some(number) => ("number", number as i128),
        None => ("nobody", 0),
    }
}

/// The number of what is made where there is memory.
fn made(answer: Option<u64>) -> Came<'static> {
    match answer {
        Some(_) => number(answer),
        None => ("no memory", 0),
    }
}

fn cloned(answer: Result<u64, Error>) -> Came<'static> {
    match answer {
        Ok(signal) => number(Some(signal)),
        Err(error) => refused(error),
    }
}

fn shown(answer: Result<Poll<i32>, Error>) -> Came<'static> {
    match answer {
        Ok(Poll::Pending) => ("pending", 0),
        Ok(Poll::Ready(value)) => ("value", value as i128),
        Err(error) => refused(error),
    }
}

fn completes(answer: Result<Poll<()>, Error>) -> Came<'static> {
    match answer {
        Ok(Poll::Pending) => ("pending", 0),
        Ok(Poll::Ready(())) => ("complete", 0),
        Err(error) => refused(error),
    }
}

fn met(stopped: Option<Stopped>) -> Came<'static> {
    match stopped {
        Some(Stopped::Waiting(signal)) => number(Some(signal)),
        Some(Stopped::Resolved(value)) => ("value", value as i128),
        None => ("no memory", 0),
    }
}

fn named(error: &Error) -> &'static str {
    match error {
        Error::Closed => "closed",
        Error::UnknownToken => "unknown",
        _ => "another error",
    }
}

fn refused(error: Error) -> Came<'static> {
    let word = named(&error);
    drop(error);
    (word, 0)
}

/// Runs, each after a line that says what it shows: calls, and behind `->` what each returns. Those on a shutdown are of the one
/// that the signals begin with, by the number 0.
const RUNS: &str = "\
== A value wakes who waits by a signal, and is shown again. The signal that is closed last completes.
add -> 1; clone 1 -> 2; clone 2 -> 3; poll 1 7 -> pending; poll 2 8 -> pending; poll 2 9 -> pending
poll 3 nobody -> pending; poll-completion 1 6 -> pending; signal 2 5; woken -> nobody
poll 3 nobody -> pending; signal 1 -5; poll 4 1 -> unknown; poll-completion 2 1 -> unknown
clone 4 -> unknown; woken -> 7; woken -> 9; woken -> nobody; poll 1 7 -> value -5; signal 1 6
close-signaler 1; poll 1 7 -> value -5; close 1; poll 1 7 -> unknown; close 2; woken -> nobody
poll 3 7 -> value -5; poll-completion 1 6 -> pending; close 3; woken -> 6; woken -> nobody
poll-completion 1 6 -> complete; poll-completion 1 6 -> complete; close-completion 1
poll-completion 1 6 -> unknown
== A signaler that is given up closes its signals. A value that comes to no open signal completes at once. \
A call that is not refused forgets whom the call before met.
add -> 1; clone 1 -> 2; poll 1 3 -> pending; poll 2 4 -> pending; poll-completion 1 5 -> pending
close-signaler 1; poll 2 4 -> closed; poll-completion 1 5 -> unknown; woken -> 3; woken -> 4
woken -> nobody; signal 1 7; poll 1 3 -> closed; clone 2 -> 3; poll 3 3 -> closed; add -> 4
poll 4 1 -> pending; close 4; poll-completion 4 2 -> pending; signal 4 0; woken -> 2
woken -> nobody; poll-completion 4 2 -> complete; add -> 5; poll 5 1 -> pending; signal 5 0
poll 5 1 -> value 0; woken -> nobody
== The first stop wakes who waits by a signal of the shutdown, and decides its value. \
The signal that is closed last completes the later stops too.
stopped -> 1; stopped -> 2; poll 1 11 -> pending; poll 2 12 -> pending; stop 3 -> 3; woken -> 11
woken -> 12; woken -> nobody; poll-completion 3 13 -> pending; stop 4 -> 4; woken -> nobody
poll-completion 4 14 -> pending; poll 1 11 -> value 3; poll 2 12 -> value 3; stopped -> value 3
close 1; woken -> nobody; stop -2147483648 -> 5; poll-completion 5 15 -> pending
poll 2 12 -> value 3; close 2; woken -> 13; woken -> 14; woken -> 15; woken -> nobody
poll-completion 4 14 -> complete; poll 0 1 -> unknown; poll-completion 0 1 -> unknown; stop 5 -> 6
poll-completion 6 1 -> complete; stopped -> value 3
== A stop completes at once where nobody has a signal.
stop 9 -> 1; woken -> nobody; poll-completion 1 1 -> complete
";

/// What is written behind a call.
fn wanted<'a>(rt: &impl Abort, words: &'a str) -> Came<'a> {
    match words.split_once(' ') {
        Some((word, number)) => (word, value(rt, number) as i128),
        None => wanted_alone(words),
    }
}

fn wanted_alone(word: &str) -> Came<'_> {
    match word.parse::<u64>() {
        Ok(number) => ("number", number as i128),
        Err(_) => (word, 0),
    }
}

/// Makes a call of a line, which returns what is written behind it.
fn answers(rt: &impl Abort, shutdown: &mut Shutdown, step: &str, line: &str) {
    let (call, words) = step.split_once(" -> ").unwrap_or((step, "done"));
    let (word, numbers) = call.split_once(' ').unwrap_or((call, ""));
    let (first, second) = numbers.split_once(' ').unwrap_or((numbers, ""));
    let came = make(rt, shutdown, (word, first, second));
    let wanted = wanted(rt, words);
    let are_same = came.0 == wanted.0 && came.1 == wanted.1;
    assert!(rt; are_same, "{step} in {line}");
}

fn answer_each(rt: &impl Abort, shutdown: &mut Shutdown, line: &str) {
    for step in line.split("; ") {
        answers(rt, shutdown, step, line);
    }
}

/// Makes the calls of a run, whose first line says what it shows.
fn make_each(rt: &impl Abort, alloc: Global, run: &str) {
    let (_, lines) = run.split_once('\n').expect(rt, run);
    holds(rt, run, !lines.is_empty());
    let mut shutdown = Shutdown::new(rt, alloc);
    for line in lines.lines() {
        answer_each(rt, &mut shutdown, line);
    }
}

#[test]
fn calls_are_answered(rt: HostRuntime) {
    holds(&rt, "runs", RUNS.starts_with("== "));
    for run in RUNS.split("== ").skip(1) {
        make_each(&rt, rt.alloc(), run);
    }
}

/// Makes calls, in which `#` stands for each number from the first to before the end.
fn repeat(
    rt: &impl Abort,
    alloc: Global,
    shutdown: &mut Shutdown,
    line: &str,
    numbers: (u64, u64),
) {
    for number in numbers.0..numbers.1 {
        let number = format!(in alloc; "{number}").expect(rt, "room");
        let line = line.replace(alloc, "#", number.as_str()).expect(rt, "room");
        answer_each(rt, shutdown, line.as_str());
    }
}

/// Lines of calls, each with the first number and the one behind the last of those that `#` stands for.
const THOUSANDS: &[(&str, (u64, u64))] = &[
    ("clone 0 -> #; poll # # -> pending", (1, 3_001)),
    ("stop 1 -> #", (3_001, 3_002)),
    ("woken -> #", (1, 3_001)),
    ("woken -> nobody", (0, 1)),
    (
        "stop 2 -> #; poll-completion # # -> pending",
        (3_002, 4_002),
    ),
    (
        "poll # nobody -> value 1; close #; woken -> nobody",
        (1, 3_000),
    ),
    ("close #", (3_000, 3_001)),
    ("woken -> #", (3_002, 4_002)),
    ("woken -> nobody", (0, 1)),
];

#[test]
fn thousands_wait_for_the_first_of_a_thousand_stops(rt: HostRuntime) {
    holds(&rt, "lines", !THOUSANDS.is_empty());
    let mut shutdown = Shutdown::new(&rt, rt.alloc());
    for &(line, numbers) in THOUSANDS {
        repeat(&rt, rt.alloc(), &mut shutdown, line, numbers);
    }
}
