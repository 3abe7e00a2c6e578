// Runs by the calls of the machine, beside their journals.

use crate::replay::journal_of;
use crate::said::said_in;
use crate::steady::STEADY_DRAW;
use rt_audit::{Entry, Journal};
use rt_base::{MAX_TIME, NoMemory};
use rt_journals::{
    BEGIN, TASKS, Unread, WAITS, add_line, begin_of, entries_and_silent_in, entries_in, parts_of,
};
use rt_machine::Machine;
use rt_model::Begin;
use std::alloc::Global;
use std::process::Abort;
use std::test::Fail;

/// The journal of a run that makes the calls and gives the answers of these entries.
fn journal_again(alloc: Global, begin: Begin, entries: &[Entry]) -> Result<Journal, NoMemory> {
    if begin.start > MAX_TIME {
        return Err(NoMemory);
    }
    let said = said_in(alloc, entries)?;
    journal_of(alloc, begin, said.as_slice())
}

/// The lines of these entries, and before each round those of its draws.
fn lines_with_draws(alloc: Global, entries: &[Entry]) -> Result<String, NoMemory> {
    let mut lines = String::new(alloc);
    for entry in entries {
        add_draws(&mut lines, entry)?;
        add_line(alloc, &mut lines, entry)?;
    }
    Ok(lines)
}

/// Adds the draws of a round in plain order, one for each number but the first.
fn add_draws(lines: &mut String, entry: &Entry) -> Result<(), NoMemory> {
    if let Entry::Round { order } = entry {
        for _ in order.as_slice().iter().skip(1) {
            lines.push_str(STEADY_DRAW)?;
        }
    }
    Ok(())
}

/// The lines that a run writes that makes the calls and gives the answers of a journal. The journal's rounds are in plain order
/// and the draws before them aren't in it, so they are added.
fn wanted_in(alloc: Global, text: &str) -> Result<String, Unread> {
    let entries = entries_in(alloc, text)?;
    let wanted = lines_with_draws(alloc, entries.as_slice());
    drop(entries);
    Ok(wanted?)
}

/// The journal of such a run.
fn journal_in(alloc: Global, begin: Begin, text: &str) -> Result<Journal, Unread> {
    let entries = entries_and_silent_in(alloc, text)?;
    let journal = journal_again(alloc, begin, entries.as_slice());
    drop(entries);
    Ok(journal?)
}

/// Stops at the first entry with another line.
fn has_lines(rt: &impl Abort, alloc: Global, run: &str, entries: &[Entry], wanted: &str) {
    let mut rest = wanted;
    for entry in entries {
        let mut line = String::new(alloc);
        add_line(alloc, &mut line, entry).expect(rt, "room");
        match rest.strip_prefix(line.as_str()) {
            Some(tail) => rest = tail,
            None => panic!(rt; "{run} writes {line}"),
        }
    }
    assert!(rt; rest.is_empty(), "{run} doesn't write {rest}");
}

/// Runs a journal again, which begins by the beginning of this word.
fn replays_under(rt: &impl Abort, alloc: Global, name: &str, word: &str, text: &str) {
    let begin = begin_of(word).expect(rt, word);
    let wanted = wanted_in(alloc, text).expect(rt, "lines of a journal");
    let journal = journal_in(alloc, begin, text).expect(rt, "lines of a journal");
    let run = format!(in alloc; "{name} {word}").expect(rt, "room");
    has_lines(rt, alloc, run.as_str(), journal.entries(), wanted.as_str());
}

/// Runs the journal of a head again, under each of its beginnings.
fn replays(rt: &impl Abort, alloc: Global, block: &'static str) {
    let (name, begins, text) = parts_of(block).expect(rt, block);
    for word in begins.split(' ') {
        replays_under(rt, alloc, name, word, text);
    }
}

#[test]
fn journals_of_runs(rt: HostRuntime) {
    for text in [TASKS, WAITS] {
        for block in text.strip_prefix("== ").unwrap_or("").split("\n== ") {
            replays(&rt, rt.alloc(), block);
        }
    }
}

/// Runs that have many of something: how many of it and how many entries, for each of two sizes or for one, and what they have.
///
/// Below that is what the root and its tasks call and answer, once, or once for each number from 0 on, in which `A+B` is A and
/// B times the number. Who calls or answers and what is replied isn't looked at, but for a sleep's alarm and a slot's failed
/// send.
const MANY: &str = "\
== 2 31, 3000 27013 | The root spawns tasks, each of which is ready at its first visit, and waits for ever.
each call 0 child 0 t -> ok; call 0 spawn 1+2 -> ok
once answer 0 pending
each answer 0 ready; call 0 close-node 2+2 -> ok; answer 0 ended
== 2 47, 1000 12023 | Each task spawns the next. The last wakes the root, which aborts the first, and all of them end.
each call 0 child 0+2 t -> ok; call 0 spawn 1+2 -> ok; answer 0 pending
once call 0 wake 0 -> ok; answer 0 pending; call 0 abort 1 -> ok; answer 0 pending
== 1 21, 3000 21014 | The root sets alarms at once, and is visited for each.
each call 0 sleep-poll 5000000 -> ok
== 3000 6012 | The root makes a chain of nodes, and closes them.
each call 0 child 0+1 n -> ok
each call 0 close-node 0+1 -> ok
== 1 53, 3000 60033 | Tasks wait for a value, which the root gives once they all wait, and for whose completion it waits then.
once call 0 signaler -> ok
each call 0 clone-signal 1 -> ok; call 0 child 0 t -> ok; call 0 spawn 1+2 -> ok
once call 0 sleep-poll 5000000 -> ok; answer 0 pending
each call 0 signal-poll 2+1 -> ok; answer 0 pending
once call 0 signal 1 5 -> ok; call 0 completion-poll 1 -> ok; call 0 signal-close 1 -> ok; answer 0 pending
each call 0 signal-poll 2+1 -> ok; answer 0 ready; call 0 signal-close 2+1 -> ok; call 0 close-node 2+2 -> ok; answer 0 ended
once call 0 completion-poll 1 -> ok; answer 0 ready";

/// The number that a word says for this one.
fn number_in(word: &str, number: u64) -> Option<u64> {
    let (first, step) = word.split_once('+')?;
    let step = step.parse::<u64>().ok()?;
    Some(
        first
            .parse::<u64>()
            .ok()?
            .wrapping_add(step.wrapping_mul(number)),
    )
}

/// Adds a line that is said, for this number.
fn add_said(lines: &mut String, line: &str, number: u64) -> Result<(), NoMemory> {
    for word in line.split(' ') {
        match number_in(word, number) {
            Some(number) => write!(lines, "{number}")?,
            None => lines.push_str(word)?,
        }
        lines.push(' ')?;
    }
    let _ = lines.pop();
    Ok(lines.push('\n')?)
}

/// Adds the lines that are said, which `; ` parts, for this number.
fn add_each(rt: &impl Abort, lines: &mut String, said: &str, number: u64) {
    for line in said.split("; ") {
        add_said(lines, line, number).expect(rt, "room");
    }
}

/// Adds the lines of a row, once or for each number before this one.
fn add_row(rt: &impl Abort, lines: &mut String, row: &str, count: u64) {
    let (times, said) = match row.split_once(' ') {
        Some(("once", said)) => (1, said),
        Some(("each", said)) => (count, said),
        _ => panic!(rt; "{row}"),
    };
    for number in 0..times {
        add_each(rt, lines, said, number);
    }
}

/// How many entries a run has that says these rows with so many numbers, behind a maker that makes no calls.
fn entries_of(rt: &impl Abort, alloc: Global, rows: &str, count: u64) -> usize {
    let mut lines = String::new(alloc);
    add_row(rt, &mut lines, "once answer 0 ready", 1);
    for row in rows.lines() {
        add_row(rt, &mut lines, row, count);
    }
    let journal = journal_in(alloc, BEGIN, lines.as_str()).expect(rt, "lines of a journal");
    journal.len()
}

/// How many of something a run has, and how many entries.
fn size_in(size: &str) -> Option<(u64, usize)> {
    let (count, entries) = size.split_once(' ')?;
    Some((count.parse::<u64>().ok()?, entries.parse::<usize>().ok()?))
}

/// Takes each size of a run.
fn runs_each(rt: &impl Abort, alloc: Global, block: &str) {
    let (head, rows) = block.split_once('\n').expect(rt, block);
    let (sizes, what) = head.split_once(" | ").expect(rt, head);
    for size in sizes.split(", ") {
        let (count, entries) = size_in(size).expect(rt, head);
        let seen = entries_of(rt, alloc, rows, count);
        assert!(rt; seen == entries, "{seen} entries with {count}: {what}");
    }
}

#[test]
fn many_of_each(rt: HostRuntime) {
    for block in MANY.strip_prefix("== ").unwrap_or("").split("\n== ") {
        runs_each(&rt, rt.alloc(), block);
    }
}

#[test]
fn surface(rt: HostRuntime) -> Result<(), Fail> {
    let alloc = rt.alloc();
    let Ok(mut machine) = Machine::begin(alloc, Journal::new(alloc), BEGIN) else {
        panic!(rt; "no room for a start");
    };
    machine.facts();
    assert!(rt; machine.time() == 0);
    assert!(rt; !machine.is_short() && !machine.has_result(0));
    machine.lack();
    assert!(rt; machine.is_short() && machine.take_short() && !machine.is_short());
    Ok(())
}
