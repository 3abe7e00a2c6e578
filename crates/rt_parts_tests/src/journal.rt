// The line of each entry, and each call once.

use crate::digest::{agree_on_an_event, in_place, kept, listed, note_all, push};
use crate::told::{holds, same};
use rt_audit::{
    AnswerKind, Call, CallReply, Caller, Entry, EventFields, EventLabel, FinishCause, Journal,
    Label, Moment, Order, Payload, Refusal, ShortLabel, error_code,
};
use rt_base::{Choice, Error, Items, Packed};
use std::alloc::Global;
use std::mem::size_of;
use std::process::Abort;

// a run keeps all its entries, so what one takes is most of what the run takes
const _: () = prove!(size_of::<Entry>() == 64);

/// Adds the line of an entry, and `|` behind it.
fn add_line(rt: &impl Abort, alloc: Global, text: &mut String, entry: &Entry) {
    entry.add_to(alloc, text).expect(rt, "room");
    text.push('|').expect(rt, "room");
}

/// Stops at the first entry with another line.
fn has_lines(rt: &impl Abort, alloc: Global, journal: &Journal, wanted: &str) {
    let mut text = String::new(alloc);
    for entry in journal.entries() {
        add_line(rt, alloc, &mut text, entry);
        assert!(rt; wanted.starts_with(text.as_str()), "{text}");
    }
    same(rt, "all lines", text.len(), wanted.len());
}

fn start(next: u64, now: u128, deadline: Option<Moment>, cycle: u128) -> Entry {
    Entry::Start {
        next: Packed::new(next),
        now: Moment::new(now),
        deadline,
        cycle: Moment::new(cycle),
    }
}

fn add_call(rt: &impl Abort, list: &mut Journal, by: Option<u64>, call: Call, reply: CallReply) {
    let by = Caller::of(by);
    push(rt, list, Entry::Call { by, call, reply });
}

/// Adds a call of the fourth task.
fn add(rt: &impl Abort, list: &mut Journal, call: Call, reply: CallReply) {
    add_call(rt, list, Some(4), call, reply);
}

fn add_sleep(rt: &impl Abort, list: &mut Journal, by: u64, reply: CallReply) {
    let due = Moment::new(7);
    add_call(rt, list, Some(by), Call::SleepPoll { due }, reply);
}

fn add_refused(rt: &impl Abort, alloc: Global, list: &mut Journal, error: Error) {
    let error = Refusal::new(alloc, error).expect(rt, "room");
    let reply = CallReply::Refused { error };
    add_call(rt, list, Some(0), Call::Wake { task: 9 }, reply);
}

/// Adds two starts, with a deadline and with none, and calls that are answered, refused and left pending.
fn add_calls(rt: &impl Abort, alloc: Global, list: &mut Journal) {
    push(rt, list, start(3, 5, Some(Moment::new(90)), 1_000_000));
    push(rt, list, start(0, 0, None, 1));
    add_sleep(rt, list, 3, CallReply::Ready);
    let close = Call::CloseNode { node: 0 };
    add_call(rt, list, None, close, CallReply::Done);
    add_refused(rt, alloc, list, Error::UnknownToken);
    add_sleep(rt, list, 0, CallReply::PendingAt { alarm: 2 });
}

fn add_child(rt: &impl Abort, alloc: Global, list: &mut Journal, node: u64, ended: bool) {
    let label = Label::of(alloc, "p_c").expect(rt, "room");
    let reply = CallReply::NodeAt { node, ended };
    add(rt, list, Call::Child { node: 0, label }, reply);
}

fn add_spawns(rt: &impl Abort, alloc: Global, list: &mut Journal) {
    add_child(rt, alloc, list, 1, false);
    add_child(rt, alloc, list, 2, true);
    let reply = CallReply::TaskAt { task: 0, node: 3 };
    add(rt, list, Call::Spawn { node: 1 }, reply);
    add(rt, list, Call::Spawn { node: 2 }, CallReply::Closed);
    add(rt, list, Call::Join { task: 0 }, CallReply::Pending);
    add(rt, list, Call::Abort { task: 0 }, CallReply::Done);
    add(rt, list, Call::AbortTask { task: 5 }, CallReply::Done);
    add(rt, list, Call::GiveUp { task: 0 }, CallReply::Done);
}

fn add_bytes(rt: &impl Abort, alloc: Global, list: &mut Journal, call: Call, bytes: &[u8]) {
    let bytes = Payload::of(alloc, bytes).expect(rt, "room");
    add(rt, list, call, CallReply::Bytes { bytes });
}

fn add_draws(rt: &impl Abort, alloc: Global, list: &mut Journal) {
    let number = u64::MAX;
    add(rt, list, Call::NextU64, CallReply::Number { number });
    let reply = CallReply::Number { number: 7 };
    add_call(rt, list, None, Call::NextU32, reply);
    let fill = Call::FillBytes { len: 3 };
    add_bytes(rt, alloc, list, fill, &[0, 255, 16]);
    add_bytes(rt, alloc, list, Call::FillBytes { len: 0 }, &[]);
    add_bytes(rt, alloc, list, Call::Auditor, &[171; 40]);
}

/// An event with a field of so many bytes, and an empty one.
fn event(rt: &impl Abort, alloc: Global, size: usize) -> Entry {
    let filled = Items::of(vec![in alloc; 171u8; size].expect(rt, "room"));
    let fields = vec![in alloc; filled, Items::of(Vec::new(alloc))];
    let fields = EventFields::listed(Items::of(fields.expect(rt, "room")));
    let label = EventLabel::process_task();
    Entry::Event { label, fields }
}

fn round(rt: &impl Abort, alloc: Global, numbers: &[u64]) -> Entry {
    let order = Order::of(alloc, numbers).expect(rt, "room");
    Entry::Round { order }
}

/// A round that visits a number so many times.
fn round_of_one(rt: &impl Abort, alloc: Global, task: u64, times: usize) -> Entry {
    let numbers = vec![in alloc; task; times].expect(rt, "room");
    round(rt, alloc, numbers.as_slice())
}

/// The least and the greatest numbers of one to four digits, and a greater one.
const DIGITS: &[u64] = &[9, 10, 99, 100, 999, 1000, 9999, 10_000];

fn add_rounds(rt: &impl Abort, alloc: Global, list: &mut Journal) {
    push(rt, list, event(rt, alloc, 2));
    push(rt, list, round_of_one(rt, alloc, 4, 3));
    push(rt, list, round_of_one(rt, alloc, 4, 0));
    push(rt, list, round(rt, alloc, DIGITS));
}

/// Adds what takes no memory, up to the cleanup.
fn add_plain(rt: &impl Abort, list: &mut Journal) {
    push(rt, list, Entry::Wake { task: 9 });
    push(rt, list, Entry::Draw { value: u64::MAX });
    push(rt, list, Entry::Root { task: 10 });
    push(rt, list, Entry::Visit { task: 3 });
    let kind = AnswerKind::Pending;
    push(rt, list, Entry::Answer { task: 3, kind });
    push(rt, list, Entry::NodeEnd { node: 0 });
    let now = Moment::new(1_000_005);
    push(rt, list, Entry::Advance { now });
    let now = Moment::new(1 << 100);
    push(rt, list, Entry::Skip { now });
    push(rt, list, Entry::Fire { alarm: 0 });
    push(rt, list, Entry::Cleanup);
}

/// Adds two crashes, with choices and with none, and a finish.
fn add_ends(rt: &impl Abort, alloc: Global, list: &mut Journal) {
    let choices = vec![in alloc; Choice::Kept, Choice::Dropped, Choice::Prefix(12)];
    let choices = Items::of(choices.expect(rt, "room"));
    push(rt, list, Entry::Crash { choices });
    let choices = Items::of(Vec::new(alloc));
    push(rt, list, Entry::Crash { choices });
    let cause = FinishCause::Completed;
    push(rt, list, Entry::Finish { cause });
}

/// The lines, each of which ends with `|`.
const LINES: &str = "\
start 5 90 1000000 3|start 0 - 1 0|call 3 sleep-poll 7 -> ready|call - close-node 0 -> ok|\
call 0 wake 9 -> err 12|call 0 sleep-poll 7 -> pending 2|call 4 child 0 p_c -> node 1|\
call 4 child 0 p_c -> node 2 ended|call 4 spawn 1 -> task 0 node 3|call 4 spawn 2 -> closed|\
call 4 join 0 -> pending|call 4 abort 0 -> ok|call 4 abort-task 5 -> ok|call 4 give-up 0 -> ok|\
call 4 u64 -> 18446744073709551615|call - u32 -> 7|call 4 fill 3 -> 00ff10|call 4 fill 0 -> -|\
call 4 auditor -> abababababababababababababababababababababababababababababababababababababababab|\
event process_task abab -|round 4 4 4|round|round 9 10 99 100 999 1000 9999 10000|wake 9|\
draw 18446744073709551615|root 10|visit 3|answer 3 pending|nodeend 0|advance 1000005|\
skip 1267650600228229401496703205376|fire 0|cleanup|crash k d p12|crash|finish ok|";

#[test]
fn line_of_each_entry(rt: HostRuntime) {
    let alloc = rt.alloc();
    let mut list = Journal::new(alloc);
    add_calls(&rt, alloc, &mut list);
    add_spawns(&rt, alloc, &mut list);
    add_draws(&rt, alloc, &mut list);
    add_rounds(&rt, alloc, &mut list);
    add_plain(&rt, &mut list);
    add_ends(&rt, alloc, &mut list);
    has_lines(&rt, alloc, &list, LINES);
}

/// Stops where lines don't have this many bytes for each of the size, beside those of the rest.
fn is_long(rt: &impl Abort, lines: &str, size: usize, bytes: usize, rest: &str) {
    let wanted = size.wrapping_mul(bytes).wrapping_add(rest.len());
    assert!(rt; lines.len() == wanted, "{rest} at {size}");
}

/// Adds an event and a round of this size, one behind the other in one text.
fn add_long(rt: &impl Abort, alloc: Global, size: usize) {
    let mut text = String::new(alloc);
    add_line(rt, alloc, &mut text, &event(rt, alloc, size));
    is_long(rt, text.as_str(), size, 2, "event process_task  -|");
    let round = round_of_one(rt, alloc, u64::MAX, size);
    add_line(rt, alloc, &mut text, &round);
    is_long(rt, text.as_str(), size, 23, "event process_task  -|round|");
}

#[test]
fn long_lines(rt: HostRuntime) {
    for size in [32, 33, 524_288] {
        add_long(&rt, rt.alloc(), size);
    }
}

const KINDS: &[(AnswerKind, &str)] = &[
    (AnswerKind::Ready, "ready"),
    (AnswerKind::Panicked, "panicked"),
    (AnswerKind::Stopped, "stopped"),
    (AnswerKind::NoMemory, "nomemory"),
    (AnswerKind::Ended, "ended"),
];

const CAUSES: &[(FinishCause, &str)] = &[
    (FinishCause::Timeout, "timeout"),
    (FinishCause::Stalled, "stalled"),
    (FinishCause::TaskPanicked, "panicked"),
    (FinishCause::TimeOverflow, "overflow"),
    (FinishCause::TooManyTasks, "tasks"),
    (FinishCause::NoMemory, "nomemory"),
];

fn have_words(rt: &impl Abort) {
    for &(kind, word) in KINDS {
        same(rt, word, kind.word(), word);
    }
    for &(cause, word) in CAUSES {
        same(rt, word, cause.word(), word);
    }
}

/// Whether a journal with room keeps an entry and its time.
fn keeps_entries(rt: &impl Abort, alloc: Global) -> bool {
    let mut journal = Journal::new(alloc);
    let was_empty = journal.is_empty() & (journal.spare() == 0);
    journal.reserve(65_536).expect(rt, "room");
    let now = Moment::new(7);
    journal.push(Entry::Advance { now });
    journal.push(Entry::Cleanup);
    let counted = (journal.len() == 2) & (journal.entries().len() == 2);
    was_empty & counted & (journal.last_time() == 7)
}

/// Whether these are the two fields of the visit of task 258 with this label, and of no other.
fn are_shown(fields: EventFields, label: &str) -> bool {
    let counted = (fields.len() == 2) & !fields.is_empty() & fields.get(2).is_none();
    let shown = fields.are_of_task(258, label) & !fields.are_of_task(7, label);
    counted & shown & !fields.are_of_task(258, "a")
}

/// Labels, and whether each is kept in place.
const LABELS: &[(&str, bool)] = &[
    ("", true),
    ("ab", true),
    ("abcdefghijklmnopqrstuv", true),
    ("abcdefghijklmnopqrstuvw", false),
];

/// Whether a label is kept in place, or isn't, as is said, and shows its text.
fn is_short(label: &str, in_place: bool) -> bool {
    match ShortLabel::of(label) {
        Some(short) => in_place & (short.as_str() == label),
        None => !in_place,
    }
}

/// Stops where fields don't show the visits that they were made of, however they are kept.
fn fields_are_shown(rt: &impl Abort, alloc: Global) {
    for &(label, short) in LABELS {
        holds(rt, label, are_shown(kept(rt, alloc, 258, label), label));
        holds(rt, label, are_shown(listed(rt, alloc, 258, label), label));
        holds(rt, label, is_short(label, short));
        if short {
            holds(rt, label, are_shown(in_place(rt, 258, label), label));
        }
    }
}

fn shows(rt: &impl Abort, label: EventLabel, text: &str) {
    holds(rt, text, label.as_str() == text);
}

fn label(rt: &impl Abort, alloc: Global, text: &str) -> EventLabel {
    EventLabel::named(alloc, text).expect(rt, "room")
}

fn is_order_shown(rt: &impl Abort, alloc: Global, numbers: &[u64]) {
    let order = Order::of(alloc, numbers).expect(rt, "room");
    holds(rt, "an order", order.as_slice() == numbers);
}

fn is_numbered(rt: &impl Abort, alloc: Global, error: Error, number: u64) {
    let mut refusal = Refusal::new(alloc, Error::Closed).expect(rt, "room");
    same(rt, "a number", error_code(refusal.error()), 2);
    refusal.set(error);
    same(rt, "a number", error_code(refusal.error()), number);
}

#[test]
fn surface(rt: HostRuntime) {
    let alloc = rt.alloc();
    is_numbered(&rt, alloc, Error::ClockOverflow, 11);
    have_words(&rt);
    holds(&rt, "entries", keeps_entries(&rt, alloc));
    holds(&rt, "an event", agree_on_an_event(&rt, alloc));
    holds(&rt, "dice", note_all(&rt, alloc));
    fields_are_shown(&rt, alloc);
    shows(&rt, EventLabel::process_task(), "process_task");
    let named = label(&rt, alloc, "process_task");
    shows(&rt, named, "process_task");
    shows(&rt, label(&rt, alloc, "stop"), "stop");
    is_order_shown(&rt, alloc, &[7]);
    is_order_shown(&rt, alloc, &[7, 8]);
}
