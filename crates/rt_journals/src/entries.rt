//! The entries of a journal's lines.

use crate::calls::called;
use crate::words::{hex_bytes, hex_number, moment, number, words_of};
use rt_audit::{AnswerKind, Entry, EventFields, EventLabel, FinishCause, Label, Moment, Order};
use rt_base::{Choice, Items, NoMemory, Packed};
use std::alloc::Global;

/// Why lines aren't read.
#[derive(Debug, Drop)]
pub enum Unread {
    NoMemory,
    /// The line at this place is no line of a journal.
    Line(usize),
}

impl From<NoMemory> for Unread {
    fn from(_error: NoMemory) -> Unread {
        Unread::NoMemory
    }
}

/// The entries of lines.
pub fn entries_of(alloc: Global, lines: &[&str]) -> Result<Vec<Entry>, Unread> {
    let mut entries = Vec::new(alloc);
    add_entries(alloc, &mut entries, lines)?;
    Ok(entries)
}

fn add_entries(alloc: Global, entries: &mut Vec<Entry>, lines: &[&str]) -> Result<(), Unread> {
    for (place, line) in lines.iter().enumerate() {
        match entry_of(alloc, line)? {
            Some(entry) => add_entry(entries, entry)?,
            None => return Err(Unread::Line(place)),
        }
    }
    Ok(())
}

fn add_entry(entries: &mut Vec<Entry>, entry: Entry) -> Result<(), NoMemory> {
    Ok(entries.push(entry)?)
}

/// The entry of a line.
fn entry_of(alloc: Global, line: &str) -> Result<Option<Entry>, NoMemory> {
    let words = words_of(alloc, line)?;
    match words.split_first() {
        Some((word, rest)) => entry_by(alloc, word, rest),
        None => Ok(None),
    }
}

/// The entry of a line that begins with this word.
fn entry_by(alloc: Global, word: &str, words: &[&str]) -> Result<Option<Entry>, NoMemory> {
    match word {
        "call" => called(alloc, words),
        "event" => event(alloc, words),
        "round" => round(alloc, words),
        "crash" => crash(alloc, words),
        word => Ok(plain_entry(word, words)),
    }
}

/// The entry of a line that takes no memory.
fn plain_entry(word: &str, words: &[&str]) -> Option<Entry> {
    match words {
        [] if word == "cleanup" => Some(Entry::Cleanup),
        [value] => entry_with(word, value),
        [task, kind] if word == "answer" => answer(task, kind),
        [now, deadline, cycle, next] if word == "start" => start(now, deadline, cycle, next),
        _ => None,
    }
}

fn start(now: &str, deadline: &str, cycle: &str, next: &str) -> Option<Entry> {
    Some(Entry::Start {
        next: Packed::new(number(next)?),
        now: moment(now)?,
        deadline: deadline_of(deadline)?,
        cycle: moment(cycle)?,
    })
}

fn deadline_of(word: &str) -> Option<Option<Moment>> {
    if word == "-" {
        return Some(None);
    }
    Some(Some(moment(word)?))
}

fn answer(task: &str, kind: &str) -> Option<Entry> {
    Some(Entry::Answer {
        task: number(task)?,
        kind: kind_of(kind)?,
    })
}

/// The entry of a word and a value.
fn entry_with(word: &str, value: &str) -> Option<Entry> {
    match word {
        "advance" => Some(Entry::Advance {
            now: moment(value)?,
        }),
        "skip" => Some(Entry::Skip {
            now: moment(value)?,
        }),
        "finish" => Some(Entry::Finish {
            cause: cause_of(value)?,
        }),
        word => numbered(word, number(value)?),
    }
}

fn numbered(word: &str, of: u64) -> Option<Entry> {
    Some(match word {
        "wake" => Entry::Wake { task: of },
        "draw" => Entry::Draw { value: of },
        "root" => Entry::Root { task: of },
        "visit" => Entry::Visit { task: of },
        "nodeend" => Entry::NodeEnd { node: of },
        "fire" => Entry::Fire { alarm: of },
        _ => return None,
    })
}

const KINDS: [AnswerKind; 6] = [
    AnswerKind::Pending,
    AnswerKind::Ready,
    AnswerKind::Panicked,
    AnswerKind::Stopped,
    AnswerKind::NoMemory,
    AnswerKind::Ended,
];

fn kind_of(word: &str) -> Option<AnswerKind> {
    for kind in KINDS {
        if kind.word() == word {
            return Some(kind);
        }
    }
    None
}

const CAUSES: [FinishCause; 7] = [
    FinishCause::Completed,
    FinishCause::Timeout,
    FinishCause::Stalled,
    FinishCause::TaskPanicked,
    FinishCause::TimeOverflow,
    FinishCause::TooManyTasks,
    FinishCause::NoMemory,
];

fn cause_of(word: &str) -> Option<FinishCause> {
    for cause in CAUSES {
        if cause.word() == word {
            return Some(cause);
        }
    }
    None
}

fn crash(alloc: Global, words: &[&str]) -> Result<Option<Entry>, NoMemory> {
    let mut choices = Vec::new(alloc);
    for word in words {
        match choice_of(word) {
            Some(choice) => choices.push(choice)?,
            None => return Ok(None),
        }
    }
    Ok(Some(Entry::Crash {
        choices: Items::of(choices),
    }))
}

fn choice_of(word: &str) -> Option<Choice> {
    match word {
        "k" => Some(Choice::Kept),
        "d" => Some(Choice::Dropped),
        word => Some(Choice::Prefix(number(word.strip_prefix('p')?)?)),
    }
}

fn round(alloc: Global, words: &[&str]) -> Result<Option<Entry>, NoMemory> {
    let mut order = Vec::new(alloc);
    for word in words {
        match number(word) {
            Some(task) => order.push(task)?,
            None => return Ok(None),
        }
    }
    Ok(Some(Entry::Round {
        order: Order::of(alloc, order.as_slice())?,
    }))
}

fn event(alloc: Global, words: &[&str]) -> Result<Option<Entry>, NoMemory> {
    match words {
        ["", ..] => Ok(None),
        ["process_task", task, label] => visit_event(alloc, task, label),
        [label, values @ ..] => call_event(alloc, label, values),
        [] => Ok(None),
    }
}

/// A visit's event. Its number is written plainly with the label as it is, or in 32 digits of hex with the label in hex.
fn visit_event(alloc: Global, task: &str, label: &str) -> Result<Option<Entry>, NoMemory> {
    if task.len() == 32 {
        return printed_visit_event(alloc, hex_number(task), label);
    }
    let label = match label {
        "" => return Ok(None),
        "-" => "",
        label => label,
    };
    visit_event_of(alloc, number(task), label)
}

fn printed_visit_event(
    alloc: Global,
    task: Option<u64>,
    label: &str,
) -> Result<Option<Entry>, NoMemory> {
    let Some(bytes) = hex_bytes(alloc, label)? else {
        return Ok(None);
    };
    match str::from_utf8(bytes.as_slice()) {
        Ok(label) => visit_event_of(alloc, task, label),
        Err(_) => Ok(None),
    }
}

fn visit_event_of(
    alloc: Global,
    task: Option<u64>,
    label: &str,
) -> Result<Option<Entry>, NoMemory> {
    let Some(task) = task else {
        return Ok(None);
    };
    let label = Label::of(alloc, label)?;
    Ok(Some(Entry::Event {
        label: EventLabel::process_task(),
        fields: EventFields::of_task(task, label),
    }))
}

/// An event of a call.
fn call_event(alloc: Global, label: &str, values: &[&str]) -> Result<Option<Entry>, NoMemory> {
    let Some(fields) = fields_of(alloc, values)? else {
        return Ok(None);
    };
    event_with(alloc, label, fields)
}

fn event_with(
    alloc: Global,
    label: &str,
    fields: Vec<Items<u8>>,
) -> Result<Option<Entry>, NoMemory> {
    let fields = EventFields::listed(Items::of(fields));
    match EventLabel::named(alloc, label) {
        Ok(label) => Ok(Some(Entry::Event { label, fields })),
        Err(NoMemory) => {
            drop(fields);
            Err(NoMemory)
        }
    }
}

fn fields_of(alloc: Global, values: &[&str]) -> Result<Option<Vec<Items<u8>>>, NoMemory> {
    let mut fields = Vec::new(alloc);
    if add_fields(alloc, &mut fields, values)? {
        Ok(Some(fields))
    } else {
        Ok(None)
    }
}

/// Adds fields. Returns whether each is one.
fn add_fields(
    alloc: Global,
    fields: &mut Vec<Items<u8>>,
    values: &[&str],
) -> Result<bool, NoMemory> {
    for value in values {
        match field_of(alloc, value)? {
            Some(field) => fields.push(field)?,
            None => return Ok(false),
        }
    }
    Ok(true)
}

/// A field in hex, or the name of a draw as it is.
fn field_of(alloc: Global, value: &str) -> Result<Option<Items<u8>>, NoMemory> {
    if value.starts_with("next_") || value == "fill_bytes" {
        return Ok(Some(Items::of(value.as_bytes().to_vec(alloc)?)));
    }
    hex_bytes(alloc, value)
}
