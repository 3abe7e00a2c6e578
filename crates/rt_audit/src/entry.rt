//! The entries of a journal.

ghost use Rattle.std.specs.Prelude.{◌≡◌, ◌++◌, OnOk, string_bytes};
ghost use Rattle.rt_audit.specs.Lines.{line_of, start_text, called_text};

use crate::line::{
    add_choices, add_fields, add_numbered, add_numbers, add_optional, add_space, add_word,
};
use crate::{AnswerKind, Call, CallReply, EventFields, EventLabel, FinishCause, Moment, Order};
use rt_base::{Choice, Items, Nanos, NoMemory, Packed, PackedOption};
use std::alloc::Global;

/// The number of the task that makes a call, or none where the maker of the root makes it.
pub type Caller = PackedOption;

/// An entry of a journal. Times are nanoseconds since the epoch.
///
/// An entry has 64 bytes; the widest are a start, the event of a visit and a call. Numbers and times that would have
/// padding before them are kept as bytes without an alignment (`Packed`, `PackedOption`, [`Moment`]): with plain ones
/// an entry would have 96 bytes. A call isn't behind a pointer, since closing a context writes one and takes no memory,
/// and while calls are in place, no other part behind a pointer makes an entry smaller.
#[derive(Debug, Drop)]
pub enum Entry {
    /// A run begins at `now`. The first task of this run gets the number `next`. The line has the times first.
    Start {
        next: Packed,
        now: Moment,
        deadline: Option<Moment>,
        cycle: Moment,
    },
    /// A call by a task, or by the maker of the root, got its reply.
    Call {
        by: Caller,
        call: Call,
        reply: CallReply,
    },
    /// An event of the run, as an auditor digests it.
    Event {
        label: EventLabel,
        fields: EventFields,
    },
    /// A task was queued by the event before.
    Wake {
        task: u64,
    },
    /// A number was drawn.
    Draw {
        value: u64,
    },
    /// The root got its number, and was queued.
    Root {
        task: u64,
    },
    /// A round visits these numbers.
    Round {
        order: Order,
    },
    /// A number of the round is visited.
    Visit {
        task: u64,
    },
    /// A poll, a visit or an end of a task went this way.
    Answer {
        task: u64,
        kind: AnswerKind,
    },
    /// A node was ended that wasn't.
    NodeEnd {
        node: u64,
    },
    /// Time moved on by a cycle.
    Advance {
        now: Moment,
    },
    /// Time moved on to the earliest alarm.
    Skip {
        now: Moment,
    },
    /// An alarm went off.
    Fire {
        alarm: u64,
    },
    /// The tasks are ended from here on.
    Cleanup,
    /// The store crashed, with these choices for its unsynced changes.
    Crash {
        choices: Items<Choice>,
    },
    /// The run is over.
    Finish {
        cause: FinishCause,
    },
}

impl Entry {
    /// Adds the line of the entry to a text, without the end of the line.
    ///
    /// After `NoMemory` the text may have a part of the line.
    pub fn add_to(&self, alloc: Global, text: &mut String) -> Result<(), NoMemory>
        ensures { OnOk result (string_bytes text.new ≡ string_bytes text.old ++ line_of self.now) }
    {
        match self {
            Entry::Start {
                next,
                now,
                deadline,
                cycle,
            } => add_start(
                text,
                now.nanos(),
                deadline.as_ref().map(|due| due.nanos()),
                cycle.nanos(),
                next.get(),
            ),
            Entry::Call { by, call, reply } => add_call(alloc, text, by.get(), call, reply),
            Entry::Event { label, fields } => {
                label.add_to(text)?;
                add_fields(alloc, text, fields)
            }
            Entry::Wake { task } => add_numbered(text, "wake ", *task as u128),
            Entry::Draw { value } => add_numbered(text, "draw ", *value as u128),
            Entry::Root { task } => add_numbered(text, "root ", *task as u128),
            Entry::Round { order } => {
                add_word(text, "round")?;
                add_numbers(text, order.as_slice())
            }
            Entry::Visit { task } => add_numbered(text, "visit ", *task as u128),
            Entry::Answer { task, kind } => {
                add_numbered(text, "answer ", *task as u128)?;
                kind.add_to(text)
            }
            Entry::NodeEnd { node } => add_numbered(text, "nodeend ", *node as u128),
            Entry::Advance { now } => add_numbered(text, "advance ", now.nanos()),
            Entry::Skip { now } => add_numbered(text, "skip ", now.nanos()),
            Entry::Fire { alarm } => add_numbered(text, "fire ", *alarm as u128),
            Entry::Cleanup => add_word(text, "cleanup"),
            Entry::Crash { choices } => {
                add_word(text, "crash")?;
                add_choices(text, choices.as_slice())
            }
            Entry::Finish { cause } => {
                add_word(text, "finish ")?;
                add_word(text, cause.word())
            }
        }
    }
}

fn add_start(
    text: &mut String,
    now: Nanos,
    deadline: Option<Nanos>,
    cycle: Nanos,
    next: u64,
) -> Result<(), NoMemory>
    ensures { OnOk result (string_bytes text.new ≡ string_bytes text.old ++ start_text now deadline cycle next) }
{
    add_numbered(text, "start ", now)?;
    add_word(text, " ")?;
    add_optional(text, deadline)?;
    add_numbered(text, " ", cycle)?;
    add_numbered(text, " ", next as u128)
}

fn add_call(
    alloc: Global,
    text: &mut String,
    by: Option<u64>,
    call: &Call,
    reply: &CallReply,
) -> Result<(), NoMemory>
    ensures { OnOk result (string_bytes text.new ≡ string_bytes text.old ++ called_text by call.now reply.now) }
{
    add_word(text, "call ")?;
    add_optional(text, by.map(|task| task as u128))?;
    add_space(text)?;
    call.add_to(alloc, text)?;
    add_word(text, " -> ")?;
    reply.add_to(alloc, text)
}
