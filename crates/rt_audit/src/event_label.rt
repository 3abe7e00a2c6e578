//! The label of an event.

ghost use Rattle.std.specs.Prelude.{◌≡◌, ◌++◌, IfOk, OnOk, codes, string_bytes};
ghost use Rattle.rt_hasher.specs.TaskEvent.{task_event};

use crate::Label;
use crate::line::add_word;
use rt_base::NoMemory;
use std::alloc::Global;
use std::marker::Model;

/// How the label of an event is kept. That of a visit's event needs no memory, since nearly all events of a run are of
/// visits.
#[derive(Debug, Drop)]
pub enum LabelKind {
    ProcessTask,
    Named(Label),
}

/// The label of an event. Contracts see its bytes.
#[derive(Debug, Drop)]
pub struct EventLabel {
    kind: LabelKind,
}

impl Model for EventLabel {
    ghost use Rattle.std.specs.Prelude.{ℕ, List};
    ghost use Rattle.rt_audit.specs.EntryParts.{label_of};

    ghost Value = { List ℕ };

    ghost view = { λ l. label_of l.kind };
}

impl EventLabel {
    /// Makes the label `process_task`, that of the event of a task's visit. It takes no memory.
    #[inline(always)]
    pub fn process_task() -> EventLabel
        ensures { result ≡ task_event }
    {
        EventLabel {
            kind: LabelKind::ProcessTask,
        }
    }

    /// Makes an event's label of any text.
    pub fn named(alloc: Global, label: &str) -> Result<EventLabel, NoMemory>
        ensures { IfOk result (λ kept. kept ≡ label.now) }
    {
        let label = Label::of(alloc, label)?;
        Ok(EventLabel {
            kind: LabelKind::Named(label),
        })
    }

    /// Returns the text of the label.
    #[inline(always)]
    pub fn as_str(&self) -> &str
        ensures { result.now ≡ self.now }
    {
        match &self.kind {
            LabelKind::ProcessTask => "process_task",
            LabelKind::Named(label) => label.as_str(),
        }
    }

    /// Adds the label after the word of an event.
    #[inline(always)]
    pub(crate) fn add_to(&self, text: &mut String) -> Result<(), NoMemory>
        ensures { OnOk result (string_bytes text.new ≡ string_bytes text.old ++ (codes "event " ++ self.now)) }
    {
        match &self.kind {
            LabelKind::ProcessTask => add_word(text, "event process_task"),
            LabelKind::Named(label) => {
                add_word(text, "event ")?;
                add_word(text, label.as_str())
            }
        }
    }
}
