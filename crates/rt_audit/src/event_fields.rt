//! The fields of an event.

ghost use Rattle.std.specs.Prelude.{◌≡◌, ◌∷◌, ◌↔◌, [], length, slice_get, Some, None, IfSome, IfNone, IsTrue};
ghost use Rattle.std.specs.Int.{to_be_bytes, w128};
ghost use Rattle.rt_audit.specs.EntryParts.{fields_of};

use crate::{Label, ShortLabel};
use rt_base::Items;
use std::marker::Model;

/// How fields are kept. Nearly all events of a run are of visits, so those of a visit's event are kept in place and
/// take no memory, but for a label of more than 22 bytes, which is behind a pointer.
#[derive(Debug, Drop)]
pub enum FieldsKind {
    /// The task's number in sixteen bytes, and its label. The number is last, since it is read again at once: so its
    /// low half lies within one of the words by which an entry is copied.
    OfTask { label: Label, number: [u8; 16] },
    /// The same with a label that is kept in place too.
    OfTaskInPlace { label: ShortLabel, number: [u8; 16] },
    Listed(Items<Items<u8>>),
}

/// The fields of an event, each of them bytes. Contracts see their list.
#[derive(Debug, Drop)]
pub struct EventFields {
    kind: FieldsKind,
}

impl Model for EventFields {
    ghost use Rattle.std.specs.Prelude.{ℕ, List};
    ghost use Rattle.rt_audit.specs.EntryParts.{fields_of};

    ghost Value = { List (List ℕ) };

    ghost view = { λ f. fields_of f.kind };
}

impl EventFields {
    /// Makes the fields of a task's visit: its number as sixteen bytes, the highest first, and its label. It takes no
    /// memory.
    #[inline(always)]
    pub fn of_task(task: u64, label: Label) -> EventFields
        ensures { result ≡ to_be_bytes w128 task ∷ label ∷ [] }
    {
        EventFields {
            kind: FieldsKind::OfTask {
                number: (task as u128).to_be_bytes(),
                label,
            },
        }
    }

    /// Makes the fields of a task's visit of its number and a short label. They are those of
    /// [`of_task`](Self::of_task), and it takes no memory.
    #[inline(always)]
    pub fn of_short_task(task: u64, label: ShortLabel) -> EventFields
        ensures { result ≡ to_be_bytes w128 task ∷ label ∷ [] }
    {
        EventFields {
            kind: FieldsKind::OfTaskInPlace {
                number: (task as u128).to_be_bytes(),
                label,
            },
        }
    }

    /// Makes fields of any list of bytes.
    pub fn listed(fields: Items<Items<u8>>) -> EventFields
        ensures { result ≡ fields }
    {
        EventFields {
            kind: FieldsKind::Listed(fields),
        }
    }

    /// Returns how many fields there are.
    pub fn len(&self) -> usize
        ensures { result ≡ length self.now }
    {
        match &self.kind {
            FieldsKind::OfTask { .. } | FieldsKind::OfTaskInPlace { .. } => 2,
            FieldsKind::Listed(fields) => fields.as_slice().len(),
        }
    }

    /// Returns whether there are no fields.
    pub fn is_empty(&self) -> bool
        ensures { IsTrue result ↔ (self.now ≡ []) }
    {
        match &self.kind {
            FieldsKind::OfTask { .. } | FieldsKind::OfTaskInPlace { .. } => false,
            FieldsKind::Listed(fields) => fields.as_slice().is_empty(),
        }
    }

    /// Returns the bytes of the field at a place, where there is one.
    pub fn get(&self, place: usize) -> Option<&[u8]>
        ensures some { IfSome result (λ field. slice_get self.now place ≡ Some field.now) }
        ensures none { IfNone result (slice_get self.now place ≡ None) }
    {
        match &self.kind {
            FieldsKind::OfTask { number, label } => match place {
                0 => Some(number.as_slice()),
                1 => Some(label.as_str().as_bytes()),
                _ => None,
            },
            FieldsKind::OfTaskInPlace { number, label } => match place {
                0 => Some(number.as_slice()),
                1 => Some(label.as_bytes()),
                _ => None,
            },
            FieldsKind::Listed(fields) => Some(fields.as_slice().get(place)?.as_slice()),
        }
    }

    /// Returns whether these are the fields of a visit of this task with this label.
    pub fn are_of_task(&self, task: u64, label: &str) -> bool
        ensures { IsTrue result ↔ (self.now ≡ to_be_bytes w128 task ∷ label.now ∷ []) }
    {
        match &self.kind {
            FieldsKind::OfTask {
                number,
                label: told,
            } => { is_number(number.as_slice(), task) && is_told(told.as_str().as_bytes(), label) }
            FieldsKind::OfTaskInPlace {
                number,
                label: told,
            } => is_number(number.as_slice(), task) && is_told(told.as_bytes(), label),
            FieldsKind::Listed(fields) => match fields.as_slice() {
                [number, told] => {
                    is_number(number.as_slice(), task) && is_told(told.as_slice(), label)
                }
                _ => false,
            },
        }
    }

    /// How they are kept.
    #[inline(always)]
    pub(crate) fn kind(&self) -> &FieldsKind
        ensures { fields_of result.now ≡ self.now }
    {
        &self.kind
    }
}

/// Returns whether these are the sixteen bytes of a task's number.
fn is_number(bytes: &[u8], task: u64) -> bool
    ensures { IsTrue result ↔ (bytes.now ≡ to_be_bytes w128 task) }
{
    bytes == (task as u128).to_be_bytes().as_slice()
}

/// Returns whether these are the bytes of a label.
fn is_told(bytes: &[u8], label: &str) -> bool
    ensures { IsTrue result ↔ (bytes.now ≡ label.now) }
{
    bytes == label.as_bytes()
}
