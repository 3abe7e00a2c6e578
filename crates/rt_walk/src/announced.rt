//! The events that come before a call.

ghost use Rattle.std.specs.Prelude.{◌≡◌, ◌≢◌, ◌∷◌, [], ◌↔◌, ◌⊎◌, IfOk, IfNone, IfSome, IsTrue, codes, length, ℤ};
ghost use Rattle.std.specs.Int.{cast_unsigned, to_be_bytes, w32};
ghost use Rattle.rt_model.specs.State.{Stood};
ghost use Rattle.rt_model.specs.Events.{announced_by, IsOfCall};

use rt_audit::{Call, CallReply, EventFields, EventLabel};
use rt_base::{Items, NoMemory, Text};
use std::alloc::Global;
use std::marker::Model;

/// An event that comes before its call.
#[derive(Drop)]
pub struct Announced {
    label: Text,
    fields: Items<Items<u8>>,
}

impl Model for Announced {
    ghost use Rattle.rt_model.specs.State.{Announced};

    ghost Value = { Announced };

    ghost view = { λ a. record { label = a.label; fields = a.fields } };
}

impl Announced {
    /// Makes a copy of an event.
    pub fn of(
        alloc: Global,
        label: &EventLabel,
        fields: &EventFields,
    ) -> Result<Announced, NoMemory>
        ensures { IfOk result (λ a. a ≡ record { label = label.now; fields = fields.now }) }
    {
        let label = Text::of(label.as_str().to_owned(alloc)?);
        let fields = copied(alloc, fields)?;
        Ok(Announced { label, fields })
    }

    /// Whether this is its label.
    fn is_named(&self, label: &str) -> bool
        ensures { IsTrue result ↔ (self.now.label ≡ label.now) }
    {
        self.label.as_str() == label
    }

    /// Whether it has this field alone.
    fn has_one(&self, field: &[u8]) -> bool
        ensures { IsTrue result ↔ (self.now.fields ≡ field.now ∷ []) }
    {
        is_only(&self.fields, field)
    }

    /// Whether it has no field.
    fn has_none(&self) -> bool
        ensures { IsTrue result ↔ (self.now.fields ≡ []) }
    {
        self.fields.as_slice().is_empty()
    }
}

/// Whether these fields are this one alone.
fn is_only(fields: &Items<Items<u8>>, field: &[u8]) -> bool
    ensures { IsTrue result ↔ (fields.now ≡ field.now ∷ []) }
{
    match fields.as_slice() {
        [only] => only.as_slice() == field,
        _ => false,
    }
}

/// A copy of fields.
fn copied(alloc: Global, fields: &EventFields) -> Result<Items<Items<u8>>, NoMemory>
    ensures { IfOk result (λ copy. copy ≡ fields.now) }
{
    let mut copies = Vec::new(alloc);
    for place in 0..fields.len() {
        match fields.get(place) {
            Some(field) => copies.push(Items::of(field.to_vec(alloc)?))?,
            None => unreachable!(),
        }
    }
    Ok(Items::of(copies))
}

/// Whether this is the event of a stop with this value.
fn is_stop(event: &Announced, value: i32) -> bool
    ensures { IsTrue result ↔ (event.now ≡ record { label = codes "stop"; fields = to_be_bytes w32 (cast_unsigned w32 value) ∷ [] }) }
{
    event.is_named("stop") && event.has_one(value.to_be_bytes().as_slice())
}

/// Whether this is the event of a signal of the shutdown.
fn is_stopped(event: &Announced) -> bool
    ensures { IsTrue result ↔ (event.now ≡ record { label = codes "stopped"; fields = [] }) }
{
    event.is_named("stopped") && event.has_none()
}

/// Whether this is the event of a call of this name, which draws.
fn is_draw(event: &Announced, name: &str) -> bool
    ensures { IsTrue result ↔ (event.now ≡ record { label = codes "rand"; fields = name.now ∷ [] }) }
{
    event.is_named("rand") && event.has_one(name.as_bytes())
}

/// Returns whether this event is the next of a call, after these.
pub fn is_of_call(announced: &[Announced], label: &EventLabel, fields: &EventFields) -> bool
    ensures { (stood : Stood) → IsTrue result ↔ IsOfCall stood announced.now label.now fields.now }
{
    announced.is_empty()
        && match label.as_str() {
            "stop" => is_a_value(fields),
            "stopped" => fields.is_empty(),
            "rand" => is_a_draw_name(fields),
            _ => false,
        }
}

/// Whether these fields are a value alone.
fn is_a_value(fields: &EventFields) -> bool
    ensures { IsTrue result ↔ ((value : ℤ) × (fields.now ≡ to_be_bytes w32 (cast_unsigned w32 value) ∷ [])) }
{
    match fields.get(0) {
        Some(field) => fields.len() == 1 && value_of(field).is_some(),
        None => false,
    }
}

/// Whether these fields name a call that draws, alone.
fn is_a_draw_name(fields: &EventFields) -> bool
    ensures { IsTrue result ↔ ((fields.now ≡ codes "next_u32" ∷ []) ⊎ (fields.now ≡ codes "next_u64" ∷ []) ⊎ (fields.now ≡ codes "fill_bytes" ∷ [])) }
{
    match fields.get(0) {
        Some(name) => fields.len() == 1 && names_a_draw(name),
        None => false,
    }
}

/// Whether this names a call that draws.
fn names_a_draw(name: &[u8]) -> bool
    ensures { IsTrue result ↔ ((name.now ≡ codes "next_u32") ⊎ (name.now ≡ codes "next_u64") ⊎ (name.now ≡ codes "fill_bytes")) }
{
    name == "next_u32".as_bytes()
        || name == "next_u64".as_bytes()
        || name == "fill_bytes".as_bytes()
}

/// The value of four bytes, the highest first.
fn value_of(field: &[u8]) -> Option<i32>
    ensures some { IfSome result (λ value. to_be_bytes w32 (cast_unsigned w32 value) ≡ field.now) }
    ensures none { IfNone result (length field.now ≢ 4) }
{
    match field {
        [a, b, c, d] => Some(i32::from_be_bytes([*a, *b, *c, *d])),
        _ => None,
    }
}

/// Returns whether these are the events of a call with this reply.
pub fn are_of(announced: &[Announced], call: &Call, reply: &CallReply) -> bool
    ensures { (stood : Stood) → IsTrue result ↔ (announced.now ≡ announced_by stood call.now reply.now) }
{
    match (call, announced) {
        (Call::Stop { value }, [event]) => is_stop(event, *value),
        (Call::Stopped, [event]) => is_stopped(event),
        (Call::NextU32, [event]) => is_draw(event, "next_u32"),
        (Call::NextU64, [event]) => is_draw(event, "next_u64"),
        (Call::FillBytes { .. }, [event]) => is_draw(event, "fill_bytes"),
        (
            Call::Stop { .. }
            | Call::Stopped
            | Call::NextU32
            | Call::NextU64
            | Call::FillBytes { .. },
            _,
        ) => false,
        _ => announced.is_empty(),
    }
}
