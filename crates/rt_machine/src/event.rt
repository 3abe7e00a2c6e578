//! The events that a run notes itself.

ghost use Rattle.std.specs.Prelude.{◌≡◌, ◌∷◌, [], IfOk, codes};
ghost use Rattle.std.specs.Int.{w32, cast_unsigned, to_be_bytes};
ghost use Rattle.rt_model.specs.Events.{process_task};

use rt_audit::{Entry, EventFields, EventLabel};
use rt_base::{Items, NoMemory};
use std::alloc::Global;

/// Makes the event of a visit, of these fields.
#[inline(always)]
pub fn task_event(fields: EventFields) -> Entry
    ensures { result ≡ Entry.Event process_task fields }
{
    Entry::Event {
        label: EventLabel::process_task(),
        fields,
    }
}

/// Makes the event of a `stop`: its value in four bytes, the highest first.
pub fn stop_event(alloc: Global, value: i32) -> Result<Entry, NoMemory>
    ensures { IfOk result (λ entry. entry ≡ Entry.Event (codes "stop") (to_be_bytes w32 (cast_unsigned w32 value) ∷ [])) }
{
    let mut field = Vec::new(alloc);
    field.extend_from_slice(&value.to_be_bytes())?;
    let mut fields = Vec::new(alloc);
    fields.push(Items::of(field))?;
    let label = EventLabel::named(alloc, "stop")?;
    Ok(Entry::Event {
        label,
        fields: EventFields::listed(Items::of(fields)),
    })
}

/// Makes the event of a `stopped`.
pub fn stopped_event(alloc: Global) -> Result<Entry, NoMemory>
    ensures { IfOk result (λ entry. entry ≡ Entry.Event (codes "stopped") []) }
{
    let label = EventLabel::named(alloc, "stopped")?;
    let fields = EventFields::listed(Items::of(Vec::new(alloc)));
    Ok(Entry::Event { label, fields })
}

/// Makes the event of a call that draws, by which call it is.
pub fn draw_event(alloc: Global, name: &str) -> Result<Entry, NoMemory>
    ensures { IfOk result (λ entry. entry ≡ Entry.Event (codes "rand") (name.now ∷ [])) }
{
    let mut fields = Vec::new(alloc);
    fields.push(Items::of(name.as_bytes().to_vec(alloc)?))?;
    let label = EventLabel::named(alloc, "rand")?;
    Ok(Entry::Event {
        label,
        fields: EventFields::listed(Items::of(fields)),
    })
}
