//! An environment that keeps the events that it is told.

use rt_base::{Env, Event, NoMemory};
use std::alloc::Global;
use std::fmt::Write;

#[derive(Drop)]
pub struct Notebook {
    events: Vec<Event>,
}

impl Notebook {
    pub fn new(alloc: Global) -> Notebook {
        Notebook {
            events: Vec::new(alloc),
        }
    }

    /// The labels and the lengths of the fields in order, each with a space after it.
    pub fn text(&self, alloc: Global) -> Result<String, NoMemory> {
        let mut text = String::new(alloc);
        for event in self.events.as_slice() {
            add_event(&mut text, event)?;
        }
        Ok(text)
    }
}

/// The label and the lengths of the fields.
fn add_event(text: &mut String, event: &Event) -> Result<(), NoMemory> {
    text.push_str(event.label.as_str())?;
    for field in event.fields.as_slice() {
        let length = field.as_slice().len();
        write!(text, " {length}")?;
    }
    text.push(' ')?;
    Ok(())
}

impl Env for Notebook {
    ghost use Rattle.std.specs.Prelude.{◌-◌, None, vec_len, vec_capacity};

    ghost noted = { λ _. None };

    ghost spare = { λ n. vec_capacity n.events - vec_len n.events };

    fn reserve(&mut self, entries: usize) -> Result<(), NoMemory> {
        self.events.reserve(entries)?;
        Ok(())
    }

    fn event(&mut self, event: Event) {
        self.events.push_reserved(event);
    }

    fn draw(&mut self) -> u64 {
        let _ = &self.events;
        0
    }
}
