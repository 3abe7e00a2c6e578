//! Whole journals of small runs, a line for each entry, how each run begins, and how a journal's lines are read and printed.
//!
//! A journal follows its head, `== NAME BEGIN.. | WHAT`, whose beginnings are those under which it is lawful. Its lines are
//! those of [`Entry`], but for the event of a visit, whose number is written plainly and whose label as it is. A line
//! that begins with `silent` is a call that writes nothing: so the place of an entry is that of its line without these.
#![tactic(auto)]

mod begins;
mod calls;
mod entries;
mod others;
mod replies;
mod tasks;
mod waits;
mod words;

pub use begins::{BEGIN, begin_of};
pub use entries::{Unread, entries_of};
pub use others::OTHERS;
use rt_audit::Entry;
use rt_base::NoMemory;
use std::alloc::Global;
pub use tasks::TASKS;
pub use waits::WAITS;

/// The name of a journal, the beginnings under which it is lawful, and its lines. `block` is what follows a `== `.
pub fn parts_of(block: &'static str) -> Option<(&'static str, &'static str, &'static str)> {
    let (head, lines) = block.split_once('\n')?;
    let (names, _) = head.split_once(" | ")?;
    let (name, begins) = names.split_once(' ')?;
    Some((name, begins, lines))
}

/// The beginnings and the lines of the journal of this name.
pub fn journal(name: &str) -> Option<(&'static str, &'static str)> {
    for text in [TASKS, WAITS, OTHERS] {
        if let Some(found) = journal_in(text, name) {
            return Some(found);
        }
    }
    None
}

fn journal_in(text: &'static str, wanted: &str) -> Option<(&'static str, &'static str)> {
    for block in text.split("== ") {
        if let Some((name, begins, lines)) = parts_of(block)
            && name == wanted
        {
            return Some((begins, lines));
        }
    }
    None
}

/// The lines of a journal's entries: those that aren't silent.
pub fn lines_of<'a>(alloc: Global, text: &'a str) -> Result<Vec<&'a str>, NoMemory> {
    let mut lines = Vec::new(alloc);
    for line in text.lines() {
        if !line.starts_with("silent ") {
            lines.push(line)?;
        }
    }
    Ok(lines)
}

/// Adds the line of an entry, with its end.
pub fn add_line(alloc: Global, text: &mut String, entry: &Entry) -> Result<(), NoMemory> {
    entry.add_to(alloc, text)?;
    Ok(text.push('\n')?)
}

/// The lines that a journal of these entries has.
pub fn text_of(alloc: Global, entries: &[Entry]) -> Result<String, NoMemory> {
    let mut text = String::new(alloc);
    for entry in entries {
        add_line(alloc, &mut text, entry)?;
    }
    Ok(text)
}

/// The entries of the lines of a journal.
pub fn entries_in(alloc: Global, text: &str) -> Result<Vec<Entry>, Unread> {
    let lines = lines_of(alloc, text)?;
    entries_of(alloc, lines.as_slice())
}

/// The entries of the lines of a journal, and those that the silent calls would write.
pub fn entries_and_silent_in(alloc: Global, text: &str) -> Result<Vec<Entry>, Unread> {
    let lines = all_lines(alloc, text)?;
    entries_of(alloc, lines.as_slice())
}

fn all_lines<'a>(alloc: Global, text: &'a str) -> Result<Vec<&'a str>, NoMemory> {
    let mut lines = Vec::new(alloc);
    for line in text.lines() {
        lines.push(line.strip_prefix("silent ").unwrap_or(line))?;
    }
    Ok(lines)
}
