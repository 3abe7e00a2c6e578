// What the walker says of the journals of a report.

use rt_audit::Entry;
use rt_base::NoMemory;
use rt_journals::{Unread, entries_in, text_of};
use rt_model::Begin;
use rt_walk::first_unlawful;
use std::alloc::Global;

/// The journal of one run of a report: what is after its head and before its result.
fn journal_in(block: &str) -> Option<&str> {
    let (_, rest) = block.split_once('\n')?;
    let (journal, _) = rest.split_once("result ")?;
    Some(journal)
}

/// How a run begins whose start this is.
fn begin_in(start: &Entry, catch: bool) -> Option<Begin> {
    match start {
        Entry::Start {
            next,
            now,
            deadline,
            cycle,
        } => Some(Begin {
            start: now.nanos(),
            cycle: cycle.nanos(),
            deadline: deadline.as_ref().map(|due| due.nanos()),
            first: next.get(),
            catch,
        }),
        _ => None,
    }
}

/// Whether the entries of a run are lawful.
fn are_lawful(alloc: Global, catch: bool, entries: &[Entry]) -> Result<bool, NoMemory> {
    let Some(begin) = entries.first().and_then(|start| begin_in(start, catch)) else {
        return Ok(false);
    };
    Ok(first_unlawful(alloc, begin, entries)?.is_none())
}

/// Whether entries are lawful and print as these lines.
fn are_lawful_lines(
    alloc: Global,
    catch: bool,
    entries: &[Entry],
    text: &str,
) -> Result<bool, NoMemory> {
    let lines = text_of(alloc, entries)?;
    Ok(lines.as_str() == text && are_lawful(alloc, catch, entries)?)
}

/// Whether the lines of a run's journal are read, print again as they are, and are lawful.
fn is_lawful(alloc: Global, catch: bool, text: &str) -> Result<bool, Unread> {
    let entries = entries_in(alloc, text)?;
    let lawful = are_lawful_lines(alloc, catch, entries.as_slice(), text);
    drop(entries);
    Ok(lawful?)
}

/// Whether a run of a report has a journal, and a lawful one. Lines that can't be read are none.
fn is_lawful_run(alloc: Global, catch: bool, block: &str) -> Result<bool, NoMemory> {
    let Some(journal) = journal_in(block) else {
        return Ok(false);
    };
    match is_lawful(alloc, catch, journal) {
        Ok(lawful) => Ok(lawful),
        Err(Unread::NoMemory) => Err(NoMemory),
        Err(_) => Ok(false),
    }
}

/// What is to be said of the journals of a report: nothing where it has no run.
pub fn verdict_on(alloc: Global, catch: bool, report: &str) -> Result<&'static str, NoMemory> {
    let Some((_, runs)) = report.split_once("run ") else {
        return Ok("");
    };
    for block in runs.split("run ") {
        if !is_lawful_run(alloc, catch, block)? {
            return Ok(", unlawful");
        }
    }
    Ok(", lawful")
}
