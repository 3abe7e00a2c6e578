// Journals that are lawful to their ends, and copies with the place of the line that is refused.

use crate::copies::COPIES;
use crate::many::{MANY_ALARMS, MANY_TASKS, Piece, joined};
use rt_audit::Entry;
use rt_base::NoMemory;
use rt_journals::{
    BEGIN, OTHERS, TASKS, Unread, WAITS, begin_of, entries_in, entries_of, journal, lines_of,
    parts_of, text_of,
};
use rt_model::Begin;
use rt_walk::{Walker, first_unlawful};
use std::alloc::Global;
use std::process::Abort;
use std::test::Fail;

/// What becomes of a line.
#[derive(Clone, Copy)]
enum Change {
    Missing,
    Instead(&'static str),
    /// This line comes before it.
    Before(&'static str),
}

/// The lines with this change.
fn changed(
    mut lines: Vec<&'static str>,
    at: usize,
    change: Change,
) -> Result<Vec<&'static str>, NoMemory> {
    if lines.len() < at {
        return Ok(lines);
    }
    if at < lines.len() && !matches!(change, Change::Before(_)) {
        lines.remove(at);
    }
    match change {
        Change::Missing => {}
        Change::Instead(line) | Change::Before(line) => lines.insert(at, line)?,
    }
    Ok(lines)
}

/// The place of the first entry that may not come where it is.
fn first_of(alloc: Global, begin: Begin, lines: &[&str]) -> Result<Option<usize>, Unread> {
    let entries = entries_of(alloc, lines)?;
    let first = first_unlawful(alloc, begin, entries.as_slice());
    drop(entries);
    Ok(first?)
}

/// The lines of the journals of these names, which spaces part.
fn lines_of_all(alloc: Global, names: &str) -> Result<Vec<&'static str>, NoMemory> {
    let mut lines = Vec::new(alloc);
    for name in names.split(' ') {
        add_lines(alloc, &mut lines, journal(name))?;
    }
    Ok(lines)
}

fn add_lines(
    alloc: Global,
    lines: &mut Vec<&'static str>,
    journal: Option<(&'static str, &'static str)>,
) -> Result<(), NoMemory> {
    match journal {
        Some((_, text)) => Ok(lines.extend_from_slice(lines_of(alloc, text)?.as_slice())?),
        None => Ok(lines.push("no journal")?),
    }
}

/// The place of a change, and the change: `3 missing`, `3 instead LINE` or `3 before LINE`.
fn change_of(words: &'static str) -> Option<(usize, Change)> {
    let (place, kind) = words.split_once(' ')?;
    let at = place.parse::<usize>().ok()?;
    if kind == "missing" {
        return Some((at, Change::Missing));
    }
    match kind.split_once(' ')? {
        ("instead", line) => Some((at, Change::Instead(line))),
        ("before", line) => Some((at, Change::Before(line))),
        _ => None,
    }
}

/// The end of the first front of these entries that isn't lawful.
fn first_front(alloc: Global, begin: Begin, entries: &[Entry]) -> Result<Option<usize>, NoMemory> {
    for end in 0..entries.len() {
        if first_unlawful(alloc, begin, &entries[..end])?.is_some() {
            return Ok(Some(end));
        }
    }
    first_unlawful(alloc, begin, entries)
}

/// The end of the first front of a journal that isn't lawful.
fn unlawful_front(alloc: Global, begin: Begin, text: &str) -> Result<Option<usize>, Unread> {
    let entries = entries_in(alloc, text)?;
    let front = first_front(alloc, begin, entries.as_slice());
    drop(entries);
    Ok(front?)
}

/// Whether no front of a journal that begins so is unlawful.
fn is_lawful(rt: &impl Abort, alloc: Global, begin: &str, text: &str) -> bool {
    let begin = begin_of(begin).expect(rt, begin);
    let front = unlawful_front(alloc, begin, text);
    front.expect(rt, "lines of a journal").is_none()
}

/// Takes a journal with its head, under each of its beginnings.
fn is_lawful_under_each(rt: &impl Abort, alloc: Global, block: &'static str) {
    let (name, begins, lines) = parts_of(block).expect(rt, block);
    for begin in begins.split(' ') {
        assert!(rt; is_lawful(rt, alloc, begin, lines), "{name} {begin}");
    }
}

#[test]
fn whole_journals_and_their_fronts(rt: HostRuntime) {
    for text in [TASKS, WAITS, OTHERS] {
        for block in text.strip_prefix("== ").unwrap_or("").split("\n== ") {
            is_lawful_under_each(&rt, rt.alloc(), block);
        }
    }
}

/// The place of the first entry of a journal with this change that may not come where it is.
fn first_changed(
    alloc: Global,
    begin: Begin,
    text: &'static str,
    at: usize,
    change: Change,
) -> Result<Option<usize>, Unread> {
    let lines = changed(lines_of(alloc, text)?, at, change)?;
    first_of(alloc, begin, lines.as_slice())
}

/// Whether the copy of a row is refused at its place.
fn is_refused(
    rt: &impl Abort,
    alloc: Global,
    begin: Begin,
    text: &'static str,
    row: &'static str,
) -> bool {
    let (words, _) = row.split_once(" | ").expect(rt, row);
    let (at, change) = change_of(words).expect(rt, row);
    let first = first_changed(alloc, begin, text, at, change);
    first.expect(rt, "lines of a journal") == Some(at)
}

/// Takes the copies of a journal, whose name comes before them. It begins by the first of its beginnings.
fn refuses_each(rt: &impl Abort, alloc: Global, copies: &'static str) {
    let (name, rows) = copies.split_once('\n').expect(rt, copies);
    assert!(rt; !rows.is_empty(), "no row of {name}");
    let (begins, text) = journal(name).expect(rt, name);
    let (begin, _) = begins.split_once(' ').unwrap_or((begins, ""));
    let begin = begin_of(begin).expect(rt, begins);
    for row in rows.lines() {
        if !row.starts_with("#") {
            assert!(rt; is_refused(rt, alloc, begin, text, row), "{name}: {row}");
        }
    }
}

#[test]
fn damaged_copies(rt: HostRuntime) {
    for copies in COPIES.strip_prefix("= ").unwrap_or("").split("\n= ") {
        refuses_each(&rt, rt.alloc(), copies);
    }
}

/// Journals that follow one another, how the first of their runs begins, a change, the place of the entry that is refused, and
/// what that shows.
///
/// A change allows or makes something of a later line. A run after a completed one begins where that ended, from a state of its
/// own: its root has its own number, and no alarm of the run before is set.
const WALKS: &str = "\
sleep | begin | 5 instead call 0 sleep-poll 9223372036854775807999999999 -> pending 0 | 8 | a skip to before the last moment
ready | begin | 5 before event stop 00000009 | 6 | an event in a poll that no call follows
made | begin | 9 instead call 0 sleep-poll 5 -> pending 0 | - | a sleep of a task at its end
made | begin | 9 instead call 0 wake 1 -> ok | 10 | a wake of a task at its end, which comes next
panic | catching | - | 17 | a second wake that is owed to nobody where the panic is caught
caught | begin | - | 17 | a second wake that is owed where the panic is kept
ready ready sleep | begin | - | - | three runs that complete
ready ready sleep | begin | 10 missing | 10 | the crash of the first is missing
ready ready sleep | begin | 11 missing | 11 | the finish of the first is missing
ready ready sleep | begin | 12 missing | 12 | the start of the second is missing
ready ready sleep | begin | 23 missing | 23 | the finish of the second is missing
ready ready sleep | begin | 24 missing | 24 | the start of the third is missing
sleep ready | begin | - | 22 | a second run that begins before the end of the first
sleep ready | begin | 22 instead start 10000000 - 1000000 0 | - | a second run that begins where the first ended
ready late | begin | - | 12 | another deadline for the second run
late ready | timed | - | 15 | a run after one that failed
stall ready | begin | - | 26 | a run after one that stalled
ready | begin | 5 before call 0 sleep-poll 0 -> ready | - | a sleep that is over at once
refused | begin | 6 before call 0 child 0  -> err label | - | an empty label, which is bad
refused | begin | 6 before call 0 child 0 runtime-9 -> err 14 | - | a word that begins as what is reserved, and is no label
refused | begin | 6 before call 0 child 0 runtime-9 -> err reserved | 6 | what is no label isn't reserved
signals | begin | 24 before call 1 completion-poll 1 -> pending | - | a completion with one of two signals open
aborts | begin | 24 before call 0 join 1 -> err 2 | - | a second join, which is refused
caught | catching | 22 before answer 0 pending | 23 | a root that is pending after a caught panic
unmade | begin | 1 before call - auditor -> 00000001 | - | another digest, of which no entry says that it's wrong";

/// The lines of these journals with a change, where `-` is none. Unread where the change isn't one or is past their end.
fn lines_in(alloc: Global, names: &str, change: &'static str) -> Result<Vec<&'static str>, Unread> {
    let lines = lines_of_all(alloc, names)?;
    if change == "-" {
        return Ok(lines);
    }
    match change_of(change) {
        Some((at, change)) if at <= lines.len() => Ok(changed(lines, at, change)?),
        _ => Err(Unread::Line(0)),
    }
}

/// The place that a word says, where `-` is none.
fn place_in(word: &str) -> Option<Option<usize>> {
    if word == "-" {
        return Some(None);
    }
    Some(Some(word.parse::<usize>().ok()?))
}

/// The place of the line of a row that is refused.
fn walked(
    alloc: Global,
    names: &str,
    begin: Begin,
    change: &'static str,
) -> Result<Option<usize>, Unread> {
    let lines = lines_in(alloc, names, change)?;
    first_of(alloc, begin, lines.as_slice())
}

/// The place of the line that a row says is refused, and of the one that is.
fn places_of(
    alloc: Global,
    row: &'static str,
) -> Option<(Option<usize>, Result<Option<usize>, Unread>)> {
    let (names, rest) = row.split_once(" | ")?;
    let (begin, rest) = rest.split_once(" | ")?;
    let (change, rest) = rest.split_once(" | ")?;
    let (first, _) = rest.split_once(" | ")?;
    let begin = begin_of(begin)?;
    Some((place_in(first)?, walked(alloc, names, begin, change)))
}

/// Whether a row comes to what it says.
fn comes_so(rt: &impl Abort, alloc: Global, row: &'static str) -> bool {
    let (wanted, first) = places_of(alloc, row).expect(rt, row);
    first.expect(rt, "lines of journals") == wanted
}

#[test]
fn several_runs(rt: HostRuntime) {
    for row in WALKS.split('\n') {
        assert!(rt; comes_so(&rt, rt.alloc(), row), "{row}");
    }
}

/// Lines that no journal writes, the line that it writes, and what is wrong.
const UNREAD: &str = "\
call x wake 0 -> ok | call - wake 0 -> ok | a word for the maker that isn't its own
call -0 wake 0 -> ok | call 0 wake 0 -> ok | a zero with a sign for who calls
wake +7 | wake 7 | a number with a sign
wake 00 | wake 0 | a zero before a number
wake 07 | wake 7 | a zero before another digit
round 0 +1 | round 0 1 | a round of a number with a sign
skip +7 | skip 7 | a moment with a sign
skip 07 | skip 7 | a zero before a moment
start 0 +7 1000000 0 | start 0 7 1000000 0 | a deadline with a sign
call 0 stop +7 -> closed 7 | call 0 stop 7 -> closed 7 | a value with a sign
call 0 stop 7 -> closed 07 | call 0 stop 7 -> closed 7 | a zero before a value
call 0 stop -07 -> closed 7 | call 0 stop -7 -> closed 7 | a zero before a value below zero
call 0 stop -0 -> closed 7 | call 0 stop 0 -> closed 7 | a zero with a sign
call 0 u32 -> +7 | call 0 u32 -> 7 | a drawn number with a sign
call 0 fill 1 -> AB | call 0 fill 1 -> ab | a byte in capital hex
event stop 0000000A | event stop 0000000a | a field in capital hex
event process_task 0000000000000000000000000000000A - | event process_task 0000000000000000000000000000000a - | a task in capital hex
event process_task +000000000000000000000000000000a - | event process_task 0000000000000000000000000000000a - | a task with a sign
event process_task 00000000000000000000000000000000 4A | event process_task 00000000000000000000000000000000 4a | a label in capital hex
crash p+7 | crash p7 | a prefix of a length with a sign
crash p07 | crash p7 | a zero before the length of a prefix
event stop  | event stop - | no word where a field is
event process_task 00000000000000000000000000000000  | event process_task 00000000000000000000000000000000 - | no word where a label is
event process_task 0  | event process_task 00000000000000000000000000000000 - | no word where a label is, behind a plain number
event  | event stop | no word where the name of an event is
call 0 fill 0 ->  | call 0 fill 0 -> - | no word where bytes are
wake 18446744073709551616 | wake 18446744073709551615 | a number too large
call 0 stop 2147483648 -> closed 7 | call 0 stop 2147483647 -> closed 7 | a value too large";

/// The line of the entry that a line is read as, if it is read.
fn printed(alloc: Global, line: &str) -> Result<Option<String>, NoMemory> {
    let entries = match entries_of(alloc, &[line]) {
        Ok(entries) => entries,
        Err(Unread::Line(_)) => return Ok(None),
        Err(Unread::NoMemory) => return Err(NoMemory),
    };
    let text = text_of(alloc, entries.as_slice());
    drop(entries);
    Ok(Some(text?))
}

/// Stops where a line isn't read, or isn't what its entry prints.
fn is_printed(rt: &impl Abort, alloc: Global, line: &str) {
    let text = printed(alloc, line).expect(rt, "room").expect(rt, line);
    let seen = text.as_str().strip_suffix('\n').unwrap_or("");
    assert!(rt; seen == line, "{line} prints as {text}");
}

/// Takes a row of a line that isn't read, and of one that is and prints as it is.
fn reads_second(rt: &impl Abort, alloc: Global, row: &str) {
    let (unread, rest) = row.split_once(" | ").expect(rt, row);
    let (line, _) = rest.split_once(" | ").expect(rt, row);
    let read = printed(alloc, unread).expect(rt, "room");
    assert!(rt; read.is_none(), "{row}");
    is_printed(rt, alloc, line);
}

#[test]
fn unread_lines(rt: HostRuntime) {
    for row in UNREAD.split('\n') {
        reads_second(&rt, rt.alloc(), row);
    }
}

/// Pieces of which so many numbers make a journal, and how many entries it has.
const MANY: &[(&[Piece], u64, u64, usize)] = &[
    (MANY_ALARMS, 0, 1000, 6015),
    (MANY_TASKS, 1, 1001, 9014),
];

/// How many entries a journal has, and the first that may not come where it is.
fn entries_and_first(alloc: Global, text: &str) -> Result<(usize, Option<usize>), Unread> {
    let entries = entries_in(alloc, text)?;
    let count = entries.len();
    let first = first_unlawful(alloc, BEGIN, entries.as_slice());
    drop(entries);
    Ok((count, first?))
}

/// The same of a journal of pieces.
fn walked_pieces(
    alloc: Global,
    pieces: &[Piece],
    first: u64,
    end: u64,
) -> Result<(usize, Option<usize>), Unread> {
    let text = joined(alloc, pieces, first, end)?;
    entries_and_first(alloc, text.as_str())
}

#[test]
fn thousands(rt: HostRuntime) -> Result<(), Fail> {
    for &(pieces, first, end, entries) in MANY {
        assert!(rt; walked_pieces(rt.alloc(), pieces, first, end)? == (entries, None));
    }
    Ok(())
}

/// Whether a walker takes this start in, and no second one.
fn takes_once(walker: &mut Walker, start: &Entry) -> Result<bool, NoMemory> {
    let may = walker.may(start)?;
    walker.step(start)?;
    Ok(may && !walker.may(start)?)
}

/// Whether a new walker takes this start in, and no second one.
fn starts_once(alloc: Global, start: &Entry) -> Result<bool, NoMemory> {
    let mut walker = Walker::new(alloc, BEGIN)?;
    takes_once(&mut walker, start)
}

/// Whether new walkers take each of these starts in, and no second one.
fn start_once(alloc: Global, starts: &[Entry]) -> Result<bool, NoMemory> {
    for start in starts {
        if !starts_once(alloc, start)? {
            return Ok(false);
        }
    }
    Ok(true)
}

/// How many starts these lines are, and whether each is taken in once.
fn starts(alloc: Global, lines: &[&str]) -> Result<(usize, bool), Unread> {
    let entries = entries_of(alloc, lines)?;
    let count = entries.len();
    let once = start_once(alloc, entries.as_slice());
    drop(entries);
    Ok((count, once?))
}

#[test]
fn surface(rt: HostRuntime) -> Result<(), Fail> {
    let alloc = rt.alloc();
    assert!(rt; starts(alloc, &["start 0 - 1000000 0"])? == (1, true));
    assert!(rt; first_unlawful(alloc, BEGIN, &[])?.is_none());
    Ok(())
}
