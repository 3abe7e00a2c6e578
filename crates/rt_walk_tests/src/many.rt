// Long journals, made of pieces.

use rt_base::NoMemory;
use std::alloc::Global;

/// A piece of a journal.
pub enum Piece {
    Once(&'static str),
    /// For each number, which replaces each `#`.
    Each(&'static str),
}

/// A root that sets so many alarms in its first poll, is woken by each, visited as often, and then stalls.
pub const MANY_ALARMS: &[Piece] = &[
    Piece::Once("start 0 - 1000000 0\nroot 0\nround 0\nvisit 0\nevent process_task 0 -\n"),
    Piece::Each("call 0 sleep-poll 10000000 -> pending #\n"),
    Piece::Once("answer 0 pending\nadvance 1000000\nskip 10000000\n"),
    Piece::Each("fire #\nwake 0\n"),
    Piece::Once("round"),
    Piece::Each(" 0"),
    Piece::Once("\n"),
    Piece::Each("visit 0\nevent process_task 0 -\nanswer 0 pending\n"),
    Piece::Once("advance 11000000\ncleanup\nnodeend 0\nanswer 0 ended\ncrash\nfinish stalled\n"),
];

/// A root that spawns so many tasks, each of which is ready at its visit, and then waits for ever. The nodes have other numbers
/// than a run gives them.
pub const MANY_TASKS: &[Piece] = &[
    Piece::Once("start 0 - 1000000 0\nroot 0\nround 0\nvisit 0\nevent process_task 0 -\n"),
    Piece::Each(
        "call 0 child 0 t -> node 1#\ncall 0 spawn 1# -> task # node 2#\ncall 0 give-up # -> ok\n",
    ),
    Piece::Once("answer 0 pending\nadvance 1000000\nround"),
    Piece::Each(" #"),
    Piece::Once("\n"),
    Piece::Each(
        "visit #\nevent process_task # t\nanswer # ready\ncall # close-node 2# -> ok\nanswer # ended\nnodeend 1#\n",
    ),
    Piece::Once("advance 2000000\ncleanup\nnodeend 0\nanswer 0 ended\ncrash\nfinish stalled\n"),
];

/// The journal of these pieces, with the numbers from the first to before the end.
pub fn joined(alloc: Global, pieces: &[Piece], first: u64, end: u64) -> Result<String, NoMemory> {
    let mut text = String::new(alloc);
    for piece in pieces {
        add_piece(alloc, &mut text, piece, first, end)?;
    }
    Ok(text)
}

fn add_piece(
    alloc: Global,
    text: &mut String,
    piece: &Piece,
    first: u64,
    end: u64,
) -> Result<(), NoMemory> {
    match piece {
        Piece::Once(lines) => Ok(text.push_str(lines)?),
        Piece::Each(lines) => add_each(alloc, text, lines, first, end),
    }
}

fn add_each(
    alloc: Global,
    text: &mut String,
    lines: &str,
    first: u64,
    end: u64,
) -> Result<(), NoMemory> {
    for number in first..end {
        let lines = numbered(alloc, lines, number)?;
        text.push_str(lines.as_str())?;
    }
    Ok(())
}

/// The lines with this number.
fn numbered(alloc: Global, lines: &str, number: u64) -> Result<String, NoMemory> {
    let number = format!(in alloc; "{number}")?;
    Ok(lines.replace(alloc, "#", number.as_str())?)
}
