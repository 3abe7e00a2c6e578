//! The reports of runs, each written through a buffer.

ghost use Rattle.std.specs.Prelude.{◌≡◌, ◌≤◌, ◌++◌, length, Err, OnOk, OnErr, codes, string_bytes};
ghost use Rattle.std.specs.List.{All};
ghost use Rattle.rt_base.specs.Outside.{Appends, HasRisen};
ghost use Rattle.rt_audit.specs.Lines.{line_of};
ghost use Rattle.rt_scripts.specs.Report.{StandsIn, reports_text, report_text, entries_text, result_text, numbers_text, word_of, detail_of, IsWritten, IsPart};

use crate::{RunReport, RunResult};
use rt_audit::Entry;
use rt_base::{Failed, NoMemory, Sink8, write_whole};
use rt_core::RunError;
use std::alloc::{AllocError, Global};

/// The number of bytes from which on the buffer is written out.
const BUFFER: usize = 65536;

/// The buffer begins with room for them and for the end of a line, so that it seldom grows.
const ROOM: usize = BUFFER + 1024;

/// Why a report wasn't written whole.
#[derive(Clone, Copy, Debug, PartialEq, Eq)]
pub enum Unwritten {
    /// A write failed.
    Failed,
    NoMemory,
}

impl From<NoMemory> for Unwritten {
    ghost use Rattle.std.specs.Prelude.{◌≡◌};
    ghost use Rattle.rt_scripts.specs.declared.report.Unwritten.TheVariants.{NoMemory};

    ghost from_gives = { λ _ e. e ≡ NoMemory };

    fn from(_: NoMemory) -> Unwritten {
        Unwritten::NoMemory
    }
}

impl From<AllocError> for Unwritten {
    ghost use Rattle.std.specs.Prelude.{◌≡◌};
    ghost use Rattle.rt_scripts.specs.declared.report.Unwritten.TheVariants.{NoMemory};

    ghost from_gives = { λ _ e. e ≡ NoMemory };

    fn from(_: AllocError) -> Unwritten {
        Unwritten::NoMemory
    }
}

impl From<Failed> for Unwritten {
    ghost use Rattle.std.specs.Prelude.{◌≡◌};
    ghost use Rattle.rt_scripts.specs.declared.report.Unwritten.TheVariants.{Failed};

    ghost from_gives = { λ _ e. e ≡ Failed };

    fn from(_: Failed) -> Unwritten {
        Unwritten::Failed
    }
}

/// Writes the reports of runs, one after another, each with its own of these entries. Where they aren't written
/// whole, the first bytes have been.
pub fn write_reports<K: Sink8>(
    alloc: Global,
    sink: &mut K,
    runs: &[RunReport],
    entries: &[Entry],
) -> Result<(), Unwritten>
    requires { All (StandsIn (length entries.now)) runs.now }
    ensures whole { OnOk result (Appends (K.held sink.old) (reports_text runs.now entries.now) (K.held sink.new)) }
    ensures part { OnErr result (IsPart (K.held sink.old) (reports_text runs.now entries.now) (K.held sink.new)) }
    ensures cause { result ≡ Err Unwritten.Failed → HasRisen (K.faults sink.old) (K.faults sink.new) }
    ensures counted { K.faults sink.old ≤ K.faults sink.new }
{
    let mut rest = runs;
    while let Some((run, tail)) = rest.split_first() {
        write_report(alloc, sink, run, &entries[run.from..run.to])?;
        rest = tail;
    }
    Ok(())
}

/// Writes the report of a run, whose entries these are.
///
/// Where it isn't written whole, its first bytes have been.
#[tactic(auto, using(crate::proofs::Written::unwritten))]
fn write_report<K: Sink8>(
    alloc: Global,
    sink: &mut K,
    run: &RunReport,
    entries: &[Entry],
) -> Result<(), Unwritten>
    ensures whole { OnOk result (Appends (K.held sink.old) (report_text run.now entries.now) (K.held sink.new)) }
    ensures part { OnErr result (IsPart (K.held sink.old) (report_text run.now entries.now) (K.held sink.new)) }
    ensures cause { result ≡ Err Unwritten.Failed → HasRisen (K.faults sink.old) (K.faults sink.new) }
    ensures counted { K.faults sink.old ≤ K.faults sink.new }
{
    let mut buffer = String::with_capacity(alloc, ROOM)?;
    let root = run.root.as_str();
    write!(buffer, "run {root}\n")?;
    write_entries(alloc, sink, &mut buffer, entries)?;
    add_result(&mut buffer, &run.result)?;
    add_numbers(alloc, &mut buffer, run)?;
    write_whole(sink, buffer.as_bytes())?;
    Ok(())
}

/// Writes a line for each entry, the last of them into the buffer alone.
#[tactic(auto, using(crate::proofs::Written::written_later))]
fn write_entries<K: Sink8>(
    alloc: Global,
    sink: &mut K,
    buffer: &mut String,
    entries: &[Entry],
) -> Result<(), Unwritten>
    ensures written { OnOk result (IsWritten (K.held sink.old) (string_bytes buffer.old ++ entries_text entries.now) (K.held sink.new) (string_bytes buffer.new)) }
    ensures part { OnErr result (IsPart (K.held sink.old) (string_bytes buffer.old ++ entries_text entries.now) (K.held sink.new)) }
    ensures cause { result ≡ Err Unwritten.Failed → HasRisen (K.faults sink.old) (K.faults sink.new) }
    ensures counted { K.faults sink.old ≤ K.faults sink.new }
{
    for entry in entries {
        write_entry(alloc, sink, buffer, entry)?;
    }
    Ok(())
}

/// Puts the line of an entry into the buffer, and writes the buffer out where it is full.
#[inline(always)]
#[tactic(auto, using(crate::proofs::Written::written_out, crate::proofs::Written::unwritten))]
fn write_entry<K: Sink8>(
    alloc: Global,
    sink: &mut K,
    buffer: &mut String,
    entry: &Entry,
) -> Result<(), Unwritten>
    ensures written { OnOk result (IsWritten (K.held sink.old) (string_bytes buffer.old ++ (line_of entry.now ++ codes "\n")) (K.held sink.new) (string_bytes buffer.new)) }
    ensures part { OnErr result (IsPart (K.held sink.old) (string_bytes buffer.old ++ (line_of entry.now ++ codes "\n")) (K.held sink.new)) }
    ensures cause { result ≡ Err Unwritten.Failed → HasRisen (K.faults sink.old) (K.faults sink.new) }
    ensures counted { K.faults sink.old ≤ K.faults sink.new }
{
    entry.add_to(alloc, buffer)?;
    buffer.push_str("\n")?;
    if buffer.len() >= BUFFER {
        write_whole(sink, buffer.as_bytes())?;
        buffer.clear();
    }
    Ok(())
}

fn add_result(text: &mut String, ended: &RunResult) -> Result<(), NoMemory>
    ensures { OnOk result (string_bytes text.new ≡ string_bytes text.old ++ result_text ended.now) }
{
    match ended {
        RunResult::Ok(value) => {
            let value = *value;
            write!(text, "result ok {value}\n")?;
        }
        RunResult::Failed(error) => {
            let word = error_word(error);
            write!(text, "result {word}")?;
            add_detail(text, error)?;
            text.push_str("\n")?;
        }
    }
    Ok(())
}

/// Adds the text of a panic, which comes after its word.
fn add_detail(text: &mut String, error: &RunError) -> Result<(), NoMemory>
    ensures { OnOk result (string_bytes text.new ≡ string_bytes text.old ++ detail_of error.now) }
{
    if let RunError::TaskPanicked(panic) = error {
        let panic = panic.as_str();
        write!(text, " {panic}")?;
    }
    Ok(())
}

fn add_numbers(alloc: Global, text: &mut String, run: &RunReport) -> Result<(), NoMemory>
    ensures { OnOk result (string_bytes text.new ≡ string_bytes text.old ++ numbers_text run.now) }
{
    let time = run.time;
    let rounds = run.rounds;
    let encoded = hex::encode(alloc, &run.digest)?;
    let digest = encoded.as_str();
    write!(text, "time {time}\nrounds {rounds}\ndigest {digest}\n")?;
    Ok(())
}

fn error_word(error: &RunError) -> &'static str
    ensures { result.now ≡ word_of error.now }
{
    match error {
        RunError::Timeout => "timeout",
        RunError::Stalled => "stalled",
        RunError::TaskPanicked(_) => "panicked",
        RunError::TimeOverflow => "overflow",
        RunError::TooManyTasks => "tasks",
        RunError::NoMemory => "nomemory",
    }
}
