//! The call of the program.

ghost use Rattle.std.specs.Prelude.{◌≡◌, ◌≢◌, ◌<◌, ◌≤◌, ◌⊎◌, ◌++◌, List, [], true, false, not, Some, IfSome, IfOk, length, take, drop, map, vec_capacity, string_bytes};
ghost use Rattle.rt_base.specs.Outside.{HasRisen};
ghost use Rattle.std.specs.List.{All};
ghost use Rattle.rt_audit.specs.Journal.{last_time, rounds_in};
ghost use Rattle.rt_audit.specs.declared.entry.Entry.{Entry};
ghost use Rattle.rt_scenario.specs.Scenario.{scenario_of, is_runnable, CanRunLine, Whole, BrokenAt};
ghost use Rattle.rt_scenario.specs.Texts.{text_at};
ghost use Rattle.rt_scenario.specs.Within.{HavePlaces};
ghost use Rattle.rt_scripts.specs.Asked.{Asked, Reads, IsAsked, Refuses, Reports, EndsAs, Ends, says_run};
ghost use Rattle.rt_scripts.specs.Ran.{CameOf, Chain, HasScripts, last_status, maker_of, report_of, starting, status_of};
ghost use Rattle.rt_scripts.specs.Report.{StandsIn, reports_text};

use crate::report::{Unwritten, write_reports};
use crate::{Outcome, Program, RootScript, RunReport, RunResult, Script};
use rand_chacha::ChaCha12Rng;
use rt_audit::Journal;
use rt_base::{Items, Nanos, NoMemory, Sink8, Source, Text, Unread, read_whole, write_whole};
use rt_core::{Checkpoint, Config, Failure, Finished, RunError, Runner};
use rt_scenario::{Broken, Refusal, RunLine, Scenario, Settings, read_scenario};
use std::alloc::Global;

/// How many bytes a scenario may have.
const LONGEST: usize = 1_048_576;

/// The line for words that are no command.
const USAGE: &str = "usage: rt_sim run | gen N | load N | workers N\n";

/// Carries out the command of these words: `run` reads a scenario from the source, runs it, and writes the whole
/// report of each run to the sink.
///
/// The status is 0 where each run gave an output, 2 where the words are no command, 3 where the input is no scenario,
/// 4 where a read failed, 5 where a write failed, 6 where a run failed, which is then the last, and 7 where it was
/// out of memory. A scenario has at most 1,048,576 bytes. Time never goes back in the journal, also from one run to
/// the next (`rises`). After a failed write the outcome differs from that without it in the status alone, and the
/// first bytes of the text were written. Of bytes that were written each clause speaks where the sink tells what it
/// holds, and of bytes that were read where the source tells them; standard input and output tell none. Each call
/// keeps the memory of its scenario's scripts, and of the reader's large tables, until the process ends, since giving
/// it back piece by piece takes time.
pub fn simulate_alone<S: Source, K: Sink8>(
    alloc: Global,
    words: &[String],
    source: &mut S,
    sink: &mut K,
) -> Outcome
    ensures report { (asked : Asked) × IsAsked (map string_bytes words.now) (S.left source.old) asked × Ends asked result (K.held sink.old) (K.held sink.new) }
    ensures rises { (x y z : List Entry) → result.journal.entries ≡ (x ++ y) ++ z → last_time x ≤ last_time (x ++ y) }
    ensures to_the_end { (result.status ≡ 0) ⊎ ((result.status ≡ 3) ⊎ (result.status ≡ 6)) → IfSome (S.left source.old) (λ left. length left ≤ LONGEST → S.left source.new ≡ Some []) }
    ensures words { says_run (map string_bytes words.now) ≡ false → (result.status ≡ 2) ⊎ (result.status ≡ 5) }
    ensures untouched { says_run (map string_bytes words.now) ≡ false → source.new ≡ source.old }
    ensures unread { result.status ≡ 4 → HasRisen (S.faults source.old) (S.faults source.new) × (sink.new ≡ sink.old) }
    ensures unwritten { result.status ≡ 5 → HasRisen (K.faults sink.old) (K.faults sink.new) }
{
    if !is_run_command(words) {
        return refuse(alloc, sink, 2, USAGE);
    }
    match read_whole(alloc, source, LONGEST) {
        Err(Unread::Failed) => nothing(alloc, 4),
        Err(Unread::NoMemory) => nothing(alloc, 7),
        Err(Unread::TooLong) => refuse(alloc, sink, 3, "error too long\n"),
        Ok(bytes) => run_bytes(alloc, bytes.as_slice(), sink),
    }
}

/// Whether the words are the command that there is.
fn is_run_command(words: &[String]) -> bool
    ensures { result ≡ says_run (map string_bytes words.now) }
{
    match words {
        [word] => word.as_bytes() == b"run".as_slice(),
        _ => false,
    }
}

/// An outcome without runs.
fn nothing(alloc: Global, status: u8) -> Outcome
    ensures { Refuses status result }
{
    Outcome {
        status,
        runs: Items::of(Vec::new(alloc)),
        journal: Journal::new(alloc),
    }
}

/// Writes a line, and returns a status.
fn refuse<K: Sink8>(alloc: Global, sink: &mut K, status: u8, line: &str) -> Outcome
    requires { status < 4 }
    ensures ends { EndsAs (Refuses status) line.now result (K.held sink.old) (K.held sink.new) }
    ensures statuses { (result.status ≡ status) ⊎ (result.status ≡ 5) }
    ensures unwritten { result.status ≡ 5 → HasRisen (K.faults sink.old) (K.faults sink.new) }
{
    match write_whole(sink, line.as_bytes()) {
        Ok(()) => nothing(alloc, status),
        Err(_) => nothing(alloc, 5),
    }
}

/// Runs the scenario that these bytes write.
fn run_bytes<K: Sink8>(alloc: Global, bytes: &[u8], sink: &mut K) -> Outcome
    ensures ends { Ends (Reads (scenario_of bytes.now)) result (K.held sink.old) (K.held sink.new) }
    ensures read { result.status ≢ 4 }
    ensures unwritten { result.status ≡ 5 → HasRisen (K.faults sink.old) (K.faults sink.new) }
{
    match read_scenario(alloc, bytes) {
        Err(Refusal::NoMemory) => nothing(alloc, 7),
        Err(Refusal::Broken(broken)) => refuse_broken(alloc, sink, broken),
        Ok(scenario) => run_scenario(alloc, scenario, sink),
    }
}

fn refuse_broken<K: Sink8>(alloc: Global, sink: &mut K, broken: Broken) -> Outcome
    ensures ends { Ends (Reads (BrokenAt broken.line broken.kind)) result (K.held sink.old) (K.held sink.new) }
    ensures read { result.status ≢ 4 }
    ensures unwritten { result.status ≡ 5 → HasRisen (K.faults sink.old) (K.faults sink.new) }
{
    let Broken { line, kind } = broken;
    match format!(in alloc; "error {line} {kind}\n") {
        Ok(text) => refuse(alloc, sink, 3, text.as_str()),
        Err(_) => nothing(alloc, 7),
    }
}

/// Runs the lines of a scenario, one after another, and writes their reports.
fn run_scenario<K: Sink8>(alloc: Global, scenario: Scenario, sink: &mut K) -> Outcome
    requires settings { is_runnable scenario.settings ≡ true }
    requires lines { All (CanRunLine scenario.scripts scenario.settings) scenario.runs }
    requires places { HavePlaces scenario.scripts }
    ensures ends { Ends (Reads (Whole scenario)) result (K.held sink.old) (K.held sink.new) }
    ensures read { result.status ≢ 4 }
    ensures unwritten { result.status ≡ 5 → HasRisen (K.faults sink.old) (K.faults sink.new) }
{
    let Scenario {
        settings,
        scripts,
        runs: lines,
    } = scenario;
    let Ok(room) = Vec::with_capacity(alloc, lines.as_slice().len()) else {
        return nothing(alloc, 7);
    };
    let Ok(program) = Program::new(alloc, scripts) else {
        return nothing(alloc, 7);
    };
    let first = first_runner(settings);
    let ran = run_lines(alloc, &program, first, lines.as_slice(), room);
    // The scripts stand until the process ends, which gives their memory back whole.
    std::mem::forget(program);
    let Ran {
        runs,
        journal,
        lacked,
    } = ran;
    if lacked {
        return Outcome {
            status: 7,
            runs: Items::of(runs),
            journal,
        };
    }
    report_runs(alloc, sink, runs, journal)
}

/// The runner of a scenario's first run. What no line says is as [`Config::new`] has it.
fn first_runner(settings: Settings) -> Runner<ChaCha12Rng>
    requires { is_runnable settings ≡ true }
    ensures { result ≡ starting settings }
{
    let config = Config::new()
        .with_seed(settings.seed.unwrap_or(42))
        .with_next_task(settings.next.unwrap_or(0))
        .with_cycle(settings.cycle.unwrap_or(1_000_000))
        .with_start_time(settings.start.unwrap_or(0))
        .with_timeout(settings.timeout)
        .with_catch_panics(settings.catch.unwrap_or(false));
    match Runner::new(config) {
        Ok(runner) => runner,
        Err(_) => unreachable!(),
    }
}

/// What the lines of a scenario have come to: the runs that are reported, all entries, and whether a run ran out of memory.
#[derive(Drop)]
struct Ran {
    runs: Vec<RunReport>,
    journal: Journal,
    lacked: bool,
}

/// Runs these lines, the first as this runner begins, and each later one from what is kept of the one before. One that fails
/// is the last. There is room for their reports.
fn run_lines(
    alloc: Global,
    program: &Program,
    first: Runner<ChaCha12Rng>,
    lines: &[RunLine],
    room: Vec<RunReport>,
) -> Ran
    requires lines { All (HasScripts program.now) lines.now }
    requires none { room.items ≡ [] }
    requires places { length lines.now ≤ vec_capacity room }
    requires fresh { first.given ≡ [] }
    ensures { Chain (not result.lacked) program.now first lines.now result.runs.items result.journal.entries }
{
    let mut runs = room;
    let mut runner = first;
    let mut place = 0;
    let mut rounds = 0;
    let mut rest = lines;
    while let Some((line, tail)) = rest.split_first() {
        match run_line(alloc, program, runner, line, place, rounds) {
            Came::Completed { run, checkpoint } => {
                place = run.to;
                rounds = checkpoint.journal().rounds();
                runs.push_reserved(run);
                runner = Runner::from(checkpoint);
            }
            Came::Failed { run, journal } => {
                runs.push_reserved(run);
                return Ran {
                    runs,
                    journal,
                    lacked: false,
                };
            }
            Came::Lacked(journal) => {
                return Ran {
                    runs,
                    journal,
                    lacked: true,
                };
            }
        }
        rest = tail;
    }
    Ran {
        runs,
        journal: runner.into_journal(alloc),
        lacked: false,
    }
}

/// What the run of a line has come to.
#[derive(Drop)]
pub enum Came {
    Completed {
        run: RunReport,
        checkpoint: Checkpoint<ChaCha12Rng>,
    },
    Failed {
        run: RunReport,
        journal: Journal,
    },
    /// It ran out of memory. These are all entries.
    Lacked(Journal),
}

/// The name of the script that a line runs, and the maker of its root.
fn prepared(
    alloc: Global,
    program: &Program,
    line: &RunLine,
) -> Result<(Text, RootScript), NoMemory>
    requires { HasScripts program.now line.now }
    ensures { IfOk result (λ made. (made.0 ≡ (text_at program.now line.now.root).name) × (made.1 ≡ maker_of program.now line.now)) }
{
    let name = Text::of(program.script_name(line.root).to_owned(alloc)?);
    let with = Items::of(line.with.as_slice().to_vec(alloc)?);
    Ok((name, RootScript::new(program.share()?, line.root, with)))
}

/// Runs a line. The entries of the runs before it end at this place, and have so many rounds.
fn run_line(
    alloc: Global,
    program: &Program,
    runner: Runner<ChaCha12Rng>,
    line: &RunLine,
    place: usize,
    rounds: u64,
) -> Came
    requires line { HasScripts program.now line.now }
    requires place { place ≡ length runner.given }
    requires rounds { rounds ≡ rounds_in runner.given }
    ensures { CameOf program.now line.now runner result }
{
    let Ok((name, maker)) = prepared(alloc, program, line) else {
        return Came::Lacked(runner.into_journal(alloc));
    };
    match runner.start_and_recover::<Script, RootScript>(alloc, maker) {
        Ok(finished) => {
            let Finished { output, checkpoint } = finished;
            let time = checkpoint.time();
            let run = report_of(
                name,
                RunResult::Ok(output),
                time,
                place,
                rounds,
                checkpoint.journal(),
            );
            Came::Completed { run, checkpoint }
        }
        Err(failure) => {
            let Failure { cause, journal } = failure;
            if cause == RunError::NoMemory {
                return Came::Lacked(journal);
            }
            let time = journal.last_time();
            let run = report_of(
                name,
                RunResult::Failed(cause),
                time,
                place,
                rounds,
                &journal,
            );
            Came::Failed { run, journal }
        }
    }
}

/// The report of a run whose entries are from a place of the journal on, after so many rounds.
#[tactic(auto, using(crate::proofs::Runs::rounds_behind))]
fn report_of(
    root: Text,
    ended: RunResult,
    time: Nanos,
    place: usize,
    rounds: u64,
    journal: &Journal,
) -> RunReport
    requires place { place ≤ length journal.now.entries }
    requires rounds { rounds ≡ rounds_in (take place journal.now.entries) }
    ensures { result ≡ report_of root ended time (take place journal.now.entries) (drop place journal.now.entries) }
{
    RunReport {
        root,
        result: ended,
        from: place,
        to: journal.len(),
        digest: journal.digest(),
        time,
        rounds: journal.rounds() - rounds,
    }
}

/// Writes the reports of runs, whose entries are those of the journal.
fn report_runs<K: Sink8>(
    alloc: Global,
    sink: &mut K,
    runs: Vec<RunReport>,
    journal: Journal,
) -> Outcome
    requires { All (StandsIn (length journal.entries)) runs.items }
    ensures ends { EndsAs (Reports runs.items journal.entries) (reports_text result.runs result.journal.entries) result (K.held sink.old) (K.held sink.new) }
    ensures read { result.status ≢ 4 }
    ensures unwritten { result.status ≡ 5 → HasRisen (K.faults sink.old) (K.faults sink.new) }
{
    let status = match write_reports(alloc, sink, runs.as_slice(), journal.entries()) {
        Ok(()) => last_status(runs.as_slice()),
        Err(Unwritten::Failed) => 5,
        Err(Unwritten::NoMemory) => 7,
    };
    Outcome {
        status,
        runs: Items::of(runs),
        journal,
    }
}

/// The status after these reports: that of the last one.
#[tactic(auto, using(crate::proofs::Runs::last_laws))]
fn last_status(runs: &[RunReport]) -> u8
    ensures is { result ≡ last_status runs.now }
    ensures statuses { (result ≡ 0) ⊎ (result ≡ 6) }
{
    let mut status = 0;
    let mut rest = runs;
    while let Some((run, tail)) = rest.split_first() {
        status = status_of(&run.result);
        rest = tail;
    }
    status
}

/// The status of a run whose report was written.
fn status_of(ended: &RunResult) -> u8
    ensures is { result ≡ status_of ended.now }
    ensures statuses { (result ≡ 0) ⊎ (result ≡ 6) }
{
    match ended {
        RunResult::Ok(_) => 0,
        RunResult::Failed(_) => 6,
    }
}
