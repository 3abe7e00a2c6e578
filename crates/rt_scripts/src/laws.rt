//! Laws of reports, checkpoints and small scripts, in the words of the definitions. Each function does nothing: its contract is the law.

ghost use Rattle.std.specs.Prelude.{◌≡◌, ◌≤◌, ◌<◌, ◌+◌, ◌++◌, ◌∷◌, [], Bool, List, Some, ℕ, ℤ, length, true};
ghost use Rattle.rand_chacha.specs.ChaCha.{ChaCha};
ghost use Rattle.rand_core.specs.Stream.{Stream};
ghost use Rattle.rt_audit.specs.declared.entry.Entry.{Entry};
ghost use Rattle.rt_audit.specs.declared.finish.FinishCause.TheVariants.{Completed};
ghost use Rattle.rt_base.specs.declared.time.TheConstants.{MAX_TIME};
ghost use Rattle.rt_core.specs.Outcome.{Completes, IsValid};
ghost use Rattle.rt_core.specs.Starting.{Kept, Starting};
ghost use Rattle.rt_core.specs.declared.run_error.RunError.{RunError};
ghost use Rattle.rt_laws.specs.Drawing.{NeverGives, moody_root};
ghost use Rattle.rt_laws.specs.Examples.{small_begin, ready_journal, skipped_journal, short_journal};
ghost use Rattle.rt_model.specs.Effects.{after_all};
ghost use Rattle.rt_model.specs.Run.{IsRun, IsValidInput};
ghost use Rattle.rt_model.specs.Runs.{AreLawful};
ghost use Rattle.rt_model.specs.State.{begun};
ghost use Rattle.rt_model.specs.Tied.{Steps, nothing};
ghost use Rattle.rt_scenario.specs.Texts.{text_at};
ghost use Rattle.rt_scenario.specs.declared.line.Line.TheVariants.{AbortSelf, End, EndLast, Join, Pend, Sleep, Spawn, Stop, StopWithin};
ghost use Rattle.rt_scenario.specs.declared.scenario.RunLine.{RunLine};
ghost use Rattle.rt_scenario.specs.declared.scenario.ScriptText.{ScriptText};
ghost use Rattle.rt_scripts.specs.declared.outcome.RunReport.{RunReport};
ghost use Rattle.rt_scripts.specs.declared.outcome.RunResult.TheVariants.{Failed};
ghost use Rattle.rt_scripts.specs.Making.{Maker};
ghost use Rattle.rt_scripts.specs.Ran.{Chain, last_status, root_steps};

/// Each line has its report where the last status is 0. Nothing is reported without a line or after a run that
/// failed. The entries of a run begin where those of the one before end, and those of the last one end the journal.
pub fn reports_tell_the_runs_of_all_lines()
    ensures each_line { (scripts : List ScriptText) (from : Starting ChaCha) (lines : List RunLine) (runs : List RunReport) (entries : List Entry) → last_status runs ≡ 0 → Chain true scripts from lines runs entries → length runs ≡ length lines }
    ensures without_a_line { (scripts : List ScriptText) (from : Starting ChaCha) (whole : Bool) (run : RunReport) (runs : List RunReport) (entries : List Entry) → Chain whole scripts from [] (run ∷ runs) entries → ⊥ }
    ensures behind_a_failure { (scripts : List ScriptText) (from : Starting ChaCha) (whole : Bool) (line : RunLine) (lines : List RunLine) (run next : RunReport) (runs : List RunReport) (entries : List Entry) (error : RunError) → run.result ≡ Failed error → Chain whole scripts from (line ∷ lines) (run ∷ next ∷ runs) entries → ⊥ }
    ensures begins { (scripts : List ScriptText) (from : Starting ChaCha) (whole : Bool) (line : RunLine) (lines : List RunLine) (run next : RunReport) (runs : List RunReport) (entries : List Entry) → Chain whole scripts from (line ∷ lines) (run ∷ next ∷ runs) entries → next.from ≡ run.to }
    ensures to_the_end { (scripts : List ScriptText) (from : Starting ChaCha) (lines : List RunLine) (runs : List RunReport) (run : RunReport) (entries : List Entry) → Chain true scripts from lines (runs ++ run ∷ []) entries → run.to ≡ length from.given + length entries }
{}

/// The journal of a completed run decides what is kept of it, except for how a generator that gives the same is kept.
pub fn a_journal_decides_its_checkpoint<A, O, G>()
    ensures { (stream : G → Stream) (p : Steps A O) (s : Starting G) (one two : O) (kept other : Kept G) → Completes stream p s one kept → Completes stream p s two other → kept.journal ≡ other.journal → (other ≡ record kept { rng = other.rng }) × (stream other.rng ≡ stream kept.rng) }
{}

/// Input that is valid whatever is drawn is valid for each generator.
pub fn input_that_is_always_valid_is_valid<A, O, G>()
    ensures { (stream : G → Stream) (p : Steps A O) (s : Starting G) → IsValidInput p s.begin → IsValid stream p s }
{}

/// A root that draws a number, and pends where that is 1, is valid as the run contract asks it for each generator that never
/// gives 1.
pub fn a_root_is_valid_for_its_generator<G>()
    ensures { (stream : G → Stream) (s : Starting G) → s.begin ≡ small_begin → NeverGives 1 (stream s.rng) → IsValid stream moody_root s }
{}

/// A script that ends at its first line gives its number and has the journal of a root that does so (`ready`), and so has one that
/// sleeps first: for more than a cycle (`skipped`) or less (`short`).
pub fn small_scripts_have_their_runs()
    ensures ready { (m : Maker) → m.with ≡ [] → (number : ℤ) → (text_at m.program m.root).lines ≡ End number ∷ [] → IsRun (root_steps m) small_begin ready_journal Completed (after_all (begun small_begin) ready_journal) (record nothing { output = Some number }) }
    ensures skipped { (m : Maker) → m.with ≡ [] → (number : ℤ) (due : ℕ) → (text_at m.program m.root).lines ≡ Sleep due ∷ End number ∷ [] → 1000000 < due → due ≤ MAX_TIME → IsRun (root_steps m) small_begin (skipped_journal due) Completed (after_all (begun small_begin) (skipped_journal due)) (record nothing { output = Some number }) }
    ensures short { (m : Maker) → m.with ≡ [] → (number : ℤ) (due : ℕ) → (text_at m.program m.root).lines ≡ Sleep due ∷ End number ∷ [] → 0 < due → due ≤ 1000000 → IsRun (root_steps m) small_begin (short_journal due) Completed (after_all (begun small_begin) (short_journal due)) (record nothing { output = Some number }) }
{}

/// With the default settings and nothing beside the root, each run completes of a script that ends at its first line (`ready`), or
/// that first sleeps, for more than 0 and not past the last moment (`sleeping`), or stops its run (`stopping`), maybe within a limit
/// that isn't past the last moment (`stopping_within`). That there are such runs is a law for the first two, and tested for the others.
pub fn small_scripts_are_valid()
    ensures ready { (m : Maker) → m.with ≡ [] → (number : ℤ) → (text_at m.program m.root).lines ≡ End number ∷ [] → IsValidInput (root_steps m) small_begin }
    ensures sleeping { (m : Maker) → m.with ≡ [] → (number : ℤ) (due : ℕ) → (text_at m.program m.root).lines ≡ Sleep due ∷ End number ∷ [] → 0 < due → due ≤ MAX_TIME → IsValidInput (root_steps m) small_begin }
    ensures stopping { (m : Maker) → m.with ≡ [] → (value number : ℤ) → (text_at m.program m.root).lines ≡ Stop value ∷ End number ∷ [] → IsValidInput (root_steps m) small_begin }
    ensures stopping_within { (m : Maker) → m.with ≡ [] → (value number : ℤ) (limit : ℕ) → (text_at m.program m.root).lines ≡ StopWithin value limit ∷ End number ∷ [] → limit ≤ MAX_TIME → IsValidInput (root_steps m) small_begin }
{}

/// With the default settings, each run of a script with one other task completes: where both end at their first lines (`beside`), and
/// where the root spawns the task, joins it and ends with what that gave, while the task aborts itself and then ends (`aborting`) or
/// stays pending (`pending`). The labels may be any, also ones that are refused. That there are such runs is tested.
pub fn scripts_with_tasks_are_valid()
    ensures beside { (m : Maker) (at : ℕ) → m.with ≡ at ∷ [] → (number other : ℤ) → (text_at m.program m.root).lines ≡ End number ∷ [] → (text_at m.program at).lines ≡ End other ∷ [] → IsValidInput (root_steps m) small_begin }
    ensures aborting { (m : Maker) → m.with ≡ [] → (at script : ℕ) → (text_at m.program m.root).lines ≡ Spawn at script ∷ Join at ∷ EndLast ∷ [] → (number : ℤ) → (text_at m.program script).lines ≡ AbortSelf ∷ End number ∷ [] → IsValidInput (root_steps m) small_begin }
    ensures pending { (m : Maker) → m.with ≡ [] → (at script : ℕ) → (text_at m.program m.root).lines ≡ Spawn at script ∷ Join at ∷ EndLast ∷ [] → (text_at m.program script).lines ≡ AbortSelf ∷ Pend ∷ [] → IsValidInput (root_steps m) small_begin }
{}

/// The entries of a scenario's runs are lawful one run after another, each of which begins at the end of the one before it.
pub fn runs_of_a_scenario_begin_in_order()
    ensures { (whole : Bool) (scripts : List ScriptText) (from : Starting ChaCha) (lines : List RunLine) (runs : List RunReport) (entries : List Entry) → Chain whole scripts from lines runs entries → AreLawful (begun from.begin) entries }
{}
