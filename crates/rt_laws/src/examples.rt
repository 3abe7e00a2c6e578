//! The definitions tried on small roots: what they write is a run, what comes near it is none, and their inputs are
//! valid.

ghost use Rattle.std.specs.Prelude.{◌≡◌, ◌≢◌, ◌≤◌, ◌<◌, ◌+◌, ◌-◌, ◌^◌, ◌++◌, [], ◌∷◌, ℕ, pos, List, Some, None, Result, false};
ghost use Rattle.rt_base.specs.declared.error.Error.{Error};
ghost use Rattle.rt_base.specs.declared.execution.Execution.TheVariants.{Shared};
ghost use Rattle.rt_base.specs.declared.time.TheConstants.{MAX_TIME};
ghost use Rattle.rt_audit.specs.declared.call.Call.{Call};
ghost use Rattle.rt_audit.specs.declared.call.Call.TheVariants.{CloseNode};
ghost use Rattle.rt_audit.specs.declared.reply.CallReply.{CallReply};
ghost use Rattle.rt_audit.specs.declared.reply.CallReply.TheVariants.{Done};
ghost use Rattle.rt_audit.specs.declared.entry.Entry.TheVariants.{Wake};
ghost use Rattle.rt_audit.specs.declared.finish.FinishCause.{FinishCause};
ghost use Rattle.rt_audit.specs.declared.finish.FinishCause.TheVariants.{Completed, Timeout, Stalled, TimeOverflow, TooManyTasks, NoMemory};
ghost use Rattle.rt_model.specs.declared.answer.Answer.{Answer};
ghost use Rattle.rt_model.specs.declared.answer.Answer.TheVariants.{Pending, Ready};
ghost use Rattle.rt_model.specs.State.{State, Stood, Turn, begun};
ghost use Rattle.rt_model.specs.Effects.{after_all};
ghost use Rattle.rt_model.specs.Rules.{IsLawful, AreDrawn};
ghost use Rattle.rt_model.specs.Turns.{IsCounted, Held, with_change, with_spawned};
ghost use Rattle.rt_model.specs.Walk.{Stops, Walks};
ghost use Rattle.rt_model.specs.Tied.{Value, nothing, IsTied};
ghost use Rattle.rt_model.specs.Run.{IsRun, IsCutOff, IsValidInput};
ghost use Rattle.rt_laws.specs.Supervised.{Aborting, Parent, Aborter, aborting_root, aborting_next, aborter_spawned, beside_journal, lacking_join};
ghost use Rattle.rt_laws.specs.Slotting.{sending_root, send_lacks, sending_journal};
ghost use Rattle.rt_laws.specs.Examples.{small_begin, opening, visiting_root, begin_by, ready_root, counting, counting_root, pending_root, sleeping_root, gave, ready_journal, skipped_journal, short_journal, cut_journal, stalled_journal, late_journal, at_once_late_journal, overflow_journal, no_number_journal, drawn, open_node, ordered, finished_for, called, fires_with, early_fire, early_sleep, silent_end, busy_root, lacking_journal, invented_in_poll, invented_in_end, called_by_maker, asking_maker, maker_lacks};

/// A root that is ready with a number at its first poll gives it, at time 0.
#[tactic(auto, using(crate::proofs::Runs::ready_time))]
pub fn a_ready_root_has_its_run()
    ensures run { (number : ℕ) → IsRun (ready_root number) small_begin ready_journal Completed (after_all (begun small_begin) ready_journal) (gave number) }
    ensures time { (after_all (begun small_begin) ready_journal).clock.time ≡ 0 }
{}

/// A root that counts and is ready has the journal of one that only is ready, and what it counted is held (`run`). Each poll of it
/// makes no call, and counts so (`poll`).
pub fn a_root_that_counts_has_its_run()
    ensures run { (number : ℕ) → IsRun (counting_root number) small_begin ready_journal Completed (after_all (begun small_begin) ready_journal) (record nothing { held = record nothing.held { counts = (0, pos 1) ∷ [] }; output = Some number }) }
    ensures poll { (number : ℕ) (held end : Held (Unit {0}) ℕ) (turns : List Turn) (stood : Stood) (answer : Answer ℕ) → Walks (counting number) held turns stood answer tt end → (turns ≡ []) × (answer ≡ Ready number) × (end ≡ record held { counts = with_change 0 (pos 1) held.counts }) }
{}

/// A root that sleeps for more than a cycle gives 0 when its sleep is due: the clock skips to that moment. One that
/// sleeps for less gives it behind the first cycle.
#[tactic(auto, using(crate::proofs::Runs::skipped_time, crate::proofs::Runs::short_time))]
pub fn a_sleeping_root_has_its_run()
    ensures skipped { (due : ℕ) → 1000000 < due → due ≤ MAX_TIME → IsRun (sleeping_root due) small_begin (skipped_journal due) Completed (after_all (begun small_begin) (skipped_journal due)) (gave 0) }
    ensures skipped_time { (due : ℕ) → (after_all (begun small_begin) (skipped_journal due)).clock.time ≡ due }
    ensures short { (due : ℕ) → 0 < due → due ≤ 1000000 → IsRun (sleeping_root due) small_begin (short_journal due) Completed (after_all (begun small_begin) (short_journal due)) (gave 0) }
    ensures short_time { (due : ℕ) → (after_all (begun small_begin) (short_journal due)).clock.time ≡ 1000000 }
{}

/// A run whose root lacked memory in its first poll is cut off, whether a call was made before or not. What is called
/// behind the lack is free while it may come where it stands, and an end may lack memory as well. Where a spawned task lacked
/// it, the end of the root makes the calls of its own steps. A task that was spawned before the lack ends as it was made. No entry
/// tells where memory lacked: where its spawn may have come behind the lack, it ends as any task may. A maker may lack it
/// at its first call, make another that may come there, and make no root.
pub fn a_run_that_lacked_memory_is_cut_off()
    ensures at_once { (due : ℕ) → IsCutOff (sleeping_root due) small_begin cut_journal }
    ensures within { (call : Call) (reply : CallReply) → IsLawful (begun small_begin) (lacking_journal call reply) → IsCutOff busy_root small_begin (lacking_journal call reply) }
    ensures lawful { IsLawful (begun small_begin) (lacking_journal (CloseNode 0) Done) }
    ensures beside { IsCutOff (aborting_root Pending) small_begin beside_journal }
    ensures spawned { IsCutOff (aborting_root Pending) small_begin (lacking_join 2) }
    ensures free { IsCutOff (aborting_root Pending) small_begin (lacking_join 1) }
    ensures sent { (sent : Result ℕ Error) → IsCutOff (sending_root sent) small_begin sending_journal }
    ensures maker { (call : Call) (reply : CallReply) → IsLawful (begun small_begin) (called_by_maker call reply) → IsCutOff asking_maker small_begin (called_by_maker call reply) }
    ensures lawful_maker { IsLawful (begun small_begin) (called_by_maker (CloseNode 0) Done) }
    ensures maker_at_once { IsCutOff asking_maker small_begin maker_lacks }
{}

/// A root that is never ready stalls. With a deadline its run is late behind the first cycle, or at once. Where a cycle
/// passes the last moment, time overflows. Where no task number is left, the root isn't taken in, and the call of its
/// end is made by no task.
pub fn each_other_cause_ends_a_run()
    ensures stalled { IsRun pending_root small_begin stalled_journal Stalled (after_all (begun small_begin) stalled_journal) nothing }
    ensures late { let b = begin_by 1000000 (Some 1000000) 0 in IsRun pending_root b late_journal Timeout (after_all (begun b) late_journal) nothing }
    ensures at_once_late { let b = begin_by 1000000 (Some 0) 0 in IsRun pending_root b at_once_late_journal Timeout (after_all (begun b) at_once_late_journal) nothing }
    ensures overflow { let b = begin_by (MAX_TIME + 1) None 0 in IsRun pending_root b overflow_journal TimeOverflow (after_all (begun b) overflow_journal) nothing }
    ensures no_number { let b = begin_by 1000000 None (2 ^ 64 - 1) in IsRun pending_root b no_number_journal TooManyTasks (after_all (begun b) no_number_journal) nothing }
{}

/// The rounds of these runs have one number each and no draw, and none is drawn that has one.
pub fn small_rounds_are_not_drawn()
    ensures ready { AreDrawn (begun small_begin) ready_journal }
    ensures skipped { (due : ℕ) → AreDrawn (begun small_begin) (skipped_journal due) }
    ensures short { (due : ℕ) → AreDrawn (begun small_begin) (short_journal due) }
    ensures drawn { (value : ℕ) → AreDrawn (begun small_begin) (drawn value) → ⊥ }
{}

/// Each run of a root that is ready or sleeps completes, whatever its number. (One that sleeps past the last moment has no run.) Not
/// each run of one that is never ready does.
pub fn small_inputs_are_valid()
    ensures ready { (number : ℕ) → IsValidInput (ready_root number) small_begin }
    ensures sleeping { (due : ℕ) → IsValidInput (sleeping_root due) small_begin }
    ensures pending { IsValidInput pending_root small_begin → ⊥ }
{}

/// What comes near to the runs of these roots is no run of any steps.
pub fn near_misses_are_not_lawful()
    ensures other_order { (order : List ℕ) → order ≢ 0 ∷ [] → IsLawful (begun small_begin) (ordered order) → ⊥ }
    ensures other_cause { (cause : FinishCause) → cause ≢ Completed → cause ≢ NoMemory → IsLawful (begun small_begin) (finished_for cause) → ⊥ }
    ensures missing_wake { (due : ℕ) → IsLawful (begun small_begin) (fires_with due []) → ⊥ }
    ensures early_fire { (due : ℕ) → 1000000 < due → IsLawful (begun small_begin) (early_fire due) → ⊥ }
    ensures early_sleep { (due : ℕ) → 0 < due → IsLawful (begun small_begin) (early_sleep due) → ⊥ }
    ensures late_due { (due : ℕ) → MAX_TIME < due → IsLawful (begun small_begin) (skipped_journal due) → ⊥ }
{}

/// Two of those with what may come there: an alarm with its wake (`wake`), and one that is due within the cycle (`fire`). What
/// the others differ from is in the runs above, but for `early_sleep`: a sleep that is due at once is ready at once.
pub fn near_misses_are_lawful_but_for_one_place()
    ensures wake { (due : ℕ) → 1000000 < due → due ≤ MAX_TIME → IsLawful (begun small_begin) (fires_with due (Wake 0 ∷ [])) }
    ensures fire { (due : ℕ) → 0 < due → due ≤ 1000000 → IsLawful (begun small_begin) (early_fire due) }
{}

/// What may come near to the run of a root that is ready at once, and is no run of its steps: its node stays open, it
/// makes a call in its poll, or the run finishes as one that lacked memory.
pub fn near_misses_are_no_runs()
    ensures open_node { (number : ℕ) (cause : FinishCause) (end : State) (value : Value (Unit {0}) ℕ) → IsRun (ready_root number) small_begin open_node cause end value → ⊥ }
    ensures unasked_call { (number : ℕ) (cause : FinishCause) (end : State) (value : Value (Unit {0}) ℕ) (call : Call) (reply : CallReply) → IsRun (ready_root number) small_begin (called call reply) cause end value → ⊥ }
    ensures lacking_run { (number : ℕ) (cause : FinishCause) (end : State) (value : Value (Unit {0}) ℕ) → IsRun (ready_root number) small_begin (finished_for NoMemory) cause end value → ⊥ }
{}

/// What may come near to a run that was cut off, of a root that is ready at once, and is none: its end makes no call and
/// lacks no memory, or a call is made that its steps don't name, in a poll that lacked memory, in an end or by the maker.
pub fn near_misses_are_not_cut_off()
    ensures silent_end { (number : ℕ) → IsCutOff (ready_root number) small_begin silent_end → ⊥ }
    ensures in_a_poll { (number : ℕ) (call : Call) (reply : CallReply) → IsCutOff (ready_root number) small_begin (invented_in_poll call reply) → ⊥ }
    ensures in_an_end { (number : ℕ) → IsCutOff (ready_root number) small_begin invented_in_end → ⊥ }
    ensures by_the_maker { (number : ℕ) (call : Call) (reply : CallReply) → IsCutOff (ready_root number) small_begin (called_by_maker call reply) → ⊥ }
{}

/// What a part made before it lacked memory is held. A task that it spawned is in the state that its spawn made, and in no other,
/// where the lack came behind that. What it sent before any call that may lack memory is held wherever it lacked it.
pub fn what_was_made_before_a_lack_is_held()
    ensures spawned { (mid : Held Aborting ℕ) → let s = after_all (begun small_begin) (opening ++ visiting_root ++ aborter_spawned) in Stops (aborting_next Pending Parent 0 0) nothing.held s.turns s.stood mid → IsCounted (with_spawned 1 (Shared false) (Aborter 2) nothing.held) mid }
    ensures sent { (sent : Result ℕ Error) (w : Value (Unit {0}) ℕ) → IsTied (sending_root sent) (begun small_begin) nothing send_lacks w → w.held.sent ≡ (0, sent) ∷ [] }
{}
