//! Laws of runs, in the words of the definitions. Each function does nothing: its contract is the law.
#![tactic(auto)]

mod auditing;
mod chained;
mod drawing;
mod examples;
mod giving;
mod panics;
mod refusals;
mod signaling;
mod slotting;
mod supervised;
mod twice;

ghost use Rattle.std.specs.Prelude.{Bool, ◌≡◌, ◌≢◌, ◌≤◌, ◌<◌, ◌+◌, ◌-◌, ◌^◌, ◌++◌, ◌⊎◌, ◌↔◌, [], ◌∷◌, ℕ, List, Option, Some, None, true, false, All, Contains};
ghost use Rattle.rt_base.specs.declared.time.TheConstants.{MAX_TIME};
ghost use Rattle.rt_audit.specs.declared.call.Call.{Call};
ghost use Rattle.rt_audit.specs.declared.call.Call.TheVariants.{Child, Join, SleepPoll, Slots};
ghost use Rattle.rt_audit.specs.declared.slot_call.SlotCall.TheVariants.{Poll as SlotPoll};
ghost use Rattle.rt_audit.specs.declared.reply.CallReply.{CallReply};
ghost use Rattle.rt_audit.specs.declared.reply.CallReply.TheVariants.{NodeAt, PendingAt, Ready};
ghost use Rattle.rt_audit.specs.declared.answer.AnswerKind.TheVariants.{Stopped, NoMemory, Ended};
ghost use Rattle.rt_audit.specs.declared.entry.Entry.{Entry};
ghost use Rattle.rt_audit.specs.declared.entry.Entry.TheVariants.{Start, Call as Called, Event, Wake, Root, Round, Visit, Answer, Advance, Skip, Fire, Cleanup};
ghost use Rattle.rt_audit.specs.declared.finish.FinishCause.{FinishCause};
ghost use Rattle.rt_audit.specs.declared.finish.FinishCause.TheVariants.{Completed, Timeout, Stalled, TaskPanicked, TimeOverflow, TooManyTasks, NoMemory as OutOfMemory};
ghost use Rattle.rt_super.specs.Alarms.{Alarm};
ghost use Rattle.rt_super.specs.Ancestry.{is_known, is_ended, links, nodes_below};
ghost use Rattle.rt_model.specs.declared.begin.Begin.{Begin};
ghost use Rattle.rt_model.specs.declared.mark.Mark.{Mark};
ghost use Rattle.rt_model.specs.State.{State, Turn, Making, Entered, Ending, Turning, Over, Finished, begun};
ghost use Rattle.rt_model.specs.Causes.{is_late, overflows, reached};
ghost use Rattle.rt_model.specs.Effects.{after, after_all};
ghost use Rattle.rt_model.specs.Rules.{IsLawful, May, MayClose};
ghost use Rattle.rt_model.specs.Lists.{find};
ghost use Rattle.rt_model.specs.Marks.{is_flagged};
ghost use Rattle.rt_model.specs.Tied.{Steps, Value, Moves, IsTied, taken};
ghost use Rattle.rt_model.specs.Turns.{Held};
ghost use Rattle.rt_model.specs.Walk.{Walks};
ghost use Rattle.rt_model.specs.Run.{IsRun};
ghost use Rattle.rt_model.specs.Runs.{AreLawful, next_begin};
ghost use Rattle.rt_laws.specs.Aborts.{IsAbortOf};
ghost use Rattle.rt_laws.specs.Cleanup.{IsOfCleanup};
ghost use Rattle.rt_laws.specs.Earliest.{IsEarliest};
ghost use Rattle.rt_laws.specs.Onward.{IsOnward};
ghost use Rattle.rt_laws.specs.Polls.{PollsNone};
ghost use Rattle.rt_laws.specs.Sends.{SpendsSender};
ghost use Rattle.rt_laws.specs.Several.{GoesOn};
ghost use Rattle.rt_laws.specs.Spawns.{Spawns};
ghost use Rattle.rt_laws.specs.Stored.{IsStored};
ghost use Rattle.rt_laws.specs.Visits.{IsInVisit};

pub use auditing::{
    an_auditor_is_answered_by_four_bytes, an_auditor_tells_four_zeros_at_first,
    an_auditor_tells_the_digest_of_the_events_before,
};
pub use chained::{a_run_goes_on_where_another_ended, time_never_goes_back_over_a_chain};
pub use drawing::{
    a_call_comes_behind_its_own_event, a_draw_is_answered_by_what_it_asks_for,
    a_root_completes_for_its_generator, a_root_that_asks_has_its_run,
    a_root_that_draws_has_its_run, a_root_that_pends_by_what_is_drawn_is_not_valid,
    inputs_that_draw_are_valid, near_misses_of_drawing_are_lawful_but_for_one_place,
    near_misses_of_drawing_are_not_lawful, other_answers_of_draws_are_refused,
    what_was_drawn_stays,
};
pub use examples::{
    a_ready_root_has_its_run, a_root_that_counts_has_its_run, a_run_that_lacked_memory_is_cut_off,
    a_sleeping_root_has_its_run, each_other_cause_ends_a_run,
    near_misses_are_lawful_but_for_one_place, near_misses_are_no_runs, near_misses_are_not_cut_off,
    near_misses_are_not_lawful, small_inputs_are_valid, small_rounds_are_not_drawn,
    what_was_made_before_a_lack_is_held,
};
pub use giving::{
    a_counting_stream_gives_its_counts, a_draw_orders_two_numbers,
    a_stream_decides_the_order_of_a_round, a_stream_decides_what_it_gives,
    a_stream_gives_in_parts_what_it_gives, a_stream_gives_what_it_answers,
    near_misses_of_giving_are_not_given, what_a_stream_gave_leaves_one_stream,
};
pub use panics::{
    a_caught_panic_has_its_run, a_panic_of_the_root_has_its_run, a_reported_panic_has_its_run,
    near_misses_of_panics_are_not_lawful,
};
pub use refusals::near_misses_of_refusals_are_not_lawful;
pub use signaling::{a_signal_shows_its_value, each_signal_of_the_shutdown_shows_the_first_value};
pub use slotting::{near_misses_of_slots_are_no_runs, what_was_sent_into_a_slot_is_received};
pub use supervised::{
    a_task_of_the_maker_has_its_run, a_task_that_aborts_itself_and_is_pending_has_its_run,
    a_task_that_aborts_itself_has_its_run, inputs_with_spawned_tasks_are_valid,
};
pub use twice::{
    a_round_is_drawn, a_task_that_is_woken_twice_has_its_run, near_misses_of_draws_are_not_drawn,
};

/// Time never goes back: not after any state, and so nowhere in a run.
#[tactic(auto, using(crate::proofs::Clock::later, crate::proofs::Clock::later_begun))]
pub fn time_never_goes_back()
    ensures of_runs { (b : Begin) (x y : List Entry) → IsLawful (begun b) (x ++ y) → (after_all (begun b) x).clock.time ≤ (after_all (begun b) (x ++ y)).clock.time }
    ensures of_states { (s : State) (x y : List Entry) → IsLawful s (x ++ y) → (after_all s x).clock.time ≤ (after_all s (x ++ y)).clock.time }
{}

/// Time skips only where nobody is ready, ahead, and to the earliest alarm.
#[tactic(auto, using(crate::proofs::Order::run_skip))]
pub fn a_skip_goes_to_the_earliest_alarm()
    ensures { (b : Begin) (x y : List Entry) (now : ℕ) → IsLawful (begun b) (x ++ Skip now ∷ y) → ((after_all (begun b) x).ready ≡ []) × IsEarliest (after_all (begun b) x).stood.alarms.alarms now × ((after_all (begun b) x).clock.time < now) }
{}

/// A sleep is ready from its due time on, and not before. One that waits has its alarm.
#[tactic(auto, using(crate::proofs::Timely::run_ready, crate::proofs::Stays::run_pending))]
pub fn a_sleep_is_ready_once_it_is_due()
    ensures ready { (b : Begin) (x y : List Entry) (by : Option ℕ) (due : ℕ) (reply : CallReply) → IsLawful (begun b) (x ++ Called by (SleepPoll due) reply ∷ y) → (reply ≡ Ready) ↔ (due ≤ (after_all (begun b) x).clock.time) }
    ensures waits { (b : Begin) (x y : List Entry) (by : Option ℕ) (due alarm : ℕ) → IsLawful (begun b) (x ++ Called by (SleepPoll due) (PendingAt alarm) ∷ y) → Contains (after_all (begun b) (x ++ Called by (SleepPoll due) (PendingAt alarm) ∷ [])).stood.alarms.alarms (record { due = due; number = alarm; task = by }) }
{}

/// Outside a clock step no alarm is overdue: each that is set lies ahead.
#[tactic(auto, using(crate::proofs::Timely::run_ahead))]
pub fn alarms_lie_ahead()
    ensures { (b : Begin) (x : List Entry) → IsLawful (begun b) x → let s = after_all (begun b) x in s.phase ≢ Turning → All (λ (a : Alarm). s.clock.time < a.due) s.stood.alarms.alarms }
{}

/// An alarm that goes off is set and due, the earliest first, and less than a cycle late. None does once the deadline is there.
#[tactic(auto, using(crate::proofs::Timely::run_fire, crate::proofs::Timely::run_fire_early))]
pub fn an_alarm_fires_on_time()
    ensures on_time { (b : Begin) (x y : List Entry) (alarm : ℕ) → IsLawful (begun b) (x ++ Fire alarm ∷ y) → let s = after_all (begun b) x in (a : Alarm) × Contains s.stood.alarms.alarms a × (a.number ≡ alarm) × IsEarliest s.stood.alarms.alarms a.due × (a.due ≤ s.clock.time) × (0 < s.clock.fixed.cycle → s.clock.time < a.due + s.clock.fixed.cycle) }
    ensures before_the_deadline { (b : Begin) (x y : List Entry) (alarm : ℕ) → IsLawful (begun b) (x ++ Fire alarm ∷ y) → is_late (after_all (begun b) x).clock ≡ false }
{}

/// An alarm whose time has come has gone off once the clock step is over, if no cleanup began before.
pub fn a_due_alarm_has_fired()
    ensures { (b : Begin) (x y : List Entry) (a : Alarm) → IsLawful (begun b) (x ++ y) → Contains (after_all (begun b) x).stood.alarms.alarms a → let s = after_all (begun b) (x ++ y) in s.phase ≢ Turning → a.due ≤ s.clock.time → Contains y (Fire a.number) ⊎ Contains y Cleanup }
{}

/// No two alarms that are set have the same number.
pub fn alarms_have_numbers_of_their_own()
    ensures { (b : Begin) (x : List Entry) (a c : Alarm) → let alarms = (after_all (begun b) x).stood.alarms.alarms in Contains alarms a → Contains alarms c → a.number ≡ c.number → a ≡ c }
{}

/// An alarm goes off at most once.
#[tactic(auto, using(crate::proofs::Numbers::run_once))]
pub fn an_alarm_fires_once()
    ensures { (b : Begin) (x y : List Entry) (alarm : ℕ) → IsLawful (begun b) (x ++ Fire alarm ∷ y) → All (λ (e : Entry). e ≢ Fire alarm) y }
{}

/// Right after an alarm that goes off its task wakes.
#[tactic(auto, using(crate::proofs::Numbers::run_wakes))]
pub fn an_alarm_wakes_its_task()
    ensures { (b : Begin) (x y : List Entry) (e : Entry) (a : Alarm) (task : ℕ) → IsLawful (begun b) (x ++ Fire a.number ∷ e ∷ y) → Contains (after_all (begun b) x).stood.alarms.alarms a → a.task ≡ Some task → e ≡ Wake task }
{}

/// A task is visited while it runs, and before the deadline.
#[tactic(auto, using(crate::proofs::Causes::run_visited, crate::proofs::Causes::run_visited_early))]
pub fn a_task_is_visited_while_it_runs()
    ensures runs { (b : Begin) (x y : List Entry) (task : ℕ) → IsLawful (begun b) (x ++ Visit task ∷ y) → Contains (after_all (begun b) x).running task }
    ensures before_the_deadline { (b : Begin) (x y : List Entry) (task : ℕ) → IsLawful (begun b) (x ++ Visit task ∷ y) → is_late (after_all (begun b) x).clock ≡ false }
{}

/// Before a clock step a round visits each task that was ready when it began, and runs.
pub fn a_round_visits_whoever_is_ready()
    ensures { (b : Begin) (x y z : List Entry) (order : List ℕ) (now task : ℕ) → IsLawful (begun b) (x ++ Round order ∷ (y ++ Advance now ∷ z)) → let s = after_all (begun b) x in Contains s.ready task → Contains s.running task → Contains y (Visit task) }
{}

/// After a cleanup tasks only end: none is visited, nothing wakes, and the clock stands still.
#[tactic(auto, using(crate::proofs::Endings::run_cleaned, crate::proofs::Endings::run_still))]
pub fn a_cleanup_only_ends_tasks()
    ensures entries { (b : Begin) (x y : List Entry) → IsLawful (begun b) (x ++ Cleanup ∷ y) → All IsOfCleanup y }
    ensures clock { (b : Begin) (x y : List Entry) → IsLawful (begun b) (x ++ Cleanup ∷ y) → (after_all (begun b) (x ++ Cleanup ∷ y)).clock ≡ (after_all (begun b) x).clock }
{}

/// A run that isn't cut off ends for the cause that it had reached where its cleanup began, and there this cause holds: nobody
/// is ready and no alarm is set, the deadline is there, a cycle would pass the last moment, the root panicked or was stopped,
/// or the root isn't taken in since no number is left for it.
#[tactic(auto, using(crate::proofs::Causes::run_stalled, crate::proofs::Causes::run_late, crate::proofs::Causes::run_overflows, crate::proofs::Causes::run_panicked, crate::proofs::Causes::run_numberless))]
pub fn a_run_ends_for_a_cause_that_holds()
    ensures reached { (b : Begin) (x y : List Entry) (cause : FinishCause) → IsLawful (begun b) (x ++ Cleanup ∷ y) → (after_all (begun b) (x ++ Cleanup ∷ y)).phase ≡ Finished cause → cause ≢ OutOfMemory → reached (after_all (begun b) x) ≡ Some cause }
    ensures stalled { (b : Begin) (x y : List Entry) → IsLawful (begun b) (x ++ Cleanup ∷ y) → (after_all (begun b) (x ++ Cleanup ∷ y)).phase ≡ Finished Stalled → ((after_all (begun b) x).ready ≡ []) × ((after_all (begun b) x).stood.alarms.alarms ≡ []) }
    ensures timeout { (b : Begin) (x y : List Entry) → IsLawful (begun b) (x ++ Cleanup ∷ y) → (after_all (begun b) (x ++ Cleanup ∷ y)).phase ≡ Finished Timeout → is_late (after_all (begun b) x).clock ≡ true }
    ensures overflow { (b : Begin) (x y : List Entry) → IsLawful (begun b) (x ++ Cleanup ∷ y) → (after_all (begun b) (x ++ Cleanup ∷ y)).phase ≡ Finished TimeOverflow → overflows (after_all (begun b) x).clock ≡ true }
    ensures panicked { (b : Begin) (x y : List Entry) → IsLawful (begun b) (x ++ Cleanup ∷ y) → (after_all (begun b) (x ++ Cleanup ∷ y)).phase ≡ Finished TaskPanicked → (after_all (begun b) x).phase ≡ Over TaskPanicked }
    ensures tasks { (b : Begin) (x y : List Entry) → IsLawful (begun b) (x ++ Cleanup ∷ y) → (after_all (begun b) (x ++ Cleanup ∷ y)).phase ≡ Finished TooManyTasks → ((after_all (begun b) x).phase ≡ Making) × (2 ^ 64 - 1 ≤ (after_all (begun b) x).numbers.next) }
{}

/// A run goes past no place where a cause is reached and its cleanup may begin: only that may come there, once who is owed a wake
/// has it. The maker's calls may still come, and then no root.
pub fn a_run_stops_where_a_cause_is_reached()
    ensures stops { (s : State) (e : Entry) (cause : FinishCause) → MayClose s.phase → s.phase ≢ Making → s.owed ≡ [] → reached s ≡ Some cause → May s e → e ≡ Cleanup }
    ensures maker { (s : State) (task : ℕ) (cause : FinishCause) → s.phase ≡ Making → reached s ≡ Some cause → May s (Root task) → ⊥ }
{}

/// Only the root is stopped, and only where a panic is kept. None is kept where panics are caught.
#[tactic(auto, using(crate::proofs::Stopped::run_stops, crate::proofs::Stopped::run_keeps))]
pub fn the_root_is_stopped_by_a_kept_panic()
    ensures stopped { (b : Begin) (x y : List Entry) (task : ℕ) → IsLawful (begun b) (x ++ Answer task Stopped ∷ y) → ((after_all (begun b) x).root ≡ Some task) × ((after_all (begun b) x).panicked ≡ true) }
    ensures kept { (b : Begin) (x : List Entry) → (after_all (begun b) x).panicked ≡ true → b.catch ≡ false }
{}

/// The entries of a run determine its beginning and its cause, whatever the tasks. No entry keeps whether panics are
/// caught; where that is the same, they determine its end too.
pub fn entries_determine_the_end<A, B, O, P>()
    ensures beginning { (p : Steps A O) (q : Steps B P) (b c : Begin) (x : List Entry) (cause other : FinishCause) (end last : State) (v : Value A O) (w : Value B P) → IsRun p b x cause end v → IsRun q c x other last w → b ≡ record c { catch = b.catch } }
    ensures cause { (p : Steps A O) (q : Steps B P) (b c : Begin) (x : List Entry) (cause other : FinishCause) (end last : State) (v : Value A O) (w : Value B P) → IsRun p b x cause end v → IsRun q c x other last w → cause ≡ other }
    ensures end { (p : Steps A O) (q : Steps B P) (b c : Begin) (x : List Entry) (cause other : FinishCause) (end last : State) (v : Value A O) (w : Value B P) → IsRun p b x cause end v → IsRun q c x other last w → b.catch ≡ c.catch → end ≡ last }
{}

/// Tasks that take the same steps, in runs with the same entries that both catch panics or don't, give the same output
/// and leave the same values.
#[tactic(auto, using(crate::proofs::Values::same_value))]
pub fn entries_determine_the_output<A, O>()
    ensures { (p : Steps A O) (b c : Begin) (x : List Entry) (cause other : FinishCause) (end last : State) (v w : Value A O) → IsRun p b x cause end v → IsRun p c x other last w → b.catch ≡ c.catch → v ≡ w }
{}

/// A run that has begun at all begins with its start.
#[tactic(auto, using(crate::proofs::Starts::run_starts))]
pub fn a_run_begins_with_its_start()
    ensures { (b : Begin) (e : Entry) (x : List Entry) → IsLawful (begun b) (e ∷ x) → e ≡ Start b.first b.start b.deadline b.cycle }
{}

/// No time of a run lies past the last moment, if it doesn't start there, and no alarm is ever due past it.
#[tactic(auto, using(crate::proofs::Ranges::run_due, crate::proofs::Ranges::run_in_range))]
pub fn time_stays_within_its_range()
    ensures time { (b : Begin) (x : List Entry) → b.start ≤ MAX_TIME → IsLawful (begun b) x → (after_all (begun b) x).clock.time ≤ MAX_TIME }
    ensures alarms { (b : Begin) (x : List Entry) → IsLawful (begun b) x → All (λ (a : Alarm). a.due ≤ MAX_TIME) (after_all (begun b) x).stood.alarms.alarms }
{}

/// A sleep that waits is due by the last moment.
#[tactic(auto, using(crate::proofs::Ranges::run_asked))]
pub fn a_pending_sleep_is_due_in_time()
    ensures { (b : Begin) (x y : List Entry) (by : Option ℕ) (due alarm : ℕ) → IsLawful (begun b) (x ++ Called by (SleepPoll due) (PendingAt alarm) ∷ y) → due ≤ MAX_TIME }
{}

/// No cleanup begins within a visit: its poll is answered first, and a task that ends in it has ended, with its node.
#[tactic(auto, using(crate::proofs::Ranges::run_outside))]
pub fn no_cleanup_in_the_midst_of_a_poll()
    ensures { (b : Begin) (x y : List Entry) → IsLawful (begun b) (x ++ Cleanup ∷ y) → IsInVisit (after_all (begun b) x).phase → ⊥ }
{}

/// Each call is made by a task, but those of the maker and of a root that was not taken in: behind the root's entry none is made by nobody.
#[tactic(auto, using(crate::proofs::Ranges::run_rootless, crate::proofs::Ranges::run_rooted))]
pub fn nobody_calls_behind_the_last_end()
    ensures calls { (b : Begin) (x y : List Entry) (call : Call) (reply : CallReply) → IsLawful (begun b) (x ++ Called None call reply ∷ y) → (after_all (begun b) x).root ≡ None }
    ensures behind { (b : Begin) (x y : List Entry) (task : ℕ) → IsLawful (begun b) (x ++ Root task ∷ y) → All (λ (e : Entry). (call : Call) (reply : CallReply) → e ≢ Called None call reply) y }
{}

/// A poll that lacked memory leaves the states of all other tasks as they were, but for those that it spawned, and so does
/// each end, whether it lacked memory or not.
pub fn lacking_memory_keeps_the_other_tasks<A, O>()
    ensures polls { (p : Steps A O) (s : State) (v w : Value A O) (task other : ℕ) → Moves p s v (Answer task NoMemory) w → other ≢ task → All (λ (t : Turn). Spawns other t → ⊥) s.turns → find other w.held.tasks ≡ find other v.held.tasks }
    ensures ends { (p : Steps A O) (s : State) (v w : Value A O) (task other : ℕ) → Moves p s v (Answer task Ended) w → other ≢ task → All (λ (t : Turn). Spawns other t → ⊥) s.turns → find other w.held.tasks ≡ find other v.held.tasks }
{}

/// After a poll or an end that lacked memory a run only ends: it goes on by no round, visit or step of the clock. A poll that
/// lacked it answers so. No entry tells it of an end, so each end behind which the run goes on has made all calls of its steps.
pub fn behind_a_lack_of_memory_a_run_only_ends<A, O>()
    ensures polls { (p : Steps A O) (s : State) (v w : Value A O) (task : ℕ) (x y : List Entry) (e : Entry) → IsOnward e → IsTied p s v (Answer task NoMemory ∷ x ++ e ∷ y) w → ⊥ }
    ensures ends { (p : Steps A O) (s : State) (v w : Value A O) (task : ℕ) (x y : List Entry) (e : Entry) → IsOnward e → IsTied p s v (Answer task Ended ∷ x ++ e ∷ y) w → (a : A) × (find task v.held.tasks ≡ Some a) × ((end : Held A O) × Walks (p.task.last a s.clock.time task) (taken task v.held) s.turns s.stood tt tt end) }
{}

/// Several runs in one journal are walked one after another: runs that are lawful each from its beginning are lawful
/// together, where each but the last has completed and each but the first goes on behind the one ahead of it. No other journals are.
pub fn runs_stand_one_after_another()
    ensures joined { (b : Begin) (x y : List Entry) → IsLawful (begun b) x → (after_all (begun b) x).phase ≡ Finished Completed → AreLawful (begun (next_begin (after_all (begun b) x))) y → AreLawful (begun b) (x ++ y) }
    ensures alone { (b : Begin) (x : List Entry) → IsLawful (begun b) x → AreLawful (begun b) x }
    ensures apart { (b : Begin) (z : List Entry) → AreLawful (begun b) z → IsLawful (begun b) z ⊎ GoesOn (begun b) z }
{}

/// From the moment at which a task is flagged on, no poll of it begins. One that is under way goes on.
pub fn a_flagged_task_is_polled_no_more()
    ensures { (b : Begin) (x y : List Entry) (task : ℕ) → IsLawful (begun b) (x ++ y) → is_flagged (find task (after_all (begun b) x).marks) ≡ true → PollsNone (after_all (begun b) x) y task }
{}

/// A task ends at most once, and its result comes to be there only with its end: it is stored at most once. It is handed
/// out at most once.
pub fn a_result_is_stored_and_handed_out_once()
    ensures ends { (b : Begin) (x y : List Entry) (task : ℕ) → IsLawful (begun b) (x ++ Answer task Ended ∷ y) → All (λ (e : Entry). e ≢ Answer task Ended) y }
    ensures stored { (b : Begin) (x y : List Entry) (e : Entry) (task : ℕ) → IsLawful (begun b) (x ++ e ∷ y) → (IsStored (after_all (begun b) x) task → ⊥) → IsStored (after (after_all (begun b) x) e) task → e ≡ Answer task Ended }
    ensures handed_out { (b : Begin) (x y : List Entry) (by : Option ℕ) (task : ℕ) → IsLawful (begun b) (x ++ Called by (Join task) Ready ∷ y) → All (λ (e : Entry). (other : Option ℕ) → e ≢ Called other (Join task) Ready) y }
{}

/// The sender of a slot is spent at most once: behind a send or a close of it there is no other of either. A value is handed out
/// at most once.
pub fn a_value_of_a_slot_is_sent_and_handed_out_once()
    ensures sent { (b : Begin) (x y : List Entry) (e : Entry) (slot : ℕ) → IsLawful (begun b) (x ++ e ∷ y) → SpendsSender slot e → All (λ (f : Entry). SpendsSender slot f → ⊥) y }
    ensures handed_out { (b : Begin) (x y : List Entry) (by : Option ℕ) (slot : ℕ) → IsLawful (begun b) (x ++ Called by (Slots (SlotPoll slot)) Ready ∷ y) → All (λ (e : Entry). (other : Option ℕ) → e ≢ Called other (Slots (SlotPoll slot)) Ready) y }
{}

/// No poll begins of a task on an ended node. From the visit that ends a task on, none begins of a task below its node,
/// whether that was spawned before or later.
pub fn nobody_is_polled_below_an_end()
    ensures on_it { (b : Begin) (x y : List Entry) (task : ℕ) (m : Mark) → IsLawful (begun b) (x ++ y) → find task (after_all (begun b) x).marks ≡ Some m → is_ended (after_all (begun b) x).stood.nodes m.node ≡ true → PollsNone (after_all (begun b) x) y task }
    ensures below { (b : Begin) (x y z : List Entry) (task child : ℕ) (m k : Mark) → IsLawful (begun b) (x ++ Answer task Ended ∷ (y ++ z)) → find task (after_all (begun b) x).marks ≡ Some m → let t = after_all (begun b) (x ++ Answer task Ended ∷ y) in find child t.marks ≡ Some k → Contains (nodes_below m.node (links t.stood.nodes)) k.node → PollsNone t z child }
{}

/// A task is ended unpolled only where an abort named it before, or its node has ended.
pub fn whoever_ends_unpolled_was_aborted_or_ended()
    ensures { (b : Begin) (x y : List Entry) (label : List ℕ) (fields : List (List ℕ)) (task : ℕ) (left : List ℕ) → IsLawful (begun b) (x ++ Event label fields ∷ y) → let s = after_all (begun b) x in s.phase ≡ Entered task left → (after s (Event label fields)).phase ≡ Ending task None left → ((e : Entry) × Contains x e × IsAbortOf task e) ⊎ ((m : Mark) × (find task s.marks ≡ Some m) × (is_ended s.stood.nodes m.node ≡ true)) }
{}

/// Who is born under an ended node is ended. What stands below an ended node is ended, and whoever has ended stays so.
pub fn ends_go_down_the_tree()
    ensures born { (b : Begin) (x y : List Entry) (by : Option ℕ) (node number : ℕ) (label : List ℕ) (ended : Bool) → IsLawful (begun b) (x ++ Called by (Child node label) (NodeAt number ended) ∷ y) → let s = after_all (begun b) x in is_ended s.stood.nodes node ≡ true → (ended ≡ true) × (is_ended (after s (Called by (Child node label) (NodeAt number ended))).stood.nodes number ≡ true) }
    ensures below { (b : Begin) (x : List Entry) (n j : ℕ) → IsLawful (begun b) x → let s = after_all (begun b) x in is_ended s.stood.nodes n ≡ true → Contains (nodes_below n (links s.stood.nodes)) j → is_ended s.stood.nodes j ≡ true }
    ensures stays { (b : Begin) (x y : List Entry) (n : ℕ) → IsLawful (begun b) (x ++ y) → is_known (after_all (begun b) x).stood.nodes n ≡ true → is_ended (after_all (begun b) x).stood.nodes n ≡ true → is_ended (after_all (begun b) (x ++ y)).stood.nodes n ≡ true }
{}
