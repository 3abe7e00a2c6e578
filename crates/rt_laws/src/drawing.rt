//! The definitions tried on calls that draw.

ghost use Rattle.std.specs.Prelude.{◌≡◌, ◌≢◌, ◌≤◌, ◌<◌, ◌^◌, ◌++◌, [], ◌∷◌, ℕ, List, Option, Some, length, codes};
ghost use Rattle.rand_core.specs.Stream.{Stream};
ghost use Rattle.rt_base.specs.declared.error.Error.{Error};
ghost use Rattle.rt_audit.specs.declared.call.Call.{Call as CallOf};
ghost use Rattle.rt_audit.specs.declared.call.Call.TheVariants.{NextU32, NextU64, FillBytes, Auditor};
ghost use Rattle.rt_audit.specs.declared.reply.CallReply.{CallReply};
ghost use Rattle.rt_audit.specs.declared.reply.CallReply.TheVariants.{Number, Bytes, Refused};
ghost use Rattle.rt_audit.specs.declared.entry.Entry.{Entry};
ghost use Rattle.rt_audit.specs.declared.entry.Entry.TheVariants.{Call};
ghost use Rattle.rt_audit.specs.declared.finish.FinishCause.{FinishCause};
ghost use Rattle.rt_audit.specs.declared.finish.FinishCause.TheVariants.{Completed, Stalled};
ghost use Rattle.rt_model.specs.declared.begin.Begin.{Begin};
ghost use Rattle.rt_model.specs.Draws.{Drawn, Long, Filled};
ghost use Rattle.rt_model.specs.State.{State, begun};
ghost use Rattle.rt_model.specs.Effects.{after_all};
ghost use Rattle.rt_model.specs.Events.{announced_by};
ghost use Rattle.rt_model.specs.Rules.{Answers, IsLawful, AreDrawn};
ghost use Rattle.rt_model.specs.Run.{IsRun, IsValidInput};
ghost use Rattle.rt_model.specs.Tied.{Value, nothing};
ghost use Rattle.rt_machine.specs.Draws.{Gave};
ghost use Rattle.rt_laws.specs.Examples.{small_begin, gave};
ghost use Rattle.rt_laws.specs.Drawing.{NeverGives, always, drawing_root, asking_root, moody_root, visited_again, draws_by, drawing_journal, asking_journal, moody_journal, events_of};

/// A root draws a number and then four bytes in a round for which 6 was drawn, and gives the number, whichever that is and
/// whichever the bytes are. These three were drawn, in this order.
pub fn a_root_that_draws_has_its_run()
    ensures run { (number : ℕ) (bytes : List ℕ) → number < 2 ^ 64 → length bytes ≡ 4 → IsRun drawing_root small_begin (drawing_journal number bytes) Completed (after_all (begun small_begin) (drawing_journal number bytes)) (gave number) }
    ensures order { (number : ℕ) (bytes : List ℕ) → AreDrawn (begun small_begin) (drawing_journal number bytes) }
    ensures drawn { (number : ℕ) (bytes : List ℕ) → (after_all (begun small_begin) (drawing_journal number bytes)).drawn ≡ Long 6 ∷ Long number ∷ Filled bytes ∷ [] }
{}

/// Each run of a root that draws completes, whatever is drawn: of the one above, and of one that draws bytes, however many, and
/// asks an auditor before it is ready.
pub fn inputs_that_draw_are_valid()
    ensures drawing { IsValidInput drawing_root small_begin }
    ensures asking { (len : ℕ) → IsValidInput (asking_root len) small_begin }
{}

/// A root that draws a number, and is ready unless that is 1, stalls where it is 1, so its input isn't valid.
pub fn a_root_that_pends_by_what_is_drawn_is_not_valid()
    ensures run { IsRun moody_root small_begin moody_journal Stalled (after_all (begun small_begin) moody_journal) nothing }
    ensures invalid { IsValidInput moody_root small_begin → ⊥ }
{}

/// For a generator that never gives 1 each run of that root completes in which that generator gave what was drawn (`valid`), though
/// not for all draws. There are such generators (`there`).
pub fn a_root_completes_for_its_generator()
    ensures valid { (stream left : Stream) → NeverGives 1 stream → (x : List Entry) (cause : FinishCause) (end : State) (value : Value (Unit {0}) ℕ) → IsRun moody_root small_begin x cause end value → Gave stream (after_all (begun small_begin) x).drawn left → cause ≡ Completed }
    ensures there { (number : ℕ) → number ≢ 1 → NeverGives 1 (always number) }
{}

/// A root that draws four bytes in its first poll and then asks an auditor gives their count, whichever the bytes and the digest are.
pub fn a_root_that_asks_has_its_run()
    ensures { (bytes digest : List ℕ) → length bytes ≡ 4 → length digest ≡ 4 → IsRun (asking_root 4) small_begin (asking_journal bytes digest) Completed (after_all (begun small_begin) (asking_journal bytes digest)) (gave 4) }
{}

/// The events of calls that a state keeps are those that announce the call which comes next, and no others (`state`). In the entries
/// of a run these stand directly before the call, and directly before these no other event of a call (`behind`).
pub fn a_call_comes_behind_its_own_event()
    ensures state { (s : State) (by : Option ℕ) (call : CallOf) (reply : CallReply) → IsLawful s (Call by call reply ∷ []) → s.announced ≡ announced_by s.stood call reply }
    ensures behind { (b : Begin) (x : List Entry) (by : Option ℕ) (call : CallOf) (reply : CallReply) → IsLawful (begun b) (x ++ Call by call reply ∷ []) → (front : List Entry) × (x ≡ front ++ events_of (announced_by (after_all (begun b) x).stood call reply)) × ((after_all (begun b) front).announced ≡ []) }
{}

/// What was drawn stays, and what is drawn later stands behind it. It decides nothing of what may come.
pub fn what_was_drawn_stays()
    ensures stays { (s : State) (x y : List Entry) → (more : List Drawn) × ((after_all s (x ++ y)).drawn ≡ (after_all s x).drawn ++ more) }
    ensures decides_nothing { (s : State) (drawn : List Drawn) (x : List Entry) → IsLawful (record s { drawn = drawn }) x → IsLawful s x }
{}

/// No call draws without its event (`unannounced`) or behind that of another (`announced`), and one that asks an auditor doesn't come
/// behind the event of `fill_bytes` (`silent`). No number is too great for its bits (`short`, `long`), and no fewer or more bytes are
/// drawn than were asked for (`bytes`).
pub fn near_misses_of_drawing_are_not_lawful()
    ensures unannounced { (number : ℕ) → IsLawful (begun small_begin) (visited_again (Call (Some 0) NextU64 (Number number) ∷ [])) → ⊥ }
    ensures announced { (number : ℕ) → IsLawful (begun small_begin) (visited_again (draws_by (codes "next_u32") NextU64 (Number number))) → ⊥ }
    ensures silent { (digest : List ℕ) → IsLawful (begun small_begin) (visited_again (draws_by (codes "fill_bytes") Auditor (Bytes digest))) → ⊥ }
    ensures short { (number : ℕ) → 2 ^ 32 ≤ number → IsLawful (begun small_begin) (visited_again (draws_by (codes "next_u32") NextU32 (Number number))) → ⊥ }
    ensures long { (number : ℕ) → 2 ^ 64 ≤ number → IsLawful (begun small_begin) (visited_again (draws_by (codes "next_u64") NextU64 (Number number))) → ⊥ }
    ensures bytes { (bytes : List ℕ) → length bytes ≢ 4 → IsLawful (begun small_begin) (visited_again (draws_by (codes "fill_bytes") (FillBytes 4) (Bytes bytes))) → ⊥ }
{}

/// A near miss of drawing with what may come there, a number of 32 bits that isn't too great. The others stand in the run
/// above.
pub fn near_misses_of_drawing_are_lawful_but_for_one_place()
    ensures { (number : ℕ) → number < 2 ^ 32 → IsLawful (begun small_begin) (visited_again (draws_by (codes "next_u32") NextU32 (Number number))) }
{}

/// In every state a call that draws is answered by what it asks for alone: a number that fits its bits, or as many bytes.
pub fn a_draw_is_answered_by_what_it_asks_for()
    ensures short { (s : State) (reply : CallReply) → Answers s NextU32 reply → (number : ℕ) × (reply ≡ Number number) × (number < 2 ^ 32) }
    ensures long { (s : State) (reply : CallReply) → Answers s NextU64 reply → (number : ℕ) × (reply ≡ Number number) × (number < 2 ^ 64) }
    ensures bytes { (s : State) (len : ℕ) (reply : CallReply) → Answers s (FillBytes len) reply → (bytes : List ℕ) × (reply ≡ Bytes bytes) × (length bytes ≡ len) }
{}

/// No draw is refused, out of memory or for any other cause, and none that asks for bytes is answered by more or fewer of
/// them (`count`).
pub fn other_answers_of_draws_are_refused()
    ensures short { (s : State) (error : Error) → Answers s NextU32 (Refused error) → ⊥ }
    ensures long { (s : State) (error : Error) → Answers s NextU64 (Refused error) → ⊥ }
    ensures bytes { (s : State) (len : ℕ) (error : Error) → Answers s (FillBytes len) (Refused error) → ⊥ }
    ensures count { (s : State) (len : ℕ) (bytes : List ℕ) → length bytes ≢ len → Answers s (FillBytes len) (Bytes bytes) → ⊥ }
{}
