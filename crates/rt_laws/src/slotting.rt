//! The definitions tried on slots.

ghost use Rattle.std.specs.Prelude.{◌≡◌, ℕ, Some, Ok, Err};
ghost use Rattle.rt_base.specs.declared.error.Error.TheVariants.{Closed, Timeout};
ghost use Rattle.rt_audit.specs.declared.reply.CallReply.TheVariants.{Ready, Refused};
ghost use Rattle.rt_audit.specs.declared.finish.FinishCause.{FinishCause};
ghost use Rattle.rt_audit.specs.declared.finish.FinishCause.TheVariants.{Completed};
ghost use Rattle.rt_model.specs.State.{State, begun};
ghost use Rattle.rt_model.specs.Effects.{after_all};
ghost use Rattle.rt_model.specs.Tied.{Value};
ghost use Rattle.rt_model.specs.Run.{IsRun};
ghost use Rattle.rt_laws.specs.Examples.{small_begin, gave};
ghost use Rattle.rt_laws.specs.Supervised.{without_value};
ghost use Rattle.rt_laws.specs.Slotting.{Mailer, mailing_root, mailing_journal};

/// A root waits for a slot, sends a number or an error into it, which wakes it, and receives just that at its next poll. No
/// run over this journal gives another number.
pub fn what_was_sent_into_a_slot_is_received()
    ensures number { IsRun (mailing_root (Ok 7)) small_begin (mailing_journal Ready) Completed (after_all (begun small_begin) (mailing_journal Ready)) (gave 7) }
    ensures error { IsRun (mailing_root (Err Timeout)) small_begin (mailing_journal (Refused Timeout)) Completed (after_all (begun small_begin) (mailing_journal (Refused Timeout))) (gave without_value) }
    ensures value { (cause : FinishCause) (end : State) (value : Value Mailer ℕ) → IsRun (mailing_root (Ok 7)) small_begin (mailing_journal Ready) cause end value → value.output ≡ Some 7 }
{}

/// A number isn't received as an error, an error not as a number, and no other error than that which was sent. Each differs in
/// one reply from the runs of `what_was_sent_into_a_slot_is_received`.
pub fn near_misses_of_slots_are_no_runs()
    ensures number { (cause : FinishCause) (end : State) (value : Value Mailer ℕ) → IsRun (mailing_root (Ok 7)) small_begin (mailing_journal (Refused Timeout)) cause end value → ⊥ }
    ensures error { (cause : FinishCause) (end : State) (value : Value Mailer ℕ) → IsRun (mailing_root (Err Timeout)) small_begin (mailing_journal Ready) cause end value → ⊥ }
    ensures other_error { (cause : FinishCause) (end : State) (value : Value Mailer ℕ) → IsRun (mailing_root (Err Timeout)) small_begin (mailing_journal (Refused Closed)) cause end value → ⊥ }
{}
