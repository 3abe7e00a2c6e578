//! The definitions tried on signals and the shutdown.

ghost use Rattle.std.specs.Prelude.{◌≡◌, ◌≢◌, ◌⊎◌, ◌++◌, ◌∷◌, List, All, Contains, ℕ, ℤ, Option, Some, None};
ghost use Rattle.rt_super.specs.Signals.{ShowShutdown, signal_group};
ghost use Rattle.rt_audit.specs.declared.call.Call.TheVariants.{CloneSignal, SignalPoll, SignalClose, Stop, Stopped};
ghost use Rattle.rt_audit.specs.declared.reply.CallReply.{CallReply};
ghost use Rattle.rt_audit.specs.declared.reply.CallReply.TheVariants.{ClosedWith, Done, SignalAt, Value as Shows};
ghost use Rattle.rt_audit.specs.declared.entry.Entry.{Entry};
ghost use Rattle.rt_audit.specs.declared.entry.Entry.TheVariants.{Call};
ghost use Rattle.rt_audit.specs.declared.finish.FinishCause.TheVariants.{Completed};
ghost use Rattle.rt_model.specs.declared.begin.Begin.{Begin};
ghost use Rattle.rt_model.specs.State.{begun};
ghost use Rattle.rt_model.specs.Effects.{after, after_all};
ghost use Rattle.rt_model.specs.Rules.{IsLawful};
ghost use Rattle.rt_model.specs.Run.{IsRun};
ghost use Rattle.rt_laws.specs.Examples.{small_begin, gave};
ghost use Rattle.rt_laws.specs.Signaling.{signaling_root, signaling_journal};

/// A root waits for the value of its own group by a second signal and is shown it; the completion is met once both signals
/// were given up.
pub fn a_signal_shows_its_value()
    ensures { IsRun signaling_root small_begin signaling_journal Completed (after_all (begun small_begin) signaling_journal) (gave 5) }
{}

/// In each run a signal that `stopped` gives is one of the shutdown (`given`), whose group stays the same (`group`). A copy of a
/// signal is of its group (`copied`). An open signal stays open and of its group unless it's given up (`kept`). The shutdown has no value before the first stop (`before`), and behind it the value of that (`first`),
/// which stays (`stays`). An open signal of the shutdown shows what that has (`shown`): a poll of it behind the first stop is
/// told the value (`polled`), and so is each later `stopped` (`later`), while an earlier one is given a signal (`open`).
pub fn each_signal_of_the_shutdown_shows_the_first_value()
    ensures given { (b : Begin) (x y : List Entry) (by : Option ℕ) (signal : ℕ) → IsLawful (begun b) (x ++ Call by Stopped (SignalAt signal) ∷ y) → let s = after_all (begun b) x in signal_group (after s (Call by Stopped (SignalAt signal))).stood.signals signal ≡ Some s.stood.stop.group }
    ensures group { (b : Begin) (x y : List Entry) → (after_all (begun b) (x ++ y)).stood.stop.group ≡ (after_all (begun b) x).stood.stop.group }
    ensures copied { (b : Begin) (x y : List Entry) (by : Option ℕ) (signal copy : ℕ) → IsLawful (begun b) (x ++ Call by (CloneSignal signal) (SignalAt copy) ∷ y) → let s = after_all (begun b) x in signal_group (after s (Call by (CloneSignal signal) (SignalAt copy))).stood.signals copy ≡ signal_group s.stood.signals signal }
    ensures kept { (b : Begin) (x y : List Entry) (signal group : ℕ) → signal_group (after_all (begun b) x).stood.signals signal ≡ Some group → let now = signal_group (after_all (begun b) (x ++ y)).stood.signals signal in (now ≡ Some group) ⊎ ((now ≡ None) × ((by : Option ℕ) × Contains y (Call by (SignalClose signal) Done))) }
    ensures before { (b : Begin) (x : List Entry) → All (λ (e : Entry). (by : Option ℕ) (value : ℤ) (reply : CallReply) → e ≢ Call by (Stop value) reply) x → (after_all (begun b) x).stood.stop.value ≡ None }
    ensures first { (b : Begin) (x y : List Entry) (by : Option ℕ) (value : ℤ) (reply : CallReply) → IsLawful (begun b) (x ++ Call by (Stop value) reply ∷ y) → (after_all (begun b) x).stood.stop.value ≡ None → (after_all (begun b) (x ++ Call by (Stop value) reply ∷ y)).stood.stop.value ≡ Some value }
    ensures stays { (b : Begin) (x y : List Entry) (v : ℤ) → (after_all (begun b) x).stood.stop.value ≡ Some v → (after_all (begun b) (x ++ y)).stood.stop.value ≡ Some v }
    ensures shown { (b : Begin) (x : List Entry) → IsLawful (begun b) x → ShowShutdown (after_all (begun b) x).stood.signals (after_all (begun b) x).stood.stop }
    ensures polled { (b : Begin) (x y : List Entry) (by : Option ℕ) (signal : ℕ) (v : ℤ) (reply : CallReply) → IsLawful (begun b) (x ++ Call by (SignalPoll signal) reply ∷ y) → signal_group (after_all (begun b) x).stood.signals signal ≡ Some (after_all (begun b) x).stood.stop.group → (after_all (begun b) x).stood.stop.value ≡ Some v → reply ≡ Shows v }
    ensures later { (b : Begin) (x y : List Entry) (by : Option ℕ) (v : ℤ) (reply : CallReply) → IsLawful (begun b) (x ++ Call by Stopped reply ∷ y) → (after_all (begun b) x).stood.stop.value ≡ Some v → reply ≡ ClosedWith v }
    ensures open { (b : Begin) (x y : List Entry) (by : Option ℕ) (reply : CallReply) → IsLawful (begun b) (x ++ Call by Stopped reply ∷ y) → (after_all (begun b) x).stood.stop.value ≡ None → reply ≡ SignalAt (after_all (begun b) x).stood.signals.count }
{}
