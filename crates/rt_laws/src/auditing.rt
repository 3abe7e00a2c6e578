//! The digest that an auditor's answer tells.

ghost use Rattle.std.specs.Prelude.{◌≡◌, ◌≢◌, ◌++◌, [], ◌∷◌, ℕ, List, Option, Some, None, length};
ghost use Rattle.rt_base.specs.declared.error.Error.{Error};
ghost use Rattle.rt_audit.specs.Digest.{first_digest};
ghost use Rattle.rt_audit.specs.Journal.{digest_from};
ghost use Rattle.rt_audit.specs.declared.call.Call.TheVariants.{Auditor};
ghost use Rattle.rt_audit.specs.declared.reply.CallReply.{CallReply};
ghost use Rattle.rt_audit.specs.declared.reply.CallReply.TheVariants.{Bytes, Refused};
ghost use Rattle.rt_audit.specs.declared.entry.Entry.{Entry};
ghost use Rattle.rt_audit.specs.declared.entry.Entry.TheVariants.{Start, Call};
ghost use Rattle.rt_model.specs.Digests.{AreDigested};
ghost use Rattle.rt_model.specs.State.{State};
ghost use Rattle.rt_model.specs.Rules.{Answers};
ghost use Rattle.rt_laws.specs.Examples.{opening, visiting_root};

/// An auditor's answer is the digest of the events before it, counted from that of the events before all entries, and no other.
pub fn an_auditor_tells_the_digest_of_the_events_before()
    ensures only { (digest bytes : List ℕ) (x y : List Entry) (by : Option ℕ) → AreDigested digest (x ++ Call by Auditor (Bytes bytes) ∷ y) → bytes ≡ digest_from digest x }
    ensures that { (digest : List ℕ) (x : List Entry) (by : Option ℕ) → AreDigested digest x → AreDigested digest (x ++ Call by Auditor (Bytes (digest_from digest x)) ∷ []) }
{}

/// Before any event the maker is told four zeros (`zeros`), and no other bytes are the digest (`other`).
/// Behind the event of its first visit the root is told the digest of that, as another program worked it out (`behind`).
pub fn an_auditor_tells_four_zeros_at_first()
    ensures zeros { AreDigested first_digest (Start 0 0 None 1000000 ∷ Call None Auditor (Bytes first_digest) ∷ []) }
    ensures other { (bytes : List ℕ) → bytes ≢ first_digest → AreDigested first_digest (Start 0 0 None 1000000 ∷ Call None Auditor (Bytes bytes) ∷ []) → ⊥ }
    ensures behind { AreDigested first_digest (opening ++ visiting_root ++ (Call (Some 0) Auditor (Bytes (50 ∷ 255 ∷ 208 ∷ 192 ∷ [])) ∷ [])) }
{}

/// In every state an auditor's call is answered by four bytes (`answer`). So it isn't refused (`refused`), and no other count of bytes
/// answers it (`count`).
pub fn an_auditor_is_answered_by_four_bytes()
    ensures answer { (s : State) (reply : CallReply) → Answers s Auditor reply → (bytes : List ℕ) × (reply ≡ Bytes bytes) × (length bytes ≡ 4) }
    ensures refused { (s : State) (error : Error) → Answers s Auditor (Refused error) → ⊥ }
    ensures count { (s : State) (bytes : List ℕ) → length bytes ≢ 4 → Answers s Auditor (Bytes bytes) → ⊥ }
{}
