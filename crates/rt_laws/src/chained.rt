//! The time over several runs, one behind the other.

ghost use Rattle.std.specs.Prelude.{◌≡◌, ◌≤◌, ◌++◌, ◌∷◌, ℕ, List};
ghost use Rattle.rt_audit.specs.Journal.{last_time};
ghost use Rattle.rt_audit.specs.declared.entry.Entry.{Entry};
ghost use Rattle.rt_model.specs.declared.begin.Begin.{Begin};
ghost use Rattle.rt_model.specs.State.{begun};
ghost use Rattle.rt_model.specs.Runs.{AreLawful, runs_after};
ghost use Rattle.rt_laws.specs.Examples.{small_begin};
ghost use Rattle.rt_laws.specs.Chained.{chain_journal};

/// The last time that a journal of several runs tells is that of the run under way, and the times that the journal tells never go
/// down.
pub fn time_never_goes_back_over_a_chain()
    ensures told { (b : Begin) (e : Entry) (x : List Entry) → AreLawful (begun b) (e ∷ x) → last_time (e ∷ x) ≡ (runs_after (begun b) (e ∷ x)).clock.time }
    ensures rises { (b : Begin) (x y : List Entry) → AreLawful (begun b) (x ++ y) → last_time x ≤ last_time (x ++ y) }
{}

/// A run may begin at the moment at which the one ahead of it ended (`here`), and at no other (`nowhere_else`).
pub fn a_run_goes_on_where_another_ended()
    ensures here { AreLawful (begun small_begin) (chain_journal 2000000) }
    ensures nowhere_else { (start : ℕ) → AreLawful (begun small_begin) (chain_journal start) → start ≡ 2000000 }
{}
