//! The definitions tried on a task that is woken twice.

ghost use Rattle.std.specs.Prelude.{◌≡◌, [], ◌∷◌, ℕ, List};
ghost use Rattle.rt_audit.specs.declared.finish.FinishCause.TheVariants.{Completed};
ghost use Rattle.rt_model.specs.Draws.{shuffled};
ghost use Rattle.rt_model.specs.State.{begun};
ghost use Rattle.rt_model.specs.Effects.{after_all};
ghost use Rattle.rt_model.specs.Rules.{AreDrawn};
ghost use Rattle.rt_model.specs.Run.{IsRun};
ghost use Rattle.rt_laws.specs.Examples.{small_begin};
ghost use Rattle.rt_laws.specs.Supervised.{gave_beside};
ghost use Rattle.rt_laws.specs.Twice.{twice_root, twice_journal, passed_by, passed_in, drawn_for_two};

/// A task that is woken twice stands twice in the next round. It is ready at its first visit, and its number is passed over
/// at the second. It was left pending before, so the end of its node queues it: its number stands in the order of the round
/// behind that as well, and is passed over there. The root that joins it gives its value.
pub fn a_task_that_is_woken_twice_has_its_run()
    ensures run { IsRun twice_root small_begin twice_journal Completed (after_all (begun small_begin) twice_journal) (gave_beside 1 7) }
    ensures drawn { AreDrawn (begun small_begin) twice_journal }
{}

/// The numbers of a round stand as its draws shuffle the ready list, from the last place down, with one draw for each place but the
/// first. One draw is made for two numbers (`draw`).
pub fn a_round_is_drawn()
    ensures place { AreDrawn (begun small_begin) (passed_in (0 ∷ 1 ∷ [])) }
    ensures turned { AreDrawn (begun small_begin) (passed_by (6 ∷ []) (1 ∷ 0 ∷ [])) }
    ensures three { shuffled (5 ∷ 6 ∷ 7 ∷ []) (3 ∷ 5 ∷ []) ≡ 7 ∷ 6 ∷ 5 ∷ [] }
    ensures draw { (one : ℕ) → AreDrawn (begun small_begin) (drawn_for_two (one ∷ [])) }
{}

/// A round of two numbers isn't drawn with another place, with no draw or with two. A second draw for two numbers isn't,
/// whether a round follows or not (`one_too_many`).
pub fn near_misses_of_draws_are_not_drawn()
    ensures other_place { AreDrawn (begun small_begin) (passed_in (1 ∷ 0 ∷ [])) → ⊥ }
    ensures unturned { AreDrawn (begun small_begin) (passed_by (6 ∷ []) (0 ∷ 1 ∷ [])) → ⊥ }
    ensures missing_draw { (order : List ℕ) → AreDrawn (begun small_begin) (passed_by [] order) → ⊥ }
    ensures second_draw { (one two : ℕ) (order : List ℕ) → AreDrawn (begun small_begin) (passed_by (one ∷ two ∷ []) order) → ⊥ }
    ensures one_too_many { (one two : ℕ) → AreDrawn (begun small_begin) (drawn_for_two (one ∷ two ∷ [])) → ⊥ }
{}
