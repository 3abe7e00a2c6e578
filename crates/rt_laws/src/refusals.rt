//! The definitions tried on calls that are refused.

ghost use Rattle.std.specs.Prelude.{[], Bool, ℕ};
ghost use Rattle.rt_base.specs.declared.error.Error.{Error};
ghost use Rattle.rt_audit.specs.declared.call.Call.TheVariants.{Child};
ghost use Rattle.rt_audit.specs.declared.reply.CallReply.TheVariants.{NodeAt, Refused};
ghost use Rattle.rt_model.specs.State.{begun};
ghost use Rattle.rt_model.specs.Rules.{IsLawful};
ghost use Rattle.rt_laws.specs.Examples.{small_begin};
ghost use Rattle.rt_laws.specs.Supervised.{handle};
ghost use Rattle.rt_laws.specs.Refusals.{asked};

/// A child with a bad label isn't granted (`bad_label`), and one that nothing speaks against isn't refused (`fit_label`).
pub fn near_misses_of_refusals_are_not_lawful()
    ensures bad_label { (number : ℕ) (ended : Bool) → IsLawful (begun small_begin) (asked (Child 0 []) (NodeAt number ended)) → ⊥ }
    ensures fit_label { (error : Error) → IsLawful (begun small_begin) (asked (Child 0 handle) (Refused error)) → ⊥ }
{}
