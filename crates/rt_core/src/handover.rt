//! What is handed over to a task that is spawned.

ghost use Rattle.std.specs.Prelude.{◌≡◌};

use crate::Context;
use crate::small_name::SmallName;
use rt_world::Makes;
use std::alloc::Global;

/// What a task's state is made of: what is given along, the function that makes it, and the rest of its own context, whose
/// node is known once it is spawned.
pub(crate) struct Handover<C, F> {
    pub(crate) alloc: Global,
    pub(crate) name: SmallName,
    pub(crate) given: C,
    pub(crate) make: F,
}

impl<C, F: Drop> Handover<C, F> {
    /// Takes one apart that was handed back.
    pub(crate) fn into_parts(self) -> (SmallName, C)
        ensures { result ≡ (self.name, self.given) }
    {
        let Handover {
            alloc: _,
            name,
            given,
            make: _,
        } = self;
        (name, given)
    }

    /// Returns what was given along.
    pub(crate) fn into_given(self) -> C
        ensures { result ≡ self.given }
    {
        let (_name, given) = self.into_parts();
        given
    }
}

impl<T, C, F: FnOnce(C, Context) -> T + Drop> Makes<T> for Handover<C, F> {
    ghost use Rattle.rt_core.specs.Contexts.{context_on};

    ghost callable = { λ handover. F.IsAlwaysCallable handover.make };

    ghost makes = { λ handover node state. F.post handover.make handover.given (context_on node handover.name) state };

    fn make(self, node: u64) -> T {
        let Handover {
            alloc,
            name,
            given,
            make,
        } = self;
        make(given, Context::on(alloc, node, name))
    }
}
