// A claim on a metric.
ghost use Rattle.std.specs.Prelude.{◌≡◌, ◌<◌, ◌^◌, ◌-◌, IsTrue};
ghost use Rattle.rt_metrics.specs.Registry.{is_held, claims_of, claimed, released};

use crate::registry::Registry;
use std::marker::PhantomData;

/// A claim on a metric of a [`Registry`], which has a number of its own. It must be spent by
/// [`release`](Self::release). A metric goes from its registry with its last claim. A claim doesn't say which registry
/// it came from: [`Registry::holds`] is the test for its number.
#[derive(Debug)]
pub struct Registered<M> {
    pub(crate) id: u64,
    pub(crate) kind: PhantomData<M>,
}

impl<M> Registered<M> {
    pub(crate) fn of(id: u64) -> Registered<M>
        ensures { result.id ≡ id }
    {
        Registered {
            id,
            kind: PhantomData,
        }
    }

    /// Returns the number of the metric.
    pub fn metric(&self) -> u64
        ensures { result ≡ self.now.id }
    {
        self.id
    }

    /// Returns one claim more on the same metric. It takes no memory.
    pub fn clone_claim(&self, registry: &mut Registry) -> Registered<M>
        requires held { IsTrue (is_held registry.old self.now.id) }
        requires few { claims_of registry.old self.now.id < 2 ^ 64 - 1 }
        ensures same { result.id ≡ self.now.id }
        ensures claimed { registry.new ≡ claimed registry.old self.now.id }
    {
        registry.claim(self.id);
        Registered::of(self.id)
    }

    /// Gives the claim up. It takes no memory.
    ///
    /// With the last claim the metric goes, with its values and those of its children. The last metric of its name
    /// takes its place in the text, and a name goes with its last metric.
    pub fn release(self, registry: &mut Registry)
        ensures { registry.new ≡ released registry.old self.id }
    {
        let Registered { id, kind: _ } = self;
        registry.give_up(id);
    }
}
