// Counters.
ghost use Rattle.std.specs.Prelude.{◌≡◌, IsTrue};
ghost use Rattle.rt_metrics.specs.Registry.{is_held, count_of, counted};

use crate::home::Home;
use crate::raw;
use crate::registered::Registered;
use crate::registry::Registry;

/// A claim on a counter.
pub type Counter = Registered<raw::Counter>;

impl Registered<raw::Counter> {
    /// Raises the counter by one, wrapping, and returns its value before.
    pub fn inc(&self, registry: &mut Registry) -> u64
        requires held { IsTrue (is_held registry.old self.now.id) }
        ensures before { result ≡ count_of registry.old self.now.id }
        ensures raised { registry.new ≡ counted registry.old self.now.id 1 }
    {
        self.inc_by(registry, 1)
    }

    /// Raises the counter by so much, wrapping, and returns its value before.
    pub fn inc_by(&self, registry: &mut Registry, by: u64) -> u64
        requires held { IsTrue (is_held registry.old self.now.id) }
        ensures before { result ≡ count_of registry.old self.now.id }
        ensures raised { registry.new ≡ counted registry.old self.now.id by }
    {
        let before = self.get(registry);
        registry.add_counter(self.id, by);
        before
    }

    /// Returns the value of the counter.
    pub fn get(&self, registry: &Registry) -> u64
        requires held { IsTrue (is_held registry.now self.now.id) }
        ensures { result ≡ count_of registry.now self.now.id }
    {
        match registry.sample(self.id) {
            Some(sample) => sample.count(),
            None => 0,
        }
    }
}
