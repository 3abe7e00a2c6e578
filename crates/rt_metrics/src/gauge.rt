// Gauges.
ghost use Rattle.std.specs.Prelude.{◌≡◌, IsTrue, pos};
ghost use Rattle.rt_metrics.specs.Registry.{is_held, level_of, levelled, lowered, levelled_at};

use crate::home::Home;
use crate::raw;
use crate::registered::Registered;
use crate::registry::Registry;

/// The type of a gauge's value.
pub type GaugeValue = i64;

/// A claim on a gauge.
pub type Gauge = Registered<raw::Gauge>;

impl Registered<raw::Gauge> {
    /// Raises the gauge by one, wrapping, and returns its value before.
    pub fn inc(&self, registry: &mut Registry) -> i64
        requires held { IsTrue (is_held registry.old self.now.id) }
        ensures before { result ≡ level_of registry.old self.now.id }
        ensures raised { registry.new ≡ levelled registry.old self.now.id (pos 1) }
    {
        self.inc_by(registry, 1)
    }

    /// Lowers the gauge by one, wrapping, and returns its value before.
    pub fn dec(&self, registry: &mut Registry) -> i64
        requires held { IsTrue (is_held registry.old self.now.id) }
        ensures before { result ≡ level_of registry.old self.now.id }
        ensures lowered { registry.new ≡ lowered registry.old self.now.id (pos 1) }
    {
        self.dec_by(registry, 1)
    }

    /// Raises the gauge by so much, wrapping, and returns its value before.
    pub fn inc_by(&self, registry: &mut Registry, by: i64) -> i64
        requires held { IsTrue (is_held registry.old self.now.id) }
        ensures before { result ≡ level_of registry.old self.now.id }
        ensures raised { registry.new ≡ levelled registry.old self.now.id by }
    {
        let before = self.get(registry);
        registry.add_gauge(self.id, by);
        before
    }

    /// Lowers the gauge by so much, wrapping, and returns its value before.
    pub fn dec_by(&self, registry: &mut Registry, by: i64) -> i64
        requires held { IsTrue (is_held registry.old self.now.id) }
        ensures before { result ≡ level_of registry.old self.now.id }
        ensures lowered { registry.new ≡ lowered registry.old self.now.id by }
    {
        let before = self.get(registry);
        registry.lower(self.id, by);
        before
    }

    /// Sets the gauge, and returns its value before.
    pub fn set(&self, registry: &mut Registry, value: i64) -> i64
        requires held { IsTrue (is_held registry.old self.now.id) }
        ensures before { result ≡ level_of registry.old self.now.id }
        ensures set { registry.new ≡ levelled_at registry.old self.now.id value }
    {
        let before = self.get(registry);
        registry.set_level(self.id, value);
        before
    }

    /// Returns the value of the gauge.
    pub fn get(&self, registry: &Registry) -> i64
        requires held { IsTrue (is_held registry.now self.now.id) }
        ensures { result ≡ level_of registry.now self.now.id }
    {
        match registry.sample(self.id) {
            Some(sample) => sample.level(),
            None => 0,
        }
    }
}
