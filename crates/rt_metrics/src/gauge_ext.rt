// Gauges set to values of other types.
ghost use Rattle.std.specs.Prelude.{◌≡◌, ℕ, ℤ, IsTrue, Result};
ghost use Rattle.rt_metrics.specs.Registry.{is_held, Sets, SetsMax};

use crate::gauge::Gauge;
use crate::registry::Registry;

/// Sets a gauge to a value of another type, which may not fit.
pub trait GaugeExt {
    // The number of the metric.
    ghost number: { Self → ℕ };

    /// Sets the gauge to the value, and returns its value before.
    ///
    /// The conversion's error is returned unchanged, and then nothing has changed.
    fn try_set<V: TryInto<i64>>(&self, registry: &mut Registry, value: V) -> Result<i64, V::Error>
        requires held { IsTrue (is_held registry.old (number self.now)) }
        ensures { (converted : Result ℤ V.Error) × V.try_into_gives value converted × Sets registry.old (number self.now) converted result registry.new };

    /// Raises the gauge to at least the value, and returns its value before.
    ///
    /// The conversion's error is returned unchanged, and then nothing has changed.
    fn try_set_max<V: TryInto<i64>>(
        &self,
        registry: &mut Registry,
        value: V,
    ) -> Result<i64, V::Error>
        requires held { IsTrue (is_held registry.old (number self.now)) }
        ensures { (converted : Result ℤ V.Error) × V.try_into_gives value converted × SetsMax registry.old (number self.now) converted result registry.new };
}

impl GaugeExt for Gauge {
    ghost number = { λ g. g.id };

    fn try_set<V: TryInto<i64>>(&self, registry: &mut Registry, value: V) -> Result<i64, V::Error> {
        let value = value.try_into()?;
        Ok(self.set(registry, value))
    }

    fn try_set_max<V: TryInto<i64>>(
        &self,
        registry: &mut Registry,
        value: V,
    ) -> Result<i64, V::Error> {
        let value = value.try_into()?;
        let before = self.get(registry);
        Ok(self.set(registry, value.max(before)))
    }
}
