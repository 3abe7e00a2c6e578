// A metric of its own, in no registry.
ghost use Rattle.std.specs.Prelude.{◌≡◌, ℕ, ℤ, pos, option_map};
ghost use Rattle.std.specs.Option.{option_map_or};
ghost use Rattle.rt_metrics.specs.Registry.{first_sample, number_in, with_count, with_level};

use crate::home::Home;
use crate::metric::Metric;
use crate::sample::Sample;
use std::marker::PhantomData;

/// A metric that is in no registry, with a guard that it hands back. It takes each number as its own. A change of the
/// other kind has no effect.
#[derive(Debug)]
pub struct Detached<M, R> {
    guard: R,
    sample: Option<Sample>,
    kind: PhantomData<M>,
}

impl<M: Metric, R> Detached<M, R> {
    /// Makes a metric of value 0.
    pub fn new(guard: R) -> Self
        ensures guard { result.guard ≡ guard }
        ensures sample { result.sample ≡ first_sample M.kind }
    {
        Detached {
            guard,
            sample: M::kind().first_sample(),
            kind: PhantomData,
        }
    }

    /// Makes a metric of value 0, whose guard keeps a registration elsewhere.
    pub fn with_registration(guard: R) -> Self
        ensures guard { result.guard ≡ guard }
        ensures sample { result.sample ≡ first_sample M.kind }
    {
        Detached::new(guard)
    }
}

impl<M, R> Detached<M, R> {
    /// Returns the value of the counter or gauge, and 0 for a family, which has none.
    pub fn get(&self) -> i128
        ensures { result ≡ option_map_or number_in self.now.sample (pos 0) }
    {
        match self.sample {
            Some(sample) => sample.number(),
            None => 0,
        }
    }

    /// Spends the metric and returns its guard.
    pub fn release(self) -> R
        ensures { result ≡ self.guard }
    {
        let Detached {
            guard,
            sample: _,
            kind: _,
        } = self;
        guard
    }
}

impl<M, R> Home for Detached<M, R> {
    ghost counts = { λ old id change new. new ≡ record old { sample = option_map (with_count change) old.sample } };

    ghost levels = { λ old id change new. new ≡ record old { sample = option_map (with_level change) old.sample } };

    fn add_counter(&mut self, id: u64, change: u64) {
        let _ = id;
        self.sample = match self.sample {
            Some(sample) => Some(sample.counted(change)),
            None => None,
        };
    }

    fn add_gauge(&mut self, id: u64, change: i64) {
        let _ = id;
        self.sample = match self.sample {
            Some(sample) => Some(sample.levelled(change)),
            None => None,
        };
    }
}
