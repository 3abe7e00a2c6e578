// A value that has a line of its own in the text.
ghost use Rattle.std.specs.Prelude.{◌≡◌};
ghost use Rattle.rt_metrics.specs.Registry.{count_in, level_in, with_count, with_level, with_less, with_level_at, number_in};

/// The value of a counter or of a gauge.
#[derive(Clone, Copy, Debug, PartialEq, Eq)]
pub enum Sample {
    Count(u64),
    Level(i64),
}

impl Sample {
    /// The value, of whichever kind it is.
    pub(crate) fn number(self) -> i128
        ensures { result ≡ number_in self }
    {
        match self {
            Sample::Count(count) => i128::from(count),
            Sample::Level(level) => i128::from(level),
        }
    }

    /// The value of a counter, and 0 of a gauge.
    pub(crate) fn count(self) -> u64
        ensures { result ≡ count_in self }
    {
        match self {
            Sample::Count(count) => count,
            Sample::Level(_) => 0,
        }
    }

    /// The value of a gauge, and 0 of a counter.
    pub(crate) fn level(self) -> i64
        ensures { result ≡ level_in self }
    {
        match self {
            Sample::Count(_) => 0,
            Sample::Level(level) => level,
        }
    }

    /// A counter that has risen by so much, wrapping. A gauge stays as it is.
    pub(crate) fn counted(self, change: u64) -> Sample
        ensures { result ≡ with_count change self }
    {
        match self {
            Sample::Count(count) => Sample::Count(count.wrapping_add(change)),
            Sample::Level(_) => self,
        }
    }

    /// A gauge that has risen by so much, wrapping. A counter stays as it is.
    pub(crate) fn levelled(self, change: i64) -> Sample
        ensures { result ≡ with_level change self }
    {
        match self {
            Sample::Count(_) => self,
            Sample::Level(level) => Sample::Level(level.wrapping_add(change)),
        }
    }

    /// A gauge that has fallen by so much, wrapping. A counter stays as it is.
    pub(crate) fn lowered(self, change: i64) -> Sample
        ensures { result ≡ with_less change self }
    {
        match self {
            Sample::Count(_) => self,
            Sample::Level(level) => Sample::Level(level.wrapping_sub(change)),
        }
    }

    /// A gauge at this value. A counter stays as it is.
    pub(crate) fn levelled_at(self, value: i64) -> Sample
        ensures { result ≡ with_level_at value self }
    {
        match self {
            Sample::Count(_) => self,
            Sample::Level(_) => Sample::Level(value),
        }
    }
}
