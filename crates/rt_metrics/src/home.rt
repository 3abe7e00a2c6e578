// Where values of metrics are kept.
ghost use Rattle.std.specs.Prelude.{ℕ, ℤ};

/// What holds the values of metrics, each by its number.
///
/// A change of a number that isn't registered any more has no effect, nor has one of the other kind.
pub trait Home {
    ghost counts: { Self → ℕ → ℕ → Self → Type 0 };

    ghost levels: { Self → ℕ → ℤ → Self → Type 0 };

    /// Adds a change to the counter of this number, wrapping. It takes no memory.
    fn add_counter(&mut self, id: u64, change: u64)
        ensures { counts self.old id change self.new };

    /// Adds a change to the gauge of this number, wrapping. It takes no memory.
    fn add_gauge(&mut self, id: u64, change: i64)
        ensures { levels self.old id change self.new };
}
