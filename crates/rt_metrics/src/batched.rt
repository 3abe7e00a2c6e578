// Updates of one writer that are published in batches.
ghost use Rattle.std.specs.Prelude.{◌≡◌, ◌<◌, ◌+◌, if◌then◌else◌, ℤ, pos};
ghost use Rattle.std.specs.Bool.{MatchBool};
ghost use Rattle.rt_metrics.specs.Batches.{Change, Takes, is_full, raised_level, lowered_level, level_change};
ghost use Rattle.rt_metrics.specs.Batches.Change.{Levels};

use crate::home::Home;
use crate::raw;

/// A metric whose updates can be published in batches: a counter or a gauge.
pub trait Batchable {
    type Value: Copy;

    ghost zero: { Self.Value };

    ghost one: { Self.Value };

    // A value that has risen by so much, wrapping.
    ghost raised: { Self.Value → Self.Value → Self.Value };

    // The change from one value to another, wrapping.
    ghost change: { Self.Value → Self.Value → Self.Value };

    // What a home takes in of a change.
    ghost told: { Self.Value → Change };

    /// Returns the value 0.
    fn zero() -> Self::Value
        ensures { result ≡ zero };

    /// Returns the value 1.
    fn one() -> Self::Value
        ensures { result ≡ one };

    /// Returns a value raised by so much, wrapping.
    fn raised(value: Self::Value, by: Self::Value) -> Self::Value
        ensures { result ≡ raised value by };

    /// Returns the change from one value to another, wrapping.
    fn change(from: Self::Value, to: Self::Value) -> Self::Value
        ensures { result ≡ change from to };

    /// Adds a change to the metric of this number in a home.
    fn tell<H: Home>(home: &mut H, id: u64, by: Self::Value)
        ensures { Takes H.counts H.levels home.old id (told by) home.new };
}

impl Batchable for raw::Counter {
    type Value = u64;

    ghost use Rattle.rt_metrics.specs.Batches.{raised_count, count_change};
    ghost use Rattle.rt_metrics.specs.Batches.Change.{Counts};

    ghost zero = { 0 };

    ghost one = { 1 };

    ghost raised = { raised_count };

    ghost change = { count_change };

    ghost told = { λ n. Counts n };

    fn zero() -> u64 {
        0
    }

    fn one() -> u64 {
        1
    }

    fn raised(value: u64, by: u64) -> u64 {
        value.wrapping_add(by)
    }

    fn change(from: u64, to: u64) -> u64 {
        to.wrapping_sub(from)
    }

    fn tell<H: Home>(home: &mut H, id: u64, by: u64) {
        home.add_counter(id, by);
    }
}

impl Batchable for raw::Gauge {
    type Value = i64;

    ghost zero = { pos 0 };

    ghost one = { pos 1 };

    ghost raised = { raised_level };

    ghost change = { level_change };

    ghost told = { λ z. Levels z };

    fn zero() -> i64 {
        0
    }

    fn one() -> i64 {
        1
    }

    fn raised(value: i64, by: i64) -> i64 {
        value.wrapping_add(by)
    }

    fn change(from: i64, to: i64) -> i64 {
        to.wrapping_sub(from)
    }

    fn tell<H: Home>(home: &mut H, id: u64, by: i64) {
        home.add_gauge(id, by);
    }
}

/// One writer's total of a metric, whose change is published to the metric's home after every `size` updates. It is
/// also published when the total is given up by [`release`](Self::release). Totals wrap. Each update counts toward a
/// batch, also one that leaves the total as it was. No call takes memory.
#[derive(Debug)]
pub struct Batched<M: Batchable> {
    /// The number of the metric.
    id: u64,
    /// How many updates are a batch.
    size: u32,
    value: M::Value,
    /// The total that the home knows.
    published: M::Value,
    /// How many updates came since.
    pending: u32,
}

impl<M: Batchable> Batched<M> {
    /// Makes a total of 0, for the metric of this number, published after every `size` updates.
    pub fn new(id: u64, size: u32) -> Self
        requires { 0 < size }
        ensures id { result.id ≡ id }
        ensures size { result.size ≡ size }
        ensures value { result.value ≡ M.zero }
        ensures published { result.published ≡ M.zero }
        ensures pending { result.pending ≡ 0 }
    {
        Batched {
            id,
            size,
            value: M::zero(),
            published: M::zero(),
            pending: 0,
        }
    }

    /// Returns the writer's total, with what isn't published yet.
    pub fn get(&self) -> M::Value
        ensures { result ≡ self.now.value }
    {
        self.value
    }

    /// Raises the total by one, and publishes the change where that completes a batch.
    pub fn inc<H: Home>(&mut self, home: &mut H)
        ensures id { self.new.id ≡ self.old.id }
        ensures size { self.new.size ≡ self.old.size }
        ensures value { self.new.value ≡ M.raised self.old.value M.one }
        ensures published { self.new.published ≡ (if is_full self.old.pending self.old.size then self.new.value else self.old.published) }
        ensures pending { self.new.pending ≡ (if is_full self.old.pending self.old.size then 0 else self.old.pending + 1) }
        ensures home { MatchBool (is_full self.old.pending self.old.size) (Takes H.counts H.levels home.old self.old.id (M.told (M.change self.old.published self.new.value)) home.new) (home.new ≡ home.old) }
    {
        self.update(home, M::raised(self.value, M::one()));
    }

    /// Raises the total by so much, and publishes the change where that completes a batch.
    pub fn inc_by<H: Home>(&mut self, home: &mut H, by: M::Value)
        ensures id { self.new.id ≡ self.old.id }
        ensures size { self.new.size ≡ self.old.size }
        ensures value { self.new.value ≡ M.raised self.old.value by }
        ensures published { self.new.published ≡ (if is_full self.old.pending self.old.size then self.new.value else self.old.published) }
        ensures pending { self.new.pending ≡ (if is_full self.old.pending self.old.size then 0 else self.old.pending + 1) }
        ensures home { MatchBool (is_full self.old.pending self.old.size) (Takes H.counts H.levels home.old self.old.id (M.told (M.change self.old.published self.new.value)) home.new) (home.new ≡ home.old) }
    {
        self.update(home, M::raised(self.value, by));
    }

    /// Publishes what isn't published yet, and spends the total.
    pub fn release<H: Home>(self, home: &mut H)
        ensures { Takes H.counts H.levels home.old self.id (M.told (M.change self.published self.value)) home.new }
    {
        let Batched {
            id,
            size: _,
            value,
            published,
            pending: _,
        } = self;
        M::tell(home, id, M::change(published, value));
    }

    /// Takes a new total, and publishes it where it completes a batch.
    fn update<H: Home>(&mut self, home: &mut H, value: M::Value)
        ensures id { self.new.id ≡ self.old.id }
        ensures size { self.new.size ≡ self.old.size }
        ensures value { self.new.value ≡ value }
        ensures published { self.new.published ≡ (if is_full self.old.pending self.old.size then value else self.old.published) }
        ensures pending { self.new.pending ≡ (if is_full self.old.pending self.old.size then 0 else self.old.pending + 1) }
        ensures home { MatchBool (is_full self.old.pending self.old.size) (Takes H.counts H.levels home.old self.old.id (M.told (M.change self.old.published value)) home.new) (home.new ≡ home.old) }
    {
        self.value = value;
        if u64::from(self.pending) + 1 < u64::from(self.size) {
            self.pending += 1;
        } else {
            M::tell(home, self.id, M::change(self.published, value));
            self.published = value;
            self.pending = 0;
        }
    }
}

impl Batched<raw::Gauge> {
    /// Lowers the total by one, and publishes the change where that completes a batch.
    pub fn dec<H: Home>(&mut self, home: &mut H)
        ensures id { self.new.id ≡ self.old.id }
        ensures size { self.new.size ≡ self.old.size }
        ensures value { self.new.value ≡ lowered_level self.old.value (pos 1) }
        ensures published { self.new.published ≡ (if is_full self.old.pending self.old.size then self.new.value else self.old.published) }
        ensures pending { self.new.pending ≡ (if is_full self.old.pending self.old.size then 0 else self.old.pending + 1) }
        ensures home { MatchBool (is_full self.old.pending self.old.size) (Takes H.counts H.levels home.old self.old.id (Levels (level_change self.old.published self.new.value)) home.new) (home.new ≡ home.old) }
    {
        self.dec_by(home, 1);
    }

    /// Lowers the total by so much, and publishes the change where that completes a batch.
    pub fn dec_by<H: Home>(&mut self, home: &mut H, by: i64)
        ensures id { self.new.id ≡ self.old.id }
        ensures size { self.new.size ≡ self.old.size }
        ensures value { self.new.value ≡ lowered_level self.old.value by }
        ensures published { self.new.published ≡ (if is_full self.old.pending self.old.size then self.new.value else self.old.published) }
        ensures pending { self.new.pending ≡ (if is_full self.old.pending self.old.size then 0 else self.old.pending + 1) }
        ensures home { MatchBool (is_full self.old.pending self.old.size) (Takes H.counts H.levels home.old self.old.id (Levels (level_change self.old.published self.new.value)) home.new) (home.new ≡ home.old) }
    {
        self.update(home, lowered(self.value, by));
    }

    /// Sets the total, and publishes the change where that completes a batch.
    pub fn set<H: Home>(&mut self, home: &mut H, value: i64)
        ensures id { self.new.id ≡ self.old.id }
        ensures size { self.new.size ≡ self.old.size }
        ensures value { self.new.value ≡ value }
        ensures published { self.new.published ≡ (if is_full self.old.pending self.old.size then self.new.value else self.old.published) }
        ensures pending { self.new.pending ≡ (if is_full self.old.pending self.old.size then 0 else self.old.pending + 1) }
        ensures home { MatchBool (is_full self.old.pending self.old.size) (Takes H.counts H.levels home.old self.old.id (Levels (level_change self.old.published self.new.value)) home.new) (home.new ≡ home.old) }
    {
        self.update(home, value);
    }
}

/// A total that has fallen by so much, wrapping.
fn lowered(value: i64, by: i64) -> i64
    ensures { result ≡ lowered_level value by }
{
    value.wrapping_sub(by)
}
