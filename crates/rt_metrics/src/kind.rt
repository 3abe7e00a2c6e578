// The four kinds of metrics.
ghost use Rattle.std.specs.Prelude.{◌≡◌};
ghost use Rattle.rt_metrics.specs.Registry.{first_sample, same_kind};
ghost use Rattle.rt_metrics.specs.MetricText.{kind_word, kind_suffix};

use crate::sample::Sample;

/// What a name is registered as: a counter or a gauge, or a family of these.
#[derive(Clone, Copy, Debug, PartialEq, Eq)]
pub enum Kind {
    Counter,
    Gauge,
    CounterFamily,
    GaugeFamily,
}

impl Kind {
    /// Whether the two are one kind.
    pub(crate) fn is(self, other: Kind) -> bool
        ensures { result ≡ same_kind self other }
    {
        match (self, other) {
            (Kind::Counter, Kind::Counter) => true,
            (Kind::Gauge, Kind::Gauge) => true,
            (Kind::CounterFamily, Kind::CounterFamily) => true,
            (Kind::GaugeFamily, Kind::GaugeFamily) => true,
            _ => false,
        }
    }

    /// The value that a new metric of this kind has. A family has none: its children have.
    pub(crate) fn first_sample(self) -> Option<Sample>
        ensures { result ≡ first_sample self }
    {
        match self {
            Kind::Counter => Some(Sample::Count(0)),
            Kind::Gauge => Some(Sample::Level(0)),
            Kind::CounterFamily | Kind::GaugeFamily => None,
        }
    }

    /// The word of the `# TYPE` line.
    pub(crate) fn word(self) -> &'static str
        ensures { result.now ≡ kind_word self }
    {
        match self {
            Kind::Counter | Kind::CounterFamily => "counter",
            Kind::Gauge | Kind::GaugeFamily => "gauge",
        }
    }

    /// What the name of a sample has at its end.
    pub(crate) fn suffix(self) -> &'static str
        ensures { result.now ≡ kind_suffix self }
    {
        match self {
            Kind::Counter | Kind::CounterFamily => "_total",
            Kind::Gauge | Kind::GaugeFamily => "",
        }
    }
}
